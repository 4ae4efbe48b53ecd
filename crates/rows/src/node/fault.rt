// Why a command is not followed.
use ring_records::Refusal;
use std::alloc::AllocError;

/// Why a command is not followed.
#[derive(Clone, Copy)]
pub enum Fault {
    /// The line has a fault, or what is called refuses.
    Refused(Refusal),
    /// No node stands here.
    NoNode,
    /// No device stands here on its own.
    NoDevice,
    /// The node has open tickets.
    OpenTickets,
    /// No ticket of this number is open.
    NoTicket,
    /// No ticket of this number was redeemed.
    NoStub,
    /// The node takes requests.
    Open,
    /// The row took 2,000 tickets.
    Tickets,
    /// A growth of the player was refused, which ends all rows.
    Memory,
}

impl From<AllocError> for Fault {
    fn from(_error: AllocError) -> Fault {
        Fault::Memory
    }
}

impl From<Refusal> for Fault {
    fn from(refusal: Refusal) -> Fault {
        Fault::Refused(refusal)
    }
}

/// Adds the line that tells it.
pub fn tell(out: &mut String, fault: Fault) -> Result<(), AllocError> {
    let text = match fault {
        Fault::Refused(refusal) => return writeln!(out, "{refusal}"),
        Fault::NoNode => "no node",
        Fault::NoDevice => "no device",
        Fault::OpenTickets => "open tickets",
        Fault::NoTicket => "no ticket",
        Fault::NoStub => "no stub",
        Fault::Open => "open",
        Fault::Tickets => "too many tickets",
        Fault::Memory => return Err(AllocError),
    };
    writeln!(out, "{text}")
}
