// Commands that ask the node, and those about tickets.
use super::Player;
use crate::node::fault::{Fault, tell};
use crate::node::print::print_landed;
use crate::node::runs::Runs;
use crate::node::seat::{close, landed, submitted};
use crate::node::words::{read_range, read_request};
use group_commit::Ticket;
use ring_records::{Refusal, Reply, Request};
use std::alloc::AllocError;

fn print_numbers(out: &mut String, no: u64, number: u64) -> Result<(), Fault> {
    writeln!(out, "ticket {no} on {number}")?;
    Ok(())
}

fn print_reply(out: &mut String, reply: Reply) -> Result<(), Fault> {
    writeln!(out, "{reply}")?;
    Ok(())
}

impl Player {
    // Asks the node: the number of the ticket, and how many inputs its reply rests on.
    fn submit(&mut self, question: Request) -> Result<(u64, u64), Fault> {
        if self.tickets.are_all_taken() {
            return Err(Fault::Tickets);
        }
        match submitted(&mut self.seat, question) {
            Ok(ticket) => self.keep(ticket),
            Err(fault) => Err(fault),
        }
    }

    fn keep(&mut self, ticket: Ticket) -> Result<(u64, u64), Fault> {
        let number = ticket.number();
        match self.tickets.keep(ticket) {
            Ok(no) => Ok((no, number)),
            Err(_) => Err(Fault::Memory),
        }
    }

    fn print_ticket(&mut self, question: Request, out: &mut String) -> Result<(), Fault> {
        match self.submit(question) {
            Ok((no, number)) => print_numbers(out, no, number),
            Err(fault) => Err(fault),
        }
    }

    pub(super) fn ask(
        &mut self,
        verb: &[u8],
        words: &[&[u8]],
        out: &mut String,
    ) -> Result<(), Fault> {
        match read_request(verb, words) {
            Ok(question) => self.print_ticket(question, out),
            Err(refusal) => Err(Fault::from(refusal)),
        }
    }

    // So many inputs become durable, of which the last one alone waits.
    fn settle(&mut self, number: u64) -> Result<(), Fault> {
        if number <= self.durable() {
            return Ok(());
        }
        match landed(&mut self.seat, false) {
            Ok(landed) => {
                drop(landed);
                Ok(())
            }
            Err(fault) => Err(fault),
        }
    }

    fn print_settled(&mut self, no: u64, number: u64, out: &mut String) -> Result<(), Fault> {
        write!(out, "ticket {no} on {number}: ")?;
        match self.settle(number) {
            Ok(()) => self.print_redeemed(no, out),
            Err(fault) => Err(fault),
        }
    }

    fn print_answered(&mut self, question: Request, out: &mut String) -> Result<(), Fault> {
        match self.submit(question) {
            Ok((no, number)) => self.print_settled(no, number, out),
            Err(fault) => Err(fault),
        }
    }

    /// Asks, flushes once where the reply rests on what is not durable, and redeems.
    pub(super) fn now(&mut self, words: &[&[u8]], out: &mut String) -> Result<(), Fault> {
        if words.is_empty() {
            return Err(Fault::Refused(Refusal::BadLine));
        }
        match read_request(words[0], &words[1..]) {
            Ok(question) => self.print_answered(question, out),
            Err(refusal) => Err(Fault::from(refusal)),
        }
    }

    pub(super) fn land(&mut self, is_checkpoint: bool, out: &mut String) -> Result<(), Fault> {
        let landed = landed(&mut self.seat, is_checkpoint)?;
        print_landed(out, &landed)?;
        Ok(())
    }

    pub(super) fn close(&mut self) -> Result<(), Fault> {
        close(&mut self.seat)
    }

    fn print_redeemed(&mut self, no: u64, out: &mut String) -> Result<(), Fault> {
        match self.tickets.redeem(&mut self.seat, no) {
            Ok(reply) => print_reply(out, reply),
            Err(fault) => Err(fault),
        }
    }

    fn redeem_one(&mut self, no: u64, out: &mut String) -> Result<(), AllocError> {
        match self.print_redeemed(no, out) {
            Ok(()) => Ok(()),
            Err(fault) => tell(out, fault),
        }
    }

    pub(super) fn redeem(&mut self, words: &[&[u8]], out: &mut String) -> Result<(), Fault> {
        let (first, last) = read_range(words)?;
        if first == last {
            self.redeem_one(first, out)?;
            return Ok(());
        }
        let mut runs = Runs::new(self.alloc);
        for no in first..last.wrapping_add(1) {
            let mut answer = String::new(self.alloc);
            self.redeem_one(no, &mut answer)?;
            runs.add(no, answer)?;
        }
        runs.print(out)?;
        Ok(())
    }

    pub(super) fn forfeit(&mut self, words: &[&[u8]]) -> Result<(), Fault> {
        let (first, last) = read_range(words)?;
        for no in first..last.wrapping_add(1) {
            self.tickets.forfeit(&mut self.seat, no)?;
        }
        Ok(())
    }

    pub(super) fn vouch(&mut self, words: &[&[u8]], out: &mut String) -> Result<(), Fault> {
        let (no, _) = read_range(words)?;
        if self.tickets.vouch(&self.seat, no)? {
            writeln!(out, "vouched")?;
        } else {
            writeln!(out, "not vouched")?;
        }
        Ok(())
    }
}
