// Commands that make, end and tear nodes and devices.
use super::Player;
use crate::node::fault::Fault;
use crate::node::print::print_counts;
use crate::node::seat::{Seat, arm, created, new_device, node_of, read, recovered, stopped, write};
use crate::node::words::{read_count, read_shape, read_tear};
use hex::FromHexError;
use line_words::read_number;
use ring_records::{GREATEST_CAPACITY, LEAST_CAPACITY, Refusal};
use std::mem::replace;

impl Player {
    // What stands here from now on, and whether that is as the command wants it.
    fn sit(&mut self, sits: (Seat, Option<Fault>)) -> Result<(), Fault> {
        let (seat, fault) = sits;
        drop(replace(&mut self.seat, seat));
        match fault {
            Some(fault) => Err(fault),
            None => Ok(()),
        }
    }

    pub(super) fn device(&mut self, capacity: u32) -> Result<(), Fault> {
        let device = new_device(self.alloc, capacity)?;
        self.sit((Seat::Device(device), None))
    }

    pub(super) fn stop(&mut self, words: &[&[u8]]) -> Result<(), Fault> {
        let tear = read_tear(words)?;
        let seat = replace(&mut self.seat, Seat::Empty);
        self.sit(stopped(seat, tear))
    }

    // A new node, on a device of its own.
    fn node(&mut self, words: &[&[u8]]) -> Result<(), Fault> {
        let shape = read_shape(words)?;
        let device = new_device(self.alloc, shape.capacity)?;
        self.sit(created(self.alloc, device, &shape))
    }

    // The same on the device that stands here.
    fn format(&mut self, words: &[&[u8]]) -> Result<(), Fault> {
        let shape = read_shape(words)?;
        match replace(&mut self.seat, Seat::Empty) {
            Seat::Device(device) => self.sit(created(self.alloc, device, &shape)),
            seat => self.sit((seat, Some(Fault::NoDevice))),
        }
    }

    // The node that the device holds which stands here, and what it has.
    fn recover(&mut self, words: &[&[u8]], out: &mut String) -> Result<(), Fault> {
        let shape = read_shape(words)?;
        match replace(&mut self.seat, Seat::Empty) {
            Seat::Device(device) => {
                self.sit(recovered(self.alloc, device, shape.me, shape.n))?;
                print_counts(out, node_of(&self.seat)?)?;
                Ok(())
            }
            seat => self.sit((seat, Some(Fault::NoDevice))),
        }
    }

    // `K [once]`: device call K from now on fails, 1 or more, and all later ones.
    fn arm(&mut self, words: &[&[u8]]) -> Result<(), Fault> {
        match words {
            [call] => arm(&mut self.seat, read_number(call, 1, 9_999)? - 1, false),
            [call, once] if *once == b"once".as_slice() => {
                arm(&mut self.seat, read_number(call, 1, 9_999)? - 1, true)
            }
            _ => Err(Fault::Refused(Refusal::BadLine)),
        }
    }

    // `O HEX`: writes these bytes at this offset.
    fn write(&mut self, words: &[&[u8]]) -> Result<(), Fault> {
        let [offset, digits] = words else {
            return Err(Fault::Refused(Refusal::BadLine));
        };
        let offset = read_count(offset)?;
        match hex::decode(self.alloc, *digits) {
            Ok(bytes) => write(&mut self.seat, offset, &bytes),
            Err(FromHexError::OutOfMemory) => Err(Fault::Memory),
            Err(_) => Err(Fault::Refused(Refusal::BadLine)),
        }
    }

    // `O C`: prints so many bytes from this offset on.
    fn read(&mut self, words: &[&[u8]], out: &mut String) -> Result<(), Fault> {
        let [offset, count] = words else {
            return Err(Fault::Refused(Refusal::BadLine));
        };
        let offset = read_count(offset)?;
        let count = read_number(count, 1, 64)? as usize;
        let mut bytes = vec![in self.alloc; 0; count]?;
        read(&mut self.seat, offset, &mut bytes)?;
        let digits = hex::encode(self.alloc, bytes.as_slice())?;
        writeln!(out, "{digits}")?;
        Ok(())
    }

    fn room(&mut self, words: &[&[u8]]) -> Result<(), Fault> {
        let least = LEAST_CAPACITY as u64;
        match words {
            [capacity] => self.device(
                read_number(capacity, least, GREATEST_CAPACITY as u64)? as u32,
            ),
            _ => Err(Fault::Refused(Refusal::BadLine)),
        }
    }

    pub(super) fn follow_device(
        &mut self,
        verb: &[u8],
        words: &[&[u8]],
        out: &mut String,
    ) -> Result<(), Fault> {
        if verb == b"node".as_slice() {
            self.node(words)
        } else if verb == b"format".as_slice() {
            self.format(words)
        } else if verb == b"recover".as_slice() {
            self.recover(words, out)
        } else if verb == b"stop".as_slice() {
            self.stop(words)
        } else if verb == b"device".as_slice() {
            self.room(words)
        } else if verb == b"arm".as_slice() {
            self.arm(words)
        } else if verb == b"write".as_slice() {
            self.write(words)
        } else if verb == b"read".as_slice() {
            self.read(words, out)
        } else {
            self.ask(verb, words, out)
        }
    }
}
