// Readers and writers that fail, or that do little at a time.
use std::io::{self, ErrorKind, Read, Write};

/// Gives at most `size` bytes a read, and fails after `reads` reads.
#[derive(Drop)]
pub struct Drip<'a> {
    pub rest: &'a [u8],
    pub size: usize,
    pub reads: usize,
}

impl<'a> Read for Drip<'a> {
    fn read(&mut self, buf: &mut [u8]) -> io::Result<usize> {
        if self.reads == 0 {
            return Err(io::Error::from(ErrorKind::BrokenPipe));
        }
        self.reads -= 1;
        let count = self.size.min(buf.len()).min(self.rest.len());
        buf[..count].copy_from_slice(&self.rest[..count]);
        self.rest = &self.rest[count..];
        Ok(count)
    }
}

/// Takes at most `size` bytes a write; after `writes` writes it fails, or takes nothing.
#[derive(Drop)]
pub struct Narrow {
    pub text: Vec<u8>,
    pub size: usize,
    pub writes: usize,
    pub takes_nothing: bool,
}

impl Write for Narrow {
    fn write(&mut self, buf: &[u8]) -> io::Result<usize> {
        if self.writes == 0 {
            if self.takes_nothing {
                return Ok(0);
            }
            return Err(io::Error::from(ErrorKind::BrokenPipe));
        }
        self.writes -= 1;
        let count = self.size.min(buf.len());
        self.text.extend_from_slice(&buf[..count])?;
        Ok(count)
    }

    fn flush(&mut self) -> io::Result<()> {
        Ok(())
    }
}
