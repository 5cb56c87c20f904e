// Readers of known bytes, and writers with room for so many.
use std::alloc::Global;
use std::io;
use std::io::{Error, ErrorKind};
use vm_sim::{Sink, Source};

/// A reader that gives these bytes, and then ends or fails.
#[derive(Drop)]
pub(crate) struct Given<'a> {
    bytes: &'a [u8],
    ends: bool,
    has_failed: bool,
}

impl<'a> Given<'a> {
    pub(crate) fn new(bytes: &'a [u8], ends: bool) -> Self {
        Given {
            bytes,
            ends,
            has_failed: false,
        }
    }

    /// How many bytes are left.
    pub(crate) fn left(&self) -> usize {
        self.bytes.len()
    }
}

impl Source for Given<'_> {
    ghost use Rattle.std.specs.Prelude.{None};

    ghost remaining = { λ _. None };

    ghost has_failed = { λ s. s.has_failed };

    fn read(&mut self, buf: &mut [u8]) -> io::Result<usize> {
        let count = buf.len().min(self.bytes.len());
        if count == 0 && !self.ends {
            self.has_failed = true;
            return Err(Error::from(ErrorKind::BrokenPipe));
        }
        buf[..count].copy_from_slice(&self.bytes[..count]);
        self.bytes = &self.bytes[count..];
        Ok(count)
    }

    fn failed(&self) -> bool {
        self.has_failed
    }
}

/// A writer that takes three bytes at a time, and nothing more once it is full.
#[derive(Drop)]
pub(crate) struct Narrow {
    held: Vec<u8>,
    room: usize,
    has_failed: bool,
}

impl Narrow {
    pub(crate) fn new(alloc: Global, room: usize) -> Self {
        Narrow {
            held: Vec::new(alloc),
            room,
            has_failed: false,
        }
    }

    /// What was written.
    pub(crate) fn into_held(self) -> Vec<u8> {
        self.held
    }
}

impl Sink for Narrow {
    ghost use Rattle.std.specs.Prelude.{Some};

    ghost contents = { λ s. Some s.held.items };

    ghost has_failed = { λ s. s.has_failed };

    fn write(&mut self, buf: &[u8]) -> io::Result<usize> {
        let count = buf.len().min(self.room).min(3);
        if self.held.extend_from_slice(&buf[..count]).is_err() {
            self.has_failed = true;
            return Err(Error::from(ErrorKind::OutOfMemory));
        }
        self.room -= count;
        if count == 0 && !buf.is_empty() {
            self.has_failed = true;
        }
        Ok(count)
    }

    fn failed(&self) -> bool {
        self.has_failed
    }
}
