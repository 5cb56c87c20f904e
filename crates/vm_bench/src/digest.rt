//! What the bytes of all results are told by.
use std::io;
use std::io::Write;

const OFFSET: u64 = 0xcbf2_9ce4_8422_2325;

const PRIME: u64 = 0x100_0000_01b3;

/// A digest of all bytes that were written, whatever the pieces in which they came: in the manner of FNV-1a (G. Fowler, L. C. Noll,
/// K.-P. Vo), over words of eight bytes, so that it takes little time beside what it tells of.
#[derive(Drop)]
pub struct Digest {
    hash: u64,
    length: u64,
    // The bytes behind the last whole word, fewer than eight.
    rest: [u8; 8],
    filled: usize,
}

impl Digest {
    /// Of no bytes.
    pub fn new() -> Self {
        Digest {
            hash: OFFSET,
            length: 0,
            rest: [0; 8],
            filled: 0,
        }
    }

    fn add_word(&mut self, word: [u8; 8]) {
        let mixed = self.hash.rotate_left(23) ^ u64::from_le_bytes(word);
        self.hash = mixed.wrapping_mul(PRIME);
    }

    fn add_byte(&mut self, byte: u8) {
        self.rest[self.filled % 8] = byte;
        self.filled = (self.filled % 8 + 1) % 8;
        if self.filled == 0 {
            self.add_word(self.rest);
        }
    }

    /// These bytes, behind those before.
    pub fn add(&mut self, bytes: &[u8]) {
        self.length = self.length.wrapping_add(bytes.len() as u64);
        let lead = ((8 - self.filled % 8) % 8).min(bytes.len());
        for &byte in &bytes[..lead] {
            self.add_byte(byte);
        }
        let whole = (bytes.len() - lead) / 8 * 8;
        for word in bytes[lead..lead + whole].chunks_exact(8) {
            if let Ok(word) = <[u8; 8]>::try_from(word) {
                self.add_word(word);
            }
        }
        for &byte in &bytes[lead + whole..] {
            self.add_byte(byte);
        }
    }

    /// The digest.
    pub fn hash(&self) -> u64 {
        let mut last = Digest {
            hash: self.hash,
            length: self.length,
            rest: self.rest,
            filled: self.filled,
        };
        for _ in 0..8 {
            last.add_byte((self.filled % 8) as u8);
        }
        last.hash
    }

    /// How many bytes there were.
    pub fn length(&self) -> u64 {
        self.length
    }
}

impl Write for Digest {
    fn write(&mut self, buf: &[u8]) -> io::Result<usize> {
        self.add(buf);
        Ok(buf.len())
    }

    fn flush(&mut self) -> io::Result<()> {
        Ok(())
    }
}
