// The bytes of a raw buffer.
ghost use Rattle.std.specs.Prelude.{◌≡◌, ◌↔◌, ◌*◌, ◌≤◌, [], length, true, IsTrue};
ghost use Rattle.vm_trace.specs.Words.{is_hex, hex_pairs};

use crate::bytes::put_pairs;
use std::marker::Model;

/// The most bytes of a raw buffer.
pub const MAX_BUFFER: usize = 1024;

/// At most 1024 bytes, which lie in place. A clause reads them as a list.
#[derive(Clone, Copy, Debug, PartialEq, Eq)]
pub struct Buffer {
    len: u16,
    buffer: [u8; MAX_BUFFER],
}

impl Model for Buffer {
    ghost use Rattle.std.specs.Prelude.{ℕ, List, take};

    ghost Value = { List ℕ };

    ghost use Rattle.vm_trace.specs.Buffer.{padded, IsPadded, padded-take};

    ghost view = { λ b. take b.len b.buffer };

    // The rest of the buffer is zeros, so that equal bytes have equal buffers.
    ghost invariant = { IsPadded };

    ghost inverse = { padded };

    ghost inverse_ok = { padded-take };
}

impl Buffer {
    /// The bytes of a slice.
    pub fn from_slice(bytes: &[u8]) -> Self
        requires { length bytes.now ≤ MAX_BUFFER }
        ensures { result ≡ bytes.now }
    {
        let mut buffer = [0; MAX_BUFFER];
        buffer[..bytes.len()].copy_from_slice(bytes);
        Buffer {
            len: bytes.len() as u16,
            buffer,
        }
    }

    // The bytes that hexadecimal digits spell.
    pub(crate) fn from_hex(digits: &[u8]) -> Self
        requires digits { is_hex digits.now ≡ true }
        requires fits { length digits.now ≤ 2 * MAX_BUFFER }
        ensures { result ≡ hex_pairs digits.now }
    {
        let mut buffer = [0; MAX_BUFFER];
        put_pairs(&mut buffer, digits);
        Buffer {
            len: (digits.len() / 2) as u16,
            buffer,
        }
    }

    /// The bytes, in order.
    pub fn as_slice(&self) -> &[u8]
        ensures { result.now ≡ self.now }
    {
        &self.buffer[..self.len as usize]
    }

    /// How many bytes there are.
    pub fn len(&self) -> usize
        ensures count { result ≡ length self.now }
        ensures few { result ≤ MAX_BUFFER }
    {
        self.len as usize
    }

    /// Whether there is no byte.
    pub fn is_empty(&self) -> bool
        ensures { IsTrue result ↔ (self.now ≡ []) }
    {
        self.len == 0
    }
}
