ghost use Rattle.std.specs.Prelude.{◌≡◌, ℕ, ◌≤◌, List, length, take};

use std::marker::Model;

/// The most bytes that a posted buffer may have.
pub(crate) const MOST_BYTES: usize = 1024;

/// The bytes of a posted buffer, which are kept in place.
#[derive(Drop)]
pub(crate) struct Buffer {
    // Beside the first bytes, which are mostly all that there are.
    len: usize,
    bytes: [u8; MOST_BYTES],
}

impl Model for Buffer {
    ghost Value = { List ℕ };

    ghost view = { λ b. take b.len b.bytes };

    ghost invariant = { λ b. b.len ≤ 1024 };
}

impl Buffer {
    /// A copy of these bytes.
    pub(crate) fn of(source: &[u8]) -> Self
        requires { length source.now ≤ 1024 }
        ensures { result ≡ source.now }
    {
        let len = source.len();
        let mut bytes = [0; MOST_BYTES];
        bytes[..len].copy_from_slice(source);
        Buffer { len, bytes }
    }

    /// Becomes a copy of these bytes.
    pub(crate) fn write(&mut self, source: &[u8])
        requires { length source.now ≤ 1024 }
        ensures { self.new ≡ source.now }
    {
        let len = source.len();
        self.bytes[..len].copy_from_slice(source);
        self.len = len;
    }

    /// The bytes.
    pub(crate) fn bytes(&self) -> &[u8]
        ensures bytes { result.now ≡ self.now }
        ensures few { length self.now ≤ 1024 }
    {
        &self.bytes[..self.len]
    }
}
