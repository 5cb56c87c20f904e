// The process that lines of valgrind name.
ghost use Rattle.std.specs.Prelude.{◌≡◌, ◌≤◌, length};

use std::marker::Model;

/// The most digits of a process.
pub(crate) const MAX_DIGITS: usize = 10;

/// The digits that name a process. A clause reads them as a list.
#[derive(Drop)]
pub(crate) struct Process {
    digits: [u8; MAX_DIGITS],
    len: usize,
}

impl Model for Process {
    ghost use Rattle.std.specs.Prelude.{◌≤◌, ℕ, List, take};

    ghost Value = { List ℕ };

    ghost view = { λ p. take p.len p.digits };

    ghost invariant = { λ p. p.len ≤ 10 };
}

impl Process {
    pub(crate) fn from_digits(digits: &[u8]) -> Self
        requires { length digits.now ≤ MAX_DIGITS }
        ensures { result ≡ digits.now }
    {
        let mut buffer = [0; MAX_DIGITS];
        buffer[..digits.len()].copy_from_slice(digits);
        Process {
            digits: buffer,
            len: digits.len(),
        }
    }

    pub(crate) fn digits(&self) -> &[u8]
        ensures { result.now ≡ self.now }
    {
        &self.digits[..self.len]
    }
}
