// The bytes of a step, and how hexadecimal digits spell them.
ghost use Rattle.std.specs.Prelude.{◌≡◌, ◌↔◌, ◌+◌, ◌*◌, ◌<◌, ◌/◌, ◌≤◌, ◌++◌, [], drop, length, get_or, nat_lt, true, IsTrue};
ghost use Rattle.std.specs.List.{list_all};
ghost use Rattle.std.specs.Char.{digit_value};
ghost use Rattle.vm_trace.specs.Words.{is_hex, pair_of, hex_pairs};

use std::marker::Model;

/// The most bytes that a step has.
pub const MAX_BYTES: usize = 64;

/// At most 64 bytes, which lie in place. A clause reads them as a list.
#[derive(Clone, Copy, Debug, PartialEq, Eq)]
pub struct Bytes {
    len: u8,
    buffer: [u8; MAX_BYTES],
}

impl Model for Bytes {
    ghost use Rattle.std.specs.Prelude.{ℕ, List, take};

    ghost Value = { List ℕ };

    ghost use Rattle.vm_trace.specs.Bytes.{padded, IsPadded, padded-take};

    ghost view = { λ b. take b.len b.buffer };

    // The rest of the buffer is zeros, so that equal bytes have equal buffers.
    ghost invariant = { IsPadded };

    ghost inverse = { padded };

    ghost inverse_ok = { padded-take };
}

impl Bytes {
    /// The bytes of a slice.
    pub fn from_slice(bytes: &[u8]) -> Self
        requires { length bytes.now ≤ MAX_BYTES }
        ensures { result ≡ bytes.now }
    {
        let mut buffer = [0; MAX_BYTES];
        buffer[..bytes.len()].copy_from_slice(bytes);
        Bytes {
            len: bytes.len() as u8,
            buffer,
        }
    }

    /// The bytes, in order.
    pub fn as_slice(&self) -> &[u8]
        ensures { result.now ≡ self.now }
    {
        &self.buffer[..self.len as usize]
    }

    /// How many bytes there are.
    pub fn len(&self) -> usize
        ensures count { result ≡ length self.now }
        ensures few { result ≤ MAX_BYTES }
    {
        self.len as usize
    }

    /// Whether there is no byte.
    pub fn is_empty(&self) -> bool
        ensures { IsTrue result ↔ (self.now ≡ []) }
    {
        self.len == 0
    }

    // The bytes that hexadecimal digits spell.
    pub(crate) fn from_hex(digits: &[u8]) -> Self
        requires digits { is_hex digits.now ≡ true }
        requires fits { length digits.now ≤ 2 * MAX_BYTES }
        ensures { result ≡ hex_pairs digits.now }
    {
        let mut buffer = [0; MAX_BYTES];
        put_pairs(&mut buffer, digits);
        Bytes {
            len: (digits.len() / 2) as u8,
            buffer,
        }
    }
}

// Writes the bytes that hexadecimal digits spell over the front of a buffer.
pub(crate) fn put_pairs(buffer: &mut [u8], digits: &[u8])
    requires digits { is_hex digits.now ≡ true }
    requires fits { length digits.now ≤ 2 * length buffer.old }
    ensures { buffer.new ≡ hex_pairs digits.now ++ drop (length digits.now / 2) buffer.old }
{
    for i in 0..digits.len() / 2 {
        buffer[i] = byte_of(digits, i);
    }
}

// The byte that the two digits at a place spell, counted in pairs.
fn byte_of(digits: &[u8], place: usize) -> u8
    requires digits { is_hex digits.now ≡ true }
    requires inside { 2 * place + 1 < length digits.now }
    ensures { result ≡ 16 * digit_value (get_or digits.now (2 * place) 0) + digit_value (get_or digits.now (2 * place + 1) 0) }
{
    16 * hex_value(digits[2 * place]) + hex_value(digits[2 * place + 1])
}

// The byte that two hexadecimal digits spell.
pub(crate) fn pair_of(high: u8, low: u8) -> Option<u8>
    ensures { result ≡ pair_of high low }
{
    let high = hex_value(high);
    let low = hex_value(low);
    if high < 16 && low < 16 {
        Some(16 * high + low)
    } else {
        None
    }
}

// Whether a word is an even number of hexadecimal digits.
pub(crate) fn is_hex(word: &[u8]) -> bool
    ensures { result ≡ is_hex word.now }
{
    word.len() % 2 == 0 && is_hexadecimal(word)
}

fn is_hexadecimal(word: &[u8]) -> bool
    ensures { result ≡ list_all (λ c. nat_lt (digit_value c) 16) word.now }
{
    word.iter().all(|byte| hex_value(*byte) < 16)
}

// The value of each byte as a digit or a letter, from 0 for `0` to 35 for `z`, and 36 for any other byte.
const DIGIT_VALUES: [u8; 256] = [
    36, 36, 36, 36, 36, 36, 36, 36, 36, 36, 36, 36, 36, 36, 36, 36, 36, 36, 36, 36, 36, 36, 36, 36,
    36, 36, 36, 36, 36, 36, 36, 36, 36, 36, 36, 36, 36, 36, 36, 36, 36, 36, 36, 36, 36, 36, 36, 36,
    0, 1, 2, 3, 4, 5, 6, 7, 8, 9, 36, 36, 36, 36, 36, 36, 36, 10, 11, 12, 13, 14, 15, 16, 17, 18,
    19, 20, 21, 22, 23, 24, 25, 26, 27, 28, 29, 30, 31, 32, 33, 34, 35, 36, 36, 36, 36, 36, 36, 10,
    11, 12, 13, 14, 15, 16, 17, 18, 19, 20, 21, 22, 23, 24, 25, 26, 27, 28, 29, 30, 31, 32, 33, 34,
    35, 36, 36, 36, 36, 36, 36, 36, 36, 36, 36, 36, 36, 36, 36, 36, 36, 36, 36, 36, 36, 36, 36, 36,
    36, 36, 36, 36, 36, 36, 36, 36, 36, 36, 36, 36, 36, 36, 36, 36, 36, 36, 36, 36, 36, 36, 36, 36,
    36, 36, 36, 36, 36, 36, 36, 36, 36, 36, 36, 36, 36, 36, 36, 36, 36, 36, 36, 36, 36, 36, 36, 36,
    36, 36, 36, 36, 36, 36, 36, 36, 36, 36, 36, 36, 36, 36, 36, 36, 36, 36, 36, 36, 36, 36, 36, 36,
    36, 36, 36, 36, 36, 36, 36, 36, 36, 36, 36, 36, 36, 36, 36, 36, 36, 36, 36, 36, 36, 36, 36, 36,
    36, 36, 36, 36, 36, 36, 36, 36, 36, 36, 36, 36, 36, 36,
];

// The value of a hexadecimal digit, and at least 16 for another byte. A table takes the same time for every digit.
fn hex_value(digit: u8) -> u8
    ensures { result ≡ digit_value digit }
{
    DIGIT_VALUES[digit as usize]
}
