// Numbers in texts.
ghost use Rattle.std.specs.Prelude.{◌≡◌, ◌≤◌, ◌∷◌, [], ◌++◌, OnOk, length};
ghost use Rattle.std.specs.Fmt.{decimal};
ghost use Rattle.vm_import.specs.Steps.{hex_digit};

use itoa::Buffer;
use std::alloc::AllocError;

// Adds a number in decimal digits.
pub(crate) fn push_decimal(text: &mut Vec<u8>, number: u64) -> Result<(), AllocError>
    ensures { OnOk result (text.new.items ≡ text.old.items ++ decimal number) }
{
    text.extend_from_slice(Buffer::new().format(number).as_bytes())
}

// How many decimal digits a number has.
pub(crate) fn decimal_len(number: u64) -> u64
    ensures exact { result ≡ length (decimal number) }
    ensures few { result ≤ 20 }
{
    Buffer::new().format(number).len() as u64
}

// A hexadecimal digit in lower case.
pub(crate) fn hex_digit(digit: u8) -> u8
    requires { digit ≤ 15 }
    ensures { result ≡ hex_digit digit }
{
    if digit < 10 {
        b'0' + digit
    } else {
        b'a' - 10 + digit
    }
}
