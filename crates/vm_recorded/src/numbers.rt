// Numbers in texts.
ghost use Rattle.std.specs.Prelude.{◌≡◌, ◌≤◌, ◌++◌, ◌*◌, OnOk, length};
ghost use Rattle.std.specs.Fmt.{decimal};

use itoa::Buffer;
use std::alloc::AllocError;

// Adds a number in decimal digits.
pub(crate) fn push_number(text: &mut Vec<u8>, number: u64) -> Result<(), AllocError>
    ensures { OnOk result (text.new.items ≡ text.old.items ++ decimal number) }
{
    let mut buffer = Buffer::new();
    text.extend_from_slice(buffer.format(number).as_bytes())
}

// How many decimal digits a number has.
pub(crate) fn digits(number: u64) -> u64
    ensures exact { result ≡ length (decimal number) }
    ensures few { result ≤ 20 }
{
    Buffer::new().format(number).len() as u64
}

// So many units in KiB.
pub(crate) fn kib_of(units: u32, unit: u32) -> u64
    ensures { result ≡ units * unit }
{
    u64::from(units) * u64::from(unit)
}
