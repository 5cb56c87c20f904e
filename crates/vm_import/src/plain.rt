// Reads an access straight from the front of a text, in one pass.
ghost use Rattle.std.specs.Prelude.{◌≡◌, IfSome, length};
ghost use Rattle.vm_import.specs.Plain.{IsAccessLine};

use crate::access::Access;
use crate::block::WINDOW;
use crate::lines::{access_with, kind_of};
use crate::numerals::digits_in_front;

// An access, and how many bytes its line has with its end.
#[derive(Clone, Copy)]
pub(crate) struct AccessLine {
    pub(crate) access: Access,
    pub(crate) len: usize,
}

// The access on the first line of a text, and `None` where that is another line, which need not be faulty.
#[inline(always)]
pub(crate) fn access_in_front(text: &[u8]) -> Option<AccessLine>
    requires { length text.now ≡ WINDOW }
    ensures { IfSome result (λ line. IsAccessLine text.now line.access line.len) }
{
    let kind = kind_of(text).ok()?;
    let address = digits_in_front(&text[3..], 16, 16);
    let comma = 3 + address.len;
    if address.len == 0 || text[comma] != b',' {
        return None;
    }
    let size = digits_in_front(&text[comma + 1..], 10, 4);
    let end = comma + 1 + size.len;
    if text[end] != b'\n' || size.value == 0 || size.value > 1024 {
        return None;
    }
    let access = access_with(kind, address.value, size.value as u16).ok()?;
    Some(AccessLine {
        access,
        len: end + 1,
    })
}
