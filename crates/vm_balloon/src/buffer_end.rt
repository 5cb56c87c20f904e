ghost use Rattle.std.specs.Prelude.{◌≡◌, ◌≤◌, [], length, take};
ghost use Rattle.vm_balloon.specs.PageBuffers.{EndView, end_of};

use crate::virtio::{PAGE_NUMBER_BYTES, page_count};
use std::marker::Model;

/// What a posted page buffer has beside its page numbers: how many these are, and the bytes behind them, at most three.
#[derive(Drop)]
pub(crate) struct BufferEnd {
    numbers: u16,
    // How many of the bytes count.
    left: u8,
    rest: [u8; 3],
}

impl Model for BufferEnd {
    ghost Value = { EndView };

    ghost view = { λ e. record { numbers = e.numbers; rest = take e.left e.rest } };

    ghost invariant = { λ e. e.left ≤ 3 };
}

impl BufferEnd {
    /// That of a buffer of these bytes.
    pub(crate) fn of(bytes: &[u8]) -> Self
        requires { length bytes.now ≤ 1024 }
        ensures { result ≡ end_of bytes.now }
    {
        let numbers = page_count(bytes);
        let behind = &bytes[PAGE_NUMBER_BYTES * numbers..];
        let left = behind.len();
        let mut rest = [0; 3];
        rest[..left].copy_from_slice(behind);
        BufferEnd {
            numbers: numbers as u16,
            left: left as u8,
            rest,
        }
    }

    /// That of a buffer of these page numbers.
    pub(crate) fn of_pages(pages: &[u32]) -> Self
        requires { length pages.now ≤ 256 }
        ensures { result ≡ record { numbers = length pages.now; rest = [] } }
    {
        BufferEnd {
            numbers: pages.len() as u16,
            left: 0,
            rest: [0; 3],
        }
    }
}
