ghost use Rattle.std.specs.Prelude.{◌≡◌, ◌+◌, ◌/◌, ◌≤◌, ◌∷◌, [], ◌++◌, length, vec_capacity, vec_len};
ghost use Rattle.vm_balloon.specs.Room.{KeepsRoom};
ghost use Rattle.vm_balloon.specs.Service.{ragged};
ghost use Rattle.vm_balloon.specs.Virtio.{page_numbers};

use crate::virtio::{page_count, page_number};

/// How many page numbers a buffer can have.
pub(crate) const MOST_NUMBERS: usize = 256;

/// How many buffers this is that end in bytes which are no page number: one or none.
pub(crate) fn ragged_count(bytes: &[u8]) -> u32
    ensures value { result ≡ ragged (bytes.now ∷ []) }
    ensures few { result ≤ 1 }
{
    if bytes.len() % 4 != 0 { 1 } else { 0 }
}

/// Adds the page numbers of a page buffer, for which there is room.
pub(crate) fn append_numbers(bytes: &[u8], numbers: &mut Vec<u32>)
    requires room { vec_len numbers.old + length bytes.now / 4 ≤ vec_capacity numbers.old }
    ensures numbers { numbers.new.items ≡ numbers.old.items ++ page_numbers bytes.now }
    ensures len { vec_len numbers.new ≡ vec_len numbers.old + length bytes.now / 4 }
    ensures room { KeepsRoom numbers.old numbers.new }
{
    for i in 0..page_count(bytes) {
        numbers.push_reserved(page_number(bytes, i));
    }
}

/// Adds items for which there is room, so that it takes no memory.
pub(crate) fn append_within(items: &mut Vec<u32>, more: &[u32])
    requires room { vec_len items.old + length more.now ≤ vec_capacity items.old }
    ensures items { items.new.items ≡ items.old.items ++ more.now }
    ensures len { vec_len items.new ≡ vec_len items.old + length more.now }
    ensures room { KeepsRoom items.old items.new }
{
    match items.extend_from_slice(more) {
        Ok(()) => {}
        Err(_) => unreachable!(),
    }
}
