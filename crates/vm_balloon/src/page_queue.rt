ghost use Rattle.std.specs.Prelude.{◌≡◌, ◌+◌, ◌*◌, ◌^◌, ◌<◌, ◌≤◌, ◌∷◌, ◌++◌, true, [], All, IfOk, OnErr, length, vec_capacity, vec_len};
ghost use Rattle.std.specs.Bool.{OnTrue};
ghost use Rattle.vm_pages.specs.Pages.{insert, remove, insert_all, remove_all};
ghost use Rattle.vm_balloon.specs.Room.{KeepsRoom};
ghost use Rattle.vm_balloon.specs.Service.{numbers_in, ragged};
ghost use Rattle.vm_balloon.specs.Virtio.{page_buffer, page_numbers};
ghost use Rattle.vm_balloon.specs.Device.{is_named};

use crate::buffer_end::BufferEnd;
use crate::decode::{MOST_NUMBERS, append_numbers, append_within, ragged_count};
use std::alloc::{AllocError, Global};
use std::marker::Model;
use vm_pages::PageMarks;

/// The page buffers that are posted to one queue, in order, and marks on those of the guest's pages that they name.
///
/// The bytes of a buffer are read once, when it is posted: its page numbers stay until it is taken out, and beside them how many they
/// are and what is behind them, which tells its bytes.
#[derive(Drop)]
pub(crate) struct PageQueue {
    size: u32,
    // How many of the buffers end in bytes that are no page number.
    ragged_buffers: u32,
    // Whether no page number is past the guest's pages.
    in_range: bool,
    // The page numbers of the buffers, in order.
    numbers: Vec<u32>,
    // What the buffers have beside their page numbers, in order.
    ends: Vec<BufferEnd>,
    named: PageMarks,
}

impl Model for PageQueue {
    ghost use Rattle.vm_balloon.specs.Posted.{PostedPages};

    ghost Value = { PostedPages };

    ghost use Rattle.vm_balloon.specs.PageQueue.{posted_of, IsPageQueue};

    ghost view = { posted_of };

    ghost invariant = { IsPageQueue };
}

impl PageQueue {
    /// An empty queue of a guest of `size` pages, with room for so many buffers. Memory is wanted only for pages and buffers.
    pub(crate) fn new(alloc: Global, size: u32, room: usize) -> Result<Self, AllocError>
        requires size_in_range { size ≤ 262144 }
        requires room_in_range { room ≤ 256 }
        ensures queue { IfOk result (λ queue. queue ≡ record { size = size; room = room; buffers = [] }) }
        ensures memory { OnErr result (0 < size + room) }
    {
        Ok(PageQueue {
            size,
            ragged_buffers: 0,
            in_range: true,
            numbers: Vec::with_capacity(alloc, MOST_NUMBERS * room)?,
            ends: Vec::with_capacity(alloc, room)?,
            named: PageMarks::new(alloc, size)?,
        })
    }

    /// Posts a buffer, in time for its bytes.
    pub(crate) fn push(&mut self, bytes: &[u8])
        requires short { length bytes.now ≤ 1024 }
        requires room { length self.old.buffers < self.old.room }
        requires few { length self.old.buffers < 256 }
        ensures { self.new ≡ record self.old { buffers = self.old.buffers ++ bytes.now ∷ [] } }
    {
        let in_range = keep_numbers(bytes, self.size, &mut self.numbers, &mut self.named);
        self.in_range &= in_range;
        self.ragged_buffers += ragged_count(bytes);
        self.ends.push_reserved(BufferEnd::of(bytes));
    }

    /// Posts a buffer of page numbers, in time for them.
    pub(crate) fn push_pages(&mut self, pages: &[u32])
        requires short { length pages.now ≤ 256 }
        requires room { length self.old.buffers < self.old.room }
        requires few { length self.old.buffers < 256 }
        ensures { self.new ≡ record self.old { buffers = self.old.buffers ++ page_buffer pages.now ∷ [] } }
    {
        let in_range = keep_pages(pages, self.size, &mut self.numbers, &mut self.named);
        self.in_range &= in_range;
        self.ends.push_reserved(BufferEnd::of_pages(pages));
    }

    /// Takes all buffers out, in time for their page numbers.
    pub(crate) fn clear(&mut self)
        ensures { self.new ≡ record self.old { buffers = [] } }
    {
        unmark_all(&self.numbers, self.size, self.in_range, &mut self.named);
        self.numbers.clear();
        self.ends.clear();
        self.in_range = true;
        self.ragged_buffers = 0;
    }

    /// How many pages the guest has.
    pub(crate) fn size(&self) -> u32
        ensures { result ≡ self.now.size }
    {
        self.size
    }

    /// The page numbers of the buffers, in order of posting.
    pub(crate) fn numbers(&self) -> &[u32]
        ensures numbers { result.now ≡ numbers_in self.now.buffers }
        ensures few { length result.now ≤ 256 * length self.now.buffers }
    {
        &self.numbers
    }

    /// Whether it is known that each of these page numbers is one of the guest's.
    pub(crate) fn in_range(&self) -> bool
        ensures { OnTrue result (All (λ number. number < self.now.size) (numbers_in self.now.buffers)) }
    {
        self.in_range
    }

    /// How many of the buffers end in bytes that are no page number.
    pub(crate) fn ragged(&self) -> u32
        ensures value { result ≡ ragged self.now.buffers }
        ensures few { result ≤ length self.now.buffers }
    {
        self.ragged_buffers
    }

    /// How many buffers are posted.
    pub(crate) fn len(&self) -> usize
        ensures { result ≡ length self.now.buffers }
    {
        self.ends.len()
    }

    /// Whether a buffer names the page, in constant time.
    pub(crate) fn names(&self, page: u32) -> bool
        requires { page < self.now.size }
        ensures { result ≡ is_named self.now.buffers page }
    {
        self.named.contains(page)
    }
}

// Keeps the page numbers of a buffer, in room that is there, and marks those pages of them that are the guest's. Says whether all are.
fn keep_numbers(bytes: &[u8], size: u32, numbers: &mut Vec<u32>, named: &mut PageMarks) -> bool
    requires short { length bytes.now ≤ 1024 }
    requires room { vec_len numbers.old + 256 ≤ vec_capacity numbers.old }
    requires size { length named.old ≡ size }
    ensures numbers { numbers.new.items ≡ numbers.old.items ++ page_numbers bytes.now }
    ensures few { vec_len numbers.new ≤ vec_len numbers.old + 256 }
    ensures pages { named.new ≡ insert_all named.old (page_numbers bytes.now) }
    ensures in_range { OnTrue result (All (λ number. number < size) (page_numbers bytes.now)) }
    ensures room { KeepsRoom numbers.old numbers.new }
{
    let before = numbers.len();
    append_numbers(bytes, numbers);
    mark_all(&numbers[before..], size, named)
}

// Keeps page numbers, in room that is there, and marks those pages of them that are the guest's. Says whether all are.
fn keep_pages(pages: &[u32], size: u32, numbers: &mut Vec<u32>, named: &mut PageMarks) -> bool
    requires few { length pages.now ≤ 256 }
    requires room { vec_len numbers.old + 256 ≤ vec_capacity numbers.old }
    requires size { length named.old ≡ size }
    ensures numbers { numbers.new.items ≡ numbers.old.items ++ pages.now }
    ensures few { vec_len numbers.new ≤ vec_len numbers.old + 256 }
    ensures pages { named.new ≡ insert_all named.old pages.now }
    ensures in_range { OnTrue result (All (λ number. number < size) pages.now) }
    ensures fit { All (λ number. number < 2 ^ 32) pages.now }
    ensures room { KeepsRoom numbers.old numbers.new }
{
    append_within(numbers, pages);
    mark_all(pages, size, named)
}

// Marks those pages that are the guest's, and says whether all are.
fn mark_all(numbers: &[u32], size: u32, named: &mut PageMarks) -> bool
    requires { length named.old ≡ size }
    ensures pages { named.new ≡ insert_all named.old numbers.now }
    ensures in_range { OnTrue result (All (λ page. page < size) numbers.now) }
{
    if are_below(numbers, size) {
        named.insert_all(numbers);
        return true;
    }
    for &number in numbers {
        mark(number, size, named);
    }
    false
}

// Takes the marks away of those pages that are the guest's, as all are where `in_range` says so.
fn unmark_all(numbers: &[u32], size: u32, in_range: bool, named: &mut PageMarks)
    requires size { length named.old ≡ size }
    requires in_range { in_range ≡ true → All (λ page. page < size) numbers.now }
    ensures { named.new ≡ remove_all named.old numbers.now }
{
    if in_range {
        named.remove_all(numbers);
        return;
    }
    for &number in numbers {
        unmark(number, size, named);
    }
}

// Whether all numbers are below the guest's size, in one pass without branches.
fn are_below(numbers: &[u32], size: u32) -> bool
    ensures { OnTrue result (All (λ number. number < size) numbers.now) }
{
    let mut below = true;
    for &number in numbers {
        below &= number < size;
    }
    below
}

// Marks a page, if it is the guest's.
fn mark(page: u32, size: u32, named: &mut PageMarks)
    requires { length named.old ≡ size }
    ensures pages { named.new ≡ insert named.old page }
    ensures size { length named.new ≡ size }
{
    if page < size {
        named.insert(page);
    }
}

// Takes the mark of a page away, if it is the guest's.
fn unmark(page: u32, size: u32, named: &mut PageMarks)
    requires { length named.old ≡ size }
    ensures pages { named.new ≡ remove named.old page }
    ensures size { length named.new ≡ size }
{
    if page < size {
        named.remove(page);
    }
}
