ghost use Rattle.std.specs.Prelude.{◌≡◌, ◌+◌, ◌-◌, ◌*◌, ◌<◌, ◌≤◌, ◌++◌, Some, None, IfOk, OnErr, length, get_or, replicate, vec_capacity, vec_len};
ghost use Rattle.vm_pages.specs.PageTable.{first_items, with_item};
ghost use Rattle.vm_pages.specs.Places.{ArePlaces, items_of, place_of};

use std::alloc::{AllocError, Global};
use std::marker::Model;

// The pages whose items lie behind one another.
const BLOCK_PAGES: u32 = 256;

/// An item for each page of a guest: the one with which all began, until another is set.
///
/// A contract sees it as `Items` of `specs/PageTable.antt`: the first item, and the item of each page. No call but
/// [`PageTable::new`] takes memory.
///
/// The items lie in blocks of 256 pages, and a block is written when an item in it is set first, so that a large guest of which few
/// pages are used costs by those. Each call takes constant time, but the first set in a block takes time for the block.
#[derive(Debug, Drop)]
pub struct PageTable<T> {
    size: u32,
    first: T,
    // One more than the place at which the items of a block begin, 0 for a block that was never written; up to the greatest block that
    // was.
    blocks: Vec<u32>,
    // The items of the blocks that were written, block by block in the order in which they were.
    items: Vec<T>,
}

impl<T> Model for PageTable<T> {
    ghost use Rattle.vm_pages.specs.PageTable.{Items, items_code};

    ghost Value = { Items T };

    ghost coded = { items_code T.code };

    ghost use Rattle.std.specs.Prelude.{◌+◌, ◌*◌, ◌<◌, ◌≤◌, length, vec_capacity};
    ghost use Rattle.vm_pages.specs.Places.{ArePlaces, items_of};

    ghost view = { λ t. record { first = t.first; list = items_of t.size t.first t.blocks.items t.items.items } };

    ghost invariant = { λ t. ArePlaces t.size t.blocks.items (length t.items.items) × (t.size ≤ vec_capacity t.items) × (t.size ≤ vec_capacity t.blocks * 256) };
}

impl<T: Copy> PageTable<T> {
    /// The first item for each page of a guest of `size` pages.
    ///
    /// An error says that memory was refused, which is only where there are pages.
    pub fn new(alloc: Global, size: u32, first: T) -> Result<Self, AllocError>
        ensures table { IfOk result (λ t. t ≡ first_items first size) }
        ensures memory { OnErr result (0 < size) }
    {
        Ok(PageTable {
            size,
            first,
            blocks: Vec::with_capacity(alloc, size.div_ceil(BLOCK_PAGES) as usize)?,
            items: Vec::with_capacity(alloc, size as usize)?,
        })
    }

    /// How many pages have an item.
    pub fn len(&self) -> u32
        ensures { result ≡ length self.now.list }
    {
        self.size
    }

    /// The item of a page.
    #[inline(always)]
    pub fn get(&self, page: u32) -> T
        requires { page < length self.now.list }
        ensures { result ≡ get_or self.now.list page self.now.first }
    {
        match place_of(&self.blocks, page) {
            Some(place) => self.items[place],
            None => self.first,
        }
    }

    /// Sets the item of a page.
    #[inline]
    pub fn set(&mut self, page: u32, item: T)
        requires { page < length self.old.list }
        ensures { self.new ≡ with_item self.old page item }
    {
        let place = place_for(
            &mut self.blocks,
            &mut self.items,
            self.size,
            self.first,
            page,
        );
        self.items[place] = item;
    }

    /// Sets the item of a page, and answers the one that it had.
    #[inline(always)]
    pub fn replace(&mut self, page: u32, item: T) -> T
        requires { page < length self.old.list }
        ensures before { result ≡ get_or self.old.list page self.old.first }
        ensures after { self.new ≡ with_item self.old page item }
    {
        let place = place_for(
            &mut self.blocks,
            &mut self.items,
            self.size,
            self.first,
            page,
        );
        let before = self.items[place];
        self.items[place] = item;
        before
    }

    /// Gives each page the first item again, in constant time.
    pub fn clear(&mut self)
        ensures { self.new ≡ first_items self.old.first (length self.old.list) }
    {
        self.blocks.clear();
        self.items.clear();
    }
}

// The place of a page's item, if its block was written.
#[inline(always)]
fn place_of(blocks: &[u32], page: u32) -> Option<usize>
    ensures { result ≡ place_of blocks.now page }
{
    let start = start_of(blocks, page / BLOCK_PAGES);
    if start == 0 {
        None
    } else {
        Some((start - 1) as usize + (page % BLOCK_PAGES) as usize)
    }
}

// One more than the place at which the items of a block begin, 0 for a block that was never written.
#[inline(always)]
fn start_of(blocks: &[u32], block: u32) -> u32
    ensures { result ≡ get_or blocks.now block 0 }
{
    match blocks.get(block as usize) {
        Some(&start) => start,
        None => 0,
    }
}

// The place of a page's item, whose block is written if it never was.
#[inline(always)]
fn place_for<T: Copy>(
    blocks: &mut Vec<u32>,
    items: &mut Vec<T>,
    size: u32,
    first: T,
    page: u32,
) -> usize
    requires places { ArePlaces size blocks.old.items (length items.old.items) }
    requires room { size ≤ vec_capacity items.old }
    requires room_for_blocks { size ≤ vec_capacity blocks.old * 256 }
    requires in_range { page < size }
    ensures places { ArePlaces size blocks.new.items (length items.new.items) }
    ensures room { size ≤ vec_capacity items.new }
    ensures room_for_blocks { size ≤ vec_capacity blocks.new * 256 }
    ensures there { place_of blocks.new.items page ≡ Some result }
    ensures same { items_of size first blocks.new.items items.new.items ≡ items_of size first blocks.old.items items.old.items }
{
    match place_of(blocks, page) {
        Some(place) => place,
        None => begin_block(blocks, items, size, first, page),
    }
}

// Writes the block of a page, which never was: each page in it has the first item still. Answers the place of the page's. Not inlined,
// since it is done once for a block.
#[inline(never)]
fn begin_block<T: Copy>(
    blocks: &mut Vec<u32>,
    items: &mut Vec<T>,
    size: u32,
    first: T,
    page: u32,
) -> usize
    requires places { ArePlaces size blocks.old.items (length items.old.items) }
    requires room { size ≤ vec_capacity items.old }
    requires room_for_blocks { size ≤ vec_capacity blocks.old * 256 }
    requires in_range { page < size }
    requires absent { place_of blocks.old.items page ≡ None }
    ensures places { ArePlaces size blocks.new.items (length items.new.items) }
    ensures room { size ≤ vec_capacity items.new }
    ensures room_for_blocks { size ≤ vec_capacity blocks.new * 256 }
    ensures there { place_of blocks.new.items page ≡ Some result }
    ensures same { items_of size first blocks.new.items items.new.items ≡ items_of size first blocks.old.items items.old.items }
{
    let block = page / BLOCK_PAGES;
    let start = items.len();
    let pages = (size - block * BLOCK_PAGES).min(BLOCK_PAGES);
    append(items, pages as usize, first);
    reach(blocks, block as usize);
    blocks[block as usize] = start as u32 + 1;
    start + (page % BLOCK_PAGES) as usize
}

// Adds so many times the same item, in the room that was reserved.
fn append<T: Copy>(items: &mut Vec<T>, count: usize, item: T)
    requires { vec_len items.old + count ≤ vec_capacity items.old }
    ensures items { items.new.items ≡ items.old.items ++ replicate count item }
    ensures room { vec_capacity items.old ≤ vec_capacity items.new }
{
    items.resize(items.len() + count, item).unwrap();
}

// Lets the blocks reach one, in the room that was reserved. Those that come were never written.
fn reach(blocks: &mut Vec<u32>, block: usize)
    requires { block < vec_capacity blocks.old }
    ensures blocks { blocks.new.items ≡ blocks.old.items ++ replicate (block + 1 - vec_len blocks.old) 0 }
    ensures room { vec_capacity blocks.old ≤ vec_capacity blocks.new }
{
    if blocks.len() <= block {
        blocks.resize(block + 1, 0).unwrap();
    }
}
