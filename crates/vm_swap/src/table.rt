ghost use Rattle.std.specs.Prelude.{◌≡◌, ℕ, true, ◌+◌, ◌<◌, ◌≤◌, min, Some, None, IfSome, IfOk, IfErr, OnOk, OnErr, option_copied};
ghost use Rattle.std.specs.Bool.{OnTrue, OnFalse};
ghost use Rattle.std.specs.FinMap as map;

use crate::index::{Index, PAGE_LIMIT};
use std::alloc::{AllocError, Global};
use std::marker::Model;
use std::mem;
use vm_frames::PAGE_BYTES;
use vm_patches::PatchedFrame;

// The place of one value.
#[derive(Drop)]
struct Slot<V> {
    page: u32,
    value: V,
}

// A value for each of some pages, found by one look into the index. Only `new`, `reserve` and `reserve_roomy` take memory.
#[derive(Drop)]
pub(crate) struct Table<V> {
    // In no order.
    slots: Vec<Slot<V>>,
    index: Index,
}

impl<V> Model for Table<V> {
    ghost use Rattle.std.specs.Prelude.{◌≤◌, vec_capacity};
    ghost use Rattle.std.specs.FinMap as map;
    ghost use Rattle.vm_swap.specs.Table.{TableView, table_code};

    ghost Value = { TableView V };

    ghost coded = { table_code V.code };

    ghost use Rattle.vm_swap.specs.Slots.{entries_of, IsKept};

    ghost view = { λ t. record { values = map.from_entries (entries_of t.slots.items); room = vec_capacity t.slots } };

    ghost invariant = { λ t. IsKept (entries_of t.slots.items) t.index };
}

impl<V: Drop> Table<V> {
    // An empty table with memory for so many values.
    pub(crate) fn new(alloc: Global, room: usize) -> Result<Self, AllocError>
        ensures values { IfOk result (λ table. table.values ≡ map.empty) }
        ensures room { IfOk result (λ table. room ≤ table.room) }
    {
        Ok(Table {
            slots: Vec::with_capacity(alloc, room)?,
            index: Index::new(alloc)?,
        })
    }

    // How many pages have a value.
    pub(crate) fn len(&self) -> u32
        ensures { result ≡ map.len self.now.values }
    {
        self.slots.len() as u32
    }

    // Sees to memory for so many values altogether.
    pub(crate) fn reserve(&mut self, room: usize) -> Result<(), AllocError>
        ensures values { self.new.values ≡ self.old.values }
        ensures room { OnOk result (room ≤ self.new.room) }
        ensures kept { self.old.room ≤ self.new.room }
        ensures refused { OnErr result (self.old.room < room) }
    {
        let more = room.saturating_sub(self.slots.len());
        self.slots.reserve_exact(more)
    }

    // As `reserve`, for small values: where there is less, it asks for an eighth more, so that small steps pay for what is copied, and
    // only where that is refused for no more than is needed.
    pub(crate) fn reserve_roomy(&mut self, room: usize) -> Result<(), AllocError>
        requires { room ≤ PAGE_LIMIT }
        ensures values { self.new.values ≡ self.old.values }
        ensures room { OnOk result (room ≤ self.new.room) }
        ensures kept { self.old.room ≤ self.new.room }
        ensures refused { OnErr result (self.old.room < room) }
    {
        if room <= self.slots.capacity() {
            return Ok(());
        }
        match self.widen(roomy(room)) {
            Ok(()) => Ok(()),
            Err(_) => self.reserve(room),
        }
    }

    // As `reserve`. Where at most half of the room is used, the values move to new memory, since what grows in place may be copied
    // whole, with all of the room that was never used. So no growth copies more than twice what the table holds.
    fn widen(&mut self, room: usize) -> Result<(), AllocError>
        ensures values { self.new.values ≡ self.old.values }
        ensures room { OnOk result (room ≤ self.new.room) }
        ensures kept { self.old.room ≤ self.new.room }
        ensures refused { OnErr result (self.old.room < room) }
    {
        if self.slots.len() <= self.slots.capacity() / 2 {
            self.move_to(room)
        } else {
            self.reserve(room)
        }
    }

    // Moves the values to new memory for so many, where there is less.
    fn move_to(&mut self, room: usize) -> Result<(), AllocError>
        ensures values { self.new.values ≡ self.old.values }
        ensures room { OnOk result (room ≤ self.new.room) }
        ensures kept { self.old.room ≤ self.new.room }
        ensures refused { OnErr result (self.old.room < room) }
    {
        if room > self.slots.capacity() {
            let mut slots = Vec::with_capacity(*self.slots.allocator(), room)?;
            slots.append(&mut self.slots).unwrap();
            self.slots = slots;
        }
        Ok(())
    }

    // The value of a page.
    pub(crate) fn get(&self, page: u32) -> Option<&V>
        ensures { option_copied result ≡ map.get self.now.values page }
    {
        match self.index.find(page) {
            Some(slot) => Some(&self.slots[slot].value),
            None => None,
        }
    }

    // Gives another value to a page that has one, and answers whether it has one.
    pub(crate) fn set(&mut self, page: u32, value: V) -> bool
        ensures found { result ≡ map.contains_key self.old.values page }
        ensures written { OnTrue result (self.new ≡ record self.old { values = map.insert self.old.values page value }) }
        ensures absent { OnFalse result (self.new ≡ self.old) }
    {
        match self.index.find(page) {
            Some(slot) => {
                self.slots[slot] = Slot { page, value };
                true
            }
            None => false,
        }
    }

    // Gives a value to a page that has none.
    pub(crate) fn insert(&mut self, page: u32, value: V)
        requires in_range { page < PAGE_LIMIT }
        requires absent { map.get self.old.values page ≡ None }
        requires room { min (map.len self.old.values + 1) PAGE_LIMIT ≤ self.old.room }
        ensures { self.new ≡ record self.old { values = map.insert self.old.values page value } }
    {
        let slot = self.slots.len() as u32;
        self.slots.push_reserved(Slot { page, value });
        self.index.note(page, slot);
    }

    // Gives the slot of a page to another one that has none, with that one's value, and answers the value that was there. Where the page
    // has no slot, nothing changes, and the other's value comes back.
    pub(crate) fn hand_over(&mut self, page: u32, other: u32, value: V) -> Result<V, V>
        requires in_range { other < PAGE_LIMIT }
        requires absent { map.get self.old.values other ≡ None }
        ensures taken { IfOk result (λ taken. map.get self.old.values page ≡ Some taken) }
        ensures given { OnOk result (self.new ≡ record self.old { values = map.insert (map.remove self.old.values page) other value }) }
        ensures absent { OnErr result (map.get self.old.values page ≡ None) }
        ensures back { IfErr result (λ back. back ≡ value) }
        ensures same { OnErr result (self.new ≡ self.old) }
    {
        match self.index.find(page) {
            Some(slot) => {
                let given = Slot { page: other, value };
                let Slot { page: _, value } = mem::replace(&mut self.slots[slot], given);
                self.index.forget(page);
                self.index.note(other, slot as u32);
                Ok(value)
            }
            None => Err(value),
        }
    }

    // Lets the value of a page go, and answers whether it had one. Where it had none, nothing of a value's size is copied.
    pub(crate) fn discard(&mut self, page: u32) -> bool
        ensures found { result ≡ map.contains_key self.old.values page }
        ensures removed { self.new ≡ record self.old { values = map.remove self.old.values page } }
    {
        let found = self.get(page).is_some();
        if found {
            self.let_go(page);
        }
        found
    }

    // Lets the value of a page go. Not inlined, so that its callers, which mostly find none, hold no room for one on their stack.
    #[inline(never)]
    fn let_go(&mut self, page: u32)
        ensures { self.new ≡ record self.old { values = map.remove self.old.values page } }
    {
        self.remove(page);
    }

    // Takes the value of a page.
    pub(crate) fn remove(&mut self, page: u32) -> Option<V>
        ensures taken { result ≡ map.get self.old.values page }
        ensures removed { self.new ≡ record self.old { values = map.remove self.old.values page } }
    {
        match self.index.find(page) {
            Some(slot) => {
                // The last slot takes the place of the page's, which may be the last itself.
                let moved = self.slots[self.slots.len() - 1].page;
                let Slot { page: _, value } = self.slots.swap_remove(slot);
                self.index.note(moved, slot as u32);
                self.index.forget(page);
                Some(value)
            }
            None => None,
        }
    }

    // Lets the values of all pages go.
    pub(crate) fn empty(&mut self)
        ensures { self.new ≡ record self.old { values = map.empty } }
    {
        self.slots.clear();
        self.index.clear();
    }
}

// Room for so many small values and an eighth more, as far as a guest can have pages.
pub(crate) fn roomy(room: usize) -> usize
    requires { room ≤ PAGE_LIMIT }
    ensures { room ≤ result }
{
    (room + room / 8).min(PAGE_LIMIT as usize)
}

// Gives the slot of a page to another one that has none, and exchanges the bytes in it with those of the frame. It answers whether
// the page had one; else nothing changes.
pub(crate) fn trade_bytes(
    table: &mut Table<[u8; PAGE_BYTES]>,
    page: u32,
    other: u32,
    frame: &mut PatchedFrame,
) -> bool
    requires in_range { other < PAGE_LIMIT }
    requires absent { map.get table.old.values other ≡ None }
    ensures found { result ≡ map.contains_key table.old.values page }
    ensures traded { OnTrue result (table.new ≡ record table.old { values = map.insert (map.remove table.old.values page) other frame.old.bytes }) }
    ensures frame { IfSome (map.get table.old.values page) (λ bytes. frame.new ≡ record frame.old { bytes = bytes }) }
    ensures same { OnFalse result (table.new ≡ table.old) }
    ensures same_frame { OnFalse result (frame.new ≡ frame.old) }
{
    match table.index.find(page) {
        Some(slot) => {
            rewrite(&mut table.slots[slot], other, frame);
            table.index.forget(page);
            table.index.note(other, slot as u32);
            true
        }
        None => false,
    }
}

// Gives a slot to a page whose bytes are in the frame, which gets those that were in the slot.
fn rewrite(slot: &mut Slot<[u8; PAGE_BYTES]>, page: u32, frame: &mut PatchedFrame)
    ensures slot { slot.new ≡ record { page = page; value = frame.old.bytes } }
    ensures frame { frame.new ≡ record frame.old { bytes = slot.old.value } }
{
    slot.page = page;
    frame.exchange(&mut slot.value);
}
