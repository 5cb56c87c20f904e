ghost use Rattle.std.specs.Prelude.{◌≡◌, ◌<◌, Some, None, IfOk, get_or, set};
ghost use Rattle.vm_swap.specs.Index.{no_slots, slot_of};

use std::alloc::{AllocError, Global};
use std::marker::Model;
use vm_pages::PageTable;

/// The pages of a guest are numbered below this, so an area never holds more of them.
pub const PAGE_LIMIT: u32 = 262144;

// The slot of each page that has one. A contract sees it as a list: of each page below the limit its slot, or none.
#[derive(Drop)]
pub(crate) struct Index {
    // Of each page the number of its slot and one more, or 0 where it has none: in blocks, of which only those take memory in which
    // a page ever had a slot.
    marks: PageTable<u32>,
}

impl Model for Index {
    ghost use Rattle.std.specs.Prelude.{ℕ, List, Option};
    ghost use Rattle.std.specs.Coded.{coded_ℕ, coded_list, coded_option};

    ghost Value = { List (Option ℕ) };

    ghost coded = { coded_list (coded_option coded_ℕ) };

    ghost use Rattle.vm_swap.specs.Index.{slots_of, IsWhole};

    ghost view = { λ index. slots_of index.marks.list };

    ghost invariant = { λ index. IsWhole index.marks };
}

impl Index {
    // An index of no slots.
    pub(crate) fn new(alloc: Global) -> Result<Self, AllocError>
        ensures { IfOk result (λ index. index ≡ no_slots) }
    {
        Ok(Index {
            marks: PageTable::new(alloc, PAGE_LIMIT, 0)?,
        })
    }

    // The slot of a page.
    pub(crate) fn find(&self, page: u32) -> Option<usize>
        ensures { result ≡ get_or self.now page None }
    {
        if page < self.marks.len() {
            slot_in(self.marks.get(page))
        } else {
            None
        }
    }

    // Has a page found in a slot.
    pub(crate) fn note(&mut self, page: u32, slot: u32)
        requires in_range { page < PAGE_LIMIT }
        requires slot_in_range { slot < PAGE_LIMIT }
        ensures { self.new ≡ set self.old page (Some slot) }
    {
        self.marks.set(page, slot + 1);
    }

    // Has a page found in no slot.
    pub(crate) fn forget(&mut self, page: u32)
        requires { page < PAGE_LIMIT }
        ensures { self.new ≡ set self.old page None }
    {
        self.marks.set(page, 0);
    }

    // Forgets all pages, in a time that goes with the pages that had slots.
    pub(crate) fn clear(&mut self)
        ensures { self.new ≡ no_slots }
    {
        self.marks.clear();
    }
}

// The slot that a mark says.
fn slot_in(mark: u32) -> Option<usize>
    ensures { result ≡ slot_of mark }
{
    if mark > 0 {
        Some(mark as usize - 1)
    } else {
        None
    }
}
