// A count for each guest.
ghost use Rattle.std.specs.Prelude.{◌≡◌, IfOk, replicate, slice_index};
ghost use Rattle.vm_tally.specs.GuestTally.{each_with_more, only_at, with_more};

use std::alloc::{AllocError, Global};
use std::marker::Model;

// A count for each guest, by position, which stops at the greatest number of 64 bits. It reads as the list of them.
#[derive(Drop)]
pub(crate) struct Column {
    counts: Vec<u64>,
}

impl Model for Column {
    ghost use Rattle.std.specs.Prelude.{ℕ, List};

    ghost Value = { List ℕ };

    ghost view = { λ c. c.counts.items };
}

// A count to which more is added.
fn with_more(count: u64, more: u32) -> u64
    ensures { result ≡ with_more count more }
{
    count.saturating_add(u64::from(more))
}

impl Column {
    // Nothing is counted of so many guests.
    pub(crate) fn new(alloc: Global, guests: usize) -> Result<Self, AllocError>
        ensures { IfOk result (λ column. column ≡ replicate guests 0) }
    {
        Ok(Column {
            counts: vec![in alloc; 0; guests]?,
        })
    }

    // Adds to the count of the guest at a position. Where there is none, nothing changes.
    pub(crate) fn add(&mut self, position: u32, amount: u32)
        ensures { self.new ≡ each_with_more (only_at position amount) self.old }
    {
        let place = position as usize;
        if place < self.counts.len() {
            self.counts[place] = with_more(self.counts[place], amount);
        }
    }

    // The count of the guest at a position, if there is one.
    pub(crate) fn at(&self, position: usize) -> u64
        ensures { result ≡ slice_index self.now position }
    {
        self.counts.get(position).copied().unwrap_or(0)
    }
}
