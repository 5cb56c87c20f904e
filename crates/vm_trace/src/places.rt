// Where the step at a place is among the entries.
ghost use Rattle.std.specs.Prelude.{◌≡◌, ◌+◌, ◌<◌, ◌≤◌, length, IfOk, IfSome, IfNone};
ghost use Rattle.vm_trace.specs.Entries.{AreNumbered, IsPartAt, count_of};
ghost use Rattle.vm_trace.specs.Limits.{most_steps};

use crate::entry::{Entry, Item, Part, count_of};
use std::alloc::AllocError;

/// The most steps that a trace has from texts.
pub const MAX_STEPS: usize = 1_000_000;

// The number of steps with one more, if it has 32 bits.
pub(crate) fn one_more(steps: u32) -> Result<u32, AllocError>
    ensures { IfOk result (λ all. all ≡ steps + 1) }
{
    steps.checked_add(1).ok_or(AllocError)
}

// The number of steps with those of an item, if a trace has so many.
pub(crate) fn steps_behind(steps: u32, item: Item) -> Option<u32>
    ensures some { IfSome result (λ all. all ≡ steps + count_of item) }
    ensures few { IfSome result (λ all. all ≤ most_steps) }
    ensures none { IfNone result (most_steps < steps + count_of item) }
{
    let all = steps.checked_add(count_of(item))?;
    if all as usize > MAX_STEPS {
        return None;
    }
    Some(all)
}

// The step at a place, where entries count more than one.
#[cold]
#[inline(never)]
fn counted_part_at(entries: &[Entry], steps: u32, place: usize) -> Option<Part>
    requires { AreNumbered steps entries.now }
    ensures some { IfSome result (IsPartAt entries.now place) }
    ensures none { IfNone result (steps ≤ place) }
{
    if place >= steps as usize {
        return None;
    }
    let behind = entries.partition_point(|entry| entry.first as usize <= place);
    let entry = entries[behind - 1];
    Some(Part {
        item: entry.item,
        before: place as u32 - entry.first,
    })
}

// The step at a place. Where each entry is one step, its entry is at that place.
pub(crate) fn part_at(entries: &[Entry], steps: u32, place: usize) -> Option<Part>
    requires { AreNumbered steps entries.now }
    ensures some { IfSome result (IsPartAt entries.now place) }
    ensures none { IfNone result (steps ≤ place) }
{
    if entries.len() != steps as usize {
        return counted_part_at(entries, steps, place);
    }
    let entry = entries.get(place)?;
    Some(Part {
        item: entry.item,
        before: 0,
    })
}

// The item of the step at a place, where each entry is one step.
#[inline(always)]
pub(crate) fn item_at(entries: &[Entry], steps: u32, place: usize) -> Option<&Item>
    requires numbered { AreNumbered steps entries.now }
    requires single { length entries.now ≡ steps }
    ensures some { IfSome result (λ item. IsPartAt entries.now place (record { item = item.now; before = 0 })) }
    ensures none { IfNone result (steps ≤ place) }
{
    let entry = entries.get(place)?;
    Some(&entry.item)
}
