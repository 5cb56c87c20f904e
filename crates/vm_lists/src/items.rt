// Reads an item of a list: a number, or a range.
ghost use Rattle.std.specs.Prelude.{◌≡◌, ◌+◌, ◌<◌, ◌^◌, IfSome, IsTrue, length};
ghost use Rattle.std.specs.Option.{option_map};
ghost use Rattle.vm_lists.specs.Items.{around_dots, one_of, range_written, number_written, written_of, values_of, item_of, is_within};

use crate::bounds::{Limits, Unit};
use crate::faults::{ListFault, ListFaultKind};
use crate::numbers::number_of;
use crate::ranges::Spaced;

// The numbers of an item, and where its end and its step begin. A number is the range from itself to itself.
#[derive(Clone, Copy)]
struct Written {
    from: u64,
    to: u64,
    step: u64,
    to_at: usize,
    step_at: usize,
}

// What stands before and behind the first two points.
fn around_dots(item: &str) -> Option<(&str, &str)>
    ensures parts { option_map (λ parts. (parts.0.now, parts.1.now)) result ≡ around_dots item.now }
    ensures inside { IfSome result (λ parts. length parts.0.now + 2 + length parts.1.now ≡ length item.now) }
{
    item.split_once("..")
}

// The step of a range that names none.
fn one_of(unit: Unit) -> u64
    ensures { result ≡ one_of unit }
{
    match unit {
        Unit::Whole => 1,
        Unit::Hundredths => 100,
    }
}

// The range FRONT..BEHIND, in an item that begins at this byte.
#[tactic(auto, unfolding(crate::specs::Items::range_written))]
fn range_written(unit: Unit, at: usize, front: &str, behind: &str) -> Option<Written>
    requires { at + (length front.now + 2 + length behind.now) < 2 ^ 64 }
    ensures { result ≡ range_written unit at front.now behind.now }
{
    let from = number_of(unit, front)?;
    let to_at = at + (front.len() + 2);
    match behind.split_once('/') {
        Some((end, step)) => Some(Written {
            from,
            to: number_of(unit, end)?,
            step: number_of(unit, step)?,
            to_at,
            step_at: to_at + (end.len() + 1),
        }),
        None => Some(Written {
            from,
            to: number_of(unit, behind)?,
            step: one_of(unit),
            to_at,
            step_at: at,
        }),
    }
}

// A number, in an item that begins at this byte.
#[tactic(auto, unfolding(crate::specs::Items::number_written))]
fn number_written(unit: Unit, at: usize, item: &str) -> Option<Written>
    ensures { result ≡ number_written unit at item.now }
{
    let number = number_of(unit, item)?;
    Some(Written {
        from: number,
        to: number,
        step: one_of(unit),
        to_at: at,
        step_at: at,
    })
}

// The numbers of an item that begins at this byte, if it has the form of one.
#[tactic(auto, unfolding(crate::specs::Items::written_of))]
fn written_of(unit: Unit, at: usize, item: &str) -> Option<Written>
    requires { at + length item.now < 2 ^ 64 }
    ensures { result ≡ written_of unit at item.now }
{
    match around_dots(item) {
        Some((front, behind)) => range_written(unit, at, front, behind),
        None => number_written(unit, at, item),
    }
}

// Whether a number is one that a list may have.
fn is_within(limits: &Limits, number: u64) -> bool
    ensures test { result ≡ is_within limits.now number }
    ensures small { IsTrue result → number < 2 ^ 32 }
{
    u64::from(limits.least) <= number && number <= u64::from(limits.greatest)
}

// The values of what is written in an item that begins at this byte.
#[tactic(auto, unfolding(crate::specs::Items::values_of))]
fn values_of(limits: &Limits, at: usize, item: Written) -> Result<Spaced, ListFault>
    ensures { result ≡ values_of limits.now at item }
{
    let outside = ListFaultKind::OutsideRange { limits: *limits };
    let fault = |at, kind| Err(ListFault { at, kind });
    if !is_within(limits, item.from) {
        return fault(at, outside);
    }
    if !is_within(limits, item.to) {
        return fault(item.to_at, outside);
    }
    if item.to < item.from {
        return fault(item.to_at, ListFaultKind::EndsBelow);
    }
    if item.step == 0 {
        return fault(item.step_at, ListFaultKind::NoStep);
    }
    Ok(Spaced::range(item.from as u32, item.to as u32, item.step))
}

// The values of an item that begins at this byte.
#[tactic(auto, unfolding(crate::specs::Items::item_of))]
pub(crate) fn item_of(limits: &Limits, at: usize, item: &str) -> Result<Spaced, ListFault>
    requires { at + length item.now < 2 ^ 64 }
    ensures { result ≡ item_of limits.now at item.now }
{
    let kind = ListFaultKind::NoItem;
    let written = written_of(limits.unit, at, item).ok_or(ListFault { at, kind })?;
    values_of(limits, at, written)
}
