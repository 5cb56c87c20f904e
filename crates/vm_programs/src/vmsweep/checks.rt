// What is refused of lists that are read.
ghost use Rattle.std.specs.Prelude.{◌≡◌, ◌↔◌, ◌≤◌, ◌-◌, ◌*◌, ◌+◌, ◌^◌, IfErr, IsTrue, OnOk, length, min, slice_index};
ghost use Rattle.std.specs.List.Sorted.{IsStrictlyIncreasing};
ghost use Rattle.vm_programs.specs.vmsweep.Lists.{count_each, count_of, curves, guest_lists, lists_in, runs, seed_count};
ghost use Rattle.vm_programs.specs.vmsweep.Refused.{IsFaultOf, IsFaultOfDrawing, curves_fault, curves_fault_of, has_guest_loop, runs_fault};
ghost use Rattle.vm_programs.specs.vmsweep.Taken.{CanBeDrawn};

use super::asked::{Asked, Form};
use super::faults::SweepFault;
use vm_lists::ValueList;
use vm_sweep::GuestList;

// The most lists for guests.
const MOST_LISTS: usize = 8;

// The most runs.
const MOST_RUNS: u64 = 10000;

// The fewest machines of a drawing, and its most curves.
const FEWEST_MACHINES: u64 = 2;

const MOST_CURVES: u64 = 12;

// How many values a key has in turn.
fn count_of(list: &Option<ValueList>) -> u64
    ensures { result ≡ count_of list.now }
{
    match list {
        Some(values) => values.len(),
        None => 1,
    }
}

// Combinations of values of lists for guests, as far as 64 bits hold them.
fn count_each(lists: &[GuestList]) -> u64
    ensures { result ≡ min (count_each lists.now) (2 ^ 64 - 1) }
{
    let mut count = 1u64;
    for list in lists {
        count = count.saturating_mul(list.values().len());
    }
    count
}

// How often each combination is run.
fn seed_count(seeds: Option<u32>) -> u64
    ensures { result ≡ seed_count seeds }
{
    match seeds {
        Some(count) => u64::from(count),
        None => 1,
    }
}

// Combinations of values of swap, tax and page rate, as far as 64 bits hold them.
fn curves_of_three(asked: &Asked) -> u64
    ensures { let lists = lists_in asked.now in
        result ≡ min (count_of lists.swap * count_of lists.tax * count_of lists.page_rate) (2 ^ 64 - 1) }
{
    count_of(&asked.swap)
        .saturating_mul(count_of(&asked.tax))
        .saturating_mul(count_of(&asked.page_rate))
}

// Combinations of values of all settings of the machine but the frames, and of the percentages, as far as 64 bits hold them.
fn curves_of_five(asked: &Asked) -> u64
    ensures { let lists = lists_in asked.now in
        result ≡ min (count_of lists.swap * count_of lists.tax * count_of lists.page_rate * count_of lists.rebalance
        * count_of lists.min_percent) (2 ^ 64 - 1) }
{
    curves_of_three(asked)
        .saturating_mul(count_of(&asked.rebalance))
        .saturating_mul(count_of(&asked.min_percent))
}

// Combinations of values of all loops but frames and seeds, as far as 64 bits hold them.
fn curves(asked: &Asked) -> u64
    ensures { result ≡ min (curves (lists_in asked.now)) (2 ^ 64 - 1) }
{
    curves_of_five(asked)
        .saturating_mul(count_each(&asked.minimums))
        .saturating_mul(count_each(&asked.shares))
}

// The runs of all loops, as far as 64 bits hold them.
fn runs(asked: &Asked) -> u64
    ensures { result ≡ min (runs (lists_in asked.now)) (2 ^ 64 - 1) }
{
    count_of(&asked.frames)
        .saturating_mul(curves(asked))
        .saturating_mul(seed_count(asked.seeds))
}

// Whether there are no more lists for guests than a sweep has.
fn has_few_lists(asked: &Asked) -> bool
    ensures { IsTrue result ↔ (guest_lists (lists_in asked.now) ≤ 8) }
{
    let minimums = asked.minimums.len();
    let shares = asked.shares.len();
    minimums <= MOST_LISTS && shares <= MOST_LISTS - minimums
}

// The value at a place, from 0.
#[tactic(auto, using(crate::proofs::lemmas::vmsweep::Read::value_read))]
fn value_at(list: &ValueList, index: u64) -> u32
    ensures { result ≡ slice_index list.now index }
{
    list.get(index).unwrap_or(0)
}

// Whether each value is above the one before it.
fn is_rising(list: &ValueList) -> bool
    ensures { IsTrue result ↔ IsStrictlyIncreasing list.now }
{
    for index in 1..list.len() {
        if value_at(list, index) <= value_at(list, index - 1) {
            return false;
        }
    }
    true
}

// Whether a loop over guests or seeds is given.
fn has_guest_loop(asked: &Asked) -> bool
    ensures { result ≡ has_guest_loop (lists_in asked.now) }
{
    asked.min_percent.is_some()
        || !asked.minimums.is_empty()
        || !asked.shares.is_empty()
        || asked.seeds.is_some()
}

// The fault of too many curves, where there is such a loop or not.
fn curves_fault_of(guest_loop: bool, rebalance: &Option<ValueList>) -> SweepFault
    ensures { result ≡ curves_fault_of guest_loop rebalance.now }
{
    if guest_loop {
        return SweepFault::TooManyOfAll;
    }
    match rebalance {
        Some(_) => SweepFault::TooManyOfFour,
        None => SweepFault::TooManyCurves,
    }
}

// The fault of too many curves.
fn curves_fault(asked: &Asked) -> SweepFault
    ensures { result ≡ curves_fault (lists_in asked.now) }
{
    curves_fault_of(has_guest_loop(asked), &asked.rebalance)
}

// The fault of too many runs.
fn runs_fault(seeds: Option<u32>) -> SweepFault
    ensures { result ≡ runs_fault seeds }
{
    match seeds {
        Some(_) => SweepFault::TooManyRuns,
        None => SweepFault::TooMany,
    }
}

// Why lists can't be drawn.
#[tactic(auto, using(crate::proofs::lemmas::vmsweep::Taken::of_curves))]
fn check_drawing(asked: &Asked) -> Result<(), SweepFault>
    ensures drawn { OnOk result (CanBeDrawn (lists_in asked.now)) }
    ensures refused { IfErr result (IsFaultOfDrawing (lists_in asked.now)) }
{
    let Some(frames) = &asked.frames else {
        return Err(SweepFault::OneMachine);
    };
    if frames.len() < FEWEST_MACHINES {
        return Err(SweepFault::OneMachine);
    }
    if !is_rising(frames) {
        return Err(SweepFault::NotRising);
    }
    if curves(asked) > MOST_CURVES {
        return Err(curves_fault(asked));
    }
    Ok(())
}

// Why lists make too many runs.
#[tactic(auto, using(crate::proofs::lemmas::vmsweep::Taken::of_runs))]
fn check_runs(asked: &Asked) -> Result<(), SweepFault>
    ensures few_lists { OnOk result (guest_lists (lists_in asked.now) ≤ 8) }
    ensures few { OnOk result (runs (lists_in asked.now) ≤ 10000) }
    ensures refused { IfErr result (IsFaultOf asked.now.form (lists_in asked.now)) }
{
    if !has_few_lists(asked) {
        return Err(SweepFault::TooManyLists);
    }
    if runs(asked) > MOST_RUNS {
        return Err(runs_fault(asked.seeds));
    }
    Ok(())
}

// Why lists are refused that are read.
pub(crate) fn check(asked: &Asked) -> Result<(), SweepFault>
    ensures few_lists { OnOk result (guest_lists (lists_in asked.now) ≤ 8) }
    ensures few { OnOk result (runs (lists_in asked.now) ≤ 10000) }
    ensures drawn { OnOk result (asked.now.form ≡ Form.Drawing → CanBeDrawn (lists_in asked.now)) }
    ensures refused { IfErr result (IsFaultOf asked.now.form (lists_in asked.now)) }
{
    check_runs(asked)?;
    if asked.form == Form::Drawing {
        check_drawing(asked)?;
    }
    Ok(())
}
