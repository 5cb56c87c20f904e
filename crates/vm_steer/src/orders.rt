// What comes of each domain, with its order.
ghost use Rattle.std.specs.Prelude.{◌≡◌, ◌<◌, ◌≤◌, [], IfOk, length, map, slice_get, slice_index_or};
ghost use Rattle.vm_steer.specs.Sights.{rows_of_one};
ghost use Rattle.vm_steer.specs.Told.{entries_of, entry_of, fate_of, kib_of, order_of, remembered_with, steered_by, undecided};

use crate::fate::{Fate, SteeredDomain};
use crate::numbers::Numbers;
use crate::outcome::Outcome;
use crate::remembered::Remembered;
use crate::sight::Sight;
use crate::told::Entry;
use std::alloc::{AllocError, Global};
use vm_samples::Policy;

// The KiB of so many units of a domain.
fn kib_of(unit: u32, numbers: &Numbers, units: u32) -> u64
    ensures { result ≡ kib_of unit numbers.now units }
{
    if units == numbers.size {
        numbers.full
    } else {
        u64::from(units) * u64::from(unit)
    }
}

// The KiB of a domain's order, if it is ordered.
fn order_of(policy: &Policy, may_rise: bool, numbers: &Numbers, target: u32) -> Option<u64>
    ensures { result ≡ order_of policy.now may_rise numbers.now target }
{
    let held = numbers.measures.held;
    if target < held {
        let least = held.saturating_sub(policy.rate);
        return Some(kib_of(policy.unit, numbers, target.max(least)));
    }
    if held < target && may_rise {
        Some(kib_of(policy.unit, numbers, target))
    } else {
        None
    }
}

// What is remembered of a domain that is steered.
fn remembered_with(numbers: &Numbers, target: u32) -> Remembered
    ensures { result ≡ remembered_with numbers.now target }
{
    Remembered {
        target,
        slow: numbers.measures.slow,
        fast: numbers.measures.fast,
        swap_in: numbers.measures.swap_in,
        held: numbers.measures.held,
        still: numbers.limits.still,
    }
}

#[tactic(auto, unfolding(crate::specs::Told::steered_by))]
fn steered_by(
    policy: &Policy,
    may_rise: bool,
    numbers: &Numbers,
    outcome: &Outcome,
) -> SteeredDomain
    ensures { result ≡ steered_by policy.now may_rise numbers.now outcome.now }
{
    SteeredDomain {
        remembered: remembered_with(numbers, outcome.target),
        size: numbers.size,
        used: numbers.measures.used,
        active: numbers.measures.active,
        shares: numbers.shares,
        min: numbers.limits.min,
        cap: numbers.limits.cap,
        demand: numbers.demand,
        revoked: outcome.revoked,
        granted: outcome.granted,
        rebalanced: outcome.rebalanced,
        order: order_of(policy, may_rise, numbers, outcome.target),
    }
}

// Where there is no row.
const UNDECIDED: Outcome = Outcome {
    revoked: 0,
    granted: 0,
    rebalanced: 0,
    target: 0,
};

// What comes of a domain, which is steered by the outcome of its row.
fn fate_of(policy: &Policy, may_rise: bool, sight: &Sight, outcome: Option<Outcome>) -> Fate
    ensures { result ≡ fate_of policy.now may_rise sight.now outcome }
{
    match sight {
        Ok(numbers) => {
            let outcome = outcome.unwrap_or(UNDECIDED);
            Fate::Steered(steered_by(policy, may_rise, numbers, &outcome))
        }
        Err(left) => Fate::Left(*left),
    }
}

// How many outcomes a domain takes.
fn rows_of_one(sight: &Sight) -> usize
    ensures exact { result ≡ rows_of_one sight.now }
    ensures few { result ≤ 1 }
{
    usize::from(sight.is_ok())
}

// The entry of a domain.
fn entry_of(
    alloc: Global,
    policy: &Policy,
    may_rise: bool,
    name: &[u8],
    sight: &Sight,
    outcome: Option<Outcome>,
) -> Result<Entry, AllocError>
    ensures { IfOk result (λ entry. entry ≡ entry_of policy.now may_rise name.now sight.now outcome) }
{
    Ok(Entry {
        name: Vec::from_slice(alloc, name)?,
        fate: fate_of(policy, may_rise, sight, outcome),
    })
}

fn name_at<'a>(names: &[&'a [u8]], place: usize) -> &'a [u8]
    requires { place < length names.now }
    ensures { result.now ≡ slice_index_or (map (λ n. n.now) names.now) place [] }
{
    names[place]
}

fn outcome_at(outcomes: &[Outcome], place: usize) -> Option<Outcome>
    ensures { result ≡ slice_get outcomes.now place }
{
    outcomes.get(place).copied()
}

// What comes of all domains of a sample. The outcomes are those of the steered ones, in their order.
pub(crate) fn entries_of(
    alloc: Global,
    policy: &Policy,
    may_rise: bool,
    names: &[&[u8]],
    sights: &[Sight],
    outcomes: &[Outcome],
) -> Result<Vec<Entry>, AllocError>
    requires { length sights.now ≡ length names.now }
    ensures { let all = map (λ n. n.now) names.now in
        IfOk result (λ entries. entries.items ≡ entries_of policy.now may_rise all sights.now outcomes.now) }
{
    let mut entries = Vec::with_capacity(alloc, names.len())?;
    let mut taken = 0;
    for position in 0..names.len() {
        let sight = &sights[position];
        let outcome = outcome_at(outcomes, taken);
        let name = name_at(names, position);
        entries.push(entry_of(alloc, policy, may_rise, name, sight, outcome)?)?;
        taken += rows_of_one(sight);
    }
    Ok(entries)
}
