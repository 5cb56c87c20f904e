// The domains of a sample, each its numbers or how it is left alone.
ghost use Rattle.std.specs.Prelude.{◌≡◌, ◌+◌, ◌++◌, ◌∷◌, [], ◌≤◌, ◌^◌, All, IfErr, IfOk, OnOk, length, map};
ghost use Rattle.vm_plan.specs.PlanRow.{rows_of};
ghost use Rattle.vm_steer.specs.Entries.{names_in};
ghost use Rattle.vm_steer.specs.Keys.{keys_of};
ghost use Rattle.vm_steer.specs.Names.{AreRising};
ghost use Rattle.vm_steer.specs.Order.{names_of};
ghost use Rattle.vm_steer.specs.Told.{left_held, promised_to, rest_of, rest_with, rows_in, sight_of, sights_of, with_row};

use crate::fate::LeftDomain;
use crate::keys::keys_of;
use crate::last::{names_in, remembered_in};
use crate::look::look_of;
use crate::measures::units_up;
use crate::numbers::Numbers;
use crate::order::{Ordered, name_of};
use crate::remembered::Remembered;
use crate::told::Entry;
use std::alloc::{AllocError, Global};
use vm_plan::PlanRow;
use vm_samples::{Domain, Policy};

// No domain counts for more.
const MOST_HELD: u64 = 1 << 54;

// What comes of a domain before anything is decided.
pub(crate) type Sight = Result<Numbers, LeftDomain>;

// All domains of a sample, in order.
#[derive(Drop)]
pub(crate) struct Around {
    pub(crate) sights: Vec<Sight>,
    // A row for each that is steered.
    pub(crate) rows: Vec<PlanRow>,
    // What is held and promised beside the rows.
    pub(crate) rest: u64,
}

// The units that a domain that is left alone holds.
fn left_held(unit: u32, current: Option<u64>) -> u64
    requires { 4 ≤ unit }
    ensures exact { result ≡ left_held unit current }
    ensures small { result ≤ 2 ^ 54 }
{
    match current {
        Some(current) => MOST_HELD.min(units_up(unit, current)),
        None => 0,
    }
}

// The numbers of a domain, or how it is left alone.
#[tactic(auto, unfolding(crate::specs::Told::sight_of))]
fn sight_of(
    policy: &Policy,
    keys: &[u32],
    names: &[&[u8]],
    hint: usize,
    last: Option<Remembered>,
    domain: &Domain,
) -> Sight
    requires keys { keys.now ≡ keys_of policy.now.guests }
    requires rising { AreRising (map (λ n. n.now) names.now) }
    ensures exact { result ≡ sight_of policy.now (map (λ n. n.now) names.now) last domain.now }
    ensures small { IfErr result (λ left. left.held ≤ 2 ^ 54) }
{
    match look_of(policy, keys, names, hint, &last, domain) {
        Ok(numbers) => Ok(numbers),
        Err(why) => {
            let held = left_held(policy.unit, domain.current);
            Err(LeftDomain {
                held,
                why,
                remembered: last,
            })
        }
    }
}

// What was promised to a domain.
fn promised_to(last: &Option<Remembered>) -> u64
    ensures exact { result ≡ promised_to last.now }
    ensures small { result ≤ 2 ^ 32 }
{
    match last {
        Some(last) => u64::from(last.target),
        None => 0,
    }
}

// The overhead of a domain, and what one that is left alone holds and was promised.
fn rest_with(overhead: u32, sight: &Sight) -> u64
    requires { IfErr sight.now (λ left. left.held ≤ 2 ^ 54) }
    ensures exact { result ≡ rest_with overhead sight.now }
    ensures small { result ≤ 2 ^ 55 }
{
    let overhead = u64::from(overhead);
    match sight {
        Ok(_) => overhead,
        Err(left) => overhead + left.held.max(promised_to(&left.remembered)),
    }
}

// Adds the row of a domain that is steered.
fn push_row(rows: &mut Vec<PlanRow>, sight: &Sight) -> Result<(), AllocError>
    requires { All (λ row. row.target ≤ row.held) rows.old.items }
    ensures rows { OnOk result (rows_of rows.new.items ≡ rows_of rows.old.items ++ with_row sight.now []) }
    ensures held { OnOk result (All (λ row. row.target ≤ row.held) rows.new.items) }
    ensures few { OnOk result (length rows.new.items ≤ length rows.old.items + 1) }
{
    if let Ok(numbers) = sight {
        rows.push(numbers.row())?;
    }
    Ok(())
}

// The domains of a sample, which stand in order. What is remembered of them is in the entries.
pub(crate) fn look_around(
    alloc: Global,
    policy: &Policy,
    ordered: &Ordered<'_>,
    last: &[Entry],
) -> Result<Around, AllocError>
    requires few { length ordered.now.domains.items ≤ 256 }
    requires names { map (λ n. n.now) ordered.now.names.items ≡ names_of (map (λ d. d.now) ordered.now.domains.items) }
    requires rising { AreRising (names_of (map (λ d. d.now) ordered.now.domains.items)) }
    requires last { AreRising (names_in last.now) }
    ensures sights { let domains = map (λ d. d.now) ordered.now.domains.items in
        IfOk result (λ around. around.sights.items ≡ sights_of policy.now last.now domains) }
    ensures rows { let domains = map (λ d. d.now) ordered.now.domains.items in
        IfOk result (λ around. rows_of around.rows.items ≡ rows_in (sights_of policy.now last.now domains)) }
    ensures rest { let domains = map (λ d. d.now) ordered.now.domains.items in
        IfOk result (λ around. around.rest ≡ rest_of policy.now.overhead (sights_of policy.now last.now domains)) }
    ensures held { IfOk result (λ around. All (λ row. row.target ≤ row.held) around.rows.items) }
    ensures few { IfOk result (λ around. length around.rows.items ≤ 256) }
    ensures small { IfOk result (λ around. around.rest ≤ 2 ^ 63) }
{
    let keys = keys_of(alloc, &policy.guests)?;
    let known = names_in(alloc, last)?;
    let mut sights = Vec::with_capacity(alloc, ordered.domains.len())?;
    let mut rows = Vec::with_capacity(alloc, ordered.domains.len())?;
    let mut rest = 0;
    for domain in &ordered.domains {
        let hint = sights.len();
        let remembered = remembered_in(&known, hint, last, name_of(domain));
        let sight = sight_of(policy, &keys, &ordered.names, hint, remembered, domain);
        rest += rest_with(policy.overhead, &sight);
        push_row(&mut rows, &sight)?;
        sights.push(sight)?;
    }
    Ok(Around { sights, rows, rest })
}
