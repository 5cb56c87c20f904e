//! Which guests get more pages.
ghost use Rattle.std.specs.Prelude.{◌≡◌, ◌+◌, ◌<◌, ◌≤◌, ◌↔◌, ℕ, All, IfOk, IfErr, IfSome, IfNone, IsNone, IsTrue, length, slice_get, slice_set};
ghost use Rattle.std.specs.List.{list_any};
ghost use Rattle.std.specs.Option.{option_map};
ghost use Rattle.vm_tax.specs.Ratio.{hundredths};
ghost use Rattle.vm_tax.specs.Prices.{HaveOneTax};
ghost use Rattle.vm_plan.specs.Moves.{EachMove};
ghost use Rattle.vm_plan.specs.Runs.{frames_for_all, grown_row};
ghost use Rattle.vm_plan.specs.Grants.{pool_after, CanGrow, LetsGrow, Outbids, MayGrant, IsNextGrant, IsGrantable, IsGrantList, grant_list};
ghost use Rattle.vm_plan.specs.PlanRow.{row_of, rows_of, pool_of};
ghost use Rattle.vm_plan.specs.Row.{change_at, wants_to_grow};
ghost use Rattle.vm_plan.specs.Track.{IsTracked, AreRivals, AreForState};
ghost use Rattle.vm_plan.specs.declared.tracking.Kind.TheVariants.{Revocable, Wanting};

use crate::grant_runs::run_length;
use crate::plan::Plan;
use crate::row::PlanRow;
use crate::state::State;
use crate::thresholds::Thresholds;
use crate::tracking::{copy_of, track_rivals, track_wanting};
use std::alloc::{AllocError, Global};
use vm_tax::{Greatest, Price, Winners, cmp_price};

/// Adds so many pages to a guest's target, and says how many free frames that takes.
fn add_pages(row: &mut PlanRow, count: u32) -> u32
    requires demand { count ≤ row.old.demand }
    requires room { row.old.target + count ≤ row.old.cap }
    ensures row { row_of row.new ≡ grown_row count (row_of row.old) }
    ensures frames { result ≡ frames_for_all count (row_of row.old) }
    ensures held { row.new.target ≤ row.new.held }
{
    row.target += count;
    row.demand -= u64::from(count);
    let held = row.held;
    row.held = held.max(row.target);
    row.held - held
}

/// Replaces the price of one guest among the rivals, where they are tracked.
fn set_rival(rivals: &mut Option<Winners>, position: u32, price: Option<Price>)
    requires within { IfSome rivals.old (λ winners. position < length winners) }
    requires one_tax { IfSome rivals.old (λ winners. HaveOneTax (slice_set winners position price)) }
    ensures { rivals.new ≡ option_map (λ winners. slice_set winners position price) rivals.old }
{
    if let Some(winners) = rivals {
        winners.set(position, price);
    }
}

/// Gives a guest so many pages more, and says how many free frames that takes.
fn give_pages(
    tax: u32,
    rows: &mut [PlanRow],
    rivals: &mut Option<Winners>,
    wanting: &mut Greatest,
    position: u32,
    count: u32,
) -> u32
    requires tax { tax ≤ 9999 }
    requires within { position < length rows.old }
    requires demand { IfSome (slice_get rows.old position) (λ row. count ≤ row.demand) }
    requires room { IfSome (slice_get rows.old position) (λ row. row.target + count ≤ row.cap) }
    requires held { All (λ row. row.target ≤ row.held) rows.old }
    requires rivals { AreRivals tax rivals.old (rows_of rows.old) }
    requires wanting { IsTracked Wanting tax wanting.old (rows_of rows.old) }
    ensures given { rows_of rows.new ≡ change_at (grown_row count) (rows_of rows.old) position }
    ensures frames { IfSome (slice_get rows.old position) (λ row. result ≡ frames_for_all count (row_of row)) }
    ensures held { All (λ row. row.target ≤ row.held) rows.new }
    ensures rivals { AreRivals tax rivals.new (rows_of rows.new) }
    ensures none { IsNone rivals.new ↔ IsNone rivals.old }
    ensures wanting { IsTracked Wanting tax wanting.new (rows_of rows.new) }
{
    let row = &mut rows[position as usize];
    let frames = add_pages(row, count);
    set_rival(rivals, position, row.revocable_price(tax));
    wanting.set(position, row.wanting_price(tax));
    frames
}

/// Whether a guest with one page more isn't below the least of the others that revocation may take from.
///
/// Where the least of all is the guest itself, it is below the others already, and more so with one page more.
fn outbids(tax: u32, rows: &[PlanRow], winners: &Winners, position: u32) -> bool
    requires tax { tax ≤ 9999 }
    requires within { position < length rows.now }
    requires below_cap { IfSome (slice_get rows.now position) (λ row. row.target < row.cap) }
    requires tracked { IsTracked Revocable tax winners.now (rows_of rows.now) }
    ensures { IsTrue result ↔ Outbids (hundredths tax) (rows_of rows.now) position }
{
    let row = &rows[position as usize];
    let grown = row.price_with(tax, row.target + 1);
    let Some(rival) = winners.least() else {
        return false;
    };
    if rival == position {
        return false;
    }
    let rival = &rows[rival as usize];
    cmp_price(&grown, &rival.price_with(tax, rival.target)).is_ge()
}

/// Whether enough frames are free for guests to grow: more than the next lower threshold of the state, in Low never
/// (Waldspurger, OSDI 2002, section 6.3).
pub fn lets_grow(state: State, free: u32, thresholds: &Thresholds) -> bool
    ensures { IsTrue result ↔ LetsGrow state thresholds.now free }
{
    match state {
        State::High => free > thresholds.soft,
        State::Soft => free > thresholds.hard,
        State::Hard => free > thresholds.low,
        State::Low => false,
    }
}

/// Whether the conditions for a grant to this guest hold.
fn may_grant(
    state: State,
    free: u32,
    thresholds: &Thresholds,
    tax: u32,
    rows: &[PlanRow],
    rivals: &Option<Winners>,
    position: u32,
) -> bool
    requires tax { tax ≤ 9999 }
    requires within { position < length rows.now }
    requires below_cap { IfSome (slice_get rows.now position) (λ row. row.target < row.cap) }
    requires rivals { AreRivals tax rivals.now (rows_of rows.now) }
    requires for_state { AreForState state rivals.now }
    ensures { IsTrue result
        ↔ MayGrant state thresholds.now (hundredths tax) (pool_of free rows.now) position }
{
    if !lets_grow(state, free, thresholds) {
        return false;
    }
    match rivals {
        Some(winners) => outbids(tax, rows, winners, position),
        None => true,
    }
}

/// Whether some guest wants to grow, and may.
fn some_wants_to_grow(rows: &[PlanRow]) -> bool
    ensures { result ≡ list_any (λ row. wants_to_grow (row_of row)) rows.now }
{
    rows.iter().any(|row| row.wants_to_grow())
}

/// Whether there can be a next grant. It passes over the rows once, and only where enough frames are free.
fn can_grow(state: State, free: u32, thresholds: &Thresholds, rows: &[PlanRow]) -> bool
    ensures { IsTrue result ↔ CanGrow state thresholds.now (pool_of free rows.now) }
{
    lets_grow(state, free, thresholds) && some_wants_to_grow(rows)
}

/// The next guest to get a page.
fn next_grant(
    state: State,
    free: u32,
    thresholds: &Thresholds,
    tax: u32,
    rows: &[PlanRow],
    rivals: &Option<Winners>,
    wanting: &Greatest,
) -> Option<u32>
    requires tax { tax ≤ 9999 }
    requires rivals { AreRivals tax rivals.now (rows_of rows.now) }
    requires for_state { AreForState state rivals.now }
    requires wanting { IsTracked Wanting tax wanting.now (rows_of rows.now) }
    ensures some { IfSome result (IsNextGrant state thresholds.now (hundredths tax) (pool_of free rows.now)) }
    ensures none { IfNone result ((position : ℕ) →
        ¬ IsNextGrant state thresholds.now (hundredths tax) (pool_of free rows.now) position) }
{
    let best = wanting.greatest()?;
    if may_grant(state, free, thresholds, tax, rows, rivals, best) {
        Some(best)
    } else {
        None
    }
}

/// The grants that a state allows, one page each, from the greatest price down (Waldspurger, OSDI 2002, sections 5 and 6.3).
///
/// `free` is the number of free frames, and `tax` is in hundredths of a percent. Each entry is the guest of the greatest price
/// among those that have demand and are below their cap, where the conditions of the state hold for it; at the first for which
/// they don't hold, the plan ends. In Low it is empty. An entry costs a logarithm of the number of rows, and in High a guest that gets
/// many in a row gets them at once. The only error is a want of memory, where enough frames are free for the state and some guest has demand and is below its cap.
pub fn grant(
    alloc: Global,
    state: State,
    free: u32,
    thresholds: &Thresholds,
    tax: u32,
    rows: &[PlanRow],
) -> Result<Plan, AllocError>
    requires few { length rows.now ≤ 256 }
    requires tax { tax ≤ 9999 }
    requires held { All (λ row. row.target ≤ row.held) rows.now }
    ensures list { IfOk result (IsGrantList state thresholds.now (hundredths tax) (pool_of free rows.now)) }

    // The same list, as a function of the arguments.
    ensures exact { IfOk result
        (λ plan. plan ≡ grant_list state thresholds.now (hundredths tax) (pool_of free rows.now)) }

    // Each entry can be given where it stands.
    ensures within { IfOk result (All (λ position. position < length rows.now)) }
    ensures applies { IfOk result
        (EachMove (λ before position. IsGrantable (pool_after (pool_of free rows.now) before) position)) }
    ensures memory { IfErr result (λ _. CanGrow state thresholds.now (pool_of free rows.now)) }
{
    if !can_grow(state, free, thresholds, rows) {
        return Ok(Plan::new(alloc));
    }
    let mut after = copy_of(alloc, rows)?;
    let mut rivals = track_rivals(alloc, state, tax, rows)?;
    let mut wanting = track_wanting(alloc, tax, rows)?;
    let mut left = free;
    let mut plan = Plan::new(alloc);
    while let Some(position) = next_grant(state, left, thresholds, tax, &after, &rivals, &wanting) {
        let before = plan.count_at_end(position);
        let count = run_length(
            state,
            left,
            thresholds,
            tax,
            &after,
            &mut wanting,
            position,
            before,
        );
        left -= give_pages(tax, &mut after, &mut rivals, &mut wanting, position, count);
        plan.push(position, count)?;
    }
    Ok(plan)
}
