//! Which guests give idle memory to those that would pay more for it.
ghost use Rattle.std.specs.Prelude.{◌≡◌, ◌+◌, ◌-◌, ◌<◌, ◌≤◌, ◌↔◌, ℕ, All, IfOk, IfErr, IfSome, IfNone, IsSomeAnd, IsTrue, length, slice_get};
ghost use Rattle.std.specs.Bool.{OnFalse, OnTrue};
ghost use Rattle.vm_tax.specs.Ratio.{hundredths, IsAbove, IsLess};
ghost use Rattle.vm_tax.specs.Price.{ratio_of};
ghost use Rattle.vm_plan.specs.Moves.{EachMove};
ghost use Rattle.vm_plan.specs.PlanRow.{row_of, rows_of};
ghost use Rattle.vm_plan.specs.Rebalancing.{ComesBack, IsTransfer, IsNextGiver, IsRebalancingList, rebalancing_list};
ghost use Rattle.vm_plan.specs.Revocation.{rows_after, IsRevocable};
ghost use Rattle.vm_plan.specs.Row.{ratio_with};
ghost use Rattle.vm_plan.specs.Runs.{Leads, LeadsAll};
ghost use Rattle.vm_plan.specs.Sides.{AreSides, Pays};

use crate::plan::Plan;
use crate::rebalancing_runs::{Streak, flow_length};
use crate::row::PlanRow;
use crate::tracking::{copy_of, track_revocable, track_taking};
use crate::transfers::{Transfer, move_pages};
use std::alloc::{AllocError, Global};
use std::cmp::Ordering;
use vm_tax::{Greatest, Price, Winners, cmp_price};

/// Whether a price at one position is above a price at another.
pub(crate) fn is_above(price: &Price, position: u32, rival: &Price, other: u32) -> bool
    requires { price.now.tax ≡ rival.now.tax }
    ensures { IsTrue result ↔ IsAbove (ratio_of price.now) position (ratio_of rival.now) other }
{
    match cmp_price(price, rival) {
        Ordering::Less => false,
        Ordering::Equal => position < other,
        Ordering::Greater => true,
    }
}

/// Whether with such a price the guest at a position would be granted a page before another guest, or is that guest.
fn leads(tax: u32, price: &Price, position: u32, row: &PlanRow, other: u32) -> bool
    requires tax { tax ≤ 9999 }
    requires one_tax { price.now.tax ≡ tax }
    ensures { IsTrue result ↔ Leads (hundredths tax) (ratio_of price.now) position (row_of row.now) other }
{
    if position == other {
        return true;
    }
    match row.wanting_price(tax) {
        Some(rival) => is_above(price, position, &rival, other),
        None => true,
    }
}

/// Whether it would be granted a page before each other guest.
fn leads_all(tax: u32, price: &Price, position: u32, rows: &[PlanRow]) -> bool
    requires few { length rows.now ≤ 256 }
    requires tax { tax ≤ 9999 }
    requires one_tax { price.now.tax ≡ tax }
    ensures { IsTrue result ↔ LeadsAll (hundredths tax) (ratio_of price.now) position (rows_of rows.now) }
{
    for (i, row) in rows.iter().enumerate() {
        if !leads(tax, price, position, row, i as u32) {
            return false;
        }
    }
    true
}

/// Whether what a guest above its floor gives would come straight back.
///
/// It passes over all rows only where the guest would be granted a page before the one that takes it. Where such a guest gives, its
/// price is above all that is paid from then on, so that happens once for each guest at most.
fn comes_back(tax: u32, rows: &[PlanRow], transfer: Transfer) -> bool
    requires few { length rows.now ≤ 256 }
    requires tax { tax ≤ 9999 }
    requires giver { transfer.giver < length rows.now }
    requires taker { transfer.taker < length rows.now }
    requires above { IfSome (slice_get rows.now transfer.giver) (λ row. row.min < row.target) }
    ensures { IsTrue result ↔ ComesBack (hundredths tax) (rows_of rows.now) transfer.giver }
{
    let giver = &rows[transfer.giver as usize];
    if giver.demand == 0 {
        return false;
    }
    let price = giver.price_with(tax, giver.target - 1);
    let taker = &rows[transfer.taker as usize];
    leads(tax, &price, transfer.giver, taker, transfer.taker)
        && leads_all(tax, &price, transfer.giver, rows)
}

/// Whether a guest would pay more for one page more than the price of another.
fn pays_more(tax: u32, giver: &PlanRow, taker: &PlanRow) -> bool
    requires tax { tax ≤ 9999 }
    requires below_cap { taker.now.target < taker.now.cap }
    ensures { IsTrue result
        ↔ IsLess (ratio_with (hundredths tax) (row_of giver.now) giver.now.target) (ratio_with (hundredths tax) (row_of taker.now) (taker.now.target + 1)) }
{
    let price = giver.price_with(tax, giver.target);
    match cmp_price(&price, &taker.price_with(tax, taker.target + 1)) {
        Ordering::Less => true,
        Ordering::Equal | Ordering::Greater => false,
    }
}

/// Whether a page goes from a guest above its floor to one that wants it.
fn is_transfer(tax: u32, rows: &[PlanRow], transfer: Transfer) -> bool
    requires few { length rows.now ≤ 256 }
    requires tax { tax ≤ 9999 }
    requires above { IsSomeAnd (slice_get (rows_of rows.now) transfer.giver) (λ row. row.min < row.target) }
    requires wants { IsSomeAnd (slice_get (rows_of rows.now) transfer.taker) (λ row. (0 < row.demand) × (row.target < row.cap)) }
    ensures pays { OnTrue result (Pays (hundredths tax) (rows_of rows.now) transfer.giver transfer.taker) }
    ensures keeps { OnFalse result (¬ Pays (hundredths tax) (rows_of rows.now) transfer.giver transfer.taker) }
{
    let giver = &rows[transfer.giver as usize];
    let taker = &rows[transfer.taker as usize];
    pays_more(tax, giver, taker) && !comes_back(tax, rows, transfer)
}

/// The next page that goes from one guest to another.
fn next_transfer(
    tax: u32,
    rows: &[PlanRow],
    givers: &Winners,
    takers: &Greatest,
) -> Option<Transfer>
    requires few { length rows.now ≤ 256 }
    requires tax { tax ≤ 9999 }
    requires sides { AreSides tax (rows_of rows.now) givers.now takers.now }
    ensures some { IfSome result (λ t. IsTransfer (hundredths tax) (rows_of rows.now) t.giver t.taker) }
    ensures none { IfNone result ((giver : ℕ) → ¬ IsNextGiver (hundredths tax) (rows_of rows.now) giver) }
{
    let giver = givers.least()?;
    let taker = takers.greatest()?;
    let transfer = Transfer { giver, taker };
    if is_transfer(tax, rows, transfer) {
        Some(transfer)
    } else {
        None
    }
}

/// Which guests give a page each, so that idle memory moves to guests that would pay more for it (Waldspurger, OSDI 2002, section 6.3).
///
/// The `min` of each row is what its guest can't give without paging. `tax` is in hundredths of a percent. Each entry is the guest of the
/// least price among those above that; the guest that would pay most for one page more takes the page. The plan ends where that isn't
/// more than the price, or the page would come straight back as the next grant, and has at most `limit` entries. A guest that takes
/// gives nothing later, so each entry can be taken from the target that its guest had, less the entries before.
///
/// An entry costs a logarithm of the number of rows, and at most once for each guest a pass over them. Entries in which one guest gives to
/// the same other one many times in a row are found at once. Where several guests take turns to give or to take, as many do whose prices
/// met, each entry costs as much as one alone. The only error is a want of memory, where there is a row and the limit is above 0.
pub fn rebalancing(
    alloc: Global,
    tax: u32,
    limit: u32,
    rows: &[PlanRow],
) -> Result<Plan, AllocError>
    requires few { length rows.now ≤ 256 }
    requires tax { tax ≤ 9999 }
    ensures list { IfOk result (IsRebalancingList (hundredths tax) limit (rows_of rows.now)) }

    // The same list, as a function of the arguments.
    ensures exact { IfOk result (λ plan. plan ≡ rebalancing_list (hundredths tax) limit (rows_of rows.now)) }

    // Each entry can be taken where it stands, though nobody got what earlier entries gave.
    ensures within { IfOk result (All (λ position. position < length rows.now)) }
    ensures applies { IfOk result
        (EachMove (λ before position. IsRevocable (rows_after (rows_of rows.now) before) position)) }
    ensures memory { IfErr result (λ _. (0 < length rows.now) × (0 < limit)) }
{
    if limit == 0 {
        return Ok(Plan::new(alloc));
    }
    let mut after = copy_of(alloc, rows)?;
    let mut givers = track_revocable(alloc, tax, rows)?;
    let mut takers = track_taking(alloc, tax, rows)?;
    let mut plan = Plan::new(alloc);
    let mut streak = Streak::new();
    let mut left = limit;
    while left > 0 {
        let Some(transfer) = next_transfer(tax, &after, &givers, &takers) else {
            break;
        };
        let before = streak.before(transfer);
        let count = flow_length(
            left,
            tax,
            &after,
            &mut givers,
            &mut takers,
            transfer,
            before,
        );
        move_pages(tax, &mut after, &mut givers, &mut takers, transfer, count);
        plan.push(transfer.giver, count)?;
        streak.add(transfer, count);
        left -= count;
    }
    Ok(plan)
}
