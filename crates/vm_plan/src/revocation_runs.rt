//! Revocations from one guest that follow each other are found together: how many pages a guest loses before another one is next.
ghost use Rattle.std.specs.Prelude.{◌≡◌, ◌≤◌, ◌<◌, ◌↔◌, List, All, IfSome, IfNone, IsNone, IsTrue, length, slice_get};
ghost use Rattle.vm_tax.specs.Offers.{IsLeast};
ghost use Rattle.vm_tax.specs.Price.{ratio_of};
ghost use Rattle.vm_tax.specs.Ratio.{hundredths};
ghost use Rattle.vm_plan.specs.declared.tracking.Kind.TheVariants.{Revocable};
ghost use Rattle.vm_plan.specs.PlanRow.{row_of, rows_of};
ghost use Rattle.vm_plan.specs.Row.{Row, others, revocable_ratios};
ghost use Rattle.vm_plan.specs.Runs.{IsBehind, IsFall};
ghost use Rattle.vm_plan.specs.Sides.{IsSideAt};
ghost use Rattle.vm_plan.specs.Track.{IsTracked};

use crate::plan::FEW;
use crate::row::PlanRow;
use std::cmp::Ordering;
use vm_tax::{Price, Winners, cmp_price};

/// Whether the guest of a row, with so many pages, is taken from before another one.
fn is_behind(tax: u32, row: &PlanRow, position: u32, pages: u32, rival: &Price, other: u32) -> bool
    requires tax { tax ≤ 9999 }
    requires one_tax { rival.now.tax ≡ tax }
    requires some { 1 ≤ pages }
    requires few { pages ≤ 262144 }
    ensures { IsTrue result ↔ IsBehind (hundredths tax) (row_of row.now) position pages (ratio_of rival.now) other }
{
    match cmp_price(&row.price_with(tax, pages), rival) {
        Ordering::Less => true,
        Ordering::Equal => position < other,
        Ordering::Greater => false,
    }
}

/// The fewest pages, down to a limit, with which the guest of a row is taken from before another one. With its target it is.
fn least_behind(
    tax: u32,
    row: &PlanRow,
    position: u32,
    rival: &Price,
    other: u32,
    limit: u32,
) -> u32
    requires tax { tax ≤ 9999 }
    requires one_tax { rival.now.tax ≡ tax }
    requires some { 1 ≤ limit }
    requires to { limit ≤ row.now.target }
    requires behind { IsBehind (hundredths tax) (row_of row.now) position row.now.target (ratio_of rival.now) other }
    ensures from { limit ≤ result }
    ensures to { result ≤ row.now.target }
    ensures behind { IsBehind (hundredths tax) (row_of row.now) position result (ratio_of rival.now) other }
{
    let mut low = limit;
    let mut high = row.target;
    while low < high {
        let middle = low + (high - low) / 2;
        if is_behind(tax, row, position, middle, rival, other) {
            high = middle;
        } else {
            low = middle + 1;
        }
    }
    high
}

/// The guest that comes first among the others that may be taken from. The prices may be those of guests of which this one alone is as in
/// the rows: in a rebalancing others took pages.
pub(crate) fn rival_of(
    tax: u32,
    rows: &[PlanRow],
    winners: &mut Winners,
    position: u32,
) -> Option<u32>
    requires tax { tax ≤ 9999 }
    requires within { position < length rows.now }
    requires side { IsSideAt Revocable tax winners.old (rows_of rows.now) position }
    ensures some { (own : List Row) → IsTracked Revocable tax winners.old own →
        IfSome result (IsLeast (others (revocable_ratios (hundredths tax) own) position)) }
    ensures none { (own : List Row) → IsTracked Revocable tax winners.old own →
        IfNone result (All IsNone (others (revocable_ratios (hundredths tax) own) position)) }
    ensures side { (own : List Row) → slice_get own position ≡ slice_get (rows_of rows.now) position →
        IsTracked Revocable tax winners.old own → IsTracked Revocable tax winners.new own }
{
    winners.set(position, None);
    let rival = winners.least();
    winners.set(position, rows[position as usize].revocable_price(tax));
    rival
}

/// How many revocations, of so many that are wanted, follow each other from the guest that is next.
fn turns(wanted: u64, tax: u32, rows: &[PlanRow], winners: &mut Winners, position: u32) -> u32
    requires wanted { 0 < wanted }
    requires tax { tax ≤ 9999 }
    requires least { IsLeast (revocable_ratios (hundredths tax) (rows_of rows.now)) position }
    requires tracked { IsTracked Revocable tax winners.old (rows_of rows.now) }
    ensures run { IsFall (hundredths tax) (rows_of rows.now) position result }
    ensures wanted { result ≤ wanted }
    ensures tracked { IsTracked Revocable tax winners.new (rows_of rows.now) }
{
    let row = &rows[position as usize];
    let most = u64::from(row.target - row.min).min(wanted) as u32;
    let Some(other) = rival_of(tax, rows, winners, position) else {
        return most;
    };
    let rival = &rows[other as usize];
    let price = rival.price_with(tax, rival.target);
    let limit = row.target - most + 1;
    row.target - least_behind(tax, row, position, &price, other, limit) + 1
}

/// How many revocations follow each other from the guest that is next, at least one. More are looked for where it had a few in a row
/// already: where guests take turns there is one at a time.
pub(crate) fn fall_length(
    wanted: u64,
    tax: u32,
    rows: &[PlanRow],
    winners: &mut Winners,
    position: u32,
    before: u32,
) -> u32
    requires wanted { 0 < wanted }
    requires tax { tax ≤ 9999 }
    requires least { IsLeast (revocable_ratios (hundredths tax) (rows_of rows.now)) position }
    requires tracked { IsTracked Revocable tax winners.old (rows_of rows.now) }
    ensures run { IsFall (hundredths tax) (rows_of rows.now) position result }
    ensures wanted { result ≤ wanted }
    ensures tracked { IsTracked Revocable tax winners.new (rows_of rows.now) }
{
    if before >= FEW {
        turns(wanted, tax, rows, winners, position)
    } else {
        1
    }
}
