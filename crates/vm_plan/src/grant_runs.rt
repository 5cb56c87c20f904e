//! Grants to one guest that follow each other are found together: how many a guest gets before another one is next.
ghost use Rattle.std.specs.Prelude.{◌≡◌, ◌≤◌, ◌<◌, ◌↔◌, ◌∷◌, [], All, IfSome, IfNone, IsNone, IsTrue, length, slice_get};
ghost use Rattle.vm_tax.specs.Offers.{IsGreatest};
ghost use Rattle.vm_tax.specs.Price.{ratio_of};
ghost use Rattle.vm_tax.specs.Ratio.{hundredths};
ghost use Rattle.vm_plan.specs.declared.state.State.TheVariants.{High};
ghost use Rattle.vm_plan.specs.declared.tracking.Kind.TheVariants.{Wanting};
ghost use Rattle.vm_plan.specs.Grants.{IsNextGrant};
ghost use Rattle.vm_plan.specs.PlanRow.{row_of, rows_of, pool_of};
ghost use Rattle.vm_plan.specs.Row.{others, wanting_ratios};
ghost use Rattle.vm_plan.specs.Runs.{affordable, IsAhead, IsRun};
ghost use Rattle.vm_plan.specs.Track.{IsTracked};

use crate::plan::FEW;
use crate::row::PlanRow;
use crate::state::State;
use crate::thresholds::Thresholds;
use std::cmp::Ordering;
use vm_tax::{Greatest, Price, cmp_price};

/// Whether the guest of a row, with so many pages, comes before another one.
fn is_ahead(tax: u32, row: &PlanRow, position: u32, pages: u32, rival: &Price, other: u32) -> bool
    requires tax { tax ≤ 9999 }
    requires one_tax { rival.now.tax ≡ tax }
    requires some { 1 ≤ pages }
    requires few { pages ≤ 262144 }
    ensures { IsTrue result ↔ IsAhead (hundredths tax) (row_of row.now) position pages (ratio_of rival.now) other }
{
    match cmp_price(&row.price_with(tax, pages), rival) {
        Ordering::Less => false,
        Ordering::Equal => position < other,
        Ordering::Greater => true,
    }
}

/// The most pages, up to a limit, with which the guest of a row comes before another one. With its target it does.
fn most_ahead(tax: u32, row: &PlanRow, position: u32, rival: &Price, other: u32, limit: u32) -> u32
    requires tax { tax ≤ 9999 }
    requires one_tax { rival.now.tax ≡ tax }
    requires from { row.now.target ≤ limit }
    requires few { limit ≤ 262144 }
    requires ahead { IsAhead (hundredths tax) (row_of row.now) position row.now.target (ratio_of rival.now) other }
    ensures from { row.now.target ≤ result }
    ensures to { result ≤ limit }
    ensures ahead { IsAhead (hundredths tax) (row_of row.now) position result (ratio_of rival.now) other }
{
    let mut low = row.target;
    let mut high = limit;
    while low < high {
        let middle = high - (high - low) / 2;
        if is_ahead(tax, row, position, middle, rival, other) {
            low = middle;
        } else {
            high = middle - 1;
        }
    }
    low
}

/// How many grants a guest can get in High, whoever else wants some.
fn affordable(free: u32, thresholds: &Thresholds, row: &PlanRow) -> u32
    requires { row.now.target ≤ row.now.held }
    ensures { result ≡ affordable thresholds.now free (row_of row.now) }
{
    let wanted = row.demand.min(u64::from(row.cap - row.target));
    let held = u64::from(row.held - row.target);
    let frames = held + u64::from(free.saturating_sub(thresholds.soft));
    wanted.min(frames) as u32
}

/// The guest that comes first among the others that want to grow.
fn rival_of(tax: u32, rows: &[PlanRow], wanting: &mut Greatest, position: u32) -> Option<u32>
    requires tax { tax ≤ 9999 }
    requires within { position < length rows.now }
    requires wanting { IsTracked Wanting tax wanting.old (rows_of rows.now) }
    ensures some { IfSome result (IsGreatest (others (wanting_ratios (hundredths tax) (rows_of rows.now)) position)) }
    ensures none { IfNone result (All IsNone (others (wanting_ratios (hundredths tax) (rows_of rows.now)) position)) }
    ensures wanting { IsTracked Wanting tax wanting.new (rows_of rows.now) }
{
    wanting.set(position, None);
    let rival = wanting.greatest();
    wanting.set(position, rows[position as usize].wanting_price(tax));
    rival
}

/// How many grants follow each other to the guest that is next, in High.
fn turns(
    free: u32,
    thresholds: &Thresholds,
    tax: u32,
    rows: &[PlanRow],
    wanting: &mut Greatest,
    position: u32,
) -> u32
    requires tax { tax ≤ 9999 }
    requires held { All (λ row. row.target ≤ row.held) rows.now }
    requires next { IsNextGrant High thresholds.now (hundredths tax) (pool_of free rows.now) position }
    requires wanting { IsTracked Wanting tax wanting.old (rows_of rows.now) }
    ensures run { IsRun High thresholds.now (hundredths tax) (pool_of free rows.now) position result }
    ensures wanting { IsTracked Wanting tax wanting.new (rows_of rows.now) }
{
    let row = &rows[position as usize];
    let most = affordable(free, thresholds, row);
    let Some(other) = rival_of(tax, rows, wanting, position) else {
        return most;
    };
    let rival = &rows[other as usize];
    let price = rival.price_with(tax, rival.target);
    let limit = row.target + most - 1;
    most_ahead(tax, row, position, &price, other, limit) - row.target + 1
}

/// How many grants follow each other to the guest that is next, at least one. More are looked for in High, where it had a few in a
/// row already: below High each has to outbid the others, and where guests take turns there is one at a time.
pub(crate) fn run_length(
    state: State,
    free: u32,
    thresholds: &Thresholds,
    tax: u32,
    rows: &[PlanRow],
    wanting: &mut Greatest,
    position: u32,
    before: u32,
) -> u32
    requires tax { tax ≤ 9999 }
    requires held { All (λ row. row.target ≤ row.held) rows.now }
    requires next { IsNextGrant state thresholds.now (hundredths tax) (pool_of free rows.now) position }
    requires wanting { IsTracked Wanting tax wanting.old (rows_of rows.now) }
    ensures run { IsRun state thresholds.now (hundredths tax) (pool_of free rows.now) position result }
    ensures wanting { IsTracked Wanting tax wanting.new (rows_of rows.now) }
{
    if state == State::High && before >= FEW {
        turns(free, thresholds, tax, rows, wanting, position)
    } else {
        1
    }
}
