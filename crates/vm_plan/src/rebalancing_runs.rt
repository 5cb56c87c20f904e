//! Pages that go from one guest to another in a row are found together: how many go before another guest gives, or takes.
ghost use Rattle.std.specs.Prelude.{◌≡◌, ◌+◌, ◌-◌, ◌<◌, ◌≤◌, ◌↔◌, List, All, IfSome, IfNone, IsNone, IsTrue, length, slice_get};
ghost use Rattle.std.specs.Bool.{OnTrue};
ghost use Rattle.vm_tax.specs.Offers.{IsGreatest};
ghost use Rattle.vm_tax.specs.Price.{ratio_of};
ghost use Rattle.vm_tax.specs.Ratio.{IsBelow, IsLess, hundredths};
ghost use Rattle.vm_plan.specs.declared.tracking.Kind.TheVariants.{Taking};
ghost use Rattle.vm_plan.specs.PlanRow.{row_of, rows_of};
ghost use Rattle.vm_plan.specs.Rebalancing.{taking_ratios, IsTransfer};
ghost use Rattle.vm_plan.specs.Row.{Row, others};
ghost use Rattle.vm_plan.specs.Runs.{GivesFirst, TakesFirst, GoesOn, IsFlow, IsKept};
ghost use Rattle.vm_plan.specs.Sides.{AreSides, IsSideAt};
ghost use Rattle.vm_plan.specs.Track.{IsTracked};

use crate::plan::FEW;
use crate::rebalance::is_above;
use crate::revocation_runs::rival_of;
use crate::row::PlanRow;
use crate::transfers::Transfer;
use std::cmp::Ordering;
use vm_tax::{Greatest, Price, Winners, cmp_price};

/// Who comes first among the others: of those that can give, and of those that would take.
#[derive(Clone, Copy)]
struct Rivals {
    giver: Option<u32>,
    taker: Option<u32>,
}

/// Whether a price at one position is below a price at another.
fn is_below(price: &Price, position: u32, rival: &Price, other: u32) -> bool
    requires { price.now.tax ≡ rival.now.tax }
    ensures { IsTrue result ↔ IsBelow (ratio_of price.now) position (ratio_of rival.now) other }
{
    match cmp_price(price, rival) {
        Ordering::Less => true,
        Ordering::Equal => position < other,
        Ordering::Greater => false,
    }
}

/// Whether at such a price a guest gives before its rival.
fn gives_first(tax: u32, rows: &[PlanRow], price: &Price, position: u32, rival: Option<u32>) -> bool
    requires tax { tax ≤ 9999 }
    requires one_tax { price.now.tax ≡ tax }
    requires within { IfSome rival (λ other. other < length rows.now) }
    ensures { IsTrue result ↔ GivesFirst (hundredths tax) (rows_of rows.now) (ratio_of price.now) position rival }
{
    let Some(other) = rival else {
        return true;
    };
    let row = &rows[other as usize];
    is_below(price, position, &row.price_with(tax, row.target), other)
}

/// Whether a guest that pays so much takes before its rival.
fn takes_first(tax: u32, rows: &[PlanRow], price: &Price, position: u32, rival: Option<u32>) -> bool
    requires tax { tax ≤ 9999 }
    requires one_tax { price.now.tax ≡ tax }
    requires within { IfSome rival (λ other. other < length rows.now) }
    requires room { IfSome rival (λ other. IfSome (slice_get rows.now other) (λ row. row.target < row.cap)) }
    ensures { IsTrue result ↔ TakesFirst (hundredths tax) (rows_of rows.now) (ratio_of price.now) position rival }
{
    let Some(other) = rival else {
        return true;
    };
    let row = &rows[other as usize];
    is_above(price, position, &row.price_with(tax, row.target + 1), other)
}

/// Whether, after so many pages went, the next one is granted to the taker before the giver.
fn is_kept(tax: u32, giver: &PlanRow, taker: &PlanRow, transfer: Transfer, given: u32) -> bool
    requires tax { tax ≤ 9999 }
    requires above { giver.now.min + given < giver.now.target }
    requires room { taker.now.target + given < taker.now.cap }
    ensures { IsTrue result ↔ IsKept (hundredths tax) (row_of giver.now) (row_of taker.now) transfer.giver transfer.taker given }
{
    if giver.demand == 0 {
        return true;
    }
    let back = giver.price_with(tax, giver.target - given - 1);
    let rival = taker.price_with(tax, taker.target + given);
    !is_above(&back, transfer.giver, &rival, transfer.taker)
}

/// Whether one price is less than another.
fn is_less(price: &Price, other: &Price) -> bool
    requires { price.now.tax ≡ other.now.tax }
    ensures { IsTrue result ↔ IsLess (ratio_of price.now) (ratio_of other.now) }
{
    match cmp_price(price, other) {
        Ordering::Less => true,
        Ordering::Equal | Ordering::Greater => false,
    }
}

/// Whether, after so many pages went, the next one goes the same way.
fn goes_on(
    tax: u32,
    rows: &[PlanRow],
    giver: &PlanRow,
    taker: &PlanRow,
    transfer: Transfer,
    rivals: Rivals,
    given: u32,
) -> bool
    requires tax { tax ≤ 9999 }
    requires above { giver.now.min + given < giver.now.target }
    requires room { taker.now.target + given < taker.now.cap }
    requires giving { IfSome rivals.giver (λ other. other < length rows.now) }
    requires taking { IfSome rivals.taker (λ other. other < length rows.now) }
    requires grows { IfSome rivals.taker (λ other. IfSome (slice_get rows.now other) (λ row. row.target < row.cap)) }
    ensures { OnTrue result
        (GoesOn (hundredths tax) (rows_of rows.now) (row_of giver.now) (row_of taker.now) transfer.giver transfer.taker rivals.giver rivals.taker given) }
{
    let price = giver.price_with(tax, giver.target - given);
    let paid = taker.price_with(tax, taker.target + given + 1);
    if !is_less(&price, &paid) {
        return false;
    }
    if !gives_first(tax, rows, &price, transfer.giver, rivals.giver) {
        return false;
    }
    if !takes_first(tax, rows, &paid, transfer.taker, rivals.taker) {
        return false;
    }
    is_kept(tax, giver, taker, transfer, given)
}

/// How many pages, of so many at most, go the same way after each other, where the first one does.
fn count_going(
    tax: u32,
    rows: &[PlanRow],
    giver: &PlanRow,
    taker: &PlanRow,
    transfer: Transfer,
    rivals: Rivals,
    most: u32,
) -> u32
    requires tax { tax ≤ 9999 }
    requires some { 1 ≤ most }
    requires above { giver.now.min + most ≤ giver.now.target }
    requires room { taker.now.target + most ≤ taker.now.cap }
    requires giving { IfSome rivals.giver (λ other. other < length rows.now) }
    requires taking { IfSome rivals.taker (λ other. other < length rows.now) }
    requires grows { IfSome rivals.taker (λ other. IfSome (slice_get rows.now other) (λ row. row.target < row.cap)) }
    ensures some { 1 ≤ result }
    ensures most { result ≤ most }
    ensures last { 1 < result →
        GoesOn (hundredths tax) (rows_of rows.now) (row_of giver.now) (row_of taker.now) transfer.giver transfer.taker rivals.giver rivals.taker (result - 1) }
{
    let mut low = 0;
    let mut high = most - 1;
    while low < high {
        let middle = high - (high - low) / 2;
        if goes_on(tax, rows, giver, taker, transfer, rivals, middle) {
            low = middle;
        } else {
            high = middle - 1;
        }
    }
    low + 1
}

/// The guest that comes first among the others that would take.
fn rival_taker(tax: u32, rows: &[PlanRow], takers: &mut Greatest, position: u32) -> Option<u32>
    requires tax { tax ≤ 9999 }
    requires within { position < length rows.now }
    requires side { IsSideAt Taking tax takers.old (rows_of rows.now) position }
    ensures some { (grown : List Row) → IsTracked Taking tax takers.old grown →
        IfSome result (IsGreatest (others (taking_ratios (hundredths tax) grown) position)) }
    ensures none { (grown : List Row) → IsTracked Taking tax takers.old grown →
        IfNone result (All IsNone (others (taking_ratios (hundredths tax) grown) position)) }
    ensures side { (grown : List Row) → slice_get grown position ≡ slice_get (rows_of rows.now) position →
        IsTracked Taking tax takers.old grown → IsTracked Taking tax takers.new grown }
{
    takers.set(position, None);
    let rival = takers.greatest();
    takers.set(position, rows[position as usize].taking_price(tax));
    rival
}

/// How many pages one guest can give and the other one take, whatever the prices.
fn most_between(left: u32, giver: &PlanRow, taker: &PlanRow) -> u32
    requires left { 1 ≤ left }
    requires above { giver.now.min < giver.now.target }
    requires demand { 0 < taker.now.demand }
    requires room { taker.now.target < taker.now.cap }
    ensures some { 1 ≤ result }
    ensures left { result ≤ left }
    ensures above { giver.now.min + result ≤ giver.now.target }
    ensures demand { result ≤ taker.now.demand }
    ensures room { taker.now.target + result ≤ taker.now.cap }
{
    let room = (giver.target - giver.min).min(taker.cap - taker.target);
    u64::from(left.min(room)).min(taker.demand) as u32
}

/// How many pages, of so many at most, go the same way after each other.
fn turns(
    left: u32,
    tax: u32,
    rows: &[PlanRow],
    givers: &mut Winners,
    takers: &mut Greatest,
    transfer: Transfer,
) -> u32
    requires left { 0 < left }
    requires tax { tax ≤ 9999 }
    requires next { IsTransfer (hundredths tax) (rows_of rows.now) transfer.giver transfer.taker }
    requires sides { AreSides tax (rows_of rows.now) givers.old takers.old }
    ensures flow { IsFlow (hundredths tax) (rows_of rows.now) transfer.giver transfer.taker result }
    ensures left { result ≤ left }
    ensures sides { AreSides tax (rows_of rows.now) givers.new takers.new }
{
    let giver = &rows[transfer.giver as usize];
    let taker = &rows[transfer.taker as usize];
    let most = most_between(left, giver, taker);
    let rivals = Rivals {
        giver: rival_of(tax, rows, givers, transfer.giver),
        taker: rival_taker(tax, rows, takers, transfer.taker),
    };
    count_going(tax, rows, giver, taker, transfer, rivals, most)
}

/// How many pages go the same way after each other, at least one. More are looked for where a few did already, and no more than these:
/// where guests take turns there is one at a time, and costs no more than that.
pub(crate) fn flow_length(
    left: u32,
    tax: u32,
    rows: &[PlanRow],
    givers: &mut Winners,
    takers: &mut Greatest,
    transfer: Transfer,
    before: u32,
) -> u32
    requires left { 0 < left }
    requires tax { tax ≤ 9999 }
    requires next { IsTransfer (hundredths tax) (rows_of rows.now) transfer.giver transfer.taker }
    requires sides { AreSides tax (rows_of rows.now) givers.old takers.old }
    ensures flow { IsFlow (hundredths tax) (rows_of rows.now) transfer.giver transfer.taker result }
    ensures left { result ≤ left }
    ensures sides { AreSides tax (rows_of rows.now) givers.new takers.new }
{
    if before >= FEW {
        turns(left.min(before), tax, rows, givers, takers, transfer)
    } else {
        1
    }
}

/// How many pages went the same way last.
#[derive(Clone, Copy)]
pub(crate) struct Streak {
    giver: u32,
    taker: u32,
    count: u32,
}

impl Streak {
    /// None yet.
    pub(crate) fn new() -> Self {
        Streak {
            giver: 0,
            taker: 0,
            count: 0,
        }
    }

    /// How many went this way last.
    pub(crate) fn before(&self, transfer: Transfer) -> u32 {
        if self.giver == transfer.giver && self.taker == transfer.taker {
            self.count
        } else {
            0
        }
    }

    /// So many more went this way.
    pub(crate) fn add(&mut self, transfer: Transfer, count: u32) {
        *self = Streak {
            giver: transfer.giver,
            taker: transfer.taker,
            count: self.before(transfer).saturating_add(count),
        };
    }
}
