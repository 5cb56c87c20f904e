//! Pages that go from one guest to another, with the prices of those that give and of those that take.
ghost use Rattle.std.specs.Prelude.{◌≡◌, ◌+◌, ◌<◌, ◌≤◌, List, IfSome, length, slice_get};
ghost use Rattle.vm_tax.specs.Ratio.{hundredths};
ghost use Rattle.vm_plan.specs.declared.tracking.Kind.TheVariants.{Revocable, Taking};
ghost use Rattle.vm_plan.specs.PlanRow.{row_of, rows_of};
ghost use Rattle.vm_plan.specs.Row.{Row, change_at};
ghost use Rattle.vm_plan.specs.Runs.{lowered_row, raised_row, rows_moved, IsFlow};
ghost use Rattle.vm_plan.specs.Sides.{AreSides, IsSideAt};
ghost use Rattle.vm_plan.specs.Track.{IsTracked};

use crate::row::PlanRow;
use vm_tax::{Greatest, Winners};

/// Who gives a page, and who takes it.
#[derive(Clone, Copy)]
pub(crate) struct Transfer {
    pub(crate) giver: u32,
    pub(crate) taker: u32,
}

/// Takes so many pages from a guest's target.
fn lower(row: &mut PlanRow, count: u32)
    requires { row.old.min + count ≤ row.old.target }
    ensures { row_of row.new ≡ lowered_row count (row_of row.old) }
{
    row.target -= count;
}

/// Adds so many pages to a guest's target, and takes them from its demand.
fn raise(row: &mut PlanRow, count: u32)
    requires demand { count ≤ row.old.demand }
    requires room { row.old.target + count ≤ row.old.cap }
    ensures { row_of row.new ≡ raised_row count (row_of row.old) }
{
    row.target += count;
    row.demand -= u64::from(count);
}

/// A guest that is as many above its floor gives so many pages. Its price follows, on the side of those that give.
fn give_pages(tax: u32, rows: &mut [PlanRow], givers: &mut Winners, position: u32, count: u32)
    requires tax { tax ≤ 9999 }
    requires within { position < length rows.old }
    requires above { IfSome (slice_get rows.old position) (λ row. row.min + count ≤ row.target) }
    requires side { IsSideAt Revocable tax givers.old (rows_of rows.old) position }
    ensures given { rows_of rows.new ≡ change_at (lowered_row count) (rows_of rows.old) position }
    ensures side { (own : List Row) → slice_get own position ≡ slice_get (rows_of rows.old) position →
        IsTracked Revocable tax givers.old own → IsTracked Revocable tax givers.new (change_at (lowered_row count) own position) }
{
    let row = &mut rows[position as usize];
    lower(row, count);
    givers.set(position, row.revocable_price(tax));
}

/// A guest that wants so many pages takes them. What it would pay follows, on the side of those that take.
fn take_pages(tax: u32, rows: &mut [PlanRow], takers: &mut Greatest, position: u32, count: u32)
    requires tax { tax ≤ 9999 }
    requires within { position < length rows.old }
    requires demand { IfSome (slice_get rows.old position) (λ row. count ≤ row.demand) }
    requires room { IfSome (slice_get rows.old position) (λ row. row.target + count ≤ row.cap) }
    requires side { IsSideAt Taking tax takers.old (rows_of rows.old) position }
    ensures taken { rows_of rows.new ≡ change_at (raised_row count) (rows_of rows.old) position }
    ensures side { (grown : List Row) → slice_get grown position ≡ slice_get (rows_of rows.old) position →
        IsTracked Taking tax takers.old grown → IsTracked Taking tax takers.new (change_at (raised_row count) grown position) }
{
    let row = &mut rows[position as usize];
    raise(row, count);
    takers.set(position, row.taking_price(tax));
}

/// Moves so many pages at once. Each guest's price changes on one side alone: who takes gives nothing later, and who gives takes nothing.
pub(crate) fn move_pages(
    tax: u32,
    rows: &mut [PlanRow],
    givers: &mut Winners,
    takers: &mut Greatest,
    transfer: Transfer,
    count: u32,
)
    requires tax { tax ≤ 9999 }
    requires flow { IsFlow (hundredths tax) (rows_of rows.old) transfer.giver transfer.taker count }
    requires sides { AreSides tax (rows_of rows.old) givers.old takers.old }
    ensures moved { rows_of rows.new ≡ rows_moved (rows_of rows.old) transfer.giver transfer.taker count }
    ensures sides { AreSides tax (rows_of rows.new) givers.new takers.new }
{
    give_pages(tax, rows, givers, transfer.giver, count);
    take_pages(tax, rows, takers, transfer.taker, count);
}
