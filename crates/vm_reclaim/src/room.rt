//! How room is made for frames that a command needs at once, and that are not free (ballooning is too slow for that: Waldspurger,
//! OSDI 2002, section 3.3).
ghost use Rattle.std.specs.Prelude.{◌≡◌, ◌-◌, ◌<◌, ◌≤◌, IfErr, IfOk, IfSome, OnOk, OnErr, length, fold, replicate, slice_get};
ghost use Rattle.vm_plan.specs.PlanRow.{row_of, rows_of as plan_rows};
ghost use Rattle.vm_plan.specs.Row.{change_at};
ghost use Rattle.vm_guest.specs.Good.{IsGood};
ghost use Rattle.vm_pool.specs.Changes.{taken_at};
ghost use Rattle.vm_pool.specs.Pool.{EachGuest};
ghost use Rattle.vm_pool.specs.Guests.{sum_of};
ghost use Rattle.vm_reclaim.specs.Fairness.{TakesFromCheapest};
ghost use Rattle.vm_reclaim.specs.Making.{raised_row, shares_of, CanRaise, IsNeededFor};
ghost use Rattle.vm_sound.specs.Moves.{CanTake};
ghost use Rattle.vm_reclaim.specs.Room.{raised, room_made, surplus_counts, revocations_for_room, with_surplus_back};
ghost use Rattle.vm_sound.specs.Sound.{HasSameSetup};
ghost use Rattle.vm_reclaim.specs.Rows.{rows_of};
ghost use Rattle.vm_tax.specs.Ratio.{hundredths};

use crate::rows::rows_of;
use std::alloc::{AllocError, Global};
use vm_plan::{Plan, PlanRow, revocations};
use vm_pool::Pool;

/// A guest's minimum that is set (`virsh memtune --min-guarantee`).
#[derive(Clone, Copy, Debug)]
pub struct Raise {
    /// The position of the guest.
    pub position: usize,
    /// Its minimum from now on, in frames.
    pub least: u32,
}

// A row with a raised minimum, which its target rises to.
fn raise_row(row: &PlanRow, least: u32) -> PlanRow
    requires from { 1 ≤ least }
    requires to { least ≤ row.now.cap }
    ensures { row_of result ≡ raised_row least (row_of row.now) }
{
    PlanRow {
        shares: row.shares,
        active: row.active,
        min: least,
        cap: row.cap,
        target: row.target.max(least),
        held: row.held,
        used: row.used,
        demand: row.demand,
    }
}

// The row at a position has a raised minimum.
fn raise_at(rows: &mut [PlanRow], position: usize, least: u32)
    requires within { position < length rows.old }
    requires from { 1 ≤ least }
    requires to { IfSome (slice_get rows.old position) (λ row. least ≤ row.cap) }
    ensures { plan_rows rows.new ≡ change_at (raised_row least) (plan_rows rows.old) position }
{
    rows[position] = raise_row(&rows[position], least);
}

// The guests' rows; that of the guest whose minimum is raised has it.
fn raised_rows(alloc: Global, pool: &Pool, raise: Option<Raise>) -> Result<Vec<PlanRow>, AllocError>
    requires { CanRaise raise pool.now }
    ensures rows { IfOk result (λ rows. plan_rows rows.items ≡ rows_of (raised raise pool.now).guests) }
    ensures length { IfOk result (λ rows. length rows.items ≡ length pool.now.guests) }
    ensures good { OnOk result (EachGuest IsGood pool.now) }
    ensures memory { IfErr result (λ _. 0 < length pool.now.guests) }
{
    let mut rows = rows_of(alloc, pool)?;
    if let Some(raise) = raise {
        raise_at(&mut rows, raise.position, raise.least);
    }
    Ok(rows)
}

// What guests give up of their surplus.
#[derive(Drop)]
struct Surplus {
    // By position: how many frames each gives up.
    counts: Vec<u32>,
    // How many frames are short then.
    short: u32,
}

// What each guest gives up of its surplus, where so many frames are short.
fn surplus_shares(alloc: Global, short: u32, rows: &[PlanRow]) -> Result<Surplus, AllocError>
    ensures counts { IfOk result (λ given. given.counts.items ≡ shares_of short (plan_rows rows.now)) }
    ensures short { IfOk result (λ given. given.short ≡ short - sum_of (shares_of short (plan_rows rows.now))) }
    ensures memory { IfErr result (λ _. 0 < length rows.now) }
{
    let mut left = short;
    let mut counts = Vec::with_capacity(alloc, rows.len())?;
    for row in rows {
        let count = left.min(row.held.saturating_sub(row.target));
        left -= count;
        counts.push(count)?;
    }
    Ok(Surplus {
        counts,
        short: left,
    })
}

// The guest at a position loses so many pages of its target, and gives up as many frames.
fn take_at(pool: &mut Pool, position: usize, count: u32)
    requires { CanTake pool.old (replicate count position) }
    ensures { pool.new ≡ fold taken_at pool.old (replicate count position) }
{
    if count > 0 {
        pool.revoke(position, count);
        pool.release(position, count);
    }
}

// Each of these, one after the other, loses a frame, and one guest those in a row together.
fn take_all(pool: &mut Pool, plan: &Plan)
    requires { CanTake pool.old plan.now }
    ensures { pool.new ≡ fold taken_at pool.old plan.now }
{
    let stretches = plan.stretches();
    for stretch in stretches {
        take_at(pool, stretch.position as usize, stretch.count);
    }
}

// What guests give for room: first of their surplus, then a page and a frame for each entry of the plan.
#[derive(Drop)]
struct RoomPlan {
    // By position: how many frames of its surplus each gives up.
    counts: Vec<u32>,
    plan: Plan,
}

// What guests have to give until so many frames are free.
fn plan_room(
    alloc: Global,
    tax: u32,
    pool: &Pool,
    raise: Option<Raise>,
    needed: u32,
) -> Result<RoomPlan, AllocError>
    requires few { length pool.now.guests ≤ 256 }
    requires tax { tax ≤ 9999 }
    requires raise { CanRaise raise pool.now }
    ensures counts { IfOk result (λ room. room.counts.items ≡ surplus_counts raise needed pool.now) }
    ensures plan { IfOk result (λ room. room.plan ≡ revocations_for_room (hundredths tax) raise needed pool.now) }
    ensures good { OnOk result (EachGuest IsGood pool.now) }
    ensures memory { IfErr result (λ _. 0 < length pool.now.guests) }
{
    let rows = raised_rows(alloc, pool, raise)?;
    let given = surplus_shares(alloc, needed.saturating_sub(pool.free()), &rows)?;
    let plan = revocations(alloc, tax, u64::from(given.short), &rows)?;
    Ok(RoomPlan {
        counts: given.counts,
        plan,
    })
}

/// Makes room until so many frames are free, and tells whose targets fell for it, one page each.
///
/// First guests give up what they hold above their targets, in order; then each entry of the plan loses a page of its target and a
/// frame (min-funding revocation: Waldspurger, OSDI 2002, sections 5.1 and 5.2). `tax` is in hundredths of a percent. The guest of
/// `raise` is seen with its raised minimum and gives nothing. The only error is a want of memory, where there is a guest, running or
/// not, and then nothing changed.
pub fn make_room(
    alloc: Global,
    tax: u32,
    pool: &mut Pool,
    raise: Option<Raise>,
    needed: u32,
) -> Result<Plan, AllocError>
    requires few { length pool.old.guests ≤ 256 }
    requires tax { tax ≤ 9999 }
    requires raise { CanRaise raise pool.old }
    requires needed { IsNeededFor raise needed pool.old }
    ensures done { OnOk result (pool.new ≡ room_made (hundredths tax) raise needed pool.old) }
    ensures plan { IfOk result (λ plan. plan ≡ revocations_for_room (hundredths tax) raise needed pool.old) }

    // What guests hold above their targets goes first, by position and whatever their ratio. Each page of a target that is taken
    // after that is that of a guest above its minimum whose adjusted ratio is least then.
    ensures fair { let seen = raised raise (with_surplus_back raise needed pool.old) in
        IfOk result (TakesFromCheapest (hundredths tax) taken_at seen) }
    ensures unchanged { OnErr result (pool.new ≡ pool.old) }
    ensures memory { IfErr result (λ _. 0 < length pool.old.guests) }
    ensures setup { HasSameSetup pool.old pool.new }
{
    let room = plan_room(alloc, tax, pool, raise, needed)?;
    pool.release_all(&room.counts);
    take_all(pool, &room.plan);
    Ok(room.plan)
}
