// The guests of the policy, as a table has them.
ghost use Rattle.std.specs.Prelude.{◌≤◌, ◌↔◌, IsTrue, All};

use std::alloc::{AllocError, Global};
use std::str::SplitWhitespace;
use vm_plan::PlanRow;

/// The next number of some that stand behind one another.
pub(crate) fn next_number(words: &mut SplitWhitespace<'_>) -> Option<u32> {
    words.next()?.parse::<u32>().ok()
}

// A guest, if its numbers are within their limits.
fn within_limits(
    shares: u32,
    active: u32,
    bounds: (u32, u32, u32),
    held: u32,
    used: u32,
    demand: u64,
) -> Option<PlanRow> {
    let (min, target, cap) = bounds;
    if shares == 0 || shares > 1_000_000 || active > 65_536 {
        return None;
    }
    if min == 0 || min > target || target > cap || cap > 262_144 {
        return None;
    }
    Some(PlanRow {
        shares,
        active,
        min,
        cap,
        target,
        held,
        used,
        demand,
    })
}

/// The guest of eight numbers: its shares, its active fraction of 65536, its minimum, target and cap, what it holds and uses, and
/// what it wants.
pub(crate) fn row_of(text: &str) -> Option<PlanRow> {
    let mut words = text.split_whitespace();
    let shares = next_number(&mut words)?;
    let active = next_number(&mut words)?;
    let min = next_number(&mut words)?;
    let target = next_number(&mut words)?;
    let cap = next_number(&mut words)?;
    let held = next_number(&mut words)?;
    let used = next_number(&mut words)?;
    let demand = words.next()?.parse::<u64>().ok()?;
    if words.next().is_some() {
        return None;
    }
    within_limits(shares, active, (min, target, cap), held, used, demand)
}

/// The guests that semicolons part, if all of them are some.
pub(crate) fn rows_of(alloc: Global, text: &str) -> Result<Option<Vec<PlanRow>>, AllocError> {
    let mut rows = Vec::new(alloc);
    for part in text.split(';') {
        if part.is_empty() {
            continue;
        }
        let Some(row) = row_of(part) else {
            return Ok(None);
        };
        rows.push(row)?;
    }
    Ok(Some(rows))
}

/// Whether each guest holds its target.
pub(crate) fn hold_their_targets(rows: &[PlanRow]) -> bool
    ensures { IsTrue result ↔ All (λ row. row.target ≤ row.held) rows.now }
{
    rows.iter().all(|row| row.target <= row.held)
}
