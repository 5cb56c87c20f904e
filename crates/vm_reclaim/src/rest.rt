// Whether a boundary leaves its guests what they have, which is told without a row for each of them.
ghost use Rattle.std.specs.Prelude.{◌≡◌, ◌<◌, ◌⊎◌, ◌↔◌, [], IsTrue};
ghost use Rattle.std.specs.List.{list_any};
ghost use Rattle.vm_plan.specs.declared.state.State.TheVariants.{High};
ghost use Rattle.vm_plan.specs.Grants.{LetsGrow};
ghost use Rattle.vm_plan.specs.Row.{wants_to_grow};
ghost use Rattle.vm_pool.specs.Pool.{guest_at};
ghost use Rattle.vm_reclaim.specs.Numbers.{policy_in};
ghost use Rattle.vm_reclaim.specs.Planning.{CanRiseInHigh, IsAtRest};
ghost use Rattle.vm_reclaim.specs.Rows.{row_at, rows_of};

use crate::lists::{Blocked, BoundaryPlan, Paging};
use crate::policy::Numbers;
use crate::rows::row_at;
use std::alloc::Global;
use vm_plan::{Plan, State, lets_grow};
use vm_pool::Pool;

// Whether the guest at a position wants to grow, and may.
fn wants_to_grow(pool: &Pool, position: usize) -> bool
    ensures { result ≡ wants_to_grow (row_at (guest_at pool.now position)) }
{
    row_at(pool, position).wants_to_grow()
}

// Whether some guest does.
fn some_wants_to_grow(pool: &Pool) -> bool
    ensures { result ≡ list_any wants_to_grow (rows_of pool.now.guests) }
{
    for position in 0..pool.len() {
        if wants_to_grow(pool, position) {
            return true;
        }
    }
    false
}

// Whether, in High, guests may grow: enough frames are free, or others may give theirs.
fn lets_rise(numbers: &Numbers, pool: &Pool) -> bool
    ensures { IsTrue result ↔ (LetsGrow High numbers.now.thresholds pool.now.free ⊎ (0 < numbers.now.rebalance)) }
{
    lets_grow(State::High, pool.free(), &numbers.thresholds) || numbers.rebalance > 0
}

// Whether, in High, a guest that wants to grow may. The guests are looked at only where any may.
fn can_rise(numbers: &Numbers, pool: &Pool) -> bool
    ensures { IsTrue result ↔ CanRiseInHigh (policy_in numbers.now) pool.now }
{
    lets_rise(numbers, pool) && some_wants_to_grow(pool)
}

// Whether nothing is taken and nothing is granted: in High none is taken, but for guests that want to grow.
pub(crate) fn is_at_rest(numbers: &Numbers, pool: &Pool, state: State) -> bool
    ensures { IsTrue result ↔ IsAtRest (policy_in numbers.now) state pool.now }
{
    state == State::High && !can_rise(numbers, pool)
}

// A plan that does nothing.
pub(crate) fn nothing(alloc: Global) -> BoundaryPlan
    ensures { result ≡ record { revoked = []; paged = []; granted = []; rebalanced = []; blocked = [] } }
{
    BoundaryPlan {
        revoked: Plan::new(alloc),
        paged: Paging::new(Vec::new(alloc)),
        granted: Plan::new(alloc),
        rebalanced: Plan::new(alloc),
        blocked: Blocked::new(Vec::new(alloc)),
    }
}
