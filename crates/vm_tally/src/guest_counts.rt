// What is counted of the guests of a host.
ghost use Rattle.std.specs.Prelude.{◌≡◌, ◌<◌, ◌≤◌, ◌^◌, if◌then◌else◌};
ghost use Rattle.vm_guest.specs.Record.{ballooned, saturated, steps_left};
ghost use Rattle.vm_host.specs.World.{guest_at};
ghost use Rattle.vm_pool.specs.Guests.{of_running};
ghost use Rattle.vm_tally.specs.Counts.{evicted_from, executed_by, has_stalled, over_guests, swapped_of};

use vm_host::{GuestView, Host};

// Pages in swap and in balloons, steps executed, the pages that touches sent to swap, and the guests that stalled.
#[derive(Clone, Copy)]
pub(crate) struct GuestCounts {
    pub(crate) swapped: u64,
    pub(crate) balloon: u64,
    pub(crate) executed: u64,
    pub(crate) left: u64,
    pub(crate) evicted: u64,
    pub(crate) stalled: u64,
}

const NONE: GuestCounts = GuestCounts {
    swapped: 0,
    balloon: 0,
    executed: 0,
    left: 0,
    evicted: 0,
    stalled: 0,
};

// The pages that the touches of a guest sent to swap: one that is blocked ran no step.
fn evicted_from(view: &GuestView) -> u64
    ensures { result ≡ (if view.now.blocked then 0 else view.now.demand) }
{
    if view.blocked { 0 } else { view.demand }
}

// The steps that the guest at a position has not executed, if one runs there.
pub(crate) fn left_at(host: &Host, position: usize) -> u64
    ensures { result ≡ of_running steps_left (guest_at host.now position) }
{
    host.steps_left(position).unwrap_or(0)
}

// Those of the guest at a position, if one runs there.
pub(crate) fn counts_at(host: &Host, position: usize) -> GuestCounts
    ensures swapped { result.swapped ≡ of_running swapped_of (guest_at host.now position) }
    ensures balloon { result.balloon ≡ of_running ballooned (guest_at host.now position) }
    ensures executed { result.executed ≡ of_running executed_by (guest_at host.now position) }
    ensures left { result.left ≡ of_running steps_left (guest_at host.now position) }
    ensures evicted { result.evicted ≡ of_running evicted_from (guest_at host.now position) }
    ensures stalled { result.stalled ≡ of_running has_stalled (guest_at host.now position) }
    ensures few_swapped { result.swapped < 2 ^ 32 }
    ensures few_ballooned { result.balloon < 2 ^ 32 }
    ensures few_executed { result.executed < 2 ^ 32 }
    ensures one { result.stalled ≤ 1 }
{
    match host.view(position) {
        Some(view) => GuestCounts {
            swapped: u64::from(view.swapped),
            balloon: u64::from(view.balloon),
            executed: u64::from(view.done),
            left: left_at(host, position),
            evicted: evicted_from(&view),
            stalled: u64::from(view.stalled.is_some()),
        },
        None => NONE,
    }
}

// Those of all guests.
pub(crate) fn counts_of(host: &Host) -> GuestCounts
    ensures swapped { result.swapped ≡ over_guests swapped_of host.now }
    ensures balloon { result.balloon ≡ over_guests ballooned host.now }
    ensures executed { result.executed ≡ over_guests executed_by host.now }
    ensures left { result.left ≡ saturated (over_guests steps_left host.now) }
    ensures evicted { result.evicted ≡ saturated (over_guests evicted_from host.now) }
    ensures stalled { result.stalled ≡ over_guests has_stalled host.now }
{
    let mut sum = NONE;
    for position in 0..host.len() {
        let counts = counts_at(host, position);
        sum.swapped += counts.swapped;
        sum.balloon += counts.balloon;
        sum.executed += counts.executed;
        sum.left = sum.left.saturating_add(counts.left);
        sum.evicted = sum.evicted.saturating_add(counts.evicted);
        sum.stalled += counts.stalled;
    }
    sum
}
