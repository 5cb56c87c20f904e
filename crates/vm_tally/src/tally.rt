// What was counted of a run so far.
ghost use Rattle.std.specs.Prelude.{◌≡◌, ◌+◌, Some, if◌then◌else◌, nat_lt};
ghost use Rattle.vm_guest.specs.Record.{saturated};
ghost use Rattle.vm_tally.specs.Counting.{one_if};
ghost use Rattle.vm_tally.specs.Counts.{executed_by, is_hard, is_high, is_low, is_soft, over_guests};
ghost use Rattle.vm_tally.specs.Tally.{empty_summary, with_boundary, with_epoch, with_moves, with_seen, with_sent, with_state};

use crate::guest_counts::counts_of;
use crate::line_counts::{no_memory, no_swap, paged, pages_of, revoked};
use crate::summary::Summary;
use vm_host::{Boundary, Host, State};

// What is told of no epoch, of a machine of so many frames.
pub(crate) fn empty_summary(frames: u32) -> Summary
    ensures { result ≡ empty_summary frames }
{
    Summary {
        high: 0,
        soft: 0,
        hard: 0,
        low: 0,
        least_free: u64::from(frames),
        no_memory: 0,
        no_swap: 0,
        revoked: 0,
        paged: 0,
        evicted: 0,
        granted: 0,
        rebalanced: 0,
        blocked: 0,
        stalls: 0,
        done: 0,
        left: 0,
        most_swapped: 0,
        swapped: 0,
        balloon: 0,
        most_evicted: 0,
        worst: None,
    }
}

fn is_high(state: State) -> bool
    ensures { result ≡ is_high state }
{
    matches!(state, State::High)
}

fn is_soft(state: State) -> bool
    ensures { result ≡ is_soft state }
{
    matches!(state, State::Soft)
}

fn is_hard(state: State) -> bool
    ensures { result ≡ is_hard state }
{
    matches!(state, State::Hard)
}

fn is_low(state: State) -> bool
    ensures { result ≡ is_low state }
{
    matches!(state, State::Low)
}

// One more where something is so.
fn add_if(count: u64, is_so: bool) -> u64
    ensures { result ≡ saturated (count + one_if is_so) }
{
    count.saturating_add(u64::from(is_so))
}

// The state that a boundary found.
fn add_state(summary: &mut Summary, state: State)
    ensures { summary.new ≡ with_state state summary.old }
{
    summary.high = add_if(summary.high, is_high(state));
    summary.soft = add_if(summary.soft, is_soft(state));
    summary.hard = add_if(summary.hard, is_hard(state));
    summary.low = add_if(summary.low, is_low(state));
}

// What a boundary answered, took and gave.
fn add_moves(summary: &mut Summary, told: &Boundary)
    ensures { summary.new ≡ with_moves told.now summary.old }
{
    summary.no_memory = summary.no_memory.saturating_add(no_memory(told));
    summary.no_swap = summary.no_swap.saturating_add(no_swap(told));
    summary.revoked = summary.revoked.saturating_add(revoked(told));
    summary.paged = summary.paged.saturating_add(paged(told));
    summary.granted = summary.granted.saturating_add(pages_of(&told.granted));
    let rebalanced = pages_of(&told.rebalanced);
    summary.rebalanced = summary.rebalanced.saturating_add(rebalanced);
    let blocked = told.blocked.as_slice().len() as u64;
    summary.blocked = summary.blocked.saturating_add(blocked);
}

// So many frames are free, and so many pages in swap.
fn see(summary: &mut Summary, free: u32, swapped: u64)
    ensures { summary.new ≡ with_seen free swapped summary.old }
{
    summary.least_free = summary.least_free.min(u64::from(free));
    summary.most_swapped = summary.most_swapped.max(swapped);
}

// A boundary told this, and left this host. Gives how many steps its guests have executed.
pub(crate) fn add_boundary(summary: &mut Summary, told: &Boundary, host: &Host) -> u64
    ensures summary { summary.new ≡ with_boundary told.now host.now summary.old }
    ensures executed { result ≡ over_guests executed_by host.now }
{
    add_state(summary, told.state);
    add_moves(summary, told);
    let counts = counts_of(host);
    see(summary, told.free, counts.swapped);
    counts.executed
}

// The worst epoch, where touches of all guests sent so many pages to swap in this one: an earlier one stays that had as many.
fn worst(summary: &Summary, epoch: u32, sent: u64) -> Option<u32>
    ensures { result ≡ (if nat_lt summary.now.most_evicted sent then Some epoch else summary.now.worst) }
{
    if sent > summary.most_evicted {
        Some(epoch)
    } else {
        summary.worst
    }
}

// They sent so many in an epoch.
fn see_sent(summary: &mut Summary, epoch: u32, sent: u64)
    ensures { summary.new ≡ with_sent epoch sent summary.old }
{
    summary.worst = worst(summary, epoch, sent);
    summary.most_evicted = summary.most_evicted.max(sent);
}

// An epoch of this number left this host, whose guests had executed so many steps before it.
pub(crate) fn add_epoch(summary: &mut Summary, epoch: u32, before: u64, host: &Host)
    ensures { summary.new ≡ with_epoch epoch before host.now summary.old }
{
    let counts = counts_of(host);
    see(summary, host.free(), counts.swapped);
    see_sent(summary, epoch, counts.evicted);
    let done = counts.executed.saturating_sub(before);
    summary.evicted = summary.evicted.saturating_add(counts.evicted);
    summary.stalls = summary.stalls.saturating_add(counts.stalled);
    summary.done = summary.done.saturating_add(done);
    summary.left = counts.left;
    summary.swapped = counts.swapped;
    summary.balloon = counts.balloon;
}
