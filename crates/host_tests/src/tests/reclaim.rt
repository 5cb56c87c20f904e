//! Worked examples of boundaries, over a pool without a host.
ghost use Rattle.std.specs.Prelude.{◌≡◌, ◌≤◌};
ghost use Rattle.std.specs.Option.{option_map};
ghost use Rattle.vm_guest.specs.View.{view_of};
ghost use Rattle.vm_pool.specs.Pool.{guest_at};

use crate::tests::check_eq;
use std::alloc::Global;
use std::process::Abort;
use vm_domains::{MachineSpec, Percents};
use vm_guest::{GuestSpec, GuestView};
use vm_plan::{Plan, State, next_state};
use vm_pool::Pool;
use vm_reclaim::{Numbers, Paged, blocks_in, carry_out, make_room, numbers_of, plan_boundary};
use vm_trace::Trace;

// How a machine of 100 frames decides.
fn numbers() -> Numbers {
    numbers_with(0)
}

// The same, where so many pages may move at a boundary.
fn numbers_with(rebalance: u32) -> Numbers
    requires { rebalance ≤ 262144 }
{
    let machine = MachineSpec {
        frames: 100,
        swap: 98,
        overhead: 0,
        tax: 7500,
        percent: Percents {
            high: 600,
            soft: 400,
            hard: 200,
            low: 100,
        },
        page_rate: 16,
        rebalance,
        page: 4,
    };
    numbers_of(&machine)
}

// An idle guest of so many pages.
fn guest_of(alloc: Global, size: u32, min: u32, shares: u32) -> GuestSpec
    requires some_frames { 1 ≤ min }
    requires min_within { min ≤ size }
    requires few_pages { size ≤ 262144 }
    requires some_shares { 1 ≤ shares }
    requires few_shares { shares ≤ 1000000 }
{
    GuestSpec {
        size,
        min,
        shares,
        samples: 100,
        period: 1000,
        rate: 16,
        quantum: 1,
        seed: 0,
        stream: 0,
        tell: true,
        own_driver: true,
        page: 4,
        trace: Trace::new(alloc),
    }
}

// A pool of so many frames with these two guests.
fn pool_of(
    rt: &(impl AllocGlobal + Abort),
    frames: u32,
    first: GuestSpec,
    second: GuestSpec,
) -> Pool {
    let specs = Vec::from_array(rt.alloc(), [first, second]).expect(rt, "memory");
    match Pool::new(rt.alloc(), frames, 0, specs) {
        Ok(pool) => pool,
        Err(_specs) => panic!(rt; "memory"),
    }
}

// What is seen of a guest, and no more: a clause of `view` tells all that is true of every guest as well.
fn seen(pool: &Pool, position: usize) -> Option<GuestView>
    ensures { result ≡ option_map view_of (guest_at pool.now position) }
{
    pool.view(position)
}

// Starts a guest whose frames are free.
fn start_within(rt: &(impl AllocGlobal + Abort), pool: &mut Pool, position: usize) {
    assert!(rt; position < pool.len());
    let min = pool.stopped(position).expect(rt, "it is stopped").min;
    assert!(rt; u64::from(min) + u64::from(pool.overhead()) <= u64::from(pool.free()));
    match pool.room_to_start(rt.alloc(), position) {
        Ok(room) => pool.start(position, room),
        Err(_) => panic!(rt; "memory"),
    }
}

// Starts a guest, and tells how many pages of the first guest's target fell for it.
fn start(
    rt: &(impl AllocGlobal + Abort),
    numbers: &Numbers,
    pool: &mut Pool,
    position: usize,
) -> usize {
    assert!(rt; pool.len() <= 256);
    let needed = pool.stopped(position).expect(rt, "it is stopped").min;
    let plan = make_room(rt.alloc(), numbers.tax, pool, None, needed).expect(rt, "memory");
    start_within(rt, pool, position);
    count_of(&plan, 0)
}

// Sets a minimum whose frames are free.
fn set_min_within(rt: &impl Abort, pool: &mut Pool, position: usize, least: u32) {
    assert!(rt; position < pool.len() && least >= 1);
    let view = seen(pool, position).expect(rt, "it runs");
    assert!(rt; least <= view.cap && least.saturating_sub(view.held) <= pool.free());
    pool.set_min(position, least).expect(rt, "memory");
}

// How often a position is told.
fn count_of(plan: &Plan, position: u32) -> usize {
    let mut count = 0usize;
    for stretch in plan.stretches() {
        if stretch.position == position {
            count = count.saturating_add(stretch.count as usize);
        }
    }
    count
}

// How often each of the two is.
fn counts_of(plan: &Plan) -> [usize; 2] {
    [count_of(plan, 0), count_of(plan, 1)]
}

// How many frames the first guest gave up, if no other did.
fn paged_by(paged: &[Paged]) -> u32 {
    match paged.first() {
        Some(first) if first.position == 0 && paged.len() == 1 => first.count,
        _ => 0,
    }
}

// What a boundary told of the first guest and of the second.
#[derive(Clone, Copy, Debug, PartialEq, Eq)]
struct Told {
    state: State,
    free: u32,
    revoked: [usize; 2],
    granted: [usize; 2],
    rebalanced: [usize; 2],
    // How many frames the first guest gave up by paging.
    paged: u32,
    // Whether the first guest is blocked.
    blocked: bool,
}

// The rest of a boundary, once its lines are obeyed.
fn settle(
    rt: &(impl AllocGlobal + Abort),
    numbers: &Numbers,
    pool: &mut Pool,
    state: State,
) -> Told {
    let alloc = rt.alloc();
    let free = pool.free();
    let state = next_state(state, free, &numbers.thresholds);
    assert!(rt; pool.len() <= 256);
    let plan = plan_boundary(alloc, numbers, pool, state).expect(rt, "memory");
    carry_out(pool, &plan);
    pool.order_all(blocks_in(state));
    Told {
        state,
        free,
        revoked: counts_of(&plan.revoked),
        granted: counts_of(&plan.granted),
        rebalanced: counts_of(&plan.rebalanced),
        paged: paged_by(plan.paged.as_slice()),
        blocked: plan.blocked.as_slice() == [0].as_slice(),
    }
}

// A boundary that changes nothing.
fn quiet(state: State, free: u32) -> Told {
    Told {
        state,
        free,
        revoked: [0, 0],
        granted: [0, 0],
        rebalanced: [0, 0],
        paged: 0,
        blocked: false,
    }
}

// How many frames a guest is to have, and how many it has.
fn frames_of(pool: &Pool, position: usize) -> Option<(u32, u32)> {
    let view = seen(pool, position)?;
    Some((view.target, view.held))
}

// Starts a guest, and asserts how many pages of the first guest's target fell for it.
fn check_start(
    rt: &(impl AllocGlobal + Abort),
    numbers: &Numbers,
    pool: &mut Pool,
    position: usize,
    taken: usize,
) {
    check_eq(rt, start(rt, numbers, pool, position), taken);
}

// Asserts what a boundary told.
fn check_told(rt: &impl Abort, told: Told, wanted: Told) {
    check_eq(rt, told, wanted);
}

// Asserts the target of a guest, and the frames that it holds.
fn check_frames(rt: &impl Abort, pool: &Pool, position: usize, frames: (u32, u32)) {
    check_eq(rt, frames_of(pool, position), Some(frames));
}

// What the first guest gives up is granted to the second in the same boundary.
#[test]
fn frames_given_up_are_granted(rt: HostRuntime) {
    let alloc = rt.alloc();
    let numbers = numbers();
    let mut pool = pool_of(
        &rt,
        100,
        guest_of(alloc, 100, 10, 1000),
        guest_of(alloc, 10, 3, 1000),
    );
    check_start(&rt, &numbers, &mut pool, 0, 0);
    let first = settle(&rt, &numbers, &mut pool, State::High);
    check_eq(&rt, first.granted, [86, 0]);

    // A frame is free, so that none could be granted before six are given up.
    check_start(&rt, &numbers, &mut pool, 1, 0);
    let second = settle(&rt, &numbers, &mut pool, first.state);
    let wanted = Told {
        revoked: [6, 0],
        paged: 6,
        granted: [0, 6],
        ..quiet(State::Hard, 1)
    };
    check_told(&rt, second, wanted);
    check_frames(&rt, &pool, 0, (90, 90));
    check_frames(&rt, &pool, 1, (9, 9));
    pool.close();
}

// Idle pages go to a guest that would pay more, and no more of them while these are on their way.
#[test]
fn idle_memory_moves(rt: HostRuntime) {
    let alloc = rt.alloc();
    let numbers = numbers_with(16);
    let mut pool = pool_of(
        &rt,
        100,
        guest_of(alloc, 100, 10, 1000),
        guest_of(alloc, 100, 10, 1000),
    );
    start_within(&rt, &mut pool, 0);
    start_within(&rt, &mut pool, 1);
    let first = settle(&rt, &numbers, &mut pool, State::High);
    check_eq(&rt, first.granted, [38, 38]);
    check_eq(&rt, first.rebalanced, [0, 0]);

    // At equal prices nothing moved.
    assert!(rt; 1 < pool.len());
    pool.set_shares(1, 3000);
    let second = settle(&rt, &numbers, &mut pool, first.state);
    let wanted = Told {
        rebalanced: [16, 0],
        ..quiet(State::High, 4)
    };
    check_told(&rt, second, wanted);
    check_frames(&rt, &pool, 0, (32, 48));
    check_frames(&rt, &pool, 1, (48, 48));

    // The first guest still holds what it is to return.
    let third = settle(&rt, &numbers, &mut pool, second.state);
    check_told(&rt, third, quiet(State::High, 4));
    pool.close();
}

// Of equal prices the lower position comes first.
#[test]
fn equal_guests_give_in_turn(rt: HostRuntime) {
    let alloc = rt.alloc();
    let mut pool = pool_of(
        &rt,
        15,
        guest_of(alloc, 5, 5, 100),
        guest_of(alloc, 5, 5, 100),
    );
    start_within(&rt, &mut pool, 0);
    start_within(&rt, &mut pool, 1);
    set_min_within(&rt, &mut pool, 0, 1);
    set_min_within(&rt, &mut pool, 1, 1);
    assert!(rt; pool.len() <= 256);
    let plan = plan_boundary(alloc, &numbers(), &pool, State::Soft).expect(&rt, "memory");
    let revoked: Vec<u32> = plan.revoked.moves().collect(alloc).expect(&rt, "memory");
    check_eq(&rt, revoked.as_slice(), [0, 1].as_slice());
    pool.close();
}
