// Pools from their start to their end, by worked examples.
ghost use Rattle.std.specs.Prelude.{◌≡◌, ◌≤◌, All, length};
ghost use Rattle.std.specs.Option.{option_map};
ghost use Rattle.vm_guest.specs.View.{view_of};
ghost use Rattle.vm_pool.specs.Pool.{guest_at};
ghost use Rattle.vm_trace.specs.Limits.{IsStep, IsWithin};

use super::gates::{check_first_alone, check_met, nobody_met, zeros};
use super::traces::{add_step, trace_of};
use crate::tests::check_eq;
use std::process::Abort;
use std::sync::atomic::{AtomicU64, Ordering};
use std::thread::Threads;
use vm_pool::{Gate, GuestSpec, GuestView, Open, PageRead, Pool, Ran, Shelf};
use vm_trace::{Bytes, Trace};

// A guest of so many pages with this minimum, which runs one step an epoch.
fn guest_of(size: u32, min: u32, trace: Trace) -> GuestSpec
    requires some_frames { 1 ≤ min }
    requires min_within { min ≤ size }
    requires few_pages { size ≤ 262144 }
    requires within { All (IsWithin size) trace }
    requires bounded { All IsStep trace }
    requires few { length trace ≤ 1000000 }
{
    GuestSpec {
        size,
        min,
        shares: 1000,
        samples: 100,
        period: 1000,
        rate: 16,
        quantum: 1,
        seed: 0,
        stream: 0,
        tell: true,
        own_driver: true,
        page: 4,
        trace,
    }
}

// A pool of 20 frames with at most 256 guests.
fn pool_of(rt: &(impl AllocGlobal + Abort), overhead: u32, specs: Vec<GuestSpec>) -> Pool {
    assert!(rt; specs.len() <= 256);
    match Pool::new(rt.alloc(), 20, overhead, specs) {
        Ok(pool) => pool,
        Err(_specs) => panic!(rt; "memory"),
    }
}

// The same without overhead, with the rooms that guests of another pool left.
fn pool_on(rt: &(impl AllocGlobal + Abort), specs: Vec<GuestSpec>, shelf: Shelf) -> Pool {
    assert!(rt; specs.len() <= 256);
    match Pool::with_shelf(rt.alloc(), 20, 0, specs, shelf) {
        Ok(pool) => pool,
        Err(_specs) => panic!(rt; "memory"),
    }
}

// The same with these two.
fn pool_of_two(
    rt: &(impl AllocGlobal + Abort),
    overhead: u32,
    first: GuestSpec,
    second: GuestSpec,
) -> Pool {
    let specs = Vec::from_array(rt.alloc(), [first, second]).expect(rt, "memory");
    pool_of(rt, overhead, specs)
}

// A pool of 20 frames with two guests: one of 8 pages, which writes and reads its first, and an idle one of 4 pages. Each has a
// minimum of 4 frames.
fn two_guests(rt: &(impl AllocGlobal + Abort), overhead: u32) -> Pool {
    let trace = trace_of(rt, 8, &["w 0 0 0a", "r 0 0 2"]);
    let first = guest_of(8, 4, trace);
    let second = guest_of(4, 4, Trace::new(rt.alloc()));
    pool_of_two(rt, overhead, first, second)
}

// The same where both run.
fn two_running(rt: &(impl AllocGlobal + Abort), overhead: u32) -> Pool {
    let mut pool = two_guests(rt, overhead);
    start(rt, &mut pool, 0);
    start(rt, &mut pool, 1);
    pool
}

// What is seen of a guest, and no more: a clause of `view` tells all that is true of every guest as well.
fn seen(pool: &Pool, position: usize) -> Option<GuestView>
    ensures { result ≡ option_map view_of (guest_at pool.now position) }
{
    pool.view(position)
}

// Starts a guest that can start.
fn start(rt: &(impl AllocGlobal + Abort), pool: &mut Pool, position: usize) {
    assert!(rt; starts(rt, pool, position));
}

// How many frames a guest is to have, and how many it has.
fn frames_of(pool: &Pool, position: usize) -> Option<(u32, u32)> {
    let view = seen(pool, position)?;
    Some((view.target, view.held))
}

// Grants so many frames at once to a guest that asked for them.
fn grant(rt: &impl Abort, pool: &mut Pool, position: usize, count: u32) {
    assert!(rt; position < pool.len() && count <= pool.free());
    let view = seen(pool, position).expect(rt, "it runs");
    assert!(rt; u64::from(count) <= view.demand);
    assert!(rt; u64::from(view.target) + u64::from(count) <= u64::from(view.cap));
    pool.grant(position, count);
}

// Revokes so many frames of a guest at once.
fn revoke(rt: &impl Abort, pool: &mut Pool, position: usize, count: u32) {
    assert!(rt; position < pool.len());
    let view = seen(pool, position).expect(rt, "it runs");
    assert!(rt; u64::from(view.min) + u64::from(count) <= u64::from(view.target));
    pool.revoke(position, count);
}

// A guest gives back so many frames that it has above its target.
fn release(rt: &impl Abort, pool: &mut Pool, position: usize, count: u32) {
    assert!(rt; position < pool.len());
    let view = seen(pool, position).expect(rt, "it runs");
    assert!(rt; view.target <= view.held && count <= view.held - view.target);
    pool.release(position, count);
}

// Sets the most frames that a guest may get.
fn set_cap(rt: &impl Abort, pool: &mut Pool, position: usize, cap: u32) {
    assert!(rt; position < pool.len());
    let view = seen(pool, position).expect(rt, "it runs");
    assert!(rt; view.min <= cap && cap <= view.size);
    pool.set_cap(position, cap);
}

// The first of two guests gives back one frame that it has above its target.
fn release_first(rt: &impl Abort, pool: &mut Pool) {
    assert!(rt; pool.len() == 2);
    let view = seen(pool, 0).expect(rt, "it runs");
    assert!(rt; view.target < view.held);
    pool.release_all(&[1, 0]);
}

// Whether a guest may not run in its next epoch.
fn is_blocked(pool: &Pool, position: usize) -> Option<bool> {
    Some(seen(pool, position)?.blocked)
}

// Asserts that the first guest may run, or may not.
fn check_blocked(rt: &impl Abort, pool: &Pool, blocked: bool) {
    check_eq(rt, is_blocked(pool, 0), Some(blocked));
}

// Asserts the target of the first guest, the frames that it holds, and how many are free.
fn check_frames(rt: &impl Abort, pool: &Pool, frames: (u32, u32), free: u32) {
    check_eq(rt, (frames_of(pool, 0), pool.free()), (Some(frames), free));
}

// Asserts this of the first guest as `check_frames` does, and how many pages of the swap area are set aside for it.
fn check_reserve(rt: &impl Abort, pool: &Pool, frames: (u32, u32), free: u32, reserve: u32) {
    check_frames(rt, pool, frames, free);
    check_eq(rt, pool.reserve(0), Some(reserve));
}

// Sets the minimum of a guest.
fn set_min(rt: &impl Abort, pool: &mut Pool, position: usize, least: u32) {
    assert!(rt; sets_min(rt, pool, position, least));
}

// Stops a guest that runs.
fn stop(rt: &impl Abort, pool: &mut Pool, position: usize) {
    assert!(rt; pool.is_running(position));
    pool.stop(position);
}

// Gives a guest half of the 1000 shares that it starts with.
fn halve_shares(rt: &impl Abort, pool: &mut Pool, position: usize) {
    assert!(rt; position < pool.len());
    pool.set_shares(position, 500);
}

// Serves all guests, takes their spares back, and lets them run. Tells whether there was memory for it.
fn runs(
    rt: &(impl AllocGlobal + Threads + Sync),
    gate: &(impl Gate + Sync),
    workers: u32,
    pool: &mut Pool,
) -> bool
    requires { (1 ≤ workers) × (workers ≤ 64) }
{
    pool.serve_all();
    pool.spares_back_all();
    pool.epoch(rt, rt.alloc(), gate, workers).is_ok()
}

// The same where there is memory.
fn run(
    rt: &(impl AllocGlobal + Abort + Threads + Sync),
    gate: &(impl Gate + Sync),
    workers: u32,
    pool: &mut Pool,
)
    requires { (1 ≤ workers) × (workers ≤ 64) }
{
    check_eq(rt, runs(rt, gate, workers, pool), true);
}

#[test]
fn frames_move_and_add_up(rt: HostRuntime) {
    let mut pool = two_guests(&rt, 1);
    check_eq(
        &rt,
        (
            pool.len(),
            pool.frames(),
            pool.free(),
            pool.overhead_frames(),
        ),
        (2, 20, 20, 0),
    );
    check_eq(
        &rt,
        !pool.is_running(0) && pool.view(0).is_none() && pool.reserve(0).is_none(),
        true,
    );
    start(&rt, &mut pool, 0);
    start(&rt, &mut pool, 1);
    check_eq(&rt, pool.is_running(0) && pool.stopped(0).is_none(), true);
    check_eq(&rt, (pool.free(), pool.overhead_frames()), (10, 2));
    check_reserve(&rt, &pool, (4, 4), 10, 4);

    grant(&rt, &mut pool, 0, 3);
    check_frames(&rt, &pool, (7, 7), 7);
    revoke(&rt, &mut pool, 0, 2);
    check_frames(&rt, &pool, (5, 7), 7);
    revoke(&rt, &mut pool, 0, 1);
    release(&rt, &mut pool, 0, 3);
    check_frames(&rt, &pool, (4, 4), 10);
    set_min(&rt, &mut pool, 0, 7);
    check_reserve(&rt, &pool, (7, 7), 7, 4);
    set_min(&rt, &mut pool, 0, 2);
    check_reserve(&rt, &pool, (7, 7), 7, 6);
    stop(&rt, &mut pool, 0);
    check_eq(
        &rt,
        (pool.free(), pool.overhead_frames(), pool.view(0)),
        (15, 1, None),
    );
    pool.close();
}

// Where guests above their targets are blocked, one that holds more than its target may not run.
fn check_blocked_epoch(
    rt: &(impl AllocGlobal + Abort + Threads + Sync),
    gate: &(impl Gate + Sync),
) {
    let mut pool = two_running(rt, 1);
    grant(rt, &mut pool, 0, 2);
    set_cap(rt, &mut pool, 0, 5);
    check_frames(rt, &pool, (5, 6), 8);
    pool.order_all(true);
    check_eq(
        rt,
        (is_blocked(&pool, 0), is_blocked(&pool, 1)),
        (Some(true), Some(false)),
    );
    run(rt, gate, 2, &mut pool);
    check_eq(rt, (done(&pool, 0), pool.free()), (Some(0), 9));
    pool.order_all(true);
    check_blocked(rt, &pool, false);
    run(rt, gate, 2, &mut pool);
    check_eq(rt, done(&pool, 0), Some(1));
    pool.close();
}

#[test]
fn a_guest_above_its_target_waits(rt: HostRuntime) {
    check_blocked_epoch(&rt, &Open)
}

// The same where the gate may wait, so that each epoch is a round on threads.
#[test]
fn a_guest_above_its_target_waits_in_a_round(rt: HostRuntime) {
    check_blocked_epoch(&rt, &no_passages())
}

// Of three frames granted at once, two are there above the old target, and one comes from those that are free.
#[test]
fn frames_come_where_there_are_too_few(rt: HostRuntime) {
    let mut pool = two_running(&rt, 1);
    grant(&rt, &mut pool, 0, 2);
    check_frames(&rt, &pool, (6, 6), 8);
    set_cap(&rt, &mut pool, 0, 4);
    set_cap(&rt, &mut pool, 0, 8);
    check_frames(&rt, &pool, (4, 6), 8);
    grant(&rt, &mut pool, 0, 3);
    check_frames(&rt, &pool, (7, 7), 7);
    check_eq(&rt, seen(&pool, 0).expect(&rt, "it runs").demand, 3);
    pool.close();
}

// Guests give frames up side by side, and get their orders where nobody waits.
#[test]
fn all_guests_at_once(rt: HostRuntime) {
    let mut pool = two_running(&rt, 0);
    grant(&rt, &mut pool, 0, 1);
    set_cap(&rt, &mut pool, 0, 4);
    check_frames(&rt, &pool, (4, 5), 11);
    pool.order_all(false);
    check_blocked(&rt, &pool, false);
    release_first(&rt, &mut pool);
    check_frames(&rt, &pool, (4, 4), 12);
    check_eq(
        &rt,
        (frames_of(&pool, 1), pool.stats(1).is_some()),
        (Some((4, 4)), true),
    );
    halve_shares(&rt, &mut pool, 1);
    check_eq(&rt, seen(&pool, 1).expect(&rt, "it runs").shares, 500);
    pool.close();
}

// How many steps a guest has done.
fn done(pool: &Pool, position: usize) -> Option<u32> {
    Some(seen(pool, position)?.done)
}

// Asserts how many steps the first guest and the second have done.
fn check_done(rt: &impl Abort, pool: &Pool, steps: [u32; 2]) {
    let [first, second] = steps;
    check_eq(
        rt,
        (done(pool, 0), done(pool, 1)),
        (Some(first), Some(second)),
    );
}

#[test]
fn two_tickets_at_once(rt: HostRuntime) {
    let mut pool = two_running(&rt, 0);
    let gate = nobody_met();
    run(&rt, &gate, 2, &mut pool);
    check_met(&rt, &gate);
    check_done(&rt, &pool, [1, 0]);
    pool.close();
}

// What passed the gate, in order: 2 n + 1 where the number n entered it, and 2 n + 2 where it left.
#[derive(Drop)]
struct Passages {
    count: AtomicU64,
    which: [AtomicU64; 4],
}

fn no_passages() -> Passages {
    Passages {
        count: AtomicU64::new(0),
        which: zeros(),
    }
}

fn note(passages: &Passages, which: u64) {
    let place = passages.count.fetch_add(1, Ordering::SeqCst);
    if place < 4 {
        passages.which[place as usize].store(which, Ordering::SeqCst);
    }
}

impl Gate for Passages {
    ghost use Rattle.std.specs.Prelude.{⊤};

    type Outside = ();

    type Inside = ();

    ghost passed = { λ _ _. ⊤ };

    ghost inside = { λ _ _ _. ⊤ };

    fn arrive(&self) {}

    fn enter(&self, _outside: (), number: u32) {
        note(self, 2 * u64::from(number) + 1);
    }

    fn leave(&self, _ran: Ran<()>, number: u32)
        ensures { ⊤ }
    {
        note(self, 2 * u64::from(number) + 2);
    }
}

fn passed(passages: &Passages) -> [u64; 4] {
    let which = &passages.which;
    [
        which[0].load(Ordering::SeqCst),
        which[1].load(Ordering::SeqCst),
        which[2].load(Ordering::SeqCst),
        which[3].load(Ordering::SeqCst),
    ]
}

// One worker serves the running guests in order, each between its entry and its exit. A stopped guest has no number.
#[test]
fn one_worker_serves_in_order(rt: HostRuntime) {
    let mut pool = two_guests(&rt, 0);
    start(&rt, &mut pool, 1);
    let alone = no_passages();
    run(&rt, &alone, 1, &mut pool);
    check_eq(&rt, passed(&alone), [1, 2, 0, 0]);
    start(&rt, &mut pool, 0);
    let both = no_passages();
    run(&rt, &both, 1, &mut pool);
    check_eq(&rt, passed(&both), [1, 2, 3, 4]);
    check_done(&rt, &pool, [1, 0]);
    pool.close();
}

// How many guests are set up, and the sizes of the first two.
fn sizes_of(specs: &[GuestSpec]) -> (usize, Option<u32>, Option<u32>) {
    let size_at = |position: usize| Some(specs.get(position)?.size);
    (specs.len(), size_at(0), size_at(1))
}

// A pool is closed, and what comes back makes it again.
fn made_again(rt: &(impl AllocGlobal + Abort), pool: Pool) -> Pool {
    let specs = pool.close();
    check_eq(rt, sizes_of(specs.as_slice()), (2, Some(8), Some(4)));
    pool_of(rt, 1, specs)
}

// The specifications come back in order, of guests that run and of those that don't, and a trace begins again.
#[test]
fn specifications_come_back(rt: HostRuntime) {
    let mut pool = two_guests(&rt, 1);
    start(&rt, &mut pool, 0);
    run(&rt, &Open, 1, &mut pool);
    let mut pool = made_again(&rt, pool);
    check_eq(&rt, (pool.is_running(0), pool.free()), (false, 20));
    start(&rt, &mut pool, 1);
    let mut pool = made_again(&rt, pool);
    start(&rt, &mut pool, 0);
    start(&rt, &mut pool, 1);
    run(&rt, &Open, 1, &mut pool);
    check_done(&rt, &pool, [1, 0]);
    pool.close();
}

// One worker meets nobody.
#[test]
fn one_ticket_at_a_time(rt: HostRuntime) {
    let mut pool = two_running(&rt, 0);
    let gate = nobody_met();
    run(&rt, &gate, 1, &mut pool);
    check_first_alone(&rt, &gate);
    pool.close();
}

// A guest beside one that is stopped runs as ever, and its memory is shown.
fn check_one_runs(rt: &(impl AllocGlobal + Abort + Threads + Sync), gate: &(impl Gate + Sync)) {
    let mut pool = two_guests(rt, 0);
    start(rt, &mut pool, 0);
    run(rt, gate, 64, &mut pool);
    run(rt, gate, 1, &mut pool);
    let read = PageRead {
        page: 0,
        offset: 0,
        bytes: Bytes::from_slice(&[0x0a, 0]),
    };
    check_eq(rt, pool.reads(0), Some([read].as_slice()));
    check_eq(rt, (pool.reads(1), done(&pool, 0)), (None, Some(2)));
    let mut bytes = [7; 4096];
    check_eq(rt, pool.peek(0, 0, &mut bytes) && bytes[0] == 0x0a, true);
    check_eq(
        rt,
        !pool.peek(0, 8, &mut bytes) && !pool.peek(1, 0, &mut bytes),
        true,
    );
    pool.close();
}

#[test]
fn the_others_wait(rt: HostRuntime) {
    check_one_runs(&rt, &Open)
}

// The same where the gate may wait, so that the first epoch is a round on threads.
#[test]
fn the_others_wait_in_a_round(rt: HostRuntime) {
    check_one_runs(&rt, &no_passages())
}

// Starts a guest that can start, in a room that another one left where one serves it, and tells whether there was memory for it.
fn starts(rt: &(impl AllocGlobal + Abort), pool: &mut Pool, position: usize) -> bool {
    assert!(rt; position < pool.len());
    let min = pool.stopped(position).expect(rt, "it is stopped").min;
    assert!(rt; u64::from(min) + u64::from(pool.overhead()) <= u64::from(pool.free()));
    match pool.take_room(rt.alloc(), position) {
        Ok(room) => {
            pool.start(position, room);
            true
        }
        Err(_) => false,
    }
}

// Sets the minimum of a guest, and tells whether there was memory for it.
fn sets_min(rt: &impl Abort, pool: &mut Pool, position: usize, least: u32) -> bool {
    assert!(rt; position < pool.len() && least >= 1);
    let view = seen(pool, position).expect(rt, "it runs");
    assert!(rt; least <= view.cap && least.saturating_sub(view.held) <= pool.free());
    pool.set_min(position, least).is_ok()
}

// Where an epoch of the first guest lacked memory, no step was done, and where a lower minimum did, the reserve is as before.
fn check_refusals(
    rt: &(impl AllocGlobal + Abort + Threads + Sync),
    gate: &(impl Gate + Sync),
    pool: &mut Pool,
) {
    let ran = runs(rt, gate, 2, pool);
    check_eq(rt, done(pool, 0), Some(u32::from(ran)));
    set_min(rt, pool, 0, 5);
    let set = sets_min(rt, pool, 0, 2);
    check_eq(rt, pool.reserve(0), Some(if set { 6 } else { 4 }));
}

// At each request for memory that fails in turn, the call that made it changes nothing. A raised minimum makes none.
fn check_calls_refused(
    rt: &(impl AllocGlobal + Abort + Threads + Sync),
    gate: &(impl Gate + Sync),
) {
    let mut pool = two_guests(rt, 1);
    let started = starts(rt, &mut pool, 0);
    let free = if started { 15 } else { 20 };
    check_eq(rt, (pool.is_running(0), pool.free()), (started, free));
    if started {
        check_refusals(rt, gate, &mut pool);
    }
    pool.close();
}

#[test]
fn where_memory_is_refused_nothing_changes(rt: HostRuntime) {
    check_calls_refused(&rt, &Open)
}

// The same where the gate may wait, so that the round is one on threads.
#[test]
fn where_a_round_is_refused_memory_nothing_changes(rt: HostRuntime) {
    check_calls_refused(&rt, &no_passages())
}

// A trace of so many writes to the pages of a guest that has eight, one after the other.
fn writes(rt: &(impl AllocGlobal + Abort), count: u32) -> Trace
    requires { count ≤ 1000000 }
    ensures within { All (IsWithin 8) result }
    ensures bounded { All IsStep result }
    ensures length { length result ≡ count }
{
    let texts = [
        "w 0 0 0a", "w 1 0 0b", "w 2 0 0c", "w 3 0 0d", "w 4 0 0e", "w 5 0 0f", "w 6 0 10",
        "w 7 0 11",
    ];
    let mut trace = Trace::new(rt.alloc());
    for number in 0..count {
        add_step(rt, &mut trace, 8, texts[number as usize % 8]);
    }
    trace
}

// A guest of eight pages with half of them in frames, which runs so many writes in epochs of this quantum.
fn writer(rt: &(impl AllocGlobal + Abort), count: u32, quantum: u32) -> GuestSpec
    requires few { count ≤ 1000000 }
    requires quantum { (1 ≤ quantum) × (quantum ≤ 65536) }
{
    GuestSpec {
        quantum,
        ..guest_of(8, 4, writes(rt, count))
    }
}

// What is shown of two such guests after as many epochs as their writes take.
fn shown_after(
    rt: &(impl AllocGlobal + Abort + Threads + Sync),
    gate: &(impl Gate + Sync),
    workers: u32,
    epochs: u32,
    quantum: u32,
) -> [Option<GuestView>; 2]
    requires workers { (1 ≤ workers) × (workers ≤ 64) }
    requires epochs { epochs ≤ 100 }
    requires quantum { (1 ≤ quantum) × (quantum ≤ 10000) }
{
    let count = epochs * quantum;
    let first = writer(rt, count, quantum);
    let second = writer(rt, count, quantum);
    let mut pool = pool_of_two(rt, 0, first, second);
    start(rt, &mut pool, 0);
    start(rt, &mut pool, 1);
    for _ in 0..epochs {
        run(rt, gate, workers, &mut pool);
    }
    let shown = [pool.view(0), pool.view(1)];
    pool.close();
    shown
}

// Asserts that so many epochs leave the same guests on any number of workers, whether or not the gate may wait.
fn check_shared(rt: &(impl AllocGlobal + Abort + Threads + Sync), epochs: u32, quantum: u32)
    requires epochs { epochs ≤ 100 }
    requires quantum { (1 ≤ quantum) × (quantum ≤ 10000) }
{
    let alone = shown_after(rt, &Open, 1, epochs, quantum);
    let open = shown_after(rt, &Open, 2, epochs, quantum);
    let most = shown_after(rt, &Open, 64, epochs, quantum);
    let gated_alone = shown_after(rt, &no_passages(), 1, epochs, quantum);
    let gated = shown_after(rt, &no_passages(), 2, epochs, quantum);
    let gated_most = shown_after(rt, &no_passages(), 64, epochs, quantum);
    let shown = [open, most, gated_alone, gated, gated_most];
    check_eq(rt, shown, [alone, alone, alone, alone, alone]);
}

// Epochs of few steps stay on one thread where the gate never waits, and those of many are shared.
#[test]
fn epochs_are_the_same_however_they_are_shared(rt: HostRuntime) {
    check_shared(&rt, 100, 3);
    check_shared(&rt, 5, 1500);
    check_shared(&rt, 3, 5000);
}

// Guests of two sizes start and stop by turns, alone and side by side. The rooms that they leave are used again, so that a thousand
// turns take no more memory than a few.
#[test]
fn guests_start_and_stop_by_turns(rt: HostRuntime) {
    let mut pool = two_guests(&rt, 1);
    for turn in 0..1000 {
        let first = turn % 2;
        start(&rt, &mut pool, first);
        check_eq(&rt, (pool.free(), pool.overhead_frames()), (15, 1));
        start(&rt, &mut pool, 1 - first);
        check_eq(&rt, (pool.free(), pool.overhead_frames()), (10, 2));
        stop(&rt, &mut pool, first);
        stop(&rt, &mut pool, 1 - first);
        check_eq(&rt, (pool.free(), pool.overhead_frames()), (20, 0));
    }
    pool.close();
}

// Asserts that each page of a guest of eight pages reads as zeros.
fn check_zeros(rt: &impl Abort, pool: &Pool, position: usize) {
    for page in 0..8 {
        let mut bytes = [7; 4096];
        check_eq(rt, pool.peek(position, page, &mut bytes), true);
        check_eq(rt, bytes == [0; 4096], true);
    }
}

// Runs a guest that writes to each of its eight pages, and tells what is shown of it then. Four of the pages are out.
fn shown_once_written(
    rt: &(impl AllocGlobal + Abort + Threads + Sync),
    pool: &mut Pool,
    position: usize,
) -> Option<GuestView> {
    run(rt, &Open, 1, pool);
    let mut bytes = [7; 4096];
    check_eq(
        rt,
        pool.peek(position, 0, &mut bytes) && bytes[0] == 0x0a,
        true,
    );
    let view = seen(pool, position).expect(rt, "it runs");
    check_eq(rt, (view.resident, view.swapped), (4, 4));
    pool.view(position)
}

// A guest that starts in the room that another one left finds zeros where that one wrote, in frames and in the swap area, and runs as
// that one did.
#[test]
fn a_guest_in_a_used_room_is_as_a_new_one(rt: HostRuntime) {
    let mut pool = pool_of_two(&rt, 0, writer(&rt, 8, 8), writer(&rt, 8, 8));
    start(&rt, &mut pool, 0);
    check_zeros(&rt, &pool, 0);
    let first = shown_once_written(&rt, &mut pool, 0);
    stop(&rt, &mut pool, 0);

    start(&rt, &mut pool, 1);
    check_zeros(&rt, &pool, 1);
    let second = shown_once_written(&rt, &mut pool, 1);
    check_eq(&rt, second, first);
    stop(&rt, &mut pool, 1);

    start(&rt, &mut pool, 0);
    check_zeros(&rt, &pool, 0);
    check_eq(&rt, shown_once_written(&rt, &mut pool, 0), first);
    pool.close();
}

// So does a guest of a pool after the one whose guests left their rooms.
#[test]
fn a_guest_in_a_room_of_another_pool_is_as_a_new_one(rt: HostRuntime) {
    let mut pool = pool_of_two(&rt, 0, writer(&rt, 8, 8), writer(&rt, 8, 8));
    start(&rt, &mut pool, 0);
    let first = shown_once_written(&rt, &mut pool, 0);
    let (specs, shelf) = pool.close_keeping();

    let mut next = pool_on(&rt, specs, shelf);
    start(&rt, &mut next, 1);
    check_zeros(&rt, &next, 1);
    check_eq(&rt, shown_once_written(&rt, &mut next, 1), first);
    next.close();
}
