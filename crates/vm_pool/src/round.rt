// The epochs of all guests, on threads.
ghost use Rattle.std.specs.Prelude.{◌≡◌, ◌+◌, ◌*◌, ◌^◌, ◌++◌, ◌<◌, ◌≤◌, [], ◌∷◌, All, EachIndex, IfOk, IfErr, IsTrue, ◌↔◌, OnOk, OnErr, count_by, length, map, false, true, vec_len, vec_capacity, slice_index_or};
ghost use Rattle.std.specs.List.{range_with_len};
ghost use Rattle.vm_board.specs.Gates.{HasPassed, PassedOnce};
ghost use Rattle.vm_pool.specs.declared.slot.Slot.TheVariants.{Away};
ghost use Rattle.vm_pool.specs.Changes.{IsServed};
ghost use Rattle.vm_pool.specs.Guests.{of_running, total};
ghost use Rattle.vm_pool.specs.Pool.{one_if_runs, running_count};
ghost use Rattle.vm_pool.specs.Slots.{guest_in, is_away, is_prepared, slot_run, unprepared, IsSettled};
ghost use Rattle.vm_pool.specs.Threads.{beside_of, gain_of, pages_of, start_of, step_time, steps_of};
ghost use Rattle.vm_pool.specs.Turns.{back_in, left_slot, running_in, Arrives, MayRun};

use crate::slot::{Slot, fill, guest_of};
use crate::turn::Turn;
use std::alloc::{AllocError, Global};
use std::mem;
use std::thread::Threads;
use vm_board::{Gate, Jobs, pass_through, run_round};
use vm_guest::WorkAhead;

// Nanoseconds of a step whose page is in a cache.
const STEP_TIME: u64 = 25;

// The most that it waits longer, where no cache has it.
const MOST_WAITING: u64 = 175;

// So many pages that were touched make it a nanosecond longer.
const PAGES_OF_A_NANOSECOND: u64 = 1000;

// Nanoseconds that a thread has to save: twice its start, which takes longer where the processors have other work.
const WORTH_TIME: u64 = 90000;

// Nanoseconds that it takes to move the box of a guest into a round and back.
const MOVE_TIME: u64 = 100;

// Each guest runs its epoch, on at most so many threads. Where memory is refused, which is only where a guest runs, none does, and there
// may be room for the epochs of some.
pub(crate) fn run_epochs<R: Threads + Sync, G: Gate + Sync>(
    rt: &R,
    alloc: Global,
    gate: &G,
    workers: u32,
    slots: &mut [Slot],
) -> Result<(), AllocError>
    requires workers { (0 < workers) × (workers ≤ 64) }
    requires few { length slots.old ≤ 256 }
    requires settled { All IsSettled slots.old }
    requires served { All IsServed (map guest_in slots.old) }
    ensures run { OnOk result (slots.new ≡ map slot_run slots.old) }
    ensures same { OnErr result (map unprepared slots.new ≡ map unprepared slots.old) }
    ensures memory { OnErr result (0 < running_count (map guest_in slots.old)) }
    ensures passed { OnOk result (PassedOnce G.passed workers (running_count (map guest_in slots.old))) }
{
    if !has_guests(slots) {
        return Ok(());
    }
    // In a gate that may wait, a thread may need another one to go on.
    let threads = if gate.never_waits() {
        threads_worth(workers, slots)
    } else {
        workers
    };
    if threads == 1 {
        return run_alone(gate, slots);
    }
    run_turns(rt, alloc, gate, threads, slots)
}

// The same on the caller's thread alone.
pub(crate) fn run_epochs_alone<G: Gate>(gate: &G, slots: &mut [Slot]) -> Result<(), AllocError>
    requires few { length slots.old ≤ 256 }
    requires served { All IsServed (map guest_in slots.old) }
    ensures run { OnOk result (slots.new ≡ map slot_run slots.old) }
    ensures same { OnErr result (map unprepared slots.new ≡ map unprepared slots.old) }
    ensures memory { OnErr result (0 < running_count (map guest_in slots.old)) }
    ensures passed { OnOk result (PassedOnce G.passed 1 (running_count (map guest_in slots.old))) }
{
    if !has_guests(slots) {
        return Ok(());
    }
    run_alone(gate, slots)
}

// On how many threads the epochs are run: as many as are worth their starts.
fn threads_worth(workers: u32, slots: &[Slot]) -> u32
    requires workers { (0 < workers) × (workers ≤ 64) }
    requires few { length slots.now ≤ 256 }
    ensures some { 0 < result }
    ensures few { result ≤ workers }
    ensures worth { start_of result ≤ gain_of (map guest_in slots.now) }
    ensures most { result < workers → gain_of (map guest_in slots.now) < start_of (result + 1) }
{
    if workers == 1 {
        return 1;
    }
    threads_for(gain(slots), workers)
}

// As many threads as are worth it where they gain so much, at least one and at most so many.
fn threads_for(gain: u64, most: u32) -> u32
    requires { (0 < most) × (most ≤ 64) }
    ensures some { 0 < result }
    ensures few { result ≤ most }
    ensures worth { start_of result ≤ gain }
    ensures most { result < most → gain < start_of (result + 1) }
{
    let mut threads = 1;
    while threads < most && start_time(threads + 1) <= gain {
        threads += 1;
    }
    threads
}

// What so many threads have to gain.
fn start_time(threads: u32) -> u64
    requires { (0 < threads) × (threads ≤ 64) }
    ensures { result ≡ start_of threads }
{
    u64::from(threads * (threads - 1)) * WORTH_TIME
}

// What threads gain in the epochs of all guests.
fn gain(slots: &[Slot]) -> u64
    requires few { length slots.now ≤ 256 }
    ensures { result ≡ gain_of (map guest_in slots.now) }
{
    let mut steps = 0;
    let mut pages = 0;
    let mut beside = 0;
    let mut moves = 0;
    for slot in slots {
        let ahead = work_in(slot);
        steps += ahead.steps;
        pages += ahead.pages;
        beside += ahead.beside;
        moves += move_of(slot);
    }
    (steps * step_time(pages) + beside).saturating_sub(moves)
}

// How long a step takes where so many pages were touched.
fn step_time(pages: u64) -> u64
    ensures value { result ≡ step_time pages }
    ensures few { result ≤ 200 }
{
    STEP_TIME + (pages / PAGES_OF_A_NANOSECOND).min(MOST_WAITING)
}

// What can be seen of the epoch of a slot's guest, if one runs there.
fn work_in(slot: &Slot) -> WorkAhead
    ensures steps { result.steps ≡ of_running steps_of (guest_in slot.now) }
    ensures pages { result.pages ≡ of_running pages_of (guest_in slot.now) }
    ensures beside { result.beside ≡ of_running beside_of (guest_in slot.now) }
    ensures few_steps { result.steps ≤ 262144 }
    ensures few_pages { result.pages < 2 ^ 33 }
    ensures little { result.beside ≤ 400000000 }
{
    match guest_of(slot) {
        Some(guest) => guest.work_ahead(),
        None => WorkAhead {
            steps: 0,
            pages: 0,
            beside: 0,
        },
    }
}

// Twice what it takes to move the box of that guest.
fn move_of(slot: &Slot) -> u64
    ensures { result ≡ 200 * of_running (λ _. 1) (guest_in slot.now) }
{
    match guest_of(slot) {
        Some(_) => 2 * MOVE_TIME,
        None => 0,
    }
}

// Whether a guest runs in any of these slots.
fn has_guests(slots: &[Slot]) -> bool
    ensures { IsTrue result ↔ (0 < running_count (map guest_in slots.now)) }
{
    for slot in slots {
        if guest_of(slot).is_some() {
            return true;
        }
    }
    false
}

// The same for one worker: guests run where they are, one after the other, so none is moved and no list is made.
fn run_alone<G: Gate>(gate: &G, slots: &mut [Slot]) -> Result<(), AllocError>
    requires few { length slots.old ≤ 256 }
    requires served { All IsServed (map guest_in slots.old) }
    ensures run { OnOk result (slots.new ≡ map slot_run slots.old) }
    ensures same { OnErr result (map unprepared slots.new ≡ map unprepared slots.old) }
    ensures passed { OnOk result (HasPassed G.passed (range_with_len 0 (running_count (map guest_in slots.old)))) }
{
    prepare_all(slots)?;
    run_in_order(gate, slots);
    Ok(())
}

// Each guest runs its epoch, one after the other.
fn run_in_order<G: Gate>(gate: &G, slots: &mut [Slot])
    requires few { length slots.old ≤ 256 }
    requires ready { All MayRun slots.old }
    ensures run { slots.new ≡ map slot_run slots.old }
    ensures passed { HasPassed G.passed (range_with_len 0 (running_count (map guest_in slots.old))) }
{
    let mut outside = gate.arrive();
    let mut number = 0;
    for slot in slots.iter_mut() {
        outside = run_here(gate, outside, &mut number, slot);
    }
}

// The guest of a slot, if one runs there, passes the gate with the next number and runs its epoch.
fn run_here<G: Gate>(gate: &G, outside: G::Outside, number: &mut u32, slot: &mut Slot) -> G::Outside
    requires few { number.old < 256 }
    requires ready { MayRun slot.old }
    requires passed { G.passed outside (range_with_len 0 number.old) }
    ensures run { slot.new ≡ slot_run slot.old }
    ensures number { number.new ≡ number.old + one_if_runs (guest_in slot.old) }
    ensures few { number.new ≤ number.old + 1 }
    ensures passed { G.passed result (range_with_len 0 number.new) }
{
    if guest_of(slot).is_none() {
        return outside;
    }
    let outside = pass_through(gate, outside, *number, slot);
    *number += 1;
    outside
}

// The same on threads, which asks for memory even where no guest runs.
fn run_turns<R: Threads + Sync, G: Gate + Sync>(
    rt: &R,
    alloc: Global,
    gate: &G,
    workers: u32,
    slots: &mut [Slot],
) -> Result<(), AllocError>
    requires workers { (0 < workers) × (workers ≤ 64) }
    requires few { length slots.old ≤ 256 }
    requires settled { All IsSettled slots.old }
    requires served { All IsServed (map guest_in slots.old) }
    ensures run { OnOk result (slots.new ≡ map slot_run slots.old) }
    ensures same { OnErr result (map unprepared slots.new ≡ map unprepared slots.old) }
    ensures passed { OnOk result (PassedOnce G.passed workers (running_count (map guest_in slots.old))) }
{
    prepare_all(slots)?;
    let turns = Vec::with_capacity(alloc, slots.len())?;
    let turns = send_out(slots, turns);
    match run_round(rt, alloc, gate, workers, Jobs::from(turns)) {
        Ok(done) => {
            bring_back(slots, done.into_vec());
            Ok(())
        }
        Err(refused) => {
            bring_back(slots, refused.jobs.into_vec());
            Err(AllocError)
        }
    }
}

// Makes room for the epoch of a slot's guest. Where memory is refused, nothing changes.
fn prepare(slot: &mut Slot) -> Result<(), AllocError>
    ensures prepared { OnOk result (is_prepared slot.new ≡ true) }
    ensures same { unprepared slot.new ≡ unprepared slot.old }
{
    match slot {
        Slot::Running(seated) => seated.guest_mut().prepare(),
        Slot::Stopped(_) | Slot::Away => Ok(()),
    }
}

// Makes room for the epoch of each guest. Where memory is refused, there is room for some of them.
fn prepare_all(slots: &mut [Slot]) -> Result<(), AllocError>
    ensures prepared { OnOk result (EachIndex slots.new (λ i. is_prepared (slice_index_or slots.new i Away) ≡ true)) }
    ensures same { map unprepared slots.new ≡ map unprepared slots.old }
{
    for slot in slots.iter_mut() {
        prepare(slot)?;
    }
    Ok(())
}

// The guest of a slot leaves it, if one runs there, and joins the turns, which have room for it.
fn leave(slot: &mut Slot, turns: &mut Vec<Turn>)
    requires { vec_len turns.old < vec_capacity turns.old }
    ensures slot { slot.new ≡ left_slot slot.old }
    ensures turns { turns.new.items ≡ turns.old.items ++ running_in (slot.old ∷ []) }
    ensures len { vec_len turns.new ≤ vec_len turns.old + 1 }
    ensures room { vec_capacity turns.new ≡ vec_capacity turns.old }
{
    match mem::replace(slot, Slot::Away) {
        Slot::Running(guest) => turns.push_reserved(Turn { guest }),
        Slot::Stopped(idle) => fill(slot, Slot::Stopped(idle)),
        Slot::Away => {}
    }
}

// Each guest that runs leaves its slot. They come in order, in the room that is there for them.
fn send_out(slots: &mut [Slot], turns: Vec<Turn>) -> Vec<Turn>
    requires none { turns.items ≡ [] }
    requires room { length slots.old ≤ vec_capacity turns }
    ensures slots { slots.new ≡ map left_slot slots.old }
    ensures turns { result.items ≡ running_in slots.old }
{
    let mut turns = turns;
    for slot in slots.iter_mut() {
        leave(slot, &mut turns);
    }
    turns
}

// The last of the turns comes back to a slot whose guest is away.
fn arrive(slot: &mut Slot, turns: &mut Vec<Turn>)
    requires { is_away slot.old ≡ true → 0 < vec_len turns.old }
    ensures there { is_away slot.old ≡ false → (slot.new ≡ slot.old) × (turns.new.items ≡ turns.old.items) }
    ensures away { is_away slot.old ≡ true → Arrives slot.new turns.old.items turns.new.items }
{
    if let Slot::Away = slot {
        match turns.pop() {
            Some(turn) => {
                let Turn { guest } = turn;
                fill(slot, Slot::Running(guest));
            }
            None => unreachable!(),
        }
    }
}

// Guests come back to the slots that they left, in order.
fn bring_back(slots: &mut [Slot], turns: Vec<Turn>)
    requires all { vec_len turns ≡ count_by is_away slots.old }
    ensures { slots.new ≡ back_in slots.old turns.items }
{
    let mut left = turns;
    left.reverse();
    for slot in slots.iter_mut() {
        arrive(slot, &mut left);
    }
    left.destroy_empty();
}
