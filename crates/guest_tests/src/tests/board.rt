ghost use Rattle.std.specs.Prelude.{◌≡◌, ◌<◌, ◌≤◌, ◌+◌, ◌^◌, length, All, IfOk, vec_len};
ghost use Rattle.vm_board.specs.Boards.{IsDraw, IsIdle, IsNew, IsOver};

use super::gates::{check_first_alone, check_met, nobody_met, zeros};
use crate::tests::check_eq;
use std::alloc::{AllocError, Global};
use std::process::Abort;
use std::sync::atomic::{AtomicU64, Ordering};
use std::test::Fail;
use std::thread;
use std::thread::{Threads, join};
use vm_board::{Board, Gate, Jobs, Open, Pass, Passes, Ran, Work, run_round};

// A job that counts its own runs.
#[derive(Drop)]
struct Tally {
    runs: u64,
}

impl Work for Tally {
    ghost use Rattle.std.specs.Prelude.{◌<◌, ◌+◌, ◌^◌};

    ghost ready = { λ job. job.runs < 2 ^ 32 };

    ghost pieces = { λ _. 1 };

    ghost piece = { λ _ job. record { runs = job.runs + 1 } };

    fn run(&mut self) {
        self.runs += 1;
    }
}

// A job in three pieces, which can't be dropped: one that was lost would be refused.
struct Parcel {
    stamps: u64,
}

impl Work for Parcel {
    ghost use Rattle.std.specs.Prelude.{◌<◌, ◌+◌, ◌*◌, ◌^◌};

    ghost ready = { λ job. job.stamps < 2 ^ 32 };

    ghost pieces = { λ _. 3 };

    ghost piece = { λ number job. record { stamps = 2 * job.stamps + number } };

    fn run(&mut self) {
        self.stamps = 2 * self.stamps;
        self.stamps = 2 * self.stamps + 1;
        self.stamps = 2 * self.stamps + 2;
    }
}

// Jobs that begin at 0, 10, 20 and so on.
fn tallies(alloc: Global, count: u64) -> Result<Jobs<Tally>, AllocError>
    requires { count ≤ 256 }
    ensures { IfOk result (λ jobs. (length jobs ≡ count) × All (λ job. job.runs < 2 ^ 32) jobs) }
{
    let mut list = Vec::with_capacity(alloc, count as usize)?;
    for i in 0..count {
        list.push_reserved(Tally { runs: 10 * i });
    }
    Ok(Jobs::from(list))
}

// Whether there are `count` jobs, and each is as `tallies` made it, with so many more runs.
fn ran(jobs: Jobs<Tally>, count: usize, times: u64) -> bool {
    let list = jobs.into_vec();
    let mut right = list.len() == count;
    let mut first: u64 = 0;
    for job in &list {
        right = right && job.runs == first.wrapping_add(times);
        first = first.wrapping_add(10);
    }
    right
}

// Asserts that there are so many jobs, and that each has run once since `tallies` made it.
fn check_ran(rt: &impl Abort, jobs: Jobs<Tally>, count: usize) {
    check_eq(rt, ran(jobs, count, 1), true);
}

// How many are inside, and the most that ever were; how many entered, and how many left that had entered.
#[derive(Drop)]
struct Turnstile {
    inside: AtomicU64,
    most: AtomicU64,
    entered: [AtomicU64; 64],
    left: [AtomicU64; 64],
}

impl Gate for Turnstile {
    ghost use Rattle.std.specs.Prelude.{⊤};

    type Outside = ();

    type Inside = ();

    ghost passed = { λ _ _. ⊤ };

    ghost inside = { λ _ _ _. ⊤ };

    fn arrive(&self) {}

    fn enter(&self, _outside: (), number: u32) {
        let now = self.inside.fetch_add(1, Ordering::SeqCst);
        self.most.fetch_max(now.wrapping_add(1), Ordering::SeqCst);
        if number < 64 {
            self.entered[number as usize].fetch_add(1, Ordering::SeqCst);
        }
        thread::yield_now();
    }

    fn leave(&self, _ran: Ran<()>, number: u32)
        ensures { ⊤ }
    {
        if number < 64 && self.entered[number as usize].load(Ordering::SeqCst) == 1 {
            self.left[number as usize].fetch_add(1, Ordering::SeqCst);
        }
        self.inside.fetch_sub(1, Ordering::SeqCst);
    }
}

// A board of so many jobs, with so many passes.
fn board_of(
    rt: &(impl AllocGlobal + Abort),
    count: u64,
    seats: u32,
) -> (Board<Tally>, Passes<Tally>)
    requires count { count ≤ 256 }
    requires seats { (0 < seats) × (seats ≤ 64) }
    ensures jobs { length result.0.jobs ≡ count }
    ensures seats { result.0.seats ≡ seats }
    ensures all { vec_len result.1.list ≡ seats }
    ensures new { All (IsNew result.0) result.1.list.items }
    ensures room { count ≤ result.1.room }
{
    let jobs = tallies(rt.alloc(), count).expect(rt, "memory");
    match Board::new(rt.alloc(), jobs, seats) {
        Ok(made) => made,
        Err(_refused) => panic!(rt; "memory"),
    }
}

// One of a board's passes that have drawn nothing.
fn next_pass(rt: &impl Abort, board: &Board<Tally>, list: &mut Vec<Pass<Tally>>) -> Pass<Tally>
    requires new { All (IsNew board.now) list.old.items }
    ensures new { IsNew board.now result }
    ensures rest { All (IsNew board.now) list.new.items }
    ensures len { vec_len list.new + 1 ≡ vec_len list.old }
{
    list.pop().expect(rt, "a pass")
}

// Draws a number that waits.
fn drawn(rt: &impl Abort, board: &Board<Tally>, pass: &mut Pass<Tally>) -> (u32, Tally)
    requires { IsIdle board.now pass.old }
    ensures draw { IsDraw board.now pass.old result pass.new }
    ensures ready { result.1.runs < 2 ^ 32 }
{
    match board.draw(pass) {
        Some(drawn) => drawn,
        None => panic!(rt; "no job waits"),
    }
}

// Asserts that the pass finds that no number is left.
fn check_over(rt: &impl Abort, board: &Board<Tally>, pass: &mut Pass<Tally>)
    requires { IsIdle board.now pass.old }
    ensures { IsOver board.now pass.new }
{
    match board.draw(pass) {
        None => {}
        Some(_) => panic!(rt; "a job waits"),
    }
}

// Two passes draw 0 and 1, and finish in the order asked for.
fn draw_two(
    rt: &impl Abort,
    board: &Board<Tally>,
    first: &mut Pass<Tally>,
    second: &mut Pass<Tally>,
    second_first: bool,
)
    requires first { IsIdle board.now first.old }
    requires second { IsIdle board.now second.old }
    ensures first { IsIdle board.now first.new }
    ensures second { IsIdle board.now second.new }
{
    let (zero, mut a) = drawn(rt, board, first);
    let (one, mut b) = drawn(rt, board, second);
    check_eq(rt, (zero, one), (0, 1));
    a.run();
    b.run();
    if second_first {
        board.finish(second, one, b);
        board.finish(first, zero, a);
    } else {
        board.finish(first, zero, a);
        board.finish(second, one, b);
    }
}

// Two jobs and two passes, which draw 0 and 1 and finish in the order asked for.
fn check_two_passes(rt: &(impl AllocGlobal + Abort), second_first: bool) -> Result<(), Fail> {
    let (board, mut passes) = board_of(rt, 2, 2);
    let mut second = next_pass(rt, &board, &mut passes.list);
    let mut first = next_pass(rt, &board, &mut passes.list);
    draw_two(rt, &board, &mut first, &mut second, second_first);
    check_over(rt, &board, &mut first);
    check_over(rt, &board, &mut second);
    // a pass that is over stays so
    check_over(rt, &board, &mut first);
    passes.list.push(second)?;
    passes.list.push(first)?;
    check_ran(rt, board.close(passes), 2);
    Ok(())
}

#[test]
fn two_passes_finish_in_either_order(rt: HostRuntime) -> Result<(), Fail> {
    check_two_passes(&rt, false)?;
    check_two_passes(&rt, true)
}

#[test]
fn a_board_with_no_jobs(rt: HostRuntime) -> Result<(), Fail> {
    let (board, mut passes) = board_of(&rt, 0, 2);
    let mut second = next_pass(&rt, &board, &mut passes.list);
    let mut first = next_pass(&rt, &board, &mut passes.list);
    check_over(&rt, &board, &mut first);
    check_over(&rt, &board, &mut second);
    passes.list.push(first)?;
    passes.list.push(second)?;
    let done = board.close(passes);
    check_eq(&rt, (done.is_empty(), done.len()), (true, 0));
    Ok(())
}

// What a thread of the caller's own does.
fn drained<J: Work>(board: &Board<J>, mut pass: Pass<J>) -> Pass<J>
    requires { IsIdle board.now pass }
    ensures { IsOver board.now result }
{
    board.drain(&Open, &mut pass);
    pass
}

fn drain_two<R: Threads, J: Work + Send>(
    rt: &R,
    board: &Board<J>,
    one: Pass<J>,
    other: Pass<J>,
) -> (Pass<J>, Pass<J>)
    requires one { IsIdle board.now one }
    requires other { IsIdle board.now other }
    ensures one { IsOver board.now result.0 }
    ensures other { IsOver board.now result.1 }
{
    join(rt, || drained(board, one), || drained(board, other))
}

// Each pass drains the board, one after the other.
fn drain_each<R: Threads + Sync, J: Work + Send>(rt: &R, board: &Board<J>, passes: &mut [Pass<J>])
    requires { All (IsIdle board.now) passes.old }
    ensures { All (IsOver board.now) passes.new }
{
    thread::for_each_mut(
        rt,
        passes,
        1,
        &|_: usize, pass: &mut Pass<J>|
            requires { IsIdle board.now pass.now }
            ensures { IsOver board.entry.now pass.exit.now }
        { board.drain(&Open, pass) },
    );
}

fn put_back<J: Work>(
    board: &Board<J>,
    list: &mut Vec<Pass<J>>,
    pass: Pass<J>,
) -> Result<(), AllocError>
    requires list { All (IsOver board.now) list.old.items }
    requires pass { IsOver board.now pass }
    ensures len { IfOk result (λ _. vec_len list.new ≡ vec_len list.old + 1) }
    ensures list { IfOk result (λ _. All (IsOver board.now) list.new.items) }
{
    list.push(pass)?;
    Ok(())
}

#[test]
fn two_threads_and_then_their_caller(rt: HostRuntime) -> Result<(), Fail> {
    let (board, mut passes) = board_of(&rt, 5, 5);
    let one = next_pass(&rt, &board, &mut passes.list);
    let other = next_pass(&rt, &board, &mut passes.list);
    let (one, other) = drain_two(&rt, &board, one, other);
    drain_each(&rt, &board, passes.list.as_mut_slice());
    put_back(&board, &mut passes.list, one)?;
    put_back(&board, &mut passes.list, other)?;
    check_ran(&rt, board.close(passes), 5);
    Ok(())
}

// Asserts that a round runs each of so many jobs once.
fn check_round(
    rt: &(impl AllocGlobal + Abort + Threads + Sync),
    gate: &(impl Gate + Sync),
    workers: u32,
    count: u64,
)
    requires workers { (0 < workers) × (workers ≤ 64) }
    requires count { count ≤ 256 }
{
    let jobs = tallies(rt.alloc(), count).expect(rt, "memory");
    match run_round(rt, rt.alloc(), gate, workers, jobs) {
        Ok(done) => check_ran(rt, done, count as usize),
        Err(_refused) => panic!(rt; "memory"),
    }
}

#[test]
fn two_tickets_at_once(rt: HostRuntime) {
    let gate = nobody_met();
    check_round(&rt, &gate, 2, 2);
    check_met(&rt, &gate);
}

// One worker runs the jobs one after another, so nobody is met. It is no promise of a clause.
#[test]
fn one_worker_meets_nobody(rt: HostRuntime) {
    let gate = nobody_met();
    check_round(&rt, &gate, 1, 2);
    check_first_alone(&rt, &gate);
}

fn new_turnstile() -> Turnstile {
    Turnstile {
        inside: AtomicU64::new(0),
        most: AtomicU64::new(0),
        entered: zeros(),
        left: zeros(),
    }
}

// A gate whose threads remember the last number with which they passed, and that counts the numbers that do not rise.
#[derive(Drop)]
struct Rising {
    falls: AtomicU64,
}

impl Gate for Rising {
    ghost use Rattle.std.specs.Prelude.{◌≡◌, ◌++◌, ◌∷◌, ℕ, List, [], IfNone, IfSome};

    // The last number that passed.
    type Outside = Option<u32>;

    // The number that is inside.
    type Inside = u32;

    ghost passed = { λ last numbers. IfNone last (numbers ≡ []) × IfSome last (λ n. (before : List ℕ) × (numbers ≡ before ++ n ∷ [])) };

    ghost inside = { λ here _ number. here ≡ number };

    fn arrive(&self) -> Option<u32> {
        None
    }

    fn enter(&self, outside: Option<u32>, number: u32) -> u32 {
        if let Some(last) = outside
            && number <= last
        {
            self.falls.fetch_add(1, Ordering::SeqCst);
        }
        number
    }

    fn leave(&self, ran: Ran<u32>, number: u32) -> Option<u32>
        ensures { (before : List ℕ) → ran ≡ number
            → IfNone result (before ++ number ∷ [] ≡ []) × IfSome result (λ n. (front : List ℕ) × (before ++ number ∷ [] ≡ front ++ n ∷ [])) }
    {
        Some(ran.into_inside())
    }
}

// Asserts that each thread of a round on so many workers takes its numbers through in rising order.
fn check_rising(rt: &(impl AllocGlobal + Abort + Threads + Sync), workers: u32)
    requires { (0 < workers) × (workers ≤ 64) }
{
    let gate = Rising {
        falls: AtomicU64::new(0),
    };
    check_round(rt, &gate, workers, 64);
    check_eq(
        rt,
        (workers, gate.falls.load(Ordering::SeqCst)),
        (workers, 0),
    );
}

// Each thread takes its numbers through in rising order, whatever the number of threads.
#[test]
fn numbers_of_a_thread_rise(rt: HostRuntime) {
    check_rising(&rt, 1);
    check_rising(&rt, 3);
    check_rising(&rt, 64);
}

// Asserts that each of these happened once in a round.
fn check_once(rt: &impl Abort, workers: u32, times: &[AtomicU64]) {
    for time in times {
        check_eq(rt, (workers, time.load(Ordering::SeqCst)), (workers, 1));
    }
}

// Asserts that no more are inside at once than there are workers, and that each number enters and leaves once.
fn check_turnstile(rt: &(impl AllocGlobal + Abort + Threads + Sync), workers: u32)
    requires { (0 < workers) × (workers ≤ 64) }
{
    let gate = new_turnstile();
    check_round(rt, &gate, workers, 64);
    let fits = gate.most.load(Ordering::SeqCst) <= u64::from(workers);
    check_eq(rt, (workers, fits), (workers, true));
    check_once(rt, workers, &gate.entered);
    check_once(rt, workers, &gate.left);
}

// Each number enters once and leaves once, as a clause says, by a gate that counts.
#[test]
fn each_number_passes_the_gate_once(rt: HostRuntime) {
    check_turnstile(&rt, 1);
    check_turnstile(&rt, 3);
    check_turnstile(&rt, 64);
}

// At each allocation that fails in turn, the jobs come back as they were.
#[test]
fn a_refused_board_hands_the_jobs_back(rt: HostRuntime) -> Result<(), Fail> {
    let right = match Board::new(rt.alloc(), tallies(rt.alloc(), 3)?, 2) {
        Ok((_board, passes)) => passes.list.len() == 2,
        Err(refused) => ran(refused.jobs, 3, 0),
    };
    assert!(rt; right);
    Ok(())
}

// And none has entered the gate, which no clause says: it speaks of rounds that were run.
#[test]
fn a_refused_round_hands_the_jobs_back(rt: HostRuntime) -> Result<(), Fail> {
    let gate = new_turnstile();
    let (right, entered) = match run_round(&rt, rt.alloc(), &gate, 2, tallies(rt.alloc(), 3)?) {
        Ok(done) => (ran(done, 3, 1), true),
        Err(refused) => (ran(refused.jobs, 3, 0), false),
    };
    assert!(rt; right);
    check_eq(&rt, gate.most.load(Ordering::SeqCst) > 0, entered);
    Ok(())
}

// Asserts that a round of no jobs is over.
fn check_no_jobs(rt: &(impl AllocGlobal + Abort + Threads + Sync), workers: u32)
    requires { (0 < workers) × (workers ≤ 64) }
{
    let jobs: Jobs<Tally> = Jobs::from(Vec::new(rt.alloc()));
    match run_round(rt, rt.alloc(), &Open, workers, jobs) {
        Ok(done) => check_eq(rt, (workers, done.is_empty()), (workers, true)),
        Err(_refused) => panic!(rt; "memory"),
    }
}

// No memory is wanted for it, so that none can be refused.
#[test]
fn a_round_of_no_jobs_is_over(rt: HostRuntime) {
    check_no_jobs(&rt, 1);
    check_no_jobs(&rt, 64);
}

// Two jobs that can't be dropped, with 1 stamp and 5.
fn parcels(alloc: Global) -> Result<Jobs<Parcel>, AllocError>
    ensures { IfOk result (λ jobs. (length jobs ≡ 2) × All (λ job. job.stamps < 2 ^ 32) jobs) }
{
    let mut list = Vec::with_capacity(alloc, 2)?;
    list.push_reserved(Parcel { stamps: 1 });
    list.push_reserved(Parcel { stamps: 5 });
    Ok(Jobs::from(list))
}

fn stamps_of(parcel: Option<Parcel>) -> u64 {
    match parcel {
        Some(Parcel { stamps }) => stamps,
        None => 0,
    }
}

// The stamps of two parcels.
fn opened(jobs: Jobs<Parcel>) -> (u64, u64)
    requires { length jobs ≡ 2 }
{
    let mut list = jobs.into_vec();
    let second = stamps_of(list.pop());
    let first = stamps_of(list.pop());
    list.destroy_empty();
    (first, second)
}

#[test]
fn no_parcel_is_lost(rt: HostRuntime) -> Result<(), Fail> {
    let (ran, stamps) = match run_round(&rt, rt.alloc(), &Open, 2, parcels(rt.alloc())?) {
        Ok(done) => (true, opened(done)),
        Err(refused) => (false, opened(refused.jobs)),
    };
    // 2 * (2 * (2 * 1) + 1) + 2 is 12, and from 5 it is 44
    check_eq(&rt, stamps, if ran { (12, 44) } else { (1, 5) });
    Ok(())
}

// What eight numbers did so far.
#[derive(Drop)]
struct Marks {
    entered: [AtomicU64; 8],
    ran: [AtomicU64; 8],
    left: [AtomicU64; 8],
}

fn no_marks() -> Marks {
    Marks {
        entered: zeros(),
        ran: zeros(),
        left: zeros(),
    }
}

// A job that looks at its gate while it runs: its run counts only where its number has entered, and not left.
#[derive(Drop)]
struct Witness<'a> {
    number: usize,
    marks: &'a Marks,
}

impl Work for Witness<'_> {
    ghost use Rattle.std.specs.Prelude.{◌<◌};

    ghost ready = { λ job. job.number < 8 };

    ghost pieces = { λ _. 0 };

    ghost piece = { λ _ job. job };

    fn run(&mut self) {
        let marks = self.marks;
        let has_entered = marks.entered[self.number].load(Ordering::SeqCst) == 1;
        if has_entered && marks.left[self.number].load(Ordering::SeqCst) == 0 {
            marks.ran[self.number].fetch_add(1, Ordering::SeqCst);
        }
    }
}

// A gate that looks at its jobs: a number has left only where it was run.
#[derive(Drop)]
struct Watch<'m> {
    marks: &'m Marks,
}

impl Gate for Watch<'_> {
    ghost use Rattle.std.specs.Prelude.{⊤};

    type Outside = ();

    type Inside = ();

    ghost passed = { λ _ _. ⊤ };

    ghost inside = { λ _ _ _. ⊤ };

    fn arrive(&self) {}

    fn enter(&self, _outside: (), number: u32) {
        let marks = self.marks;
        if number < 8 {
            marks.entered[number as usize].fetch_add(1, Ordering::SeqCst);
        }
    }

    fn leave(&self, _ran: Ran<()>, number: u32)
        ensures { ⊤ }
    {
        let marks = self.marks;
        if number < 8 && marks.ran[number as usize].load(Ordering::SeqCst) == 1 {
            marks.left[number as usize].fetch_add(1, Ordering::SeqCst);
        }
    }
}

// Eight jobs that look at their gate.
fn witnesses<'a>(alloc: Global, marks: &'a Marks) -> Result<Jobs<Witness<'a>>, AllocError>
    ensures { IfOk result (λ jobs. (length jobs ≡ 8) × All (λ job. job.number < 8) jobs) }
{
    let mut list = Vec::with_capacity(alloc, 8)?;
    for number in 0..8 {
        list.push_reserved(Witness { number, marks });
    }
    Ok(Jobs::from(list))
}

// Each number enters, runs and leaves, in this order.
#[test]
fn a_job_runs_inside_its_gate(rt: HostRuntime) -> Result<(), Fail> {
    let all = no_marks();
    let marks = &all;
    let jobs = witnesses(rt.alloc(), marks)?;
    let Ok(done) = run_round(&rt, rt.alloc(), &Watch { marks }, 3, jobs) else {
        panic!(rt; "memory")
    };
    check_eq(&rt, done.len(), 8);
    check_once(&rt, 3, &marks.left);
    Ok(())
}
