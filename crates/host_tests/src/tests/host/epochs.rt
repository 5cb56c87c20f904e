// Epochs, and what is read of a host after them.
use super::lone_host::{
    LoneHost, assert_first_byte, assert_reads, assert_sizes, assert_steps_done, quiet,
};
use super::setup::{guest, machine, read};
use crate::tests::check_eq;
use std::process::Abort;
use std::sync::atomic::{AtomicU64, Ordering};
use std::thread;
use std::thread::Threads;
use vm_host::{Gate, Host, HostError, Lines, MachineSpec, Open, Outcome, Ran, State};

#[test]
fn first_read(rt: HostRuntime) {
    let rt = &rt;
    let steps = ["w 0 0 ff", "r 0 0 4"];
    let mut lone = LoneHost::of_guests(rt, machine(100, 0), &[("web", guest(4, 4))], &steps);
    assert_nothing_runs(rt, lone.host());
    lone.round_answers(rt, &[("start web", Outcome::Done)], quiet(State::High, 96));
    let host = lone.host();
    assert_reads(rt, host, &[read(0, &[0xff, 0, 0, 0])]);
    assert_view(rt, host);
    assert_frame_counts(rt, host);
    assert_names(rt, host);
    assert_first_byte(rt, host, "web", 0, Some(0xff));
    assert_first_byte(rt, host, "web", 4, None);
    assert_first_byte(rt, host, "c", 0, None);
    lone.close();
}

// All 100 frames are free, and nothing is shown.
fn assert_nothing_runs(rt: &impl Abort, host: &Host) {
    let shown = (host.view(0).is_some(), host.reads(0).is_some());
    check_eq(rt, (host.ready(), shown), (false, (false, false)));
    check_eq(rt, host.free(), 100);
    assert_first_byte(rt, host, "web", 0, None);
}

// A guest of four pages that has done two steps has all it wants.
fn assert_view(rt: &impl Abort, host: &Host) {
    assert_sizes(rt, host, 0, (4, 4, 0));
    assert_steps_done(rt, host, 0, 2);
    check_eq(rt, counts_of(host), Some((0, 65536, 0)));
}

// The pages in the swap area of the first guest, its active fraction, and how many bad entries it posted.
fn counts_of(host: &Host) -> Option<(u32, u32, u64)> {
    let view = host.view(0)?;
    Some((view.swapped, view.active, view.bad))
}

// Asserts where the frames of the machine are.
fn assert_frame_counts(rt: &impl Abort, host: &Host) {
    let counts = (host.frames(), host.free(), host.overhead_frames());
    check_eq(rt, (counts, host.state()), ((100, 96, 0), State::High));
}

// Asserts which domains there are.
fn assert_names(rt: &impl Abort, host: &Host) {
    let names = (host.len(), host.name(0), host.name(1));
    check_eq(rt, names, (1, Some("web"), None));
    check_eq(
        rt,
        (host.position("web"), host.position("c")),
        (Some(0), None),
    );
}

// The first boundary of a host of two guests, and the epoch behind it on this thread: the first guest takes two steps.
fn begin(rt: &(impl AllocGlobal + Abort), lone: &mut LoneHost) {
    lone.boundary_tells(rt, &["start web", "start db"], quiet(State::High, 94));
    lone.epoch_alone(rt, &Open);
    assert_steps_done(rt, lone.host(), 0, 2);
}

// The domains of a closed host come back in order, and a host that is made of them goes the same way.
#[test]
fn domains_come_back(rt: HostRuntime) {
    let rt = &rt;
    let steps = ["w 0 0 ff", "r 0 0 4"];
    let guests = [("web", guest(4, 4)), ("db", guest(2, 2))];
    let mut lone = LoneHost::of_guests(rt, machine(100, 0), &guests, &steps);
    check_eq(rt, lone.host().machine().frames, 100);
    begin(rt, &mut lone);
    let domains = lone.close();
    let places = (domains.position("web"), domains.position("db"));
    check_eq(rt, (domains.len(), places), (2, (Some(0), Some(1))));
    let mut again = LoneHost::new(rt, machine(100, 0), domains);
    assert_nothing_runs(rt, again.host());
    begin(rt, &mut again);
    again.close();
}

// Each of two tickets sets its own mark, and looks for the other's.
#[derive(Drop)]
struct Meeting {
    marks: [AtomicU64; 2],
    met: [AtomicU64; 2],
}

fn nobody_met() -> Meeting {
    Meeting {
        marks: [AtomicU64::new(0), AtomicU64::new(0)],
        met: [AtomicU64::new(0), AtomicU64::new(0)],
    }
}

impl Gate for Meeting {
    ghost use Rattle.std.specs.Prelude.{⊤};

    type Outside = ();

    type Inside = ();

    ghost passed = { λ _ _. ⊤ };

    ghost inside = { λ _ _ _. ⊤ };

    fn arrive(&self) {}

    fn enter(&self, _outside: (), number: u32) {
        if number >= 2 {
            return;
        }
        let mine = number as usize;
        let other = 1 - mine;
        self.marks[mine].store(1, Ordering::SeqCst);
        for _ in 0..1_000_000 {
            if self.marks[other].load(Ordering::SeqCst) == 1 {
                self.met[mine].store(1, Ordering::SeqCst);
                return;
            }
            thread::yield_now();
        }
    }

    fn leave(&self, _ran: Ran<()>, _number: u32)
        ensures { ⊤ }
    {}
}

// One thread alone fails here, in whatever order it runs the guests.
#[test]
fn two_tickets_at_once(rt: HostRuntime) {
    let rt = &rt;
    let machine = MachineSpec {
        overhead: 1,
        ..machine(100, 0)
    };
    let guests = [("a", guest(60, 60)), ("b", guest(38, 38))];
    let mut lone = LoneHost::of_guests(rt, machine, &guests, &[]);
    let gate = nobody_met();
    lone.boundary_tells(rt, &["start a", "start b"], quiet(State::Low, 0));
    lone.epoch(rt, &gate, 2);
    lone.close();
    assert_met(rt, &gate);
}

// Asserts that each ticket saw the other's mark.
fn assert_met(rt: &impl Abort, gate: &Meeting) {
    let met = [
        gate.met[0].load(Ordering::SeqCst),
        gate.met[1].load(Ordering::SeqCst),
    ];
    check_eq(rt, met, [1, 1]);
}

// A gate that does nothing, and does not say that it never waits: so an epoch on two workers is a round on threads.
struct Silent;

impl Gate for Silent {
    ghost use Rattle.std.specs.Prelude.{⊤};

    type Outside = ();

    type Inside = ();

    ghost passed = { λ _ _. ⊤ };

    ghost inside = { λ _ _ _. ⊤ };

    fn arrive(&self) {}

    fn enter(&self, _outside: (), _number: u32) {}

    fn leave(&self, _ran: Ran<()>, _number: u32)
        ensures { ⊤ }
    {}
}

#[test]
fn where_memory_is_refused_frames_add_up(rt: HostRuntime) {
    check_refusals(&rt, &Open)
}

#[test]
fn where_a_round_is_refused_memory_frames_add_up(rt: HostRuntime) {
    check_refusals(&rt, &Silent)
}

// At each request for memory that fails in turn: a boundary that lacked it leaves a host that can be read and closed, and an epoch that
// lacked it may be asked for again.
fn check_refusals(rt: &(impl AllocGlobal + Abort + Threads + Sync), gate: &(impl Gate + Sync)) {
    let mut lines = Lines::new(rt.alloc());
    lines.push("start a").expect(rt, "memory");
    let steps = ["w 0 0 0a"];
    let mut lone = LoneHost::of_guests(rt, machine(16, 4), &[("a", guest(8, 4))], &steps);
    assert_goes_on(rt, gate, &mut lone, &lines);
    assert_adds_up(rt, lone.host());
    lone.close();
}

// Asserts how a host goes on, be its boundary refused memory, its epoch, or neither.
fn assert_goes_on(
    rt: &(impl AllocGlobal + Abort + Threads + Sync),
    gate: &(impl Gate + Sync),
    lone: &mut LoneHost,
    lines: &Lines,
) {
    if let Some(error) = lone.try_boundary(rt, lines).err() {
        assert_failed(rt, gate, lone, lines, error);
    } else if lone.try_epoch(rt, gate, 2).is_err() {
        assert_asked_again(rt, gate, lone);
    }
}

// Asserts that a boundary lacked memory, and that the host has failed since.
fn assert_failed(
    rt: &(impl AllocGlobal + Abort + Threads + Sync),
    gate: &(impl Gate + Sync),
    lone: &mut LoneHost,
    lines: &Lines,
    error: HostError,
) {
    check_eq(rt, error, HostError::Memory);
    assert_first_byte(rt, lone.host(), "a", 0, None);
    let again = lone.try_boundary(rt, lines).err();
    check_eq(rt, again, Some(HostError::Failed));
    let again = lone.try_epoch(rt, gate, 2).err();
    check_eq(rt, again, Some(HostError::Failed));
}

// Asserts that an epoch changed nothing, and that the guest takes its step when it is asked for again.
fn assert_asked_again(
    rt: &(impl AllocGlobal + Abort + Threads + Sync),
    gate: &(impl Gate + Sync),
    lone: &mut LoneHost,
) {
    assert_steps_done(rt, lone.host(), 0, 0);
    let again = lone.try_epoch(rt, gate, 2).err();
    check_eq(rt, again, None);
    assert_steps_done(rt, lone.host(), 0, 1);
}

// Asserts that the free frames and those that the first guest holds are all 16.
fn assert_adds_up(rt: &impl Abort, host: &Host) {
    let held = host.view(0).map_or(0, |view| view.held);
    check_eq(rt, u64::from(host.free()) + u64::from(held), 16);
}
