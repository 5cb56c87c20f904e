// A host under test, and what it tells.
ghost use Rattle.std.specs.Prelude.{◌≤◌};

use super::setup::{Shape, add_guest};
use crate::tests::check_eq;
use std::process::Abort;
use std::thread::Threads;
use vm_host::{
    Boundary, Domains, Gate, Host, HostError, Lines, MachineSpec, Open, Outcome, PageRead, Paged,
    Plan, State,
};

// A host, of which no clause says more than that it is one.
pub(super) struct LoneHost {
    host: Host,
}

impl LoneHost {
    pub(super) fn new(
        rt: &(impl AllocGlobal + Abort),
        machine: MachineSpec,
        domains: Domains,
    ) -> LoneHost {
        match Host::new(rt.alloc(), machine, domains) {
            Ok(host) => LoneHost { host },
            Err(_domains) => panic!(rt; "memory"),
        }
    }

    // A host of these guests, none of which runs yet. The first has these steps to take, the others have none.
    pub(super) fn of_guests(
        rt: &(impl AllocGlobal + Abort),
        machine: MachineSpec,
        guests: &[(&str, Shape)],
        steps: &[&str],
    ) -> LoneHost {
        let mut domains = Domains::new(rt.alloc());
        add_guests(rt, &mut domains, guests, steps);
        LoneHost::new(rt, machine, domains)
    }

    // A boundary for which memory may be refused.
    pub(super) fn try_boundary(
        &mut self,
        rt: &impl AllocGlobal,
        lines: &Lines,
    ) -> Result<Boundary, HostError> {
        self.host.boundary(rt.alloc(), lines)
    }

    // A boundary with these lines.
    fn boundary(&mut self, rt: &(impl AllocGlobal + Abort), lines: Lines) -> Boundary {
        self.try_boundary(rt, &lines).expect(rt, "memory")
    }

    // Asserts what a boundary with these lines tells.
    pub(super) fn boundary_tells(
        &mut self,
        rt: &(impl AllocGlobal + Abort),
        lines: &[&str],
        told: Told,
    ) {
        let boundary = self.boundary(rt, lines_of(rt, lines));
        check_eq(rt, history_by(&boundary), told);
    }

    // Asserts what becomes of each line of a boundary, and what it tells.
    pub(super) fn boundary_answers(
        &mut self,
        rt: &(impl AllocGlobal + Abort),
        wanted: &[(&str, Outcome)],
        told: Told,
    ) {
        let boundary = self.boundary(rt, lines_wanted(rt, wanted));
        assert_answers(rt, &boundary, wanted, told);
    }

    // An epoch for which memory may be refused.
    pub(super) fn try_epoch(
        &mut self,
        rt: &(impl AllocGlobal + Abort + Threads + Sync),
        gate: &(impl Gate + Sync),
        workers: u32,
    ) -> Result<(), HostError>
        requires { (1 ≤ workers) × (workers ≤ 64) }
    {
        assert!(rt; self.host.ready());
        self.host.epoch(rt, rt.alloc(), gate, workers)
    }

    // The epoch behind it.
    pub(super) fn epoch(
        &mut self,
        rt: &(impl AllocGlobal + Abort + Threads + Sync),
        gate: &(impl Gate + Sync),
        workers: u32,
    )
        requires { (1 ≤ workers) × (workers ≤ 64) }
    {
        self.try_epoch(rt, gate, workers).expect(rt, "memory");
        assert!(rt; !self.host.ready());
    }

    // Asserts what the boundary of a round with these lines tells.
    pub(super) fn round_tells(
        &mut self,
        rt: &(impl AllocGlobal + Abort + Threads + Sync),
        lines: &[&str],
        told: Told,
    ) {
        self.boundary_tells(rt, lines, told);
        self.epoch(rt, &Open, 1);
    }

    // Asserts what becomes of each line of a round, and what its boundary tells.
    pub(super) fn round_answers(
        &mut self,
        rt: &(impl AllocGlobal + Abort + Threads + Sync),
        wanted: &[(&str, Outcome)],
        told: Told,
    ) {
        self.boundary_answers(rt, wanted, told);
        self.epoch(rt, &Open, 1);
    }

    // What can be read of it.
    pub(super) fn host(&self) -> &Host {
        &self.host
    }

    // The epoch behind it, on this thread.
    pub(super) fn epoch_alone(&mut self, rt: &impl Abort, gate: &impl Gate) {
        assert!(rt; self.host.ready());
        self.host.epoch_alone(gate).expect(rt, "memory");
        assert!(rt; !self.host.ready());
    }

    pub(super) fn close(self) -> Domains {
        let LoneHost { host } = self;
        host.close()
    }
}

// Adds guests, of which the first has these steps to take.
fn add_guests(
    rt: &(impl AllocGlobal + Abort),
    domains: &mut Domains,
    guests: &[(&str, Shape)],
    steps: &[&str],
) {
    for (place, (name, shape)) in guests.iter().enumerate() {
        if place == 0 {
            add_guest(rt, domains, name, *shape, steps);
        } else {
            add_guest(rt, domains, name, *shape, &[]);
        }
    }
}

// Lines with these texts.
fn lines_of(rt: &(impl AllocGlobal + Abort), texts: &[&str]) -> Lines {
    let mut lines = Lines::new(rt.alloc());
    for text in texts {
        lines.push(text).expect(rt, "memory");
    }
    lines
}

// Lines of which each is to come to this.
fn lines_wanted(rt: &(impl AllocGlobal + Abort), wanted: &[(&str, Outcome)]) -> Lines {
    let mut lines = Lines::new(rt.alloc());
    for (line, _) in wanted {
        lines.push(line).expect(rt, "memory");
    }
    lines
}

// What a boundary told of the first guest and of the second.
#[derive(Clone, Copy, Debug, PartialEq, Eq)]
pub(super) struct Told {
    pub(super) state: State,
    pub(super) free: u32,
    // How often each target fell.
    pub(super) revoked: [usize; 2],
    // How often each target rose.
    pub(super) granted: [usize; 2],
    // How often each target fell for the first line.
    pub(super) taken: [usize; 2],
    // The one guest that gave up frames.
    pub(super) paged: Option<Paged>,
    // The one guest that is blocked.
    pub(super) blocked: Option<u32>,
}

// A boundary that takes and gives nothing.
pub(super) fn quiet(state: State, free: u32) -> Told {
    Told {
        state,
        free,
        revoked: [0, 0],
        granted: [0, 0],
        taken: [0, 0],
        paged: None,
        blocked: None,
    }
}

// How often a position is told.
fn count_of(plan: &Plan, position: u32) -> usize {
    let mut count = 0usize;
    for stretch in plan.stretches() {
        if stretch.position == position {
            count = count.saturating_add(stretch.count as usize);
        }
    }
    count
}

// How often the first guest is told, and the second.
fn counts_of(plan: &Plan) -> [usize; 2] {
    [count_of(plan, 0), count_of(plan, 1)]
}

// The only one of a list, if there is one.
fn only<T: Copy>(items: &[T]) -> Option<T> {
    let first = items.first()?;
    if items.len() == 1 { Some(*first) } else { None }
}

// How often the targets of the first guest and of the second fell for the first line.
fn taken_by(boundary: &Boundary) -> [usize; 2] {
    match boundary.answers.as_slice().first() {
        Some(answer) => counts_of(answer.revocations()),
        None => [0, 0],
    }
}

fn history_by(boundary: &Boundary) -> Told {
    Told {
        state: boundary.state,
        free: boundary.free,
        revoked: counts_of(&boundary.revoked),
        granted: counts_of(&boundary.granted),
        taken: taken_by(boundary),
        paged: only(boundary.paged.as_slice()),
        blocked: only(boundary.blocked.as_slice()),
    }
}

// Each line was answered with its text, and came to this. The boundary told this.
fn assert_answers(rt: &impl Abort, boundary: &Boundary, wanted: &[(&str, Outcome)], told: Told) {
    let answers = boundary.answers.as_slice();
    check_eq(rt, answers.len(), wanted.len());
    for (answer, (line, outcome)) in answers.iter().zip(wanted) {
        check_eq(rt, (answer.line(), answer.outcome()), (*line, *outcome));
    }
    check_eq(rt, (wanted, history_by(boundary)), (wanted, told));
}

// The target of a guest, the frames that it holds, and the pages in its balloon.
fn sizes_of(host: &Host, position: usize) -> Option<(u32, u32, u32)> {
    let view = host.view(position)?;
    Some((view.target, view.held, view.balloon))
}

// How many steps of its trace a guest has done.
fn steps_done(host: &Host, position: usize) -> Option<u32> {
    Some(host.view(position)?.done)
}

// The first byte of a page, where it is shown.
fn first_byte(host: &Host, name: &str, page: u32) -> Option<u8> {
    let mut bytes = [7; 4096];
    if host.peek(name, page, &mut bytes) {
        Some(bytes[0])
    } else {
        None
    }
}

// Asserts how many steps of its trace a guest has done.
pub(super) fn assert_steps_done(rt: &impl Abort, host: &Host, position: usize, done: u32) {
    check_eq(rt, steps_done(host, position), Some(done));
}

// Asserts the target of a guest that runs, the frames that it holds, and the pages in its balloon.
pub(super) fn assert_sizes(rt: &impl Abort, host: &Host, position: usize, sizes: (u32, u32, u32)) {
    check_eq(rt, sizes_of(host, position), Some(sizes));
}

// Asserts the first byte of a page, or that it can't be seen.
pub(super) fn assert_first_byte(
    rt: &impl Abort,
    host: &Host,
    name: &str,
    page: u32,
    byte: Option<u8>,
) {
    check_eq(rt, first_byte(host, name, page), byte);
}

// Asserts the reads of the first guest, which runs.
pub(super) fn assert_reads(rt: &impl Abort, host: &Host, reads: &[PageRead]) {
    check_eq(rt, host.reads(0), Some(reads));
}
