// Numbers of workers that there aren't, and two workers at once.
use super::setup::{
    FIRST_READ, LOW_AND_BACK, OVERHEAD_ADMITTED, OVERHEAD_ADMITTED_REPORT, assert_bytes,
    assert_fault, assert_reader_failed, fault_of, text, with_room,
};
use std::process::Abort;
use std::sync::atomic::{AtomicU64, Ordering};
use std::thread;
use vm_series::collect_series;
use vm_sim::{Gate, Open, Ran, RunError, run};

#[test]
fn workers_come_first(rt: HostRuntime) {
    for workers in [0, 65] {
        let mut reader = text(FIRST_READ.as_bytes());
        let mut writer = with_room(rt.alloc(), 10_000);
        let outcome = run(&rt, rt.alloc(), &Open, workers, &mut reader, &mut writer);
        assert_fault(&rt, fault_of(outcome), Some(RunError::Workers));
        assert_bytes(&rt, reader.bytes, FIRST_READ.as_bytes());
        assert_reader_failed(&rt, &reader, false);
        assert_bytes(&rt, writer.held.as_slice(), &[]);
    }
}

#[test]
fn workers_of_a_series_come_first(rt: HostRuntime) {
    for workers in [0, 65] {
        let outcome = collect_series(&rt, rt.alloc(), &Open, workers, LOW_AND_BACK.as_bytes());
        assert_fault(&rt, outcome.err(), Some(RunError::Workers));
    }
}

// Each of two guests sets its own mark, and looks for the other's.
#[derive(Drop)]
struct Meeting {
    marks: [AtomicU64; 2],
    met: [AtomicU64; 2],
}

fn nobody_met() -> Meeting {
    Meeting {
        marks: [AtomicU64::new(0), AtomicU64::new(0)],
        met: [AtomicU64::new(0), AtomicU64::new(0)],
    }
}

impl Gate for Meeting {
    ghost use Rattle.std.specs.Prelude.{⊤};

    type Outside = ();

    type Inside = ();

    ghost passed = { λ _ _. ⊤ };

    ghost inside = { λ _ _ _. ⊤ };

    fn arrive(&self) {}

    fn enter(&self, _outside: (), number: u32) {
        if number >= 2 {
            return;
        }
        let mine = number as usize;
        let other = 1 - mine;
        self.marks[mine].store(1, Ordering::SeqCst);
        for _ in 0..1_000_000 {
            if self.marks[other].load(Ordering::SeqCst) == 1 {
                self.met[mine].store(1, Ordering::SeqCst);
                return;
            }
            thread::yield_now();
        }
    }

    fn leave(&self, _ran: Ran<()>, _number: u32)
        ensures { ⊤ }
    {}
}

// Asserts that each guest met the other.
fn assert_met(rt: &impl Abort, gate: &Meeting) {
    assert!(rt; gate.met[0].load(Ordering::SeqCst) == 1 && gate.met[1].load(Ordering::SeqCst) == 1);
}

// One thread alone fails here, in whatever order it runs the guests.
#[test]
fn two_tickets_at_once(rt: HostRuntime) {
    let gate = nobody_met();
    let mut reader = text(OVERHEAD_ADMITTED.as_bytes());
    let mut writer = with_room(rt.alloc(), 10_000);
    let outcome = run(&rt, rt.alloc(), &gate, 2, &mut reader, &mut writer);
    assert_fault(&rt, fault_of(outcome), None);
    assert_bytes(
        &rt,
        writer.held.as_slice(),
        OVERHEAD_ADMITTED_REPORT.as_bytes(),
    );
    assert_met(&rt, &gate);
}
