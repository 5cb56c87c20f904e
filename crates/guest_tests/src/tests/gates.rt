// Counters for gates, and a gate that boards and pools are both tested with.
use crate::tests::check_eq;
use std::process::Abort;
use std::sync::atomic::{AtomicU64, Ordering};
use std::{array, thread};
use vm_board::{Gate, Ran};

// Counters at 0.
pub(super) fn zeros<const N: usize>() -> [AtomicU64; N] {
    array::from_fn(|_: usize| AtomicU64::new(0))
}

// Each of two tickets sets its own mark, and looks for the other's.
#[derive(Drop)]
pub(super) struct Meeting {
    marks: [AtomicU64; 2],
    met: [AtomicU64; 2],
}

pub(super) fn nobody_met() -> Meeting {
    Meeting {
        marks: zeros(),
        met: zeros(),
    }
}

// Asserts that each of the two tickets saw the other's mark.
pub(super) fn check_met(rt: &impl Abort, gate: &Meeting) {
    let met = [
        gate.met[0].load(Ordering::SeqCst),
        gate.met[1].load(Ordering::SeqCst),
    ];
    check_eq(rt, met, [1, 1]);
}

// Asserts that the first ticket didn't see the second one's mark.
pub(super) fn check_first_alone(rt: &impl Abort, gate: &Meeting) {
    check_eq(rt, gate.met[0].load(Ordering::SeqCst), 0);
}

impl Gate for Meeting {
    ghost use Rattle.std.specs.Prelude.{⊤};

    type Outside = ();

    type Inside = ();

    ghost passed = { λ _ _. ⊤ };

    ghost inside = { λ _ _ _. ⊤ };

    fn arrive(&self) {}

    fn enter(&self, _outside: (), number: u32) {
        if number >= 2 {
            return;
        }
        let mine = number as usize;
        let other = 1 - mine;
        self.marks[mine].store(1, Ordering::SeqCst);
        for _ in 0..1_000_000 {
            if self.marks[other].load(Ordering::SeqCst) == 1 {
                self.met[mine].store(1, Ordering::SeqCst);
                return;
            }
            thread::yield_now();
        }
    }

    fn leave(&self, _ran: Ran<()>, _number: u32)
        ensures { ⊤ }
    {}
}
