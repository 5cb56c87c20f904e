//! What a thread calls round the run of a job.
ghost use Rattle.std.specs.Prelude.{◌≡◌, ◌++◌, ◌∷◌, ℕ, List, []};
ghost use Rattle.vm_board.specs.Pieces.{finished};

use crate::ran::Ran;
use crate::work::Work;
use std::snapshot::Snapshot;

/// It is entered with a job's number before the job is run, and left with that number after.
///
/// Threads share one gate. It never sees a job, so it can change no result. Each thread has one value of the gate's own in its hand,
/// which the gate gives and takes: it enters with the one of outside and leaves with the one of inside, which [`Ran`] holds once the
/// job was run. So no thread leaves before the run, or enters anew before it left.
///
/// `passed` and `inside` are what the gate makes of it. Who calls it knows nothing of them, so that the only way to a value that has
/// passed with some numbers is through the gate with each, in that order.
pub trait Gate {
    /// What a thread has in its hand outside.
    type Outside: Drop + Send;

    /// What it has in its hand inside.
    type Inside: Send;

    /// It passed with these numbers, one after the other.
    ghost passed: { Self.Outside → List ℕ → Type 0 };

    /// It passed with these numbers, and is inside with this one.
    ghost inside: { Self.Inside → List ℕ → ℕ → Type 0 };

    /// Called by each thread before its first job was drawn.
    fn arrive(&self) -> Self::Outside
        ensures { passed result [] };

    /// Called after the job was drawn, before it is run.
    fn enter(&self, outside: Self::Outside, number: u32) -> Self::Inside
        ensures { (before : List ℕ) → passed outside before → inside result before number };

    /// Called after the job was run, before it is finished.
    fn leave(&self, ran: Ran<Self::Inside>, number: u32) -> Self::Outside
        ensures { (before : List ℕ) → inside ran before number → passed result (before ++ number ∷ []) };

    /// Whether neither call ever waits, whatever threads passed before: then who has little to do may go through it in one thread, with
    /// no round. No, unless a gate says so.
    fn never_waits(&self) -> bool {
        false
    }
}

/// A thread takes a job through the gate: it enters with the job's number, runs the job and leaves.
pub fn pass_through<G: Gate, J: Work>(
    gate: &G,
    outside: G::Outside,
    number: u32,
    job: &mut J,
) -> G::Outside
    requires ready { J.ready job.old }
    ensures ran { job.new ≡ finished J.pieces J.piece job.old }
    ensures passed { (before : List ℕ) → G.passed outside before → G.passed result (before ++ number ∷ []) }
{
    let inside = gate.enter(outside, number);
    let put = Snapshot::of(job);
    job.run();
    gate.leave(Ran::of(inside, put, job), number)
}

/// The gate that does nothing, and remembers nothing.
#[derive(Clone, Copy, Debug)]
pub struct Open;

impl Gate for Open {
    ghost use Rattle.std.specs.Prelude.{⊤};

    type Outside = ();

    type Inside = ();

    ghost passed = { λ _ _. ⊤ };

    ghost inside = { λ _ _ _. ⊤ };

    fn arrive(&self) {}

    fn enter(&self, _outside: (), _number: u32) {}

    fn leave(&self, _ran: Ran<()>, _number: u32)
        ensures { ⊤ }
    {}

    fn never_waits(&self) -> bool {
        true
    }
}
