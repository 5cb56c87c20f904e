//! That a job was run.
ghost use Rattle.std.specs.Prelude.{◌≡◌};
ghost use Rattle.vm_board.specs.Pieces.{finished};

use crate::work::Work;
use std::marker::Model;
use std::snapshot::Snapshot;

/// What a thread has in its hand inside a gate, once it ran the job for which it entered. It reads as what is in the hand.
#[derive(Drop)]
pub struct Ran<T> {
    inside: T,
}

impl<T> Model for Ran<T> {
    ghost Value = { T };

    ghost coded = { T.code };

    ghost view = { λ r. r.inside };
}

impl<T> Ran<T> {
    /// Asks for the job as it was and as it is: it has to have been run between.
    pub fn of<J: Work>(inside: T, put: Snapshot<J>, job: &J) -> Ran<T>
        requires run { job.now ≡ finished J.pieces J.piece put.value }
        ensures { result ≡ inside }
    {
        let _ = (put, job);
        Ran { inside }
    }

    /// What is in the hand, with which the gate lets the thread out.
    pub fn into_inside(self) -> T
        ensures { result ≡ self }
    {
        let Ran { inside } = self;
        inside
    }
}
