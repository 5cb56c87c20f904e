//! What holds of every round, whatever the order of its workers' steps.
ghost use Rattle.std.specs.Prelude.{List, ℕ};
ghost use Rattle.vm_board.specs.Rounds.{Event, IsInterleaved};
ghost use Rattle.vm_board.specs.Shown.{ShowsRounds};

use crate::work::Work;

/// After every list of events each number stands in one place, no worker has two, and an event of one worker
/// changes no job of another. Where all are done, the jobs by number are the results of the jobs put in.
pub fn law_interleave<J: Work>()
    ensures { (jobs : List J) (events : List Event) → IsInterleaved J.pieces J.piece jobs events }
{}

/// A board shows the round, by its words and by what its passes know: it begins with the round in which all jobs wait,
/// each draw and each finish on its words is that event of the round, and splitting or joining passes is none.
pub fn law_board<J: Work>()
    ensures { (jobs : List J) (seats : ℕ) → ShowsRounds J.ready J.pieces J.piece jobs seats }
{}
