//! Rounds of jobs on threads, with no lock.
//!
//! A [`Board`] holds jobs by number. Threads draw numbers from it with a [`Pass`] each, run the jobs and give them back;
//! [`run_round`] does all of that for a list of jobs. One atomic step is one draw (a single `fetch_add` on the ticket
//! word) or one finish (a single store on that number's word), so no thread ever waits for another to draw or finish.
//!
//! **Proved**, for every kind of job, gate, number of passes and order of steps: a round gives each job's result by number, and a
//! refused one hands the jobs back ([`run_round`]: `ok`, `err`), as a refused board does. A draw gives the job put at its number,
//! and nothing only where the pass is over (`draw`); a finish takes only the result of the job in hand (`finish`); a drained pass
//! is over (`drain`); closing gives the results by number, each drawn exactly once (`close`: `results`, `once`). The law of a round
//! is [`law_interleave`]; [`law_board`] says that a board's words and passes show that round. `draw`, `finish` and `close` can't
//! wait and take no memory. Of the gate, whatever it is: a job goes through by entering with its number, running and leaving
//! (`passed`, `ran`); a pass takes its numbers through in rising order (`rises`); after a round at most as many threads as asked
//! for have passed, and together with each number once (`PassedOnce`). A gate is handed at `enter` what it gave at `arrive` or
//! `leave`, and at `leave` what it gave at `enter`; where its `Inside` can be neither copied nor dropped, each comes back. Of a
//! gate whose `passed` holds of anything the clauses say nothing.
//!
//! **Only tested**: that two threads run at once; that one worker is one thread; that a refused round lets no job into the gate.
//! **Not claimed**: that a number is finished only after its job has left the gate; progress, fairness, that a thread can be
//! started, order between threads, time.
#![tactic(auto)]

mod board;
mod closing;
mod gate;
mod jobs;
mod law;
mod making;
mod pass;
mod plays;
mod ran;
mod round;
mod steps;
mod work;

pub use board::Board;
pub use gate::{Gate, Open, pass_through};
pub use jobs::{Jobs, Refused, Room};
pub use law::{law_board, law_interleave};
pub use pass::{Pass, Passes};
pub use ran::Ran;
pub use round::run_round;
pub use work::Work;
