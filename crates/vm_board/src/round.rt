//! A round of jobs, each run once.
ghost use Rattle.std.specs.Prelude.{◌≡◌, ◌<◌, ◌≤◌, length, map, All, IfOk, IfErr, OnErr, OnOk};
ghost use Rattle.vm_board.specs.Boards.{IsNew, IsOver};
ghost use Rattle.vm_board.specs.Gates.{HasPassed, PassedOnce, Rises};
ghost use Rattle.vm_board.specs.Pieces.{finished};

use crate::board::Board;
use crate::gate::Gate;
use crate::jobs::{Jobs, Refused};
use crate::pass::Pass;
use crate::work::Work;
use std::alloc::Global;
use std::thread;
use std::thread::Threads;

/// Runs each job once, on at most `workers` threads, the caller's among them, and gives the results by number.
///
/// Each thread draws a job, enters the gate, runs it, leaves the gate and finishes it, until none is left. With one
/// worker or one job there is no thread beside the caller's, and a thread that can't be started is done without. It may
/// wait for its threads to end. Where a request for memory is refused, which is only where there are jobs, they come back,
/// none run. Each number passes the gate once: a thread does so with the numbers that it drew, which rise.
pub fn run_round<R: Threads + Sync, G: Gate + Sync, J: Work + Send>(
    rt: &R,
    alloc: Global,
    gate: &G,
    workers: u32,
    jobs: Jobs<J>,
) -> Result<Jobs<J>, Refused<J>>
    requires workers { (0 < workers) × (workers ≤ 64) }
    requires few { length jobs ≤ 256 }
    requires ready { All J.ready jobs }
    ensures ok { IfOk result (λ done. done ≡ map (finished J.pieces J.piece) jobs) }
    ensures err { IfErr result (λ e. e.jobs ≡ jobs) }
    ensures memory { OnErr result (0 < length jobs) }
    ensures passed { OnOk result (PassedOnce G.passed workers (length jobs)) }
{
    if jobs.is_empty() {
        return Ok(jobs);
    }
    let seats = workers.min(jobs.len() as u32);
    let (board, mut passes) = Board::new(alloc, jobs, seats)?;
    drain_all(rt, &board, gate, seats, passes.list.as_mut_slice());
    Ok(board.close(passes))
}

// Each pass drains the board, in a thread of its own where one can be made.
fn drain_all<R: Threads + Sync, G: Gate + Sync, J: Work + Send>(
    rt: &R,
    board: &Board<J>,
    gate: &G,
    workers: u32,
    passes: &mut [Pass<J>],
)
    requires workers { 0 < workers }
    requires passes { All (IsNew board.now) passes.old }
    ensures over { All (IsOver board.now) passes.new }
    ensures passed { All (λ pass. HasPassed G.passed pass.drawn) passes.new }
    ensures rise { All (λ pass. Rises pass.drawn) passes.new }
    ensures same { length passes.new ≡ length passes.old }
{
    thread::for_each_mut(
        rt,
        passes,
        workers as usize,
        &|_: usize, pass: &mut Pass<J>|
            requires { IsNew board.now pass.now }
            ensures { IsOver board.entry.now pass.exit.now × HasPassed G.passed pass.exit.now.drawn × Rises pass.exit.now.drawn }
        { drain_new(board, gate, pass) },
    );
}

// A pass that has drawn nothing yet drains the board.
fn drain_new<G: Gate, J: Work>(board: &Board<J>, gate: &G, pass: &mut Pass<J>)
    requires { IsNew board.now pass.old }
    ensures over { IsOver board.now pass.new }
    ensures passed { HasPassed G.passed pass.new.drawn }
    ensures rises { Rises pass.new.drawn }
{
    board.drain(gate, pass)
}
