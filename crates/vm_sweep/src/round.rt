//! A round of jobs, each run once, each thread with its tool.
ghost use Rattle.std.specs.Prelude.{◌≡◌, ◌<◌, ◌≤◌, ◌+◌, ℕ, [], length, map, All, IfOk, IfErr, OnErr, vec_len, vec_capacity};
ghost use Rattle.vm_board.specs.Boards.{IsNew, IsOver};
ghost use Rattle.vm_board.specs.Sums.{total, times};
ghost use Rattle.vm_sweep.specs.Offers.{offered};
ghost use Rattle.vm_sweep.specs.Lanes.{IsRoomFor, IsPlaced, ServesAll, IsReady, HasWorked};

use crate::lane::{Lane, LaneOf, Made, work_all};
use crate::offer::{Offer, put_up, take_down};
use crate::placing::{collect, place};
use crate::space::Space;
use crate::task::Task;
use std::alloc::Global;
use std::thread::Threads;
use vm_board::{Board, Jobs, Pass, Passes, Refused};

/// Runs each job once, on at most as many threads as there are tools, the caller's among them, and gives the results in the order
/// of the jobs.
///
/// Each thread has a tool, which serves one job after another. With one tool or one job there is no thread beside the caller's, and
/// a thread that can't be started is done without. It may wait for its threads to end. Where a request for memory is refused, which
/// is only where there are jobs, they come back, none run, and the tools are as they were.
pub fn run_round_with<R: Threads + Sync, J: Task + Drop + Send>(
    rt: &R,
    alloc: Global,
    jobs: Vec<J>,
    tools: &mut Vec<J::Tool>,
) -> Result<Vec<J::Done>, Refused<J>>
    requires few { vec_len jobs ≤ 256 }
    requires tools { (0 < vec_len tools.old) × (vec_len tools.old ≤ 64) }
    requires serves { All (λ tool. All (J.serves tool) jobs.items) tools.old.items }
    ensures ok { IfOk result (λ done. done.items ≡ map J.result_of jobs.items) }
    ensures err { IfErr result (λ e. e.jobs ≡ jobs.items) }
    ensures memory { OnErr result (0 < vec_len jobs) }
    ensures same { OnErr result (tools.new.items ≡ tools.old.items) }
    ensures serves { All (λ tool. All (J.serves tool) jobs.items) tools.new.items }
    ensures tools { vec_len tools.new ≡ vec_len tools.old }
{
    if jobs.is_empty() {
        return Ok(Vec::new(alloc));
    }
    if jobs.len() == 1 || tools.len() == 1 {
        return run_in_turn(alloc, jobs, &mut tools[0]);
    }
    run_in_lanes(rt, alloc, jobs, tools)
}

// Runs the jobs one after another.
fn run_in_turn<J: Task + Drop>(
    alloc: Global,
    mut jobs: Vec<J>,
    tool: &mut J::Tool,
) -> Result<Vec<J::Done>, Refused<J>>
    requires serves { All (J.serves tool.old) jobs.items }
    ensures ok { IfOk result (λ done. done.items ≡ map J.result_of jobs.items) }
    ensures err { IfErr result (λ e. e.jobs ≡ jobs.items) }
    ensures same { OnErr result (tool.new ≡ tool.old) }
    ensures serves { (job : J) → J.serves tool.old job → J.serves tool.new job }
{
    let Ok(mut results) = Vec::with_capacity(alloc, jobs.len()) else {
        return Err(Refused {
            jobs: Jobs::from(jobs),
        });
    };
    jobs.reverse();
    while let Some(job) = jobs.pop() {
        results.push_reserved(job.run(tool));
    }
    Ok(results)
}

// Runs the jobs by a board, each tool in a lane.
fn run_in_lanes<R: Threads + Sync, J: Task + Drop + Send>(
    rt: &R,
    alloc: Global,
    mut jobs: Vec<J>,
    tools: &mut Vec<J::Tool>,
) -> Result<Vec<J::Done>, Refused<J>>
    requires few { (0 < vec_len jobs) × (vec_len jobs ≤ 256) }
    requires tools { (0 < vec_len tools.old) × (vec_len tools.old ≤ 64) }
    requires serves { All (λ tool. All (J.serves tool) jobs.items) tools.old.items }
    ensures ok { IfOk result (λ done. done.items ≡ map J.result_of jobs.items) }
    ensures err { IfErr result (λ e. e.jobs ≡ jobs.items) }
    ensures same { OnErr result (tools.new.items ≡ tools.old.items) }
    ensures serves { All (λ tool. All (J.serves tool) jobs.items) tools.new.items }
    ensures tools { vec_len tools.new ≡ vec_len tools.old }
{
    let seats = jobs.len().min(tools.len());
    let Ok(mut space) = Space::new(alloc, jobs.len(), seats) else {
        return Err(Refused {
            jobs: Jobs::from(jobs),
        });
    };
    put_up(&mut jobs, &mut space.offers);
    let Space {
        offers,
        rooms,
        places,
        results,
        lanes,
    } = space;
    match Board::new(alloc, Jobs::from(offers), seats as u32) {
        Ok((board, passes)) => {
            let places = run_board(rt, board, passes, tools, rooms, lanes, places);
            Ok(collect(places, results))
        }
        Err(refused) => {
            lanes.destroy_empty();
            take_down(refused.jobs.into_vec(), &mut jobs);
            Err(Refused {
                jobs: Jobs::from(jobs),
            })
        }
    }
}

// Runs the jobs of a board, and gives the result of each in the place of its number.
fn run_board<R: Threads + Sync, J: Task + Drop + Send>(
    rt: &R,
    board: Board<Offer<J>>,
    mut passes: Passes<Offer<J>>,
    tools: &mut Vec<J::Tool>,
    rooms: Vec<Vec<Made<J::Done>>>,
    mut lanes: Vec<LaneOf<J>>,
    mut places: Vec<Option<J::Done>>,
) -> Vec<Option<J::Done>>
    requires passes { (vec_len passes.list ≡ board.seats) × All (IsNew board) passes.list.items × (length board.jobs ≤ passes.room) }
    requires tools { (vec_len passes.list ≤ vec_len tools.old) × All (ServesAll J.serves board.jobs) tools.old.items }
    requires rooms { (vec_len rooms ≡ vec_len passes.list) × All (IsRoomFor (length board.jobs)) rooms.items }
    requires lanes { (lanes.items ≡ []) × (vec_len passes.list ≤ vec_capacity lanes) }
    requires places { vec_len places ≡ length board.jobs }
    ensures placed { (n : ℕ) → n < length board.jobs → IsPlaced J.result_of board.jobs result.items n }
    ensures all { vec_len result ≡ vec_len places }
    ensures serves { All (ServesAll J.serves board.jobs) tools.new.items }
    ensures tools { vec_len tools.new ≡ vec_len tools.old }
{
    enter(&board, &mut passes.list, tools, rooms, &mut lanes);
    work_all(rt, &board, lanes.as_mut_slice());
    leave(
        &board,
        lanes,
        &mut passes.list,
        tools,
        places.as_mut_slice(),
    );
    board.close(passes);
    places
}

// Puts each pass into a lane, with a tool and with room for results.
fn enter<J: Task + Drop>(
    board: &Board<Offer<J>>,
    passes: &mut Vec<Pass<Offer<J>>>,
    tools: &mut Vec<J::Tool>,
    mut rooms: Vec<Vec<Made<J::Done>>>,
    lanes: &mut Vec<LaneOf<J>>,
)
    requires passes { (vec_len passes.old ≡ vec_len rooms) × All (IsNew board.now) passes.old.items }
    requires tools { (vec_len rooms ≤ vec_len tools.old) × All (ServesAll J.serves board.now.jobs) tools.old.items }
    requires rooms { All (IsRoomFor (length board.now.jobs)) rooms.items }
    requires lanes { (lanes.old.items ≡ []) × (vec_len rooms ≤ vec_capacity lanes.old) }
    ensures ready { All (IsReady J.serves board.now) lanes.new.items }
    ensures lanes { vec_len lanes.new ≡ vec_len rooms }
    ensures passes { (passes.new.items ≡ []) × (vec_capacity passes.new ≡ vec_capacity passes.old) }
    ensures serves { All (ServesAll J.serves board.now.jobs) tools.new.items }
    ensures tools { (vec_len tools.new + vec_len lanes.new ≡ vec_len tools.old) × (vec_capacity tools.new ≡ vec_capacity tools.old) }
{
    let _ = board;
    while let Some(made) = rooms.pop() {
        lanes.push_reserved(Lane {
            tool: tools.pop().unwrap(),
            pass: passes.pop().unwrap(),
            made,
        });
    }
}

// Takes the lanes apart: the passes and tools go back, and each result to the place of its number.
fn leave<J: Task + Drop>(
    board: &Board<Offer<J>>,
    mut lanes: Vec<LaneOf<J>>,
    passes: &mut Vec<Pass<Offer<J>>>,
    tools: &mut Vec<J::Tool>,
    places: &mut [Option<J::Done>],
)
    requires lanes { All (HasWorked J.serves J.result_of board.now) lanes.items }
    requires passes { (passes.old.items ≡ []) × (vec_len lanes ≤ vec_capacity passes.old) }
    requires tools { (vec_len tools.old + vec_len lanes ≤ vec_capacity tools.old) × All (ServesAll J.serves board.now.jobs) tools.old.items }
    requires places { length places.old ≡ length board.now.jobs }
    ensures over { (vec_len passes.new ≡ vec_len lanes) × All (IsOver board.now) passes.new.items }
    ensures placed { (n : ℕ) → 0 < total (λ p. times n p.drawn) passes.new.items → IsPlaced J.result_of board.now.jobs places.new n }
    ensures serves { All (ServesAll J.serves board.now.jobs) tools.new.items }
    ensures tools { vec_len tools.new ≡ vec_len tools.old + vec_len lanes }
{
    while let Some(lane) = lanes.pop() {
        let Lane { tool, pass, made } = lane;
        tools.push_reserved(tool);
        passes.push_reserved(pass);
        place(board, made, places);
    }
    lanes.destroy_empty();
}
