//! A thread's pass and its tool, and what it made with them.
ghost use Rattle.std.specs.Prelude.{◌≡◌, ◌<◌, length, All};
ghost use Rattle.vm_board.specs.Boards.{IsNew, IsOver};
ghost use Rattle.vm_sweep.specs.Lanes.{numbers, IsRoomFor, IsMade, ServesAll, IsReady, HasWorked};

use crate::offer::Offer;
use crate::task::Task;
use std::thread;
use std::thread::Threads;
use vm_board::{Board, Pass};

/// The result of the job at a number.
#[derive(Drop)]
pub(crate) struct Made<D> {
    pub(crate) number: u32,
    pub(crate) done: D,
}

/// What a thread works with.
pub(crate) struct Lane<J, T, D> {
    pub(crate) tool: T,
    pub(crate) pass: Pass<Offer<J>>,
    pub(crate) made: Vec<Made<D>>,
}

/// The lane of a kind of task.
pub(crate) type LaneOf<J> = Lane<J, <J as Task>::Tool, <J as Task>::Done>;

/// Each lane works until no number is left, in a thread of its own where one can be made.
pub(crate) fn work_all<R: Threads + Sync, J: Task + Drop + Send>(
    rt: &R,
    board: &Board<Offer<J>>,
    lanes: &mut [LaneOf<J>],
)
    requires some { 0 < length lanes.old }
    requires ready { All (IsReady J.serves board.now) lanes.old }
    ensures worked { All (HasWorked J.serves J.result_of board.now) lanes.new }
    ensures same { length lanes.new ≡ length lanes.old }
{
    let threads = lanes.len();
    thread::for_each_mut(
        rt,
        lanes,
        threads,
        &|_: usize, lane: &mut LaneOf<J>|
            requires { IsReady J.serves board.now lane.now }
            ensures { HasWorked J.serves J.result_of board.entry.now lane.exit.now }
        { work(board, lane) },
    );
}

// A lane that has drawn nothing yet works until no number is left.
fn work<J: Task + Drop>(board: &Board<Offer<J>>, lane: &mut LaneOf<J>)
    requires { IsReady J.serves board.now lane.old }
    ensures { HasWorked J.serves J.result_of board.now lane.new }
{
    run_drawn(board, &mut lane.tool, &mut lane.pass, &mut lane.made)
}

// Draws a number, runs its job with the tool and finishes it, until none is left.
fn run_drawn<J: Task + Drop>(
    board: &Board<Offer<J>>,
    tool: &mut J::Tool,
    pass: &mut Pass<Offer<J>>,
    made: &mut Vec<Made<J::Done>>,
)
    requires pass { IsNew board.now pass.old }
    requires tool { ServesAll J.serves board.now.jobs tool.old }
    requires made { IsRoomFor (length board.now.jobs) made.old }
    ensures over { IsOver board.now pass.new }
    ensures tool { ServesAll J.serves board.now.jobs tool.new }
    ensures drawn { numbers made.new.items ≡ pass.new.drawn }
    ensures results { All (IsMade J.result_of board.now.jobs) made.new.items }
{
    while let Some((number, offer)) = board.draw(pass) {
        let Offer { job } = offer;
        let done = job.unwrap().run(tool);
        made.push_reserved(Made { number, done });
        board.finish(pass, number, Offer { job: None });
    }
}
