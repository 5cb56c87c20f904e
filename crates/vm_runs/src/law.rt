// What holds of a run at each boundary and after each epoch, and at every moment of it on any number of workers.
ghost use Rattle.std.specs.Prelude.{Bool, List};
ghost use Rattle.vm_board.specs.Rounds.{Entry};
ghost use Rattle.vm_guest.specs.Record.{GuestRecord};
ghost use Rattle.vm_runs.specs.Rounds.{LawOfRuns, GoesOnWhileHeld, LeavesAnotherHost, all_done};
ghost use Rattle.vm_runs.specs.Served.{LawOfCourse};

use vm_guest::{law_good, law_last_write, law_pieces};
use vm_host::law_boundary;

/// Where one worker serves the guests in order, frames add up at each boundary and after each epoch, each record is good, each byte
/// of guest memory is that of the last write, and so is each byte that is read in an epoch. So it is for every machine, all domains
/// within the limits, whatever the lines of each boundary, and for any number of epochs.
pub fn law_course()
    ensures { LawOfCourse }
{
    law_boundary();
    law_last_write();
}

/// After every list of events, boundaries among them, of such a run: the last boundary left what it leaves where one worker serves
/// the guests in order, each running guest is one number in one place, no worker has two, and each guest's record is the one that
/// the boundary left with its first pieces done. So at every moment, inside a round too, frames held, free and set aside add up to
/// the machine, each record is good, and each byte that was read so far is that of the last write. Where all numbers are done, the
/// host is that after the epoch of one worker.
pub fn law_rounds()
    ensures { LawOfRuns all_done }
{
    law_course();
    law_pieces();
    law_good();
    law_last_write();
}

/// A boundary has to wait until all numbers are done: the law of runs is false of each core whose boundary goes on while a worker
/// holds a guest. What such a boundary leaves is not what it leaves where one worker serves the guests in order.
pub fn law_boundary_waits()
    ensures host { (is_over : List (Entry GuestRecord) → Bool) → GoesOnWhileHeld is_over → LeavesAnotherHost is_over }
    ensures law { (is_over : List (Entry GuestRecord) → Bool) → GoesOnWhileHeld is_over → LawOfRuns is_over → ⊥ }
{}
