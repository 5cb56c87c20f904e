//! Closing a board.
ghost use Rattle.std.specs.Prelude.{◌≡◌, ◌≤◌, ◌+◌, ℕ, length, [], map, None, true, All, vec_len, vec_capacity};
ghost use Rattle.std.specs.Mem.Slots.{IsFull, slots_len, slots_items};
ghost use Rattle.vm_board.specs.Pieces.{finished};
ghost use Rattle.vm_board.specs.Sums.{total, times};
ghost use Rattle.vm_board.specs.Values.{values};
ghost use Rattle.vm_board.specs.Boards.{IsOver, EachDrawnOnce};

use crate::board::{Board, Place};
use crate::jobs::{Jobs, Room};
use crate::making::put_in;
use crate::pass::{Pass, Passes};
use crate::plays::Gather;
use crate::work::Work;
use atomic_table::Closed;
use std::alloc::Global;

impl<J: Work> Board<J> {
    /// The result of each job, by number. Takes no memory.
    ///
    /// All passes have to be back, each over and empty-handed. Together they drew each number exactly once.
    pub fn close(self, passes: Passes<J>) -> Jobs<J>
        requires all { vec_len passes.list ≡ self.seats }
        requires over { All (IsOver self) passes.list.items }
        requires room { length self.jobs ≤ passes.room }
        ensures results { result ≡ map (finished J.pieces J.piece) self.jobs }
        ensures once { EachDrawnOnce (length self.jobs) passes.list.items }
    {
        let Passes { list, room } = passes;
        let seat = self.merge(list);
        let Board { table } = self;
        let Room { list } = room;
        Jobs {
            list: gather(table.close_with(seat), list),
        }
    }

    // One seat in the place of all passes.
    fn merge(&self, mut passes: Vec<Pass<J>>) -> Place<J>
        requires passes { (vec_len passes ≡ self.now.seats) × All (IsOver self.now) passes.items }
        ensures table { result.table_id ≡ self.now.id }
        ensures whole { (result.me.0.weight ≡ self.now.seats) × (result.me.0.over ≡ true) × (result.me.0.number ≡ None) }
        ensures drawn { (n : ℕ) → times n result.me.0.drawn ≡ total (λ p. times n p.drawn) passes.items }
    {
        let words = &self.table.shared;
        let Some(first) = passes.pop() else {
            unreachable!()
        };
        let Pass { mut seat, over: _ } = first;
        while let Some(other) = passes.pop() {
            let Pass {
                seat: theirs,
                over: _,
            } = other;
            words.join_seat::<Gather>(&mut seat, theirs);
        }
        passes.destroy_empty();
        seat
    }
}

// The jobs of a table that no thread shares any more, by number.
fn gather<J>(mut closed: Closed<Option<J>, Global>, mut room: Vec<J>) -> Vec<J>
    requires full { IsFull closed.words × IsFull closed.slots }
    requires room { (room.items ≡ []) × (slots_len closed.slots ≤ vec_capacity room) }
    ensures { result.items ≡ values (slots_items closed.slots) }
{
    for i in 0..closed.slot_count() {
        put_in(&mut room, closed.take(i));
    }
    closed.free();
    room
}
