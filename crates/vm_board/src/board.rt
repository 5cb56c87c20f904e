//! The board, and the rule that holds between any two of its atomic steps.
use crate::plays::Hand;
use crate::work::Work;
use atomic_table::{Seat, Table, TableRule};
use std::alloc::Global;
use std::marker::Model;
use std::snapshot::Snapshot;

/// What a board is told when it is made.
#[derive(Drop)]
pub(crate) struct Plan<J> {
    pub(crate) jobs: Snapshot<Vec<J>>,
    pub(crate) seats: u64,
}

/// The rule of a board.
pub(crate) struct OneEach;

impl<J: Work> TableRule<Option<J>, Hand, Plan<J>> for OneEach {
    ghost use Rattle.vm_board.specs.Tickets.{IsKept};
    ghost use Rattle.vm_board.specs.Hands.{newcomer};

    ghost holds = { λ plan. IsKept J.ready J.pieces J.piece plan.jobs.value.items plan.seats };

    ghost first = { λ plan. newcomer plan.seats };
}

pub(crate) type Tickets<J> = Table<Option<J>, Hand, Plan<J>, OneEach, Global>;

pub(crate) type Place<J> = Seat<Option<J>, Hand>;

/// Jobs, which threads draw by number and give back done. It takes no lock.
///
/// Contracts see which board it is, the jobs that were put in, and how many passes it was made with.
#[derive(Drop)]
pub struct Board<J: Work> {
    pub(crate) table: Tickets<J>,
}

impl<J: Work> Model for Board<J> {
    ghost use Rattle.vm_board.specs.States.{BoardState, board_code, IsLaid};

    ghost Value = { BoardState J };

    ghost coded = { board_code J.code };

    ghost view = { λ b. record { id = b.table.shared.table_id; jobs = b.table.shared.key.jobs.value.items; seats = b.table.shared.key.seats } };

    ghost invariant = { λ b. IsLaid b.table.shared.table_id b.table.shared.key.jobs.value.items b.table.shared.key.seats };
}
