//! What a thread draws and finishes with.
use crate::jobs::Room;
use crate::plays::Hand;
use atomic_table::Seat;
use std::marker::Model;

/// The right of one thread to draw jobs from a board.
///
/// Contracts see whose pass it is, the numbers that it drew, the number in its hand, and whether it is over.
#[derive(Drop)]
pub struct Pass<J> {
    pub(crate) seat: Seat<Option<J>, Hand>,
    pub(crate) over: bool,
}

impl<J> Model for Pass<J> {
    ghost use Rattle.vm_board.specs.States.{PassState, pass_code};
    ghost use Rattle.vm_board.specs.Hands.{IsSeated};

    ghost Value = { PassState };

    ghost coded = { pass_code };

    ghost view = { λ p. record { board = p.seat.table_id; drawn = p.seat.me.0.drawn; number = p.seat.me.0.number; over = p.over } };

    ghost invariant = { λ p. IsSeated p.seat.me p.over };
}

/// The passes of a board, and the room for the list that its `close` gives.
///
/// Hand the passes out, and put them all back before the board is closed. Their order does not matter.
#[derive(Drop)]
pub struct Passes<J> {
    pub list: Vec<Pass<J>>,
    pub room: Room<J>,
}
