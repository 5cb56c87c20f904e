//! The kinds of atomic step on a board, as proofs see them. No value of these types is made.
ghost use Rattle.std.specs.Prelude.{List, []};
ghost use Rattle.vm_board.specs.Hands.{drew, finished_one, one_less, newcomer, merged, spent};

use crate::work::Work;
use atomic_table::{Join, Play, Split};
use std::collections::LinkedList;
use std::marker::{Brand, PhantomData};

/// What a pass knows.
pub struct Hand {
    /// How many passes it stands for.
    pub weight: u64,
    /// The numbers that it drew, in order.
    pub drawn: LinkedList<u32>,
    /// The number that it has not finished yet.
    pub number: Option<u32>,
    /// Whether it has found that no number was left.
    pub over: bool,
}

/// The jobs of a board, which a draw names.
pub(crate) trait Brief<J> {
    ghost jobs: { List J };
}

impl<J> Brief<J> for Brand {
    ghost jobs = { [] };
}

/// `fetch_add` of 1 on the ticket word: the number found goes to the pass, or the pass is over.
pub(crate) struct Draw<B> {
    marker: PhantomData<B>,
}

impl<J: Work, B: Brief<J>> Play<Option<J>, Hand> for Draw<B> {
    ghost then = { drew J.ready B.jobs };
}

/// Store of 1 on the number's own word: its slot goes home.
pub(crate) struct Finish;

impl<J> Play<Option<J>, Hand> for Finish {
    ghost then = { finished_one };
}

/// The maker of a board gives one pass of those that its seat stands for to a new seat.
pub(crate) struct Another;

impl Split<Hand> for Another {
    ghost left = { one_less };

    ghost right = { λ _. newcomer 1 };
}

/// A pass takes in what another knows, and leaves it spent.
pub(crate) struct Gather;

impl Join<Hand> for Gather {
    ghost both = { merged };

    ghost spent = { spent };
}
