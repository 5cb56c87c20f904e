//! Jobs by number.
ghost use Rattle.std.specs.Prelude.{◌≡◌, ◌≤◌, ℕ, length, IsTrue, ◌↔◌, []};

use std::marker::Model;

/// Jobs by number: a job's number is its place in the list. Contracts see that list.
#[derive(Drop)]
pub struct Jobs<J> {
    pub(crate) list: Vec<J>,
}

impl<J> Model for Jobs<J> {
    ghost use Rattle.std.specs.Prelude.{List};

    ghost Value = { List J };

    ghost view = { λ jobs. jobs.list.items };
}

impl<J> Jobs<J> {
    /// How many jobs there are.
    pub fn len(&self) -> usize
        ensures { result ≡ length self.now }
    {
        self.list.len()
    }

    /// Whether there is no job.
    pub fn is_empty(&self) -> bool
        ensures { IsTrue result ↔ (self.now ≡ []) }
    {
        self.list.is_empty()
    }

    /// The jobs as a `Vec`, which takes no memory.
    pub fn into_vec(self) -> Vec<J>
        ensures { result.items ≡ self }
    {
        let Jobs { list } = self;
        list
    }
}

/// Takes no memory.
impl<J> From<Vec<J>> for Jobs<J> {
    ghost from_gives = { λ list jobs. jobs ≡ list.items };

    fn from(list: Vec<J>) -> Self {
        Jobs { list }
    }
}

/// A request for memory was refused. The jobs come back, and none was run.
#[derive(Drop)]
pub struct Refused<J> {
    pub jobs: Jobs<J>,
}

/// Room for the list that a board's `close` gives, made before any job is drawn. Contracts see how many jobs fit.
#[derive(Drop)]
pub struct Room<J> {
    pub(crate) list: Vec<J>,
}

impl<J> Model for Room<J> {
    ghost use Rattle.std.specs.Prelude.{◌≡◌, ℕ, [], vec_capacity};

    ghost Value = { ℕ };

    ghost view = { λ room. vec_capacity room.list };

    ghost invariant = { λ room. room.list.items ≡ [] };
}
