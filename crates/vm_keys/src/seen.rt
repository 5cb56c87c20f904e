// Which of the known keys were seen.
ghost use Rattle.std.specs.Prelude.{◌≡◌, ◌<◌, true, false, length, get_or, replicate, slice_set, bytes_eq, IfOk};
ghost use Rattle.std.specs.List.{position};

use std::alloc::{AllocError, Global};

// A flag for each known key.
#[derive(Drop)]
pub(crate) struct Seen {
    flags: Vec<bool>,
}

impl Seen {
    // No key is seen yet.
    pub(crate) fn new(alloc: Global, count: usize) -> Result<Seen, AllocError>
        ensures { IfOk result (λ seen. seen.flags.items ≡ replicate count false) }
    {
        let flags = vec![in alloc; false; count]?;
        Ok(Seen { flags })
    }

    // Whether the key at a place is seen; from now on it is.
    pub(crate) fn note(&mut self, place: usize) -> bool
        requires { place < length self.old.flags.items }
        ensures was { result ≡ get_or self.old.flags.items place false }
        ensures is { self.new.flags.items ≡ slice_set self.old.flags.items place true }
    {
        let was = self.flags[place];
        self.flags[place] = true;
        was
    }
}

// The place of the first known key that is this one.
pub(crate) fn place_of(known: &[&str], key: &str) -> Option<usize>
    ensures { result ≡ position (λ k. bytes_eq k.now key.now) known.now }
{
    known.iter().position(|one| *one == key)
}
