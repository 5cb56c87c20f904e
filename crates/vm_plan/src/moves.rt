//! The positions of a plan, one after another.
ghost use Rattle.std.specs.Iterator.{YieldsFirst, item_count};

use crate::stretch::Stretch;
use std::marker::Model;

/// The positions of a plan that are left, one for each page, in order. It reads as the list of them.
#[derive(Debug, Drop)]
pub struct Moves<'a> {
    position: u32,
    // How often it still comes.
    count: u32,
    // What comes then.
    later: &'a [Stretch],
}

impl<'a> Model for Moves<'a> {
    ghost use Rattle.std.specs.Prelude.{ℕ, List, ◌++◌, replicate};
    ghost use Rattle.vm_plan.specs.Growth.{AreCounted};
    ghost use Rattle.vm_plan.specs.Stretches.{moves_of};

    ghost Value = { List ℕ };

    ghost view = { λ m. replicate m.count m.position ++ moves_of m.later.now };

    ghost invariant = { λ m. AreCounted m.later.now };
}

impl<'a> Moves<'a> {
    ghost use Rattle.std.specs.Prelude.{◌≡◌};
    ghost use Rattle.vm_plan.specs.Growth.{AreCounted};
    ghost use Rattle.vm_plan.specs.Stretches.{moves_of};

    // The positions of these stretches.
    pub(crate) fn of(stretches: &'a [Stretch]) -> Self
        requires { AreCounted stretches.now }
        ensures { result ≡ moves_of stretches.now }
    {
        Self {
            position: 0,
            count: 0,
            later: stretches,
        }
    }
}

impl<'a> Iterator for Moves<'a> {
    type Item = u32;

    ghost next_gives = { YieldsFirst (λ left. left) };

    ghost remaining = { item_count (λ left. left) };

    fn next(&mut self) -> Option<u32> {
        if self.count == 0 {
            let (first, later) = self.later.split_first()?;
            self.position = first.position;
            self.count = first.count;
            self.later = later;
        }
        self.count -= 1;
        Some(self.position)
    }
}
