// The values of a range.
ghost use Rattle.std.specs.Prelude.{◌≡◌, ◌≤◌, ◌<◌, ◌+◌, ◌*◌, ◌^◌, All, length, slice_get, Some};
ghost use Rattle.vm_lists.specs.Ranges.{range_of};

use std::marker::Model;

// The values of an item: so many from this one on, with this step between them.
#[derive(Debug, Drop)]
pub(crate) struct Spaced {
    from: u32,
    step: u64,
    count: u64,
}

impl Model for Spaced {
    ghost use Rattle.std.specs.Prelude.{ℕ, List, ◌+◌, ◌-◌, ◌*◌, ◌≤◌, ◌<◌, ◌^◌};
    ghost use Rattle.vm_lists.specs.Ranges.{spaced};

    ghost Value = { List ℕ };

    ghost view = { λ s. spaced s.from s.step s.count };

    ghost invariant = { λ s. (s.from + (s.count - 1) * s.step < 2 ^ 32) × (s.count ≤ 2 ^ 32) };
}

impl Spaced {
    // The values of a range.
    pub(crate) fn range(from: u32, to: u32, step: u64) -> Self
        requires ordered { from ≤ to }
        requires step { 0 < step }
        ensures exact { result ≡ range_of from to step }

        // None is outside, and the next one would be.
        ensures within { All (λ value. (from ≤ value) × (value ≤ to)) result }
        ensures last { to < from + length result * step }
    {
        Spaced {
            from,
            step,
            count: u64::from(to - from) / step + 1,
        }
    }

    // How many values there are.
    pub(crate) fn len(&self) -> u64
        ensures exact { result ≡ length self.now }
        ensures bound { result ≤ 2 ^ 32 }
    {
        self.count
    }

    // The value at a place.
    pub(crate) fn value_at(&self, place: u64) -> u32
        requires { place < length self.now }
        ensures { slice_get self.now place ≡ Some result }
    {
        (u64::from(self.from) + place * self.step) as u32
    }
}
