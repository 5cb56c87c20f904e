//! Numbers in order, and the one in the middle.
ghost use Rattle.std.specs.Prelude.{◌≡◌, ◌-◌, length};
ghost use Rattle.vm_sweep.specs.Medians.{ends, in_order, middle, number_at, over_seeds};

use vm_drawing::Spread;

/// What the runs with several seeds come to in a number.
#[derive(Clone, Copy, Debug, PartialEq, Eq)]
pub struct OverSeeds {
    /// The number in the middle, of an even count of runs the lower of the two.
    pub median: u64,
    /// From the least to the greatest.
    pub spread: Spread,
}

// Puts numbers in order.
fn put_in_order(numbers: &mut Vec<u64>)
    ensures { numbers.new.items ≡ in_order numbers.old.items }
{
    numbers.sort_unstable();
}

// The number at a place.
fn number_at(numbers: &[u64], place: usize) -> u64
    ensures { result ≡ number_at numbers.now place }
{
    numbers.get(place).copied().unwrap_or(0)
}

// Of numbers in order the place of the last.
fn last_place(ordered: &[u64]) -> usize
    ensures { result ≡ length ordered.now - 1 }
{
    ordered.len().saturating_sub(1)
}

// Of numbers in order the one in the middle.
fn middle(ordered: &[u64]) -> u64
    ensures { result ≡ middle ordered.now }
{
    number_at(ordered, last_place(ordered) / 2)
}

// Of numbers in order the least and the greatest.
fn ends(ordered: &[u64]) -> Spread
    ensures { result ≡ ends ordered.now }
{
    Spread {
        least: number_at(ordered, 0),
        greatest: number_at(ordered, last_place(ordered)),
    }
}

/// What numbers, one for each seed, come to.
pub(crate) fn over_seeds(numbers: Vec<u64>) -> OverSeeds
    ensures { result ≡ over_seeds numbers.items }
{
    let mut ordered = numbers;
    put_in_order(&mut ordered);
    OverSeeds {
        median: middle(&ordered),
        spread: ends(&ordered),
    }
}
