//! Results, from the order in which they were made to that of their jobs.
ghost use Rattle.std.specs.Prelude.{◌≡◌, ◌<◌, ◌≤◌, ℕ, [], length, All, vec_len, vec_capacity, slice_set};
ghost use Rattle.vm_board.specs.Sums.{times};
ghost use Rattle.vm_board.specs.Values.{values};
ghost use Rattle.vm_sweep.specs.Lanes.{numbers, IsMade, IsPlaced};

use crate::lane::Made;
use crate::offer::{Offer, put_in};
use crate::task::Task;
use vm_board::Board;

/// Puts each result in the place of its number.
pub(crate) fn place<J: Task + Drop>(
    board: &Board<Offer<J>>,
    mut made: Vec<Made<J::Done>>,
    places: &mut [Option<J::Done>],
)
    requires made { All (IsMade J.result_of board.now.jobs) made.items }
    requires places { length places.old ≡ length board.now.jobs }
    ensures placed { (n : ℕ) → 0 < times n (numbers made.items) → IsPlaced J.result_of board.now.jobs places.new n }
    ensures kept { (n : ℕ) → IsPlaced J.result_of board.now.jobs places.old n → IsPlaced J.result_of board.now.jobs places.new n }
{
    let _ = board;
    while let Some(one) = made.pop() {
        let Made { number, done } = one;
        put(places, number as usize, done);
    }
}

// Puts a result into a place.
fn put<D: Drop>(places: &mut [Option<D>], number: usize, done: D)
    requires { number < length places.old }
    ensures { places.new ≡ slice_set places.old number (Some done) }
{
    places[number] = Some(done);
}

/// The results of places that are full, in order.
pub(crate) fn collect<D>(mut places: Vec<Option<D>>, mut results: Vec<D>) -> Vec<D>
    requires { (results.items ≡ []) × (vec_len places ≤ vec_capacity results) }
    ensures { result.items ≡ values places.items }
{
    places.reverse();
    while let Some(result) = places.pop() {
        put_in(&mut results, result);
    }
    places.destroy_empty();
    results
}
