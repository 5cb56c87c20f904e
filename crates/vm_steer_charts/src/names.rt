// Names in order, byte by byte.
ghost use Rattle.std.specs.Prelude.{◌≡◌, ◌<◌, ◌≤◌, [], OnOk, length, map, slice_index_or};
ghost use Rattle.vm_steer.specs.Names.{is_before, place_of, stands_at, AreRising};
ghost use Rattle.vm_steer_charts.specs.Values.{found_at, with_name};

use std::alloc::{AllocError, Global};
use std::cmp::Ordering;

// Whether a name stands in front of another.
#[tactic(auto, unfolding(vm_steer::specs::Names::is_before))]
fn is_before(name: &[u8], other: &[u8]) -> bool
    ensures { result ≡ is_before name.now other.now }
{
    match name.cmp(&other) {
        Ordering::Less => true,
        Ordering::Equal | Ordering::Greater => false,
    }
}

// The name at a place.
pub(crate) fn name_at(names: &[Vec<u8>], place: usize) -> &[u8]
    requires { place < length names.now }
    ensures { result.now ≡ slice_index_or (map (λ n. n.items) names.now) place [] }
{
    names[place].as_slice()
}

// How many names stand in front of this one.
fn place_of(names: &[Vec<u8>], name: &[u8]) -> usize
    requires { AreRising (map (λ n. n.items) names.now) }
    ensures exact { result ≡ place_of (map (λ n. n.items) names.now) name.now }
    ensures within { result ≤ length names.now }
{
    let mut low = 0;
    let mut high = names.len();
    while low < high {
        let middle = low + (high - low) / 2;
        if is_before(name_at(names, middle), name) {
            low = middle + 1;
        } else {
            high = middle;
        }
    }
    low
}

// Whether this is the name at a place.
fn is_at(names: &[Vec<u8>], place: usize, name: &[u8]) -> bool
    ensures { result ≡ stands_at (map (λ n. n.items) names.now) place name.now }
{
    if place < names.len() {
        *name_at(names, place) == *name
    } else {
        false
    }
}

// The place of a name that stands among these.
pub(crate) fn find_name(names: &[Vec<u8>], name: &[u8]) -> Option<usize>
    requires { AreRising (map (λ n. n.items) names.now) }
    ensures { result ≡ found_at (map (λ n. n.items) names.now) name.now }
{
    let place = place_of(names, name);
    if is_at(names, place, name) {
        Some(place)
    } else {
        None
    }
}

// Puts a name at its place, if it isn't there.
pub(crate) fn add_name(
    alloc: Global,
    names: &mut Vec<Vec<u8>>,
    name: &[u8],
) -> Result<(), AllocError>
    requires rising { AreRising (map (λ n. n.items) names.old.items) }
    ensures added { OnOk result (map (λ n. n.items) names.new.items ≡ with_name name.now (map (λ n. n.items) names.old.items)) }
    ensures rising { OnOk result (AreRising (map (λ n. n.items) names.new.items)) }
{
    let place = place_of(names, name);
    if !is_at(names, place, name) {
        names.insert(place, Vec::from_slice(alloc, name)?)?;
    }
    Ok(())
}
