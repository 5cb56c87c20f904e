// Names in order, byte by byte.
ghost use Rattle.std.specs.Prelude.{◌≡◌, ◌≤◌, length, map};
ghost use Rattle.std.specs.Bool.{OnTrue};
ghost use Rattle.vm_steer.specs.Names.{is_before, place_of, stands_at, stands_twice, AreRising};

use std::cmp::Ordering;

// Whether a name stands in front of another.
#[tactic(auto, unfolding(crate::specs::Names::is_before))]
fn is_before(name: &[u8], other: &[u8]) -> bool
    ensures { result ≡ is_before name.now other.now }
{
    match name.cmp(&other) {
        Ordering::Less => true,
        Ordering::Equal | Ordering::Greater => false,
    }
}

// How many names stand in front of this one.
pub(crate) fn place_of(names: &[&[u8]], name: &[u8]) -> usize
    requires { AreRising (map (λ n. n.now) names.now) }
    ensures exact { result ≡ place_of (map (λ n. n.now) names.now) name.now }
    ensures within { result ≤ length names.now }
{
    let mut low = 0;
    let mut high = names.len();
    while low < high {
        let middle = low + (high - low) / 2;
        if is_before(names[middle], name) {
            low = middle + 1;
        } else {
            high = middle;
        }
    }
    low
}

// Whether this is the name at a place.
pub(crate) fn is_at(names: &[&[u8]], place: usize, name: &[u8]) -> bool
    ensures { result ≡ stands_at (map (λ n. n.now) names.now) place name.now }
{
    if place < names.len() {
        *names[place] == *name
    } else {
        false
    }
}

// Whether a name stands at a place, and at none before.
fn is_first(names: &[&[u8]], place: usize, name: &[u8]) -> bool
    requires { AreRising (map (λ n. n.now) names.now) }
    ensures exact { OnTrue result (place ≡ place_of (map (λ n. n.now) names.now) name.now) }
    ensures within { OnTrue result (place ≤ length names.now) }
{
    if place == 0 {
        return is_at(names, place, name);
    }
    is_at(names, place, name) && !is_at(names, place - 1, name)
}

// How many names stand in front of this one, which may well be so many.
pub(crate) fn place_near(names: &[&[u8]], hint: usize, name: &[u8]) -> usize
    requires { AreRising (map (λ n. n.now) names.now) }
    ensures exact { result ≡ place_of (map (λ n. n.now) names.now) name.now }
    ensures within { result ≤ length names.now }
{
    if is_first(names, hint, name) {
        hint
    } else {
        place_of(names, name)
    }
}

// Whether a name stands twice among names in order: at its place, and right behind. The hint may well be its place.
pub(crate) fn stands_twice(names: &[&[u8]], hint: usize, name: &[u8]) -> bool
    requires { AreRising (map (λ n. n.now) names.now) }
    ensures { result ≡ stands_twice (map (λ n. n.now) names.now) name.now }
{
    let place = place_near(names, hint, name);
    is_at(names, place, name) && is_at(names, place + 1, name)
}
