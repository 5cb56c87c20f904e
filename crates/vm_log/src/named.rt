// Things in the order of their names, byte by byte.
ghost use Rattle.std.specs.Prelude.{◌≡◌, ◌≤◌, length, map};
ghost use Rattle.vm_log.specs.HostOf.{is_among};
ghost use Rattle.vm_steer.specs.Names.{is_before, place_of, stands_at, AreRising};

use crate::alone::Alone;
use std::cmp::Ordering;
use vm_recorded::RecordedGuest;
use vm_steer::Entry;

// What has a name.
pub(crate) trait Named {
    ghost use Rattle.std.specs.Prelude.{List, ℕ};

    ghost name_of: { Self → List ℕ };

    fn name(&self) -> &[u8]
        ensures { result.now ≡ name_of self.now };
}

impl Named for Entry {
    ghost name_of = { λ e. e.name };

    fn name(&self) -> &[u8] {
        self.name.as_slice()
    }
}

impl Named for RecordedGuest {
    ghost name_of = { λ g. g.name };

    fn name(&self) -> &[u8] {
        self.name.as_slice()
    }
}

impl Named for Alone {
    ghost name_of = { λ a. a.name };

    fn name(&self) -> &[u8] {
        self.name.as_slice()
    }
}

// Whether a name stands in front of another.
#[tactic(auto, unfolding(vm_steer::specs::Names::is_before))]
fn is_before(name: &[u8], other: &[u8]) -> bool
    ensures { result ≡ is_before name.now other.now }
{
    match name.cmp(&other) {
        Ordering::Less => true,
        Ordering::Equal | Ordering::Greater => false,
    }
}

// How many have names that stand in front of this one.
pub(crate) fn place_of<T: Named>(items: &[T], name: &[u8]) -> usize
    requires { AreRising (map T.name_of items.now) }
    ensures exact { result ≡ place_of (map T.name_of items.now) name.now }
    ensures within { result ≤ length items.now }
{
    let mut low = 0;
    let mut high = items.len();
    while low < high {
        let middle = low + (high - low) / 2;
        if is_before(items[middle].name(), name) {
            low = middle + 1;
        } else {
            high = middle;
        }
    }
    low
}

// Whether what stands at a place has this name.
pub(crate) fn is_at<T: Named>(items: &[T], place: usize, name: &[u8]) -> bool
    ensures { result ≡ stands_at (map T.name_of items.now) place name.now }
{
    if place < items.len() {
        *items[place].name() == *name
    } else {
        false
    }
}

// Whether one of them has this name.
pub(crate) fn is_among<T: Named>(items: &[T], name: &[u8]) -> bool
    requires { AreRising (map T.name_of items.now) }
    ensures { result ≡ is_among (map T.name_of items.now) name.now }
{
    is_at(items, place_of(items, name), name)
}
