// What a sample tells of the domain with a name.
ghost use Rattle.std.specs.Prelude.{◌≡◌};
ghost use Rattle.vm_log.specs.Seen.{as_steered, held_left, left_in, steered_in};
ghost use Rattle.vm_steer.specs.Entries.{names_in};
ghost use Rattle.vm_steer.specs.Names.{AreRising};

use crate::named::{is_at, place_of};
use vm_steer::{Entry, Fate, SteeredDomain};

fn as_steered(fate: &Fate) -> Option<SteeredDomain>
    ensures { result ≡ as_steered fate.now }
{
    match fate {
        Fate::Left(_) => None,
        Fate::Steered(steered) => Some(*steered),
    }
}

// What it holds where it is left alone, else 0.
fn held_left(fate: &Fate) -> u64
    ensures { result ≡ held_left fate.now }
{
    match fate {
        Fate::Left(left) => left.held,
        Fate::Steered(_) => 0,
    }
}

// What is told of it where it is steered.
pub(crate) fn steered_in(name: &[u8], entries: &[Entry]) -> Option<SteeredDomain>
    requires { AreRising (names_in entries.now) }
    ensures { result ≡ steered_in name.now entries.now }
{
    let place = place_of(entries, name);
    if is_at(entries, place, name) {
        let entry = &entries[place];
        as_steered(&entry.fate)
    } else {
        None
    }
}

// The most that it holds where it is left alone; its name may stand there several times.
pub(crate) fn left_in(name: &[u8], entries: &[Entry]) -> u64
    requires { AreRising (names_in entries.now) }
    ensures { result ≡ left_in name.now entries.now }
{
    let mut place = place_of(entries, name);
    let mut most: u64 = 0;
    while is_at(entries, place, name) {
        let entry = &entries[place];
        most = most.max(held_left(&entry.fate));
        place += 1;
    }
    most
}
