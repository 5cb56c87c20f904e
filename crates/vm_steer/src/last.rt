// What is remembered from the last good sample.
ghost use Rattle.std.specs.Prelude.{◌≡◌, ◌<◌, IfOk, length, map};
ghost use Rattle.vm_steer.specs.Entries.{names_in, remembered_at, remembered_in, remembered_of};
ghost use Rattle.vm_steer.specs.Names.{AreRising};

use crate::fate::Fate;
use crate::names::{is_at, place_near};
use crate::remembered::Remembered;
use crate::told::Entry;
use std::alloc::{AllocError, Global};

fn name_of(entry: &Entry) -> &[u8]
    ensures { result.now ≡ entry.now.name }
{
    entry.name.as_slice()
}

// The names of domains.
pub(crate) fn names_in(alloc: Global, entries: &[Entry]) -> Result<Vec<&[u8]>, AllocError>
    ensures { IfOk result (λ names. map (λ n. n.now) names.items ≡ names_in entries.now) }
{
    let mut names = Vec::with_capacity(alloc, entries.len())?;
    for entry in entries {
        names.push(name_of(entry))?;
    }
    Ok(names)
}

// What is remembered of a domain.
fn remembered_of(fate: &Fate) -> Option<Remembered>
    ensures { result ≡ remembered_of fate.now }
{
    match fate {
        Fate::Left(left) => left.remembered,
        Fate::Steered(steered) => Some(steered.remembered),
    }
}

fn remembered_by(entry: &Entry) -> Option<Remembered>
    ensures { result ≡ remembered_of entry.now.fate }
{
    remembered_of(&entry.fate)
}

fn remembered_at(entries: &[Entry], place: usize) -> Option<Remembered>
    requires { place < length entries.now }
    ensures { result ≡ remembered_at entries.now place }
{
    remembered_by(&entries[place])
}

// What is remembered of the domain with a name. The names are those of the entries, in order; the hint
// may well be its place.
pub(crate) fn remembered_in(
    names: &[&[u8]],
    hint: usize,
    entries: &[Entry],
    name: &[u8],
) -> Option<Remembered>
    requires names { map (λ n. n.now) names.now ≡ names_in entries.now }
    requires rising { AreRising (names_in entries.now) }
    ensures { result ≡ remembered_in entries.now name.now }
{
    let place = place_near(names, hint, name);
    if is_at(names, place, name) {
        remembered_at(entries, place)
    } else {
        None
    }
}
