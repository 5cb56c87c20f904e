// The odd keys of an object.
ghost use Rattle.std.specs.Prelude.{◌≡◌, ◌++◌, map, length, option_map, if◌then◌else◌, IfOk, OnOk};
ghost use Rattle.std.specs.Option.{option_to_list};
ghost use Rattle.vm_json.specs.Tree.{value_view};
ghost use Rattle.vm_keys.specs.Keys.{keys_in};
ghost use Rattle.vm_keys.specs.OddKeys.{odd_keys, odd_of, twice};
ghost use Rattle.vm_keys.specs.Seen.{IsToldBehind};

use crate::near::nearest;
use crate::seen::{Seen, place_of};
use std::alloc::{AllocError, Global};
use vm_json::Value;

/// A key of a JSON object that its reader passes over.
#[derive(Clone, Copy, Debug)]
pub enum OddKey<'a, 'k> {
    /// It is none of those known. The nearest of these comes with it, as [`nearest`] finds it.
    Unknown {
        key: &'a str,
        nearest: Option<&'k str>,
    },
    /// It is known, and an earlier member has it. The last value counts.
    Twice {
        key: &'a str,
    },
}

/// The odd keys of an object's members, in the order of the text; a value that is no object has none. It takes time in proportion to
/// the members. [`AllocError`] comes only where a growth was refused.
pub fn odd_keys<'a, 'k>(
    alloc: Global,
    object: &Value<'a>,
    known: &[&'k str],
) -> Result<Vec<OddKey<'a, 'k>>, AllocError>
    ensures { IfOk result (λ odd. map odd_of odd.items ≡ odd_keys (map (λ k. k.now) known.now) (keys_in (value_view object.now))) }
{
    if let Value::Object(members) = object {
        odd_members(alloc, members, known)
    } else {
        Ok(Vec::new(alloc))
    }
}

// The same, of the members.
fn odd_members<'a, 'k>(
    alloc: Global,
    members: &[(&'a str, Value<'a>)],
    known: &[&'k str],
) -> Result<Vec<OddKey<'a, 'k>>, AllocError>
    ensures { IfOk result (λ odd. map odd_of odd.items ≡ odd_keys (map (λ k. k.now) known.now) (map (λ m. m.0.now) members.now)) }
{
    let mut odd = Vec::new(alloc);
    let mut seen = Seen::new(alloc, known.len())?;
    for (key, _) in members {
        let found = odd_key(alloc, key, known, &mut seen)?;
        add(&mut odd, found)?;
    }
    Ok(odd)
}

// Adds what is odd, if there is something.
fn add<'a, 'k>(
    odd: &mut Vec<OddKey<'a, 'k>>,
    found: Option<OddKey<'a, 'k>>,
) -> Result<(), AllocError>
    ensures ok { OnOk result (map odd_of odd.new.items ≡ map odd_of odd.old.items ++ option_to_list (option_map odd_of found.entry)) }
{
    if let Some(key) = found {
        odd.push(key)?;
    }
    Ok(())
}

// What is odd about a key, behind those of the members before it, of which the known ones are seen.
fn odd_key<'a, 'k>(
    alloc: Global,
    key: &'a str,
    known: &[&'k str],
    seen: &mut Seen,
) -> Result<Option<OddKey<'a, 'k>>, AllocError>
    requires { length seen.old.flags.items ≡ length known.now }
    ensures { IfOk result (λ found. IsToldBehind (map (λ k. k.now) known.now) key.now seen.old.flags.items seen.new.flags.items (option_map odd_of found)) }
{
    if let Some(place) = place_of(known, key) {
        return Ok(twice(seen.note(place), key));
    }
    let nearest = nearest(alloc, key, known)?;
    Ok(Some(OddKey::Unknown { key, nearest }))
}

// What is odd about a known key, by whether an earlier member has it.
fn twice<'a, 'k>(is_seen: bool, key: &'a str) -> Option<OddKey<'a, 'k>>
    ensures { option_map odd_of result ≡ (if is_seen then Some (twice key.now) else None) }
{
    if is_seen {
        Some(OddKey::Twice { key })
    } else {
        None
    }
}
