// The guests of a policy.
ghost use Rattle.std.specs.Prelude.{◌≡◌, ◌≤◌, ◌<◌, ◌++◌, ◌∷◌, [], ◌+◌, bytes_eq, false, true, length, map, vec_len, IfErr, IfOk, OnErr, OnOk};
ghost use Rattle.std.specs.List.{list_any};
ghost use Rattle.vm_json.specs.View.{view};
ghost use Rattle.vm_samples.specs.declared.place.Place.TheVariants.{Guest};
ghost use Rattle.vm_samples.specs.Names.{is_name};
ghost use Rattle.vm_samples.specs.Policies.{names_of, IsGuestPolicy};
ghost use Rattle.vm_samples.specs.PolicyOf.{guest_at, guests_at, has_name, name_in};
ghost use Rattle.vm_samples.specs.Guests.{said_of, AreGuests};
ghost use Rattle.vm_samples.specs.Seen.{seen, Answers, AnswersOrMemory, ReadsPolicy};

use crate::fault::{PolicyError, PolicyFault, Wrong, at};
use crate::keys::{found, least_units, most_units, number_or, text_in, truth_or};
use crate::names::is_name;
use crate::place::{Key, Place};
use crate::policy::GuestPolicy;
use std::alloc::{AllocError, Global};
use vm_json::Value;

// What is said of a guest, by its name.
#[derive(Clone, Copy)]
struct Said<'a> {
    name: &'a str,
    min: Option<u64>,
    max: Option<u64>,
    shares: u32,
    steer: bool,
}

// Whether this is the name of a guest.
fn is_named(guest: &GuestPolicy, name: &str) -> bool
    ensures { result ≡ bytes_eq guest.now.name name.now }
{
    guest.name.as_str() == name
}

// Whether a guest has this name.
fn has_name(guests: &[GuestPolicy], name: &str) -> bool
    ensures { result ≡ has_name name.now guests.now }
{
    guests.iter().any(|guest| is_named(guest, name))
}

// A name that no earlier guest has.
fn name_in<'a>(found: Option<&Value<'a>>, earlier: &[GuestPolicy]) -> Result<&'a str, Wrong>
    ensures name { Answers result (λ s. s.now) (name_in earlier.now (seen found.entry)) }
    ensures is_name { IfOk result (λ s. is_name s.now ≡ true) }
    ensures new_name { IfOk result (λ s. has_name s.now earlier.now ≡ false) }
{
    let name = text_in(found)?;
    if !is_name(name.as_bytes()) {
        return Err(Wrong::NotAName);
    }
    if has_name(earlier, name) {
        return Err(Wrong::Twice);
    }
    Ok(name)
}

// A key of a guest as a place.
fn place(guest: usize, key: Key) -> Place
    ensures { result ≡ Guest guest key }
{
    Place::Guest { guest, key }
}

// What is said of the guest behind these ones.
#[tactic(auto, unfolding(crate::specs::PolicyOf::guest_at))]
fn said_of<'a>(
    unit: u32,
    earlier: &[GuestPolicy],
    object: &Value<'a>,
) -> Result<Said<'a>, PolicyFault>
    requires { 1 ≤ unit }
    ensures guest { Answers result said_of (guest_at unit earlier.now (view object.now)) }
    ensures within { IfOk result (λ said. IsGuestPolicy (said_of said)) }
    ensures new_name { IfOk result (λ said. has_name said.name.now earlier.now ≡ false) }
{
    let guest = earlier.len();
    let name = at(
        place(guest, Key::Name),
        name_in(found(object, Key::Name), earlier),
    )?;
    let min = at(
        place(guest, Key::Min),
        least_units(unit, found(object, Key::Min)),
    )?;
    let max = at(
        place(guest, Key::Max),
        most_units(unit, found(object, Key::Max)),
    )?;
    let shares = at(
        place(guest, Key::Shares),
        number_or(found(object, Key::Shares), 1, 1_000_000, 1000),
    )?;
    let steer = at(
        place(guest, Key::Steer),
        truth_or(found(object, Key::Steer), true),
    )?;
    Ok(Said {
        name,
        min,
        max,
        shares: shares as u32,
        steer,
    })
}

// The same, with the name in memory of its own.
fn guest_of(alloc: Global, said: Said<'_>) -> Result<GuestPolicy, AllocError>
    requires { IsGuestPolicy (said_of said) }
    ensures { IfOk result (λ guest. guest ≡ said_of said.entry) }
{
    let name = String::from_str(alloc, said.name)?;
    Ok(GuestPolicy {
        name,
        min: said.min,
        max: said.max,
        shares: said.shares,
        steer: said.steer,
    })
}

// The guest behind these ones.
fn guest_at(
    alloc: Global,
    unit: u32,
    earlier: &[GuestPolicy],
    object: &Value<'_>,
) -> Result<GuestPolicy, PolicyError>
    requires { 1 ≤ unit }
    ensures guest { ReadsPolicy result (guest_at unit earlier.now (view object.now)) }
    ensures within { IfOk result IsGuestPolicy }
    ensures new_name { IfOk result (λ guest. has_name guest.name earlier.now ≡ false) }
{
    let said = said_of(unit, earlier, object)?;
    let guest = guest_of(alloc, said)?;
    Ok(guest)
}

// Adds a guest at the end.
fn add(guests: &mut Vec<GuestPolicy>, guest: GuestPolicy) -> Result<(), AllocError>
    ensures { OnOk result (guests.new.items ≡ guests.old.items ++ guest ∷ []) }
{
    guests.push(guest)?;
    Ok(())
}

// The guests, one by one.
pub(crate) fn guests_at(
    alloc: Global,
    unit: u32,
    objects: &[Value<'_>],
) -> Result<Vec<GuestPolicy>, PolicyError>
    requires unit { 1 ≤ unit }
    requires few { length objects.now ≤ 256 }
    ensures guests { AnswersOrMemory result (λ v. v.items) (guests_at unit (map view objects.now) []) }
    ensures within { IfOk result (λ v. AreGuests v.items) }
{
    let mut guests = Vec::new(alloc);
    for object in objects {
        let guest = guest_at(alloc, unit, &guests, object)?;
        add(&mut guests, guest)?;
    }
    Ok(guests)
}
