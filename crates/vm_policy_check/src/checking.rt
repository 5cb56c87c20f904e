// From the text of a policy to its findings.
ghost use Rattle.std.specs.Prelude.{◌≡◌, ◌++◌, IfOk, OnOk, map, option_to_list};
ghost use Rattle.vm_json.specs.Tree.{value_view};
ghost use Rattle.vm_keys.specs.OddKeys.{odd_keys, odd_of};
ghost use Rattle.vm_policy_check.specs.Findings.{findings, found_of, of_guests, of_policy, odd};
ghost use Rattle.vm_policy_check.specs.KnownKeys.{guest_keys, keys_of_guest};

use crate::finding::{Finding, Part};
use crate::known::{guest_keys, root_keys};
use crate::objects::guest_at;
use crate::policy::{cross, crowd};
use std::alloc::{AllocError, Global};
use vm_json::{ReadError, Scratch, Value};
use vm_keys::{OddKey, odd_keys};
use vm_samples::{GuestPolicy, Policy, PolicyError, read_policy};

/// The findings of the text of a policy, which is no host log but a JSON text as
/// [`read_policy`](vm_samples::read_policy) takes it.
///
/// Where it is refused its first fault is the only finding. Else come those of the root, and then guest by guest: first the odd keys,
/// as they stand in the text, and behind them, of the root, minimums of steered guests that are together more than the memory, and of
/// a guest, a greatest amount that is below its least. Keys are borrowed from the text, or, where they have escapes, from the scratch.
/// [`AllocError`] comes only where a growth was refused.
pub fn check_policy<'a>(
    alloc: Global,
    text: &'a [u8],
    scratch: &'a mut Scratch,
) -> Result<Vec<Finding<'a>>, AllocError>
    ensures { IfOk result (λ found. map found_of found.items ≡ findings text.now) }
{
    match read_policy(alloc, text) {
        Ok(policy) => match vm_json::read(alloc, text, scratch) {
            Ok(root) => findings_of(alloc, &policy, &root),
            Err(ReadError::Memory) => Err(AllocError),
            Err(ReadError::NotJson) => unreachable!(),
        },
        Err(PolicyError::Fault(fault)) => {
            let mut found = Vec::new(alloc);
            found.push(Finding::Fault(fault))?;
            Ok(found)
        }
        Err(PolicyError::Memory) => Err(AllocError),
    }
}

// Those of a policy with the root that it was read from.
fn findings_of<'a>(
    alloc: Global,
    policy: &Policy,
    root: &Value<'a>,
) -> Result<Vec<Finding<'a>>, AllocError>
    ensures { IfOk result (λ found. map found_of found.items ≡ of_policy policy.now (value_view root.now)) }
{
    let mut found = Vec::new(alloc);
    let odd = odd_keys(alloc, root, &root_keys())?;
    add_odd(&mut found, Part::Root, &odd)?;
    add(&mut found, crowd(policy))?;
    add_guests(alloc, &mut found, &policy.guests, root)?;
    Ok(found)
}

// Adds those of all guests.
fn add_guests<'a>(
    alloc: Global,
    found: &mut Vec<Finding<'a>>,
    guests: &[GuestPolicy],
    root: &Value<'a>,
) -> Result<(), AllocError>
    ensures ok { OnOk result (map found_of found.new.items ≡ map found_of found.old.items ++ of_guests (value_view root.now) 0 guests.now) }
{
    for number in 0..guests.len() {
        let odd = odd_of_guest(alloc, root, number)?;
        add_odd(found, Part::Guest(number), &odd)?;
        add(found, cross(&guests[number], number))?;
    }
    Ok(())
}

// The odd keys of a guest.
fn odd_of_guest<'a>(
    alloc: Global,
    root: &Value<'a>,
    number: usize,
) -> Result<Vec<OddKey<'a, 'static>>, AllocError>
    ensures { IfOk result (λ keys. map odd_of keys.items ≡ odd_keys guest_keys (keys_of_guest number (value_view root.now))) }
{
    match guest_at(root, number) {
        Some(guest) => odd_keys(alloc, guest, &guest_keys()),
        None => Ok(Vec::new(alloc)),
    }
}

// Adds odd keys of a part.
fn add_odd<'a>(
    found: &mut Vec<Finding<'a>>,
    part: Part,
    keys: &[OddKey<'a, 'static>],
) -> Result<(), AllocError>
    ensures ok { OnOk result (map found_of found.new.items ≡ map found_of found.old.items ++ map (odd part) (map odd_of keys.now)) }
{
    for key in keys {
        found.push(Finding::Odd { part, key: *key })?;
    }
    Ok(())
}

// Adds what is found, if there is something.
fn add<'a>(found: &mut Vec<Finding<'a>>, finding: Option<Finding<'a>>) -> Result<(), AllocError>
    ensures ok { OnOk result (map found_of found.new.items ≡ map found_of found.old.items ++ map found_of (option_to_list finding.entry)) }
{
    if let Some(finding) = finding {
        found.push(finding)?;
    }
    Ok(())
}
