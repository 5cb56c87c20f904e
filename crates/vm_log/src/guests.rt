// Guests and others that come into a recording.
ghost use Rattle.std.specs.Prelude.{◌≡◌, IfOk, OnOk, length};
ghost use Rattle.vm_log.specs.Growing.{growing_in};
ghost use Rattle.vm_log.specs.Steps.{alone_names, names_of, new_guest, new_kept, with_entries, with_fate, with_guest};
ghost use Rattle.vm_steer.specs.Look.{rules_of};
ghost use Rattle.vm_steer.specs.Names.{AreRising};

use crate::alone::add_alone;
use crate::kept::Kept;
use crate::named::{is_at, place_of};
use crate::recording::Recording;
use std::alloc::{AllocError, Global};
use vm_recorded::{Counts, RecordedGuest};
use vm_samples::Policy;
use vm_steer::{Entry, Fate, Rules, bounds_at, rules_for};

// A guest that was steered in no sample of so many epochs.
#[tactic(auto, unfolding(crate::specs::Steps::new_guest))]
fn new_guest(
    alloc: Global,
    policy: &Policy,
    rules: Rules,
    epochs: u32,
    name: &[u8],
) -> Result<RecordedGuest, AllocError>
    ensures { IfOk result (λ guest. guest ≡ new_guest policy.now.most rules epochs name.now) }
{
    let bounds = bounds_at(policy, rules, 0);
    Ok(RecordedGuest {
        name: name.to_vec(alloc)?,
        size: 0,
        min: bounds.min,
        cap: bounds.cap,
        shares: bounds.shares,
        first: epochs,
        uses: Vec::new(alloc),
    })
}

#[tactic(auto, unfolding(crate::specs::Steps::new_kept))]
fn new_kept(rules: Rules, closed: u32) -> Kept
    ensures { result ≡ new_kept rules closed }
{
    Kept {
        rules,
        is_new: true,
        first: closed,
        size: 0,
        length: 0,
        counts: Counts::none(),
    }
}

// Adds a guest with a name at its place, unless it is there. So many epochs have ended.
fn add_guest(
    alloc: Global,
    policy: &Policy,
    closed: u32,
    recording: &mut Recording,
    name: &[u8],
) -> Result<(), AllocError>
    requires rising { AreRising (names_of recording.old.guests.items) }
    requires kept { length recording.old.kept.items ≡ length recording.old.guests.items }
    ensures added { OnOk result (growing_in recording.new ≡ with_guest policy.now recording.old.epochs closed name.now (growing_in recording.old)) }
    ensures kept { OnOk result (length recording.new.kept.items ≡ length recording.new.guests.items) }
    ensures counts { OnOk result (length recording.old.counts.items ≡ length recording.old.guests.items
        → length recording.new.counts.items ≡ length recording.new.guests.items) }
    ensures epochs { recording.new.epochs ≡ recording.old.epochs }
    ensures samples { recording.new.open ≡ recording.old.open }
{
    let place = place_of(&recording.guests, name);
    if is_at(&recording.guests, place, name) {
        return Ok(());
    }
    let rules = rules_for(policy, name);
    let guest = new_guest(alloc, policy, rules, recording.epochs, name)?;
    recording.guests.insert(place, guest)?;
    recording.kept.insert(place, new_kept(rules, closed))?;
    recording.counts.push(Counts::none())?;
    Ok(())
}

fn add(
    alloc: Global,
    policy: &Policy,
    closed: u32,
    recording: &mut Recording,
    entry: &Entry,
) -> Result<(), AllocError>
    requires guests { AreRising (names_of recording.old.guests.items) }
    requires beside { AreRising (alone_names recording.old.beside.items) }
    requires kept { length recording.old.kept.items ≡ length recording.old.guests.items }
    requires counts { length recording.old.counts.items ≡ length recording.old.guests.items }
    ensures added { OnOk result (growing_in recording.new ≡ with_fate policy.now recording.old.epochs closed entry.now.name entry.now.fate (growing_in recording.old)) }
    ensures kept { OnOk result (length recording.new.kept.items ≡ length recording.new.guests.items) }
    ensures counts { OnOk result (length recording.new.counts.items ≡ length recording.new.guests.items) }
    ensures epochs { recording.new.epochs ≡ recording.old.epochs }
    ensures samples { recording.new.open ≡ recording.old.open }
{
    match entry.fate {
        Fate::Steered(_) => add_guest(alloc, policy, closed, recording, &entry.name),
        Fate::Left(_) => Ok(add_alone(alloc, &mut recording.beside, &entry.name)?),
    }
}

// Adds those that aren't there yet: who is steered as a guest, who is left alone beside them.
pub(crate) fn add_all(
    alloc: Global,
    policy: &Policy,
    closed: u32,
    recording: &mut Recording,
    entries: &[Entry],
) -> Result<(), AllocError>
    requires guests { AreRising (names_of recording.old.guests.items) }
    requires beside { AreRising (alone_names recording.old.beside.items) }
    requires kept { length recording.old.kept.items ≡ length recording.old.guests.items }
    requires counts { length recording.old.counts.items ≡ length recording.old.guests.items }
    ensures added { OnOk result (growing_in recording.new ≡ with_entries policy.now recording.old.epochs closed entries.now (growing_in recording.old)) }
    ensures kept { OnOk result (length recording.new.kept.items ≡ length recording.new.guests.items) }
    ensures counts { OnOk result (length recording.new.counts.items ≡ length recording.new.guests.items) }
    ensures epochs { recording.new.epochs ≡ recording.old.epochs }
    ensures samples { recording.new.open ≡ recording.old.open }
{
    for entry in entries {
        add(alloc, policy, closed, recording, entry)?;
    }
    Ok(())
}
