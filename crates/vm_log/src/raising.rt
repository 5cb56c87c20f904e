// What a guest used in the open epoch, sample by sample.
ghost use Rattle.std.specs.Prelude.{◌≡◌, ◌+◌, ◌<◌, ◌≤◌, ◌^◌, ◌++◌, ◌∷◌, [], All, IfSome, None, OnOk, Some, length, replicate};
ghost use Rattle.vm_log.specs.Seen.{steered_in};
ghost use Rattle.vm_log.specs.Steps.{gap_of, is_less, raised_all, raised_by, raised_last, raised_uses, resized};
ghost use Rattle.vm_log.specs.Told.{AreFew};
ghost use Rattle.vm_steer.specs.Entries.{names_in};
ghost use Rattle.vm_steer.specs.Names.{AreRising};

use crate::entries::steered_in;
use crate::kept::Kept;
use std::alloc::AllocError;
use vm_recorded::{RecordedGuest, Use};
use vm_samples::Policy;
use vm_steer::{Entry, Rules, SteeredDomain, bounds_at};

fn is_less(told: Option<u32>, used: u32) -> bool
    ensures { result ≡ is_less told used }
{
    match told {
        Some(units) => units < used,
        None => true,
    }
}

// The last use, at least so much.
fn raise_last(uses: &mut [Use], used: u32)
    requires some { 0 < length uses.old }
    requires few { used ≤ 262144 }
    ensures { uses.new ≡ raised_last uses.old used }
{
    let last = uses.len() - 1;
    if !is_less(uses[last].get(), used) {
        return;
    }
    uses[last] = Use::of(used);
}

// A use behind so many epochs without one.
fn push_use(uses: &mut Vec<Use>, gap: u32, used: u32) -> Result<(), AllocError>
    requires { used ≤ 262144 }
    ensures { OnOk result (uses.new.items ≡ uses.old.items ++ (replicate gap None ++ Some used ∷ [])) }
{
    let mut left = gap;
    while left > 0 {
        uses.push(Use::none())?;
        left -= 1;
    }
    uses.push(Use::of(used))?;
    Ok(())
}

// The use in the open epoch, at least so much; so many uses are those of epochs that have ended.
fn raise_use(uses: &mut Vec<Use>, long: usize, gap: u32, used: u32) -> Result<(), AllocError>
    requires { used ≤ 262144 }
    ensures { OnOk result (uses.new.items ≡ raised_uses long gap uses.old.items used) }
{
    if uses.len() > long {
        raise_last(uses, used);
        return Ok(());
    }
    push_use(uses, gap, used)
}

// How many epochs without a use lie between the last one and the open epoch.
pub(crate) fn gap_of(kept: &Kept, epoch: u32) -> u32
    ensures exact { result ≡ gap_of kept.now epoch }
    ensures few { result ≤ epoch }
{
    (epoch.saturating_sub(kept.first) as usize).saturating_sub(kept.length) as u32
}

// The numbers that the policy gives it at a size.
pub(crate) fn resize(policy: &Policy, rules: Rules, guest: &mut RecordedGuest, size: u32)
    ensures { guest.new ≡ resized policy.now.most rules guest.old size }
{
    let bounds = bounds_at(policy, rules, size);
    guest.size = size;
    guest.min = bounds.min;
    guest.cap = bounds.cap;
    guest.shares = bounds.shares;
}

// A guest that is steered in a sample of the open epoch.
#[tactic(auto, unfolding(crate::specs::Steps::raised_by))]
fn raise_steered(
    policy: &Policy,
    epoch: u32,
    kept: &Kept,
    guest: &mut RecordedGuest,
    seen: &SteeredDomain,
) -> Result<(), AllocError>
    requires { seen.now.used ≤ 262144 }
    ensures { OnOk result (guest.new ≡ raised_by policy.now.most epoch kept.now guest.old (Some seen.now)) }
{
    let size = guest.size.max(seen.size);
    resize(policy, kept.rules, guest, size);
    guest.first = kept.first;
    raise_use(&mut guest.uses, kept.length, gap_of(kept, epoch), seen.used)
}

// One that isn't: where it was steered in none, each epoch is in front of its first.
#[tactic(auto, unfolding(crate::specs::Steps::raised_by))]
fn pass_over(policy: &Policy, epoch: u32, kept: &Kept, guest: &mut RecordedGuest)
    requires { epoch + 1 < 2 ^ 32 }
    ensures { guest.new ≡ raised_by policy.now.most epoch kept.now guest.old None }
{
    let _policy = policy;
    let _kept = kept;
    if guest.uses.is_empty() {
        guest.first = epoch + 1;
    }
}

fn raise(
    policy: &Policy,
    epoch: u32,
    kept: &Kept,
    guest: &mut RecordedGuest,
    entries: &[Entry],
) -> Result<(), AllocError>
    requires rising { AreRising (names_in entries.now) }
    requires few { AreFew entries.now }
    requires epoch { epoch + 1 < 2 ^ 32 }
    ensures { OnOk result (guest.new ≡ raised_by policy.now.most epoch kept.now guest.old (steered_in guest.old.name entries.now)) }
{
    match steered_in(&guest.name, entries) {
        Some(seen) => raise_steered(policy, epoch, kept, guest, &seen)?,
        None => pass_over(policy, epoch, kept, guest),
    }
    Ok(())
}

// All guests with one sample more of the open epoch, the one of this number.
pub(crate) fn raise_all(
    policy: &Policy,
    epoch: u32,
    kept: &[Kept],
    guests: &mut [RecordedGuest],
    entries: &[Entry],
) -> Result<(), AllocError>
    requires same { length kept.now ≡ length guests.old }
    requires rising { AreRising (names_in entries.now) }
    requires few { AreFew entries.now }
    requires epoch { epoch + 1 < 2 ^ 32 }
    ensures { OnOk result (guests.new ≡ raised_all policy.now.most epoch entries.now kept.now guests.old) }
{
    for place in 0..guests.len() {
        raise(policy, epoch, &kept[place], &mut guests[place], entries)?;
    }
    Ok(())
}
