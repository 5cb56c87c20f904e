// A host as it is recorded, sample by sample.
ghost use Rattle.std.specs.Prelude.{◌≡◌, ◌+◌, ◌<◌, ◌≤◌, ◌++◌, ◌∷◌, [], ℕ, IfOk, IfSome, List, None, OnOk, length};
ghost use Rattle.vm_log.specs.Following.{Follows, IsEndedWith, IsTakenWith};
ghost use Rattle.vm_log.specs.Growing.{hosted_in};
ghost use Rattle.vm_log.specs.Judging.{IsJudged};
ghost use Rattle.vm_recorded.specs.Limits.{limit_of, limit_with_bytes};
ghost use Rattle.vm_samples.specs.Policies.{PolicyView};
ghost use Rattle.vm_steer.specs.Entries.{EntryView};
ghost use Rattle.vm_log.specs.Sampling.{ended_by, HasAdded, HasKept, HasTakenBack, IsReady, IsUsable};

use crate::alone::{Alone, keep_beside, raise_beside, take_back_beside};
use crate::closing::{keep_all, take_back_all};
use crate::counting::count_all;
use crate::guests::add_all;
use crate::judging::{limit_of, limit_with_bytes};
use crate::kept::Kept;
use crate::raising::raise_all;
use std::alloc::{AllocError, Global};
use vm_recorded::{Counts, Limit, RecordedGuest};
use vm_samples::Policy;
use vm_steer::Entry;

// All samples are in the guests, those of the open epoch too.
#[derive(Debug, Drop)]
pub(crate) struct Recording {
    // In the order of their names.
    pub(crate) guests: Vec<RecordedGuest>,
    // For each guest what it was without the open epoch.
    pub(crate) kept: Vec<Kept>,
    // For each guest what its uses come to.
    pub(crate) counts: Vec<Counts>,
    // Who was left alone, in the order of names.
    pub(crate) beside: Vec<Alone>,
    // How many epochs there are, with the open one.
    pub(crate) epochs: u32,
    // How many samples the open epoch has; 0 where none is open.
    pub(crate) open: u32,
}

impl Recording {
    // Before the first sample.
    pub(crate) fn new(alloc: Global) -> Self
        ensures { (policy : PolicyView) (every : ℕ) → 1 ≤ every → Follows policy every [] result }
    {
        Recording {
            guests: Vec::new(alloc),
            kept: Vec::new(alloc),
            counts: Vec::new(alloc),
            beside: Vec::new(alloc),
            epochs: 0,
            open: 0,
        }
    }
}

// How many epochs have ended.
fn ended_by(samples: u32, epochs: u32) -> u32
    ensures { result ≡ ended_by samples epochs }
{
    if samples == 0 {
        epochs
    } else {
        epochs.saturating_sub(1)
    }
}

// Takes a sample into the open epoch, or into a new one where none is open.
pub(crate) fn add_sample(
    alloc: Global,
    policy: &Policy,
    recording: &mut Recording,
    entries: &[Entry],
) -> Result<(), AllocError>
    requires ready { IsReady recording.old }
    requires usable { IsUsable entries.now }
    ensures { OnOk result (HasAdded policy.now entries.now recording.old recording.new) }
{
    let closed = ended_by(recording.open, recording.epochs);
    add_all(alloc, policy, closed, recording, entries)?;
    raise_all(
        policy,
        closed,
        &recording.kept,
        &mut recording.guests,
        entries,
    )?;
    count_all(
        closed,
        &recording.kept,
        &recording.guests,
        &mut recording.counts,
    );
    raise_beside(&mut recording.beside, entries);
    recording.epochs = closed + 1;
    recording.open += 1;
    Ok(())
}

// The open epoch has ended.
fn keep(recording: &mut Recording)
    requires kept { length recording.old.kept.items ≡ length recording.old.guests.items }
    requires counts { length recording.old.counts.items ≡ length recording.old.guests.items }
    ensures { HasKept recording.old recording.new }
{
    keep_all(&recording.guests, &recording.counts, &mut recording.kept);
    keep_beside(&mut recording.beside);
    recording.open = 0;
}

// Takes the open epoch back.
pub(crate) fn take_back(policy: &Policy, recording: &mut Recording)
    requires { length recording.old.kept.items ≡ length recording.old.guests.items }
    ensures { HasTakenBack policy.now recording.old recording.new }
{
    take_back_all(policy, &recording.kept, &mut recording.guests);
    take_back_beside(&mut recording.beside);
    recording.epochs = ended_by(recording.open, recording.epochs);
}

// The limit that is passed with the last sample; that of bytes is judged at the end of each epoch.
fn limit_at(policy: &Policy, every: u32, recording: &Recording) -> Option<Limit>
    requires { IsJudged recording.now }
    ensures ends { recording.now.open ≡ every → result ≡ limit_with_bytes (hosted_in policy.now recording.now) }
    ensures goes_on { recording.now.open < every → result ≡ limit_of (hosted_in policy.now recording.now) }
{
    if recording.open == every {
        limit_with_bytes(policy, recording)
    } else {
        limit_of(recording)
    }
}

// Keeps the open epoch where it is full.
fn keep_full(every: u32, recording: &mut Recording)
    requires kept { length recording.old.kept.items ≡ length recording.old.guests.items }
    requires counts { length recording.old.counts.items ≡ length recording.old.guests.items }
    ensures full { recording.old.open ≡ every → HasKept recording.old recording.new }
    ensures more { recording.old.open < every → recording.new ≡ recording.old }
{
    if recording.open == every {
        keep(recording);
    }
}

// Takes the open epoch back where a limit is passed with its last sample, and keeps it where it is full.
fn settle(policy: &Policy, every: u32, recording: &mut Recording) -> Option<Limit>
    requires judged { IsJudged recording.old }
    requires kept { length recording.old.kept.items ≡ length recording.old.guests.items }
    requires counts { length recording.old.counts.items ≡ length recording.old.guests.items }
    ensures ends { recording.old.open ≡ every → result ≡ limit_with_bytes (hosted_in policy.now recording.old) }
    ensures goes_on { recording.old.open < every → result ≡ limit_of (hosted_in policy.now recording.old) }
    ensures passed { IfSome result (λ _. HasTakenBack policy.now recording.old recording.new) }
    ensures full { result ≡ None → recording.old.open ≡ every → HasKept recording.old recording.new }
    ensures more { result ≡ None → recording.old.open < every → recording.new ≡ recording.old }
{
    match limit_at(policy, every, recording) {
        Some(limit) => {
            take_back(policy, recording);
            Some(limit)
        }
        None => {
            keep_full(every, recording);
            None
        }
    }
}

// Takes a sample where no limit is passed with it. So many samples make an epoch.
pub(crate) fn take_sample(
    alloc: Global,
    policy: &Policy,
    every: u32,
    recording: &mut Recording,
    entries: &[Entry],
) -> Result<Option<Limit>, AllocError>
    requires some { 1 ≤ every }
    requires few { every ≤ 10000 }
    requires follows { (samples : List (List EntryView)) × Follows policy.now every samples recording.old }
    requires usable { IsUsable entries.now }
    ensures { (samples : List (List EntryView)) → Follows policy.now every samples recording.old
        → IfOk result (IsTakenWith policy.now every (samples ++ entries.now ∷ []) recording.new) }
{
    add_sample(alloc, policy, recording, entries)?;
    Ok(settle(policy, every, recording))
}

// Ends behind the last sample.
pub(crate) fn end(policy: &Policy, every: u32, recording: &mut Recording) -> Option<Limit>
    requires some { 1 ≤ every }
    requires few { every ≤ 10000 }
    requires follows { (samples : List (List EntryView)) × Follows policy.now every samples recording.old }
    ensures { (samples : List (List EntryView)) → Follows policy.now every samples recording.old → IsEndedWith policy.now every samples recording.new result }
{
    let _every = every;
    match limit_with_bytes(policy, recording) {
        Some(limit) => {
            take_back(policy, recording);
            Some(limit)
        }
        None => None,
    }
}
