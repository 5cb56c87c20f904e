// Which limit of a configuration text a recording passes.
ghost use Rattle.std.specs.Prelude.{◌≡◌, ◌≤◌, None, length};
ghost use Rattle.vm_log.specs.Growing.{hosted_in};
ghost use Rattle.vm_log.specs.Judging.{longest_of, steps_of, IsJudged};
ghost use Rattle.vm_log.specs.Steps.{names_of};
ghost use Rattle.vm_recorded.specs.Limits.{is_long, limit_of, limit_with_bytes, or_bytes};
ghost use Rattle.vm_samples.specs.Policies.{PolicyView};
ghost use Rattle.vm_steer.specs.Names.{AreRising};

use crate::frames::frames_for;
use crate::recording::Recording;
use vm_recorded::{Counts, Limit, RecordedGuest, RecordedHost, length_of, limit_by};
use vm_samples::Policy;

const MAX_BYTES: u64 = 16777216;

fn most_steps(counts: &[Counts]) -> u64
    ensures { result ≡ steps_of counts.now }
{
    let mut most: u64 = 0;
    for count in counts {
        most = count.steps.max(most);
    }
    most
}

fn longest_epoch(counts: &[Counts]) -> u64
    ensures { result ≡ longest_of counts.now }
{
    let mut most: u64 = 0;
    for count in counts {
        most = count.longest.max(most);
    }
    most
}

// All but that of bytes.
pub(crate) fn limit_of(recording: &Recording) -> Option<Limit>
    requires { IsJudged recording.now }
    ensures { (policy : PolicyView) → result ≡ limit_of (hosted_in policy recording.now) }
{
    let guests: &[RecordedGuest] = &recording.guests;
    let counts: &[Counts] = &recording.counts;
    limit_by(
        u64::from(recording.epochs),
        guests.len() as u64,
        most_steps(counts),
        longest_epoch(counts),
    )
}

// The host that is recorded.
pub(crate) fn host_of<'a>(policy: &'a Policy, recording: &'a Recording) -> RecordedHost<'a>
    requires { AreRising (names_of recording.now.guests.items) }
    ensures { result ≡ hosted_in policy.now recording.now }
{
    RecordedHost {
        policy,
        frames: frames_for(policy, &recording.guests, &recording.beside),
        epochs: recording.epochs,
        guests: &recording.guests,
    }
}

// That of bytes alone.
#[tactic(auto, unfolding(vm_recorded::specs::Limits::is_long))]
fn limit_of_bytes(policy: &Policy, recording: &Recording) -> Option<Limit>
    requires judged { IsJudged recording.now }
    requires few { length recording.now.guests.items ≤ 256 }
    ensures { result ≡ or_bytes None (is_long (hosted_in policy.now recording.now)) }
{
    if length_of(&host_of(policy, recording), &recording.counts) > MAX_BYTES {
        return Some(Limit::Bytes);
    }
    None
}

// The first limit that is passed.
pub(crate) fn limit_with_bytes(policy: &Policy, recording: &Recording) -> Option<Limit>
    requires { IsJudged recording.now }
    ensures { result ≡ limit_with_bytes (hosted_in policy.now recording.now) }
{
    match limit_of(recording) {
        Some(limit) => Some(limit),
        None => limit_of_bytes(policy, recording),
    }
}
