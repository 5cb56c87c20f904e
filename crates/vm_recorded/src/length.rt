//! How long the configuration text of a recorded host is.
ghost use Rattle.std.specs.Prelude.{◌≡◌, ◌≤◌, ◌+◌, ◌^◌, length, All};
ghost use Rattle.vm_recorded.specs.Counts.{counts_for};
ghost use Rattle.vm_recorded.specs.Pieces.{head_with, percents_of, rules_of};
ghost use Rattle.vm_recorded.specs.Lengths.{quantum_in};
ghost use Rattle.vm_recorded.specs.Texts.{text_of};

use crate::command_length::commands_len;
use crate::counts::Counts;
use crate::guest_length::guests_len;
use crate::guests::swap_for;
use crate::host::RecordedHost;
use crate::numbers::digits;
use vm_plan::Percents;
use vm_samples::Policy;

// The words around the parts of memory that are meant to be free.
const PERCENTS_WORDS: u64 = 15;

#[tactic(auto, unfolding(crate::specs::Parts::labelled, crate::specs::Pieces::percents_of))]
fn percents_len(percents: Percents) -> u64
    ensures exact { result ≡ length (percents_of percents) }
    ensures few { result ≤ 100 }
{
    PERCENTS_WORDS
        + digits(u64::from(percents.high))
        + digits(u64::from(percents.soft))
        + digits(u64::from(percents.hard))
        + digits(u64::from(percents.low))
}

// The words around what the policy says beside these.
const RULES_WORDS: u64 = 54;

#[tactic(auto, unfolding(crate::specs::Parts::labelled, crate::specs::Pieces::rules_of))]
fn rules_len(policy: &Policy) -> u64
    ensures exact { result ≡ length (rules_of policy.now) }
    ensures few { result ≤ 300 }
{
    RULES_WORDS
        + digits(u64::from(policy.overhead))
        + digits(u64::from(policy.tax))
        + percents_len(policy.percents)
        + digits(u64::from(policy.rate.min(256)))
        + digits(u64::from(policy.rebalance))
        + digits(u64::from(policy.unit))
}

// The words around the other numbers in front of the first guest.
const HEAD_WORDS: u64 = 62;

#[tactic(auto, unfolding(crate::specs::Parts::labelled, crate::specs::Pieces::head_with))]
fn head_len(host: &RecordedHost, swap: u64, quantum: u64) -> u64
    ensures exact { result ≡ length (head_with swap quantum host.now) }
    ensures few { result ≤ 500 }
{
    HEAD_WORDS
        + digits(u64::from(host.frames))
        + digits(swap)
        + rules_len(host.policy)
        + digits(quantum)
        + digits(u64::from(host.epochs))
}

// The most steps of an epoch, at least 1.
fn quantum_in(counts: &[Counts]) -> u64
    ensures { result ≡ quantum_in counts.now }
{
    let mut quantum = 1;
    for guest in counts {
        quantum = guest.longest.max(quantum);
    }
    quantum
}

// The words between the guests and the commands, and behind these.
const END_WORDS: u64 = 17;

/// How many bytes the configuration text of a host has, of whose guests this is what their epochs come to.
///
/// The time goes with the number of guests, and not with that of epochs.
pub fn length_of(host: &RecordedHost, counts: &[Counts]) -> u64
    requires guests { length host.now.guests ≤ 256 }
    requires counts { counts.now ≡ counts_for host.now.guests }
    requires bytes { All (λ c. c.bytes ≤ 2 ^ 50) counts.now }
    requires names { All (λ g. length g.name ≤ 2 ^ 32) host.now.guests }
    ensures { result ≡ length (text_of host.now) }
{
    let policy = host.policy;
    let quantum = quantum_in(counts);
    let guests = guests_len(quantum, host.guests, counts);
    let commands = commands_len(policy.unit, host.epochs, host.guests);
    head_len(host, swap_for(host.guests), quantum)
        + guests.saturating_sub(1)
        + commands.saturating_sub(1)
        + END_WORDS
}
