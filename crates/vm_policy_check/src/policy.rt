// What a policy says of the memory of its guests.
ghost use Rattle.std.specs.Prelude.{◌≡◌, ◌+◌, ◌^◌, ◌≤◌, [], length, map, option_to_list};
ghost use Rattle.vm_policy_check.specs.Findings.{crowd, cross, found_of, is_below, kept, kept_by};

use crate::finding::Finding;
use vm_samples::{GuestPolicy, Policy};

// The units that a guest keeps, with the overhead of a domain.
fn kept_by(guest: &GuestPolicy, overhead: u64) -> u64
    requires { overhead ≤ 1024 }
    ensures exact { result ≡ kept_by overhead guest.now }
    ensures few { result ≤ 2 ^ 54 + 1024 }
{
    if !guest.steer {
        return 0;
    }
    match guest.min {
        Some(min) => min + overhead,
        None => 0,
    }
}

// Those that all guests keep.
fn kept(guests: &[GuestPolicy], overhead: u64) -> u64
    requires few { length guests.now ≤ 256 }
    requires small { overhead ≤ 1024 }
    ensures { result ≡ kept overhead guests.now }
{
    let mut sum = 0;
    for guest in guests {
        sum += kept_by(guest, overhead);
    }
    sum
}

// Whether the minimums are more than the memory.
pub(crate) fn crowd<'a>(policy: &Policy) -> Option<Finding<'a>>
    ensures { map found_of (option_to_list result) ≡ crowd policy.now }
{
    let kept = kept(&policy.guests, u64::from(policy.overhead));
    if kept <= u64::from(policy.memory) {
        return None;
    }
    Some(Finding::Crowded {
        kept,
        memory: policy.memory,
        unit: policy.unit,
    })
}

// Whether a guest may have less than it is left at least.
pub(crate) fn cross<'a>(guest: &GuestPolicy, number: usize) -> Option<Finding<'a>>
    ensures { map found_of (option_to_list result) ≡ cross number guest.now }
{
    if is_below(guest.max, guest.min) {
        Some(Finding::Crossed { guest: number })
    } else {
        None
    }
}

// Whether the greatest amount is below the least, where there are both.
fn is_below(max: Option<u64>, min: Option<u64>) -> bool
    ensures { result ≡ is_below max min }
{
    let Some(max) = max else {
        return false;
    };
    match min {
        Some(min) => max < min,
        None => false,
    }
}
