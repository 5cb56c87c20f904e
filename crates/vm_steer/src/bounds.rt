// What a policy says of a domain by its name and size, whatever its samples tell.
ghost use Rattle.std.specs.Prelude.{◌≡◌, bytes_eq};
ghost use Rattle.vm_steer.specs.Look.{bounds_at, rules_in, rules_of, usual};

use crate::limits::{cap_of, least_of, most_of};
use crate::rules::{Rules, USUAL, rules_in};
use vm_samples::{GuestPolicy, Policy};

/// What a domain is left at least and may have at most, in units, and its shares.
#[derive(Clone, Copy, Debug, PartialEq, Eq)]
pub struct Bounds {
    /// Its minimum, at least 1.
    pub min: u32,
    /// Its cap.
    pub cap: u32,
    /// 1 to 1000000.
    pub shares: u32,
}

fn is_of(guest: &GuestPolicy, name: &[u8]) -> bool
    ensures { result ≡ bytes_eq guest.now.name name.now }
{
    guest.name.as_bytes() == name
}

fn rules_among(guests: &[GuestPolicy], name: &[u8]) -> Rules
    ensures { result ≡ rules_of guests.now name.now }
{
    for guest in guests {
        if is_of(guest, name) {
            return rules_in(guest);
        }
    }
    USUAL
}

/// What a policy says of the domain with a name: of one that it doesn't name that it has 1000 shares and is steered.
pub fn rules_for(policy: &Policy, name: &[u8]) -> Rules
    ensures { result ≡ rules_of policy.now.guests name.now }
{
    rules_among(&policy.guests, name)
}

/// The bounds of a domain with such rules whose size is so many units. A balloon that doesn't follow is not believed here.
#[tactic(auto, unfolding(crate::specs::Look::bounds_at))]
pub fn bounds_at(policy: &Policy, rules: Rules, size: u32) -> Bounds
    ensures { result ≡ bounds_at policy.now.most rules size }
{
    let most = most_of(size, rules.max);
    let least = least_of(size, policy.most, most, rules.min);
    Bounds {
        min: least,
        cap: cap_of(most, least),
        shares: rules.shares,
    }
}
