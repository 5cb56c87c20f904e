// What a policy says of one domain.
ghost use Rattle.std.specs.Prelude.{◌≡◌, ◌≤◌, IfSome, bytes_eq};
ghost use Rattle.vm_samples.specs.Policies.{IsGuestPolicy};
ghost use Rattle.vm_steer.specs.Keys.{key_of, keys_of};
ghost use Rattle.vm_steer.specs.Look.{rules_in, rules_of, usual};

use crate::keys::key_of;
use vm_samples::GuestPolicy;

/// How a domain is steered by a policy.
#[derive(Clone, Copy, Debug)]
pub struct Rules {
    /// The units that it is left at least, if the policy says so.
    pub min: Option<u64>,
    /// The units that it has at most, if the policy says so.
    pub max: Option<u64>,
    /// 1 to 1000000.
    pub shares: u32,
    /// Whether it is steered at all.
    pub steer: bool,
}

pub(crate) const USUAL: Rules = Rules {
    min: None,
    max: None,
    shares: 1000,
    steer: true,
};

// Whether the policy of a guest is that of this name. Names are compared where their numbers are the same.
#[tactic(auto, using(crate::proofs::KeyLemmas::keys_differ))]
fn is_of(guest: &GuestPolicy, guest_key: u32, name: &[u8], key: u32) -> bool
    requires guest { guest_key ≡ key_of guest.now.name }
    requires name { key ≡ key_of name.now }
    ensures { result ≡ bytes_eq guest.now.name name.now }
{
    if guest_key == key {
        guest.name.as_bytes() == name
    } else {
        false
    }
}

pub(crate) fn rules_in(guest: &GuestPolicy) -> Rules
    ensures exact { result ≡ rules_in guest.now }
    ensures some_max { IfSome result.max (λ n. 1 ≤ n) }
    ensures some_shares { 1 ≤ result.shares }
    ensures few_shares { result.shares ≤ 1000000 }
{
    Rules {
        min: guest.min,
        max: guest.max,
        shares: guest.shares,
        steer: guest.steer,
    }
}

// The rules for a domain by its name. The keys are those of the guests.
pub(crate) fn rules_of(guests: &[GuestPolicy], keys: &[u32], name: &[u8]) -> Rules
    requires { keys.now ≡ keys_of guests.now }
    ensures exact { result ≡ rules_of guests.now name.now }
    ensures some_max { IfSome result.max (λ n. 1 ≤ n) }
    ensures some_shares { 1 ≤ result.shares }
    ensures few_shares { result.shares ≤ 1000000 }
{
    let key = key_of(name);
    for position in 0..guests.len() {
        let guest = &guests[position];
        if is_of(guest, keys[position], name, key) {
            return rules_in(guest);
        }
    }
    USUAL
}
