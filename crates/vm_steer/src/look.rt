// What comes of a domain's statistics: why it is left alone, or its numbers.
ghost use Rattle.std.specs.Prelude.{◌≡◌, ◌≤◌, IfSome, map};
ghost use Rattle.std.specs.Char.{is_ascii_digit};
ghost use Rattle.std.specs.List.{list_all};
ghost use Rattle.vm_steer.specs.Keys.{keys_of};
ghost use Rattle.vm_steer.specs.Look.{balloon_in, barred, is_running, is_steerable, look_of, sized, weighed};
ghost use Rattle.vm_steer.specs.Names.{stands_twice, AreRising};

use crate::balloon::{Balloon, balloon_in};
use crate::measures::size_of;
use crate::names::stands_twice;
use crate::numbers::{Numbers, numbers_of};
use crate::remembered::Remembered;
use crate::rules::{Rules, rules_of};
use crate::why::Why;
use vm_samples::{Domain, Policy, is_name};

fn are_digits(name: &[u8]) -> bool
    ensures { result ≡ list_all is_ascii_digit name.now }
{
    name.iter().all(|byte| byte.is_ascii_digit())
}

// Whether a name is a guest's, and not all digits.
#[tactic(auto, unfolding(crate::specs::Look::is_steerable))]
fn is_steerable(name: &[u8]) -> bool
    ensures { result ≡ is_steerable name.now }
{
    is_name(name) && !are_digits(name)
}

// Whether nothing else is told of its state.
fn is_running(state: Option<u64>) -> bool
    ensures { result ≡ is_running state }
{
    match state {
        Some(state) => state == 1,
        None => true,
    }
}

// Why a domain is left alone whatever its balloon is.
fn barred(names: &[&[u8]], hint: usize, rules: Rules, domain: &Domain) -> Option<Why>
    requires { AreRising (map (λ n. n.now) names.now) }
    ensures { result ≡ barred (map (λ n. n.now) names.now) rules domain.now }
{
    if !is_steerable(&domain.name) {
        return Some(Why::Name);
    }
    if stands_twice(names, hint, &domain.name) {
        return Some(Why::Twice);
    }
    if !rules.steer {
        return Some(Why::Policy);
    }
    if is_running(domain.state) {
        None
    } else {
        Some(Why::NotRunning)
    }
}

// The numbers of a domain of so many units, if that isn't too few or too many.
fn sized(
    policy: &Policy,
    rules: Rules,
    last: &Option<Remembered>,
    balloon: &Balloon,
    size: u64,
) -> Result<Numbers, Why>
    requires some_max { IfSome rules.max (λ n. 1 ≤ n) }
    requires some_shares { 1 ≤ rules.shares }
    requires few_shares { rules.shares ≤ 1000000 }
    ensures { result ≡ sized policy.now rules last.now balloon.now size }
{
    if size < 1 || size > 262144 {
        return Err(Why::Size);
    }
    Ok(numbers_of(policy, rules, last, balloon, size as u32))
}

// The numbers of a domain that isn't barred.
fn weighed(
    policy: &Policy,
    rules: Rules,
    last: &Option<Remembered>,
    domain: &Domain,
) -> Result<Numbers, Why>
    requires some_max { IfSome rules.max (λ n. 1 ≤ n) }
    requires some_shares { 1 ≤ rules.shares }
    requires few_shares { rules.shares ≤ 1000000 }
    ensures { let d = domain.now in
        result ≡ weighed policy.now rules last.now (balloon_in d.current d.maximum d.usable d.unused d.swap_in) }
{
    let balloon = balloon_in(domain)?;
    let size = size_of(policy.unit, balloon.maximum);
    sized(policy, rules, last, &balloon, size)
}

// Why a domain of a sample is left alone, or its numbers. The keys are those of the policy's guests, and the names those of the sample, in
// order; the hint may well be the domain's place among them.
#[tactic(auto, unfolding(crate::specs::Look::look_of))]
pub(crate) fn look_of(
    policy: &Policy,
    keys: &[u32],
    names: &[&[u8]],
    hint: usize,
    last: &Option<Remembered>,
    domain: &Domain,
) -> Result<Numbers, Why>
    requires keys { keys.now ≡ keys_of policy.now.guests }
    requires rising { AreRising (map (λ n. n.now) names.now) }
    ensures { result ≡ look_of policy.now (map (λ n. n.now) names.now) last.now domain.now }
{
    let rules = rules_of(&policy.guests, keys, &domain.name);
    if let Some(why) = barred(names, hint, rules, domain) {
        return Err(why);
    }
    weighed(policy, rules, last, domain)
}
