// What a domain is left at least, may have at most, is meant to hold, and wants, in units.
ghost use Rattle.std.specs.Prelude.{◌≡◌, ◌*◌, ◌+◌, ◌<◌, ◌≤◌, IfSome};
ghost use Rattle.vm_steer.specs.Numbers.{cap_of, demand_of, has_stayed, least_of, most_of, one_more, still_of, target_of};
ghost use Rattle.vm_steer.specs.Look.{believed, limits_believed, limits_of};

use crate::remembered::Remembered;
use crate::rules::Rules;

// What a domain is left at least, has at most and is meant to hold, in units, and in how many samples its balloon didn't follow.
#[derive(Clone, Copy)]
pub(crate) struct Limits {
    pub(crate) min: u32,
    pub(crate) cap: u32,
    pub(crate) target: u32,
    pub(crate) still: u32,
}

// The policy's greatest, at most the size, or the size.
pub(crate) fn most_of(size: u32, greatest: Option<u64>) -> u32
    ensures exact { result ≡ most_of size greatest }
    ensures few { result ≤ size }
{
    match greatest {
        Some(most) => most.min(u64::from(size)) as u32,
        None => size,
    }
}

// The policy's least, or what is left where the part `ballooned` of a hundred is; at least 1.
pub(crate) fn least_of(size: u32, ballooned: u32, most: u32, least: Option<u64>) -> u32
    requires part { ballooned ≤ 99 }
    requires most { most ≤ size }
    ensures exact { result ≡ least_of size ballooned most least }
    ensures some { 1 ≤ result }
    ensures few { 1 ≤ size → result ≤ size }
{
    match least {
        Some(least) => (least.min(u64::from(size)) as u32).max(1),
        None => {
            let left = u64::from(size) * u64::from(100 - ballooned);
            (left.div_ceil(100).min(u64::from(most)) as u32).max(1)
        }
    }
}

// Where the policy's least is above its greatest, that is the cap.
pub(crate) fn cap_of(most: u32, least: u32) -> u32
    ensures { result ≡ cap_of most least }
{
    most.max(least)
}

// What is remembered, or what it holds, within its limits.
fn target_of(last: &Option<Remembered>, held: u32, least: u32, cap: u32) -> u32
    requires { least ≤ cap }
    ensures exact { result ≡ target_of last.now held least cap }
    ensures least { least ≤ result }
    ensures cap { result ≤ cap }
{
    let target = match last {
        Some(last) => last.target,
        None => held,
    };
    cap.min(least.max(target))
}

// Whether its balloon doesn't follow.
fn has_stayed(patience: u32, held: u32, last: &Remembered) -> bool
    ensures { result ≡ has_stayed patience held last.now }
{
    last.held <= held && (last.target < held || patience <= last.still)
}

// One sample more in which it doesn't.
fn one_more(patience: u32, still: u32) -> u32
    requires { patience ≤ 10000 }
    ensures exact { result ≡ one_more patience still }
    ensures few { result < 20000 }
{
    let twice = u64::from(2 * patience);
    if u64::from(still) + 1 >= twice {
        0
    } else {
        still + 1
    }
}

// In how many samples it didn't.
fn still_of(patience: u32, held: u32, last: &Option<Remembered>) -> u32
    requires { patience ≤ 10000 }
    ensures { result ≡ still_of patience held last.now }
{
    match last {
        Some(last) => {
            if has_stayed(patience, held, last) {
                one_more(patience, last.still)
            } else {
                0
            }
        }
        None => 0,
    }
}

// What it wants beyond its target.
pub(crate) fn demand_of(headroom: u32, used: u32, cap: u32, target: u32) -> u32
    requires headroom { headroom ≤ 1000 }
    requires used { used ≤ 262144 }
    ensures { result ≡ demand_of headroom used cap target }
{
    let wanted = (used * (100 + headroom)).div_ceil(100);
    cap.min(wanted).saturating_sub(target)
}

// All of them, by the policy.
#[tactic(auto, unfolding(crate::specs::Look::limits_of))]
pub(crate) fn limits_of(
    ballooned: u32,
    patience: u32,
    rules: Rules,
    last: &Option<Remembered>,
    size: u32,
    held: u32,
) -> Limits
    requires some { 1 ≤ size }
    requires few { size ≤ 262144 }
    requires part { ballooned ≤ 99 }
    requires patience { patience ≤ 10000 }
    requires some_max { IfSome rules.max (λ n. 1 ≤ n) }
    ensures exact { result ≡ limits_of ballooned patience rules last.now size held }
    ensures some { 1 ≤ result.min }
    ensures above_min { result.min ≤ result.target }
    ensures within_cap { result.target ≤ result.cap }
    ensures within_size { result.cap ≤ size }
{
    let most = most_of(size, rules.max);
    let least = least_of(size, ballooned, most, rules.min);
    let cap = cap_of(most, least);
    let target = target_of(last, held, least, cap);
    let still = still_of(patience, held, last);
    Limits {
        min: least,
        cap,
        target,
        still,
    }
}

// A domain that is believed to give nothing.
fn believed(held: u32, limits: Limits) -> Limits
    ensures { result ≡ believed held limits }
{
    Limits {
        min: held,
        cap: limits.cap.max(held),
        target: held,
        still: limits.still,
    }
}

// Where its balloon didn't follow for long it is believed.
pub(crate) fn limits_believed(patience: u32, held: u32, limits: Limits) -> Limits
    ensures { result ≡ limits_believed patience held limits }
{
    if patience <= limits.still {
        believed(held, limits)
    } else {
        limits
    }
}
