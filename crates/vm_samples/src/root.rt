// The keys of a policy's root, but its guests.
ghost use Rattle.std.specs.Prelude.{◌≡◌, ◌<◌, ◌≤◌, ◌+◌, ◌*◌, IfOk};
ghost use Rattle.vm_json.specs.View.{view};
ghost use Rattle.vm_samples.specs.Policies.{AreFalling};
ghost use Rattle.vm_samples.specs.PolicyOf.{amounts_at, cache_or, default_rate, default_unit, scale_at, settles, shares_at, unit_or, wants_at};
ghost use Rattle.vm_samples.specs.Roots.{AreAmounts, AreShares, AreWants, IsScale};
ghost use Rattle.vm_samples.specs.Seen.{seen};

use crate::fault::{PolicyFault, Wrong, at};
use crate::keys::{
    found, in_range, number_in, number_or, percents_or, required_number, required_size, size_in,
    units_or,
};
use crate::place::{Key, Place};
use vm_json::Value;
use vm_plan::Percents;

const MAX_MEMORY: u64 = 262_144;

const MIN_UNIT: u64 = 4;

// 1 GiB in KiB.
const MAX_UNIT: u64 = 1_048_576;

const MAX_OVERHEAD: u64 = 1024;

// 128 MiB in KiB.
const MIN_RATE: u32 = 131_072;

const DEFAULT_PERCENTS: Percents = Percents {
    high: 600,
    soft: 400,
    hard: 200,
    low: 100,
};

// The KiB of a unit, and the units of all memory.
#[derive(Clone, Copy)]
pub(crate) struct Scale {
    pub(crate) unit: u32,
    pub(crate) memory: u32,
}

// Sizes in units.
#[derive(Clone, Copy)]
pub(crate) struct Amounts {
    pub(crate) overhead: u32,
    pub(crate) rate: u32,
    pub(crate) rebalance: u32,
}

// By what memory is shared.
#[derive(Clone, Copy)]
pub(crate) struct Shares {
    pub(crate) tax: u32,
    pub(crate) percents: Percents,
}

// By what it is said how much a domain is to have.
#[derive(Clone, Copy)]
pub(crate) struct Wants {
    pub(crate) headroom: u32,
    pub(crate) cache: u32,
    pub(crate) most: u32,
    pub(crate) patience: u32,
}

// 1 MiB, doubled until memory is at most 262144 units, but at most 1 GiB.
fn default_unit(memory: u64) -> u64
    ensures value { result ≡ default_unit memory }
    ensures from { 4 ≤ result }
    ensures to { result ≤ 1048576 }
{
    let mut unit: u64 = 1024;
    for times in 0u32..10 {
        if memory / unit <= MAX_MEMORY {
            return unit;
        }
        unit *= 2;
    }
    unit
}

// The KiB of a unit.
fn unit_or(found: Option<&Value<'_>>, memory: u64) -> Result<u64, Wrong>
    ensures value { result ≡ unit_or (seen found.entry) memory }
    ensures within { IfOk result (λ n. (4 ≤ n) × (n ≤ 1048576)) }
{
    match found {
        Some(value) => in_range(size_in(value)?, MIN_UNIT, MAX_UNIT),
        None => Ok(default_unit(memory)),
    }
}

// The version, the unit and the memory.
#[tactic(auto, unfolding(crate::specs::PolicyOf::scale_at))]
pub(crate) fn scale_at(root: &Value<'_>) -> Result<Scale, PolicyFault>
    ensures scale { result ≡ scale_at (view root.now) }
    ensures within { IfOk result IsScale }
{
    at(
        Place::Root(Key::Version),
        required_number(found(root, Key::Version), 1, 1),
    )?;
    let memory = at(
        Place::Root(Key::Memory),
        required_size(found(root, Key::Memory)),
    )?;
    let unit = at(
        Place::Root(Key::Unit),
        unit_or(found(root, Key::Unit), memory),
    )?;
    let units = at(
        Place::Root(Key::Memory),
        in_range(memory / unit, 1, MAX_MEMORY),
    )?;
    Ok(Scale {
        unit: unit as u32,
        memory: units as u32,
    })
}

// The greater of 128 MiB, rounded up, and a 64th of memory.
fn default_rate(scale: Scale) -> u64
    requires { IsScale scale }
    ensures value { result ≡ default_rate scale }
    ensures from { 1 ≤ result }
    ensures to { result ≤ 262144 }
{
    u64::from(MIN_RATE.div_ceil(scale.unit).max(scale.memory / 64))
}

// The sizes in units.
#[tactic(auto, unfolding(crate::specs::PolicyOf::amounts_at))]
pub(crate) fn amounts_at(scale: Scale, root: &Value<'_>) -> Result<Amounts, PolicyFault>
    requires { IsScale scale }
    ensures amounts { result ≡ amounts_at scale (view root.now) }
    ensures within { IfOk result AreAmounts }
{
    let overhead = at(
        Place::Root(Key::Overhead),
        units_or(scale.unit, found(root, Key::Overhead), 0, MAX_OVERHEAD, 0),
    )?;
    let rate = at(
        Place::Root(Key::Rate),
        units_or(
            scale.unit,
            found(root, Key::Rate),
            1,
            MAX_MEMORY,
            default_rate(scale),
        ),
    )?;
    let rebalance = at(
        Place::Root(Key::Rebalance),
        units_or(scale.unit, found(root, Key::Rebalance), 0, MAX_MEMORY, rate),
    )?;
    Ok(Amounts {
        overhead: overhead as u32,
        rate: rate as u32,
        rebalance: rebalance as u32,
    })
}

// The tax and the parts that are meant to be free.
#[tactic(auto, unfolding(crate::specs::PolicyOf::shares_at))]
pub(crate) fn shares_at(root: &Value<'_>) -> Result<Shares, PolicyFault>
    ensures shares { result ≡ shares_at (view root.now) }
    ensures within { IfOk result AreShares }
{
    let tax = at(
        Place::Root(Key::Tax),
        number_or(found(root, Key::Tax), 0, 9_999, 7_500),
    )?;
    let percents = at(
        Place::Root(Key::Percent),
        percents_or(found(root, Key::Percent), DEFAULT_PERCENTS),
    )?;
    Ok(Shares {
        tax: tax as u32,
        percents,
    })
}

// Whether what counts as used of the cache leaves some of it idle, with this headroom.
fn settles(headroom: u64, cache: u64) -> bool
    requires headroom { headroom ≤ 1000 }
    requires cache { cache ≤ 100 }
    ensures { result ≡ settles headroom cache }
{
    (100 + headroom) * cache < 10_000
}

// The percent of the cache that counts as used.
fn cache_or(found: Option<&Value<'_>>, headroom: u64) -> Result<u64, Wrong>
    requires { headroom ≤ 1000 }
    ensures value { result ≡ cache_or (seen found.entry) headroom }
    ensures within { IfOk result (λ n. (n ≤ 100) × ((100 + headroom) * n < 10000)) }
{
    let Some(value) = found else {
        return Ok(if settles(headroom, 50) { 50 } else { 0 });
    };
    let cache = number_in(value, 0, 100)?;
    if settles(headroom, cache) {
        Ok(cache)
    } else {
        Err(Wrong::Range)
    }
}

// How much a domain is to have.
#[tactic(auto, unfolding(crate::specs::PolicyOf::wants_at))]
pub(crate) fn wants_at(root: &Value<'_>) -> Result<Wants, PolicyFault>
    ensures wants { result ≡ wants_at (view root.now) }
    ensures within { IfOk result AreWants }
{
    let headroom = at(
        Place::Root(Key::Headroom),
        number_or(found(root, Key::Headroom), 0, 1000, 20),
    )?;
    let cache = at(
        Place::Root(Key::Cache),
        cache_or(found(root, Key::Cache), headroom),
    )?;
    let most = at(
        Place::Root(Key::Most),
        number_or(found(root, Key::Most), 0, 99, 65),
    )?;
    let patience = at(
        Place::Root(Key::Patience),
        number_or(found(root, Key::Patience), 1, 10_000, 5),
    )?;
    Ok(Wants {
        headroom: headroom as u32,
        cache: cache as u32,
        most: most as u32,
        patience: patience as u32,
    })
}
