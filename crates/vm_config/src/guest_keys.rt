// The keys of a guest, by what they say.
ghost use Rattle.std.specs.Prelude.{◌≡◌, ◌≤◌, IfOk};
ghost use Rattle.vm_json.specs.View.{view};
ghost use Rattle.vm_config.specs.Located.{choices_at, pages_at, rates_at};
ghost use Rattle.vm_config.specs.Versions.{AreLimits};

use crate::fault::Fault;
use crate::keys::{flag_if_known, flag_or_default, number, number_or_default, own_driver_if_known};
use crate::place::{Key, Part};
use crate::version::Limits;
use vm_json::Value;

const MAX_SHARES: u64 = 1_000_000;

const DEFAULT_SHARES: u64 = 1000;

const MAX_SAMPLES: u64 = 1000;

const DEFAULT_SAMPLES: u64 = 100;

const MAX_PERIOD: u64 = 1_000_000;

const DEFAULT_PERIOD: u64 = 1000;

const MAX_RATE: u64 = 256;

const DEFAULT_RATE: u64 = 16;

// How many pages a guest has, and how many frames at least.
#[derive(Clone, Copy)]
pub(crate) struct Pages {
    pub(crate) size: u32,
    pub(crate) min: u32,
}

// What a guest's part is, how it is sampled, and how fast its driver gives pages up.
#[derive(Clone, Copy)]
pub(crate) struct Rates {
    pub(crate) shares: u32,
    pub(crate) samples: u32,
    pub(crate) period: u32,
    pub(crate) rate: u32,
}

// What a guest's generator begins with, whether it starts by itself, whether it tells, and whether it has a driver of its own.
#[derive(Clone, Copy)]
pub(crate) struct Choices {
    pub(crate) seed: u64,
    pub(crate) stream: u64,
    pub(crate) autostart: bool,
    pub(crate) tell: bool,
    pub(crate) own_driver: bool,
}

#[tactic(auto, unfolding(crate::specs::Located::pages_at))]
pub(crate) fn pages_of(limits: &Limits, object: &Value<'_>, guest: Part) -> Result<Pages, Fault>
    requires { AreLimits limits.now }
    ensures pages { result ≡ pages_at limits.now (view object.now) guest }
    ensures some { IfOk result (λ p. 1 ≤ p.min) }
    ensures within { IfOk result (λ p. p.min ≤ p.size) }
    ensures few { IfOk result (λ p. p.size ≤ 262144) }
{
    let size = number(object, guest, Key::Size, 1, limits.size)?;
    let min = number(object, guest, Key::Min, 1, size)?;
    Ok(Pages {
        size: size as u32,
        min: min as u32,
    })
}

#[tactic(auto, unfolding(crate::specs::Located::rates_at))]
pub(crate) fn rates_of(object: &Value<'_>, guest: Part) -> Result<Rates, Fault>
    ensures rates { result ≡ rates_at (view object.now) guest }
    ensures shares { IfOk result (λ r. (1 ≤ r.shares) × (r.shares ≤ 1000000)) }
    ensures samples { IfOk result (λ r. (1 ≤ r.samples) × (r.samples ≤ 1000)) }
    ensures period { IfOk result (λ r. (1 ≤ r.period) × (r.period ≤ 1000000)) }
    ensures rate { IfOk result (λ r. (1 ≤ r.rate) × (r.rate ≤ 256)) }
{
    let shares = number_or_default(object, guest, Key::Shares, 1, MAX_SHARES, DEFAULT_SHARES)?;
    let samples = number_or_default(object, guest, Key::Samples, 1, MAX_SAMPLES, DEFAULT_SAMPLES)?;
    let period = number_or_default(object, guest, Key::Period, 1, MAX_PERIOD, DEFAULT_PERIOD)?;
    let rate = number_or_default(object, guest, Key::Rate, 1, MAX_RATE, DEFAULT_RATE)?;
    Ok(Rates {
        shares: shares as u32,
        samples: samples as u32,
        period: period as u32,
        rate: rate as u32,
    })
}

#[tactic(auto, unfolding(crate::specs::Located::choices_at))]
pub(crate) fn choices_of(limits: &Limits, object: &Value<'_>, guest: Part) -> Result<Choices, Fault>
    ensures { result ≡ choices_at limits.now (view object.now) guest }
{
    let seed = number_or_default(object, guest, Key::Seed, 0, u64::MAX, 0)?;
    let stream = number_or_default(object, guest, Key::Stream, 0, u64::MAX, 0)?;
    let autostart = flag_or_default(object, guest, Key::Autostart, true)?;
    let tell = flag_if_known(limits.has_tell, object, guest, Key::Tell, true)?;
    let own_driver = own_driver_if_known(limits.knows_version_3, object, guest)?;
    Ok(Choices {
        seed,
        stream,
        autostart,
        tell,
        own_driver,
    })
}
