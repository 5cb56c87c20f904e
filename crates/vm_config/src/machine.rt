// The machine of a configuration.
ghost use Rattle.std.specs.Prelude.{◌≡◌, ◌≤◌, IfOk};
ghost use Rattle.vm_json.specs.View.{view};
ghost use Rattle.vm_config.specs.Located.{additions_at, machine_at};
ghost use Rattle.vm_config.specs.Versions.{AreLimits};

use crate::fault::Fault;
use crate::keys::{number, number_if_known, number_or_default, percents_or_default};
use crate::place::{Key, Part};
use crate::version::Limits;
use vm_domains::MachineSpec;
use vm_json::Value;

const MAX_OVERHEAD: u64 = 1024;

pub(crate) const MAX_PAGE_RATE: u64 = 256;

const DEFAULT_PAGE_RATE: u64 = 16;

pub(crate) const MAX_REBALANCE: u64 = 262_144;

// In KiB: a page has 4, and stands for no less.
const MIN_PAGE: u64 = 4;

const MAX_PAGE: u64 = 1_048_576;

const DEFAULT_PAGE: u64 = 4;

// The keys of a machine that version 3 has beside the others.
#[derive(Clone, Copy)]
pub(crate) struct Additions {
    pub(crate) rebalance: u32,
    pub(crate) page: u32,
}

#[tactic(auto, unfolding(crate::specs::Located::additions_at))]
fn additions_of(limits: &Limits, object: &Value<'_>) -> Result<Additions, Fault>
    ensures additions { result ≡ additions_at limits.now (view object.now) }
    ensures rebalance { IfOk result (λ a. a.rebalance ≤ 262144) }
    ensures page { IfOk result (λ a. (4 ≤ a.page) × (a.page ≤ 1048576)) }
{
    let is_known = limits.knows_version_3;
    let rebalance = number_if_known(
        is_known,
        object,
        Part::Root,
        Key::Rebalance,
        0,
        MAX_REBALANCE,
        0,
    )?;
    let page = number_if_known(
        is_known,
        object,
        Part::Root,
        Key::Page,
        MIN_PAGE,
        MAX_PAGE,
        DEFAULT_PAGE,
    )?;
    Ok(Additions {
        rebalance: rebalance as u32,
        page: page as u32,
    })
}

// How many KiB a page of a machine stands for.
pub(crate) fn page_of(machine: &MachineSpec) -> u32
    ensures page { result ≡ machine.now.page }
    ensures some { 4 ≤ result }
    ensures few { result ≤ 1048576 }
{
    machine.page
}

// The machine, with the numbers of the text.
pub(crate) fn machine(limits: &Limits, object: &Value<'_>) -> Result<MachineSpec, Fault>
    requires { AreLimits limits.now }
    ensures machine { result ≡ machine_at limits.now (view object.now) }
    ensures tax { IfOk result (λ m. m.tax ≤ limits.now.tax) }
    ensures percent { IfOk result (λ m. m.percent.high ≤ limits.now.percent) }
{
    let frames = number(object, Part::Root, Key::Frames, 1, limits.frames)?;
    let swap = number_or_default(object, Part::Root, Key::Swap, 0, limits.swap, 0)?;
    let overhead = number_or_default(object, Part::Root, Key::Overhead, 0, MAX_OVERHEAD, 0)?;
    let tax = number_or_default(
        object,
        Part::Root,
        Key::Tax,
        0,
        limits.tax,
        limits.default_tax,
    )?;
    let percent = percents_or_default(
        object,
        Part::Root,
        Key::Percent,
        limits.percent,
        limits.default_percent,
    )?;
    let page_rate = number_or_default(
        object,
        Part::Root,
        Key::PageRate,
        1,
        MAX_PAGE_RATE,
        DEFAULT_PAGE_RATE,
    )?;
    let additions = additions_of(limits, object)?;
    Ok(MachineSpec {
        frames: frames as u32,
        swap: swap as u32,
        overhead: overhead as u32,
        tax: tax as u32,
        percent,
        page_rate: page_rate as u32,
        rebalance: additions.rebalance,
        page: additions.page,
    })
}
