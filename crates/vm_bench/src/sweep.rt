//! A recorded day on each of many machines, as a table.
ghost use Rattle.std.specs.Prelude.{◌≡◌, All, IfOk};
ghost use Rattle.vm_config.specs.declared.settings.Setting.TheVariants.{Frames};
ghost use Rattle.vm_config.specs.Settings.{IsInRange};

use crate::day::push_guests;
use crate::digest::Digest;
use crate::random::Random;
use crate::runs::sweep_of;
use crate::text::{Draft, Machine};
use std::alloc::Global;
use std::thread::Threads;
use vm_config::Setting;
use vm_lists::{Limits, Unit, ValueList, read_list};
use vm_sim::RunError;
use vm_sweep::Lists;

// 32 machines, which have from a quarter to nearly all of what the guests are promised.
const FRAMES: &str = "16384..64000/1536";

// On so many threads.
const WORKERS: u32 = 4;

// The values of frames that a list has.
#[tactic(auto, using(crate::proofs::RangeLemmas::values_in_range))]
fn frames_in(alloc: Global, list: &str) -> Result<ValueList, RunError>
    ensures { IfOk result (λ frames. All (IsInRange Frames) frames) }
{
    let limits = Limits {
        unit: Unit::Whole,
        least: Setting::Frames.least(),
        greatest: Setting::Frames.greatest(),
    };
    match read_list(alloc, &limits, list) {
        Ok(frames) => Ok(frames),
        Err(_) => Err(RunError::Memory),
    }
}

/// The guests and the steps of `day`, swept over the frames of the machine.
pub fn sweep<RT: Threads + Sync>(
    rt: &RT,
    alloc: Global,
    seed: u64,
    part: u32,
    digest: &mut Digest,
) -> Result<(), RunError> {
    let mut random = Random::new(seed, 1);
    let mut draft = Draft::new(alloc);
    push_guests(&mut draft.guests, &mut random, 16_000 / part.max(1))?;
    let machine = Machine {
        frames: 16_384,
        tax: 7500,
        page_rate: 16,
        quantum: 200,
        epochs: 100 / part.max(1) + 1,
    };
    let frames = frames_in(alloc, FRAMES)?;
    let lists = Lists::new(alloc, Some(frames), None, None, None, None);
    sweep_of(rt, alloc, WORKERS, &machine, &draft, &lists, digest)
}
