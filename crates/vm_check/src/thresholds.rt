// Thresholds that are no frame.
ghost use Rattle.std.specs.Prelude.{◌≡◌, ◌++◌, IfOk, OnOk};
ghost use Rattle.vm_check.specs.Thresholds.{at_zero, threshold_findings};

use crate::finding::Finding;
use crate::place::FindingPlace;
use crate::what::{Level, What};
use std::alloc::{AllocError, Global};
use vm_config::{Key, MachineSpec, Part};
use vm_plan::Thresholds;

// Adds a finding where a threshold of a machine of so many frames is no frame.
fn push_if_zero(
    found: &mut Vec<Finding>,
    level: Level,
    frames: u32,
    threshold: u32,
) -> Result<(), AllocError>
    ensures { OnOk result (found.new.items ≡ found.old.items ++ at_zero level frames threshold) }
{
    if threshold != 0 {
        return Ok(());
    }
    found.push(Finding {
        place: FindingPlace::Key {
            part: Part::Root,
            key: Key::Percent,
        },
        what: What::NoFrames { level, frames },
    })?;
    Ok(())
}

/// The thresholds of a machine that are no frame.
pub(crate) fn threshold_findings(
    alloc: Global,
    machine: &MachineSpec,
) -> Result<Vec<Finding>, AllocError>
    ensures { IfOk result (λ found. found.items ≡ threshold_findings machine.now) }
{
    let frames = machine.frames;
    let thresholds = Thresholds::of(frames, machine.percent);
    let mut found = Vec::new(alloc);
    push_if_zero(&mut found, Level::High, frames, thresholds.high)?;
    push_if_zero(&mut found, Level::Soft, frames, thresholds.soft)?;
    push_if_zero(&mut found, Level::Hard, frames, thresholds.hard)?;
    push_if_zero(&mut found, Level::Low, frames, thresholds.low)?;
    Ok(found)
}
