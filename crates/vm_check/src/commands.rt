// Commands that never run, or are refused whenever they come.
ghost use Rattle.std.specs.Prelude.{◌≡◌, ◌++◌, ◌∷◌, [], IfOk, OnOk};
ghost use Rattle.vm_check.specs.Commands.{at_findings, command_findings, finding_at, line_findings};

use crate::finding::Finding;
use crate::order::{Asked, Order};
use crate::place::FindingPlace;
use crate::what::What;
use std::alloc::{AllocError, Global};
use vm_config::{Key, Part};

// Adds a finding at a key of the command of a number.
fn push_at(found: &mut Vec<Finding>, number: usize, key: Key, what: What) -> Result<(), AllocError>
    ensures { OnOk result (found.new.items ≡ found.old.items ++ finding_at number key what ∷ []) }
{
    found.push(Finding {
        place: FindingPlace::Key {
            part: Part::Command(number),
            key,
        },
        what,
    })?;
    Ok(())
}

// Adds a finding where a command is for no epoch of the run.
fn push_if_late(
    found: &mut Vec<Finding>,
    epochs: u32,
    number: usize,
    at: u32,
) -> Result<(), AllocError>
    ensures { OnOk result (found.new.items ≡ found.old.items ++ at_findings epochs number at) }
{
    if at < epochs {
        return Ok(());
    }
    push_at(found, number, Key::At, What::NeverRuns { at, epochs })
}

// Adds a finding where a command is refused whenever it comes.
fn push_if_wrong(found: &mut Vec<Finding>, number: usize, asked: Asked) -> Result<(), AllocError>
    ensures { OnOk result (found.new.items ≡ found.old.items ++ line_findings number asked) }
{
    match asked {
        Asked::Wrong(wrong) => push_at(found, number, Key::Line, What::Refused(wrong)),
        Asked::Of { .. } => Ok(()),
    }
}

/// What is found of the command of a number, in a run of so many epochs.
pub(crate) fn command_findings(
    alloc: Global,
    epochs: u32,
    number: usize,
    order: Order,
) -> Result<Vec<Finding>, AllocError>
    ensures { IfOk result (λ found. found.items ≡ command_findings epochs number order) }
{
    let mut found = Vec::new(alloc);
    push_if_late(&mut found, epochs, number, order.at)?;
    push_if_wrong(&mut found, number, order.asked)?;
    Ok(found)
}
