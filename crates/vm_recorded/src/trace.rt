// The steps of a guest: each in quotes, with a comma behind it.
ghost use Rattle.std.specs.Prelude.{◌≡◌, ◌++◌, OnOk};
ghost use Rattle.vm_recorded.specs.Parts.{ended_steps, without_comma};
ghost use Rattle.vm_recorded.specs.Texts.{steps_text};
ghost use Rattle.vm_recorded.specs.Traces.{epoch_of, freed, touched, trace_of};

use crate::numbers::push_number;
use crate::used::Use;
use std::alloc::AllocError;

// Takes the last comma away again, of what stands from here on.
pub(crate) fn drop_comma(text: &mut Vec<u8>, start: usize)
    ensures { text.new.items ≡ without_comma start text.old.items }
{
    if text.len() > start {
        text.truncate(text.len() - 1);
    }
}

// Adds the step that frees what is used no more.
#[tactic(auto, unfolding(crate::specs::Texts::quoted))]
fn push_freed(text: &mut Vec<u8>, last: u32, units: u32) -> Result<(), AllocError>
    ensures { OnOk result (text.new.items ≡ text.old.items ++ ended_steps (freed last units)) }
{
    if units >= last {
        return Ok(());
    }
    text.extend_from_slice(b"\"f ")?;
    push_number(text, u64::from(units))?;
    text.extend_from_slice(b" ")?;
    push_number(text, u64::from(last - units))?;
    text.extend_from_slice(b"\",")
}

// Adds the step that touches what is used.
#[tactic(auto, unfolding(crate::specs::Texts::quoted))]
fn push_touched(text: &mut Vec<u8>, units: u32) -> Result<(), AllocError>
    ensures { OnOk result (text.new.items ≡ text.old.items ++ ended_steps (touched units)) }
{
    if units == 0 {
        return Ok(());
    }
    text.extend_from_slice(b"\"t 0 ")?;
    push_number(text, u64::from(units))?;
    text.extend_from_slice(b"\",")
}

// Adds the steps of an epoch.
#[tactic(auto, unfolding(crate::specs::Texts::quoted))]
fn push_epoch(text: &mut Vec<u8>, last: u32, used: Option<u32>) -> Result<(), AllocError>
    ensures { OnOk result (text.new.items ≡ text.old.items ++ ended_steps (epoch_of last used)) }
{
    if let Some(units) = used {
        push_freed(text, last, units)?;
        push_touched(text, units)?;
    }
    text.extend_from_slice(b"\"y\",")
}

// Adds the steps of all epochs.
fn push_epochs(text: &mut Vec<u8>, uses: &[Use]) -> Result<(), AllocError>
    ensures { OnOk result (text.new.items ≡ text.old.items ++ ended_steps (trace_of uses.now)) }
{
    let mut last = 0;
    for told in uses {
        let used = told.get();
        push_epoch(text, last, used)?;
        last = used.unwrap_or(last);
    }
    Ok(())
}

// Adds the steps of a trace, with a comma between each two.
#[tactic(auto, using(crate::proofs::PartLemmas::comma_dropped))]
pub(crate) fn push_steps(text: &mut Vec<u8>, uses: &[Use]) -> Result<(), AllocError>
    ensures { OnOk result (text.new.items ≡ text.old.items ++ steps_text uses.now) }
{
    let start = text.len();
    push_epochs(text, uses)?;
    drop_comma(text, start);
    Ok(())
}
