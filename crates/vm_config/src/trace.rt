// The steps of a guest, read from their texts.
ghost use Rattle.std.specs.Prelude.{◌≡◌, ◌≤◌, [], map, length, slice_get, unwrap_or, option_and_then, All, IfOk};
ghost use Rattle.serde_json.specs.Find.{as_str};
ghost use Rattle.vm_json.specs.View.{items_seen};
ghost use Rattle.vm_trace.specs.Limits.{IsStep, IsWithin};
ghost use Rattle.vm_config.specs.Keys.{text_of};
ghost use Rattle.vm_config.specs.Outcomes.{IsOrMemory};
ghost use Rattle.vm_config.specs.Reading.{step_limits, steps_from};
ghost use Rattle.vm_config.specs.Versions.{AreLimits};

use crate::error::ConfigError;
use crate::version::Limits;
use std::alloc::Global;
use vm_json::Elements;
use vm_trace::{PushError, StepLimits, Trace};

// The text that the item at a place is, and of another item the empty text.
fn text_at<'a>(items: Elements<'_, 'a>, place: usize) -> &'a str
    ensures { result.now ≡ unwrap_or (option_and_then as_str (slice_get (items_seen items.entry) place)) [] }
{
    items.text(place).unwrap_or("")
}

// What a version allows the texts of steps.
fn step_limits(limits: &Limits) -> StepLimits
    requires { AreLimits limits.now }
    ensures { result ≡ step_limits limits.now }
{
    StepLimits {
        pages: limits.size as u32,
        version_3: limits.knows_version_3,
    }
}

// The steps, or the first fault with its place.
pub(crate) fn trace(
    alloc: Global,
    limits: &Limits,
    size: u32,
    guest: usize,
    texts: Elements<'_, '_>,
) -> Result<Trace, ConfigError>
    requires { AreLimits limits.now }
    ensures steps { IsOrMemory result (steps_from limits.now size guest 0 (map text_of (items_seen texts.entry)) []) }
    ensures within { IfOk result (All (IsWithin size)) }
    ensures bounded { IfOk result (All IsStep) }
    ensures count { IfOk result (λ steps. length steps ≤ 1000000) }
{
    let mut steps = Trace::with_capacity(alloc, texts.len()).map_err(|_| ConfigError::Memory)?;
    let allowed = step_limits(limits);
    for place in 0..texts.len() {
        match steps.push_text(text_at(texts, place), allowed, size) {
            Ok(()) => {}
            Err(PushError::Memory) => return Err(ConfigError::Memory),
            Err(PushError::Fault(fault)) => {
                return Err(ConfigError::Trace {
                    guest,
                    step: place,
                    fault,
                });
            }
        }
    }
    Ok(steps)
}
