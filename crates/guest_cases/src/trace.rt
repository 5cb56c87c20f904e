// The steps of a guest.
ghost use Rattle.std.specs.Prelude.{◌≤◌, All, IfOk, OnOk, length};
ghost use Rattle.vm_trace.specs.Limits.{IsStep, IsWithin};

use crate::fault::Fault;
use std::alloc::Global;
use vm_trace::{PushError, StepLimits, Trace};

// Adds the steps of a text of version 3 for a guest of this size to a trace.
fn add_steps(trace: &mut Trace, size: u32, text: &str) -> Result<(), Fault>
    requires some_pages { 1 ≤ size }
    requires few_pages { size ≤ 262144 }
    requires within { All (IsWithin size) trace.old }
    requires bounded { All IsStep trace.old }
    ensures within { OnOk result (All (IsWithin size) trace.new) }
    ensures bounded { OnOk result (All IsStep trace.new) }
{
    let limits = StepLimits {
        pages: size,
        version_3: true,
    };
    match trace.push_text(text, limits, size) {
        Ok(()) => Ok(()),
        Err(PushError::Fault(_)) => Err(Fault::Unknown),
        Err(PushError::Memory) => Err(Fault::Memory),
    }
}

/// A trace of these steps of a guest of this size, as `w 0 0 aa, i`, or of none where there is no text.
pub fn trace_of(alloc: Global, size: u32, steps: &str) -> Result<Trace, Fault>
    requires some_pages { 1 ≤ size }
    requires few_pages { size ≤ 262144 }
    ensures within { IfOk result (λ trace. All (IsWithin size) trace) }
    ensures bounded { IfOk result (λ trace. All IsStep trace) }
    ensures short { IfOk result (λ trace. length trace ≤ 1000) }
{
    let mut trace = Trace::new(alloc);
    if steps.is_empty() {
        return Ok(trace);
    }
    for step in steps.split(", ") {
        add_steps(&mut trace, size, step)?;
    }
    if trace.len() > 1000 {
        return Err(Fault::NotAllowed);
    }
    Ok(trace)
}
