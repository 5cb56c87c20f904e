// Traces of guests to test with.
ghost use Rattle.std.specs.Prelude.{◌≡◌, ◌≤◌, ◌+◌, All, length};
ghost use Rattle.vm_trace.specs.Limits.{IsStep, IsWithin};

use std::process::Abort;
use vm_trace::{Trace, parse_step_within};

// Adds a step of a guest of this size to a trace.
pub(super) fn add_step(rt: &impl Abort, trace: &mut Trace, size: u32, text: &str)
    requires some_pages { 1 ≤ size }
    requires few_pages { size ≤ 262144 }
    requires within { All (IsWithin size) trace.old }
    requires bounded { All IsStep trace.old }
    ensures within { All (IsWithin size) trace.new }
    ensures bounded { All IsStep trace.new }
    ensures length { length trace.new ≡ length trace.old + 1 }
{
    let Ok(step) = parse_step_within(text, size) else {
        panic!(rt; "no step")
    };
    // To look at a step's action shows its limits.
    let _ = step.action();
    let Ok(()) = trace.push(step) else {
        panic!(rt; "memory")
    };
}

// A trace of these steps of a guest of this size.
pub(super) fn trace_of(rt: &(impl Abort + AllocGlobal), size: u32, steps: &[&str]) -> Trace
    requires some_pages { 1 ≤ size }
    requires few_pages { size ≤ 262144 }
    ensures within { All (IsWithin size) result }
    ensures bounded { All IsStep result }
    ensures short { length result ≤ 1000 }
{
    let mut trace = Trace::new(rt.alloc());
    for step in steps {
        add_step(rt, &mut trace, size, step);
    }
    assert!(rt; trace.len() <= 1000);
    trace
}
