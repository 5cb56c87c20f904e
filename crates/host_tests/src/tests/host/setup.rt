// Machines and guests to test with.
ghost use Rattle.std.specs.Prelude.{◌≤◌, All, length};
ghost use Rattle.vm_trace.specs.Limits.{IsStep, IsWithin};

use std::process::Abort;
use vm_host::{Domains, GuestSpec, MachineSpec, PageRead, Percents};
use vm_trace::{Bytes, Trace, parse_step_within};

// A machine of so many frames with the defaults of a configuration, but for its swap area.
pub(super) fn machine(frames: u32, swap: u32) -> MachineSpec
    requires some_frames { 1 ≤ frames }
    requires few_frames { frames ≤ 1000 }
    requires few_pages { swap ≤ 1000 }
{
    MachineSpec {
        frames,
        swap,
        overhead: 0,
        tax: 7500,
        percent: Percents {
            high: 600,
            soft: 400,
            hard: 200,
            low: 100,
        },
        page_rate: 16,
        rebalance: 0,
        page: 4,
    }
}

// Adds a step of a guest of this size to a trace.
fn add_step(rt: &impl Abort, trace: &mut Trace, size: u32, text: &str)
    requires some_pages { 1 ≤ size }
    requires few_pages { size ≤ 262144 }
    requires within { All (IsWithin size) trace.old }
    requires bounded { All IsStep trace.old }
    ensures within { All (IsWithin size) trace.new }
    ensures bounded { All IsStep trace.new }
{
    let Ok(step) = parse_step_within(text, size) else {
        panic!(rt; "no step")
    };
    // To look at a step's action shows its limits.
    let _ = step.action();
    let Ok(()) = trace.push(step) else {
        panic!(rt; "memory")
    };
}

// A trace of a guest of this size.
fn trace_of(rt: &(impl AllocGlobal + Abort), size: u32, steps: &[&str]) -> Trace
    requires some_pages { 1 ≤ size }
    requires few_pages { size ≤ 262144 }
    ensures within { All (IsWithin size) result }
    ensures bounded { All IsStep result }
    ensures short { length result ≤ 1000 }
{
    let mut trace = Trace::new(rt.alloc());
    for step in steps {
        add_step(rt, &mut trace, size, step);
    }
    assert!(rt; trace.len() <= 1000);
    trace
}

// What a test says of a guest. The rest are the defaults of a configuration.
#[derive(Clone, Copy)]
pub(super) struct Shape {
    pub(super) size: u32,
    pub(super) min: u32,
}

// A guest of so many pages with this minimum.
pub(super) fn guest(size: u32, min: u32) -> Shape {
    Shape { size, min }
}

// Adds a guest with a trace, under a name that isn't there.
pub(super) fn add_guest(
    rt: &(impl AllocGlobal + Abort),
    domains: &mut Domains,
    name: &str,
    shape: Shape,
    steps: &[&str],
) {
    assert!(rt; 1 <= shape.min && shape.min <= shape.size && shape.size <= 1000);
    assert!(rt; domains.len() < 256 && domains.position(name).is_none());
    let spec = GuestSpec {
        size: shape.size,
        min: shape.min,
        shares: 1000,
        samples: 100,
        period: 1000,
        rate: 16,
        quantum: 100,
        seed: 0,
        stream: 0,
        tell: true,
        own_driver: true,
        page: 4,
        trace: trace_of(rt, shape.size, steps),
    };
    match domains.push(name, spec) {
        Ok(()) => {}
        Err(_spec) => panic!(rt; "memory"),
    }
}

// A read at the beginning of a page.
pub(super) fn read(page: u32, bytes: &[u8]) -> PageRead
    requires { length bytes.now ≤ 64 }
{
    PageRead {
        page,
        offset: 0,
        bytes: Bytes::from_slice(bytes),
    }
}
