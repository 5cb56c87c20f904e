ghost use Rattle.std.specs.Prelude.{◌≤◌};

mod limits;

use crate::tests::check_eq;
use std::alloc::Global;
use std::process::Abort;
use vm_domains::{Domains, GuestSpec, MachineSpec, Names, Percents};
use vm_trace::Trace;

// A guest of 4 pages with this minimum.
fn guest_of(alloc: Global, min: u32) -> GuestSpec
    requires some_frames { 1 ≤ min }
    requires few_frames { min ≤ 4 }
{
    GuestSpec {
        size: 4,
        min,
        shares: 1000,
        samples: 100,
        period: 1000,
        rate: 16,
        quantum: 100,
        seed: 0,
        stream: 0,
        tell: true,
        own_driver: true,
        page: 4,
        trace: Trace::new(alloc),
    }
}

// Adds a guest of 4 pages with this minimum under a new name.
fn add_domain(rt: &(impl AllocGlobal + Abort), domains: &mut Domains, name: &str, min: u32)
    requires some_frames { 1 ≤ min }
    requires few_frames { min ≤ 4 }
{
    let added = domains.len() < 256
        && domains.position(name).is_none()
        && domains.push(name, guest_of(rt.alloc(), min)).is_ok();
    check_eq(rt, (name, added), (name, true));
}

// Two guests, whose names differ in one letter.
fn two_domains(rt: &(impl AllocGlobal + Abort)) -> Domains {
    let mut domains = Domains::new(rt.alloc());
    add_domain(rt, &mut domains, "web", 1);
    add_domain(rt, &mut domains, "Web", 2);
    domains
}

// Asserts how many guests there are, and where each name is.
fn assert_two_domains(rt: &impl Abort, domains: &Domains) {
    check_eq(rt, domains.len(), 2);
    check_eq(rt, domains.position("web"), Some(0));
    check_eq(rt, domains.position("Web"), Some(1));
    check_eq(rt, domains.position("we"), None);
}

// The minima of the guests, where they are two.
fn minima_of(specs: &[GuestSpec]) -> Option<[u32; 2]> {
    match specs {
        [first, second] => Some([first.min, second.min]),
        _ => None,
    }
}

// Asserts the names of the two guests, without them, and the minima of both.
fn assert_two_parts(rt: &impl Abort, names: &Names, specs: &[GuestSpec]) {
    check_eq(rt, names.len(), 2);
    check_eq(rt, names.position("Web"), Some(1));
    check_eq(rt, names.get(0), Some("web"));
    check_eq(rt, names.get(2), None);
    check_eq(rt, minima_of(specs), Some([1, 2]));
}

#[test]
fn domains_are_found_by_their_names(rt: HostRuntime) {
    let domains = two_domains(&rt);
    assert_two_domains(&rt, &domains);
    let (names, specs) = domains.into_parts();
    assert_two_parts(&rt, &names, &specs);
    assert_two_domains(&rt, &Domains::from_parts(names, specs));
}

#[test]
fn a_machine_may_be_the_greatest(rt: HostRuntime) {
    let machine = MachineSpec {
        frames: 262_144,
        swap: 67_108_864,
        overhead: 1024,
        tax: 9999,
        percent: Percents {
            high: 10_000,
            soft: 10_000,
            hard: 10_000,
            low: 0,
        },
        page_rate: 256,
        rebalance: 262_144,
        page: 1_048_576,
    };
    check_eq(&rt, machine.percent.soft, 10_000);
}
