// A host without domains.
ghost use Rattle.std.specs.Prelude.{◌≤◌};

use super::lone_host::{LoneHost, quiet};
use super::setup::machine;
use crate::tests::check_eq;
use std::process::Abort;
use std::thread::Threads;
use vm_host::{Domains, Host, Open, Outcome, Refusal, State};

#[test]
fn a_host_without_domains_goes_on(rt: HostRuntime) {
    let rt = &rt;
    let mut lone = LoneHost::new(rt, machine(100, 0), Domains::new(rt.alloc()));
    assert_empty(rt, lone.host());
    go_on(rt, &mut lone, 1);
    go_on(rt, &mut lone, 64);
    assert_empty(rt, lone.host());
    lone.close();
}

// It has no domains, and all its frames are free.
fn assert_empty(rt: &impl Abort, host: &Host) {
    check_eq(rt, (host.len(), host.free()), (0, 100));
}

// A line that names a domain is refused, and the epoch behind it ends.
fn go_on(rt: &(impl AllocGlobal + Abort + Threads + Sync), lone: &mut LoneHost, workers: u32)
    requires { (1 ≤ workers) × (workers ≤ 64) }
{
    let refused = Outcome::Refused(Refusal::NoSuchDomain);
    lone.boundary_answers(rt, &[("start a", refused)], quiet(State::High, 100));
    lone.epoch(rt, &Open, workers);
}
