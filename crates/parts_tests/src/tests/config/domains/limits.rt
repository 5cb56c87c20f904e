// The greatest number of domains.
use super::add_domain;
use crate::tests::check_eq;
use std::process::Abort;
use vm_domains::Domains;

const MOST_DOMAINS: usize = 256;

// Adds a guest under the name of a number, as g0.
fn add_numbered(rt: &(impl AllocGlobal + Abort), domains: &mut Domains, number: usize) {
    let alloc = rt.alloc();
    let name = format!(in alloc; "g{number}").expect(rt, "there is memory");
    add_domain(rt, domains, name.as_str(), 1);
}

// Adds guests of these many names, g0 and so on.
fn add_many(rt: &(impl AllocGlobal + Abort), domains: &mut Domains, count: usize) {
    for number in 0..count {
        add_numbered(rt, domains, number);
    }
}

// Asserts that there are 256 guests, and where the first and the last one are.
fn assert_most_domains(rt: &impl Abort, domains: &Domains) {
    check_eq(rt, domains.len(), 256);
    check_eq(rt, domains.position("g0"), Some(0));
    check_eq(rt, domains.position("g255"), Some(255));
    check_eq(rt, domains.position("g256"), None);
}

#[test]
fn the_256th_domain_has_room(rt: HostRuntime) {
    let mut domains = Domains::new(rt.alloc());
    add_many(&rt, &mut domains, MOST_DOMAINS);
    assert_most_domains(&rt, &domains);
}
