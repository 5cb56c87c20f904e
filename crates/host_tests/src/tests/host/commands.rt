// What is shown of a guest's memory.
use super::lone_host::{LoneHost, quiet};
use super::setup::{guest, machine};
use std::process::Abort;
use std::thread::Threads;
use vm_host::{DomainStatistics, Outcome, State, Stats};

// What the driver tells by itself, and what a driver tells that posts a buffer of its own.
#[test]
fn statistics(rt: HostRuntime) {
    let rt = &rt;
    let none = Stats::default();
    let by_itself = Stats {
        minor_faults: Some(0),
        free: Some(16384),
        total: Some(16384),
        available: Some(16384),
        ..none
    };
    let posted = Stats {
        total: Some(65536),
        ..none
    };
    let repeated = Stats {
        free: Some(4096),
        total: Some(8192),
        ..none
    };
    statistics_after(rt, "i", by_itself);
    statistics_after(rt, "p s 05000000010000000000", posted);
    statistics_after(
        rt,
        "p s 040000100000000000006300010000000000000005000020000000000000",
        repeated,
    );
}

// What is shown of a guest that takes this one step.
fn statistics_after(rt: &(impl AllocGlobal + Abort + Threads + Sync), step: &str, stats: Stats) {
    let mut lone = LoneHost::of_guests(rt, machine(100, 0), &[("g", guest(4, 4))], &[step]);
    let shown = DomainStatistics {
        actual: 16,
        rss: 16,
        stats,
    };
    let told = quiet(State::High, 96);
    lone.round_tells(rt, &["start g"], told);
    lone.round_answers(rt, &[("dommemstat g", Outcome::Shown(shown))], told);
    lone.close();
}
