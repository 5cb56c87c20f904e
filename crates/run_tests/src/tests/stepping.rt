// Runs that go on by one epoch at a time on this thread, and what comes back at their ends.
ghost use Rattle.std.specs.Prelude.{◌≡◌, ◌+◌, ◌<◌};
ghost use Rattle.vm_host.specs.declared.phase.Phase.TheVariants.{Waiting};

use super::check_eq;
use super::setup::{
    LOW_AND_BACK, LOW_AND_BACK_REPORT, TWO_IN_ORDER, assert_bytes, text, with_room,
};
use std::process::Abort;
use vm_sim::{
    Config, Host, Open, SteppedRun, boundary_text, end_text, epoch_text, read_config, run,
};

// The next epoch with its boundary, and what is told of them.
fn tell_epoch(rt: &(impl Abort + AllocGlobal), run: &mut SteppedRun, number: u32, told: &mut String)
    requires left { run.old.done < run.old.epochs }
    requires waits { run.old.host.phase ≡ Waiting }
    ensures waits { run.new.host.phase ≡ Waiting }
    ensures counted { run.new.done ≡ run.old.done + 1 }
    ensures epochs { run.new.epochs ≡ run.old.epochs }
{
    let boundary = run.boundary(rt.alloc()).expect(rt, "memory");
    let text = boundary_text(rt.alloc(), number, run.host(), &boundary).expect(rt, "memory");
    told.push_str(text.as_str()).expect(rt, "memory");
    run.epoch_alone(&Open).expect(rt, "memory");
    let text = epoch_text(rt.alloc(), run.host()).expect(rt, "memory");
    told.push_str(text.as_str()).expect(rt, "memory");
}

// What is told of a run from its first epoch to its end.
fn told_of(rt: &(impl Abort + AllocGlobal), run: &mut SteppedRun) -> String
    requires fresh { run.old.done ≡ 0 }
    requires waits { run.old.host.phase ≡ Waiting }
{
    let mut told = String::new(rt.alloc());
    for number in 0..run.epochs() {
        tell_epoch(rt, run, number, &mut told);
    }
    let text = end_text(rt.alloc(), run.host()).expect(rt, "memory");
    told.push_str(text.as_str()).expect(rt, "memory");
    told
}

// The run of a configuration before its first epoch.
fn begin(rt: &(impl Abort + AllocGlobal), config: Config) -> SteppedRun
    ensures fresh { result.done ≡ 0 }
    ensures waits { result.host.phase ≡ Waiting }
{
    SteppedRun::new(rt.alloc(), config).expect(rt, "there is memory")
}

// Runs a configuration to its end, asserts its report, and gives back what it was run from.
fn run_through(rt: &(impl Abort + AllocGlobal), config: Config, report: &str) -> Config {
    let mut run = begin(rt, config);
    let told = told_of(rt, &mut run);
    let config = run.close();
    assert_bytes(rt, told.as_str().as_bytes(), report.as_bytes());
    config
}

// Ends a run after its first boundary, and gives back what it was run from.
fn end_early(rt: &(impl Abort + AllocGlobal), config: Config) -> Config {
    let mut run = begin(rt, config);
    assert!(rt; run.epochs() > 0);
    let boundary = run.boundary(rt.alloc()).expect(rt, "there is memory");
    assert!(rt; boundary.answers.as_slice().len() > 0);
    run.close()
}

// What comes back of a run begins again and goes the same way, wherever the run ended.
#[test]
fn a_run_begins_again(rt: HostRuntime) {
    let config = read_config(rt.alloc(), LOW_AND_BACK.as_bytes()).expect(&rt, "a configuration");
    let config = run_through(&rt, config, LOW_AND_BACK_REPORT);
    let config = end_early(&rt, config);
    run_through(&rt, config, LOW_AND_BACK_REPORT);
}

// The first byte of a page, where it is shown.
fn first_byte(host: &Host, name: &str, page: u32) -> Option<u8> {
    let mut bytes = [0; 4096];
    if host.peek(name, page, &mut bytes) {
        Some(bytes[0])
    } else {
        None
    }
}

// Asserts what is shown of three domains.
fn assert_first_bytes(rt: &impl Abort, shown: [Option<u8>; 3], wanted: [Option<u8>; 3]) {
    check_eq(rt, shown, wanted);
}

#[test]
fn the_host_shows_memory_at_the_end(rt: HostRuntime) {
    let mut writer = with_room(rt.alloc(), 10_000);
    let outcome = run(
        &rt,
        rt.alloc(),
        &Open,
        1,
        &mut text(TWO_IN_ORDER.as_bytes()),
        &mut writer,
    );
    let host = outcome.expect(&rt, "there is memory");
    let shown = [
        first_byte(&host, "a", 0),
        first_byte(&host, "b", 1),
        first_byte(&host, "c", 0),
    ];
    host.close();
    assert_first_bytes(&rt, shown, [Some(0x0a), None, None]);
}
