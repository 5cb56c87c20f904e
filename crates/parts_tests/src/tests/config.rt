// Configurations: copies of them, a want of memory, and their limits.
mod domains;
mod limits;

use super::{check_eq, check_words};
use std::process::Abort;
use vm_config::{Config, ConfigError, Schedule, Setting, read_config};
use vm_domains::{Domains, GuestSpec};

const TEXT: &str =
    "{\"version\":2,\"frames\":9,\"swap\":8,\"overhead\":7,\"tax\":6,\"page_rate\":10,\"epochs\":12,\
\"guests\":[{\"name\":\"a\",\"size\":14,\"min\":13,\"autostart\":false,\"trace\":[\"w 13 0 ff\",\"i\"]}],\
\"commands\":[{\"at\":21,\"line\":\"start a\"}]}";

// The configuration of a text that has no fault.
fn config_of(rt: &(impl AllocGlobal + Abort), text: &[u8]) -> Config {
    read_config(rt.alloc(), text).expect(rt, "the text is a configuration")
}

// Asserts the frames, the swap area, the tax and the page rate.
fn check_settings(rt: &impl Abort, config: &Config, wanted: [u32; 4]) {
    let found = [
        config.setting(Setting::Frames),
        config.setting(Setting::Swap),
        config.setting(Setting::Tax),
        config.setting(Setting::PageRate),
    ];
    check_eq(rt, found, wanted);
}

// Gives each setting its greatest value.
fn set_all(rt: &impl Abort, config: &mut Config) {
    check_eq(rt, config.set(Setting::Frames, 262_144), Ok(()));
    check_eq(rt, config.set(Setting::Swap, 67_108_864), Ok(()));
    check_eq(rt, config.set(Setting::Tax, 9999), Ok(()));
    check_eq(rt, config.set(Setting::PageRate, 256), Ok(()));
}

// Asserts the epoch of the first command, and its line.
fn assert_first_command(rt: &impl Abort, commands: &Schedule) {
    let command = commands.lines().first().expect(rt, "there is a command");
    check_eq(rt, (command.at(), command.line()), (21, "start a"));
}

// Asserts the numbers of a guest, in the order of its keys, and its quantum; its seed, its stream, and whether it tells; and how many
// steps it has.
fn assert_guest_keys(rt: &impl Abort, guest: &GuestSpec) {
    let found = [
        guest.size,
        guest.min,
        guest.shares,
        guest.samples,
        guest.period,
        guest.rate,
        guest.quantum,
    ];
    check_eq(rt, found, [14, 13, 1000, 100, 1000, 16, 100]);
    check_eq(rt, (guest.seed, guest.stream, guest.tell), (0, 0, true));
    check_eq(rt, guest.trace.len(), 2);
}

// The first guest.
fn first_of<'a>(rt: &impl Abort, specs: &'a [GuestSpec]) -> &'a GuestSpec {
    specs.first().expect(rt, "there is a guest")
}

// Asserts that the first guest is `a`, and what is read of its keys.
fn assert_first_guest(rt: &impl Abort, domains: Domains) {
    let (names, specs) = domains.into_parts();
    check_eq(rt, names.get(0), Some("a"));
    assert_guest_keys(rt, first_of(rt, &specs));
}

// Asserts what the text says beside its settings.
fn check_rest(rt: &impl Abort, config: Config) {
    check_eq(rt, (config.machine.overhead, config.epochs), (7, 12));
    check_eq(rt, config.autostart.flags(), [false].as_slice());
    assert_first_command(rt, &config.commands);
    assert_first_guest(rt, config.domains);
}

// A copy of a configuration.
fn copy_of(rt: &impl Abort, config: &Config) -> Config {
    config.clone().expect(rt, "there is memory")
}

#[test]
fn a_copy_stays_as_it_was(rt: HostRuntime) {
    let mut config = config_of(&rt, TEXT.as_bytes());
    let copy = copy_of(&rt, &config);
    set_all(&rt, &mut config);
    check_settings(&rt, &config, [262_144, 67_108_864, 9999, 256]);
    check_rest(&rt, config);
    check_settings(&rt, &copy, [9, 8, 6, 10]);
    check_rest(&rt, copy);
}

// No text has this fault.
#[test]
fn a_want_of_memory_has_a_number(rt: HostRuntime) {
    check_eq(&rt, ConfigError::Memory.number(), 8);
    check_words(&rt, rt.alloc(), ConfigError::Memory, "out of memory");
}
