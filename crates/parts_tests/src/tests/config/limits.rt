// The longest text that a run reads.
use super::config_of;
use crate::tests::check_eq;
use std::process::Abort;
use vm_config::Config;

const FIRST_READ: &str =
    "{\"version\":1,\"frames\":100,\"epochs\":1,\"guests\":[{\"name\":\"web\",\"size\":4,\"min\":4,\
\"trace\":[\"w 0 0 ff\",\"r 0 0 4\"]}]}";

const MOST_BYTES: usize = 16_777_216;

// Adds so many spaces.
fn add_spaces(rt: &impl Abort, bytes: &mut Vec<u8>, count: usize) {
    for _ in 0..count {
        bytes.push(b' ').expect(rt, "there is memory");
    }
}

// The first read with so many spaces behind it that it has this length.
fn filled_up(rt: &(impl AllocGlobal + Abort), length: usize) -> Vec<u8> {
    let text = FIRST_READ.as_bytes();
    let mut bytes = Vec::from_slice(rt.alloc(), text).expect(rt, "there is memory");
    add_spaces(rt, &mut bytes, length.saturating_sub(text.len()));
    bytes
}

// Asserts that a configuration is that of the first read.
fn assert_first_read(rt: &impl Abort, config: &Config) {
    check_eq(rt, (config.machine.frames, config.epochs), (100, 1));
    check_eq(rt, config.domains.position("web"), Some(0));
}

// Asserts that a text has this length, and that it is read as the first read.
fn assert_longest(rt: &(impl AllocGlobal + Abort), text: &[u8]) {
    check_eq(rt, text.len(), MOST_BYTES);
    assert_first_read(rt, &config_of(rt, text));
}

#[test]
fn a_text_of_16777216_bytes_is_read(rt: HostRuntime) {
    assert_longest(&rt, &filled_up(&rt, MOST_BYTES));
}
