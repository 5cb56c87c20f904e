// Inputs and outputs that end early, or never.
use super::check_eq;
use super::setup::{
    FIRST_READ, FIRST_READ_REPORT, Given, LOW_AND_BACK, LOW_AND_BACK_REPORT, Narrow,
    SWAP_AND_STALL, assert_bytes, assert_fault, assert_reader_failed, assert_run,
    assert_writer_failed, broken, fault_of, text, with_room,
};
use std::alloc::Global;
use std::io;
use std::io::{Error, ErrorKind, Read, Write};
use std::process::Abort;
use vm_sim::{ConfigError, Open, RunError, Watched, read_text, run};

#[test]
fn prefixes_are_no_configurations(rt: HostRuntime) {
    let whole = SWAP_AND_STALL.as_bytes();
    for length in 0..whole.len() {
        let mut writer = with_room(rt.alloc(), 10_000);
        let refused = Some(RunError::Config(ConfigError::NotJson));
        assert_run(&rt, &mut text(&whole[..length]), &mut writer, refused, &[]);
    }
}

#[test]
fn a_failed_read_writes_nothing(rt: HostRuntime) {
    let whole = FIRST_READ.as_bytes();
    for length in 0..whole.len() {
        let mut reader = broken(&whole[..length]);
        let mut writer = with_room(rt.alloc(), 10_000);
        assert_run(&rt, &mut reader, &mut writer, Some(RunError::Read), &[]);
        assert_reader_failed(&rt, &reader, true);
    }
}

#[test]
fn a_text_is_read_to_its_end(rt: HostRuntime) {
    let alloc = rt.alloc();
    let bytes = LOW_AND_BACK.as_bytes();
    let read = read_text(alloc, &mut text(bytes)).expect(&rt, "a text");
    assert_bytes(&rt, read.as_slice(), bytes);
    let failed = read_text(alloc, &mut broken(bytes));
    assert_fault(&rt, failed.err(), Some(RunError::Read));
}

const MAX_INPUT: usize = 16_777_216;

// A text with so many spaces behind it.
fn spaced(bytes: &[u8], spaces: usize) -> Given<'_> {
    Given {
        bytes,
        spaces,
        ends: true,
        has_failed: false,
    }
}

#[test]
fn an_input_has_a_greatest_length(rt: HostRuntime) {
    let bytes = FIRST_READ.as_bytes();
    let room = usize::saturating_sub(MAX_INPUT, bytes.len());
    let mut writer = with_room(rt.alloc(), 10_000);
    let report = FIRST_READ_REPORT.as_bytes();
    assert_run(&rt, &mut spaced(bytes, room), &mut writer, None, report);

    let mut endless = spaced(bytes, 1_000_000_000);
    let mut writer = with_room(rt.alloc(), 10_000);
    assert_run(&rt, &mut endless, &mut writer, Some(RunError::Read), &[]);
    let taken = usize::saturating_sub(1_000_000_000, endless.spaces);
    assert!(rt; taken <= usize::saturating_add(room, 1));
}

#[test]
fn a_writer_that_fails_has_a_front_of_the_report(rt: HostRuntime) {
    let report = LOW_AND_BACK_REPORT.as_bytes();
    for room in 0..report.len() {
        let mut reader = text(LOW_AND_BACK.as_bytes());
        let mut writer = with_room(rt.alloc(), room);
        let front = &report[..room];
        assert_run(&rt, &mut reader, &mut writer, Some(RunError::Write), front);
        assert_writer_failed(&rt, &writer, true);
    }
}

#[test]
fn a_slow_writer_has_the_whole_report(rt: HostRuntime) {
    let mut reader = text(LOW_AND_BACK.as_bytes());
    let mut writer = Narrow {
        held: Vec::new(rt.alloc()),
        room: 10_000,
        width: 1,
        has_failed: false,
    };
    let report = LOW_AND_BACK_REPORT.as_bytes();
    assert_run(&rt, &mut reader, &mut writer, None, report);
}

// A reader and a writer whose every other call is interrupted.
#[derive(Drop)]
struct Restless<T> {
    inner: T,
    is_interrupted: bool,
}

impl<R: Read> Read for Restless<R> {
    fn read(&mut self, buf: &mut [u8]) -> io::Result<usize> {
        self.is_interrupted = !self.is_interrupted;
        if self.is_interrupted {
            return Err(Error::from(ErrorKind::Interrupted));
        }
        self.inner.read(buf)
    }
}

impl<W: Write> Write for Restless<W> {
    fn write(&mut self, buf: &[u8]) -> io::Result<usize> {
        self.is_interrupted = !self.is_interrupted;
        if self.is_interrupted {
            return Err(Error::from(ErrorKind::Interrupted));
        }
        self.inner.write(buf)
    }

    fn flush(&mut self) -> io::Result<()> {
        self.inner.flush()
    }
}

#[test]
fn interrupted_calls_are_tried_again(rt: HostRuntime) {
    let mut reader = Watched::new(Restless {
        inner: FIRST_READ.as_bytes(),
        is_interrupted: false,
    });
    let mut held = Vec::new(rt.alloc());
    let mut writer = Watched::new(Restless {
        inner: &mut held,
        is_interrupted: false,
    });
    let outcome = run(&rt, rt.alloc(), &Open, 1, &mut reader, &mut writer);
    assert_fault(&rt, fault_of(outcome), None);
    assert_reader_failed(&rt, &reader, false);
    assert_writer_failed(&rt, &writer, false);
    assert_bytes(&rt, held.as_slice(), FIRST_READ_REPORT.as_bytes());
}

// Asserts how an error reads.
fn assert_words(rt: &impl Abort, alloc: Global, error: RunError, wanted: &str) {
    let words = error.to_string(alloc).expect(rt, "memory");
    check_eq(rt, words.as_str(), wanted);
}

#[test]
fn errors_have_texts(rt: HostRuntime) {
    let errors = [
        (
            RunError::Config(ConfigError::Missing),
            "the configuration is refused: a required key is absent",
        ),
        (RunError::Read, "a read failed, or the input is too long"),
        (RunError::Write, "a write failed"),
        (RunError::Memory, "out of memory"),
        (RunError::Workers, "the number of workers is not 1 to 64"),
    ];
    for (error, wanted) in errors {
        assert_words(&rt, rt.alloc(), error, wanted);
    }
}
