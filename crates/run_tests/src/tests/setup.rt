// Configurations with their reports, and readers and writers that fail.
use super::check_eq;
use std::alloc::Global;
use std::io;
use std::io::{Error, ErrorKind};
use std::process::Abort;
use std::thread::Threads;
use vm_sim::{Host, Open, RunError, Sink, Source, run};

pub(super) const FIRST_READ: &str =
    "{\"version\":1,\"frames\":100,\"epochs\":1,\"guests\":[{\"name\":\"web\",\"size\":4,\"min\":4,\
\"trace\":[\"w 0 0 ff\",\"r 0 0 4\"]}]}";

pub(super) const FIRST_READ_REPORT: &str =
    "epoch 0\n> start web\nok\nstate high free 96\nweb r 0 0 ff000000\nend\n\
web target 4 held 4 swapped 0 balloon 0 active 65536 bad 0 done 2\n\
machine 100 held 4 free 96 overhead 0\n";

pub(super) const LOW_AND_BACK: &str =
    "{\"version\":1,\"frames\":100,\"swap\":90,\"page_rate\":1,\"quantum\":1,\"epochs\":4,\"guests\":[\
{\"name\":\"a\",\"size\":100,\"min\":10,\"trace\":[\"i\",\"r 0 0 1\",\"r 1 0 1\"]},\
{\"name\":\"b\",\"size\":5,\"min\":5,\"autostart\":false}],\"commands\":[{\"at\":1,\"line\":\"start b\"}]}";

pub(super) const LOW_AND_BACK_REPORT: &str =
    "epoch 0\n> start a\nok\nstate high free 90\ngrant a 86\n\
epoch 1\n> start b\nrevoke a 1\nok\nstate low free 0\nrevoke a 7\npage a 1\nblock a\n\
epoch 2\nstate hard free 7\na r 0 0 00\nepoch 3\nstate soft free 7\na r 1 0 00\nend\n\
a target 88 held 88 swapped 0 balloon 12 active 65536 bad 0 done 3\n\
b target 5 held 5 swapped 0 balloon 0 active 65536 bad 0 done 0\n\
machine 100 held 93 free 7 overhead 0\n";

pub(super) const SWAP_AND_STALL: &str =
    "{\"version\":1,\"frames\":100,\"swap\":2,\"epochs\":2,\"guests\":[{\"name\":\"g\",\"size\":4,\"min\":2,\
\"samples\":1,\"seed\":42,\"stream\":54,\"trace\":[\"w 0 0 aa\",\"w 1 0 bb\",\"w 2 0 cc\",\"r 0 0 1\"]}],\
\"commands\":[{\"at\":0,\"line\":\"setmem g 8\"}]}";

pub(super) const TWO_IN_ORDER: &str =
    "{\"version\":1,\"frames\":100,\"quantum\":1,\"epochs\":2,\"guests\":[\
{\"name\":\"a\",\"size\":2,\"min\":2,\"trace\":[\"w 0 0 0a\",\"r 0 0 1\"]},\
{\"name\":\"b\",\"size\":1,\"min\":1,\"trace\":[\"r 0 0 2\"]}]}";

pub(super) const OVERHEAD_ADMITTED: &str =
    "{\"version\":1,\"frames\":100,\"overhead\":1,\"epochs\":1,\"guests\":[\
{\"name\":\"a\",\"size\":60,\"min\":60},{\"name\":\"b\",\"size\":38,\"min\":38}]}";

pub(super) const OVERHEAD_ADMITTED_REPORT: &str =
    "epoch 0\n> start a\nok\n> start b\nok\nstate low free 0\nend\n\
a target 60 held 60 swapped 0 balloon 0 active 65536 bad 0 done 0\n\
b target 38 held 38 swapped 0 balloon 0 active 65536 bad 0 done 0\n\
machine 100 held 98 free 0 overhead 2\n";

// A reader that gives these bytes, then so many spaces, and then fails or ends.
#[derive(Drop)]
pub(super) struct Given<'a> {
    pub(super) bytes: &'a [u8],
    pub(super) spaces: usize,
    pub(super) ends: bool,
    pub(super) has_failed: bool,
}

impl Source for Given<'_> {
    ghost use Rattle.std.specs.Prelude.{None};

    ghost remaining = { λ _. None };

    ghost has_failed = { λ s. s.has_failed };

    fn read(&mut self, buf: &mut [u8]) -> io::Result<usize> {
        let count = buf.len().min(self.bytes.len());
        if count > 0 {
            buf[..count].copy_from_slice(&self.bytes[..count]);
            self.bytes = &self.bytes[count..];
            return Ok(count);
        }
        let spaces = buf.len().min(self.spaces);
        if spaces == 0 && !self.ends {
            self.has_failed = true;
            return Err(Error::from(ErrorKind::BrokenPipe));
        }
        buf[..spaces].fill(b' ');
        self.spaces -= spaces;
        Ok(spaces)
    }

    fn failed(&self) -> bool {
        self.has_failed
    }
}

// A reader of a text.
pub(super) fn text(bytes: &[u8]) -> Given<'_> {
    Given {
        bytes,
        spaces: 0,
        ends: true,
        has_failed: false,
    }
}

// A reader that fails after these bytes.
pub(super) fn broken(bytes: &[u8]) -> Given<'_> {
    Given {
        bytes,
        spaces: 0,
        ends: false,
        has_failed: false,
    }
}

// A writer that takes at most so many bytes at a time, and nothing more once it is full.
#[derive(Drop)]
pub(super) struct Narrow {
    pub(super) held: Vec<u8>,
    pub(super) room: usize,
    pub(super) width: usize,
    pub(super) has_failed: bool,
}

impl Sink for Narrow {
    ghost use Rattle.std.specs.Prelude.{Some};

    ghost contents = { λ s. Some s.held.items };

    ghost has_failed = { λ s. s.has_failed };

    fn write(&mut self, buf: &[u8]) -> io::Result<usize> {
        let count = buf.len().min(self.room).min(self.width);
        if self.held.extend_from_slice(&buf[..count]).is_err() {
            self.has_failed = true;
            return Err(Error::from(ErrorKind::OutOfMemory));
        }
        self.room -= count;
        if count == 0 && !buf.is_empty() {
            self.has_failed = true;
        }
        Ok(count)
    }

    fn failed(&self) -> bool {
        self.has_failed
    }
}

// With room for so many bytes, three at a time.
pub(super) fn with_room(alloc: Global, room: usize) -> Narrow {
    Narrow {
        held: Vec::new(alloc),
        room,
        width: 3,
        has_failed: false,
    }
}

// The error of a run, where there is one. A host is closed.
pub(super) fn fault_of(outcome: Result<Host, RunError>) -> Option<RunError> {
    match outcome {
        Ok(host) => {
            host.close();
            None
        }
        Err(error) => Some(error),
    }
}

// Asserts how a run ended: with this error, or with none.
pub(super) fn assert_fault(rt: &impl Abort, fault: Option<RunError>, wanted: Option<RunError>) {
    check_eq(rt, fault, wanted);
}

// Runs a configuration on one worker, and asserts how that ended, and what was written.
pub(super) fn assert_run(
    rt: &(impl Abort + AllocGlobal + Threads + Sync),
    reader: &mut Given,
    writer: &mut Narrow,
    wanted: Option<RunError>,
    written: &[u8],
) {
    let outcome = run(rt, rt.alloc(), &Open, 1, reader, writer);
    assert_fault(rt, fault_of(outcome), wanted);
    assert_bytes(rt, writer.held.as_slice(), written);
}

// Asserts that these are the bytes that were read or written.
pub(super) fn assert_bytes(rt: &impl Abort, bytes: &[u8], wanted: &[u8]) {
    check_eq(rt, bytes, wanted);
}

// Asserts whether a reader has failed.
pub(super) fn assert_reader_failed(rt: &impl Abort, reader: &impl Source, wanted: bool) {
    check_eq(rt, reader.failed(), wanted);
}

// Asserts whether a writer has failed.
pub(super) fn assert_writer_failed(rt: &impl Abort, writer: &impl Sink, wanted: bool) {
    check_eq(rt, writer.failed(), wanted);
}
