// Logs of lackey that are long, or whose source fails.
use super::{check_eq, check_words};
use std::alloc::Global;
use std::io;
use std::io::{Error, ErrorKind, Read};
use std::process::Abort;
use vm_import::{Access, AccessKind, LineFault, LogError, LogReader};
use vm_streams::Watched;

type Next = Result<Option<Access>, LogError>;

// A text in reads of at most so many bytes, and behind it its end, or a failure.
#[derive(Drop)]
struct Reads<'a> {
    text: &'a [u8],
    most: usize,
    fails: bool,
}

impl Read for Reads<'_> {
    fn read(&mut self, buf: &mut [u8]) -> io::Result<usize> {
        if self.fails && self.text.is_empty() {
            return Err(Error::from(ErrorKind::BrokenPipe));
        }
        let count = self.most.min(buf.len()).min(self.text.len());
        let (front, rest) = self.text.split_at(count);
        buf[..count].copy_from_slice(front);
        self.text = rest;
        Ok(count)
    }
}

const FETCH: Next = Ok(Some(Access {
    address: 16,
    size: 1,
    kind: AccessKind::Fetch,
}));

// Asserts what the calls give one after the other, for a text in such reads.
fn check_reads(rt: &impl Abort, alloc: Global, reads: Reads<'_>, wanted: &[Next]) {
    let mut source = Watched::new(reads);
    let mut log = LogReader::new(alloc).expect(rt, "memory");
    for next in wanted {
        check_eq(rt, log.next_access(&mut source), *next);
    }
}

#[test]
fn a_long_line_is_passed_over(rt: HostRuntime) {
    let alloc = rt.alloc();
    let mut text = Vec::new(alloc);
    text.resize(3_000_000, b'=').expect(&rt, "memory");
    text.extend_from_slice(b"\nI  10,1\nx")
        .expect(&rt, "memory");
    let fault = LineFault::NotALine;
    let wanted = [FETCH, Err(LogError::Line { number: 3, fault })];
    for most in [4096, 65536] {
        let reads = Reads {
            text: text.as_slice(),
            most,
            fails: false,
        };
        check_reads(&rt, alloc, reads, &wanted);
    }
}

#[test]
fn a_source_that_fails_is_told(rt: HostRuntime) {
    let text = b"I  10,1\n==5== so many bytes as are looked at, and more";
    for most in [8, 65536] {
        let reads = Reads {
            text,
            most,
            fails: true,
        };
        let wanted = [FETCH, Err(LogError::Read)];
        check_reads(&rt, rt.alloc(), reads, &wanted);
    }
    let reads = Reads {
        text: b"I  10,1\n",
        most: 4,
        fails: true,
    };
    check_reads(&rt, rt.alloc(), reads, &[Err(LogError::Read)]);
}

#[test]
fn faults_of_sources_have_texts(rt: HostRuntime) {
    let alloc = rt.alloc();
    check_words(&rt, alloc, LogError::Read, "read failed");
    check_words(&rt, alloc, LogError::TooLong, "too long");
}
