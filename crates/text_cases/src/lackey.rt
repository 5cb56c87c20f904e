// Logs of lackey.
use crate::escapes::unescaped;
use crate::pairs::Pair;
use crate::table::Outcome;
use std::alloc::{AllocError, Global};
use std::io;
use std::io::Read;
use vm_import::{Access, AccessKind, LogReader};
use vm_streams::Watched;

// In pieces of at most so many bytes a log is read, each time from its beginning.
const PIECES: [usize; 11] = [1, 2, 7, 13, 14, 15, 31, 32, 33, 65536, usize::MAX];

// A text in pieces of at most so many bytes.
#[derive(Drop)]
struct Pieces<'a> {
    text: &'a [u8],
    most: usize,
}

impl Read for Pieces<'_> {
    fn read(&mut self, buf: &mut [u8]) -> io::Result<usize> {
        let count = self.most.min(buf.len()).min(self.text.len());
        let (front, rest) = self.text.split_at(count);
        buf[..count].copy_from_slice(front);
        self.text = rest;
        Ok(count)
    }
}

fn word_of(kind: AccessKind) -> &'static str {
    match kind {
        AccessKind::Fetch => "fetch",
        AccessKind::Load => "load",
        AccessKind::Store => "store",
        AccessKind::Modify => "modify",
    }
}

fn push_access(out: &mut String, access: Access) -> Result<(), AllocError> {
    let word = word_of(access.kind);
    let address = access.address;
    let size = access.size;
    write!(out, "{word} {address:x} {size}, ")
}

// Tells what comes next. The answer is whether that is an access.
fn tell_next(
    log: &mut LogReader,
    source: &mut Watched<Pieces<'_>>,
    out: &mut String,
) -> Result<bool, AllocError> {
    match log.next_access(source) {
        Ok(Some(access)) => {
            push_access(out, access)?;
            return Ok(true);
        }
        Ok(None) => out.push_str("end")?,
        Err(fault) => write!(out, "{fault}")?,
    }
    Ok(false)
}

// All accesses of a log in pieces of at most so many bytes, and why there is no more: `end` where it ends, and stays so.
fn told(alloc: Global, text: &[u8], most: usize) -> Result<String, AllocError> {
    let mut source = Watched::new(Pieces { text, most });
    let mut log = LogReader::new(alloc)?;
    let mut out = String::new(alloc);
    for _ in 0..u64::MAX {
        if !tell_next(&mut log, &mut source, &mut out)? {
            break;
        }
    }
    if out.ends_with("end") {
        out.push_str(", ")?;
        tell_next(&mut log, &mut source, &mut out)?;
    }
    Ok(out)
}

// Tries a log in pieces of each size.
fn try_log(alloc: Global, text: &[u8], wanted: &str) -> Result<Outcome, AllocError> {
    for most in PIECES {
        match Outcome::of(alloc, wanted, &told(alloc, text, most)?)? {
            Outcome::Agrees => {}
            other => return Ok(other),
        }
    }
    Ok(Outcome::Agrees)
}

/// Tries a log.
pub(crate) fn log(alloc: Global, line: &str) -> Result<Outcome, AllocError> {
    let Some(case) = Pair::quoted(line) else {
        return Ok(Outcome::Malformed);
    };
    let text = unescaped(alloc, case.text)?;
    try_log(alloc, &text, case.wanted)
}

/// Tries a line that is refused, as the third one of a log.
pub(crate) fn refused_line(alloc: Global, line: &str) -> Result<Outcome, AllocError> {
    let Some(case) = Pair::quoted(line) else {
        return Ok(Outcome::Malformed);
    };
    let text = format!(in alloc; "==5== Lackey\nI  10,1\n{}\n L 20,1\n", case.text)?;
    let wanted = format!(in alloc; "fetch 10 1, line 3: {}", case.wanted)?;
    try_log(alloc, text.as_bytes(), &wanted)
}
