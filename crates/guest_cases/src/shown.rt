// Texts of what is there.
use crate::facts::separator;
use std::alloc::{AllocError, Global};
use vm_guest::{PageRead, Stats, WorkAhead};

/// Reads, as `0 0 ff00, 1 16 aa`: each its page, the place of its first byte, and its bytes; or `none`.
pub fn reads_text(alloc: Global, reads: &[PageRead]) -> Result<String, AllocError> {
    let mut text = String::new(alloc);
    for read in reads {
        let PageRead { page, offset, .. } = *read;
        write!(text, "{}{page} {offset} ", separator(&text))?;
        for byte in read.bytes.as_slice() {
            write!(text, "{byte:02x}")?;
        }
    }
    or_none(text)
}

fn or_none(mut text: String) -> Result<String, AllocError> {
    if text.is_empty() {
        text.push_str("none")?;
    }
    Ok(text)
}

/// What the driver has said, as `free 4096, total 8192`, or `none`.
pub fn stats_text(alloc: Global, stats: &Stats) -> Result<String, AllocError> {
    let said = [
        ("swap-in", stats.swap_in),
        ("swap-out", stats.swap_out),
        ("major-faults", stats.major_faults),
        ("minor-faults", stats.minor_faults),
        ("free", stats.free),
        ("total", stats.total),
        ("available", stats.available),
    ];
    let mut text = String::new(alloc);
    for (name, number) in said {
        if let Some(number) = number {
            write!(text, "{}{name} {number}", separator(&text))?;
        }
    }
    or_none(text)
}

/// The work of an epoch, as `steps 2, pages 0, beside 58`.
pub fn work_text(alloc: Global, work: &WorkAhead) -> Result<String, AllocError> {
    let WorkAhead {
        steps,
        pages,
        beside,
    } = *work;
    format!(in alloc; "steps {steps}, pages {pages}, beside {beside}")
}

/// Bytes, as `ff 00 ee`, where a page that isn't there stands as `no`.
pub fn bytes_text(alloc: Global, bytes: &[Option<u8>]) -> Result<String, AllocError> {
    let mut text = String::new(alloc);
    for byte in bytes {
        if !text.is_empty() {
            text.push_str(" ")?;
        }
        match byte {
            Some(byte) => write!(text, "{byte:02x}")?,
            None => text.push_str("no")?,
        }
    }
    Ok(text)
}
