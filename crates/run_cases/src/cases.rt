// Files of cases: blocks of lines, parted by blank lines.
use anyhow::{Result, bail};
use std::alloc::{AllocError, Global};
use std::fs;
use std::rt::Files;

/// A line of a block: its number in the file, the word that it begins with, and what comes after that and a space.
#[derive(Clone, Copy)]
pub(crate) struct Entry<'a> {
    pub(crate) number: usize,
    pub(crate) key: &'a str,
    pub(crate) value: &'a str,
}

fn read_entry(number: usize, line: &str) -> Entry<'_> {
    let (key, value) = line.split_once(' ').unwrap_or((line, ""));
    Entry { number, key, value }
}

/// The blocks of a file. Lines that begin with `#` are no part of any.
pub(crate) fn blocks(alloc: Global, text: &str) -> Result<Vec<Vec<Entry<'_>>>, AllocError> {
    let mut blocks = Vec::new(alloc);
    let mut block = Vec::new(alloc);
    let mut number: usize = 0;
    for line in text.lines() {
        number = number.saturating_add(1);
        if line.starts_with('#') {
            continue;
        }
        if !line.is_empty() {
            block.push(read_entry(number, line))?;
        } else if !block.is_empty() {
            blocks.push(block)?;
            block = Vec::new(alloc);
        }
    }
    if !block.is_empty() {
        blocks.push(block)?;
    }
    Ok(blocks)
}

/// The number of the line in which a block begins.
pub(crate) fn first_line(block: &[Entry]) -> usize {
    block.first().map_or(0, |entry| entry.number)
}

/// Whether a word is one of these.
fn is_one_of(word: &str, words: &[&str]) -> bool {
    for one in words {
        if *one == word {
            return true;
        }
    }
    false
}

/// Refuses a block in which a line begins with another word than these.
pub(crate) fn check_keys(block: &[Entry], keys: &[&str]) -> Result<()> {
    for entry in block {
        if !is_one_of(entry.key, &*keys) {
            bail!("line {}: not a line of this kind", entry.number);
        }
    }
    Ok(())
}

/// What the one line with this word says, if there is one.
pub(crate) fn single<'a>(block: &[Entry<'a>], key: &str) -> Result<Option<&'a str>> {
    let mut found = None;
    for entry in block {
        if entry.key == key {
            if found.is_some() {
                bail!("line {}: a second \"{key}\"", entry.number);
            }
            found = Some(entry.value);
        }
    }
    Ok(found)
}

/// What the one line with this word says.
pub(crate) fn needed<'a>(block: &[Entry<'a>], key: &str) -> Result<&'a str> {
    match single(block, key)? {
        Some(value) => Ok(value),
        None => bail!("no line \"{key}\""),
    }
}

/// A text that stands on a line, between quotation marks. In it `\n` is the end of a line, and `\r` what stands before that in a CSV
/// text; nothing else is escaped.
pub(crate) fn quoted(alloc: Global, value: &str) -> Result<Option<String>, AllocError> {
    let Some(text) = value
        .strip_prefix('"')
        .and_then(|rest| rest.strip_suffix('"'))
    else {
        return Ok(None);
    };
    let text = text.replace(alloc, "\\n", "\n")?;
    Ok(Some(text.as_str().replace(alloc, "\\r", "\r")?))
}

/// The bytes that a line names: its own text between quotation marks, or the file of that name.
pub(crate) fn bytes(rt: &(impl Files + AllocGlobal), value: &str) -> Result<Vec<u8>> {
    if let Some(text) = quoted(rt.alloc(), value)? {
        return Ok(text.into_bytes());
    }
    Ok(fs::read(rt, value)?)
}

/// Refuses bytes that are not those that are wanted.
pub(crate) fn check_bytes(found: &[u8], wanted: &[u8]) -> Result<()> {
    if found == wanted {
        return Ok(());
    }
    let pairs = found.iter().zip(wanted.iter());
    let same = pairs
        .take_while(|(found, wanted)| **found == **wanted)
        .count();
    bail!("writes something else than wanted from byte {same} on")
}
