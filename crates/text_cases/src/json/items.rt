// The texts among the items of arrays.
use crate::escapes::unescaped;
use crate::pairs::Pair;
use crate::table::Outcome;
use std::alloc::{AllocError, Global};
use vm_json::{Elements, Scratch, items, read};

// The text at a place, in quotation marks.
fn push_item(out: &mut String, item: Option<&str>) -> Result<(), AllocError> {
    match item {
        Some(text) => write!(out, "{text:?} "),
        None => out.push_str("- "),
    }
}

// The texts among the items of an array, each other item as a dash, and the end.
fn told_items(alloc: Global, found: Elements<'_, '_>) -> Result<String, AllocError> {
    let mut out = String::new(alloc);
    for place in 0..found.len() {
        push_item(&mut out, found.text(place))?;
    }
    match found.text(found.len()) {
        Some(text) => write!(out, "no end {text:?}")?,
        None => out.push_str("end")?,
    }
    Ok(out)
}

/// Tries a line.
pub(crate) fn outcome(alloc: Global, line: &str) -> Result<Outcome, AllocError> {
    let Some(case) = Pair::of(line) else {
        return Ok(Outcome::Malformed);
    };
    let bytes = unescaped(alloc, case.text)?;
    let mut scratch = Scratch::new(alloc);
    let Ok(value) = read(alloc, &bytes, &mut scratch) else {
        return Ok(Outcome::Malformed);
    };
    match items(&value) {
        Some(found) => Outcome::of(alloc, case.wanted, &told_items(alloc, found)?),
        None => Outcome::of(alloc, case.wanted, &"no array"),
    }
}
