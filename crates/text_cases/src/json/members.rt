// Members of objects.
use crate::escapes::unescaped;
use crate::table::{Columns, Outcome};
use std::alloc::{AllocError, Global};
use vm_json::{Scratch, Value, is_object, member, read, take_member, truth, whole};

// An object, the name of a member, and what that is.
#[derive(Clone, Copy)]
struct Case<'a> {
    object: &'a str,
    name: &'a str,
    wanted: &'a str,
}

impl<'a> Case<'a> {
    fn of(line: &'a str) -> Option<Self> {
        let mut columns = Columns::of(line);
        let case = Case {
            object: columns.text()?,
            name: columns.text()?,
            wanted: columns.text()?,
        };
        columns.end()?;
        Some(case)
    }
}

// A member that is a whole number or a truth.
fn told_member(alloc: Global, found: Option<&Value<'_>>) -> Result<String, AllocError> {
    let Some(value) = found else {
        return String::from_str(alloc, "none");
    };
    if let Some(number) = whole(value) {
        return format!(in alloc; "{number}");
    }
    match truth(value) {
        Some(is_true) => format!(in alloc; "{is_true}"),
        None => String::from_str(alloc, "another"),
    }
}

// What the member is where it stands, or, if that is another, once it is moved out.
fn told_twice(alloc: Global, object: Value<'_>, name: &str) -> Result<String, AllocError> {
    if !is_object(&object) {
        return String::from_str(alloc, "no object");
    }
    let there = told_member(alloc, member(&object, name))?;
    let taken = take_member(object, name);
    let moved = told_member(alloc, taken.as_ref())?;
    if there.as_str() == moved.as_str() {
        return Ok(there);
    }
    format!(in alloc; "{there}, moved out {moved}")
}

/// Tries a line.
pub(crate) fn outcome(alloc: Global, line: &str) -> Result<Outcome, AllocError> {
    let Some(case) = Case::of(line) else {
        return Ok(Outcome::Malformed);
    };
    let bytes = unescaped(alloc, case.object)?;
    let mut scratch = Scratch::new(alloc);
    match read(alloc, &bytes, &mut scratch) {
        Ok(value) => Outcome::of(alloc, case.wanted, &told_twice(alloc, value, case.name)?),
        Err(fault) => Outcome::of(alloc, case.wanted, &fault),
    }
}
