// Odd keys of objects, and what is found in policies.
use crate::escapes::unescaped;
use crate::table::{Columns, Outcome};
use std::alloc::{AllocError, Global};
use vm_json::{ReadError, Scratch};
use vm_keys::{ToldKey, odd_keys};
use vm_policy_check::check_policy;

// An object, the keys that are known, and what is told of the odd ones.
#[derive(Clone, Copy)]
struct Case<'a> {
    object: &'a str,
    known: &'a str,
    wanted: &'a str,
}

impl<'a> Case<'a> {
    fn of(line: &'a str) -> Option<Self> {
        let mut columns = Columns::of(line);
        let case = Case {
            object: columns.text()?,
            known: columns.text()?,
            wanted: columns.text()?,
        };
        columns.end()?;
        Some(case)
    }
}

// Adds a line to what is told, behind the others.
fn push_told(told: &mut String, line: &str) -> Result<(), AllocError> {
    if !told.is_empty() {
        told.push_str("; ")?;
    }
    told.push_str(line)
}

// What is told, or that it is nothing.
fn outcome(alloc: Global, wanted: &str, told: &str) -> Result<Outcome, AllocError> {
    if told.is_empty() {
        Outcome::of(alloc, wanted, &"none")
    } else {
        Outcome::of(alloc, wanted, &told)
    }
}

// The words of a text.
fn words_of<'a>(alloc: Global, text: &'a str) -> Result<Vec<&'a str>, AllocError> {
    let mut words = Vec::new(alloc);
    for word in text.split_whitespace() {
        words.push(word)?;
    }
    Ok(words)
}

// What is told of the odd keys of an object.
fn told_keys(alloc: Global, case: Case<'_>) -> Result<String, ReadError> {
    let bytes = unescaped(alloc, case.object)?;
    let mut scratch = Scratch::new(alloc);
    let object = vm_json::read(alloc, &bytes, &mut scratch)?;
    let known = words_of(alloc, case.known)?;
    let mut told = String::new(alloc);
    for odd in odd_keys(alloc, &object, &known)? {
        let whose = "a guest";
        let line = ToldKey { odd, whose };
        push_told(&mut told, format!(in alloc; "{line}")?.as_str())?;
    }
    Ok(told)
}

/// Tries the odd keys of an object.
pub(crate) fn keys(alloc: Global, line: &str) -> Result<Outcome, AllocError> {
    let Some(case) = Case::of(line) else {
        return Ok(Outcome::Malformed);
    };
    match told_keys(alloc, case) {
        Ok(told) => outcome(alloc, case.wanted, told.as_str()),
        Err(fault) => Outcome::of(alloc, case.wanted, &fault),
    }
}

// What is found in a policy.
fn told_findings(alloc: Global, text: &str) -> Result<String, AllocError> {
    let bytes = unescaped(alloc, text)?;
    let mut scratch = Scratch::new(alloc);
    let mut told = String::new(alloc);
    for finding in check_policy(alloc, &bytes, &mut scratch)? {
        push_told(&mut told, format!(in alloc; "{finding}")?.as_str())?;
    }
    Ok(told)
}

/// Tries what is found in a policy.
pub(crate) fn policy(alloc: Global, line: &str) -> Result<Outcome, AllocError> {
    let Some((text, wanted)) = line.split_once(" | ") else {
        return Ok(Outcome::Malformed);
    };
    let told = told_findings(alloc, text.trim())?;
    outcome(alloc, wanted.trim(), told.as_str())
}
