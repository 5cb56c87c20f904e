// Characters that no raw buffer has, at each place of its bytes.
use crate::pairs::Pair;
use crate::table::Outcome;
use crate::trace::steps::told_fault;
use std::alloc::{AllocError, Global};
use vm_trace::{PushError, StepLimits, Trace};

/// Pairs of hexadecimal digits, in which each digit comes.
const PAIRS: [&str; 11] = [
    "01", "23", "45", "67", "89", "ab", "cd", "ef", "AB", "CD", "EF",
];

/// How many pairs are before the characters at most, and in all.
const MOST_PAIRS: usize = 63;

/// Adds so many pairs to a text, from one of them on.
fn push_pairs(text: &mut String, first: usize, count: usize) -> Result<(), AllocError> {
    for place in 0..count {
        let number = usize::wrapping_add(first, place) % 11;
        text.push_str(PAIRS[number])?;
    }
    Ok(())
}

/// The text of a raw buffer with these characters behind so many pairs, and then others up to 63.
fn post_with(alloc: Global, before: usize, characters: &str) -> Result<String, AllocError> {
    let mut text = String::from_str(alloc, "p i ")?;
    push_pairs(&mut text, before, before)?;
    text.push_str(characters)?;
    push_pairs(&mut text, 0, usize::saturating_sub(MOST_PAIRS, before))?;
    Ok(text)
}

/// What comes of a step that is added to an empty trace.
fn came(alloc: Global, text: &str) -> Result<String, AllocError> {
    let mut trace = Trace::new(alloc);
    let limits = StepLimits {
        pages: 65_536,
        version_3: false,
    };
    let pushed = trace.push_text(text, limits, 8);
    if !trace.is_empty() {
        return String::from_str(alloc, "a step is added");
    }
    match pushed {
        Ok(()) => String::from_str(alloc, "no step is added"),
        Err(PushError::Fault(fault)) => told_fault(alloc, fault),
        Err(PushError::Memory) => Err(AllocError),
    }
}

/// Tries a line, with the characters behind each number of pairs.
pub(crate) fn outcome(alloc: Global, line: &str) -> Result<Outcome, AllocError> {
    let Some(case) = Pair::quoted(line) else {
        return Ok(Outcome::Malformed);
    };
    for before in 0..MOST_PAIRS + 1 {
        let text = post_with(alloc, before, case.text)?;
        let answer = came(alloc, &text)?;
        if answer.as_str() != case.wanted {
            let told = format!(in alloc; "behind {before} pairs {answer}")?;
            return Ok(Outcome::Differs(told));
        }
    }
    Ok(Outcome::Agrees)
}
