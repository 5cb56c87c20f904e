// Traces: what their steps do, in order.
use crate::pairs::Pair;
use crate::table::Outcome;
use crate::trace::actions::words_at;
use std::alloc::{AllocError, Global};
use vm_trace::{PushError, StepLimits, Trace, parse_step_within};

/// What stands between two steps.
const SEPARATOR: &str = "; ";

/// The pages of the greatest guest.
const PAGES: u32 = 262_144;

/// What version 2 allows.
const LIMITS: StepLimits = StepLimits {
    pages: PAGES,
    version_3: false,
};

/// What the steps of a trace do, and that none is behind them.
pub(crate) fn words(alloc: Global, trace: &Trace) -> Result<String, AllocError> {
    if trace.is_empty() {
        return String::from_str(alloc, "no steps");
    }
    let mut words = String::new(alloc);
    for place in 0..trace.len() {
        if place != 0 {
            words.push_str(SEPARATOR)?;
        }
        words.push_str(words_at(alloc, trace, place)?.as_str())?;
    }
    if trace.step(trace.len()).is_some() || trace.kind(trace.len()).is_some() {
        words.push_str("; and a step behind the last one")?;
    }
    Ok(words)
}

/// What steps do that are read by themselves.
fn words_by_step(alloc: Global, steps: &str) -> Result<String, PushError> {
    let mut trace = Trace::with_capacity(alloc, 1)?;
    for text in steps.split(SEPARATOR) {
        let step = parse_step_within(text, PAGES)?;
        trace.push(step)?;
    }
    let words = words(alloc, &trace)?;
    Ok(words)
}

/// A trace of steps that are added as texts.
fn added(alloc: Global, steps: &str) -> Result<Trace, PushError> {
    let mut trace = Trace::new(alloc);
    for text in steps.split(SEPARATOR) {
        trace.push_text(text, LIMITS, PAGES)?;
    }
    Ok(trace)
}

/// What steps do that are added as texts.
fn words_by_text(alloc: Global, steps: &str) -> Result<String, PushError> {
    let trace = added(alloc, steps)?;
    let words = words(alloc, &trace)?;
    Ok(words)
}

/// What the steps of a copy do, when the trace itself has got one step more.
fn words_of_copy(alloc: Global, steps: &str) -> Result<String, PushError> {
    let mut trace = added(alloc, steps)?;
    let copy = trace.clone()?;
    trace.push_text("w 0 0 00", LIMITS, 1)?;
    let words = if trace.len() == usize::saturating_add(copy.len(), 1) {
        words(alloc, &copy)?
    } else {
        String::from_str(alloc, "the trace has not got one step more")?
    };
    Ok(words)
}

/// What comes of steps, which may have a fault.
fn came(alloc: Global, words: Result<String, PushError>) -> Result<String, AllocError> {
    match words {
        Ok(words) => Ok(words),
        Err(PushError::Fault(fault)) => format!(in alloc; "{fault}"),
        Err(PushError::Memory) => Err(AllocError),
    }
}

/// Tries a line: as steps that are read by themselves, as steps that are added as texts, and as a copy.
pub(crate) fn outcome(alloc: Global, line: &str) -> Result<Outcome, AllocError> {
    let Some(case) = Pair::of(line) else {
        return Ok(Outcome::Malformed);
    };
    let by_step = came(alloc, words_by_step(alloc, case.text))?;
    if by_step.as_str() != case.wanted {
        return Ok(Outcome::Differs(by_step));
    }
    let by_text = came(alloc, words_by_text(alloc, case.text))?;
    if by_text.as_str() != case.wanted {
        return Ok(Outcome::Differs(by_text));
    }
    let of_copy = came(alloc, words_of_copy(alloc, case.text))?;
    Outcome::of(alloc, case.wanted, &of_copy)
}
