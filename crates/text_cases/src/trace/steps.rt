// Steps of traces: what each does, or its first fault.
ghost use Rattle.std.specs.Prelude.{◌≤◌};

use crate::table::{Columns, Outcome};
use crate::trace::actions::words_of;
use crate::trace::orders::words;
use std::alloc::{AllocError, Global};
use vm_trace::{PushError, Step, StepLimits, Trace, TraceError, parse_step, parse_step_within};

/// A version of configurations, which has a greatest guest, and steps that it reads.
#[derive(Clone, Copy)]
pub(crate) enum Version {
    One,
    Two,
    Three,
}

impl Version {
    fn of(number: u64) -> Option<Self> {
        match number {
            1 => Some(Version::One),
            2 => Some(Version::Two),
            3 => Some(Version::Three),
            _ => None,
        }
    }

    /// The step of a text by itself, for the greatest guest; none in version 3, in which a text may be many steps.
    fn parse(self, text: &str) -> Option<Result<Step, TraceError>> {
        match self {
            Version::One => Some(parse_step(text)),
            Version::Two => Some(parse_step_within(text, 262_144)),
            Version::Three => None,
        }
    }

    /// What it allows in the text of a step.
    fn limits(self) -> StepLimits
        ensures some { 1 ≤ result.pages }
        ensures few { result.pages ≤ 262144 }
    {
        match self {
            Version::One => StepLimits {
                pages: 65_536,
                version_3: false,
            },
            Version::Two => StepLimits {
                pages: 262_144,
                version_3: false,
            },
            Version::Three => StepLimits {
                pages: 262_144,
                version_3: true,
            },
        }
    }

    /// Adds the steps of a text to the trace of a guest of this size.
    fn push(self, trace: &mut Trace, text: &str, size: u32) -> Result<(), PushError> {
        trace.push_text(text, self.limits(), size)
    }
}

/// The text of a step, for a guest of some size.
#[derive(Drop)]
struct Case<'a> {
    version: Version,
    size: u32,
    text: &'a str,
    wanted: &'a str,
}

impl<'a> Case<'a> {
    fn of(line: &'a str) -> Option<Self> {
        let mut columns = Columns::of(line);
        let case = Case {
            version: Version::of(columns.number()?)?,
            size: u32::try_from(columns.number()?).ok()?,
            text: columns.quoted()?,
            wanted: columns.text()?,
        };
        columns.end()?;
        Some(case)
    }
}

/// A fault: its number, and how it reads.
pub(crate) fn told_fault(alloc: Global, fault: TraceError) -> Result<String, AllocError> {
    let number = fault as u8;
    format!(in alloc; "{number} {fault}")
}

/// What the step of a text by itself does, whose page is then to be one of the guest's.
fn came_alone(
    alloc: Global,
    case: &Case<'_>,
    read: Result<Step, TraceError>,
) -> Result<String, AllocError> {
    match read {
        Ok(step) => {
            if step.is_within(case.size) {
                words_of(alloc, step.action())
            } else {
                told_fault(alloc, TraceError::Range)
            }
        }
        Err(fault) => told_fault(alloc, fault),
    }
}

/// What the steps of a text do in a trace that they are added to. Of a fault the trace has no step.
fn came_in_trace(alloc: Global, case: &Case<'_>) -> Result<String, AllocError> {
    let mut trace = Trace::new(alloc);
    match case.version.push(&mut trace, case.text, case.size) {
        Ok(()) => words(alloc, &trace),
        Err(PushError::Fault(fault)) => {
            if trace.is_empty() {
                told_fault(alloc, fault)
            } else {
                String::from_str(alloc, "a step with a fault is added")
            }
        }
        Err(PushError::Memory) => Err(AllocError),
    }
}

/// Tries a line.
pub(crate) fn outcome(alloc: Global, line: &str) -> Result<Outcome, AllocError> {
    let Some(case) = Case::of(line) else {
        return Ok(Outcome::Malformed);
    };
    let came = came_in_trace(alloc, &case)?;
    if came.as_str() != case.wanted {
        return Ok(Outcome::Differs(came));
    }
    let Some(read) = case.version.parse(case.text) else {
        return Ok(Outcome::Agrees);
    };
    let came = came_alone(alloc, &case, read)?;
    Outcome::of(alloc, case.wanted, &came)
}
