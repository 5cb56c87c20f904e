// The thresholds of a host, and its states.
use crate::policy::rows::next_number;
use crate::table::{Columns, Outcome};
use std::alloc::{AllocError, Global};
use vm_plan::{Percents, State, Thresholds, next_state};

/// The thresholds of the hosts whose states and plans are tried: 6, 4, 2 and 1 frame of 100.
pub(crate) const PERCENTS: Percents = Percents {
    high: 600,
    soft: 400,
    hard: 200,
    low: 100,
};

/// The state that a word is.
pub(crate) fn state_of(word: &str) -> Option<State> {
    match word {
        "high" => Some(State::High),
        "soft" => Some(State::Soft),
        "hard" => Some(State::Hard),
        "low" => Some(State::Low),
        _ => None,
    }
}

// The four percents that stand behind one another, in hundredths.
fn percents_of(text: &str) -> Option<Percents> {
    let mut words = text.split_whitespace();
    let percents = Percents {
        high: next_number(&mut words)?,
        soft: next_number(&mut words)?,
        hard: next_number(&mut words)?,
        low: next_number(&mut words)?,
    };
    if words.next().is_some() {
        return None;
    }
    Some(percents)
}

// A machine, and its thresholds.
#[derive(Clone, Copy)]
struct MachineCase<'a> {
    frames: u32,
    percents: Percents,
    wanted: &'a str,
}

impl<'a> MachineCase<'a> {
    fn of(line: &'a str) -> Option<Self> {
        let mut columns = Columns::of(line);
        let case = MachineCase {
            frames: u32::try_from(columns.number()?).ok()?,
            percents: percents_of(columns.text()?)?,
            wanted: columns.text()?,
        };
        columns.end()?;
        Some(case)
    }
}

// The thresholds of a machine, if it is within its limits.
fn thresholds_of(frames: u32, percents: Percents) -> Option<Thresholds> {
    if frames > 262_144 || percents.high > 10_000 || percents.soft > 10_000 {
        return None;
    }
    if percents.hard > 10_000 || percents.low > 10_000 {
        return None;
    }
    Some(Thresholds::of(frames, percents))
}

fn told(alloc: Global, thresholds: Thresholds) -> Result<String, AllocError> {
    let Thresholds {
        high,
        soft,
        hard,
        low,
        margin,
        goal,
    } = thresholds;
    format!(in alloc; "{high} {soft} {hard} {low} {margin} {goal}")
}

/// Tries the thresholds of a machine.
pub(crate) fn machine(alloc: Global, line: &str) -> Result<Outcome, AllocError> {
    let Some(case) = MachineCase::of(line) else {
        return Ok(Outcome::Malformed);
    };
    match thresholds_of(case.frames, case.percents) {
        Some(thresholds) => Outcome::of(alloc, case.wanted, &told(alloc, thresholds)?),
        None => Ok(Outcome::Malformed),
    }
}

// A state, and the one that follows.
#[derive(Clone, Copy)]
struct StateCase<'a> {
    old: State,
    free: u32,
    wanted: &'a str,
}

impl<'a> StateCase<'a> {
    fn of(line: &'a str) -> Option<Self> {
        let mut columns = Columns::of(line);
        let case = StateCase {
            old: state_of(columns.text()?)?,
            free: u32::try_from(columns.number()?).ok()?,
            wanted: columns.text()?,
        };
        columns.end()?;
        Some(case)
    }
}

/// Tries the state after an epoch that ends with so many free frames of 100.
pub(crate) fn state(alloc: Global, line: &str) -> Result<Outcome, AllocError> {
    let Some(case) = StateCase::of(line) else {
        return Ok(Outcome::Malformed);
    };
    let found = next_state(case.old, case.free, &Thresholds::of(100, PERCENTS));
    Outcome::of(alloc, case.wanted, &found.as_str())
}
