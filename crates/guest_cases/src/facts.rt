// What is shown of a guest, by names.
use crate::draft::Draft;
use crate::fault::Fault;
use crate::value::Value;
use std::alloc::{AllocError, Global};
use vm_guest::GuestView;

const NAMES: [&str; 17] = [
    "size", "min", "cap", "shares", "target", "held", "resident", "swapped", "used", "balloon",
    "actual", "active", "demand", "bad", "done", "stalled", "blocked",
];

/// What is shown of a guest.
#[derive(Clone, Copy)]
pub struct Facts {
    // In the order of the names.
    values: [Value; 17],
}

impl Facts {
    pub fn of(view: &GuestView) -> Facts {
        Facts {
            values: [
                Value::from(view.size),
                Value::from(view.min),
                Value::from(view.cap),
                Value::from(view.shares),
                Value::from(view.target),
                Value::from(view.held),
                Value::from(view.resident),
                Value::from(view.swapped),
                Value::from(view.used),
                Value::from(view.balloon),
                Value::from(view.actual),
                Value::from(view.active),
                Value::from(view.demand),
                Value::from(view.bad),
                Value::from(view.done),
                Value::from(view.stalled),
                Value::from(view.blocked),
            ],
        }
    }

    /// What is to be seen of a guest that has just started: it has its minimum of frames, all of them spares, and asks for the
    /// others up to its size.
    pub fn at_start(draft: &Draft) -> Facts {
        Facts::of(&GuestView {
            size: draft.size,
            min: draft.min,
            cap: draft.size,
            shares: draft.shares,
            target: draft.min,
            held: draft.min,
            resident: 0,
            swapped: 0,
            used: 0,
            balloon: 0,
            actual: 0,
            active: 65536,
            demand: u64::from(draft.size.saturating_sub(draft.min)),
            bad: 0,
            done: 0,
            stalled: None,
            blocked: false,
            own_driver: true,
        })
    }

    /// The same but for these, as `resident 2, stalled no`. No text changes nothing.
    pub fn with(&self, text: &str) -> Result<Facts, Fault> {
        let mut facts = *self;
        if text.is_empty() {
            return Ok(facts);
        }
        for pair in text.split(", ") {
            let Some((name, word)) = pair.split_once(' ') else {
                return Err(Fault::Unknown);
            };
            facts.set(name, Value::parse(word)?)?;
        }
        Ok(facts)
    }

    fn set(&mut self, name: &str, value: Value) -> Result<(), Fault> {
        for (known, place) in NAMES.iter().zip(self.values.iter_mut()) {
            if *known == name {
                *place = value;
                return Ok(());
            }
        }
        Err(Fault::Unknown)
    }

    /// Those that are otherwise than is wanted, as `resident 2, stalled no`.
    fn other_than(&self, alloc: Global, wanted: &Facts) -> Result<String, AllocError> {
        let mut text = String::new(alloc);
        for ((name, value), other) in NAMES.iter().zip(&self.values).zip(&wanted.values) {
            if value != other {
                write!(text, "{}{name} {value}", separator(&text))?;
            }
        }
        Ok(text)
    }

    /// Compares all with those that are wanted.
    pub fn compare(&self, alloc: Global, wanted: &Facts) -> Result<(), Fault> {
        let others = self.other_than(alloc, wanted)?;
        if others.is_empty() {
            Ok(())
        } else {
            Err(Fault::Found(others))
        }
    }
}

/// What stands before another part of a list.
pub fn separator(text: &String) -> &'static str {
    if text.is_empty() { "" } else { ", " }
}
