// JSON arrays of texts with one other item among them.
use crate::escapes::unescaped;
use crate::json::texts::told;
use crate::table::{Columns, Outcome};
use std::alloc::{AllocError, Global};

// The texts of an array, in turn. They are told as they are written.
const TEXTS: [&str; 6] = [
    "\"\"",
    "\"a\"",
    "\"],:{\"",
    "\"ä😀\"",
    "\"abcdefghijklmno\"",
    "\"abcdefghijklmnopqrstuvwxyzabcdef\"",
];

// What is written, and how that is told once it is read.
#[derive(Clone, Copy)]
struct Sample<'a> {
    written: &'a str,
    told: &'a str,
}

// In place of the first text one with escapes.
const ESCAPED: Sample<'static> = Sample {
    written: "\"\\u0062\\/\"",
    told: "\"b/\"",
};

// What stands around an array, with a mark where that stands, and an item that is no text.
#[derive(Clone, Copy)]
struct Case<'a> {
    around: Sample<'a>,
    other: Sample<'a>,
}

impl<'a> Case<'a> {
    fn of(line: &'a str) -> Option<Self> {
        let mut columns = Columns::of(line);
        let case = Case {
            around: sample_of(&mut columns)?,
            other: sample_of(&mut columns)?,
        };
        columns.end()?;
        Some(case)
    }
}

fn sample_of<'a>(columns: &mut Columns<'a>) -> Option<Sample<'a>> {
    Some(Sample {
        written: columns.text()?,
        told: columns.text()?,
    })
}

// As many items, which are the texts in turn, but for another one at a place if there is one.
#[derive(Clone, Copy)]
struct Items<'a> {
    len: usize,
    is_escaped: bool,
    other: Option<(usize, Sample<'a>)>,
}

impl<'a> Items<'a> {
    fn at(self, place: usize) -> Sample<'a> {
        if let Some((there, other)) = self.other {
            if there == place {
                return other;
            }
        }
        if self.is_escaped && place % 6 == 0 {
            return ESCAPED;
        }
        Sample {
            written: TEXTS[place % 6],
            told: TEXTS[place % 6],
        }
    }

    // How the array is kept: as texts or as values.
    fn form(self) -> &'static str {
        if self.other.is_some() { "V" } else { "T" }
    }
}

// A text, and how it is to be told.
#[derive(Drop)]
struct Made {
    written: String,
    told: String,
}

impl Made {
    fn new(alloc: Global) -> Self {
        Made {
            written: String::new(alloc),
            told: String::new(alloc),
        }
    }

    fn push(&mut self, written: &str, told: &str) -> Result<(), AllocError> {
        self.written.push_str(written)?;
        self.told.push_str(told)
    }

    // Adds an array, with these blanks wherever some may stand.
    fn push_array(&mut self, items: Items<'_>, blanks: &str) -> Result<(), AllocError> {
        self.push("[", items.form())?;
        self.push(blanks, "[")?;
        for place in 0..items.len {
            if place > 0 {
                self.push(",", "")?;
                self.push(blanks, "")?;
            }
            let item = items.at(place);
            self.push(item.written, item.told)?;
            self.push(blanks, ",")?;
        }
        self.push("]", "]")
    }
}

// The text of an array with what is around it.
fn surrounded(
    alloc: Global,
    around: Sample<'_>,
    items: Items<'_>,
    blanks: &str,
) -> Result<Option<Made>, AllocError> {
    let Some((before, behind)) = around.written.split_once('@') else {
        return Ok(None);
    };
    let Some((before_told, behind_told)) = around.told.split_once('@') else {
        return Ok(None);
    };
    let mut made = Made::new(alloc);
    made.push(before, before_told)?;
    made.push_array(items, blanks)?;
    made.push(behind, behind_told)?;
    Ok(Some(made))
}

// Tries an array with and without blanks. What is told otherwise is the outcome.
fn try_items(alloc: Global, around: Sample<'_>, items: Items<'_>) -> Result<Outcome, AllocError> {
    for blanks in ["", " \t\r\n"] {
        let Some(made) = surrounded(alloc, around, items, blanks)? else {
            return Ok(Outcome::Malformed);
        };
        let bytes = unescaped(alloc, &made.written)?;
        let wanted = unescaped(alloc, &made.told)?;
        let came = told(alloc, &bytes)?;
        if came.as_bytes() != wanted.as_slice() {
            return Ok(Outcome::Differs(made.written));
        }
    }
    Ok(Outcome::Agrees)
}

// Tries so many texts, and the same with the other item at each place.
fn try_len(
    alloc: Global,
    case: Case<'_>,
    len: usize,
    is_escaped: bool,
) -> Result<Outcome, AllocError> {
    let texts = Items {
        len,
        is_escaped,
        other: None,
    };
    let mut outcome = try_items(alloc, case.around, texts)?;
    for place in 0..len {
        if let Outcome::Agrees = outcome {
            let other = Some((place, case.other));
            let items = Items {
                len,
                is_escaped,
                other,
            };
            outcome = try_items(alloc, case.around, items)?;
        }
    }
    Ok(outcome)
}

/// Tries a line: arrays of 0 to 17 items.
pub(crate) fn outcome(alloc: Global, line: &str) -> Result<Outcome, AllocError> {
    let Some(case) = Case::of(line) else {
        return Ok(Outcome::Malformed);
    };
    for len in 0..18 {
        for is_escaped in [false, true] {
            match try_len(alloc, case, len, is_escaped)? {
                Outcome::Agrees => {}
                other => return Ok(other),
            }
        }
    }
    Ok(Outcome::Agrees)
}
