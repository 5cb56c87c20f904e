// Lists of values.
use crate::optional::optional;
use crate::table::{Columns, Outcome};
use std::alloc::{AllocError, Global};
use vm_config::is_name;
use vm_lists::{
    Limits, NameRule, NamedList, Unit, ValueList, check_names, push_value, read_list,
    read_named_list,
};

const FRAMES: Limits = Limits {
    unit: Unit::Whole,
    least: 1,
    greatest: 67_108_864,
};

const TAX: Limits = Limits {
    unit: Unit::Hundredths,
    least: 0,
    greatest: 9999,
};

const ALL: Limits = Limits {
    unit: Unit::Whole,
    least: 0,
    greatest: u32::MAX,
};

// The limits that a word stands for.
fn limits_of(word: &str) -> Option<Limits> {
    match word {
        "frames" => Some(FRAMES),
        "tax" => Some(TAX),
        "all" => Some(ALL),
        _ => None,
    }
}

// A list, and its values or its fault.
#[derive(Clone, Copy)]
struct Case<'a> {
    limits: Limits,
    text: &'a str,
    wanted: &'a str,
}

impl<'a> Case<'a> {
    fn of(line: &'a str) -> Option<Self> {
        let mut columns = Columns::of(line);
        let case = Case {
            limits: limits_of(columns.text()?)?,
            text: columns.quoted()?,
            wanted: columns.text()?,
        };
        columns.end()?;
        Some(case)
    }
}

// The values of a list, and its end.
fn told(alloc: Global, list: &ValueList) -> Result<String, AllocError> {
    let mut out = String::new(alloc);
    if list.is_empty() {
        out.push_str("empty, ")?;
    }
    for place in 0..list.len() {
        push_value_at(&mut out, list, place)?;
    }
    push_value_at(&mut out, list, list.len())?;
    Ok(out)
}

fn push_value_at(out: &mut String, list: &ValueList, place: u64) -> Result<(), AllocError> {
    match list.get(place) {
        Some(value) => write!(out, "{value}, "),
        None => out.push_str("end"),
    }
}

/// Tries a list as a whole.
pub(crate) fn list(alloc: Global, line: &str) -> Result<Outcome, AllocError> {
    let Some(case) = Case::of(line) else {
        return Ok(Outcome::Malformed);
    };
    match read_list(alloc, &case.limits, case.text) {
        Ok(list) => Outcome::of(alloc, case.wanted, &told(alloc, &list)?),
        Err(fault) => Outcome::of(alloc, case.wanted, &fault),
    }
}

/// Tries a list with a name in front.
pub(crate) fn named(alloc: Global, line: &str) -> Result<Outcome, AllocError> {
    let Some(case) = Case::of(line) else {
        return Ok(Outcome::Malformed);
    };
    match read_named_list(alloc, &case.limits, case.text) {
        Ok(list) => {
            let name = list.name;
            let values = told(alloc, &list.values)?;
            Outcome::of(alloc, case.wanted, &format!(in alloc; "'{name}' {values}")?)
        }
        Err(fault) => Outcome::of(alloc, case.wanted, &fault),
    }
}

// The names that guests may have.
struct GuestNames;

impl NameRule for GuestNames {
    ghost use Rattle.vm_config.specs.Names.{is_name};

    ghost is_name = { is_name };

    fn is_name(&self, text: &str) -> bool {
        is_name(text)
    }
}

// The lists of a text, with a blank between two of them.
fn lists_in<'a>(alloc: Global, text: &'a str) -> Result<Option<Vec<NamedList<'a>>>, AllocError> {
    let mut lists = Vec::new(alloc);
    for word in text.split(' ') {
        let Ok(list) = read_named_list(alloc, &ALL, word) else {
            return Ok(None);
        };
        lists.push(list)?;
    }
    Ok(Some(lists))
}

/// Tries the names of several lists.
pub(crate) fn names(alloc: Global, line: &str) -> Result<Outcome, AllocError> {
    let mut columns = Columns::of(line);
    let (Some(text), Some(wanted), Some(())) = (columns.quoted(), columns.text(), columns.end())
    else {
        return Ok(Outcome::Malformed);
    };
    let Some(lists) = lists_in(alloc, text)? else {
        return Ok(Outcome::Malformed);
    };
    match check_names(&GuestNames, lists.as_slice()) {
        Ok(()) => Outcome::of(alloc, wanted, &"good"),
        Err(fault) => Outcome::of(alloc, wanted, &fault),
    }
}

// A long list, a place of it and how many values it has, and the value at that place.
#[derive(Clone, Copy)]
struct PlaceCase<'a> {
    limits: Limits,
    text: &'a str,
    len: u64,
    place: u64,
    wanted: &'a str,
}

impl<'a> PlaceCase<'a> {
    fn of(line: &'a str) -> Option<Self> {
        let mut columns = Columns::of(line);
        let case = PlaceCase {
            limits: limits_of(columns.text()?)?,
            text: columns.quoted()?,
            len: columns.number()?,
            place: columns.number()?,
            wanted: columns.text()?,
        };
        columns.end()?;
        Some(case)
    }
}

/// Tries a place of a list.
pub(crate) fn place(alloc: Global, line: &str) -> Result<Outcome, AllocError> {
    let Some(case) = PlaceCase::of(line) else {
        return Ok(Outcome::Malformed);
    };
    match read_list(alloc, &case.limits, case.text) {
        Ok(list) if list.len() == case.len => {
            optional(alloc, case.wanted, list.get(case.place).map(u64::from))
        }
        Ok(list) => Ok(Outcome::Differs(format!(in alloc; "{} values", list.len())?)),
        Err(fault) => Outcome::of(alloc, case.wanted, &fault),
    }
}

// A value, and how a list has it.
#[derive(Clone, Copy)]
struct ShownCase<'a> {
    unit: Unit,
    value: u32,
    wanted: &'a str,
}

fn unit_of(word: &str) -> Option<Unit> {
    match word {
        "whole" => Some(Unit::Whole),
        "hundredths" => Some(Unit::Hundredths),
        _ => None,
    }
}

impl<'a> ShownCase<'a> {
    fn of(line: &'a str) -> Option<Self> {
        let mut columns = Columns::of(line);
        let case = ShownCase {
            unit: unit_of(columns.text()?)?,
            value: u32::try_from(columns.number()?).ok()?,
            wanted: columns.text()?,
        };
        columns.end()?;
        Some(case)
    }
}

/// Tries a value that is written.
pub(crate) fn shown(alloc: Global, line: &str) -> Result<Outcome, AllocError> {
    let Some(case) = ShownCase::of(line) else {
        return Ok(Outcome::Malformed);
    };
    let mut came = String::new(alloc);
    push_value(&mut came, case.unit, case.value)?;
    Outcome::of(alloc, case.wanted, &came)
}
