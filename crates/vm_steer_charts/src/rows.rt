// What is drawn of one sample.
ghost use Rattle.std.specs.Prelude.{◌≡◌, IfOk, map};
ghost use Rattle.vm_steer.specs.Entries.{names_in};
ghost use Rattle.vm_steer.specs.Names.{AreRising};
ghost use Rattle.vm_steer_charts.specs.Rows.{numbers_of, row_of};

use std::alloc::{AllocError, Global};
use std::marker::Model;
use vm_plan::State;
use vm_steer::{Entry, Fate, Told};

// The numbers of a steered domain, in units.
#[derive(Clone, Copy, Debug)]
pub(crate) struct Numbers {
    // What it is meant to hold after all decisions.
    pub(crate) target: u32,
    // What it holds, without promises.
    pub(crate) held: u32,
    // What it uses.
    pub(crate) used: u32,
}

// What is drawn of a good sample: its domains in the order of their names, each with its numbers at the same place.
#[derive(Debug, Drop)]
pub(crate) struct Row {
    pub(crate) state: State,
    pub(crate) free: u32,
    pub(crate) names: Vec<Vec<u8>>,
    pub(crate) numbers: Vec<Option<Numbers>>,
}

impl Model for Row {
    ghost use Rattle.std.specs.Prelude.{map};
    ghost use Rattle.vm_steer.specs.Names.{AreRising};
    ghost use Rattle.vm_steer_charts.specs.Rows.{Row};

    ghost Value = { Row };

    ghost view = { λ r. record { state = r.state; free = r.free; names = map (λ n. n.items) r.names.items; numbers = r.numbers.items } };

    ghost invariant = { λ r. AreRising (map (λ n. n.items) r.names.items) };
}

// Those of a domain, if it is steered.
fn numbers_of(entry: &Entry) -> Option<Numbers>
    ensures { result ≡ numbers_of entry.now.fate }
{
    match &entry.fate {
        Fate::Left(_) => None,
        Fate::Steered(domain) => Some(Numbers {
            target: domain.remembered.target,
            held: domain.remembered.held,
            used: domain.used,
        }),
    }
}

fn numbers_in(alloc: Global, entries: &[Entry]) -> Result<Vec<Option<Numbers>>, AllocError>
    ensures { IfOk result (λ numbers. numbers.items ≡ map (λ e. numbers_of e.fate) entries.now) }
{
    let mut numbers = Vec::with_capacity(alloc, entries.len())?;
    for entry in entries {
        numbers.push(numbers_of(entry))?;
    }
    Ok(numbers)
}

fn name_of(alloc: Global, entry: &Entry) -> Result<Vec<u8>, AllocError>
    ensures { IfOk result (λ name. name.items ≡ entry.now.name) }
{
    Vec::from_slice(alloc, entry.name.as_slice())
}

// The names of domains.
fn names_in(alloc: Global, entries: &[Entry]) -> Result<Vec<Vec<u8>>, AllocError>
    ensures { IfOk result (λ names. map (λ n. n.items) names.items ≡ names_in entries.now) }
{
    let mut names = Vec::with_capacity(alloc, entries.len())?;
    for entry in entries {
        names.push(name_of(alloc, entry)?)?;
    }
    Ok(names)
}

impl Row {
    // What is drawn of a sample of which this was told.
    pub(crate) fn of_told(alloc: Global, told: &Told) -> Result<Self, AllocError>
        requires { AreRising (names_in told.now.domains) }
        ensures { IfOk result (λ row. row ≡ row_of told.now) }
    {
        Ok(Row {
            state: told.state,
            free: told.free,
            names: names_in(alloc, &told.domains)?,
            numbers: numbers_in(alloc, &told.domains)?,
        })
    }
}
