// What is seen of a host sample by sample, as numbers.
ghost use Rattle.std.specs.Prelude.{◌≡◌, IfOk, OnOk, map};
ghost use Rattle.vm_steer.specs.Names.{AreRising};
ghost use Rattle.vm_steer_charts.specs.Values.{frees, names_drawn, number_of, numbers_at, numbers_named, states, value, values, with_domains, with_steered};

use crate::names::{add_name, find_name, name_at};
use crate::rows::{Numbers, Row};
use std::alloc::{AllocError, Global};

// What a curve shows of a domain.
#[derive(Clone, Copy)]
pub(crate) enum Measure {
    Target,
    Held,
    Used,
}

// ---- of the host

// The state after each sample, from 0, the lowest.
pub(crate) fn states(alloc: Global, rows: &[Row]) -> Result<Vec<Option<u64>>, AllocError>
    ensures { IfOk result (λ values. values.items ≡ states rows.now) }
{
    let mut values = Vec::with_capacity(alloc, rows.len())?;
    for row in rows {
        values.push(Some(u64::from(row.state.rank())))?;
    }
    Ok(values)
}

// What is free.
pub(crate) fn frees(alloc: Global, rows: &[Row]) -> Result<Vec<Option<u64>>, AllocError>
    ensures { IfOk result (λ values. values.items ≡ frees rows.now) }
{
    let mut values = Vec::with_capacity(alloc, rows.len())?;
    for row in rows {
        values.push(Some(u64::from(row.free)))?;
    }
    Ok(values)
}

// ---- of a domain

// What stands at a place.
fn numbers_at(row: &Row, place: usize) -> Option<Numbers>
    ensures { result ≡ numbers_at row.now.numbers place }
{
    row.numbers.get(place).copied().unwrap_or(None)
}

fn number_of(measure: Measure, numbers: &Numbers) -> u32
    ensures { result ≡ number_of measure numbers.now }
{
    match measure {
        Measure::Target => numbers.target,
        Measure::Held => numbers.held,
        Measure::Used => numbers.used,
    }
}

// The numbers of the domain with a name, if it is in the sample and steered.
fn numbers_named(row: &Row, name: &[u8]) -> Option<Numbers>
    ensures { result ≡ numbers_named name.now row.now.names row.now.numbers }
{
    match find_name(&row.names, name) {
        Some(place) => numbers_at(row, place),
        None => None,
    }
}

fn value(measure: Measure, name: &[u8], row: &Row) -> Option<u64>
    ensures { result ≡ value measure name.now row.now }
{
    match numbers_named(row, name) {
        Some(numbers) => Some(u64::from(number_of(measure, &numbers))),
        None => None,
    }
}

// A value for each sample, or none where the domain isn't steered.
pub(crate) fn values(
    alloc: Global,
    measure: Measure,
    name: &[u8],
    rows: &[Row],
) -> Result<Vec<Option<u64>>, AllocError>
    ensures { IfOk result (λ found. found.items ≡ values measure name.now rows.now) }
{
    let mut values = Vec::with_capacity(alloc, rows.len())?;
    for row in rows {
        values.push(value(measure, name, row))?;
    }
    Ok(values)
}

// ---- the domains that are drawn

// The name of a domain, if it is steered.
fn add_steered(
    alloc: Global,
    drawn: &mut Vec<Vec<u8>>,
    name: &[u8],
    numbers: Option<Numbers>,
) -> Result<(), AllocError>
    requires rising { AreRising (map (λ n. n.items) drawn.old.items) }
    ensures added { OnOk result (map (λ n. n.items) drawn.new.items
        ≡ with_steered numbers name.now (map (λ n. n.items) drawn.old.items)) }
    ensures rising { OnOk result (AreRising (map (λ n. n.items) drawn.new.items)) }
{
    if numbers.is_some() {
        add_name(alloc, drawn, name)?;
    }
    Ok(())
}

// Those of the steered domains of a sample.
fn add_domains(alloc: Global, drawn: &mut Vec<Vec<u8>>, row: &Row) -> Result<(), AllocError>
    requires rising { AreRising (map (λ n. n.items) drawn.old.items) }
    ensures added { OnOk result (map (λ n. n.items) drawn.new.items
        ≡ with_domains (map (λ n. n.items) drawn.old.items) row.now.names row.now.numbers) }
    ensures rising { OnOk result (AreRising (map (λ n. n.items) drawn.new.items)) }
{
    for place in 0..row.names.len() {
        add_steered(
            alloc,
            drawn,
            name_at(&row.names, place),
            numbers_at(row, place),
        )?;
    }
    Ok(())
}

// The names of all domains that are steered in any sample, in order.
pub(crate) fn names_drawn(alloc: Global, rows: &[Row]) -> Result<Vec<Vec<u8>>, AllocError>
    ensures { IfOk result (λ names. map (λ n. n.items) names.items ≡ names_drawn rows.now) }
{
    let mut drawn = Vec::new(alloc);
    for row in rows {
        add_domains(alloc, &mut drawn, row)?;
    }
    Ok(drawn)
}
