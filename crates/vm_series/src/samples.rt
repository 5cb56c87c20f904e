// What is seen of a host epoch by epoch, as numbers.
ghost use Rattle.std.specs.Prelude.{◌≡◌, is_some, IfOk};
ghost use Rattle.std.specs.List.{list_any};
ghost use Rattle.vm_series.specs.Samples.{pages_in, pages_of, sample, samples, total};
ghost use Rattle.vm_series.specs.Series.{is_above_zero};

use crate::rows::{EpochRow, evicted_of};
use std::alloc::{AllocError, Global};
use vm_host::GuestView;

// Where a guest's pages are that aren't in its memory.
#[derive(Clone, Copy)]
pub(crate) enum Pages {
    SwappedOut,
    Ballooned,
}

// What a curve shows.
#[derive(Clone, Copy)]
pub(crate) enum Measure {
    // the state of the host, from 0, the lowest
    State,
    // the free frames of the host
    Free,
    // the target of the guest at a position
    Target(usize),
    // pages of all running guests
    Total(Pages),
    // the pages that touches of the guest at a position sent to swap
    Evicted(usize),
}

fn pages_of(pages: Pages, view: &GuestView) -> u32
    ensures { result ≡ pages_of pages view.now }
{
    match pages {
        Pages::SwappedOut => view.swapped,
        Pages::Ballooned => view.balloon,
    }
}

fn pages_in(pages: Pages, view: &Option<GuestView>) -> u32
    ensures { result ≡ pages_in pages view.now }
{
    match view {
        Some(view) => pages_of(pages, view),
        None => 0,
    }
}

// The sum is far below 2^64: a row shows at most 256 guests, each of fewer than 2^32 pages.
fn total(pages: Pages, row: &EpochRow) -> u64
    ensures { result ≡ total pages row.now.views }
{
    let views = row.views();
    let mut sum: u64 = 0;
    for view in views {
        sum += u64::from(pages_in(pages, view));
    }
    sum
}

// What a measure is after an epoch.
pub(crate) fn sample(row: &EpochRow, measure: Measure) -> Option<u64>
    ensures { result ≡ sample measure row.now }
{
    match measure {
        Measure::State => Some(u64::from(row.state().rank())),
        Measure::Free => Some(u64::from(row.free())),
        Measure::Target(position) => row.view(position).map(|view| u64::from(view.target)),
        Measure::Total(pages) => Some(total(pages, row)),
        Measure::Evicted(position) => row.view(position).map(|view| evicted_of(&view)),
    }
}

// A value for each epoch, or none where the guest that is asked for doesn't run.
pub(crate) fn samples(
    alloc: Global,
    rows: &[EpochRow],
    measure: Measure,
) -> Result<Vec<Option<u64>>, AllocError>
    ensures { IfOk result (λ values. values.items ≡ samples measure rows.now) }
{
    let mut values = Vec::with_capacity(alloc, rows.len())?;
    for row in rows {
        values.push(sample(row, measure))?;
    }
    Ok(values)
}

// Whether there is any value.
pub(crate) fn has_values(values: &[Option<u64>]) -> bool
    ensures { result ≡ list_any is_some values.now }
{
    values.iter().any(|value| value.is_some())
}

fn is_above_zero(value: &Option<u64>) -> bool
    ensures { result ≡ is_above_zero value.now }
{
    match value {
        Some(number) => *number > 0,
        None => false,
    }
}

// Whether there is any but 0.
pub(crate) fn has_more_than_zero(values: &[Option<u64>]) -> bool
    ensures { result ≡ list_any is_above_zero values.now }
{
    values.iter().any(|value| is_above_zero(value))
}
