//! The drawing of a series.
ghost use Rattle.std.specs.Prelude.{◌≡◌, ◌++◌, ◌∷◌, [], IfOk, OnOk, length, map, string_bytes};
ghost use Rattle.std.specs.List.{flat_map, range_with_len};
ghost use Rattle.vm_plan.specs.declared.state.State.TheVariants.{Low, Hard, Soft, High};
ghost use Rattle.vm_plan.specs.State.{state_word};
ghost use Rattle.vm_series.specs.Csv.{name_at};
ghost use Rattle.vm_drawing.specs.Drawing.{level_curve};
ghost use Rattle.vm_drawing.specs.Picture.{svg_of};
ghost use Rattle.vm_series.specs.Samples.{samples};
ghost use Rattle.vm_series.specs.Series.{drawing_of, epoch_axis, evicted_chart, evicted_curve, free_chart, note_of, page_chart, state_chart, target_chart, target_curve};

use crate::rows::{EpochRow, Series};
use crate::samples::{Measure, Pages, has_more_than_zero, has_values, samples};
use std::alloc::{AllocError, Global};
use vm_drawing::{Axis, Chart, Curve, Drawing, counted, draw, page_words};
use vm_plan::State;

fn name_at(names: &[String], position: usize) -> &str
    ensures { result.now ≡ name_at (map string_bytes names.now) position }
{
    match names.get(position) {
        Some(name) => name.as_str(),
        None => "",
    }
}

// A curve of what is measured after each epoch.
fn curve(
    alloc: Global,
    number: u64,
    name: &str,
    rows: &[EpochRow],
    measure: Measure,
) -> Result<Curve, AllocError>
    ensures { IfOk result (λ curve. curve ≡ level_curve number name.now (samples measure rows.now)) }
{
    let values = samples(alloc, rows, measure)?;
    Ok(Curve::level(number, String::from_str(alloc, name)?, values))
}

// The words of the states, from the lowest.
fn state_words(alloc: Global) -> Result<Vec<String>, AllocError>
    ensures { IfOk result (λ words. map string_bytes words.items
        ≡ state_word Low ∷ state_word Hard ∷ state_word Soft ∷ state_word High ∷ []) }
{
    let mut words = Vec::new(alloc);
    words.push(String::from_str(alloc, State::Low.as_str())?)?;
    words.push(String::from_str(alloc, State::Hard.as_str())?)?;
    words.push(String::from_str(alloc, State::Soft.as_str())?)?;
    words.push(String::from_str(alloc, State::High.as_str())?)?;
    Ok(words)
}

fn state_chart(alloc: Global, rows: &[EpochRow]) -> Result<Chart, AllocError>
    ensures { IfOk result (λ chart. chart ≡ state_chart rows.now) }
{
    let title = String::from_str(alloc, "1. State of the host")?;
    let unit = String::from_str(alloc, "state")?;
    let words = state_words(alloc)?;
    let mut curves = Vec::new(alloc);
    curves.push(curve(alloc, 0, "state", rows, Measure::State)?)?;
    Ok(Chart::new(title, unit, words, curves, false))
}

fn free_chart(alloc: Global, rows: &[EpochRow]) -> Result<Chart, AllocError>
    ensures { IfOk result (λ chart. chart ≡ free_chart rows.now) }
{
    let title = String::from_str(alloc, "2. Free frames")?;
    let unit = String::from_str(alloc, "frames")?;
    let mut curves = Vec::new(alloc);
    curves.push(curve(alloc, 0, "free frames", rows, Measure::Free)?)?;
    Ok(Chart::new(title, unit, Vec::new(alloc), curves, false))
}

// A curve of what is measured of the guest at a position.
fn guest_curve(
    alloc: Global,
    series: &Series,
    position: usize,
    values: Vec<Option<u64>>,
) -> Result<Curve, AllocError>
    ensures { IfOk result (λ curve. curve ≡ level_curve position (name_at series.now.names position) values.items) }
{
    let name = String::from_str(alloc, name_at(series.names(), position))?;
    Ok(Curve::level(position as u64, name, values))
}

// The curve of a guest, if it ever runs.
fn push_target(
    alloc: Global,
    curves: &mut Vec<Curve>,
    series: &Series,
    position: usize,
) -> Result<(), AllocError>
    ensures { OnOk result (curves.new.items ≡ curves.old.items ++ target_curve series.now position) }
{
    let values = samples(alloc, series.rows(), Measure::Target(position))?;
    if !has_values(values.as_slice()) {
        return Ok(());
    }
    let curve = guest_curve(alloc, series, position, values)?;
    curves.push(curve)?;
    Ok(())
}

fn target_curves(alloc: Global, series: &Series) -> Result<Vec<Curve>, AllocError>
    ensures { IfOk result (λ curves. curves.items
        ≡ flat_map (target_curve series.now) (range_with_len 0 (length series.now.names))) }
{
    let mut curves = Vec::new(alloc);
    for position in 0..series.names().len() {
        push_target(alloc, &mut curves, series, position)?;
    }
    Ok(curves)
}

fn target_chart(alloc: Global, series: &Series) -> Result<Chart, AllocError>
    ensures { IfOk result (λ chart. chart ≡ target_chart series.now) }
{
    let title = String::from_str(alloc, "3. Targets of the guests")?;
    let unit = String::from_str(alloc, "frames")?;
    let curves = target_curves(alloc, series)?;
    Ok(Chart::new(title, unit, Vec::new(alloc), curves, true))
}

fn page_chart(alloc: Global, rows: &[EpochRow]) -> Result<Chart, AllocError>
    ensures { IfOk result (λ chart. chart ≡ page_chart rows.now) }
{
    let title = "4. Pages of all guests swapped out and ballooned";
    let title = String::from_str(alloc, title)?;
    let unit = String::from_str(alloc, "pages")?;
    let swapped = Measure::Total(Pages::SwappedOut);
    let ballooned = Measure::Total(Pages::Ballooned);
    let mut curves = Vec::new(alloc);
    curves.push(curve(alloc, 0, "swapped out", rows, swapped)?)?;
    curves.push(curve(alloc, 1, "in the balloons", rows, ballooned)?)?;
    Ok(Chart::new(title, unit, Vec::new(alloc), curves, true))
}

// The curve of a guest, if its touches ever sent a page to swap.
fn push_evicted(
    alloc: Global,
    curves: &mut Vec<Curve>,
    series: &Series,
    position: usize,
) -> Result<(), AllocError>
    ensures { OnOk result (curves.new.items ≡ curves.old.items ++ evicted_curve series.now position) }
{
    let values = samples(alloc, series.rows(), Measure::Evicted(position))?;
    if !has_more_than_zero(values.as_slice()) {
        return Ok(());
    }
    let curve = guest_curve(alloc, series, position, values)?;
    curves.push(curve)?;
    Ok(())
}

fn evicted_curves(alloc: Global, series: &Series) -> Result<Vec<Curve>, AllocError>
    ensures { IfOk result (λ curves. curves.items
        ≡ flat_map (evicted_curve series.now) (range_with_len 0 (length series.now.names))) }
{
    let mut curves = Vec::new(alloc);
    for position in 0..series.names().len() {
        push_evicted(alloc, &mut curves, series, position)?;
    }
    Ok(curves)
}

fn evicted_chart(alloc: Global, series: &Series) -> Result<Chart, AllocError>
    ensures { IfOk result (λ chart. chart ≡ evicted_chart series.now) }
{
    let title = String::from_str(alloc, "5. Pages sent to swap by touches")?;
    let unit = String::from_str(alloc, "pages")?;
    let curves = evicted_curves(alloc, series)?;
    Ok(Chart::new(title, unit, Vec::new(alloc), curves, true))
}

#[tactic(auto, unfolding(crate::specs::Series::note_of))]
fn note_of(alloc: Global, series: &Series) -> Result<String, AllocError>
    ensures { IfOk result (λ note. string_bytes note ≡ note_of series.now) }
{
    let epochs = counted(alloc, series.rows().len(), "epoch")?;
    let guests = counted(alloc, series.names().len(), "guest")?;
    let frames = counted(alloc, series.frames() as usize, "frame")?;
    let page = page_words(alloc, series.page())?;
    format!(in alloc; "{epochs}, {guests}, {frames}; {page}")
}

fn charts_of(alloc: Global, series: &Series) -> Result<Vec<Chart>, AllocError>
    ensures { IfOk result (λ charts. charts.items ≡ state_chart series.now.rows ∷ free_chart series.now.rows
        ∷ target_chart series.now ∷ page_chart series.now.rows ∷ evicted_chart series.now ∷ []) }
{
    let mut charts = Vec::new(alloc);
    charts.push(state_chart(alloc, series.rows())?)?;
    charts.push(free_chart(alloc, series.rows())?)?;
    charts.push(target_chart(alloc, series)?)?;
    charts.push(page_chart(alloc, series.rows())?)?;
    charts.push(evicted_chart(alloc, series)?)?;
    Ok(charts)
}

fn drawing_of(alloc: Global, series: &Series) -> Result<Drawing, AllocError>
    ensures { IfOk result (λ drawing. drawing ≡ drawing_of series.now) }
{
    let title = String::from_str(alloc, "Memory of a host after each epoch")?;
    let note = note_of(alloc, series)?;
    let along = String::from_str(alloc, "epoch")?;
    let axis = Axis {
        first: 0,
        last: series.rows().len() as u64,
        is_open: true,
    };
    let charts = charts_of(alloc, series)?;
    Ok(Drawing::new(title, note, along, axis, charts))
}

/// Five charts over the epochs, as [`draw`] draws them.
///
/// 1. The state of the host.
/// 2. Its free frames.
/// 3. The target of each guest that ever runs, in frames: a curve in the epochs in which it runs, with its number in the order of
///    the configuration, from 1.
/// 4. The pages of all guests in the swap areas, and in the balloons.
/// 5. The pages that touches of each guest sent to swap in each epoch, for want of a frame: a curve for each guest that ever sent one,
///    as in 3.
///
/// Epoch e of n goes from the place e to e + 1 of an axis from 0 to n. All else is as it stands after the epoch. The note says
/// what a page stands for.
///
/// [`AllocError`] comes only where memory was refused.
pub fn svg_text(alloc: Global, series: &Series) -> Result<Vec<u8>, AllocError>
    ensures { IfOk result (λ text. text.items ≡ svg_of (drawing_of series.now)) }
{
    let drawing = drawing_of(alloc, series)?;
    draw(alloc, &drawing)
}
