//! The drawing of a sweep.
ghost use Rattle.std.specs.Prelude.{◌≡◌, ◌<◌, ◌++◌, IfOk, map, option_copied, string_bytes};
ghost use Rattle.vm_drawing.specs.Picture.{svg_of};
ghost use Rattle.vm_sweep.specs.SweepDrawing.{frame_axis, has_minimums, has_shares, note_of, runs_words, seeds_words, settings_of, sweep_chart, sweep_charts, sweep_drawing, swept_curve, swept_curves};
ghost use Rattle.vm_sweep.specs.SweptRuns.{place_of};

use crate::lists::Lists;
use crate::points::{Measure, SweptPoint, machine_count, places_of, spreads_of, values_of};
use std::alloc::{AllocError, Global};
use vm_drawing::{Axis, Chart, Curve, Drawing, counted, draw, page_words};
use vm_tally::Rebalancing;

// The curve of the combination with this number; where it is said how many seeds there are it has a band.
fn swept_curve(
    alloc: Global,
    measure: Measure,
    seeds: Option<u32>,
    points: &[SweptPoint],
    curves: usize,
    number: usize,
    name: &str,
) -> Result<Curve, AllocError>
    requires { number < curves }
    ensures { IfOk result (λ curve. curve ≡ swept_curve measure seeds points.now curves number name.now) }
{
    let name = String::from_str(alloc, name)?;
    let values = values_of(alloc, measure, points, curves, number)?;
    let places = places_of(alloc, points, curves, number)?;
    match seeds {
        Some(_) => {
            let spreads = spreads_of(alloc, measure, points, curves, number)?;
            Ok(Curve::banded(number as u64, name, values, places, spreads))
        }
        None => Ok(Curve::straight(number as u64, name, values, places)),
    }
}

// One for each name.
fn swept_curves(
    alloc: Global,
    measure: Measure,
    seeds: Option<u32>,
    names: &[String],
    points: &[SweptPoint],
) -> Result<Vec<Curve>, AllocError>
    ensures { IfOk result (λ made. made.items ≡ swept_curves measure seeds (map string_bytes names.now) points.now) }
{
    let curves = names.len();
    let mut made = Vec::new(alloc);
    for (number, name) in names.iter().enumerate() {
        made.push(swept_curve(alloc, measure, seeds, points, curves, number, name.as_str())?)?;
    }
    Ok(made)
}

// What a curve and its band are, where it is said how many seeds there are.
#[tactic(auto, unfolding(crate::specs::SweepDrawing::seeds_words))]
fn seeds_words(alloc: Global, seeds: Option<u32>) -> Result<String, AllocError>
    ensures { IfOk result (λ words. string_bytes words ≡ seeds_words seeds) }
{
    match seeds {
        Some(seeds) => {
            let seeds = counted(alloc, seeds as usize, "seed")?;
            format!(in alloc; ": medians of {seeds}, from least to greatest")
        }
        None => Ok(String::new(alloc)),
    }
}

// A title, and what is said of seeds.
fn title_of(alloc: Global, title: &str, seeds: Option<u32>) -> Result<String, AllocError>
    ensures { IfOk result (λ words. string_bytes words ≡ title.now ++ seeds_words seeds) }
{
    let seeds = seeds_words(alloc, seeds)?;
    format!(in alloc; "{title}{seeds}")
}

fn sweep_chart(
    alloc: Global,
    title: &str,
    unit: &str,
    measure: Measure,
    seeds: Option<u32>,
    names: &[String],
    points: &[SweptPoint],
) -> Result<Chart, AllocError>
    ensures { IfOk result (λ chart. chart ≡ sweep_chart title.now unit.now measure seeds (map string_bytes names.now) points.now) }
{
    let title = title_of(alloc, title, seeds)?;
    let unit = String::from_str(alloc, unit)?;
    let curves = swept_curves(alloc, measure, seeds, names, points)?;
    Ok(Chart::new(title, unit, Vec::new(alloc), curves, true))
}

fn sweep_charts(
    alloc: Global,
    seeds: Option<u32>,
    names: &[String],
    points: &[SweptPoint],
) -> Result<Vec<Chart>, AllocError>
    ensures { IfOk result (λ charts. charts.items ≡ sweep_charts seeds (map string_bytes names.now) points.now) }
{
    let moved = "1. Frames paged and pages evicted";
    let waited = "2. Guests blocked or stalled";
    let mut charts = Vec::new(alloc);
    charts.push(sweep_chart(alloc, moved, "pages", Measure::Moved, seeds, names, points)?)?;
    charts.push(sweep_chart(
        alloc,
        waited,
        "guests",
        Measure::Waited,
        seeds,
        names,
        points,
    )?)?;
    Ok(charts)
}

// Whether runs have other minimums.
fn has_minimums(lists: &Lists) -> bool
    ensures { result ≡ has_minimums lists.now }
{
    lists.min_percent().is_some() || !lists.minimums().is_empty()
}

// Whether runs have other shares.
fn has_shares(lists: &Lists) -> bool
    ensures { result ≡ has_shares lists.now }
{
    !lists.shares().is_empty()
}

// What a combination is of.
#[tactic(auto, unfolding(crate::specs::SweepDrawing::settings_of))]
fn settings_of(rebalancing: Rebalancing, has_minimums: bool, has_shares: bool) -> &'static str
    ensures { result.now ≡ settings_of rebalancing has_minimums has_shares }
{
    match (rebalancing, has_minimums, has_shares) {
        (Rebalancing::Own, false, false) => "swap, tax and page rate",
        (Rebalancing::Own, true, false) => "swap, tax, page rate and minimums",
        (Rebalancing::Own, false, true) => "swap, tax, page rate and shares",
        (Rebalancing::Own, true, true) => "swap, tax, page rate, minimums and shares",
        (Rebalancing::Swept, false, false) => "swap, tax, page rate and rebalance",
        (Rebalancing::Swept, true, false) => "swap, tax, page rate, rebalance and minimums",
        (Rebalancing::Swept, false, true) => "swap, tax, page rate, rebalance and shares",
        (Rebalancing::Swept, true, true) => "swap, tax, page rate, rebalance, minimums and shares",
    }
}

// How many runs there are on each machine, and of what.
#[tactic(auto, unfolding(crate::specs::SweepDrawing::runs_words))]
fn runs_words(
    alloc: Global,
    lists: &Lists,
    machines: usize,
    combinations: usize,
) -> Result<String, AllocError>
    ensures { IfOk result (λ words. string_bytes words ≡ runs_words lists.now machines combinations) }
{
    let machines = counted(alloc, machines, "machine")?;
    let combinations = counted(alloc, combinations, "combination")?;
    let settings = settings_of(lists.rebalancing(), has_minimums(lists), has_shares(lists));
    format!(in alloc; "{machines}, {combinations} of {settings}")
}

#[tactic(auto, unfolding(crate::specs::SweepDrawing::note_of))]
fn note_of(
    alloc: Global,
    lists: &Lists,
    page: u32,
    machines: usize,
    combinations: usize,
) -> Result<String, AllocError>
    ensures { IfOk result (λ note. string_bytes note ≡ note_of lists.now page machines combinations) }
{
    let runs = runs_words(alloc, lists, machines, combinations)?;
    let words = page_words(alloc, page)?;
    let note = format!(in alloc; "{runs}; sums over all epochs; {words}")?;
    Ok(note)
}

// Where a point stands.
fn place_of(point: Option<&SweptPoint>) -> u64
    ensures { result ≡ place_of (option_copied point.entry) }
{
    match point {
        Some(point) => u64::from(point.frames),
        None => 0,
    }
}

fn frame_axis(points: &[SweptPoint]) -> Axis
    ensures { result ≡ frame_axis points.now }
{
    Axis {
        first: place_of(points.first()),
        last: place_of(points.last()),
        is_open: false,
    }
}

fn sweep_drawing(
    alloc: Global,
    lists: &Lists,
    page: u32,
    names: &[String],
    points: &[SweptPoint],
) -> Result<Drawing, AllocError>
    ensures { IfOk result (λ drawing. drawing ≡ sweep_drawing lists.now page (map string_bytes names.now) points.now) }
{
    let title = "What a host pages and whom it lets wait on each machine";
    let title = String::from_str(alloc, title)?;
    let machines = machine_count(points, names.len());
    let note = note_of(alloc, lists, page, machines, names.len())?;
    let along = String::from_str(alloc, "frames")?;
    let charts = sweep_charts(alloc, lists.seeds(), names, points)?;
    Ok(Drawing::new(title, note, along, frame_axis(points), charts))
}

/// Two charts over the frames of the machine, as [`draw`] draws them.
///
/// 1. Frames paged and pages evicted, their sum.
/// 2. Guests blocked or stalled, summed over the epochs.
///
/// There is a curve for each of `names`, which are those of the combinations that `lists` make on each machine, and `points` are in the
/// order of their table: machine by machine, and combination by combination on each. A curve joins what a combination has on each
/// machine, at the machine's frames, by straight lines. Where `lists` say how many seeds there are this is a median, a band from the
/// least to the greatest lies behind the curve, and the titles of the charts say so. The axis goes from the frames of the first point to
/// those of the last one. The note says what the combinations are of, as far as `lists` has values for it; swap, tax and page rate are
/// always named. `page` is how many KiB a page stands for, which it says too.
///
/// Points of a last machine that lacks some are not drawn.
///
/// [`AllocError`] comes only where memory was refused.
pub fn sweep_svg(
    alloc: Global,
    lists: &Lists,
    page: u32,
    names: &[String],
    points: &[SweptPoint],
) -> Result<Vec<u8>, AllocError>
    ensures { IfOk result (λ text. text.items ≡ svg_of (sweep_drawing lists.now page (map string_bytes names.now) points.now)) }
{
    let drawing = sweep_drawing(alloc, lists, page, names, points)?;
    draw(alloc, &drawing)
}
