// The drawing of a series.
ghost use Rattle.std.specs.Prelude.{◌≡◌, ◌∷◌, ◌<◌, ◌+◌, ◌^◌, [], IfOk, length, map, string_bytes};
ghost use Rattle.vm_drawing.specs.Drawing.{level_curve};
ghost use Rattle.vm_drawing.specs.Picture.{svg_of};
ghost use Rattle.vm_plan.specs.declared.state.State.TheVariants.{Low, Hard, Soft, High};
ghost use Rattle.vm_plan.specs.State.{state_word};
ghost use Rattle.vm_steer.specs.Text.{printed};
ghost use Rattle.vm_steer_charts.specs.Charts.{curves_from, domain_chart, drawing_from, free_chart, note_of, sample_axis, state_chart, title_of};
ghost use Rattle.vm_steer_charts.specs.Values.{names_drawn, values};
ghost use Rattle.vm_steer_charts.specs.declared.values.Measure.TheVariants.{Target, Held, Used};

use crate::names::name_at;
use crate::rows::Row;
use crate::series::Series;
use crate::values::{Measure, frees, names_drawn, states, values};
use std::alloc::{AllocError, Global};
use vm_drawing::{Axis, Chart, Curve, Drawing, counted, draw};
use vm_plan::State;
use vm_samples::{Policy, is_name};

// ---- charts of the host

// The words of the states, from the lowest.
fn state_words(alloc: Global) -> Result<Vec<String>, AllocError>
    ensures { IfOk result (λ words. map string_bytes words.items
        ≡ state_word Low ∷ state_word Hard ∷ state_word Soft ∷ state_word High ∷ []) }
{
    let mut words = Vec::new(alloc);
    words.push(String::from_str(alloc, State::Low.as_str())?)?;
    words.push(String::from_str(alloc, State::Hard.as_str())?)?;
    words.push(String::from_str(alloc, State::Soft.as_str())?)?;
    words.push(String::from_str(alloc, State::High.as_str())?)?;
    Ok(words)
}

// A curve with a name and values, the only one of its chart.
fn lone_curve(alloc: Global, name: &str, values: Vec<Option<u64>>) -> Result<Vec<Curve>, AllocError>
    ensures { IfOk result (λ curves. curves.items ≡ level_curve 0 name.now values.items ∷ []) }
{
    let mut curves = Vec::new(alloc);
    curves.push(Curve::level(0, String::from_str(alloc, name)?, values))?;
    Ok(curves)
}

fn state_chart(alloc: Global, rows: &[Row]) -> Result<Chart, AllocError>
    ensures { IfOk result (λ chart. chart ≡ state_chart rows.now) }
{
    let title = String::from_str(alloc, "1. State of the host")?;
    let unit = String::from_str(alloc, "state")?;
    let words = state_words(alloc)?;
    let curves = lone_curve(alloc, "state", states(alloc, rows)?)?;
    Ok(Chart::new(title, unit, words, curves, false))
}

fn free_chart(alloc: Global, rows: &[Row]) -> Result<Chart, AllocError>
    ensures { IfOk result (λ chart. chart ≡ free_chart rows.now) }
{
    let title = String::from_str(alloc, "2. Free units")?;
    let unit = String::from_str(alloc, "units")?;
    let curves = lone_curve(alloc, "free units", frees(alloc, rows)?)?;
    Ok(Chart::new(title, unit, Vec::new(alloc), curves, false))
}

// ---- charts of the domains

fn title_of(measure: Measure) -> &'static str
    ensures { result.now ≡ title_of measure }
{
    match measure {
        Measure::Target => "3. Targets of the steered domains",
        Measure::Held => "4. What the steered domains hold",
        Measure::Used => "5. What the steered domains use",
    }
}

// A guest's name as text.
fn name_text(alloc: Global, name: &[u8]) -> Result<String, AllocError>
    ensures { IfOk result (λ text. string_bytes text ≡ printed name.now) }
{
    if !is_name(name) {
        return String::from_str(alloc, "-");
    }
    match str::from_utf8(name) {
        Ok(text) => String::from_str(alloc, text),
        Err(_) => unreachable!(),
    }
}

// The curve of a domain.
fn curve(
    alloc: Global,
    measure: Measure,
    rows: &[Row],
    number: usize,
    name: &[u8],
) -> Result<Curve, AllocError>
    ensures { IfOk result (λ curve. curve ≡ level_curve number (printed name.now) (values measure name.now rows.now)) }
{
    let values = values(alloc, measure, name, rows)?;
    Ok(Curve::level(number as u64, name_text(alloc, name)?, values))
}

fn curves(
    alloc: Global,
    measure: Measure,
    rows: &[Row],
    names: &[Vec<u8>],
) -> Result<Vec<Curve>, AllocError>
    ensures { IfOk result (λ curves. curves.items ≡ curves_from measure rows.now 0 (map (λ n. n.items) names.now)) }
{
    let mut curves = Vec::with_capacity(alloc, names.len())?;
    for number in 0..names.len() {
        curves.push(curve(alloc, measure, rows, number, name_at(names, number))?)?;
    }
    Ok(curves)
}

fn domain_chart(
    alloc: Global,
    measure: Measure,
    rows: &[Row],
    names: &[Vec<u8>],
) -> Result<Chart, AllocError>
    requires { map (λ n. n.items) names.now ≡ names_drawn rows.now }
    ensures { IfOk result (λ chart. chart ≡ domain_chart measure rows.now) }
{
    let title = String::from_str(alloc, title_of(measure))?;
    let unit = String::from_str(alloc, "units")?;
    let curves = curves(alloc, measure, rows, names)?;
    Ok(Chart::new(title, unit, Vec::new(alloc), curves, true))
}

// ---- the whole

fn charts_of(alloc: Global, rows: &[Row], names: &[Vec<u8>]) -> Result<Vec<Chart>, AllocError>
    requires { map (λ n. n.items) names.now ≡ names_drawn rows.now }
    ensures { IfOk result (λ charts. charts.items ≡ state_chart rows.now ∷ free_chart rows.now
        ∷ domain_chart Target rows.now ∷ domain_chart Held rows.now ∷ domain_chart Used rows.now ∷ []) }
{
    let mut charts = Vec::new(alloc);
    charts.push(state_chart(alloc, rows)?)?;
    charts.push(free_chart(alloc, rows)?)?;
    charts.push(domain_chart(alloc, Measure::Target, rows, names)?)?;
    charts.push(domain_chart(alloc, Measure::Held, rows, names)?)?;
    charts.push(domain_chart(alloc, Measure::Used, rows, names)?)?;
    Ok(charts)
}

#[tactic(auto, unfolding(crate::specs::Charts::note_of))]
fn note_of(
    alloc: Global,
    policy: &Policy,
    rows: &[Row],
    names: &[Vec<u8>],
) -> Result<String, AllocError>
    requires { map (λ n. n.items) names.now ≡ names_drawn rows.now }
    ensures { IfOk result (λ note. string_bytes note ≡ note_of policy.now rows.now) }
{
    let samples = counted(alloc, rows.len(), "sample")?;
    let domains = counted(alloc, names.len(), "domain")?;
    let units = counted(alloc, policy.memory as usize, "unit")?;
    let unit = policy.unit;
    format!(in alloc; "{samples}, {domains}, {units} of {unit} KiB")
}

fn drawing_from(
    alloc: Global,
    policy: &Policy,
    first: u64,
    rows: &[Row],
) -> Result<Drawing, AllocError>
    requires { first + length rows.now < 2 ^ 64 }
    ensures { IfOk result (λ drawing. drawing ≡ drawing_from policy.now first rows.now) }
{
    let names = names_drawn(alloc, rows)?;
    let title = String::from_str(alloc, "Memory of a host after each sample")?;
    let note = note_of(alloc, policy, rows, &names)?;
    let along = String::from_str(alloc, "sample")?;
    let axis = Axis {
        first,
        last: first + rows.len() as u64,
        is_open: true,
    };
    let charts = charts_of(alloc, rows, &names)?;
    Ok(Drawing::new(title, note, along, axis, charts))
}

// The drawing of a series.
pub(crate) fn svg_text(alloc: Global, series: Series) -> Result<Vec<u8>, AllocError>
    requires { series.first + length series.rows < 2 ^ 64 }
    ensures { IfOk result (λ text. text.items ≡ svg_of (drawing_from series.steering.policy series.first series.rows)) }
{
    let Series {
        steering,
        first,
        rows,
    } = series;
    let rows = rows.into_vec();
    let drawing = drawing_from(alloc, steering.policy(), first, &rows)?;
    draw(alloc, &drawing)
}
