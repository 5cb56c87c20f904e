//! Where each word, line, curve and mark of a drawing stands.
ghost use Rattle.std.specs.Prelude.{◌≡◌, ◌+◌, ◌*◌, ◌-◌, ◌<◌, ◌≤◌, ◌^◌, ◌++◌, IfOk, OnOk, length, map, max, slice_get, string_bytes, unwrap_or};
ghost use Rattle.std.specs.Fmt.{decimal};
ghost use Rattle.std.specs.List.{flat_map};
ghost use Rattle.vm_drawing.specs.declared.texts.Style.TheVariants.{End};
ghost use Rattle.vm_drawing.specs.Drawing.{ends_of};
ghost use Rattle.vm_drawing.specs.Layout.{IsSmall};
ghost use Rattle.vm_drawing.specs.Picture.{area_of, axes, band_of, bands, chart_shapes, charts_from, columns_for, end_of, entries_from, entry_in, greatest_in, is_marked, is_on, keys, legend, level_at, levels, lines_for, longest, mark_at, mark_if, mark_place, marks_along, room_of, scale_of, stride, svg_of, tick_at, ticks};
ghost use Rattle.vm_drawing.specs.Shapes.{Path, shape_text, shapes_text, words_text};
ghost use Rattle.vm_drawing.specs.Values.{greatest};

use crate::area::{Area, LEFT};
use crate::bands::put_band;
use crate::drawing::{Chart, Curve, Drawing};
use crate::scale::{Axis, Pixels, Scale};
use crate::texts::{
    Style, place_among, put, put_curve, put_entry, put_head, put_level, put_mark, put_open,
    put_tick, put_upright, put_words, value_at,
};
use crate::values::{greatest, greatest_end};
use itoa::Buffer;
use std::alloc::{AllocError, Global};

// ---- levels and ticks

fn put_number(
    text: &mut Vec<u8>,
    style: Style,
    x: Pixels,
    y: Pixels,
    number: u128,
) -> Result<(), AllocError>
    ensures { OnOk result (text.new.items ≡ text.old.items ++ words_text style x y (decimal number)) }
{
    let mut buffer = Buffer::new();
    put_words(text, style, x, y, buffer.format(number))
}

// What stands beside a level.
fn put_level_words(
    text: &mut Vec<u8>,
    y: Pixels,
    words: &[String],
    value: u128,
) -> Result<(), AllocError>
    ensures { OnOk result (text.new.items ≡ text.old.items
        ++ words_text End 82 y (unwrap_or (slice_get (map string_bytes words.now) value) (decimal value))) }
{
    if value < words.len() as u128 {
        let word = words[value as usize].as_str();
        put_words(text, Style::End, 82, y, word)
    } else {
        put_number(text, Style::End, 82, y, value)
    }
}

fn put_level_at(
    text: &mut Vec<u8>,
    area: Area,
    words: &[String],
    value: u128,
) -> Result<(), AllocError>
    requires small { IsSmall area }
    requires value { value < 2 ^ 80 }
    ensures { OnOk result (text.new.items ≡ text.old.items
        ++ shapes_text (level_at area (map string_bytes words.now) value)) }
{
    let y = area.down(value);
    put_level(text, y)?;
    put_level_words(text, y + 4, words, value)
}

fn put_levels(text: &mut Vec<u8>, area: Area, words: &[String]) -> Result<(), AllocError>
    requires { IsSmall area }
    ensures { OnOk result (text.new.items ≡ text.old.items
        ++ shapes_text (levels area (map string_bytes words.now))) }
{
    for part in 0..area.scale.parts + 1 {
        let value = u128::from(part) * u128::from(area.scale.step);
        put_level_at(text, area, words, value)?;
    }
    Ok(())
}

fn is_on(axis: Axis, place: u128) -> bool
    ensures { result ≡ is_on axis place }
{
    let (first, last) = (u128::from(axis.first), u128::from(axis.last));
    let ends = if axis.is_open {
        place < last
    } else {
        place <= last
    };
    first <= place && ends
}

fn put_tick_at(text: &mut Vec<u8>, area: Area, place: u128) -> Result<(), AllocError>
    requires small { IsSmall area }
    requires place { place < 2 ^ 70 }
    ensures { OnOk result (text.new.items ≡ text.old.items ++ shapes_text (tick_at area place)) }
{
    if !is_on(area.axis, place) {
        return Ok(());
    }
    let x = area.across(place);
    put_tick(text, x, area.base)?;
    put_number(text, Style::Middle, x, area.base + 20, place)
}

fn put_ticks(text: &mut Vec<u8>, area: Area) -> Result<(), AllocError>
    requires { IsSmall area }
    ensures { OnOk result (text.new.items ≡ text.old.items ++ shapes_text (ticks area)) }
{
    let step = area.axis.tick_step();
    let before = area.axis.first / step;
    for k in 0..12u64 {
        let place = (u128::from(before) + u128::from(k)) * u128::from(step);
        put_tick_at(text, area, place)?;
    }
    Ok(())
}

fn put_axes(text: &mut Vec<u8>, along: &str, area: Area, chart: &Chart) -> Result<(), AllocError>
    requires { IsSmall area }
    ensures { OnOk result (text.new.items ≡ text.old.items ++ shapes_text (axes along.now area chart.now)) }
{
    put_levels(text, area, chart.words())?;
    put_ticks(text, area)?;
    put_words(text, Style::Middle, LEFT + 440, area.base + 38, along)?;
    let middle = area.base.saturating_sub(u128::from(area.scale.height / 2));
    put_upright(text, middle, chart.unit())
}

// ---- marks

fn is_marked(count: usize, i: usize, number: u64) -> bool
    ensures { result ≡ is_marked count i number }
{
    let stride = (count as u64 / 6).max(1);
    i as u64 % stride == number % stride
}

fn mark_place(area: Area, curve: &Curve, i: usize) -> Pixels
    ensures { result ≡ mark_place area curve.now i }
{
    let (first, places) = (area.axis.first, curve.places());
    let left = area.across(place_among(first, places, i));
    match places {
        Some(_) => left,
        None => (left + area.across(u128::from(first) + (i as u128 + 1))) / 2,
    }
}

fn put_mark_at(text: &mut Vec<u8>, area: Area, curve: &Curve, i: usize) -> Result<(), AllocError>
    requires { area.scale.parts ≤ 100 }
    ensures { OnOk result (text.new.items ≡ text.old.items ++ shapes_text (mark_at area curve.now i)) }
{
    if !is_marked(curve.values().len(), i, curve.number()) {
        return Ok(());
    }
    let Some(value) = value_at(curve.values(), i) else {
        return Ok(());
    };
    let (x, y) = (mark_place(area, curve, i), area.down(u128::from(value)));
    put_mark(text, x, y, curve.number())
}

fn put_marks_along(text: &mut Vec<u8>, area: Area, curve: &Curve) -> Result<(), AllocError>
    requires { area.scale.parts ≤ 100 }
    ensures { OnOk result (text.new.items ≡ text.old.items ++ shapes_text (marks_along area curve.now)) }
{
    for i in 0..curve.values().len() {
        put_mark_at(text, area, curve, i)?;
    }
    Ok(())
}

fn put_marks(text: &mut Vec<u8>, area: Area, curves: &[Curve]) -> Result<(), AllocError>
    requires { area.scale.parts ≤ 100 }
    ensures { OnOk result (text.new.items ≡ text.old.items
        ++ shapes_text (flat_map (marks_along area) curves.now)) }
{
    for curve in curves {
        put_marks_along(text, area, curve)?;
    }
    Ok(())
}

// ---- the legend

fn longest(curves: &[Curve]) -> usize
    ensures { result ≡ longest curves.now }
{
    let mut most = 0;
    for curve in curves {
        most = most.max(curve.name().len());
    }
    most
}

fn columns_for(curves: &[Curve]) -> u128
    ensures value { result ≡ columns_for curves.now }
    ensures few { (1 ≤ result) × (result ≤ 10) }
{
    (880 / (84 + 13 * longest(curves) as u128)).max(1)
}

fn put_entry_in(
    text: &mut Vec<u8>,
    base: Pixels,
    columns: u128,
    slot: usize,
    curve: &Curve,
) -> Result<(), AllocError>
    requires base { base ≤ 2 ^ 100 }
    requires few { (1 ≤ columns) × (columns ≤ 10) }
    ensures { OnOk result (text.new.items ≡ text.old.items ++ shape_text (entry_in base columns slot curve.now)) }
{
    let (column, line) = (slot as u128 % columns, slot as u128 / columns);
    let (x, y) = (LEFT + column * (880 / columns), base + 62 + 24 * line);
    put_entry(text, x, y, curve.number(), curve.name())
}

fn put_legend(text: &mut Vec<u8>, base: Pixels, curves: &[Curve]) -> Result<(), AllocError>
    requires { base ≤ 2 ^ 100 }
    ensures { OnOk result (text.new.items ≡ text.old.items ++ shapes_text (legend base curves.now)) }
{
    let columns = columns_for(curves);
    let mut slot = 0;
    for curve in curves {
        put_entry_in(text, base, columns, slot, curve)?;
        slot += 1;
    }
    Ok(())
}

fn put_keys(text: &mut Vec<u8>, area: Area, chart: &Chart) -> Result<(), AllocError>
    requires { IsSmall area }
    ensures { OnOk result (text.new.items ≡ text.old.items ++ shapes_text (keys area chart.now)) }
{
    if !chart.is_keyed() {
        return Ok(());
    }
    put_marks(text, area, chart.curves())?;
    put_legend(text, area.base, chart.curves())
}

// ---- a chart

// The greatest value of the band behind a curve, or 0.
fn greatest_of_band(curve: &Curve) -> u64
    ensures { result ≡ greatest (ends_of curve.now.band) }
{
    match curve.band() {
        Some(spreads) => greatest_end(spreads),
        None => 0,
    }
}

fn greatest_in(curves: &[Curve]) -> u64
    ensures { result ≡ greatest_in curves.now }
{
    let mut most = 0;
    for curve in curves {
        most = greatest(curve.values()).max(most);
        most = greatest_of_band(curve).max(most);
    }
    most
}

fn scale_of(chart: &Chart) -> Scale
    ensures value { result ≡ scale_of chart.now }
    ensures few { result.parts ≤ 100 }
{
    if chart.words().is_empty() {
        Scale::to(greatest_in(chart.curves()))
    } else {
        Scale::of_words(chart.words().len())
    }
}

fn height_of(chart: &Chart) -> u32
    ensures value { result ≡ (scale_of chart.now).height }
    ensures few { result ≤ 200 }
{
    if chart.words().is_empty() { 200 } else { 75 }
}

fn room_of(chart: &Chart) -> Pixels
    ensures value { result ≡ room_of chart.now }
    ensures bound { result ≤ 2 ^ 80 }
{
    let height = 34 + u128::from(height_of(chart)) + 54;
    if chart.is_keyed() {
        let curves = chart.curves();
        let lines = (curves.len() as u128).div_ceil(columns_for(curves));
        height + 24 * lines
    } else {
        height
    }
}

fn put_band_of(text: &mut Vec<u8>, area: Area, curve: &Curve) -> Result<(), AllocError>
    requires { area.scale.parts ≤ 100 }
    ensures { OnOk result (text.new.items ≡ text.old.items ++ shapes_text (band_of area curve.now)) }
{
    match curve.band() {
        Some(spreads) => put_band(text, area, curve, spreads),
        None => Ok(()),
    }
}

fn put_bands(text: &mut Vec<u8>, area: Area, curves: &[Curve]) -> Result<(), AllocError>
    requires { area.scale.parts ≤ 100 }
    ensures { OnOk result (text.new.items ≡ text.old.items ++ shapes_text (bands area curves.now)) }
{
    for curve in curves {
        put_band_of(text, area, curve)?;
    }
    Ok(())
}

fn put_curves(text: &mut Vec<u8>, area: Area, curves: &[Curve]) -> Result<(), AllocError>
    requires { area.scale.parts ≤ 100 }
    ensures { OnOk result (text.new.items ≡ text.old.items ++ shapes_text (map (Path area) curves.now)) }
{
    for curve in curves {
        put_curve(text, area, curve)?;
    }
    Ok(())
}

fn put_chart(text: &mut Vec<u8>, along: &str, area: Area, chart: &Chart) -> Result<(), AllocError>
    requires { IsSmall area }
    ensures { OnOk result (text.new.items ≡ text.old.items
        ++ shapes_text (chart_shapes along.now area chart.now)) }
{
    put_open(text, chart.title())?;
    let above = area.base.saturating_sub(u128::from(area.scale.height) + 14);
    put_words(text, Style::Title, LEFT, above, chart.title())?;
    put_axes(text, along, area, chart)?;
    put_bands(text, area, chart.curves())?;
    put_curves(text, area, chart.curves())?;
    put_keys(text, area, chart)?;
    put(text, "</g>\n")
}

// ---- the picture

// The chart whose room begins so far down.
fn area_of(axis: Axis, y: Pixels, chart: &Chart) -> Area
    requires { y ≤ 2 ^ 95 }
    ensures value { result ≡ area_of axis y chart.now }
    ensures small { IsSmall result }
{
    let scale = scale_of(chart);
    Area {
        base: y + 34 + u128::from(scale.height),
        scale,
        axis,
    }
}

fn put_charts(
    text: &mut Vec<u8>,
    along: &str,
    axis: Axis,
    charts: &[Chart],
) -> Result<(), AllocError>
    requires { length charts.now ≤ 1000 }
    ensures { OnOk result (text.new.items ≡ text.old.items
        ++ shapes_text (charts_from along.now axis 70 charts.now)) }
{
    let mut y = 70;
    for chart in charts {
        let area = area_of(axis, y, chart);
        put_chart(text, along, area, chart)?;
        y += room_of(chart);
    }
    Ok(())
}

// How far down the last chart ends.
fn end_of(charts: &[Chart]) -> Pixels
    requires { length charts.now ≤ 1000 }
    ensures { result ≡ end_of 70 charts.now }
{
    let mut y = 70;
    for chart in charts {
        y += room_of(chart);
    }
    y
}

/// Draws charts below each other, as an SVG (Scalable Vector Graphics 1.1), 1010 pixels wide and as high as they need.
///
/// A place p of the axis from f to l stands (p - f) * 880 / (l - f) pixels right of a chart's left edge, and a value v of a chart of
/// numbers, whose upper edge is t, v * 200 / t pixels above its base; both are rounded down. There t is the least multiple of the
/// step between two levels that reaches each value, of bands too, and the step the least of 1, 2, 5, 10, 20, 50 and so on of which
/// five do. A curve is told from others by its colour, by its dashes and by its number, so that black and white are enough. Bands lie
/// behind all curves of their chart.
///
/// [`AllocError`] comes only where memory was refused.
pub fn draw(alloc: Global, drawing: &Drawing) -> Result<Vec<u8>, AllocError>
    ensures { IfOk result (λ text. text.items ≡ svg_of drawing.now) }
{
    let mut text = Vec::new(alloc);
    let charts = drawing.charts();
    put_head(&mut text, drawing.title(), end_of(charts))?;
    put_words(&mut text, Style::Heading, LEFT, 34, drawing.title())?;
    put_words(&mut text, Style::Plain, LEFT, 58, drawing.note())?;
    put_charts(&mut text, drawing.along(), drawing.axis(), charts)?;
    put(&mut text, "</svg>\n")?;
    Ok(text)
}
