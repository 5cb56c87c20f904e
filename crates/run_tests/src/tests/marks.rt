// The marks and the scales of charts, beside those that come of all samples of each curve.
use super::charts::{assert_count, assert_shows};
use std::alloc::AllocError;
use std::process::Abort;
use std::thread::Threads;
use vm_host::Open;
use vm_series::{EpochRow, collect_series, svg_text};

// ---- samples

// What a curve shows: the target of the guest at a position, the pages of all guests, the pages that touches of the guest at a position
// sent to swap, or nothing, where there is no curve.
#[derive(Clone, Copy)]
enum Measure {
    Target(usize),
    SwappedOut,
    Ballooned,
    Evicted(usize),
    Nothing,
}

// The pages that touches of a guest sent to swap. A guest that is blocked touches none, and keeps the demand that it had.
fn evicted(row: &EpochRow, position: usize) -> Option<u64> {
    let view = row.view(position)?;
    Some(if view.blocked { 0 } else { view.demand })
}

// The pages of all guests that are swapped out, or ballooned.
fn pages(row: &EpochRow, are_swapped: bool) -> u64 {
    let mut sum: u64 = 0;
    for view in row.views() {
        let Some(view) = view else { continue };
        let pages = if are_swapped {
            view.swapped
        } else {
            view.balloon
        };
        sum = sum.saturating_add(u64::from(pages));
    }
    sum
}

// The value of a curve after an epoch: a guest that doesn't run has none.
fn sample(row: &EpochRow, measure: Measure) -> Option<u64> {
    match measure {
        Measure::Target(position) => row.view(position).map(|view| u64::from(view.target)),
        Measure::SwappedOut => Some(pages(row, true)),
        Measure::Ballooned => Some(pages(row, false)),
        Measure::Evicted(position) => evicted(row, position),
        Measure::Nothing => None,
    }
}

// The greatest value of some curves.
fn greatest_of(rows: &[EpochRow], measures: &[Measure]) -> u64 {
    let mut most: u64 = 0;
    for measure in measures {
        let greatest = rows.iter().filter_map(|row| sample(row, *measure)).max();
        most = most.max(greatest.unwrap_or(0));
    }
    most
}

// ---- scales

const ROUND_STEPS: [u64; 6] = [1, 2, 5, 10, 20, 50];

#[derive(Clone, Copy)]
struct Scale {
    base: u64,
    step: u64,
    parts: u64,
}

// The least number of round steps that reach a value, of which five would do.
fn reaching(base: u64, greatest: u64) -> Scale {
    let least = greatest.div_ceil(5);
    let round = ROUND_STEPS.iter().copied().find(|step| *step >= least);
    let step = round.unwrap_or(100).max(1);
    let parts = greatest.div_ceil(step).max(1);
    Scale { base, step, parts }
}

fn y_of(scale: Scale, value: u64) -> u64 {
    let top = scale.step.saturating_mul(scale.parts).max(1);
    scale.base.saturating_sub(value.saturating_mul(200) / top)
}

// The lines of a scale, with their values.
fn push_grid(text: &mut String, scale: Scale) -> Result<(), AllocError> {
    for part in 0..scale.parts.saturating_add(1) {
        let value = scale.step.saturating_mul(part);
        let y = y_of(scale, value);
        let below = y.saturating_add(4);
        writeln!(
            text,
            "<path class=\"grid\" d=\"M90,{y}H970\"/>\n<text class=\"end\" x=\"82\" y=\"{below}\">{value}</text>"
        )?;
    }
    Ok(())
}

// ---- marks

// The colours of the first nine curves.
const COLOURS: [&str; 9] = [
    "#000000", "#E69F00", "#56B4E9", "#009E73", "#B3A000", "#0072B2", "#D55E00", "#CC79A7",
    "#E69F00",
];

// The middle of an epoch of so many.
fn x_of(epochs: u64, epoch: u64) -> u64 {
    let left = epoch.saturating_mul(880) / epochs.max(1);
    let right = epoch.saturating_add(1).saturating_mul(880) / epochs.max(1);
    (left.saturating_add(right) / 2).saturating_add(90)
}

// A mark of the curve of a number.
fn push_mark(text: &mut String, number: usize, x: u64, y: u64) -> Result<(), AllocError> {
    let stroke = COLOURS.get(number).copied().unwrap_or("");
    let shown = number.saturating_add(1);
    writeln!(
        text,
        "<circle class=\"mark\" stroke=\"{stroke}\" cx=\"{x}\" cy=\"{y}\" r=\"8\"/>\
<text class=\"number\" x=\"{x}\" y=\"{y}\" dy=\"4\">{shown}</text>"
    )
}

// The marks along a curve: none in an epoch in which it has no value.
fn push_marks(
    text: &mut String,
    scale: Scale,
    rows: &[EpochRow],
    number: usize,
    measure: Measure,
) -> Result<(), AllocError> {
    let stride = (rows.len() / 6).max(1);
    for (epoch, row) in rows.iter().enumerate() {
        if epoch % stride != number % stride {
            continue;
        }
        if let Some(value) = sample(row, measure) {
            let x = x_of(rows.len() as u64, epoch as u64);
            push_mark(text, number, x, y_of(scale, value))?;
        }
    }
    Ok(())
}

// ---- drawings

// Asserts that a drawing has the scale and the marks of a chart, and tells how many marks they are.
fn assert_chart(
    rt: &(impl Abort + AllocGlobal),
    svg: &String,
    rows: &[EpochRow],
    base: u64,
    measures: &[Measure],
) -> usize {
    let scale = reaching(base, greatest_of(rows, measures));
    let mut grid = String::new(rt.alloc());
    push_grid(&mut grid, scale).expect(rt, "memory");
    assert_shows(rt, svg, grid.as_str());
    let mut marks = String::new(rt.alloc());
    for (number, measure) in measures.iter().enumerate() {
        push_marks(&mut marks, scale, rows, number, *measure).expect(rt, "memory");
    }
    assert_shows(rt, svg, marks.as_str());
    marks.as_str().matches(" dy=\"4\">").count()
}

// How many guests ever run.
fn guests_of(rows: &[EpochRow], positions: usize) -> u64 {
    let mut guests: u64 = 0;
    for position in 0..positions {
        let runs = rows.iter().any(|row| row.view(position).is_some());
        guests = guests.saturating_add(u64::from(runs));
    }
    guests
}

// What is drawn of the pages that touches of the guest at a position sent to swap: nothing, where they never sent one.
fn evicted_of(rows: &[EpochRow], position: usize) -> Measure {
    let sent = rows.iter().filter_map(|row| evicted(row, position)).max();
    if sent.unwrap_or(0) > 0 {
        Measure::Evicted(position)
    } else {
        Measure::Nothing
    }
}

// How many guests are drawn so.
fn drawn_of(measures: &[Measure]) -> usize {
    measures
        .iter()
        .filter(|measure| !matches!(measure, Measure::Nothing))
        .count()
}

// Asserts the scales and marks of a drawing, and that it has no other marks but those of the legends. A legend has the guests, whose
// names have two letters, eight in a line. The chart of the pages is below it, and that of what touches sent to swap below that chart's
// legend of one line.
fn assert_pieces(
    rt: &(impl Abort + AllocGlobal),
    svg: &String,
    rows: &[EpochRow],
    positions: usize,
) {
    let targets: Vec<Measure> = (0..positions)
        .map(Measure::Target)
        .collect(rt.alloc())
        .expect(rt, "memory");
    let evicted: Vec<Measure> = (0..positions)
        .map(|position| evicted_of(rows, position))
        .collect(rt.alloc())
        .expect(rt, "memory");
    let guests = guests_of(rows, positions);
    let base = guests.div_ceil(8).saturating_mul(24).saturating_add(1043);
    let pages = [Measure::SwappedOut, Measure::Ballooned];
    let marks = assert_chart(rt, svg, rows, 755, targets.as_slice())
        .saturating_add(assert_chart(rt, svg, rows, base, &pages))
        .saturating_add(assert_chart(rt, svg, rows, base.saturating_add(312), evicted.as_slice()))
        .saturating_add(guests as usize)
        .saturating_add(2)
        .saturating_add(drawn_of(evicted.as_slice()));
    assert_count(rt, svg, " dy=\"4\">", marks);
}

// Asserts the scales and marks of a run's drawing.
fn assert_drawn(rt: &(impl Abort + AllocGlobal + Threads + Sync), config: &str) {
    let series = collect_series(rt, rt.alloc(), &Open, 1, config.as_bytes()).expect(rt, "a run");
    let text = svg_text(rt.alloc(), &series).expect(rt, "memory");
    let svg = String::from_utf8(text).expect(rt, "a text");
    assert_pieces(rt, &svg, series.rows(), series.names().len());
}

// ---- runs

// The greatest values of a step, and the least that want a greater one.
const SIZES: [u32; 5] = [25, 10, 11, 26, 5];

// Guests of several sizes, the greatest at another position in each run. Every third one is not there at first. In every second run
// they fill their balloons page by page while they write to all their pages, so that more are swapped out.
fn push_guests(config: &mut String, guests: usize, first: usize) -> Result<(), AllocError> {
    let rate = if first % 2 == 0 { 16 } else { 1 };
    for number in 0..guests {
        let comma = if number == 0 { "" } else { "," };
        let size = SIZES[number.wrapping_add(first) % 5];
        let starts = number % 3 != 2;
        write!(
            config,
            "{comma}{{\"name\":\"g{number}\",\"size\":{size},\"min\":2,\"rate\":{rate},\"autostart\":{starts},\
\"trace\":[\"w 0 0 01\",\"w 1 0 02\",\"w 2 0 03\",\"w 3 0 04\",\"w 4 0 05\",\"i\",\"r 0 0 1\"]}}"
        )?;
    }
    Ok(())
}

// What is asked of a guest before an epoch: it is away for two epochs of five, and has only two pages in one of the others.
fn line_of(epoch: usize, number: usize) -> (&'static str, &'static str) {
    match epoch.wrapping_add(number) % 5 {
        0 => ("setmem", " 40"),
        1 => ("destroy", ""),
        2 => ("memshares", " 400"),
        3 => ("start", ""),
        _ => ("setmem", " 8"),
    }
}

fn push_commands(config: &mut String, epochs: usize, guests: usize) -> Result<(), AllocError> {
    for place in 0..epochs.saturating_mul(guests) {
        let (epoch, number) = (place / guests.max(1), place % guests.max(1));
        let comma = if place == 0 { "" } else { "," };
        let (word, amount) = line_of(epoch, number);
        write!(
            config,
            "{comma}{{\"at\":{epoch},\"line\":\"{word} g{number}{amount}\"}}"
        )?;
    }
    Ok(())
}

fn push_run(config: &mut String, epochs: usize, guests: usize) -> Result<(), AllocError> {
    let quantum = if epochs % 2 == 0 { 2 } else { 8 };
    write!(
        config,
        "{{\"version\":1,\"frames\":60,\"swap\":100,\"quantum\":{quantum},\"epochs\":{epochs},\"guests\":["
    )?;
    push_guests(config, guests, epochs)?;
    config.push_str("],\"commands\":[")?;
    push_commands(config, epochs, guests)?;
    config.push_str("]}")
}

// A mark falls in each epoch where there are fewer than twelve, in every second one of fewer than eighteen, and in every third one of
// eighteen; so each curve has gaps where a mark would be. A legend has eight guests in a line.
#[test]
fn marks_and_scales_follow_from_the_samples(rt: HostRuntime) {
    for epochs in [0, 1, 5, 6, 7, 11, 12, 13, 14, 18] {
        for guests in [0, 1, 4, 5, 9] {
            let mut config = String::new(rt.alloc());
            push_run(&mut config, epochs, guests).expect(&rt, "memory");
            assert_drawn(&rt, config.as_str());
        }
    }
}

// A guest of two frames, which writes to so many pages beside those, so that they are swapped out.
fn push_swapped_run(config: &mut String, pages: usize) -> Result<(), AllocError> {
    let size = pages.saturating_add(3);
    write!(
        config,
        "{{\"version\":1,\"frames\":60,\"swap\":50,\"quantum\":60,\"epochs\":1,\"guests\":[{{\"name\":\"g\",\"size\":{size},\
\"min\":2,\"rate\":1,\"trace\":[\"i\""
    )?;
    for page in 0..pages.saturating_add(2) {
        write!(config, ",\"w {page} 0 01\"")?;
    }
    config.push_str("]}],\"commands\":[{\"at\":0,\"line\":\"setmem g 8\"}]}")
}

// An idle guest of two frames, with so many pages beside those, which go into the balloon.
fn push_ballooned_run(config: &mut String, pages: usize) -> Result<(), AllocError> {
    let size = pages.saturating_add(2);
    write!(
        config,
        "{{\"version\":1,\"frames\":60,\"swap\":50,\"epochs\":2,\"guests\":[{{\"name\":\"g\",\"size\":{size},\
\"min\":2,\"rate\":64}}],\"commands\":[{{\"at\":0,\"line\":\"setmem g 8\"}}]}}"
    )
}

// The greatest numbers of pages that a scale reaches, and the least that want the next one.
#[test]
fn scales_of_pages_follow_from_the_samples(rt: HostRuntime) {
    for pages in [5, 6, 10, 11, 25, 26] {
        let mut config = String::new(rt.alloc());
        push_swapped_run(&mut config, pages).expect(&rt, "memory");
        assert_drawn(&rt, config.as_str());
        let mut config = String::new(rt.alloc());
        push_ballooned_run(&mut config, pages).expect(&rt, "memory");
        assert_drawn(&rt, config.as_str());
    }
}
