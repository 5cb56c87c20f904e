// Rows of a whole run, as the rules of a run give them.
use super::check_eq;
use super::setup::LOW_AND_BACK;
use std::process::Abort;
use vm_host::{Open, State};
use vm_series::{EpochRow, Series, collect_series};

// Asserts frames, names and rows.
fn assert_sizes(rt: &impl Abort, series: &Series, wanted: (u32, usize, usize)) {
    let sizes = (series.frames(), series.names().len(), series.rows().len());
    check_eq(rt, sizes, wanted);
}

// Asserts epoch, state and free frames.
fn assert_host(rt: &impl Abort, row: &EpochRow, wanted: (u32, State, u32)) {
    check_eq(rt, (row.epoch(), row.state(), row.free()), wanted);
}

// Asserts what each guest held: a domain without a guest has none.
fn assert_held(rt: &impl Abort, row: &EpochRow, wanted: [Option<u32>; 3]) {
    let held = [0, 1, 2].map(|position| row.view(position).map(|view| view.held));
    check_eq(rt, held, wanted);
}

// Asserts that there are guests, and how many domains are shown.
fn assert_shows_guests(rt: &impl Abort, row: &EpochRow, domains: usize) {
    check_eq(rt, (row.has_guests(), row.views().len()), (true, domains));
}

#[test]
fn a_series_can_be_read(rt: HostRuntime) {
    let alloc = rt.alloc();
    let series = collect_series(&rt, alloc, &Open, 1, LOW_AND_BACK.as_bytes()).expect(&rt, "a run");
    assert_sizes(&rt, &series, (100, 2, 4));
    let row = series.rows().get(1).expect(&rt, "a second row");
    assert_host(&rt, row, (1, State::Low, 1));
    assert_held(&rt, row, [Some(94), Some(5), None]);
    assert_shows_guests(&rt, row, 2);
}
