//! What is drawn of each machine and combination, and which of these points a curve joins.
ghost use Rattle.std.specs.Prelude.{◌≡◌, ◌<◌, IfOk, Some};
ghost use Rattle.vm_sweep.specs.SweptRuns.{machine_count, measured, places_of, point_at, spreads_of, values_of};

use crate::median::OverSeeds;
use std::alloc::{AllocError, Global};
use vm_drawing::Spread;

/// What is drawn of the runs of a machine and a combination: one, or one for each seed.
#[derive(Clone, Copy, Debug)]
pub struct SweptPoint {
    /// Frames of the machine.
    pub frames: u32,
    /// Frames paged and pages evicted, their sum.
    pub moved: OverSeeds,
    /// Guests blocked or stalled, summed over the epochs.
    pub waited: OverSeeds,
}

/// What a curve shows of each point.
#[derive(Clone, Copy)]
pub(crate) enum Measure {
    /// Frames paged and pages evicted.
    Moved,
    /// Guests blocked or stalled.
    Waited,
}

fn measured(measure: Measure, point: &SweptPoint) -> OverSeeds
    ensures { result ≡ measured measure point.now }
{
    match measure {
        Measure::Moved => point.moved,
        Measure::Waited => point.waited,
    }
}

/// How many machines have a point for each combination.
pub(crate) fn machine_count(points: &[SweptPoint], curves: usize) -> usize
    ensures { result ≡ machine_count points.now curves }
{
    points.len().checked_div(curves).unwrap_or(0)
}

// The point of a machine and a combination.
fn point_at(points: &[SweptPoint], curves: usize, machine: usize, curve: usize) -> SweptPoint
    requires machine { machine < machine_count points.now curves }
    requires curve { curve < curves }
    ensures { point_at points.now curves machine curve ≡ Some result }
{
    points[machine * curves + curve]
}

/// What a combination has on each machine: its medians.
pub(crate) fn values_of(
    alloc: Global,
    measure: Measure,
    points: &[SweptPoint],
    curves: usize,
    curve: usize,
) -> Result<Vec<Option<u64>>, AllocError>
    requires { curve < curves }
    ensures { IfOk result (λ values. values.items ≡ values_of measure points.now curves curve) }
{
    let mut values = Vec::new(alloc);
    for machine in 0..machine_count(points, curves) {
        let point = point_at(points, curves, machine, curve);
        values.push(Some(measured(measure, &point).median))?;
    }
    Ok(values)
}

/// From where to where the numbers of a combination go on each machine.
pub(crate) fn spreads_of(
    alloc: Global,
    measure: Measure,
    points: &[SweptPoint],
    curves: usize,
    curve: usize,
) -> Result<Vec<Option<Spread>>, AllocError>
    requires { curve < curves }
    ensures { IfOk result (λ spreads. spreads.items ≡ spreads_of measure points.now curves curve) }
{
    let mut spreads = Vec::new(alloc);
    for machine in 0..machine_count(points, curves) {
        let point = point_at(points, curves, machine, curve);
        spreads.push(Some(measured(measure, &point).spread))?;
    }
    Ok(spreads)
}

/// The frames of each machine.
pub(crate) fn places_of(
    alloc: Global,
    points: &[SweptPoint],
    curves: usize,
    curve: usize,
) -> Result<Vec<u64>, AllocError>
    requires { curve < curves }
    ensures { IfOk result (λ places. places.items ≡ places_of points.now curves curve) }
{
    let mut places = Vec::new(alloc);
    for machine in 0..machine_count(points, curves) {
        let point = point_at(points, curves, machine, curve);
        places.push(u64::from(point.frames))?;
    }
    Ok(places)
}
