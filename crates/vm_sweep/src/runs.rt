//! The runs of a sweep, and what those come to that differ in their seeds.
ghost use Rattle.std.specs.Prelude.{◌≡◌, ◌<◌, ◌/◌, IfOk, length, map, option_copied};
ghost use Rattle.vm_sweep.specs.SweptRuns.{frames_of, point_of, points_of, runs_at};

use crate::median::over_seeds;
use crate::points::SweptPoint;
use std::alloc::{AllocError, Global};

/// What is drawn of a run: its machine, and what came of it.
#[derive(Clone, Copy, Debug)]
pub(crate) struct SweptRun {
    /// Frames of the machine.
    pub(crate) frames: u32,
    /// Frames paged and pages evicted, their sum.
    pub(crate) moved: u64,
    /// Guests blocked or stalled, summed over the epochs.
    pub(crate) waited: u64,
}

fn moved_of(run: &SweptRun) -> u64
    ensures { result ≡ run.now.moved }
{
    run.moved
}

fn waited_of(run: &SweptRun) -> u64
    ensures { result ≡ run.now.waited }
{
    run.waited
}

// What runs moved.
fn all_moved(alloc: Global, runs: &[SweptRun]) -> Result<Vec<u64>, AllocError>
    ensures { IfOk result (λ numbers. numbers.items ≡ map (λ run. run.moved) runs.now) }
{
    let mut numbers = Vec::with_capacity(alloc, runs.len())?;
    for run in runs {
        numbers.push(moved_of(run))?;
    }
    Ok(numbers)
}

// How many guests waited in each run.
fn all_waited(alloc: Global, runs: &[SweptRun]) -> Result<Vec<u64>, AllocError>
    ensures { IfOk result (λ numbers. numbers.items ≡ map (λ run. run.waited) runs.now) }
{
    let mut numbers = Vec::with_capacity(alloc, runs.len())?;
    for run in runs {
        numbers.push(waited_of(run))?;
    }
    Ok(numbers)
}

fn frames_of(run: Option<&SweptRun>) -> u32
    ensures { result ≡ frames_of (option_copied run.entry) }
{
    match run {
        Some(run) => run.frames,
        None => 0,
    }
}

// What is drawn of the runs of a machine and a combination.
fn point_of(alloc: Global, runs: &[SweptRun]) -> Result<SweptPoint, AllocError>
    ensures { IfOk result (λ point. point ≡ point_of runs.now) }
{
    Ok(SweptPoint {
        frames: frames_of(runs.first()),
        moved: over_seeds(all_moved(alloc, runs)?),
        waited: over_seeds(all_waited(alloc, runs)?),
    })
}

// The runs of a machine and a combination.
fn runs_at(runs: &[SweptRun], seeds: usize, point: usize) -> &[SweptRun]
    requires { point < length runs.now / seeds }
    ensures { result.now ≡ runs_at runs.now seeds point }
{
    let first = point * seeds;
    &runs[first..first + seeds]
}

// How many points there are.
fn point_count(runs: &[SweptRun], seeds: usize) -> usize
    ensures { result ≡ length runs.now / seeds }
{
    runs.len().checked_div(seeds).unwrap_or(0)
}

/// What is drawn of so many runs each.
pub(crate) fn points_of(
    alloc: Global,
    seeds: usize,
    runs: &[SweptRun],
) -> Result<Vec<SweptPoint>, AllocError>
    ensures { IfOk result (λ points. points.items ≡ points_of seeds runs.now) }
{
    let mut points = Vec::new(alloc);
    for point in 0..point_count(runs, seeds) {
        points.push(point_of(alloc, runs_at(runs, seeds, point))?)?;
    }
    Ok(points)
}
