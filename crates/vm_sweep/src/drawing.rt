//! A sweep as a drawing: what a host pages and whom it lets wait on each machine.
ghost use Rattle.std.specs.Prelude.{◌≡◌, ◌<◌, ◌≤◌, ◌++◌, Err, IfErr, IfOk, IfSome, OnOk, length, map, string_bytes, vec_len};
ghost use Rattle.std.specs.Io.KnownBytes.{Appends, Keeps};
ghost use Rattle.std.specs.Vec.Iter.{into_iter_items, into_iter_len};
ghost use Rattle.vm_sim.specs.declared.run_error.RunError.TheVariants.{Write};
ghost use Rattle.vm_sim.specs.Run.{MeansConfig};
ghost use Rattle.vm_streams.specs.Streams.{NewlyFailed};
ghost use Rattle.vm_sweep.specs.Drawn.{FailsOnDrawing, FailsToDraw, drawing_of, names_of, runs_of, swept_of};
ghost use Rattle.vm_sweep.specs.Combinations.{seed_count};
ghost use Rattle.vm_sweep.specs.SweptRuns.{points_of};
ghost use Rattle.vm_sweep.specs.Refusals.{IsAccepted, StopsFor};
ghost use Rattle.vm_sweep.specs.Rounds.{IsUnderWay};

use crate::charts::sweep_svg;
use crate::errors::SweepError;
use crate::job::{RunDone, RunJob};
use crate::lists::Lists;
use crate::names::curve_names;
use crate::outcome::{Detail, Outcome};
use crate::points::SweptPoint;
use crate::progress::Progress;
use crate::reading::read_for;
use crate::rounds::{prepare, run_next};
use crate::runs::{SweptRun, points_of as points_among};
use crate::workplace::Workplace;
use std::alloc::{AllocError, Global};
use std::thread::Threads;
use std::vec::IntoIter;
use vm_config::Config;
use vm_sim::RunError;
use vm_streams::{Sink, write_text};

// What is drawn of a run, if memory lasted for it.
fn swept_of(done: &RunDone) -> Option<SweptRun>
    ensures { IfSome result (λ run. run ≡ swept_of done.now) }
{
    let frames = done.variant().combination.frames;
    let Some(Outcome::InNumbers(summary)) = done.outcome() else {
        return None;
    };
    Some(SweptRun {
        frames,
        moved: summary.paged.saturating_add(summary.evicted),
        waited: summary.blocked.saturating_add(summary.stalls),
    })
}

// Keeps what is drawn of runs behind what there is.
fn keep_runs(done: &[RunDone], runs: &mut Vec<SweptRun>) -> Result<(), AllocError>
    ensures { OnOk result (runs.new.items ≡ runs.old.items ++ map swept_of done.now) }
{
    for one in done {
        let Some(run) = swept_of(one) else {
            return Err(AllocError);
        };
        runs.push(run)?;
    }
    Ok(())
}

// Runs what is left, round by round, and keeps what is drawn of each run.
fn run_all<RT: Threads + Sync, P: Progress>(
    rt: &RT,
    alloc: Global,
    mut left: IntoIter<RunJob>,
    places: &mut Vec<Workplace>,
    progress: &P,
) -> Result<Vec<SweptRun>, AllocError>
    requires places { (0 < vec_len places.old) × (vec_len places.old ≤ 64) }
    requires counted { into_iter_len left ≡ length (into_iter_items left) }
    requires under_way { IsUnderWay (into_iter_items left) places.old.items }
    ensures { IfOk result (λ runs. runs.items ≡ map swept_of (into_iter_items left)) }
{
    let all = left.len();
    let mut runs = Vec::new(alloc);
    while left.len() > 0 {
        let done = run_next(rt, alloc, &mut left, places)?;
        keep_runs(&done, &mut runs)?;
        progress.report(all.saturating_sub(left.len()), all);
    }
    Ok(runs)
}

// How many KiB a page stands for.
fn page_of(config: &Config) -> u32
    ensures { result ≡ config.now.machine.page }
{
    config.machine.page
}

// The names of the curves.
fn names_of(alloc: Global, config: &Config, lists: &Lists) -> Result<Vec<String>, AllocError>
    ensures { IfOk result (λ names. map string_bytes names.items ≡ names_of lists.now config.now) }
{
    let combinations = lists.combinations(alloc, config)?;
    curve_names(alloc, lists, &combinations)
}

// What is drawn of each machine and combination.
fn points_of<RT: Threads + Sync, P: Progress>(
    rt: &RT,
    alloc: Global,
    config: Config,
    lists: &Lists,
    workers: u32,
    progress: &P,
) -> Result<Vec<SweptPoint>, AllocError>
    requires { (0 < workers) × (workers ≤ 64) }
    ensures { IfOk result (λ points. points.items ≡ points_of (seed_count lists.now.seeds) (runs_of lists.now config)) }
{
    let detail = Detail::Run(lists.rebalancing());
    let (jobs, mut places) = prepare(alloc, detail, config, lists, workers)?;
    let runs = run_all(rt, alloc, jobs.into_iter(), &mut places, progress)?;
    points_among(alloc, lists.seed_count(), &runs)
}

// The drawing of a configuration.
fn drawing_of<RT: Threads + Sync, P: Progress>(
    rt: &RT,
    alloc: Global,
    config: Config,
    lists: &Lists,
    workers: u32,
    progress: &P,
) -> Result<Vec<u8>, AllocError>
    requires { (0 < workers) × (workers ≤ 64) }
    ensures { IfOk result (λ drawing. drawing.items ≡ drawing_of lists.now config) }
{
    let page = page_of(&config);
    let names = names_of(alloc, &config, lists)?;
    let points = points_of(rt, alloc, config, lists, workers, progress)?;
    sweep_svg(alloc, lists, page, &names, &points)
}

// Writes it.
fn write_drawing<RT: Threads + Sync, W: Sink, P: Progress>(
    rt: &RT,
    alloc: Global,
    config: Config,
    lists: &Lists,
    workers: u32,
    progress: &P,
    writer: &mut W,
) -> Result<(), RunError>
    requires { (0 < workers) × (workers ≤ 64) }
    ensures done { OnOk result (Appends (W.contents writer.old) (W.contents writer.new) (drawing_of lists.now config)) }
    ensures failed { IfErr result (FailsToDraw (W.contents writer.old) (W.contents writer.new) (drawing_of lists.now config)) }
    ensures writer_failed { NewlyFailed (W.has_failed writer.old) (W.has_failed writer.new) → result ≡ Err Write }
{
    let drawing = drawing_of(rt, alloc, config, lists, workers, progress)?;
    write_text(writer, &drawing)?;
    Ok(())
}

/// Runs the configuration that a text is once for each combination of values, as [`sweep`](crate::sweep) does, and draws the sweep as
/// [`sweep_svg`] draws it: what a host pages and whom it lets wait on each machine, with a curve for each combination of what the lists
/// have values for beside frames and seeds. Its name tells what differs among these, as `swap 400, min db 64`, and is `all` where nothing
/// does.
///
/// Nothing is written before the last run has ended; `progress` is told after each round. The drawing is the same for any number of
/// workers.
///
/// | Answer | Cause | What was written |
/// |---|---|---|
/// | [`RunError::Config`] | the text is no configuration | nothing |
/// | [`SweepError::Guest`] | the configuration refuses a list for a guest | nothing |
/// | [`RunError::Write`] | a write failed | a front of the drawing |
/// | [`RunError::Memory`] | memory was refused | nothing |
pub fn draw_sweep<RT: Threads + Sync, W: Sink, P: Progress>(
    rt: &RT,
    alloc: Global,
    text: &[u8],
    lists: &Lists,
    workers: u32,
    progress: &P,
    writer: &mut W,
) -> Result<(), SweepError>
    requires { (0 < workers) × (workers ≤ 64) }
    ensures done { OnOk result (MeansConfig (λ config. Appends (W.contents writer.old) (W.contents writer.new)
        (drawing_of lists.now config)) text.now) }
    ensures accepted { OnOk result (IsAccepted lists.now text.now) }
    ensures failed { IfErr result (StopsFor (Keeps (W.contents writer.old) (W.contents writer.new))
        (FailsOnDrawing (W.contents writer.old) (W.contents writer.new) lists.now text.now) lists.now text.now) }
    ensures writer_failed { NewlyFailed (W.has_failed writer.old) (W.has_failed writer.new) → result ≡ Err (SweepError.Run Write) }
{
    let config = read_for(alloc, text, lists)?;
    match write_drawing(rt, alloc, config, lists, workers, progress, writer) {
        Ok(()) => Ok(()),
        Err(error) => Err(SweepError::Run(error)),
    }
}
