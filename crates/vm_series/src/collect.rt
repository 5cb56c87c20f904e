// From a configuration to the rows of its run.
ghost use Rattle.std.specs.Prelude.{◌≡◌, ◌↔◌, ◌⊎◌, ◌<◌, ◌≤◌, ◌∷◌, ◌++◌, [], map, IfErr, IfOk, OnOk, Err, slice_get, string_bytes, unwrap_or};
ghost use Rattle.vm_config.specs.declared.config.Config.{Config};
ghost use Rattle.vm_sim.specs.declared.run_error.RunError.TheVariants.{Memory, Workers};
ghost use Rattle.vm_sim.specs.Run.{FailsOnText, MeansConfig};
ghost use Rattle.vm_sim.specs.Stepping.{run_after};
ghost use Rattle.vm_series.specs.Rows.{row_of_host, rows_before, rows_of};

use crate::rows::{EpochRow, Series};
use std::alloc::{AllocError, Global};
use std::thread::Threads;
use vm_host::{Gate, Host};
use vm_sim::{MAX_WORKERS, RunError, SteppedRun};

fn name_at(host: &Host, position: usize) -> &str
    ensures { result.now ≡ unwrap_or (slice_get host.now.names position) [] }
{
    host.name(position).unwrap_or("")
}

// How many KiB a page of the host stands for.
fn page_of(host: &Host) -> u32
    ensures { result ≡ host.now.machine.page }
{
    host.machine().page
}

// The names of the domains, by position.
fn names_of(alloc: Global, host: &Host) -> Result<Vec<String>, AllocError>
    ensures { IfOk result (λ names. map string_bytes names.items ≡ host.now.names) }
{
    let mut names = Vec::new(alloc);
    for position in 0..host.len() {
        let name = String::from_str(alloc, name_at(host, position))?;
        names.push(name)?;
    }
    Ok(names)
}

// The row of an epoch more.
fn push_row(
    alloc: Global,
    epoch: u32,
    host: &Host,
    rows: &mut Vec<EpochRow>,
) -> Result<(), AllocError>
    ensures { OnOk result (rows.new.items ≡ rows.old.items ++ row_of_host epoch host.now ∷ []) }
{
    let row = EpochRow::of_host(alloc, epoch, host)?;
    rows.push(row)?;
    Ok(())
}

// All epochs of a run, and a row for each.
fn run_all<RT: Threads + Sync, G: Gate + Sync>(
    rt: &RT,
    alloc: Global,
    gate: &G,
    workers: u32,
    run: &mut SteppedRun,
) -> Result<Vec<EpochRow>, RunError>
    requires workers { (0 < workers) × (workers ≤ 64) }
    requires fresh { run.old.done ≡ 0 }
    ensures rows { (config : Config) → run.old ≡ run_after config 0
        → IfOk result (λ rows. rows.items ≡ rows_before config config.epochs) }
    ensures memory { IfErr result (λ error. error ≡ Memory) }
{
    let mut rows = Vec::new(alloc);
    for epoch in 0..run.epochs() {
        run.step(rt, alloc, gate, workers)?;
        push_row(alloc, epoch, run.host(), &mut rows)?;
    }
    Ok(rows)
}

// The rows of a run that is before its first epoch.
fn series_of<RT: Threads + Sync, G: Gate + Sync>(
    rt: &RT,
    alloc: Global,
    gate: &G,
    workers: u32,
    run: &mut SteppedRun,
) -> Result<Series, RunError>
    requires workers { (0 < workers) × (workers ≤ 64) }
    requires fresh { run.old.done ≡ 0 }
    ensures rows { (config : Config) → run.old ≡ run_after config 0 → IfOk result (λ series. series ≡ rows_of config) }
    ensures memory { IfErr result (λ error. error ≡ Memory) }
{
    let frames = run.host().frames();
    let page = page_of(run.host());
    let names = names_of(alloc, run.host())?;
    let rows = run_all(rt, alloc, gate, workers, run)?;
    Ok(Series::new(frames, page, names, rows))
}

/// Runs the configuration that a text is, and keeps what is seen of the host after each epoch: its state, its free frames, and its
/// view of each running guest.
///
/// The guests of an epoch are served by at most `workers` threads, the caller's among them; each guest passes the gate. Whatever
/// their number, the rows are those of one worker that serves the guests in order.
///
/// There are 1 to 64 workers, else the answer is [`RunError::Workers`], before anything is run. [`RunError::Config`] comes with the
/// first fault of the configuration, and [`RunError::Memory`] where memory was refused.
pub fn collect_series<RT: Threads + Sync, G: Gate + Sync>(
    rt: &RT,
    alloc: Global,
    gate: &G,
    workers: u32,
    text: &[u8],
) -> Result<Series, RunError>
    ensures workers { (result ≡ Err Workers) ↔ ((workers < 1) ⊎ (64 < workers)) }
    ensures rows { IfOk result (λ series. MeansConfig (λ config. series ≡ rows_of config) text.now) }
    ensures failed { IfErr result (FailsOnText text.now) }
{
    if workers < 1 || workers > MAX_WORKERS {
        return Err(RunError::Workers);
    }
    let mut run = SteppedRun::of_text(alloc, text)?;
    let series = series_of(rt, alloc, gate, workers, &mut run);
    run.close();
    series
}
