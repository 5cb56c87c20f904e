//! A run, told in numbers.
ghost use Rattle.std.specs.Prelude.{◌≡◌, ◌+◌, ℕ, suc, ◌<◌, IfErr, IfOk, OnOk};
ghost use Rattle.vm_config.specs.declared.config.Config.{Config as Configuration};
ghost use Rattle.vm_host.specs.declared.phase.Phase.TheVariants.{Waiting};
ghost use Rattle.vm_sim.specs.declared.run_error.RunError.TheVariants.{Memory};
ghost use Rattle.vm_sim.specs.Course.{course_of};
ghost use Rattle.vm_sim.specs.Stepping.{run_after};
ghost use Rattle.vm_tally.specs.Summary.{summary_after, summary_of};

use crate::summary::Summary;
use crate::tally::{add_boundary, add_epoch, empty_summary};
use std::alloc::Global;
use std::mem;
use vm_sim::{Config, Open, RunError, Shelf, SteppedRun};

// The next epoch of a run, which has this number, with the boundary before it.
fn add_next(
    alloc: Global,
    epoch: u32,
    run: &mut SteppedRun,
    summary: &mut Summary,
) -> Result<(), RunError>
    requires left { run.old.done < run.old.epochs }
    requires waits { run.old.host.phase ≡ Waiting }
    ensures next { (config : Configuration) (k : ℕ) → run.old ≡ run_after config k
        → OnOk result (run.new ≡ run_after config (suc k)) }
    ensures summary { (config : Configuration) → run.old ≡ run_after config epoch
        → summary.old ≡ summary_after (course_of config) epoch
        → OnOk result (summary.new ≡ summary_after (course_of config) (suc epoch)) }
    ensures waits { OnOk result (run.new.host.phase ≡ Waiting) }
    ensures counted { OnOk result (run.new.done ≡ run.old.done + 1) }
    ensures epochs { OnOk result (run.new.epochs ≡ run.old.epochs) }
    ensures memory { IfErr result (λ error. error ≡ Memory) }
{
    let told = run.boundary(alloc)?;
    let before = add_boundary(summary, &told, run.host());
    run.epoch_alone(&Open)?;
    add_epoch(summary, epoch, before, run.host());
    Ok(())
}

// All epochs of a run that is before its first one.
fn summarize(alloc: Global, run: &mut SteppedRun) -> Result<Summary, RunError>
    requires fresh { run.old.done ≡ 0 }
    requires waits { run.old.host.phase ≡ Waiting }
    ensures summary { (config : Configuration) → run.old ≡ run_after config 0
        → IfOk result (λ summary. summary ≡ summary_of config) }
    ensures run { (config : Configuration) → run.old ≡ run_after config 0
        → OnOk result (run.new ≡ run_after config config.epochs) }
    ensures memory { IfErr result (λ error. error ≡ Memory) }
{
    let mut summary = empty_summary(run.host().frames());
    for epoch in 0..run.epochs() {
        add_next(alloc, epoch, run, &mut summary)?;
    }
    Ok(summary)
}

/// Runs a configuration to its end in the caller's thread, and tells the run in numbers. The configuration comes back; where memory is
/// refused, which is [`RunError::Memory`] and the only error, it is gone.
pub fn run_alone(alloc: Global, config: Config) -> Result<(Summary, Config), RunError>
    ensures summary { IfOk result (λ r. r.0 ≡ summary_of config) }
    ensures back { IfOk result (λ r. r.1 ≡ config) }
    ensures memory { IfErr result (λ error. error ≡ Memory) }
{
    run_alone_with(alloc, config, &mut Shelf::new(alloc))
}

/// The same with the rooms that guests of other runs left, to which the guests of this one leave theirs. Where memory is refused, none
/// may be left.
pub fn run_alone_with(
    alloc: Global,
    config: Config,
    shelf: &mut Shelf,
) -> Result<(Summary, Config), RunError>
    ensures summary { IfOk result (λ r. r.0 ≡ summary_of config) }
    ensures back { IfOk result (λ r. r.1 ≡ config) }
    ensures memory { IfErr result (λ error. error ≡ Memory) }
{
    let rooms = mem::replace(shelf, Shelf::new(alloc));
    let mut run = SteppedRun::with_shelf(alloc, config, rooms)?;
    let summary = summarize(alloc, &mut run);
    let (config, left) = run.close_keeping();
    *shelf = left;
    Ok((summary?, config))
}
