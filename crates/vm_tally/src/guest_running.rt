//! A run, told guest by guest.
ghost use Rattle.std.specs.Prelude.{◌≡◌, ◌+◌, ℕ, suc, ◌<◌, IfErr, IfOk, OnOk, length};
ghost use Rattle.vm_config.specs.declared.config.Config.{Config as Configuration};
ghost use Rattle.vm_host.specs.declared.phase.Phase.TheVariants.{Waiting};
ghost use Rattle.vm_sim.specs.declared.run_error.RunError.TheVariants.{Memory};
ghost use Rattle.vm_sim.specs.Course.{course_of};
ghost use Rattle.vm_sim.specs.Stepping.{run_after};
ghost use Rattle.vm_tally.specs.GuestSummary.{guest_summaries_of};
ghost use Rattle.vm_tally.specs.GuestTally.{tally_after};

use crate::guest_summary::GuestSummary;
use crate::guest_tally::GuestTally;
use std::alloc::Global;
use std::mem;
use vm_sim::{Config, Open, RunError, Shelf, SteppedRun};

// The next epoch of a run, with the boundary before it.
fn add_next(alloc: Global, run: &mut SteppedRun, tally: &mut GuestTally) -> Result<(), RunError>
    requires left { run.old.done < run.old.epochs }
    requires waits { run.old.host.phase ≡ Waiting }
    ensures next { (config : Configuration) (k : ℕ) → run.old ≡ run_after config k
        → OnOk result (run.new ≡ run_after config (suc k)) }
    ensures tally { (config : Configuration) (k guests : ℕ) → run.old ≡ run_after config k
        → tally.old ≡ tally_after (course_of config) guests k
        → OnOk result (tally.new ≡ tally_after (course_of config) guests (suc k)) }
    ensures waits { OnOk result (run.new.host.phase ≡ Waiting) }
    ensures counted { OnOk result (run.new.done ≡ run.old.done + 1) }
    ensures epochs { OnOk result (run.new.epochs ≡ run.old.epochs) }
    ensures memory { IfErr result (λ error. error ≡ Memory) }
{
    let told = run.boundary(alloc)?;
    tally.add_boundary(&told, run.host());
    run.epoch_alone(&Open)?;
    tally.add_epoch(run.host());
    Ok(())
}

// All epochs of a run that is before its first one.
fn count_all(alloc: Global, run: &mut SteppedRun) -> Result<GuestTally, RunError>
    requires fresh { run.old.done ≡ 0 }
    requires waits { run.old.host.phase ≡ Waiting }
    ensures tally { (config : Configuration) → run.old ≡ run_after config 0
        → IfOk result (λ tally. tally ≡ tally_after (course_of config) (length config.domains) config.epochs) }
    ensures run { (config : Configuration) → run.old ≡ run_after config 0
        → OnOk result (run.new ≡ run_after config config.epochs) }
    ensures memory { IfErr result (λ error. error ≡ Memory) }
{
    let mut tally = GuestTally::new(alloc, run.host().len())?;
    for _epoch in 0..run.epochs() {
        add_next(alloc, run, &mut tally)?;
    }
    Ok(tally)
}

// The same, and what is told of each guest then.
fn summarize_guests(alloc: Global, run: &mut SteppedRun) -> Result<Vec<GuestSummary>, RunError>
    requires fresh { run.old.done ≡ 0 }
    requires waits { run.old.host.phase ≡ Waiting }
    ensures summaries { (config : Configuration) → run.old ≡ run_after config 0
        → IfOk result (λ told. told.items ≡ guest_summaries_of config) }
    ensures run { (config : Configuration) → run.old ≡ run_after config 0
        → OnOk result (run.new ≡ run_after config config.epochs) }
    ensures memory { IfErr result (λ error. error ≡ Memory) }
{
    let tally = count_all(alloc, run)?;
    let told = tally.summaries(alloc, run.host())?;
    Ok(told)
}

/// Runs a configuration to its end in the caller's thread, and tells the run guest by guest, in the order of the configuration. The
/// configuration comes back; where memory is refused, which is [`RunError::Memory`] and the only error, it is gone.
pub fn run_guests_alone(
    alloc: Global,
    config: Config,
) -> Result<(Vec<GuestSummary>, Config), RunError>
    ensures summaries { IfOk result (λ r. r.0.items ≡ guest_summaries_of config) }
    ensures back { IfOk result (λ r. r.1 ≡ config) }
    ensures memory { IfErr result (λ error. error ≡ Memory) }
{
    run_guests_alone_with(alloc, config, &mut Shelf::new(alloc))
}

/// The same with the rooms that guests of other runs left, to which the guests of this one leave theirs. Where memory is refused, none
/// may be left.
pub fn run_guests_alone_with(
    alloc: Global,
    config: Config,
    shelf: &mut Shelf,
) -> Result<(Vec<GuestSummary>, Config), RunError>
    ensures summaries { IfOk result (λ r. r.0.items ≡ guest_summaries_of config) }
    ensures back { IfOk result (λ r. r.1 ≡ config) }
    ensures memory { IfErr result (λ error. error ≡ Memory) }
{
    let rooms = mem::replace(shelf, Shelf::new(alloc));
    let mut run = SteppedRun::with_shelf(alloc, config, rooms)?;
    let summaries = summarize_guests(alloc, &mut run);
    let (config, left) = run.close_keeping();
    *shelf = left;
    Ok((summaries?, config))
}
