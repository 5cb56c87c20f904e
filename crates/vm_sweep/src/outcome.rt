//! What is told of a run.
ghost use Rattle.std.specs.Prelude.{◌≡◌, IfOk, string_bytes};
ghost use Rattle.vm_sweep.specs.Combinations.{numbers_of};
ghost use Rattle.vm_sweep.specs.Outcomes.{Tells, rebalancing_in};
ghost use Rattle.vm_tally.specs.GuestTable.{guest_records};

use crate::variant::Variant;
use std::alloc::{AllocError, Global};
use vm_config::Config;
use vm_sim::RunError;
use vm_tally::{
    GuestSummary, Names, Rebalancing, Shelf, Summary, guest_names, guest_records_text,
    run_alone_with, run_guests_alone_with,
};

/// How much is told of a run, and where the values of the rebalancing are from.
#[derive(Clone, Copy, PartialEq, Eq)]
pub(crate) enum Detail {
    /// The run as a whole.
    Run(Rebalancing),
    /// Each of its guests.
    EachGuest(Rebalancing),
}

impl Detail {
    /// Where the values of the rebalancing are from.
    pub(crate) fn rebalancing(self) -> Rebalancing
        ensures { result ≡ rebalancing_in self }
    {
        match self {
            Detail::Run(rebalancing) => rebalancing,
            Detail::EachGuest(rebalancing) => rebalancing,
        }
    }
}

/// What is told of a run.
#[derive(Drop)]
pub(crate) enum Outcome {
    /// The run as a whole.
    InNumbers(Summary),
    /// The records of its guests.
    AsRecords(String),
}

// The records of the guests of a run.
fn guests_text(
    alloc: Global,
    rebalancing: Rebalancing,
    variant: &Variant,
    names: &Names,
    summaries: &[GuestSummary],
) -> Result<String, AllocError>
    ensures { IfOk result (λ text. string_bytes text
        ≡ guest_records rebalancing variant.now.combination (numbers_of variant.now) names.now summaries.now) }
{
    let numbers = variant.numbers(alloc)?;
    guest_records_text(
        alloc,
        rebalancing,
        &variant.combination,
        &numbers,
        names,
        summaries,
    )
}

// Runs a configuration, and tells its run guest by guest, with what it has in the place of its own.
fn run_by_guests(
    alloc: Global,
    rebalancing: Rebalancing,
    variant: &Variant,
    mut config: Config,
    shelf: &mut Shelf,
) -> Result<(Outcome, Config), RunError>
    ensures told { IfOk result (λ r. Tells (Detail.EachGuest rebalancing) variant.now config r.0) }
    ensures back { IfOk result (λ r. r.1 ≡ config) }
{
    let names = guest_names(alloc, &mut config)?;
    let (summaries, config) = run_guests_alone_with(alloc, config, shelf)?;
    let records = guests_text(alloc, rebalancing, variant, &names, &summaries)?;
    Ok((Outcome::AsRecords(records), config))
}

/// Runs a configuration that has this in the place of its own to its end in the caller's thread, with the rooms that guests of other runs
/// left. It comes back; where memory is refused, which is the only error, it is gone.
pub(crate) fn run_told(
    alloc: Global,
    detail: Detail,
    variant: &Variant,
    config: Config,
    shelf: &mut Shelf,
) -> Result<(Outcome, Config), RunError>
    ensures told { IfOk result (λ r. Tells detail variant.now config r.0) }
    ensures back { IfOk result (λ r. r.1 ≡ config) }
{
    match detail {
        Detail::Run(_) => {
            let (summary, config) = run_alone_with(alloc, config, shelf)?;
            Ok((Outcome::InNumbers(summary), config))
        }
        Detail::EachGuest(rebalancing) => {
            run_by_guests(alloc, rebalancing, variant, config, shelf)
        }
    }
}
