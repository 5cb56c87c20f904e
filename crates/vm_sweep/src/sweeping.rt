//! A sweep: one configuration under each combination of lists of values, as a table.
ghost use Rattle.std.specs.Prelude.{◌≡◌, ◌<◌, ◌≤◌, ◌∷◌, [], Err, IfErr, IfOk, OnOk, length, map, string_bytes, vec_len};
ghost use Rattle.std.specs.List.{concat};
ghost use Rattle.std.specs.Io.KnownBytes.{Appends, Keeps};
ghost use Rattle.std.specs.Vec.Iter.{into_iter_items, into_iter_len};
ghost use Rattle.vm_sim.specs.declared.run_error.RunError.TheVariants.{Write};
ghost use Rattle.vm_sim.specs.Run.{CutShort, MeansConfig};
ghost use Rattle.vm_streams.specs.Streams.{NewlyFailed};
ghost use Rattle.vm_sweep.specs.Combinations.{numbers_of};
ghost use Rattle.vm_sweep.specs.Refusals.{IsAccepted, StopsFor};
ghost use Rattle.vm_sweep.specs.Rounds.{IsUnderWay};
ghost use Rattle.vm_sweep.specs.Table.{guest_rows_of, guest_table_of, header_for, record_of, rows_for, rows_of, table_of};
ghost use Rattle.vm_sweep.specs.Written.{FailsOnTable, FailsWithin};
ghost use Rattle.vm_tally.specs.Table.{record_text};

use crate::errors::SweepError;
use crate::headings::headings;
use crate::job::{RunDone, RunJob};
use crate::lists::Lists;
use crate::outcome::{Detail, Outcome};
use crate::progress::Progress;
use crate::reading::read_for;
use crate::rounds::{prepare, run_next};
use crate::variant::Variant;
use crate::workplace::Workplace;
use std::alloc::{AllocError, Global};
use std::thread::Threads;
use std::vec::IntoIter;
use vm_config::Config;
use vm_sim::RunError;
use vm_streams::{Sink, write_text};
use vm_tally::{Rebalancing, Summary, guests_header_text, header_text, record_text};

// Writes a row.
fn write_row<W: Sink>(row: &str, writer: &mut W) -> Result<(), RunError>
    ensures done { OnOk result (Appends (W.contents writer.old) (W.contents writer.new) row.now) }
    ensures failed { IfErr result (FailsWithin (W.contents writer.old) (W.contents writer.new) (row.now ∷ [])) }
    ensures stays { OnOk result (W.has_failed writer.new ≡ W.has_failed writer.old) }
    ensures cause { IfErr result (CutShort (W.has_failed writer.old) (W.has_failed writer.new)) }
{
    write_text(writer, row.as_bytes())?;
    Ok(())
}

// The header of a table.
fn header_for(alloc: Global, detail: Detail, lists: &Lists) -> Result<String, AllocError>
    ensures { IfOk result (λ text. string_bytes text ≡ header_for detail lists.now) }
{
    let headings = headings(alloc, lists)?;
    match detail {
        Detail::Run(rebalancing) => header_text(alloc, rebalancing, &headings),
        Detail::EachGuest(rebalancing) => guests_header_text(alloc, rebalancing, &headings),
    }
}

// Writes the header.
fn write_header<W: Sink>(
    alloc: Global,
    detail: Detail,
    lists: &Lists,
    writer: &mut W,
) -> Result<(), RunError>
    ensures done { OnOk result (Appends (W.contents writer.old) (W.contents writer.new) (header_for detail lists.now)) }
    ensures failed { IfErr result (FailsWithin (W.contents writer.old) (W.contents writer.new) (header_for detail lists.now ∷ [])) }
    ensures stays { OnOk result (W.has_failed writer.new ≡ W.has_failed writer.old) }
    ensures cause { IfErr result (CutShort (W.has_failed writer.old) (W.has_failed writer.new)) }
{
    let text = header_for(alloc, detail, lists)?;
    write_row(text.as_str(), writer)
}

// The record of a run that is told in numbers.
fn summary_text(
    alloc: Global,
    rebalancing: Rebalancing,
    variant: &Variant,
    summary: &Summary,
) -> Result<String, AllocError>
    ensures { IfOk result (λ text. string_bytes text
        ≡ record_text rebalancing variant.now.combination (numbers_of variant.now) summary.now) }
{
    let numbers = variant.numbers(alloc)?;
    record_text(alloc, rebalancing, &variant.combination, &numbers, summary)
}

// Writes it.
fn write_summary<W: Sink>(
    alloc: Global,
    rebalancing: Rebalancing,
    variant: &Variant,
    summary: &Summary,
    writer: &mut W,
) -> Result<(), RunError>
    ensures done { OnOk result (Appends (W.contents writer.old) (W.contents writer.new)
        (record_text rebalancing variant.now.combination (numbers_of variant.now) summary.now)) }
    ensures failed { IfErr result (FailsWithin (W.contents writer.old) (W.contents writer.new)
        (record_text rebalancing variant.now.combination (numbers_of variant.now) summary.now ∷ [])) }
    ensures stays { OnOk result (W.has_failed writer.new ≡ W.has_failed writer.old) }
    ensures cause { IfErr result (CutShort (W.has_failed writer.old) (W.has_failed writer.new)) }
{
    let text = summary_text(alloc, rebalancing, variant, summary)?;
    write_row(text.as_str(), writer)
}

// Writes what is told of a run, if memory lasted for it.
fn write_record<W: Sink>(alloc: Global, done: &RunDone, writer: &mut W) -> Result<(), RunError>
    ensures done { OnOk result (Appends (W.contents writer.old) (W.contents writer.new) (record_of done.now)) }
    ensures failed { IfErr result (FailsWithin (W.contents writer.old) (W.contents writer.new) (record_of done.now ∷ [])) }
    ensures stays { OnOk result (W.has_failed writer.new ≡ W.has_failed writer.old) }
    ensures cause { IfErr result (CutShort (W.has_failed writer.old) (W.has_failed writer.new)) }
{
    let Some(outcome) = done.outcome() else {
        return Err(RunError::Memory);
    };
    match outcome {
        Outcome::InNumbers(summary) => {
            let rebalancing = done.detail().rebalancing();
            write_summary(alloc, rebalancing, done.variant(), summary, writer)
        }
        Outcome::AsRecords(records) => write_row(records.as_str(), writer),
    }
}

// Writes the records of runs, up to the first that lacked memory.
fn write_records<W: Sink>(alloc: Global, done: &[RunDone], writer: &mut W) -> Result<(), RunError>
    ensures done { OnOk result (Appends (W.contents writer.old) (W.contents writer.new) (concat (map record_of done.now))) }
    ensures failed { IfErr result (FailsWithin (W.contents writer.old) (W.contents writer.new) (map record_of done.now)) }
    ensures stays { OnOk result (W.has_failed writer.new ≡ W.has_failed writer.old) }
    ensures cause { IfErr result (CutShort (W.has_failed writer.old) (W.has_failed writer.new)) }
{
    for one in done {
        write_record(alloc, one, writer)?;
    }
    Ok(())
}

// Runs what is left, round by round, and writes the records of each before the next.
fn write_runs<RT: Threads + Sync, W: Sink, P: Progress>(
    rt: &RT,
    alloc: Global,
    mut left: IntoIter<RunJob>,
    places: &mut Vec<Workplace>,
    progress: &P,
    writer: &mut W,
) -> Result<(), RunError>
    requires places { (0 < vec_len places.old) × (vec_len places.old ≤ 64) }
    requires counted { into_iter_len left ≡ length (into_iter_items left) }
    requires under_way { IsUnderWay (into_iter_items left) places.old.items }
    ensures done { OnOk result (Appends (W.contents writer.old) (W.contents writer.new)
        (concat (map record_of (into_iter_items left)))) }
    ensures failed { IfErr result (FailsWithin (W.contents writer.old) (W.contents writer.new)
        (map record_of (into_iter_items left))) }
    ensures stays { OnOk result (W.has_failed writer.new ≡ W.has_failed writer.old) }
    ensures cause { IfErr result (CutShort (W.has_failed writer.old) (W.has_failed writer.new)) }
{
    let all = left.len();
    while left.len() > 0 {
        let done = run_next(rt, alloc, &mut left, places)?;
        write_records(alloc, &done, writer)?;
        progress.report(all.saturating_sub(left.len()), all);
    }
    Ok(())
}

// The table of a configuration.
fn write_table<RT: Threads + Sync, W: Sink, P: Progress>(
    rt: &RT,
    alloc: Global,
    detail: Detail,
    config: Config,
    lists: &Lists,
    workers: u32,
    progress: &P,
    writer: &mut W,
) -> Result<(), RunError>
    requires { (0 < workers) × (workers ≤ 64) }
    ensures done { OnOk result (Appends (W.contents writer.old) (W.contents writer.new)
        (concat (rows_for detail lists.now config))) }
    ensures failed { IfErr result (FailsWithin (W.contents writer.old) (W.contents writer.new) (rows_for detail lists.now config)) }
    ensures stays { OnOk result (W.has_failed writer.new ≡ W.has_failed writer.old) }
    ensures cause { IfErr result (CutShort (W.has_failed writer.old) (W.has_failed writer.new)) }
{
    write_header(alloc, detail, lists, writer)?;
    let (jobs, mut places) = prepare(alloc, detail, config, lists, workers)?;
    write_runs(rt, alloc, jobs.into_iter(), &mut places, progress, writer)
}

// The table of the configuration that a text is.
fn sweep_in<RT: Threads + Sync, W: Sink, P: Progress>(
    rt: &RT,
    alloc: Global,
    detail: Detail,
    text: &[u8],
    lists: &Lists,
    workers: u32,
    progress: &P,
    writer: &mut W,
) -> Result<(), SweepError>
    requires { (0 < workers) × (workers ≤ 64) }
    ensures done { OnOk result (MeansConfig (λ config. Appends (W.contents writer.old) (W.contents writer.new)
        (concat (rows_for detail lists.now config))) text.now) }
    ensures accepted { OnOk result (IsAccepted lists.now text.now) }
    ensures failed { IfErr result (StopsFor (Keeps (W.contents writer.old) (W.contents writer.new))
        (FailsOnTable (W.contents writer.old) (W.contents writer.new) (rows_for detail lists.now) text.now) lists.now text.now) }
    ensures writer_failed { NewlyFailed (W.has_failed writer.old) (W.has_failed writer.new) → result ≡ Err (SweepError.Run Write) }
{
    let config = read_for(alloc, text, lists)?;
    match write_table(rt, alloc, detail, config, lists, workers, progress, writer) {
        Ok(()) => Ok(()),
        Err(error) => Err(SweepError::Run(error)),
    }
}

/// Runs the configuration that a text is once for each combination of values, on at most `workers` threads, the caller's among them,
/// and writes a header and a record for each run (RFC 4180), in order.
///
/// Inside a run one thread serves the guests in order, so the table is the same for any number of workers. Four runs for each
/// thread are a round; their records go out before the next one begins, and then `progress` is told. Each thread has a copy of the
/// configuration, and one host at a time.
///
/// | Answer | Cause | What was written |
/// |---|---|---|
/// | [`RunError::Config`] | the text is no configuration | nothing |
/// | [`SweepError::Guest`] | the configuration refuses a list for a guest | nothing |
/// | [`RunError::Write`] | a write failed | a front of the table |
/// | [`RunError::Memory`] | memory was refused | the first rows, whole ones, or nothing |
pub fn sweep<RT: Threads + Sync, W: Sink, P: Progress>(
    rt: &RT,
    alloc: Global,
    text: &[u8],
    lists: &Lists,
    workers: u32,
    progress: &P,
    writer: &mut W,
) -> Result<(), SweepError>
    requires { (0 < workers) × (workers ≤ 64) }
    ensures done { OnOk result (MeansConfig (λ config. Appends (W.contents writer.old) (W.contents writer.new)
        (table_of lists.now config)) text.now) }
    ensures accepted { OnOk result (IsAccepted lists.now text.now) }
    ensures failed { IfErr result (StopsFor (Keeps (W.contents writer.old) (W.contents writer.new))
        (FailsOnTable (W.contents writer.old) (W.contents writer.new) (rows_of lists.now) text.now) lists.now text.now) }
    ensures writer_failed { NewlyFailed (W.has_failed writer.old) (W.has_failed writer.new) → result ≡ Err (SweepError.Run Write) }
{
    let detail = Detail::Run(lists.rebalancing());
    sweep_in(rt, alloc, detail, text, lists, workers, progress, writer)
}

/// Runs the configuration that a text is once for each combination of values, as [`sweep`] does, and writes a header and, for each run
/// in order, a record for each guest of the configuration (RFC 4180), in their order.
///
/// The table is the same for any number of workers. The records of a round go out before the next one begins, and then `progress` is
/// told.
///
/// | Answer | Cause | What was written |
/// |---|---|---|
/// | [`RunError::Config`] | the text is no configuration | nothing |
/// | [`SweepError::Guest`] | the configuration refuses a list for a guest | nothing |
/// | [`RunError::Write`] | a write failed | a front of the table |
/// | [`RunError::Memory`] | memory was refused | the header and the records of the first runs, whole ones, or nothing |
pub fn sweep_guests<RT: Threads + Sync, W: Sink, P: Progress>(
    rt: &RT,
    alloc: Global,
    text: &[u8],
    lists: &Lists,
    workers: u32,
    progress: &P,
    writer: &mut W,
) -> Result<(), SweepError>
    requires { (0 < workers) × (workers ≤ 64) }
    ensures done { OnOk result (MeansConfig (λ config. Appends (W.contents writer.old) (W.contents writer.new)
        (guest_table_of lists.now config)) text.now) }
    ensures accepted { OnOk result (IsAccepted lists.now text.now) }
    ensures failed { IfErr result (StopsFor (Keeps (W.contents writer.old) (W.contents writer.new))
        (FailsOnTable (W.contents writer.old) (W.contents writer.new) (guest_rows_of lists.now) text.now) lists.now text.now) }
    ensures writer_failed { NewlyFailed (W.has_failed writer.old) (W.has_failed writer.new) → result ≡ Err (SweepError.Run Write) }
{
    let detail = Detail::EachGuest(lists.rebalancing());
    sweep_in(rt, alloc, detail, text, lists, workers, progress, writer)
}
