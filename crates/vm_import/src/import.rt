//! From a log to a guest.
ghost use Rattle.std.specs.Prelude.{◌≡◌, ◌⊎◌, ◌+◌, ◌-◌, ◌≤◌, ◌<◌, ◌^◌, List, [], ◌++◌, Err, IfErr, IfOk, None, OnErr, OnOk, Some, length, true};
ghost use Rattle.std.specs.Io.KnownBytes.{Appends};
ghost use Rattle.vm_import.specs.Importing.{FailsToTake, IsStopped, IsTaken, after_interval, written_then};
ghost use Rattle.vm_import.specs.Imports.{Fails, WritesGuest};
ghost use Rattle.vm_import.specs.Progress.{IsReady, IsShort, IsUnderWay};
ghost use Rattle.vm_import.specs.Settings.{settings_of};
ghost use Rattle.vm_import.specs.Texts.{head_of};
ghost use Rattle.vm_import.specs.declared.interval.IntervalEnd.TheVariants.{Absent, Last, Passes};
ghost use Rattle.vm_import.specs.declared.limits.Limit.{Limit};
ghost use Rattle.vm_import.specs.declared.outcome.ImportError.TheVariants.{Read, Write};
ghost use Rattle.vm_import.specs.declared.access.Access.{Access};
ghost use Rattle.vm_import.specs.Reading.{left, length_in_all};
ghost use Rattle.vm_streams.specs.Streams.{AppendsFront, NewlyFailed};
ghost use Rattle.vm_import.specs.WorkingSets.{working_set};

use crate::interval::{Interval, IntervalEnd, read_interval, skip};
use crate::outcome::{ImportError, Imported};
use crate::progress::Progress;
use crate::reader::LogReader;
use crate::settings::ImportSettings;
use crate::sizes::idle_behind;
use std::alloc::Global;
use vm_streams::{Sink, Source};

// What is taken of a log.
#[derive(Clone, Copy)]
pub(crate) struct Taken {
    // How far.
    imported: Imported,
    // The pages that are touched.
    size: u64,
}

// Takes the interval that was read, and gives the place of the next one. Nothing is written before a page is touched.
fn take_interval<W: Sink>(
    settings: &ImportSettings,
    interval: Interval,
    progress: &mut Progress,
    writer: &mut W,
) -> Result<Interval, ImportError>
    requires number { interval.number < 2 ^ 31 }
    requires written { progress.old.draft.written ≤ 2 ^ 32 }
    ensures ready { IfOk result (λ next. (before accesses : List Access)
        → IsUnderWay (settings_of settings.now) before interval.number accesses progress.old.set progress.old.draft
        → length accesses ≡ settings.now.interval
        → IsReady (settings_of settings.now) (before ++ accesses) next progress.new.set progress.new.draft) }
    ensures number { IfOk result (λ next. next.number ≡ interval.number + 1) }
    ensures idle { IfOk result (λ next. next.idle ≤ settings.now.quantum) }
    ensures filled { IfOk result (λ next. settings.now.quantum ≤ length progress.old.set.kept + next.idle) }
    ensures pages { OnOk result (progress.new.set.pages ≡ progress.old.set.pages) }
    ensures kept { OnOk result (progress.new.set.kept ≡ []) }
    ensures draft { OnOk result (progress.new.draft ≡ after_interval (length progress.old.set.pages) progress.old.draft) }
    ensures written { OnOk result (Appends (W.contents writer.old) (W.contents writer.new)
        (written_then (length progress.old.set.pages) progress.old.draft)) }
    ensures front { OnErr result (AppendsFront (W.contents writer.old) (W.contents writer.new) progress.old.draft.text) }
    ensures failed { IfErr result (λ error. (error ≡ Write) × (W.has_failed writer.new ≡ true)) }
    ensures stays { OnOk result (W.has_failed writer.new ≡ W.has_failed writer.old) }
{
    let idle = idle_behind(settings.quantum, progress.set.kept().len() as u64);
    if progress.set.page_count() > 0 {
        progress.draft.write(writer)?;
    }
    progress.set.begin_interval();
    Ok(Interval {
        number: interval.number + 1,
        idle,
    })
}

// What is taken where an interval is the last one, or isn't taken.
fn taken_at(end: IntervalEnd, interval: Interval, size: u64, pages: u64) -> Taken
    requires { 1 ≤ interval.number }
    ensures last { end ≡ Last → result ≡ record { imported = record { intervals = interval.number; limit = None }; size = pages } }
    ensures absent { end ≡ Absent → result ≡ record { imported = record { intervals = interval.number - 1; limit = None }; size = size } }
    ensures passes { (limit : Limit) → end ≡ Passes limit
        → result ≡ record { imported = record { intervals = interval.number - 1; limit = Some limit }; size = size } }
{
    let intervals = interval.number - 1;
    match end {
        IntervalEnd::Full | IntervalEnd::Last => Taken {
            imported: Imported {
                intervals: interval.number,
                limit: None,
            },
            size: pages,
        },
        IntervalEnd::Absent => Taken {
            imported: Imported {
                intervals,
                limit: None,
            },
            size,
        },
        IntervalEnd::Passes(limit) => Taken {
            imported: Imported {
                intervals,
                limit: Some(limit),
            },
            size,
        },
    }
}

// Takes whole intervals, as many as fit.
fn take_intervals<R: Source, W: Sink>(
    settings: &ImportSettings,
    log: &mut LogReader,
    reader: &mut R,
    progress: &mut Progress,
    writer: &mut W,
) -> Result<Taken, ImportError>
    requires set { progress.old.set ≡ working_set [] [] }
    requires draft { progress.old.draft ≡ record { text = head_of (settings_of settings.now); written = 0; steps = 0 } }
    ensures taken { IfOk result (λ taken. IsTaken (settings_of settings.now) (left log.old (R.remaining reader.old))
        (W.contents writer.old) (W.contents writer.new) taken progress.new.draft) }
    ensures silent { IfOk result (λ taken. taken.size ≡ 0 → progress.new.draft.written ≡ 0) }
    ensures small { IfOk result (λ taken. taken.size ≤ 262144) }
    ensures short { OnOk result (IsShort progress.new.draft) }
    ensures stopped { OnErr result (IsStopped (settings_of settings.now) (left log.old (R.remaining reader.old))
        (W.contents writer.old) (W.contents writer.new)) }
    ensures failed { IfErr result (FailsToTake (settings_of settings.now) (left log.old (R.remaining reader.old))
        (length_in_all log.old (R.remaining reader.old)) (R.has_failed reader.new) (W.has_failed writer.new)) }
    ensures reads { (result ≡ Err Read) ⊎ (R.has_failed reader.new ≡ R.has_failed reader.old) }
    ensures writes { (result ≡ Err Write) ⊎ (W.has_failed writer.new ≡ W.has_failed writer.old) }
{
    let mut interval = Interval { number: 1, idle: 0 };
    let mut size = 0;
    loop {
        let end = read_interval(settings, interval, log, reader, progress)?;
        let pages = progress.set.page_count() as u64;
        if !end.is_full() {
            return Ok(taken_at(end, interval, size, pages));
        }
        size = pages;
        interval = take_interval(settings, interval, progress, writer)?;
    }
}

/// Reads the log of valgrind's lackey (`valgrind --tool=lackey --trace-mem=yes`) that the reader gives, and writes a configuration with
/// one guest that touches memory as the program did.
///
/// The accesses of the log, behind those that are skipped, are cut into intervals, and of each interval the first touch and the first
/// write of each page are kept, as steps of the guest's trace. Idle steps fill the epoch behind each interval but the last one. Whole
/// intervals are taken, as many as fit within the limits of a configuration; reading ends at the line with which one doesn't fit any
/// more. Memory is taken for the pages that are touched, and for what one interval keeps.
///
/// | Error | Cause | What was written |
/// |---|---|---|
/// | [`ImportError::Line`] | a line is refused, before a limit was passed | a front of a text |
/// | [`ImportError::Untouched`] | what was taken touches no page | nothing |
/// | [`ImportError::Read`] | the reader failed, or gave 2^64 bytes or more | a front of a text |
/// | [`ImportError::Write`] | the writer failed | a front of a text |
/// | [`ImportError::Memory`] | memory was refused | a front of a text |
///
/// All this is said for a reader whose bytes are known. A reader or a writer that fails in this call, and had not failed before, is
/// always answered by [`ImportError::Read`] or [`ImportError::Write`].
pub fn import_log<R: Source, W: Sink>(
    alloc: Global,
    settings: &ImportSettings,
    reader: &mut R,
    writer: &mut W,
) -> Result<Imported, ImportError>
    ensures guest { IfOk result (WritesGuest (settings_of settings.now) (R.remaining reader.old)
        (W.contents writer.old) (W.contents writer.new)) }
    ensures failed { IfErr result (Fails (settings_of settings.now) (R.remaining reader.old)
        (W.contents writer.old) (W.contents writer.new) (R.has_failed reader.new) (W.has_failed writer.new)) }
    ensures reader_failed { NewlyFailed (R.has_failed reader.old) (R.has_failed reader.new) → result ≡ Err Read }
    ensures writer_failed { NewlyFailed (W.has_failed writer.old) (W.has_failed writer.new) → result ≡ Err Write }
{
    let mut log = LogReader::new(alloc)?;
    skip(&mut log, reader, settings.skip)?;
    let mut progress = Progress::new(alloc, settings)?;
    let taken = take_intervals(settings, &mut log, reader, &mut progress, writer)?;
    if taken.size == 0 {
        return Err(ImportError::Untouched(taken.imported));
    }
    progress.draft.finish(alloc, settings, taken.size)?;
    progress.draft.write(writer)?;
    Ok(taken.imported)
}
