// Reading the accesses of one interval.
ghost use Rattle.std.specs.Prelude.{◌≡◌, ◌⊎◌, ◌≤◌, ◌^◌, List, [], Err, IfErr, IfOk, None, OnOk, length};
ghost use Rattle.vm_import.specs.Drafts.{with_steps};
ghost use Rattle.vm_import.specs.Failing.{FailsBehind, FailsToSkip, Skips};
ghost use Rattle.vm_import.specs.Progress.{EndsSo, IfTaken, IsReady, IsShort, IsUnderWay, UnlessTaken, is_full, is_taken, limit_of};
ghost use Rattle.vm_import.specs.Settings.{settings_of};
ghost use Rattle.vm_import.specs.Steps.{idle_steps, steps_of};
ghost use Rattle.vm_import.specs.declared.outcome.ImportError.TheVariants.{Read};
ghost use Rattle.vm_import.specs.declared.access.Access.{Access};
ghost use Rattle.vm_import.specs.Reading.{Stays, left, length_in_all};

use crate::limits::Limit;
use crate::outcome::ImportError;
use crate::progress::Progress;
use crate::reader::LogReader;
use crate::settings::ImportSettings;
use vm_streams::Source;

// How the reading of an interval ended.
#[derive(Clone, Copy)]
pub(crate) enum IntervalEnd {
    // It has as many accesses as an interval has.
    Full,
    // The log ended, behind some of them.
    Last,
    // The log ended before the first of them.
    Absent,
    // It passes a limit.
    Passes(Limit),
}

impl IntervalEnd {
    // Whether the interval has as many accesses as an interval has.
    pub(crate) fn is_full(self) -> bool
        ensures { result ≡ is_full self }
    {
        matches!(self, IntervalEnd::Full)
    }

    // Whether the interval has accesses, and fits with them.
    fn is_taken(self) -> bool
        ensures { result ≡ is_taken self }
    {
        matches!(self, IntervalEnd::Full | IntervalEnd::Last)
    }
}

// The place of an interval among all.
#[derive(Clone, Copy)]
pub(crate) struct Interval {
    // Its number, from 1.
    pub(crate) number: u32,
    // The idle steps before its own.
    pub(crate) idle: u64,
}

// Skips accesses.
pub(crate) fn skip<R: Source>(
    log: &mut LogReader,
    reader: &mut R,
    count: u64,
) -> Result<(), ImportError>
    ensures skipped { OnOk result (Skips count (left log.old (R.remaining reader.old)) (left log.new (R.remaining reader.new))) }
    ensures failed { IfErr result (FailsToSkip count (left log.old (R.remaining reader.old))
        (length_in_all log.old (R.remaining reader.old)) (R.has_failed reader.new)) }
    ensures length { OnOk result (Stays (length_in_all log.old (R.remaining reader.old)) (length_in_all log.new (R.remaining reader.new))) }
    ensures stays { (result ≡ Err Read) ⊎ (R.has_failed reader.new ≡ R.has_failed reader.old) }
{
    for skipped in 0..count {
        if log.next_access(reader)?.is_none() {
            break;
        }
    }
    Ok(())
}

// Reads the accesses of an interval, as far as the guest fits with it.
fn read_accesses<R: Source>(
    settings: &ImportSettings,
    number: u32,
    log: &mut LogReader,
    reader: &mut R,
    progress: &mut Progress,
) -> Result<IntervalEnd, ImportError>
    requires few { length progress.old.set.pages ≤ 262144 }
    requires none { progress.old.set.kept ≡ [] }
    requires short { IsShort progress.old.draft }
    ensures ends { IfOk result (λ end. (before : List Access)
        → IsUnderWay (settings_of settings.now) before number [] progress.old.set progress.old.draft
        → EndsSo (settings_of settings.now) before number (left log.old (R.remaining reader.old)) end
        (left log.new (R.remaining reader.new)) progress.new.set progress.new.draft) }
    ensures fits { IfOk result (λ end. IfTaken end (limit_of (settings_of settings.now) (length progress.new.set.pages) progress.new.draft ≡ None)) }
    ensures grows { OnOk result (progress.new.draft ≡ with_steps progress.old.draft (steps_of number progress.new.set.kept)) }
    ensures pages { length progress.old.set.pages ≤ length progress.new.set.pages }
    ensures failed { IfErr result (λ error. (before : List Access)
        → IsUnderWay (settings_of settings.now) before number [] progress.old.set progress.old.draft
        → FailsBehind (settings_of settings.now) before (left log.old (R.remaining reader.old))
        (length_in_all log.old (R.remaining reader.old)) (R.has_failed reader.new) error) }
    ensures length { OnOk result (Stays (length_in_all log.old (R.remaining reader.old)) (length_in_all log.new (R.remaining reader.new))) }
    ensures stays { (result ≡ Err Read) ⊎ (R.has_failed reader.new ≡ R.has_failed reader.old) }
{
    for count in 0..settings.interval {
        let Some(access) = log.next_access(reader)? else {
            return Ok(if count == 0 {
                IntervalEnd::Absent
            } else {
                IntervalEnd::Last
            });
        };
        match progress.add(settings, number, count == 0, access)? {
            Some(limit) => return Ok(IntervalEnd::Passes(limit)),
            None => {}
        }
    }
    Ok(IntervalEnd::Full)
}

// Reads an interval. Where it isn't taken, the draft is as it was.
pub(crate) fn read_interval<R: Source>(
    settings: &ImportSettings,
    interval: Interval,
    log: &mut LogReader,
    reader: &mut R,
    progress: &mut Progress,
) -> Result<IntervalEnd, ImportError>
    requires few { length progress.old.set.pages ≤ 262144 }
    requires none { progress.old.set.kept ≡ [] }
    requires steps { progress.old.draft.steps ≤ 1000000 }
    requires idle { interval.idle ≤ 2 ^ 31 }
    requires written { progress.old.draft.written ≤ 2 ^ 32 }
    ensures ends { IfOk result (λ end. (before : List Access)
        → IsReady (settings_of settings.now) before interval progress.old.set progress.old.draft
        → EndsSo (settings_of settings.now) before interval.number (left log.old (R.remaining reader.old)) end
        (left log.new (R.remaining reader.new)) progress.new.set progress.new.draft) }
    ensures fits { IfOk result (λ end. IfTaken end (limit_of (settings_of settings.now) (length progress.new.set.pages) progress.new.draft ≡ None)) }
    ensures grows { IfOk result (λ end. IfTaken end (progress.new.draft
        ≡ with_steps (with_steps progress.old.draft (idle_steps interval.idle)) (steps_of interval.number progress.new.set.kept))) }
    ensures back { IfOk result (λ end. UnlessTaken end (progress.new.draft ≡ progress.old.draft)) }
    ensures pages { length progress.old.set.pages ≤ length progress.new.set.pages }
    ensures failed { IfErr result (λ error. (before : List Access)
        → IsReady (settings_of settings.now) before interval progress.old.set progress.old.draft
        → FailsBehind (settings_of settings.now) before (left log.old (R.remaining reader.old))
        (length_in_all log.old (R.remaining reader.old)) (R.has_failed reader.new) error) }
    ensures length { OnOk result (Stays (length_in_all log.old (R.remaining reader.old)) (length_in_all log.new (R.remaining reader.new))) }
    ensures stays { (result ≡ Err Read) ⊎ (R.has_failed reader.new ≡ R.has_failed reader.old) }
{
    let waiting = progress.draft.waiting();
    let steps = progress.draft.steps();
    progress.draft.push_idle(interval.idle)?;
    let end = read_accesses(settings, interval.number, log, reader, progress)?;
    if !end.is_taken() {
        progress.draft.go_back(waiting, steps);
    }
    Ok(end)
}
