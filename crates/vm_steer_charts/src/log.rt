// A host log is read to its end.
ghost use Rattle.std.specs.Prelude.{◌≡◌, ◌⊎◌, ◌<◌, ◌≤◌, ◌+◌, ◌^◌, [], Err, IfErr, IfOk, IfSome, OnOk, length};
ghost use Rattle.std.specs.Io.KnownBytes.{IsAtEnd};
ghost use Rattle.vm_samples.specs.LogSteps.{left, Gives};
ghost use Rattle.vm_steer.specs.declared.steer_error.SteerError.TheVariants.{Read};
ghost use Rattle.vm_steer_charts.specs.Reading.{AllTaken, FailsAt, FailsToRead, FailsToTake, IsSeen};
ghost use Rattle.vm_steer_charts.specs.Series.{after_block};

use crate::series::Series;
use std::alloc::Global;
use vm_samples::{HostLog, read_policy};
use vm_steer::SteerError;
use vm_streams::Source;

// Takes the next block as a sample, if there is one.
fn take_block<R: Source>(
    alloc: Global,
    log: &mut HostLog,
    series: &mut Series,
    reader: &mut R,
) -> Result<bool, SteerError>
    requires { series.old.first + 1 < 2 ^ 64 }
    ensures gives { IfOk result (λ found. Gives (left log.old (R.remaining reader.old)) found
        log.new.block (left log.new (R.remaining reader.new))) }
    ensures short { OnOk result (length log.new.block ≤ 16777216) }
    ensures taken { IfOk result (λ found. series.new ≡ after_block found series.old log.new.block) }
    ensures failed { IfErr result (FailsAt (left log.old (R.remaining reader.old)) (R.has_failed reader.new)) }
    ensures reads { (result ≡ Err Read) ⊎ (R.has_failed reader.new ≡ R.has_failed reader.old) }
{
    let found = log.next(reader)?;
    if found {
        series.take_block(alloc, log.block())?;
    }
    Ok(found)
}

// Takes all blocks that are left as samples.
fn take_samples<R: Source>(
    alloc: Global,
    log: &mut HostLog,
    series: &mut Series,
    reader: &mut R,
) -> Result<(), SteerError>
    requires first { series.old.first ≡ 0 }
    requires rows { series.old.rows ≡ [] }
    ensures taken { OnOk result (IfSome (left log.old (R.remaining reader.old))
        (AllTaken series.old.steering series.new)) }
    ensures ended { OnOk result (IfSome (left log.old (R.remaining reader.old)) (λ _. IsAtEnd (R.remaining reader.new))) }
    ensures failed { IfErr result (FailsToTake (left log.old (R.remaining reader.old)) (R.has_failed reader.new)) }
    ensures few { OnOk result (series.new.first + length series.new.rows < 2 ^ 64) }
    ensures reads { (result ≡ Err Read) ⊎ (R.has_failed reader.new ≡ R.has_failed reader.old) }
{
    for number in 0..u64::MAX {
        if !take_block(alloc, log, series, reader)? {
            return Ok(());
        }
    }
    Err(SteerError::TooLong)
}

// Reads a host log to its end, and steers its host.
pub(crate) fn read_log<R: Source>(alloc: Global, reader: &mut R) -> Result<Series, SteerError>
    ensures seen { IfOk result (λ series. IfSome (R.remaining reader.old) (λ bytes. IsSeen bytes series)) }
    ensures ended { OnOk result (IfSome (R.remaining reader.old) (λ _. IsAtEnd (R.remaining reader.new))) }
    ensures few { IfOk result (λ series. series.first + length series.rows < 2 ^ 64) }
    ensures failed { IfErr result (FailsToRead (R.remaining reader.old) (R.has_failed reader.new)) }
    ensures reads { (result ≡ Err Read) ⊎ (R.has_failed reader.new ≡ R.has_failed reader.old) }
{
    let mut log = HostLog::new(alloc);
    let is_ended = log.next(reader)?;
    let policy = read_policy(alloc, log.block())?;
    let mut series = Series::new(alloc, policy);
    if !is_ended {
        return Ok(series);
    }
    take_samples(alloc, &mut log, &mut series, reader)?;
    Ok(series)
}
