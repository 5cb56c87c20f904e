// A host log becomes a configuration text.
ghost use Rattle.std.specs.Prelude.{◌≡◌, ◌⊎◌, ◌≤◌, ◌++◌, ◌∷◌, [], Err, IfErr, IfOk, IfSome, List, OnOk, false, true};
ghost use Rattle.vm_samples.specs.LogSteps.{left};
ghost use Rattle.vm_samples.specs.SampleOf.{sample_of};
ghost use Rattle.vm_steer.specs.Entries.{EntryView};
ghost use Rattle.vm_log.specs.Courses.{EndsAlone, FailsToTake, IsStep, IsWritable, TakesAll};
ghost use Rattle.vm_log.specs.Following.{Follows, IsTakenWith};
ghost use Rattle.vm_log.specs.declared.log_error.PlanError.TheVariants.{Memory, Read, Write};
ghost use Rattle.vm_log.specs.Sampling.{IsUsable};
ghost use Rattle.vm_log.specs.Streams.{Fails, Plans};
ghost use Rattle.vm_streams.specs.Streams.{NewlyFailed};

use crate::judging::host_of;
use crate::log_error::PlanError;
use crate::planned::Planned;
use crate::recording::{Recording, end, take_sample};
use std::alloc::{AllocError, Global};
use vm_recorded::{Limit, text_of};
use vm_samples::{HostLog, SampleError, read_policy, read_sample};
use vm_steer::Steering;
use vm_streams::{Sink, Source, write_text};

// What a block came to.
enum Step {
    // A good sample, or the limit that would be passed with it.
    Good(Option<Limit>),
    Bad,
}

// What has been made of the blocks so far.
#[derive(Drop)]
struct Course {
    steering: Steering,
    recording: Recording,
    bad: u64,
}

// Takes the sample that was told last.
fn take_told(
    alloc: Global,
    every: u32,
    steering: &Steering,
    recording: &mut Recording,
) -> Result<Option<Limit>, AllocError>
    requires some { 1 ≤ every }
    requires few { every ≤ 10000 }
    requires follows { (samples : List (List EntryView)) × Follows steering.now.policy every samples recording.old }
    requires usable { IsUsable steering.now.last.domains }
    ensures { (samples : List (List EntryView)) → Follows steering.now.policy every samples recording.old
        → IfOk result (IsTakenWith steering.now.policy every (samples ++ steering.now.last.domains ∷ []) recording.new) }
{
    take_sample(
        alloc,
        steering.policy(),
        every,
        recording,
        &steering.told().domains,
    )
}

// Takes a block as a sample.
fn take_block(
    alloc: Global,
    every: u32,
    steering: &mut Steering,
    recording: &mut Recording,
    block: &[u8],
) -> Result<Step, PlanError>
    requires some { 1 ≤ every }
    requires few { every ≤ 10000 }
    requires follows { (samples : List (List EntryView)) × Follows steering.old.policy every samples recording.old }
    ensures taken { (samples : List (List EntryView)) → Follows steering.old.policy every samples recording.old
        → IfOk result (IsStep every steering.old steering.new samples recording.new (sample_of block.now)) }
    ensures failed { IfErr result (λ error. error ≡ Memory) }
{
    match read_sample(alloc, block) {
        Ok(sample) => {
            steering.take(alloc, &sample)?;
            Ok(Step::Good(take_told(alloc, every, steering, recording)?))
        }
        Err(SampleError::Bad(_)) => Ok(Step::Bad),
        Err(SampleError::Memory) => Err(PlanError::Memory),
    }
}

// Takes all blocks that are left, up to the one with which a limit is passed, and says how many were bad.
fn take_blocks<R: Source>(
    alloc: Global,
    every: u32,
    log: &mut HostLog,
    course: &mut Course,
    reader: &mut R,
) -> Result<Option<Limit>, PlanError>
    requires some { 1 ≤ every }
    requires few { every ≤ 10000 }
    requires none_bad { course.old.bad ≡ 0 }
    requires follows { Follows course.old.steering.policy every [] course.old.recording }
    ensures taken { IfOk result (λ limit. IfSome (left log.old (R.remaining reader.old)) (TakesAll every course.old course.new limit)) }
    ensures writable { OnOk result (IsWritable course.new.recording) }
    ensures failed { IfErr result (FailsToTake (left log.old (R.remaining reader.old)) (R.has_failed reader.new)) }
    ensures reads { (result ≡ Err Read) ⊎ (R.has_failed reader.new ≡ R.has_failed reader.old) }
{
    for _ in 0..u64::MAX {
        if !log.next(reader)? {
            return Ok(end(course.steering.policy(), every, &mut course.recording));
        }
        match take_block(
            alloc,
            every,
            &mut course.steering,
            &mut course.recording,
            log.block(),
        )? {
            Step::Good(None) => {}
            Step::Good(Some(limit)) => return Ok(Some(limit)),
            Step::Bad => course.bad += 1,
        }
    }
    Err(PlanError::TooLong)
}

// Takes what stands behind the policy, if a line stands there.
fn take_all<R: Source>(
    alloc: Global,
    every: u32,
    is_ended: bool,
    log: &mut HostLog,
    course: &mut Course,
    reader: &mut R,
) -> Result<Option<Limit>, PlanError>
    requires some { 1 ≤ every }
    requires few { every ≤ 10000 }
    requires none_bad { course.old.bad ≡ 0 }
    requires follows { Follows course.old.steering.policy every [] course.old.recording }
    ensures taken { is_ended ≡ true
        → IfOk result (λ limit. IfSome (left log.old (R.remaining reader.old)) (TakesAll every course.old course.new limit)) }
    ensures alone { is_ended ≡ false → IfOk result (λ limit. EndsAlone every course.old course.new limit) }
    ensures writable { OnOk result (IsWritable course.new.recording) }
    ensures failed { IfErr result (FailsToTake (left log.old (R.remaining reader.old)) (R.has_failed reader.new)) }
    ensures behind { IfErr result (λ _. is_ended ≡ true) }
    ensures reads { (result ≡ Err Read) ⊎ (R.has_failed reader.new ≡ R.has_failed reader.old) }
{
    if is_ended {
        return take_blocks(alloc, every, log, course, reader);
    }
    Ok(end(course.steering.policy(), every, &mut course.recording))
}

/// Makes the configuration text of the host that a log tells of: a policy and samples, each with a line `---` behind it. So many good
/// samples make an epoch.
///
/// Samples are taken as long as the text with them has no more than a text may have ([`Limit`]); what stands behind the sample with which
/// it would have more isn't read, but for what the log's reader had taken already, and the epoch of that sample isn't in the text. Bad
/// samples are passed over and counted. What stands behind the last line `---` is no sample. Where there is no such line all is the
/// policy, and the text has no epoch. The text is written in one call of [`write_text`] once the log has ended or is read no further.
///
/// Memory is taken for one block of the log at a time, and four bytes for each guest and epoch.
///
/// | Error | Cause | What was written |
/// |---|---|---|
/// | [`PlanError::Policy`] | the policy is refused | nothing |
/// | [`PlanError::Read`] | the reader failed | nothing |
/// | [`PlanError::TooLong`] | a block of more than 16777216 bytes, or 2^64 blocks | nothing |
/// | [`PlanError::Write`] | the writer failed | a front of the text |
/// | [`PlanError::Memory`] | memory was refused | nothing |
///
/// All this is said for a reader whose bytes are known. A reader or a writer that fails in this call, and had not failed before, is
/// always answered by [`PlanError::Read`] or [`PlanError::Write`].
pub fn plan_log<R: Source, W: Sink>(
    alloc: Global,
    every: u32,
    reader: &mut R,
    writer: &mut W,
) -> Result<Planned, PlanError>
    requires some { 1 ≤ every }
    requires few { every ≤ 10000 }
    ensures plans { IfOk result (Plans every (R.remaining reader.old) (W.contents writer.old) (W.contents writer.new)) }
    ensures failed { IfErr result (Fails every (R.remaining reader.old) (W.contents writer.old) (W.contents writer.new)
        (R.has_failed reader.new) (W.has_failed writer.new)) }
    ensures reader_failed { NewlyFailed (R.has_failed reader.old) (R.has_failed reader.new) → result ≡ Err Read }
    ensures writer_failed { NewlyFailed (W.has_failed writer.old) (W.has_failed writer.new) → result ≡ Err Write }
{
    let mut log = HostLog::new(alloc);
    let is_ended = log.next(reader)?;
    let policy = read_policy(alloc, log.block())?;
    let mut course = Course {
        steering: Steering::new(alloc, policy),
        recording: Recording::new(alloc),
        bad: 0,
    };
    let limit = take_all(alloc, every, is_ended, &mut log, &mut course, reader)?;
    let text = text_of(alloc, &host_of(course.steering.policy(), &course.recording))?;
    write_text(writer, &text)?;
    Ok(Planned {
        epochs: course.recording.epochs,
        limit,
        bad: course.bad,
    })
}
