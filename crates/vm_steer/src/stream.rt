// A host is steered by its log.
ghost use Rattle.std.specs.Prelude.{◌≡◌, ◌⊎◌, ◌≤◌, Err, IfErr, IfOk, IfSome, OnOk, length};
ghost use Rattle.std.specs.Io.KnownBytes.{Appends, IsAtEnd};
ghost use Rattle.vm_samples.specs.LogSteps.{left, Gives};
ghost use Rattle.vm_samples.specs.SampleOf.{sample_of};
ghost use Rattle.vm_steer.specs.declared.steer_error.SteerError.TheVariants.{Memory, Read, Write};
ghost use Rattle.vm_steer.specs.Blocks.{after_block, block_text, FailsAt, FailsToTake, TakesAll};
ghost use Rattle.vm_steer.specs.Fold.{after_sample, bad_text_in, good_text, text_in};
ghost use Rattle.vm_steer.specs.Streams.{Fails, Steers};
ghost use Rattle.vm_streams.specs.Streams.{NewlyFailed};

use crate::form::Form;
use crate::steer_error::SteerError;
use crate::steering::Steering;
use crate::table::records_of;
use crate::text::{bad_text, text_of};
use crate::told::Told;
use std::alloc::{AllocError, Global};
use vm_samples::{BadSample, HostLog, SampleError, read_policy, read_sample};
use vm_streams::{Sink, Source, write_text};

// What is written of a good sample.
fn good_text(alloc: Global, form: Form, number: u64, told: &Told) -> Result<Vec<u8>, AllocError>
    ensures { IfOk result (λ text. text.items ≡ good_text form number told.now) }
{
    match form {
        Form::Orders => text_of(alloc, number, told),
        Form::Table => records_of(alloc, number, told),
    }
}

// What is written of a bad one.
fn bad_text_in(
    alloc: Global,
    form: Form,
    number: u64,
    bad: &BadSample,
) -> Result<Vec<u8>, AllocError>
    ensures { IfOk result (λ text. text.items ≡ bad_text_in form number bad.now) }
{
    match form {
        Form::Orders => bad_text(alloc, number, bad),
        Form::Table => Ok(Vec::new(alloc)),
    }
}

// What is written of the block that is the sample with a number.
fn text_in(
    alloc: Global,
    form: Form,
    steering: &mut Steering,
    number: u64,
    block: &[u8],
) -> Result<Vec<u8>, SteerError>
    ensures taken { OnOk result (steering.new ≡ after_sample steering.old (sample_of block.now)) }
    ensures text { IfOk result (λ text. text.items ≡ text_in form number steering.old (sample_of block.now)) }
    ensures failed { IfErr result (λ error. error ≡ Memory) }
{
    match read_sample(alloc, block) {
        Ok(sample) => {
            steering.take(alloc, &sample)?;
            Ok(good_text(alloc, form, number, steering.told())?)
        }
        Err(SampleError::Bad(bad)) => Ok(bad_text_in(alloc, form, number, &bad)?),
        Err(SampleError::Memory) => Err(SteerError::Memory),
    }
}

// Takes the next block as the sample with a number, if there is one, and writes its text.
fn take_block<R: Source, W: Sink>(
    alloc: Global,
    form: Form,
    log: &mut HostLog,
    steering: &mut Steering,
    number: u64,
    reader: &mut R,
    writer: &mut W,
) -> Result<bool, SteerError>
    ensures gives { IfOk result (λ found. Gives (left log.old (R.remaining reader.old)) found
        log.new.block (left log.new (R.remaining reader.new))) }
    ensures short { OnOk result (length log.new.block ≤ 16777216) }
    ensures taken { IfOk result (λ found. steering.new ≡ after_block found steering.old log.new.block) }
    ensures written { IfOk result (λ found. Appends (W.contents writer.old) (W.contents writer.new)
        (block_text form found number steering.old log.new.block)) }
    ensures failed { IfErr result (FailsAt form number steering.old (left log.old (R.remaining reader.old))
        (W.contents writer.old) (W.contents writer.new) (R.has_failed reader.new) (W.has_failed writer.new)) }
    ensures reads { (result ≡ Err Read) ⊎ (R.has_failed reader.new ≡ R.has_failed reader.old) }
    ensures writes { (result ≡ Err Write) ⊎ (W.has_failed writer.new ≡ W.has_failed writer.old) }
{
    let found = log.next(reader)?;
    if found {
        let text = text_in(alloc, form, steering, number, log.block())?;
        write_text(writer, &text)?;
    }
    Ok(found)
}

// Takes all blocks that are left as samples, each as soon as it is there.
fn take_samples<R: Source, W: Sink>(
    alloc: Global,
    form: Form,
    log: &mut HostLog,
    steering: &mut Steering,
    reader: &mut R,
    writer: &mut W,
) -> Result<(), SteerError>
    ensures taken { OnOk result (TakesAll form steering.old (left log.old (R.remaining reader.old))
        (W.contents writer.old) (W.contents writer.new)) }
    ensures ended { OnOk result (IfSome (left log.old (R.remaining reader.old)) (λ _. IsAtEnd (R.remaining reader.new))) }
    ensures failed { IfErr result (FailsToTake form steering.old (left log.old (R.remaining reader.old))
        (W.contents writer.old) (W.contents writer.new) (R.has_failed reader.new) (W.has_failed writer.new)) }
    ensures reads { (result ≡ Err Read) ⊎ (R.has_failed reader.new ≡ R.has_failed reader.old) }
    ensures writes { (result ≡ Err Write) ⊎ (W.has_failed writer.new ≡ W.has_failed writer.old) }
{
    for number in 0..u64::MAX {
        if !take_block(alloc, form, log, steering, number, reader, writer)? {
            return Ok(());
        }
    }
    Err(SteerError::TooLong)
}

/// Steers a host by its log, a policy and samples, each with a line `---` behind it. Of each sample it is written, in one of two forms,
/// what its domains' balloons are ordered and what was decided.
///
/// As soon as the policy was read and isn't refused its header goes out, [`Form::header`]. The text of a sample goes out in one call of
/// [`write_text`], as soon as the line behind the sample was read; nothing more is read before. A bad sample orders nothing and changes
/// nothing, and in the table nothing is written of it. What stands behind the last line `---` is no sample. Where there is no such line
/// all is the policy, and the header alone is written. Memory is taken for one sample and its domains, whatever the length of the log.
///
/// | Error | Cause | What was written |
/// |---|---|---|
/// | [`SteerError::Policy`] | the policy is refused | nothing |
/// | [`SteerError::Read`] | the reader failed | nothing, or the header and the texts of the first samples |
/// | [`SteerError::TooLong`] | a block of more than 16777216 bytes, or 2^64 blocks | where that is the policy's nothing, else the header and the texts of all samples in front |
/// | [`SteerError::Write`] | the writer failed | a front of the header and all texts |
/// | [`SteerError::Memory`] | memory was refused | nothing, or the header and the texts of the first samples |
///
/// A block is what stands in front of a line `---`; what stands behind the last one isn't to be longer either.
///
/// All this is said for a reader whose bytes are known. A reader or a writer that fails in this call, and had not failed before, is
/// always answered by [`SteerError::Read`] or [`SteerError::Write`].
pub fn steer<R: Source, W: Sink>(
    alloc: Global,
    form: Form,
    reader: &mut R,
    writer: &mut W,
) -> Result<(), SteerError>
    ensures steers { OnOk result (Steers form (R.remaining reader.old) (W.contents writer.old) (W.contents writer.new)) }
    ensures ended { OnOk result (IfSome (R.remaining reader.old) (λ _. IsAtEnd (R.remaining reader.new))) }
    ensures failed { IfErr result (Fails form (R.remaining reader.old) (W.contents writer.old) (W.contents writer.new)
        (R.has_failed reader.new) (W.has_failed writer.new)) }
    ensures reader_failed { NewlyFailed (R.has_failed reader.old) (R.has_failed reader.new) → result ≡ Err Read }
    ensures writer_failed { NewlyFailed (W.has_failed writer.old) (W.has_failed writer.new) → result ≡ Err Write }
{
    let mut log = HostLog::new(alloc);
    let is_ended = log.next(reader)?;
    let policy = read_policy(alloc, log.block())?;
    write_text(writer, form.header())?;
    if !is_ended {
        return Ok(());
    }
    let mut steering = Steering::new(alloc, policy);
    take_samples(alloc, form, &mut log, &mut steering, reader, writer)
}
