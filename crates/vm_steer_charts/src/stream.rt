// A host log is drawn.
ghost use Rattle.std.specs.Prelude.{◌≡◌, Err, IfErr, IfSome, OnOk};
ghost use Rattle.std.specs.Io.KnownBytes.{IsAtEnd};
ghost use Rattle.vm_steer.specs.declared.steer_error.SteerError.TheVariants.{Read, Write};
ghost use Rattle.vm_steer_charts.specs.Draws.{Draws, FailsToDraw};
ghost use Rattle.vm_streams.specs.Streams.{NewlyFailed};

use crate::charts::svg_text;
use crate::log::read_log;
use std::alloc::Global;
use vm_steer::SteerError;
use vm_streams::{Sink, Source, write_text};

/// Draws a host log, a policy and samples, each with a line `---` behind it, once it has ended: five charts over its good samples, as
/// [`vm_drawing::draw`] draws them.
///
/// 1. The state of the host.
/// 2. Its free units.
/// 3. The target of each steered domain, in units.
/// 4. What it holds.
/// 5. What it uses.
///
/// All is as [`vm_steer::steer`] tells it of the same log. A bad sample isn't drawn, and at most the last 10000 good ones are. The good
/// sample of place e, from 0, goes from e to e + 1 on the axis, which begins behind those that are left out; where bad samples stand
/// between, this is not the number of the sample in the log. A domain has a curve if it is steered in any sample that is drawn, with a
/// gap where it isn't. Its number is its place among all that have one, in the order of their names, byte by byte, from 1. The note
/// says how many samples and domains are drawn, how many units the policy's memory has, and how many KiB a unit is.
///
/// What stands behind the last line `---` is no sample. Where there is no such line all is the policy, and the frame of the drawing
/// is written. Memory is taken for a sample, for 10000 rows of the numbers of their domains, and for the drawing.
///
/// | Error | Cause | What was written |
/// |---|---|---|
/// | [`SteerError::Policy`] | the policy is refused | nothing |
/// | [`SteerError::Read`] | the reader failed | nothing |
/// | [`SteerError::TooLong`] | a block of more than 16777216 bytes, or 2^64 blocks | nothing |
/// | [`SteerError::Write`] | the writer failed | a front of the drawing |
/// | [`SteerError::Memory`] | memory was refused | nothing |
///
/// A block is what stands in front of a line `---`; what stands behind the last one isn't to be longer either.
///
/// All this is said for a reader whose bytes are known. A reader or a writer that fails in this call, and had not failed before, is
/// always answered by [`SteerError::Read`] or [`SteerError::Write`].
pub fn draw<R: Source, W: Sink>(
    alloc: Global,
    reader: &mut R,
    writer: &mut W,
) -> Result<(), SteerError>
    ensures draws { OnOk result (Draws (R.remaining reader.old) (W.contents writer.old) (W.contents writer.new)) }
    ensures ended { OnOk result (IfSome (R.remaining reader.old) (λ _. IsAtEnd (R.remaining reader.new))) }
    ensures failed { IfErr result (FailsToDraw (R.remaining reader.old) (W.contents writer.old) (W.contents writer.new)
        (R.has_failed reader.new) (W.has_failed writer.new)) }
    ensures reader_failed { NewlyFailed (R.has_failed reader.old) (R.has_failed reader.new) → result ≡ Err Read }
    ensures writer_failed { NewlyFailed (W.has_failed writer.old) (W.has_failed writer.new) → result ≡ Err Write }
{
    let series = read_log(alloc, reader)?;
    let text = svg_text(alloc, series)?;
    write_text(writer, &text)?;
    Ok(())
}
