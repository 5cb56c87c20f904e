//! From the words of the command line to the exit status.
ghost use Rattle.std.specs.Prelude.{◌≡◌, ◌≢◌, ◌<◌, ◌≤◌, Err, IfErr, IfSome, OnOk, map, string_bytes, IfOk};
ghost use Rattle.std.specs.Io.KnownBytes.{IsAtEnd, Keeps};
ghost use Rattle.std.specs.Process.{exit_status};
ghost use Rattle.vm_programs.specs.declared.vmsteer.output.Output.{Output as OutputOf};
ghost use Rattle.vm_programs.specs.vmsteer.CommandLine.{AreTaken, output_by};
ghost use Rattle.vm_programs.specs.vmsteer.Written.{FailsToWrite, IsRefused, StopsEarly, Writes};
ghost use Rattle.vm_steer.specs.declared.steer_error.SteerError.TheVariants.{Read, Write};
ghost use Rattle.vm_streams.specs.Streams.{NewlyFailed};

use super::complaints::complain;
use super::line::LINE;
use super::output::{Output, output_of};
use crate::input::open_input;
use std::alloc::Global;
use std::io;
use std::io::{Input, IsTerminal};
use std::process::ExitCode;
use std::rt::{Env, Files};
use vm_steer::{SteerError, steer};
use vm_steer_charts::draw;
use vm_streams::{Sink, Source, Watched};
use vm_words::DONE;

// Writes of the log that the reader gives what is asked for.
fn write_output<R: Source, W: Sink>(
    alloc: Global,
    output: Output,
    reader: &mut R,
    writer: &mut W,
) -> Result<(), SteerError>
    ensures done { OnOk result (Writes output (R.remaining reader.old) (W.contents writer.old) (W.contents writer.new)) }
    ensures ended { OnOk result (IfSome (R.remaining reader.old) (λ _. IsAtEnd (R.remaining reader.new))) }
    ensures failed { IfErr result (FailsToWrite output (R.remaining reader.old) (W.contents writer.old) (W.contents writer.new)
        (R.has_failed reader.new) (W.has_failed writer.new)) }
    ensures reader_failed { NewlyFailed (R.has_failed reader.old) (R.has_failed reader.new) → result ≡ Err Read }
    ensures writer_failed { NewlyFailed (W.has_failed writer.old) (W.has_failed writer.new) → result ≡ Err Write }
{
    match output {
        Output::Samples(form) => steer(alloc, form, reader, writer),
        Output::Drawing => draw(alloc, reader, writer),
    }
}

// Does what is asked for, and gives the status to end with.
fn steer_by<R: Source, W: Sink>(
    system: &(impl Eprint + AllocGlobal),
    output: Output,
    reader: &mut R,
    writer: &mut W,
) -> u8
    ensures done { result ≡ 0 → Writes output (R.remaining reader.old) (W.contents writer.old) (W.contents writer.new) }
    ensures ended { result ≡ 0 → IfSome (R.remaining reader.old) (λ _. IsAtEnd (R.remaining reader.new)) }
    ensures refused { result ≡ 1 → IsRefused (R.remaining reader.old) }
    ensures silent { result ≡ 1 → Keeps (W.contents writer.old) (W.contents writer.new) }
    ensures taken { result ≢ 2 }
    ensures stopped { result ≡ 3 → StopsEarly output (R.remaining reader.old) (W.contents writer.old) (W.contents writer.new)
        (R.has_failed reader.new) (W.has_failed writer.new) }
    ensures reader_failed { NewlyFailed (R.has_failed reader.old) (R.has_failed reader.new) → result ≡ 3 }
    ensures writer_failed { NewlyFailed (W.has_failed writer.old) (W.has_failed writer.new) → result ≡ 3 }
    ensures known { result ≤ 3 }
{
    match write_output(system.alloc(), output, reader, writer) {
        Ok(()) => DONE,
        Err(error) => complain(system, error),
    }
}

/// What [`status`] does, with these words in place of the system's. The first is the program's name.
pub fn status_for<R: Source, W: Sink>(
    system: &(impl Eprint + AllocGlobal),
    words: &[String],
    reader: &mut R,
    writer: &mut W,
) -> u8
    ensures done { result ≡ 0 → Writes (output_by (map string_bytes words.now)) (R.remaining reader.old)
        (W.contents writer.old) (W.contents writer.new) }
    ensures ended { result ≡ 0 → IfSome (R.remaining reader.old) (λ _. IsAtEnd (R.remaining reader.new)) }
    ensures refused { result ≡ 1 → IsRefused (R.remaining reader.old) }
    ensures silent { result ≡ 1 → Keeps (W.contents writer.old) (W.contents writer.new) }
    ensures unread { result ≡ 2 → Keeps (R.remaining reader.old) (R.remaining reader.new) }
    ensures unwritten { result ≡ 2 → Keeps (W.contents writer.old) (W.contents writer.new) }
    ensures stopped { result ≡ 3 → StopsEarly (output_by (map string_bytes words.now)) (R.remaining reader.old)
        (W.contents writer.old) (W.contents writer.new) (R.has_failed reader.new) (W.has_failed writer.new) }
    ensures reader_failed { NewlyFailed (R.has_failed reader.old) (R.has_failed reader.new) → result ≡ 3 }
    ensures writer_failed { NewlyFailed (W.has_failed writer.old) (W.has_failed writer.new) → result ≡ 3 }
    ensures known { result ≤ 3 }
    ensures taken { result < 2 → AreTaken (map string_bytes words.now) }
    ensures untaken { result ≡ 2 → AreTaken (map string_bytes words.now) → ⊥ }
{
    match LINE.request(system, words) {
        Ok(request) => steer_by(system, output_of(&request), reader, writer),
        Err(status) => status,
    }
}

/// Steers a host by the log that the reader gives, writes what is asked for of each of its samples to the writer, and gives the
/// status to end with. The words come from `system`, and on its standard error is said what is wrong.
///
/// | Status | Cause | What was written |
/// |---|---|---|
/// | 0 | the log has ended | the text of each sample; with `--csv` the table, with `--svg` the drawing |
/// | 1 | the policy is refused, as `vmsteer: key "memory": is absent` | nothing |
/// | 2 | the words are refused or ask for help; nothing was read | nothing |
/// | 3 | reading or writing failed, a part of the log is too long, or memory was refused | what is written of its first samples, of a drawing nothing; where writing failed, a front of all |
///
/// The text of a sample goes out as soon as the line `---` behind it was read. What was written is said of a reader whose bytes are
/// known. A reader or a writer that fails in this call, and had not failed before, is always answered by 3.
pub fn status<R: Source, W: Sink>(
    system: &(impl Env + Eprint + AllocGlobal),
    reader: &mut R,
    writer: &mut W,
) -> u8
    ensures done { result ≡ 0 → (output : OutputOf) × Writes output (R.remaining reader.old)
        (W.contents writer.old) (W.contents writer.new) }
    ensures ended { result ≡ 0 → IfSome (R.remaining reader.old) (λ _. IsAtEnd (R.remaining reader.new)) }
    ensures refused { result ≡ 1 → IsRefused (R.remaining reader.old) }
    ensures silent { result ≡ 1 → Keeps (W.contents writer.old) (W.contents writer.new) }
    ensures unread { result ≡ 2 → Keeps (R.remaining reader.old) (R.remaining reader.new) }
    ensures unwritten { result ≡ 2 → Keeps (W.contents writer.old) (W.contents writer.new) }
    ensures stopped { result ≡ 3 → (output : OutputOf) × StopsEarly output (R.remaining reader.old)
        (W.contents writer.old) (W.contents writer.new) (R.has_failed reader.new) (W.has_failed writer.new) }
    ensures reader_failed { NewlyFailed (R.has_failed reader.old) (R.has_failed reader.new) → result ≡ 3 }
    ensures writer_failed { NewlyFailed (W.has_failed writer.old) (W.has_failed writer.new) → result ≡ 3 }
    ensures known { result ≤ 3 }
{
    match LINE.words(system) {
        Ok(words) => status_for(system, words.as_slice(), reader, writer),
        Err(status) => status,
    }
}

// Opens what the words say is read, does what they ask for, and gives the status to end with.
fn obey<RT: Env + Input + Files + Print + Eprint + AllocGlobal>(
    rt: &RT,
    words: &[String],
) -> Result<u8, u8>
where
    RT::Reader: IsTerminal,
    ensures done { IfOk result (λ status. status ≤ 3) }
    ensures refused { IfErr result (λ status. status ≤ 3) }
{
    let request = LINE.request(rt, words)?;
    let mut reader = Watched::new(open_input(rt, &LINE, request.file())?);
    let mut writer = Watched::new(io::writer(rt));
    Ok(steer_by(rt, output_of(&request), &mut reader, &mut writer))
}

/// Steers a host by a log, a policy and what `virsh domstats` tells sample by sample, and writes what its domains' balloons are ordered
/// to standard output, for `virsh` to read.
///
/// The words are those of `vmsteer [--csv | --svg] [FILE]`: whether a table or a drawing is wanted in place of orders. They are read
/// before the input. FILE is read in place of standard input, which `-` stands for; where it can't be opened the exit code is 3 and
/// nothing is written, and else it is that of [`status_for`] with that input.
pub fn vmsteer<RT: Env + Input + Files + Print + Eprint + AllocGlobal>(rt: &RT) -> ExitCode
where
    RT::Reader: IsTerminal,
    ensures known { exit_status result ≤ 3 }
{
    let words = match LINE.words(rt) {
        Ok(words) => words,
        Err(status) => return ExitCode::from(status),
    };
    match obey(rt, words.as_slice()) {
        Ok(status) | Err(status) => ExitCode::from(status),
    }
}
