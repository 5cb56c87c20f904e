//! From the words of the command line to the exit status.
ghost use Rattle.std.specs.Prelude.{◌≡◌, ◌≢◌, ◌<◌, ◌≤◌, Err, IfErr, IfOk, OnOk, length, map, string_bytes, true};
ghost use Rattle.std.specs.Io.KnownBytes.{Appends, Keeps};
ghost use Rattle.std.specs.Process.{exit_status};
ghost use Rattle.vm_check.specs.Report.{text_of_lines};
ghost use Rattle.vm_check.specs.declared.check_error.CheckError.TheVariants.{Memory, Write};
ghost use Rattle.vm_programs.specs.declared.vmcheck.subject.Subject.{Subject as SubjectOf};
ghost use Rattle.vm_programs.specs.vmcheck.CommandLine.{AreTaken, subject_by};
ghost use Rattle.vm_programs.specs.vmcheck.Written.{StopsEarly, Tells, lines_of};
ghost use Rattle.vm_streams.specs.Streams.{AppendsFront, NewlyFailed};

use super::line::LINE;
use super::policy::write_findings;
use super::subject::{Subject, subject_of};
use crate::input::open_input;
use crate::runs::read_text;
use std::alloc::Global;
use std::io;
use std::io::{Input, IsTerminal};
use std::process::ExitCode;
use std::rt::{Env, Files};
use vm_check::{CheckError, check};
use vm_streams::{Sink, Source, Watched};
use vm_words::{BAD_INPUT, DONE};

// Writes the lines of a text, and answers how many there are.
fn write_lines<W: Sink>(
    alloc: Global,
    subject: Subject,
    text: &[u8],
    writer: &mut W,
) -> Result<usize, CheckError>
    ensures count { IfOk result (λ count. count ≡ length (lines_of subject text.now)) }
    ensures written { OnOk result (Appends (W.contents writer.old) (W.contents writer.new) (text_of_lines (lines_of subject text.now))) }
    ensures front { result ≡ Err Write → AppendsFront (W.contents writer.old) (W.contents writer.new) (text_of_lines (lines_of subject text.now)) }
    ensures failed { result ≡ Err Write → W.has_failed writer.new ≡ true }
    ensures nothing { result ≡ Err Memory → Keeps (W.contents writer.old) (W.contents writer.new) }
    ensures writer_failed { NewlyFailed (W.has_failed writer.old) (W.has_failed writer.new) → result ≡ Err Write }
{
    match subject {
        Subject::Configuration => check(alloc, text, writer),
        Subject::Policy => write_findings(alloc, text, writer),
    }
}

// Tells what is found of the text that the reader gives, and gives the status to end with.
fn check_on<R: Source, W: Sink>(
    system: &(impl Eprint + AllocGlobal),
    subject: Subject,
    reader: &mut R,
    writer: &mut W,
) -> u8
    ensures done { result ≡ 0 → Tells subject (R.remaining reader.old) (R.remaining reader.new)
        (W.contents writer.old) (W.contents writer.new) (λ count. count ≡ 0) }
    ensures found { result ≡ 1 → Tells subject (R.remaining reader.old) (R.remaining reader.new)
        (W.contents writer.old) (W.contents writer.new) (λ count. 1 ≤ count) }
    ensures taken { result ≢ 2 }
    ensures stopped { result ≡ 3 → StopsEarly subject (R.remaining reader.old) (R.remaining reader.new)
        (W.contents writer.old) (W.contents writer.new) }
    ensures reader_failed { NewlyFailed (R.has_failed reader.old) (R.has_failed reader.new) → result ≡ 3 }
    ensures writer_failed { NewlyFailed (W.has_failed writer.old) (W.has_failed writer.new) → result ≡ 3 }
    ensures known { result ≤ 3 }
{
    let text = match read_text(&LINE, system, reader) {
        Ok(text) => text,
        Err(status) => return status,
    };
    match write_lines(system.alloc(), subject, &text, writer) {
        Ok(count) => { if count == 0 { DONE } else { BAD_INPUT } }
        Err(CheckError::Write) => LINE.write_failed(system),
        Err(CheckError::Memory) => LINE.no_memory(system),
    }
}

/// What [`status`] does, with these words in place of the system's. The first is the program's name.
pub fn status_for<R: Source, W: Sink>(
    system: &(impl Eprint + AllocGlobal),
    words: &[String],
    reader: &mut R,
    writer: &mut W,
) -> u8
    ensures done { result ≡ 0 → Tells (subject_by (map string_bytes words.now)) (R.remaining reader.old) (R.remaining reader.new)
        (W.contents writer.old) (W.contents writer.new) (λ count. count ≡ 0) }
    ensures found { result ≡ 1 → Tells (subject_by (map string_bytes words.now)) (R.remaining reader.old) (R.remaining reader.new)
        (W.contents writer.old) (W.contents writer.new) (λ count. 1 ≤ count) }
    ensures unread { result ≡ 2 → Keeps (R.remaining reader.old) (R.remaining reader.new) }
    ensures unwritten { result ≡ 2 → Keeps (W.contents writer.old) (W.contents writer.new) }
    ensures stopped { result ≡ 3 → StopsEarly (subject_by (map string_bytes words.now)) (R.remaining reader.old) (R.remaining reader.new)
        (W.contents writer.old) (W.contents writer.new) }
    ensures reader_failed { NewlyFailed (R.has_failed reader.old) (R.has_failed reader.new) → result ≡ 3 }
    ensures writer_failed { NewlyFailed (W.has_failed writer.old) (W.has_failed writer.new) → result ≡ 3 }
    ensures known { result ≤ 3 }
    ensures taken { result < 2 → AreTaken (map string_bytes words.now) }
    ensures untaken { result ≡ 2 → AreTaken (map string_bytes words.now) → ⊥ }
{
    match LINE.request(system, words) {
        Ok(request) => check_on(system, subject_of(&request), reader, writer),
        Err(status) => status,
    }
}

/// Writes what is wrong or surprising in the configuration, or the policy, that the reader gives to the writer, a line for each finding,
/// and gives the status to end with. The words come from `system`, and on its standard error is said what else is wrong.
///
/// | Status | Cause | What was written |
/// |---|---|---|
/// | 0 | all was read, and nothing is found | nothing |
/// | 1 | all was read, and something is found, or it is refused | a line for each finding, or for the first fault |
/// | 2 | the words are refused or ask for help; nothing was read | nothing |
/// | 3 | reading or writing failed, the input is too long, or memory was refused | a front of the lines, or nothing |
///
/// A reader or a writer that fails in this call, and had not failed before, is always answered by 3.
pub fn status<R: Source, W: Sink>(
    system: &(impl Env + Eprint + AllocGlobal),
    reader: &mut R,
    writer: &mut W,
) -> u8
    ensures done { result ≡ 0 → (subject : SubjectOf) × Tells subject (R.remaining reader.old) (R.remaining reader.new)
        (W.contents writer.old) (W.contents writer.new) (λ count. count ≡ 0) }
    ensures found { result ≡ 1 → (subject : SubjectOf) × Tells subject (R.remaining reader.old) (R.remaining reader.new)
        (W.contents writer.old) (W.contents writer.new) (λ count. 1 ≤ count) }
    ensures unread { result ≡ 2 → Keeps (R.remaining reader.old) (R.remaining reader.new) }
    ensures unwritten { result ≡ 2 → Keeps (W.contents writer.old) (W.contents writer.new) }
    ensures stopped { result ≡ 3 → (subject : SubjectOf) × StopsEarly subject (R.remaining reader.old) (R.remaining reader.new)
        (W.contents writer.old) (W.contents writer.new) }
    ensures reader_failed { NewlyFailed (R.has_failed reader.old) (R.has_failed reader.new) → result ≡ 3 }
    ensures writer_failed { NewlyFailed (W.has_failed writer.old) (W.has_failed writer.new) → result ≡ 3 }
    ensures known { result ≤ 3 }
{
    match LINE.words(system) {
        Ok(words) => status_for(system, words.as_slice(), reader, writer),
        Err(status) => status,
    }
}

// Opens what the words say is read, does what they ask for, and gives the status to end with.
fn obey<RT: Env + Input + Files + Print + Eprint + AllocGlobal>(
    rt: &RT,
    words: &[String],
) -> Result<u8, u8>
where
    RT::Reader: IsTerminal,
    ensures done { IfOk result (λ status. status ≤ 3) }
    ensures refused { IfErr result (λ status. status ≤ 3) }
{
    let request = LINE.request(rt, words)?;
    let mut reader = Watched::new(open_input(rt, &LINE, request.file())?);
    let mut writer = Watched::new(io::writer(rt));
    Ok(check_on(rt, subject_of(&request), &mut reader, &mut writer))
}

/// Tells what is wrong or surprising in a configuration or a policy of `vmsteer`, on standard output, a line for each finding.
///
/// The words are those of `vmcheck [--policy] [FILE]`: whether a policy is checked. They are read before the input. FILE is read in place
/// of standard input, which `-` stands for; where it can't be opened the exit code is 3 and nothing is written, and else it is that of
/// [`status_for`] with that input.
pub fn vmcheck<RT: Env + Input + Files + Print + Eprint + AllocGlobal>(rt: &RT) -> ExitCode
where
    RT::Reader: IsTerminal,
    ensures known { exit_status result ≤ 3 }
{
    let words = match LINE.words(rt) {
        Ok(words) => words,
        Err(status) => return ExitCode::from(status),
    };
    match obey(rt, words.as_slice()) {
        Ok(status) | Err(status) => ExitCode::from(status),
    }
}
