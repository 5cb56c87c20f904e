//! From the words of the command line to the exit status.
ghost use Rattle.std.specs.Prelude.{◌≡◌, ◌≢◌, ◌<◌, ◌≤◌, List, map, string_bytes, IfErr, IfOk};
ghost use Rattle.std.specs.Io.KnownBytes.{Keeps};
ghost use Rattle.std.specs.Process.{exit_status};
ghost use Rattle.clap.specs.Words.{Text};
ghost use Rattle.vm_import.specs.Settings.{settings_of};
ghost use Rattle.vm_programs.specs.vmtrace.Written.{IsRefused, IsStopped, IsWritten, settings_by};
ghost use Rattle.vm_programs.specs.vmtrace.Taken.{AreTaken};
ghost use Rattle.vm_streams.specs.Streams.{NewlyFailed};

use super::complaints::{complain, tell_limit};
use super::line::LINE;
use super::words::{read_request, read_words};
use crate::input::open_input;
use std::io;
use std::io::{Input, IsTerminal};
use std::process::ExitCode;
use std::rt::{Env, Files};
use vm_import::{ImportSettings, import_log};
use vm_streams::{Sink, Source, Watched};
use vm_words::DONE;

// Does what is asked for, and gives the status to end with.
fn import_by<R: Source, W: Sink>(
    system: &(impl Eprint + AllocGlobal),
    settings: &ImportSettings,
    reader: &mut R,
    writer: &mut W,
) -> u8
    ensures done { result ≡ 0 → IsWritten (settings_of settings.now) (R.remaining reader.old)
        (W.contents writer.old) (W.contents writer.new) }
    ensures refused { result ≡ 1 → IsRefused (settings_of settings.now) (R.remaining reader.old)
        (W.contents writer.old) (W.contents writer.new) (R.has_failed reader.new) (W.has_failed writer.new) }
    ensures taken { result ≢ 2 }
    ensures stopped { result ≡ 3 → IsStopped (settings_of settings.now) (R.remaining reader.old)
        (W.contents writer.old) (W.contents writer.new) }
    ensures reader_failed { NewlyFailed (R.has_failed reader.old) (R.has_failed reader.new) → result ≡ 3 }
    ensures writer_failed { NewlyFailed (W.has_failed writer.old) (W.has_failed writer.new) → result ≡ 3 }
    ensures known { result ≤ 3 }
{
    match import_log(system.alloc(), settings, reader, writer) {
        Ok(imported) => {
            tell_limit(system, imported);
            DONE
        }
        Err(error) => complain(system, error),
    }
}

/// What [`status`] does, with these words in place of the system's. The first is the program's name.
pub fn status_for<R: Source, W: Sink>(
    system: &(impl Eprint + AllocGlobal),
    words: &[String],
    reader: &mut R,
    writer: &mut W,
) -> u8
    ensures done { result ≡ 0 → IsWritten (settings_by (map string_bytes words.now)) (R.remaining reader.old)
        (W.contents writer.old) (W.contents writer.new) }
    ensures refused { result ≡ 1 → IsRefused (settings_by (map string_bytes words.now)) (R.remaining reader.old)
        (W.contents writer.old) (W.contents writer.new) (R.has_failed reader.new) (W.has_failed writer.new) }
    ensures unread { result ≡ 2 → Keeps (R.remaining reader.old) (R.remaining reader.new) }
    ensures unwritten { result ≡ 2 → Keeps (W.contents writer.old) (W.contents writer.new) }
    ensures stopped { result ≡ 3 → IsStopped (settings_by (map string_bytes words.now)) (R.remaining reader.old)
        (W.contents writer.old) (W.contents writer.new) }
    ensures reader_failed { NewlyFailed (R.has_failed reader.old) (R.has_failed reader.new) → result ≡ 3 }
    ensures writer_failed { NewlyFailed (W.has_failed writer.old) (W.has_failed writer.new) → result ≡ 3 }
    ensures known { result ≤ 3 }
    ensures taken { result < 2 → AreTaken (map string_bytes words.now) }
    ensures untaken { result ≡ 2 → AreTaken (map string_bytes words.now) → ⊥ }
{
    match read_words(system, words) {
        Ok(settings) => import_by(system, &settings, reader, writer),
        Err(status) => status,
    }
}

/// Reads the log of valgrind's lackey that the reader gives, writes a configuration with one guest that touches memory as the program
/// did, and gives the status to end with. The words come from `system`, and on its standard error is said what is wrong, and which
/// limit ended the reading, as in `vmtrace: ends after 12 intervals: no more than 1000000 steps`.
///
/// | Status | Cause | What was written |
/// |---|---|---|
/// | 0 | a guest was made, of as many intervals as fit | the whole text |
/// | 1 | a line is refused, as `vmtrace: line 3: no size`, or no page is touched | a front of a text, or nothing |
/// | 2 | the words are refused or ask for help; nothing was read | nothing |
/// | 3 | reading or writing failed, or memory was refused | a front of a text, or nothing |
///
/// What was written is said of a reader whose bytes are known. A reader or a writer that fails in this call, and had not failed before,
/// is always answered by 3.
pub fn status<R: Source, W: Sink>(
    system: &(impl Env + Eprint + AllocGlobal),
    reader: &mut R,
    writer: &mut W,
) -> u8
    ensures done { result ≡ 0 → (words : List Text) × IsWritten (settings_by words) (R.remaining reader.old)
        (W.contents writer.old) (W.contents writer.new) }
    ensures refused { result ≡ 1 → (words : List Text) × IsRefused (settings_by words) (R.remaining reader.old)
        (W.contents writer.old) (W.contents writer.new) (R.has_failed reader.new) (W.has_failed writer.new) }
    ensures unread { result ≡ 2 → Keeps (R.remaining reader.old) (R.remaining reader.new) }
    ensures unwritten { result ≡ 2 → Keeps (W.contents writer.old) (W.contents writer.new) }
    ensures stopped { result ≡ 3 → (words : List Text) × IsStopped (settings_by words) (R.remaining reader.old)
        (W.contents writer.old) (W.contents writer.new) }
    ensures reader_failed { NewlyFailed (R.has_failed reader.old) (R.has_failed reader.new) → result ≡ 3 }
    ensures writer_failed { NewlyFailed (W.has_failed writer.old) (W.has_failed writer.new) → result ≡ 3 }
    ensures known { result ≤ 3 }
{
    match LINE.words(system) {
        Ok(words) => status_for(system, words.as_slice(), reader, writer),
        Err(status) => status,
    }
}

// Opens what the words say is read, does what they ask for, and gives the status to end with.
fn obey<RT: Env + Input + Files + Print + Eprint + AllocGlobal>(
    rt: &RT,
    words: &[String],
) -> Result<u8, u8>
where
    RT::Reader: IsTerminal,
    ensures done { IfOk result (λ status. status ≤ 3) }
    ensures refused { IfErr result (λ status. status ≤ 3) }
{
    let request = LINE.request(rt, words)?;
    let settings = read_request(rt, &request)?;
    let mut reader = Watched::new(open_input(rt, &LINE, request.file())?);
    let mut writer = Watched::new(io::writer(rt));
    Ok(import_by(rt, &settings, &mut reader, &mut writer))
}

/// Reads a log of valgrind's lackey (`valgrind --tool=lackey --trace-mem=yes`), and writes a configuration with one guest that touches
/// memory as the program did to standard output.
///
/// The words are those of `vmtrace [--name NAME] [--min PAGES] [--interval LINES] [--quantum STEPS] [--skip LINES] [--steps N]
/// [--no-code] [FILE]`. They are read before the input. FILE is read in place of standard input, which `-` stands for; where it can't
/// be opened the exit code is 3 and nothing is written, and else it is that of [`status_for`] with that input.
pub fn vmtrace<RT: Env + Input + Files + Print + Eprint + AllocGlobal>(rt: &RT) -> ExitCode
where
    RT::Reader: IsTerminal,
    ensures known { exit_status result ≤ 3 }
{
    let words = match LINE.words(rt) {
        Ok(words) => words,
        Err(status) => return ExitCode::from(status),
    };
    match obey(rt, words.as_slice()) {
        Ok(status) | Err(status) => ExitCode::from(status),
    }
}
