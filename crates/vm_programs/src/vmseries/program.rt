//! From the words of the command line to the exit status.
ghost use Rattle.std.specs.Prelude.{◌≡◌, ◌≢◌, ◌<◌, ◌≤◌, Bool, codes, map, string_bytes, IfErr, IfOk};
ghost use Rattle.std.specs.Io.KnownBytes.{Keeps};
ghost use Rattle.std.specs.Process.{exit_status};
ghost use Rattle.vm_programs.specs.runs.Statuses.{IsRefused};
ghost use Rattle.vm_programs.specs.runs.Words.{HasWorkersInRange};
ghost use Rattle.vm_series.specs.Rows.{rows_of};
ghost use Rattle.vm_programs.specs.vmseries.CommandLine.{AreTaken, wants_drawing};
ghost use Rattle.vm_programs.specs.vmseries.Written.{StopsEarly, Writes};
ghost use Rattle.vm_sim.specs.Run.{RunsConfig};
ghost use Rattle.vm_streams.specs.Streams.{NewlyFailed};
ghost use Rattle.vm_words.specs.Words.{has_flag};

use super::line::LINE;
use super::writing::write_run;
use crate::input::open_input;
use crate::runs::{complain_of_text, read_text};
use std::io;
use std::io::{Input, IsTerminal};
use std::process::ExitCode;
use std::rt::{Env, Files};
use std::thread::Threads;
use vm_sim::{Sink, Source, Watched};
use vm_words::{DONE, Request};

// Does what was asked for, and gives the status to end with.
fn run_on<RT: Threads + Sync, R: Source, W: Sink>(
    rt: &RT,
    system: &(impl Eprint + AllocGlobal),
    request: &Request<'_>,
    reader: &mut R,
    writer: &mut W,
) -> u8
    requires { HasWorkersInRange request.now }
    ensures done { result ≡ 0 → RunsConfig (R.remaining reader.old) (R.remaining reader.new)
        (λ config. Writes (W.contents writer.old) (W.contents writer.new) (has_flag (codes "svg") request.now) (rows_of config)) }
    ensures refused { result ≡ 1 → IsRefused (R.remaining reader.old) (R.remaining reader.new) }
    ensures silent { result ≡ 1 → Keeps (W.contents writer.old) (W.contents writer.new) }
    ensures taken { result ≢ 2 }
    ensures stopped { result ≡ 3 → StopsEarly (R.remaining reader.old) (R.remaining reader.new)
        (W.contents writer.old) (W.contents writer.new) (has_flag (codes "svg") request.now) }
    ensures reader_failed { NewlyFailed (R.has_failed reader.old) (R.has_failed reader.new) → result ≡ 3 }
    ensures writer_failed { NewlyFailed (W.has_failed writer.old) (W.has_failed writer.new) → result ≡ 3 }
    ensures known { result ≤ 3 }
{
    let text = match read_text(&LINE, system, reader) {
        Ok(text) => text,
        Err(status) => return status,
    };
    match write_run(rt, system.alloc(), request, &text, writer) {
        Ok(()) => DONE,
        Err(error) => complain_of_text(&LINE, system, &text, error),
    }
}

/// What [`status`] does, with these words in place of the system's. The first is the program's name.
pub fn status_for<RT: Threads + Sync, R: Source, W: Sink>(
    rt: &RT,
    system: &(impl Eprint + AllocGlobal),
    words: &[String],
    reader: &mut R,
    writer: &mut W,
) -> u8
    ensures done { result ≡ 0 → RunsConfig (R.remaining reader.old) (R.remaining reader.new) (λ config.
        Writes (W.contents writer.old) (W.contents writer.new) (wants_drawing (map string_bytes words.now)) (rows_of config)) }
    ensures refused { result ≡ 1 → IsRefused (R.remaining reader.old) (R.remaining reader.new) }
    ensures silent { result ≡ 1 → Keeps (W.contents writer.old) (W.contents writer.new) }
    ensures unread { result ≡ 2 → Keeps (R.remaining reader.old) (R.remaining reader.new) }
    ensures unwritten { result ≡ 2 → Keeps (W.contents writer.old) (W.contents writer.new) }
    ensures stopped { result ≡ 3 → StopsEarly (R.remaining reader.old) (R.remaining reader.new)
        (W.contents writer.old) (W.contents writer.new) (wants_drawing (map string_bytes words.now)) }
    ensures reader_failed { NewlyFailed (R.has_failed reader.old) (R.has_failed reader.new) → result ≡ 3 }
    ensures writer_failed { NewlyFailed (W.has_failed writer.old) (W.has_failed writer.new) → result ≡ 3 }
    ensures known { result ≤ 3 }
    ensures taken { result < 2 → AreTaken (map string_bytes words.now) }
    ensures untaken { result ≡ 2 → AreTaken (map string_bytes words.now) → ⊥ }
{
    match LINE.request(system, words) {
        Ok(request) => run_on(rt, system, &request, reader, writer),
        Err(status) => status,
    }
}

/// Runs the configuration that the reader gives, writes what is seen of the host after each epoch to the writer, and gives the
/// status to end with. `rt` starts the threads; the words come from `system`, and on its standard error is said what is wrong.
///
/// | Status | Cause | What was written |
/// |---|---|---|
/// | 0 | all was read, and it means a configuration | all of its run, as comma-separated values, or as a drawing where `--svg` is said |
/// | 1 | all was read, and it means no configuration | nothing |
/// | 2 | the words are refused or ask for help; nothing was read | nothing |
/// | 3 | reading or writing failed, the input is too long, or memory was refused | a front of it, or nothing |
///
/// A reader or a writer that fails in this call, and had not failed before, is always answered by 3.
pub fn status<RT: Threads + Sync, R: Source, W: Sink>(
    rt: &RT,
    system: &(impl Env + Eprint + AllocGlobal),
    reader: &mut R,
    writer: &mut W,
) -> u8
    ensures done { result ≡ 0 → (is_drawn : Bool) × RunsConfig (R.remaining reader.old) (R.remaining reader.new)
        (λ config. Writes (W.contents writer.old) (W.contents writer.new) is_drawn (rows_of config)) }
    ensures refused { result ≡ 1 → IsRefused (R.remaining reader.old) (R.remaining reader.new) }
    ensures silent { result ≡ 1 → Keeps (W.contents writer.old) (W.contents writer.new) }
    ensures unread { result ≡ 2 → Keeps (R.remaining reader.old) (R.remaining reader.new) }
    ensures unwritten { result ≡ 2 → Keeps (W.contents writer.old) (W.contents writer.new) }
    ensures stopped { result ≡ 3 → (is_drawn : Bool) × StopsEarly (R.remaining reader.old) (R.remaining reader.new)
        (W.contents writer.old) (W.contents writer.new) is_drawn }
    ensures reader_failed { NewlyFailed (R.has_failed reader.old) (R.has_failed reader.new) → result ≡ 3 }
    ensures writer_failed { NewlyFailed (W.has_failed writer.old) (W.has_failed writer.new) → result ≡ 3 }
    ensures known { result ≤ 3 }
{
    match LINE.words(system) {
        Ok(words) => status_for(rt, system, words.as_slice(), reader, writer),
        Err(status) => status,
    }
}

// Opens what the words say is read, does what they ask for, and gives the status to end with.
fn obey<RT: Env + Input + Files + Print + Eprint + AllocGlobal + Threads + Sync>(
    rt: &RT,
    words: &[String],
) -> Result<u8, u8>
where
    RT::Reader: IsTerminal,
    ensures done { IfOk result (λ status. status ≤ 3) }
    ensures refused { IfErr result (λ status. status ≤ 3) }
{
    let request = LINE.request(rt, words)?;
    let mut reader = Watched::new(open_input(rt, &LINE, request.file())?);
    let mut writer = Watched::new(io::writer(rt));
    Ok(run_on(rt, rt, &request, &mut reader, &mut writer))
}

/// Runs the guests that a configuration names, and writes what is seen of the host after each epoch to standard output, as
/// comma-separated values (RFC 4180) or as a drawing (SVG).
///
/// The words are those of `vmseries [--svg] [--workers N] [FILE]`: whether a drawing is wanted, and on how many threads the guests run
/// at most, 1 to 64, and 1 where that isn't said. They are read before the input. FILE is read in place of standard input, which `-`
/// stands for; where it can't be opened the exit code is 3 and nothing is written, and else it is that of [`status_for`] with that
/// input.
pub fn vmseries<RT: Env + Input + Files + Print + Eprint + AllocGlobal + Threads + Sync>(
    rt: &RT,
) -> ExitCode
where
    RT::Reader: IsTerminal,
    ensures known { exit_status result ≤ 3 }
{
    let words = match LINE.words(rt) {
        Ok(words) => words,
        Err(status) => return ExitCode::from(status),
    };
    match obey(rt, words.as_slice()) {
        Ok(status) | Err(status) => ExitCode::from(status),
    }
}
