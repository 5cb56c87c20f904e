//! From the words of the command line to the exit status.
ghost use Rattle.std.specs.Prelude.{◌≡◌, ◌≢◌, ◌<◌, ◌≤◌, List, map, string_bytes, IfErr, IfOk};
ghost use Rattle.std.specs.Io.KnownBytes.{Keeps};
ghost use Rattle.std.specs.Process.{exit_status};
ghost use Rattle.clap.specs.Words.{Text};
ghost use Rattle.vm_streams.specs.Streams.{NewlyFailed};
ghost use Rattle.vm_programs.specs.vmsweep.Written.{IsRefusedOn, IsRefusedUnder, StopsEarly, StopsEarlyOn, WritesSweep, WritesSweepOf};
ghost use Rattle.vm_programs.specs.vmsweep.Lists.{AreWithin, lists_in};
ghost use Rattle.vm_programs.specs.vmsweep.Taken.{AreTaken};

use super::asked::Asked;
use super::line::LINE;
use super::running::{complain_of_sweep, lists_of, write_form};
use super::telling::Telling;
use super::words::read_words;
use crate::input::open_input;
use crate::runs::read_text;
use std::io;
use std::io::{Input, IsTerminal};
use std::process::ExitCode;
use std::rt::{Env, Files};
use std::thread::Threads;
use vm_sim::{Sink, Source, Watched};
use vm_words::DONE;

// Does what was asked for, and gives the status to end with.
fn run_on<RT: Threads + Sync, R: Source, W: Sink>(
    rt: &RT,
    system: &(impl Eprint + AllocGlobal),
    asked: Asked,
    reader: &mut R,
    writer: &mut W,
) -> u8
    requires within { AreWithin (lists_in asked) }
    requires workers { (1 ≤ asked.workers) × (asked.workers ≤ 64) }
    ensures done { result ≡ 0 → WritesSweep (R.remaining reader.old) (R.remaining reader.new)
        (W.contents writer.old) (W.contents writer.new) asked.form (lists_in asked) }
    ensures refused { result ≡ 1 → IsRefusedUnder (R.remaining reader.old) (R.remaining reader.new) (lists_in asked) }
    ensures silent { result ≡ 1 → Keeps (W.contents writer.old) (W.contents writer.new) }
    ensures taken { result ≢ 2 }
    ensures stopped { result ≡ 3 → StopsEarly (R.remaining reader.old) (R.remaining reader.new)
        (W.contents writer.old) (W.contents writer.new) asked.form (lists_in asked) }
    ensures reader_failed { NewlyFailed (R.has_failed reader.old) (R.has_failed reader.new) → result ≡ 3 }
    ensures writer_failed { NewlyFailed (W.has_failed writer.old) (W.has_failed writer.new) → result ≡ 3 }
    ensures known { result ≤ 3 }
{
    let text = match read_text(&LINE, system, reader) {
        Ok(text) => text,
        Err(status) => return status,
    };
    let (form, workers) = (asked.form, asked.workers);
    let telling = Telling {
        system,
        is_wanted: asked.has_progress,
    };
    let alloc = system.alloc();
    let lists = lists_of(alloc, asked);
    match write_form(rt, alloc, form, &text, &lists, workers, &telling, writer) {
        Ok(()) => DONE,
        Err(error) => complain_of_sweep(system, &lists, &text, error),
    }
}

/// What [`status`] does, with these words in place of the system's. The first is the program's name.
pub fn status_for<RT: Threads + Sync, R: Source, W: Sink>(
    rt: &RT,
    system: &(impl Eprint + AllocGlobal),
    words: &[String],
    reader: &mut R,
    writer: &mut W,
) -> u8
    ensures done { result ≡ 0 → WritesSweepOf (R.remaining reader.old) (R.remaining reader.new)
        (W.contents writer.old) (W.contents writer.new) (map string_bytes words.now) }
    ensures refused { result ≡ 1 → IsRefusedOn (R.remaining reader.old) (R.remaining reader.new) (map string_bytes words.now) }
    ensures silent { result ≡ 1 → Keeps (W.contents writer.old) (W.contents writer.new) }
    ensures unread { result ≡ 2 → Keeps (R.remaining reader.old) (R.remaining reader.new) }
    ensures unwritten { result ≡ 2 → Keeps (W.contents writer.old) (W.contents writer.new) }
    ensures stopped { result ≡ 3 → StopsEarlyOn (R.remaining reader.old) (R.remaining reader.new)
        (W.contents writer.old) (W.contents writer.new) (map string_bytes words.now) }
    ensures reader_failed { NewlyFailed (R.has_failed reader.old) (R.has_failed reader.new) → result ≡ 3 }
    ensures writer_failed { NewlyFailed (W.has_failed writer.old) (W.has_failed writer.new) → result ≡ 3 }
    ensures known { result ≤ 3 }
    ensures taken { result < 2 → AreTaken (map string_bytes words.now) }
    ensures untaken { result ≡ 2 → AreTaken (map string_bytes words.now) → ⊥ }
{
    match read_words(system, words) {
        Ok(asked) => run_on(rt, system, asked, reader, writer),
        Err(status) => status,
    }
}

/// Runs the configuration that the reader gives once for each combination of the values that the words list, writes the runs to the
/// writer, and gives the status to end with. What is written is a header and a record for each run, with `--guests` a record for each
/// guest of each run, and with `--svg` a drawing. `rt` starts the threads; the words come from `system`, and on its standard error is
/// said what is wrong, and with `--progress` how many runs are told.
///
/// | Status | Cause | What was written |
/// |---|---|---|
/// | 0 | all was read, and it means a configuration | the whole table, or the drawing |
/// | 1 | all was read, and it means no configuration, or one that refuses a list for a guest | nothing |
/// | 2 | the words are refused or ask for help; nothing was read | nothing |
/// | 3 | reading or writing failed, the input is too long, or memory was refused | a front of that, or nothing |
///
/// A reader or a writer that fails in this call, and had not failed before, is always answered by 3.
pub fn status<RT: Threads + Sync, R: Source, W: Sink>(
    rt: &RT,
    system: &(impl Env + Eprint + AllocGlobal),
    reader: &mut R,
    writer: &mut W,
) -> u8
    ensures done { result ≡ 0 → (words : List Text) × WritesSweepOf (R.remaining reader.old) (R.remaining reader.new)
        (W.contents writer.old) (W.contents writer.new) words }
    ensures refused { result ≡ 1 → (words : List Text) × IsRefusedOn (R.remaining reader.old) (R.remaining reader.new) words }
    ensures silent { result ≡ 1 → Keeps (W.contents writer.old) (W.contents writer.new) }
    ensures unread { result ≡ 2 → Keeps (R.remaining reader.old) (R.remaining reader.new) }
    ensures unwritten { result ≡ 2 → Keeps (W.contents writer.old) (W.contents writer.new) }
    ensures stopped { result ≡ 3 → (words : List Text) × StopsEarlyOn (R.remaining reader.old) (R.remaining reader.new)
        (W.contents writer.old) (W.contents writer.new) words }
    ensures reader_failed { NewlyFailed (R.has_failed reader.old) (R.has_failed reader.new) → result ≡ 3 }
    ensures writer_failed { NewlyFailed (W.has_failed writer.old) (W.has_failed writer.new) → result ≡ 3 }
    ensures known { result ≤ 3 }
{
    match LINE.words(system) {
        Ok(words) => status_for(rt, system, words.as_slice(), reader, writer),
        Err(status) => status,
    }
}

// Opens what the words say is read, does what they ask for, and gives the status to end with.
fn obey<RT: Env + Input + Files + Print + Eprint + AllocGlobal + Threads + Sync>(
    rt: &RT,
    words: &[String],
) -> Result<u8, u8>
where
    RT::Reader: IsTerminal,
    ensures done { IfOk result (λ status. status ≤ 3) }
    ensures refused { IfErr result (λ status. status ≤ 3) }
{
    let request = LINE.request(rt, words)?;
    let asked = read_words(rt, words)?;
    let mut reader = Watched::new(open_input(rt, &LINE, request.file())?);
    let mut writer = Watched::new(io::writer(rt));
    Ok(run_on(rt, rt, asked, &mut reader, &mut writer))
}

/// Runs a configuration once for each combination of the values that the words list, and writes a table (RFC
/// 4180) with a record for each run, or for each run and guest, or a drawing (SVG) to standard output.
///
/// The words are those of `vmsweep [--frames LIST] [--swap LIST] [--tax LIST] [--page-rate LIST] [--rebalance LIST]
/// [--min-percent LIST] [--min NAME=LIST].. [--shares NAME=LIST].. [--seeds N] [--guests | --svg] [--progress] [--workers N] [FILE]`:
/// what isn't listed keeps the configuration's own value, whole runs go on at most N threads, 1 to 64, and 1 where that isn't said.
/// They are read before the input. FILE is read in place of standard input, which `-` stands for; where it can't be opened the exit
/// code is 3 and nothing is written, and else it is that of [`status_for`] with that input.
pub fn vmsweep<RT: Env + Input + Files + Print + Eprint + AllocGlobal + Threads + Sync>(
    rt: &RT,
) -> ExitCode
where
    RT::Reader: IsTerminal,
    ensures known { exit_status result ≤ 3 }
{
    let words = match LINE.words(rt) {
        Ok(words) => words,
        Err(status) => return ExitCode::from(status),
    };
    match obey(rt, words.as_slice()) {
        Ok(status) | Err(status) => ExitCode::from(status),
    }
}
