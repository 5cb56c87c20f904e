//! From the words of the command line to the exit status.
ghost use Rattle.std.specs.Prelude.{◌≡◌, ◌<◌, ◌≤◌, map, string_bytes};
ghost use Rattle.std.specs.Io.KnownBytes.{Appends, Keeps};
ghost use Rattle.std.specs.Process.{exit_status};
ghost use Rattle.vm_programs.specs.runs.Statuses.{IsRefused};
ghost use Rattle.vm_programs.specs.vmmem.CommandLine.{AreTaken};
ghost use Rattle.vm_programs.specs.vmmem.Statuses.{StopsEarly};
ghost use Rattle.vm_sim.specs.Report.{report_of};
ghost use Rattle.vm_sim.specs.Run.{RunsConfig};
ghost use Rattle.vm_streams.specs.Streams.{NewlyFailed};

use super::complaints::complain;
use super::line::LINE;
use crate::runs::workers_of;
use std::io;
use std::process::ExitCode;
use std::rt::Env;
use std::thread::Threads;
use vm_sim::{Open, Sink, Source, Watched, run};
use vm_words::DONE;

/// What [`status`] does, with these words in place of the system's. The first is the program's name.
pub fn status_for<RT: Threads + Sync, R: Source, W: Sink>(
    rt: &RT,
    system: &(impl Eprint + AllocGlobal),
    words: &[String],
    reader: &mut R,
    writer: &mut W,
) -> u8
    ensures done { result ≡ 0 → RunsConfig (R.remaining reader.old) (R.remaining reader.new)
        (λ config. Appends (W.contents writer.old) (W.contents writer.new) (report_of config)) }
    ensures refused { result ≡ 1 → IsRefused (R.remaining reader.old) (R.remaining reader.new) }
    ensures silent { result ≡ 1 → Keeps (W.contents writer.old) (W.contents writer.new) }
    ensures unread { result ≡ 2 → Keeps (R.remaining reader.old) (R.remaining reader.new) }
    ensures unwritten { result ≡ 2 → Keeps (W.contents writer.old) (W.contents writer.new) }
    ensures stopped { result ≡ 3 → StopsEarly (R.remaining reader.old) (R.remaining reader.new)
        (W.contents writer.old) (W.contents writer.new) }
    ensures reader_failed { NewlyFailed (R.has_failed reader.old) (R.has_failed reader.new) → result ≡ 3 }
    ensures writer_failed { NewlyFailed (W.has_failed writer.old) (W.has_failed writer.new) → result ≡ 3 }
    ensures known { result ≤ 3 }
    ensures taken { result < 2 → AreTaken (map string_bytes words.now) }
    ensures untaken { result ≡ 2 → AreTaken (map string_bytes words.now) → ⊥ }
{
    let request = match LINE.request(system, words) {
        Ok(request) => request,
        Err(status) => return status,
    };
    let workers = workers_of(&request);
    match run(rt, system.alloc(), &Open, workers, reader, writer) {
        Ok(host) => {
            host.close();
            DONE
        }
        Err(error) => complain(system, error),
    }
}

/// Runs the configuration that the reader gives, writes the report to the writer, and gives the status to end with. `rt` starts
/// the threads; the words come from `system`, and on its standard error is said what is wrong.
///
/// | Status | Cause | What was written |
/// |---|---|---|
/// | 0 | all was read, and it means a configuration | the whole report |
/// | 1 | all was read, and it means no configuration | nothing |
/// | 2 | the words are refused or ask for help; nothing was read | nothing |
/// | 3 | reading or writing failed, the input is too long, or memory was refused | a front of the report, or nothing |
///
/// A reader or a writer that fails in this call, and had not failed before, is always answered by 3.
pub fn status<RT: Threads + Sync, R: Source, W: Sink>(
    rt: &RT,
    system: &(impl Env + Eprint + AllocGlobal),
    reader: &mut R,
    writer: &mut W,
) -> u8
    ensures done { result ≡ 0 → RunsConfig (R.remaining reader.old) (R.remaining reader.new)
        (λ config. Appends (W.contents writer.old) (W.contents writer.new) (report_of config)) }
    ensures refused { result ≡ 1 → IsRefused (R.remaining reader.old) (R.remaining reader.new) }
    ensures silent { result ≡ 1 → Keeps (W.contents writer.old) (W.contents writer.new) }
    ensures unread { result ≡ 2 → Keeps (R.remaining reader.old) (R.remaining reader.new) }
    ensures unwritten { result ≡ 2 → Keeps (W.contents writer.old) (W.contents writer.new) }
    ensures stopped { result ≡ 3 → StopsEarly (R.remaining reader.old) (R.remaining reader.new)
        (W.contents writer.old) (W.contents writer.new) }
    ensures reader_failed { NewlyFailed (R.has_failed reader.old) (R.has_failed reader.new) → result ≡ 3 }
    ensures writer_failed { NewlyFailed (W.has_failed writer.old) (W.has_failed writer.new) → result ≡ 3 }
    ensures known { result ≤ 3 }
{
    match LINE.words(system) {
        Ok(words) => status_for(rt, system, words.as_slice(), reader, writer),
        Err(status) => status,
    }
}

/// Runs the guests that a configuration on standard input names, and writes the report to standard output.
///
/// The words are those of `vmmem [--workers N]`: on how many threads the guests run at most, 1 to 64, and 1 where that isn't said.
/// They are read before the input. The exit code is that of [`status`].
pub fn vmmem(rt: &(impl Env + Input + Print + Eprint + AllocGlobal + Threads + Sync)) -> ExitCode
    ensures known { exit_status result ≤ 3 }
{
    let mut reader = Watched::new(rt.reader());
    let mut writer = Watched::new(io::writer(rt));
    ExitCode::from(status(rt, rt, &mut reader, &mut writer))
}
