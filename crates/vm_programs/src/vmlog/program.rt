//! From the words of the command line to the exit status.
ghost use Rattle.std.specs.Prelude.{◌≡◌, ◌≢◌, ◌<◌, ◌≤◌, ℕ, map, string_bytes, IfErr, IfOk};
ghost use Rattle.std.specs.Io.KnownBytes.{Keeps};
ghost use Rattle.std.specs.Process.{exit_status};
ghost use Rattle.vm_programs.specs.vmlog.CommandLine.{AreTaken, every_by};
ghost use Rattle.vm_programs.specs.vmlog.Written.{IsRefused, IsWritten, StopsEarly};
ghost use Rattle.vm_streams.specs.Streams.{NewlyFailed};

use super::asked::every_of;
use super::complaints::{complain, tell};
use super::line::LINE;
use crate::input::open_input;
use std::io;
use std::io::{Input, IsTerminal};
use std::process::ExitCode;
use std::rt::{Env, Files};
use vm_log::plan_log;
use vm_streams::{Sink, Source, Watched};
use vm_words::DONE;

// Plans what is asked for, and gives the status to end with.
fn plan_by<R: Source, W: Sink>(
    system: &(impl Eprint + AllocGlobal),
    every: u32,
    reader: &mut R,
    writer: &mut W,
) -> u8
    requires some { 1 ≤ every }
    requires few { every ≤ 10000 }
    ensures done { result ≡ 0 → IsWritten every (R.remaining reader.old) (W.contents writer.old) (W.contents writer.new) }
    ensures refused { result ≡ 1 → IsRefused (R.remaining reader.old) }
    ensures silent { result ≡ 1 → Keeps (W.contents writer.old) (W.contents writer.new) }
    ensures taken { result ≢ 2 }
    ensures stopped { result ≡ 3 → StopsEarly every (R.remaining reader.old) (W.contents writer.old) (W.contents writer.new)
        (R.has_failed reader.new) (W.has_failed writer.new) }
    ensures reader_failed { NewlyFailed (R.has_failed reader.old) (R.has_failed reader.new) → result ≡ 3 }
    ensures writer_failed { NewlyFailed (W.has_failed writer.old) (W.has_failed writer.new) → result ≡ 3 }
    ensures known { result ≤ 3 }
{
    match plan_log(system.alloc(), every, reader, writer) {
        Ok(planned) => {
            tell(system, planned);
            DONE
        }
        Err(error) => complain(system, error),
    }
}

/// What [`status`] does, with these words in place of the system's. The first is the program's name.
pub fn status_for<R: Source, W: Sink>(
    system: &(impl Eprint + AllocGlobal),
    words: &[String],
    reader: &mut R,
    writer: &mut W,
) -> u8
    ensures done { result ≡ 0 → IsWritten (every_by (map string_bytes words.now)) (R.remaining reader.old)
        (W.contents writer.old) (W.contents writer.new) }
    ensures refused { result ≡ 1 → IsRefused (R.remaining reader.old) }
    ensures silent { result ≡ 1 → Keeps (W.contents writer.old) (W.contents writer.new) }
    ensures unread { result ≡ 2 → Keeps (R.remaining reader.old) (R.remaining reader.new) }
    ensures unwritten { result ≡ 2 → Keeps (W.contents writer.old) (W.contents writer.new) }
    ensures stopped { result ≡ 3 → StopsEarly (every_by (map string_bytes words.now)) (R.remaining reader.old)
        (W.contents writer.old) (W.contents writer.new) (R.has_failed reader.new) (W.has_failed writer.new) }
    ensures reader_failed { NewlyFailed (R.has_failed reader.old) (R.has_failed reader.new) → result ≡ 3 }
    ensures writer_failed { NewlyFailed (W.has_failed writer.old) (W.has_failed writer.new) → result ≡ 3 }
    ensures known { result ≤ 3 }
    ensures taken { result < 2 → AreTaken (map string_bytes words.now) }
    ensures untaken { result ≡ 2 → AreTaken (map string_bytes words.now) → ⊥ }
{
    match LINE.request(system, words) {
        Ok(request) => plan_by(system, every_of(&request), reader, writer),
        Err(status) => status,
    }
}

/// Reads the host log that the reader gives, writes a configuration of the recorded host, and gives the status to end with. The words
/// come from `system`, and on its standard error is said what is wrong, which limit ended the reading, as in
/// `vmlog: ends after 12 epochs: no more than 1000000 steps`, and behind it how many bad samples were passed over, as in
/// `vmlog: 3 bad samples`.
///
/// | Status | Cause | What was written |
/// |---|---|---|
/// | 0 | the log has ended, or a limit of a configuration would be passed | the whole text |
/// | 1 | the policy is refused, as `vmlog: key "memory": is absent` | nothing |
/// | 2 | the words are refused or ask for help; nothing was read | nothing |
/// | 3 | reading or writing failed, a part of the log is too long, or memory was refused | nothing; where writing failed, a front of the text |
///
/// What was written is said of a reader whose bytes are known. A reader or a writer that fails in this call, and had not failed before,
/// is always answered by 3.
pub fn status<R: Source, W: Sink>(
    system: &(impl Env + Eprint + AllocGlobal),
    reader: &mut R,
    writer: &mut W,
) -> u8
    ensures done { result ≡ 0 → (every : ℕ) × IsWritten every (R.remaining reader.old) (W.contents writer.old) (W.contents writer.new) }
    ensures refused { result ≡ 1 → IsRefused (R.remaining reader.old) }
    ensures silent { result ≡ 1 → Keeps (W.contents writer.old) (W.contents writer.new) }
    ensures unread { result ≡ 2 → Keeps (R.remaining reader.old) (R.remaining reader.new) }
    ensures unwritten { result ≡ 2 → Keeps (W.contents writer.old) (W.contents writer.new) }
    ensures stopped { result ≡ 3 → (every : ℕ) × StopsEarly every (R.remaining reader.old)
        (W.contents writer.old) (W.contents writer.new) (R.has_failed reader.new) (W.has_failed writer.new) }
    ensures reader_failed { NewlyFailed (R.has_failed reader.old) (R.has_failed reader.new) → result ≡ 3 }
    ensures writer_failed { NewlyFailed (W.has_failed writer.old) (W.has_failed writer.new) → result ≡ 3 }
    ensures known { result ≤ 3 }
{
    match LINE.words(system) {
        Ok(words) => status_for(system, words.as_slice(), reader, writer),
        Err(status) => status,
    }
}

// Opens what the words say is read, does what they ask for, and gives the status to end with.
fn obey<RT: Env + Input + Files + Print + Eprint + AllocGlobal>(
    rt: &RT,
    words: &[String],
) -> Result<u8, u8>
where
    RT::Reader: IsTerminal,
    ensures done { IfOk result (λ status. status ≤ 3) }
    ensures refused { IfErr result (λ status. status ≤ 3) }
{
    let request = LINE.request(rt, words)?;
    let mut reader = Watched::new(open_input(rt, &LINE, request.file())?);
    let mut writer = Watched::new(io::writer(rt));
    Ok(plan_by(rt, every_of(&request), &mut reader, &mut writer))
}

/// Reads a host log, a policy and what `virsh domstats` tells sample by sample, and writes a configuration of the recorded host to
/// standard output.
///
/// The words are those of `vmlog [--every N] [FILE]`: how many samples make an epoch. They are read before the input. FILE is read in
/// place of standard input, which `-` stands for; where it can't be opened the exit code is 3 and nothing is written, and else it is
/// that of [`status_for`] with that input.
pub fn vmlog<RT: Env + Input + Files + Print + Eprint + AllocGlobal>(rt: &RT) -> ExitCode
where
    RT::Reader: IsTerminal,
    ensures known { exit_status result ≤ 3 }
{
    let words = match LINE.words(rt) {
        Ok(words) => words,
        Err(status) => return ExitCode::from(status),
    };
    match obey(rt, words.as_slice()) {
        Ok(status) | Err(status) => ExitCode::from(status),
    }
}
