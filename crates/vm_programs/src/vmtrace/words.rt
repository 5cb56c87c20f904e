//! From the words of the command line to what they ask for.
ghost use Rattle.std.specs.Prelude.{◌≡◌, ◌⊎◌, IfErr, IfOk, OnOk, false, map, string_bytes, true};
ghost use Rattle.vm_config.specs.Names.{is_name};
ghost use Rattle.vm_import.specs.Settings.{settings_of};
ghost use Rattle.vm_programs.specs.vmtrace.CommandLine.{LieInRange, name_of, rows_of, settings_in};
ghost use Rattle.vm_programs.specs.vmtrace.Taken.{AreTaken, IsStatusOfWords};

use super::asked::{WordsFault, asked_of};
use super::line::LINE;
use vm_import::ImportSettings;
use vm_words::Request;

/// What a request asks for, or the status to end with: 2 where its name is none of a guest, and 3 where memory was refused. What is wrong
/// is said on standard error.
pub(crate) fn read_request(
    system: &(impl Eprint + AllocGlobal),
    request: &Request<'_>,
) -> Result<ImportSettings, u8>
    requires { LieInRange request.now }
    ensures asked { IfOk result (λ settings. settings_of settings ≡ settings_in request.now) }
    ensures named { IfOk result (λ _. is_name (name_of request.now) ≡ true) }
    ensures refused { IfErr result (λ status. ((status ≡ 2) × (is_name (name_of request.now) ≡ false)) ⊎ (status ≡ 3)) }
{
    match asked_of(system.alloc(), request) {
        Ok(settings) => Ok(settings),
        Err(WordsFault::BadName) => Err(LINE.refuse_words(system, "bad name")),
        Err(WordsFault::Memory) => Err(LINE.no_memory(system)),
    }
}

/// What the words ask for, of which the first is the program's name, or the status to end with: 2 where they are refused or ask
/// for help, and 3 where memory was refused. What is wrong, and the help, is said on standard error: of a name that a configuration
/// doesn't take as a guest's `vmtrace: bad name`, after all else that is wrong.
///
/// Where the words don't say it, the name is `guest`, the minimum is left to the guest's size, an interval has 1000000 accesses, an
/// epoch 1024 steps, nothing is skipped, and there are at most 1000000 steps.
pub fn read_words(
    system: &(impl Eprint + AllocGlobal),
    words: &[String],
) -> Result<ImportSettings, u8>
    ensures asked { IfOk result (λ settings. settings_of settings ≡ settings_in (rows_of (map string_bytes words.now))) }
    ensures taken { OnOk result (AreTaken (map string_bytes words.now)) }
    ensures refused { IfErr result (IsStatusOfWords (map string_bytes words.now)) }
{
    let request = LINE.request(system, words)?;
    read_request(system, &request)
}
