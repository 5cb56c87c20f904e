//! What a program reads: standard input, or a file in its place.
ghost use Rattle.std.specs.Prelude.{◌≡◌, IfErr, IfOk, is_none, option_map};
ghost use Rattle.either.specs.Either.{is_left};
ghost use Rattle.vm_programs.specs.Input.{file_in};

use either::Either;
use std::fs;
use std::io::{Input, IsTerminal};
use std::rt::Files;
use vm_words::CommandLine;

/// The most bytes of a text, and of the policy and of each sample of a host log.
pub(crate) const MOST_BYTES: usize = 16_777_216;

// What stands for standard input where a file may be named.
const STANDARD_INPUT: &str = "-";

/// Standard input, or a file.
pub(crate) type Reader<RT> = Either<<RT as Input>::Reader, <RT as Files>::File>;

// The path of the file that is named, which `-` is not.
fn file_in(file: Option<&str>) -> Option<&str>
    ensures { option_map (λ path. path.now) result ≡ file_in (option_map (λ path. path.now) file.entry) }
{
    match file {
        Some(path) if path != STANDARD_INPUT => Some(path),
        _ => None,
    }
}

/// Opens the file that is named, or standard input where none is, or `-`. Says on standard error that standard input is read, where that
/// is a terminal. Where the file can't be opened, says so, and gives the status to end with. Of which path a file was opened no contract
/// can tell.
pub(crate) fn open_input<RT: Input + Files + Eprint>(
    rt: &RT,
    line: &CommandLine,
    file: Option<&str>,
) -> Result<Reader<RT>, u8>
where
    RT::Reader: IsTerminal,
    ensures standard { IfOk result (λ reader. is_left reader ≡ is_none (file_in (option_map (λ path. path.now) file.entry))) }
    ensures status { IfErr result (λ status. status ≡ 3) }
{
    let Some(path) = file_in(file) else {
        let reader = rt.reader();
        if reader.is_terminal() {
            line.tell_reading(rt);
        }
        return Ok(Either::Left(reader));
    };
    match fs::open(rt, path) {
        Ok(file) => Ok(Either::Right(file)),
        Err(_) => Err(line.cannot_open(rt, path)),
    }
}
