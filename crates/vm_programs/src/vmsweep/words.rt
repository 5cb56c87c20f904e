//! From the words of the command line to what they ask for.
ghost use Rattle.std.specs.Prelude.{◌≡◌, ◌≤◌, IfErr, IfOk, OnOk, codes, map, string_bytes};
ghost use Rattle.vm_words.specs.Words.{has_flag};
ghost use Rattle.vm_programs.specs.vmsweep.CommandLine.{form_of, rows_of, workers_of};
ghost use Rattle.vm_programs.specs.vmsweep.Lists.{AreWithin, HaveValues, guest_lists, lists_in, lists_of, runs};
ghost use Rattle.vm_programs.specs.vmsweep.Refused.{IsStatusOfFault};
ghost use Rattle.vm_programs.specs.vmsweep.Taken.{AreTaken, CanBeDrawn, IsStatusOfWords};

use super::asked::{Asked, Form, asked_of};
use super::faults::SweepFault;
use super::keys::SweptKey;
use super::line::LINE;
use super::telling::OfGuest;
use vm_words::Request;

// The name of a key's list at a place.
fn name_at<'a>(request: &Request<'a>, key: SweptKey, place: usize) -> &'a str {
    let Some(texts) = request.texts(key.word()) else {
        return "";
    };
    let Some(text) = texts.get(place) else {
        return "";
    };
    match text.split_once('=') {
        Some((name, _)) => name,
        None => text,
    }
}

// Says why the words are refused, and gives the status to end with.
fn complain(system: &impl Eprint, request: &Request<'_>, fault: SweepFault) -> u8
    ensures { IsStatusOfFault fault result }
{
    if fault.is_memory() {
        return LINE.no_memory(system);
    }
    if let SweepFault::BadName { key, fault } = fault {
        let name = name_at(request, key, fault.place);
        let cause = fault.kind;
        return LINE.refuse_words(system, OfGuest { key, name, cause });
    }
    LINE.refuse_words(system, fault)
}

/// What the words ask for, of which the first is the program's name, or the status to end with: 2 where they are refused or ask
/// for help, and 3 where memory was refused. What is wrong, and the help, is said on standard error: of a list its word, the byte
/// of the list where it is wrong, from 0, and how, as in `vmsweep: --frames: at byte 4: the range ends below its beginning`. A name in
/// front of a list counts too; of a wrong one itself is said, as in `vmsweep: --min web: twice`.
///
/// Words are refused first for what they are one by one, the number of `--seeds` too, then list by list for the first fault, in the
/// order `--frames`, `--swap`, `--tax`, `--page-rate`, `--rebalance`, `--min-percent`, `--min`, `--shares`, then name by name for one
/// that is no guest's or stands twice with its word, then for more than 8 lists with names, for more than 10000 runs, and last for a
/// drawing that can't be made.
pub fn read_words(system: &(impl Eprint + AllocGlobal), words: &[String]) -> Result<Asked, u8>
    // It is what the words say.
    ensures lists { IfOk result (λ asked. lists_of (rows_of (map string_bytes words.now)) ≡ Ok (lists_in asked)) }
    ensures form { IfOk result (λ asked. asked.form ≡ form_of (rows_of (map string_bytes words.now))) }
    ensures progress { IfOk result (λ asked. asked.has_progress
        ≡ has_flag (codes "progress") (rows_of (map string_bytes words.now))) }
    ensures workers { IfOk result (λ asked. asked.workers ≡ workers_of (rows_of (map string_bytes words.now))) }

    // It can be done.
    ensures within { IfOk result (λ asked. AreWithin (lists_in asked)) }
    ensures some { IfOk result (λ asked. HaveValues (lists_in asked)) }
    ensures few_workers { IfOk result (λ asked. (1 ≤ asked.workers) × (asked.workers ≤ 64)) }
    ensures few_lists { IfOk result (λ asked. guest_lists (lists_in asked) ≤ 8) }
    ensures few { IfOk result (λ asked. runs (lists_in asked) ≤ 10000) }
    ensures drawn { IfOk result (λ asked. asked.form ≡ Form.Drawing → CanBeDrawn (lists_in asked)) }

    ensures taken { OnOk result (AreTaken (map string_bytes words.now)) }
    ensures refused { IfErr result (IsStatusOfWords (map string_bytes words.now)) }
{
    let request = LINE.request(system, words)?;
    match asked_of(system.alloc(), &request) {
        Ok(asked) => Ok(asked),
        Err(fault) => Err(complain(system, &request, fault)),
    }
}
