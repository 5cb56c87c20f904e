// How the programs end: for words and a text, with which status, what they say on standard error, and what they write.
use crate::cases::{Entry, bytes, check_bytes, check_keys, first_line, needed, quoted, single};
use crate::programs::{Ended, end};
use crate::streams::{Given, Narrow};
use crate::tally::Tally;
use anyhow::{Result, bail, ensure};
use std::alloc::Global;
use std::rt::Files;
use std::thread::Threads;
use std::{io, str};
use vm_series::{collect_series, svg_text};
use vm_sim::Open;

const KEYS: [&str; 9] = [
    "words", "input", "room", "status", "says", "reads", "writes", "shows", "times",
];

/// More than any of these programs writes here.
const AMPLE: usize = 1_000_000;

/// What a block gives to each of its words, and what it wants of them.
#[derive(Drop)]
struct Case {
    input: Vec<u8>,
    /// Whether the input ends after its bytes. Else the next read fails.
    ends: bool,
    room: usize,
    status: u8,
    is_unread: bool,
    /// What is written where there is room for it, if that is known as a whole.
    written: Option<Vec<u8>>,
}

/// Runs the program that words name.
fn end_of<RT: AllocGlobal + Threads + Sync>(
    rt: &RT,
    words: &str,
    input: &[u8],
    ends: bool,
    room: usize,
) -> Result<Ended> {
    let alloc = rt.alloc();
    let words: Vec<&str> = words.split(' ').collect(alloc)?;
    let reader = Given::new(input, ends);
    match end(rt, words.as_slice(), reader, Narrow::new(alloc, room)) {
        Some(ended) => Ok(ended),
        None => bail!("no program of this name"),
    }
}

/// What `vm_series` draws of a configuration.
fn drawing<RT: AllocGlobal + Threads + Sync>(rt: &RT, input: &[u8]) -> Result<Vec<u8>> {
    let alloc = rt.alloc();
    match collect_series(rt, alloc, &Open, 1, input) {
        Ok(series) => Ok(svg_text(alloc, &series)?),
        Err(_) => bail!("no series to draw"),
    }
}

/// What a block wants written, if it says it as a whole.
fn wanted_text<RT: Files + AllocGlobal + Threads + Sync>(
    rt: &RT,
    block: &[Entry],
    input: &[u8],
) -> Result<Option<Vec<u8>>> {
    let written = match single(block, "writes")? {
        None => return Ok(None),
        Some("nothing") => Vec::new(rt.alloc()),
        Some("drawing") => drawing(rt, input)?,
        Some("same") => end_of(rt, first_words(block)?, input, true, AMPLE)?.written,
        Some(name) => bytes(rt, name)?,
    };
    Ok(Some(written))
}

/// The first words of a block.
fn first_words<'a>(block: &[Entry<'a>]) -> Result<&'a str> {
    for entry in block {
        if entry.key == "words" {
            return Ok(entry.value);
        }
    }
    bail!("no line \"words\"")
}

/// A number in decimal.
fn number(text: &str) -> Result<usize> {
    match text.parse::<usize>() {
        Ok(number) => Ok(number),
        Err(_) => bail!("no number"),
    }
}

/// Whether the input is to be left unread.
fn is_unread(block: &[Entry]) -> Result<bool> {
    match single(block, "reads")? {
        None => Ok(false),
        Some("nothing") => Ok(true),
        Some(_) => bail!("reads what?"),
    }
}

/// Whether a line says something of the output.
fn says_output(entry: &Entry) -> bool {
    matches!(entry.key, "writes" | "shows" | "times")
}

/// The bytes that a line names, and whether the input ends after them.
fn read_input<RT: Files + AllocGlobal>(rt: &RT, value: &str) -> Result<(Vec<u8>, bool)> {
    if value == "fails" {
        return Ok((Vec::new(rt.alloc()), false));
    }
    match value.strip_prefix("spaces ") {
        Some(count) => Ok((vec![in rt.alloc(); b' '; number(count)?]?, true)),
        None => Ok((bytes(rt, value)?, true)),
    }
}

/// What a block gives to its words, and wants of them.
fn read_case<RT: Files + AllocGlobal + Threads + Sync>(rt: &RT, block: &[Entry]) -> Result<Case> {
    check_keys(block, &KEYS)?;
    first_words(block)?;
    ensure!(
        block.iter().any(|entry| says_output(entry)),
        "nothing of the output"
    );
    let (input, ends) = read_input(rt, needed(block, "input")?)?;
    let room = match single(block, "room")? {
        None => AMPLE,
        Some(room) => number(room)?,
    };
    let Ok(status) = needed(block, "status")?.parse::<u8>() else {
        bail!("no status");
    };
    let written = wanted_text(rt, block, input.as_slice())?;
    Ok(Case {
        input,
        ends,
        room,
        status,
        is_unread: is_unread(block)?,
        written,
    })
}

/// Refuses what is said on standard error, if it is something else than the lines that the block wants.
fn check_said(block: &[Entry], said: &str) -> Result<()> {
    let mut left = said;
    for entry in block {
        if entry.key != "says" {
            continue;
        }
        if entry.value == "something" {
            ensure!(!said.is_empty(), "says nothing");
            return Ok(());
        }
        let rest = left
            .strip_prefix(entry.value)
            .and_then(|rest| rest.strip_prefix("\n"));
        let Some(rest) = rest else {
            bail!("says {said:?}");
        };
        left = rest;
    }
    ensure!(left.is_empty(), "says {said:?}");
    Ok(())
}

/// So many bytes from the first on, or all.
fn front(bytes: &[u8], length: usize) -> &[u8] {
    &bytes[..length.min(bytes.len())]
}

/// Refuses a text in which the piece of a line does not stand, or not so often.
fn check_piece(alloc: Global, entry: &Entry, text: &str) -> Result<()> {
    let (times, piece) = match entry.key {
        "times" => entry.value.split_once(' ').unwrap_or(("", "")),
        _ => ("", entry.value),
    };
    let Some(piece) = quoted(alloc, piece)? else {
        bail!("line {}: no piece", entry.number);
    };
    let found = text.matches(piece.as_str()).count();
    match entry.key {
        "times" => ensure!(
            found == number(times)?,
            "line {}: {found} times",
            entry.number
        ),
        _ => ensure!(found > 0, "line {}: is not shown", entry.number),
    }
    Ok(())
}

/// Refuses what is written, if a piece of the block does not stand in it.
fn check_pieces(alloc: Global, block: &[Entry], written: &[u8]) -> Result<()> {
    let text = str::from_utf8(written)?;
    for entry in block {
        if entry.key == "shows" || entry.key == "times" {
            check_piece(alloc, entry, text)?;
        }
    }
    Ok(())
}

/// Refuses words that end in another way than the block wants.
fn check<RT: AllocGlobal + Threads + Sync>(
    rt: &RT,
    block: &[Entry],
    case: &Case,
    words: &str,
) -> Result<()> {
    let ended = end_of(rt, words, case.input.as_slice(), case.ends, case.room)?;
    ensure!(
        ended.status == case.status,
        "status {}, wanted {}",
        ended.status,
        case.status
    );
    check_said(block, ended.said.as_str())?;
    if case.is_unread {
        ensure!(ended.left == case.input.len(), "reads some of the input");
    }
    if let Some(written) = &case.written {
        let wanted = front(written.as_slice(), case.room);
        check_bytes(ended.written.as_slice(), wanted)?;
    }
    check_pieces(rt.alloc(), block, ended.written.as_slice())
}

/// Tries each words of a block.
pub(crate) fn try_block<RT: Files + Print + AllocGlobal + Threads + Sync>(
    rt: &RT,
    block: &[Entry],
    tally: &mut Tally,
) -> io::Result<()> {
    let case = match read_case(rt, block) {
        Ok(case) => case,
        Err(error) => {
            return tally.note(rt, first_line(block), Err(error));
        }
    };
    for entry in block {
        if entry.key == "words" {
            tally.note(rt, entry.number, check(rt, block, &case, entry.value))?;
        }
    }
    Ok(())
}
