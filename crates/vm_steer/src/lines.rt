// The lines of a sample's text.
ghost use Rattle.std.specs.Prelude.{◌≡◌, ◌++◌, OnOk, codes, decimal};
ghost use Rattle.vm_samples.specs.BadLines.{text_of_what};
ghost use Rattle.vm_steer.specs.Text.{bad_line, count_line, ending, guest_line, holdings, labelled, left_line, lines_in, lines_of, order_line, printed, sample_line, state_line, steered_lines, uses, words_ending};

use crate::fate::{Fate, LeftDomain, SteeredDomain};
use crate::remembered::Remembered;
use crate::told::Entry;
use itoa::Buffer;
use std::alloc::AllocError;
use vm_plan::State;
use vm_samples::{BadLine, BadSample, is_name};

// The lines of domains that stand together.
#[derive(Clone, Copy)]
pub(crate) enum Part {
    // Those that are left alone.
    LeftAlone,
    // How often each is in the revocation list.
    Revoked,
    // .. in the grant list.
    Granted,
    // .. in the rebalancing list.
    Rebalanced,
    // Those that are steered, with their orders.
    Guests,
}

pub(crate) fn push_number(text: &mut Vec<u8>, number: u64) -> Result<(), AllocError>
    ensures { OnOk result (text.new.items ≡ text.old.items ++ decimal number) }
{
    let mut buffer = Buffer::new();
    text.extend_from_slice(buffer.format(number).as_bytes())
}

// A line's last number, behind a space.
fn push_ending(text: &mut Vec<u8>, number: u64) -> Result<(), AllocError>
    ensures { OnOk result (text.new.items ≡ text.old.items ++ ending number) }
{
    text.extend_from_slice(b" ")?;
    push_number(text, number)?;
    text.extend_from_slice(b"\n")
}

// A name, where it is a guest's.
pub(crate) fn push_name(text: &mut Vec<u8>, name: &[u8]) -> Result<(), AllocError>
    ensures { OnOk result (text.new.items ≡ text.old.items ++ printed name.now) }
{
    if is_name(name) {
        text.extend_from_slice(name)
    } else {
        text.extend_from_slice(b"-")
    }
}

#[tactic(auto, unfolding(crate::specs::Text::sample_line))]
pub(crate) fn push_sample(text: &mut Vec<u8>, number: u64) -> Result<(), AllocError>
    ensures { OnOk result (text.new.items ≡ text.old.items ++ sample_line number) }
{
    text.extend_from_slice(b"# sample")?;
    push_ending(text, number)
}

// A number behind its label.
fn push_labelled(text: &mut Vec<u8>, label: &[u8], number: u64) -> Result<(), AllocError>
    ensures { OnOk result (text.new.items ≡ text.old.items ++ labelled label.now number) }
{
    text.extend_from_slice(label)?;
    push_number(text, number)
}

// A line's last words, behind a space.
fn push_words(text: &mut Vec<u8>, words: &str) -> Result<(), AllocError>
    ensures { OnOk result (text.new.items ≡ text.old.items ++ words_ending words.now) }
{
    text.extend_from_slice(b" ")?;
    text.extend_from_slice(words.as_bytes())?;
    text.extend_from_slice(b"\n")
}

#[tactic(auto, unfolding(crate::specs::Text::left_line))]
fn push_left(text: &mut Vec<u8>, name: &[u8], left: &LeftDomain) -> Result<(), AllocError>
    ensures { OnOk result (text.new.items ≡ text.old.items ++ left_line name.now left.now) }
{
    text.extend_from_slice(b"# left ")?;
    push_name(text, name)?;
    push_labelled(text, b" ", left.held)?;
    push_words(text, left.why.words())
}

#[tactic(auto, unfolding(crate::specs::Text::state_line))]
pub(crate) fn push_state(text: &mut Vec<u8>, state: State, free: u32) -> Result<(), AllocError>
    ensures { OnOk result (text.new.items ≡ text.old.items ++ state_line state free) }
{
    text.extend_from_slice(b"# state ")?;
    text.extend_from_slice(state.as_str().as_bytes())?;
    text.extend_from_slice(b" free")?;
    push_ending(text, u64::from(free))
}

// How often a domain is in a list, if it is.
fn push_count(text: &mut Vec<u8>, word: &[u8], name: &[u8], count: u32) -> Result<(), AllocError>
    ensures { OnOk result (text.new.items ≡ text.old.items ++ count_line word.now name.now count) }
{
    if count == 0 {
        return Ok(());
    }
    text.extend_from_slice(word)?;
    text.extend_from_slice(name)?;
    push_ending(text, u64::from(count))
}

// What a domain is meant to hold, and what it holds.
fn push_holdings(text: &mut Vec<u8>, remembered: &Remembered) -> Result<(), AllocError>
    ensures { OnOk result (text.new.items ≡ text.old.items ++ holdings remembered.now) }
{
    push_labelled(text, b" target ", u64::from(remembered.target))?;
    push_labelled(text, b" held ", u64::from(remembered.held))
}

// What it uses.
fn push_uses(text: &mut Vec<u8>, used: u32, active: u32) -> Result<(), AllocError>
    ensures { OnOk result (text.new.items ≡ text.old.items ++ uses used active) }
{
    push_labelled(text, b" used ", u64::from(used))?;
    text.extend_from_slice(b" active")?;
    push_ending(text, u64::from(active))
}

#[tactic(auto, unfolding(crate::specs::Text::guest_line))]
fn push_guest(text: &mut Vec<u8>, name: &[u8], steered: &SteeredDomain) -> Result<(), AllocError>
    ensures { OnOk result (text.new.items ≡ text.old.items ++ guest_line name.now steered.now) }
{
    text.extend_from_slice(b"# guest ")?;
    text.extend_from_slice(name)?;
    push_holdings(text, &steered.remembered)?;
    push_uses(text, steered.used, steered.active)
}

// The order to a domain's balloon, if it is ordered.
fn push_order(text: &mut Vec<u8>, name: &[u8], order: Option<u64>) -> Result<(), AllocError>
    ensures { OnOk result (text.new.items ≡ text.old.items ++ order_line name.now order) }
{
    let Some(kib) = order else {
        return Ok(());
    };
    text.extend_from_slice(b"setmem ")?;
    text.extend_from_slice(name)?;
    push_ending(text, kib)
}

fn push_steered(
    text: &mut Vec<u8>,
    part: Part,
    name: &[u8],
    steered: &SteeredDomain,
) -> Result<(), AllocError>
    ensures { OnOk result (text.new.items ≡ text.old.items ++ steered_lines part name.now steered.now) }
{
    match part {
        Part::LeftAlone => Ok(()),
        Part::Revoked => push_count(text, b"# revoke ", name, steered.revoked),
        Part::Granted => push_count(text, b"# grant ", name, steered.granted),
        Part::Rebalanced => push_count(text, b"# rebalance ", name, steered.rebalanced),
        Part::Guests => {
            push_guest(text, name, steered)?;
            push_order(text, name, steered.order)
        }
    }
}

// The lines of one domain.
fn push_lines(text: &mut Vec<u8>, part: Part, entry: &Entry) -> Result<(), AllocError>
    ensures { OnOk result (text.new.items ≡ text.old.items ++ lines_in part entry.now.name entry.now.fate) }
{
    match &entry.fate {
        Fate::Steered(steered) => push_steered(text, part, &entry.name, steered),
        Fate::Left(left) => match part {
            Part::LeftAlone => push_left(text, &entry.name, left),
            Part::Revoked | Part::Granted | Part::Rebalanced | Part::Guests => Ok(()),
        },
    }
}

// Those of all domains.
pub(crate) fn push_part(text: &mut Vec<u8>, part: Part, entries: &[Entry]) -> Result<(), AllocError>
    ensures { OnOk result (text.new.items ≡ text.old.items ++ lines_of part entries.now) }
{
    for entry in entries {
        push_lines(text, part, entry)?;
    }
    Ok(())
}

// In which words it is told why a sample is bad.
fn words_of(what: BadLine) -> &'static str
    ensures { result.now ≡ text_of_what what }
{
    match what {
        BadLine::NotALine => "not a line of domstats",
        BadLine::NotANumber => "not a number",
        BadLine::TooManyDomains => "more than 256 domains",
        BadLine::NoDomain => "no domain",
    }
}

#[tactic(auto, unfolding(crate::specs::Text::bad_line))]
pub(crate) fn push_bad(text: &mut Vec<u8>, bad: &BadSample) -> Result<(), AllocError>
    ensures { OnOk result (text.new.items ≡ text.old.items ++ bad_line bad.now) }
{
    text.extend_from_slice(b"# line ")?;
    push_number(text, bad.line)?;
    text.extend_from_slice(b": ")?;
    text.extend_from_slice(words_of(bad.what).as_bytes())?;
    text.extend_from_slice(b"\n")
}
