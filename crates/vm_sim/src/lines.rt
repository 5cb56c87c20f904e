// The lines of a report.
ghost use Rattle.std.specs.Prelude.{◌≡◌, ◌++◌, OnOk, codes, string_bytes};
ghost use Rattle.std.specs.Fmt.{decimal};
ghost use Rattle.std.specs.List.{flat_map};
ghost use Rattle.vm_sim.specs.Lines.{block_line, command_line, count_line, fault_lines, guest_line, memory_line, memory_lines, move_line, number_line, outcome_lines, read_line, refusal_words, stall_line, state_line, statistics_lines};

use crate::read_line::{push_read, put_char};
use itoa::write_digits;
use std::alloc::AllocError;
use vm_balloon::Stats;
use vm_guest::{GuestView, PageRead};
use vm_host::{DomainStatistics, Outcome, Refusal, State};

// ---- the ends of lines

// Room for a space, a number of at most twenty digits and a line feed.
const LAST_ROOM: usize = 22;

// The last number of a line, behind a space. It is put together from its end.
#[inline]
fn push_last_number(text: &mut String, number: u64) -> Result<(), AllocError>
    ensures { OnOk result (string_bytes text.new
        ≡ string_bytes text.old ++ (codes " " ++ (decimal number ++ codes "\n"))) }
{
    let mut last = [0; LAST_ROOM];
    let line_feed = put_char(&mut last, LAST_ROOM, b'\n');
    let digits = write_digits(number, &mut last, line_feed);
    let space = put_char(&mut last, digits, b' ');
    // All that was put is ASCII.
    text.push_str(unsafe { std::str::from_utf8_unchecked(&last[space..]) })
}

// ---- commands

// The number of a refusal, and its text.
fn refusal_words(refusal: Refusal) -> &'static str
    ensures { result.now ≡ refusal_words refusal }
{
    match refusal {
        Refusal::NoSuchDomain => "1 no such domain",
        Refusal::AlreadyRunning => "2 already running",
        Refusal::NotRunning => "3 not running",
        Refusal::BadLine => "4 bad line",
        Refusal::BadSize => "5 bad size",
        Refusal::BelowMinimum => "6 below minimum",
        Refusal::AboveMaximum => "7 above maximum",
        Refusal::NoMemory => "8 no memory to reserve",
        Refusal::NoSwap => "9 no swap to reserve",
    }
}

// A name of `virsh dommemstat`, and its number.
#[tactic(auto, unfolding(crate::specs::Lines::number_line))]
fn push_number(text: &mut String, name: &str, number: u64) -> Result<(), AllocError>
    ensures { OnOk result (string_bytes text.new ≡ string_bytes text.old ++ number_line name.now number) }
{
    text.push_str(name)?;
    push_last_number(text, number)
}

// A count, if the driver told it.
fn push_count(text: &mut String, name: &str, count: Option<u64>) -> Result<(), AllocError>
    ensures { OnOk result (string_bytes text.new ≡ string_bytes text.old ++ count_line name.now count) }
{
    match count {
        Some(count) => push_number(text, name, count),
        None => Ok(()),
    }
}

// A number of bytes in KiB, rounded down, if the driver told it.
fn push_memory(text: &mut String, name: &str, bytes: Option<u64>) -> Result<(), AllocError>
    ensures { OnOk result (string_bytes text.new ≡ string_bytes text.old ++ memory_line name.now bytes) }
{
    match bytes {
        Some(bytes) => push_number(text, name, bytes / 1024),
        None => Ok(()),
    }
}

// What the driver told of swapping and of faults.
#[tactic(auto, unfolding(crate::specs::Lines::fault_lines))]
fn push_faults(text: &mut String, stats: &Stats) -> Result<(), AllocError>
    ensures { OnOk result (string_bytes text.new ≡ string_bytes text.old ++ fault_lines stats.now) }
{
    push_memory(text, "swap_in", stats.swap_in)?;
    push_memory(text, "swap_out", stats.swap_out)?;
    push_count(text, "major_fault", stats.major_faults)?;
    push_count(text, "minor_fault", stats.minor_faults)
}

// What the driver told of memory.
#[tactic(auto, unfolding(crate::specs::Lines::memory_lines))]
fn push_memories(text: &mut String, stats: &Stats) -> Result<(), AllocError>
    ensures { OnOk result (string_bytes text.new ≡ string_bytes text.old ++ memory_lines stats.now) }
{
    push_memory(text, "unused", stats.free)?;
    push_memory(text, "available", stats.total)?;
    push_memory(text, "usable", stats.available)
}

// What `virsh dommemstat` prints.
#[tactic(auto, unfolding(crate::specs::Lines::statistics_lines))]
fn push_statistics(text: &mut String, shown: &DomainStatistics) -> Result<(), AllocError>
    ensures { OnOk result (string_bytes text.new ≡ string_bytes text.old ++ statistics_lines shown.now) }
{
    push_number(text, "actual", shown.actual)?;
    push_faults(text, &shown.stats)?;
    push_memories(text, &shown.stats)?;
    push_number(text, "rss", shown.rss)
}

// What became of a line.
#[tactic(auto, unfolding(crate::specs::Lines::outcome_lines))]
pub(crate) fn push_outcome(text: &mut String, outcome: Outcome) -> Result<(), AllocError>
    ensures { OnOk result (string_bytes text.new ≡ string_bytes text.old ++ outcome_lines outcome) }
{
    match outcome {
        Outcome::Done => text.push_str("ok\n"),
        Outcome::Refused(refusal) => {
            let words = refusal_words(refusal);
            writeln!(text, "error {words}")
        }
        Outcome::Shown(shown) => push_statistics(text, &shown),
    }
}

// A command line, as it was given.
#[tactic(auto, unfolding(crate::specs::Lines::command_line))]
pub(crate) fn push_command(text: &mut String, line: &str) -> Result<(), AllocError>
    ensures { OnOk result (string_bytes text.new ≡ string_bytes text.old ++ command_line line.now) }
{
    writeln!(text, "> {line}")
}

// ---- what happens to guests in a boundary

// What happens, the guest, and how often.
#[tactic(auto, unfolding(crate::specs::Lines::move_line))]
pub(crate) fn push_move(
    text: &mut String,
    word: &str,
    name: &str,
    count: u32,
) -> Result<(), AllocError>
    ensures { OnOk result (string_bytes text.new ≡ string_bytes text.old ++ move_line word.now name.now count) }
{
    text.push_str(word)?;
    text.push_str(" ")?;
    text.push_str(name)?;
    push_last_number(text, u64::from(count))
}

// A guest that is blocked.
#[tactic(auto, unfolding(crate::specs::Lines::block_line))]
pub(crate) fn push_block(text: &mut String, name: &str) -> Result<(), AllocError>
    ensures { OnOk result (string_bytes text.new ≡ string_bytes text.old ++ block_line name.now) }
{
    writeln!(text, "block {name}")
}

// ---- the machine's state

// The machine's state, and its free frames.
#[tactic(auto, unfolding(crate::specs::Lines::state_line))]
pub(crate) fn push_state(text: &mut String, state: State, free: u32) -> Result<(), AllocError>
    ensures { OnOk result (string_bytes text.new ≡ string_bytes text.old ++ state_line state free) }
{
    let word = state.as_str();
    writeln!(text, "state {word} free {free}")
}

// ---- reads

// All reads of a guest. It stands out of line, since most guests have none in most epochs.
#[inline(never)]
pub(crate) fn push_reads(
    text: &mut String,
    name: &str,
    reads: &[PageRead],
) -> Result<(), AllocError>
    ensures { OnOk result (string_bytes text.new
        ≡ string_bytes text.old ++ flat_map (read_line name.now) reads.now) }
{
    for read in reads {
        push_read(text, name, read)?;
    }
    Ok(())
}

// A stall: the guest, and the page on which it stalled.
#[tactic(auto, unfolding(crate::specs::Lines::stall_line))]
#[inline(never)]
pub(crate) fn push_stall(text: &mut String, name: &str, page: u32) -> Result<(), AllocError>
    ensures { OnOk result (string_bytes text.new ≡ string_bytes text.old ++ stall_line name.now page) }
{
    text.push_str(name)?;
    text.push_str(" stall")?;
    push_last_number(text, u64::from(page))
}

// ---- the end

// A guest at the end of a run.
#[tactic(auto, unfolding(crate::specs::Lines::guest_line))]
pub(crate) fn push_guest(text: &mut String, name: &str, view: &GuestView) -> Result<(), AllocError>
    ensures { OnOk result (string_bytes text.new ≡ string_bytes text.old ++ guest_line name.now view.now) }
{
    let target = view.target;
    let held = view.held;
    let swapped = view.swapped;
    let balloon = view.balloon;
    let active = view.active;
    let bad = view.bad;
    let done = view.done;
    write!(
        text,
        "{name} target {target} held {held} swapped {swapped} balloon {balloon}"
    )?;
    writeln!(text, " active {active} bad {bad} done {done}")
}
