// The report, piece by piece.
ghost use Rattle.std.specs.Prelude.{◌≡◌, ◌++◌, IfOk, OnOk, codes, string_bytes};
ghost use Rattle.vm_sim.specs.Report.{boundary_text, end_text, epoch_text, lines_at_end, machine_line, reads_at, shown_at, stall_at};

use crate::lines::{push_guest, push_reads, push_stall, push_state};
use crate::moves::{push_answers, push_blocked, push_moves, push_paged};
use std::alloc::{AllocError, Global};
use vm_host::{Boundary, Host};

/// What a boundary before epoch `number` did, in lines:
///
/// ```text
/// epoch NUMBER
/// > LINE                    for each command, and then its answer:
/// revoke NAME COUNT         for each guest whose target fell to make room for it
/// ok                        or `error N TEXT`, or the lines of `virsh dommemstat`
/// state STATE free FRAMES
/// revoke NAME COUNT         for each guest whose target fell
/// page NAME COUNT           for each guest that gave up frames
/// grant NAME COUNT          for each guest whose target rose
/// rebalance NAME COUNT      for each guest whose target fell for guests that would pay more
/// block NAME                for each guest that waits
/// ```
///
/// `revoke`, `grant` and `rebalance` have a line for each run of equal positions, and COUNT is how many pages it has. FRAMES are those that were
/// free when the state was found. Positions are those of the host's domains.
#[tactic(auto, unfolding(crate::specs::Report::boundary_text))]
pub fn boundary_text(
    alloc: Global,
    number: u32,
    host: &Host,
    boundary: &Boundary,
) -> Result<String, AllocError>
    ensures { IfOk result (λ text. string_bytes text ≡ boundary_text number host.now boundary.now) }
{
    let mut text = format!(in alloc; "epoch {number}\n")?;
    push_answers(&mut text, host, boundary.answers.as_slice())?;
    push_state(&mut text, boundary.state, boundary.free)?;
    push_moves(&mut text, "revoke", host, &boundary.revoked)?;
    push_paged(&mut text, host, boundary.paged.as_slice())?;
    push_moves(&mut text, "grant", host, &boundary.granted)?;
    push_moves(&mut text, "rebalance", host, &boundary.rebalanced)?;
    push_blocked(&mut text, host, boundary.blocked.as_slice())?;
    Ok(text)
}

// The reads of the guest at a position, if one runs there.
fn push_reads_at(text: &mut String, host: &Host, position: usize) -> Result<(), AllocError>
    ensures { OnOk result (string_bytes text.new ≡ string_bytes text.old ++ reads_at host.now position) }
{
    let Some(reads) = host.reads(position) else {
        return Ok(());
    };
    if reads.is_empty() {
        return Ok(());
    }
    push_reads(text, host.name(position).unwrap_or(""), reads)
}

// The stall of the guest at a position, if there was one.
fn push_stall_at(text: &mut String, host: &Host, position: usize) -> Result<(), AllocError>
    ensures { OnOk result (string_bytes text.new ≡ string_bytes text.old ++ stall_at host.now position) }
{
    match host.stalled(position) {
        Some(page) => push_stall(text, host.name(position).unwrap_or(""), page),
        None => Ok(()),
    }
}

// What the guest at a position did, if one runs there.
fn push_shown_at(text: &mut String, host: &Host, position: usize) -> Result<(), AllocError>
    ensures { OnOk result (string_bytes text.new ≡ string_bytes text.old ++ shown_at host.now position) }
{
    push_reads_at(text, host, position)?;
    push_stall_at(text, host, position)
}

/// What the guests did in the epoch that the host has run last: for each running guest, in the order of the configuration, a line
/// `NAME r PAGE OFFSET BYTES` for each read in its order, with two hexadecimal digits in lower case for each byte, and then, if
/// it stalled in this epoch, a line `NAME stall PAGE`.
#[tactic(auto, unfolding(crate::specs::Report::epoch_text))]
#[inline(never)]
pub fn epoch_text(alloc: Global, host: &Host) -> Result<String, AllocError>
    ensures { IfOk result (λ text. string_bytes text ≡ epoch_text host.now) }
{
    let mut text = String::new(alloc);
    for position in 0..host.len() {
        push_shown_at(&mut text, host, position)?;
    }
    Ok(text)
}

// The guest at a position, if one runs there.
fn push_guest_at(text: &mut String, host: &Host, position: usize) -> Result<(), AllocError>
    ensures { OnOk result (string_bytes text.new ≡ string_bytes text.old ++ lines_at_end host.now position) }
{
    let name = host.name(position).unwrap_or("");
    match host.view(position) {
        Some(view) => push_guest(text, name, &view),
        None => Ok(()),
    }
}

// The machine's frames: those that guests hold, the free ones and those in overhead.
#[tactic(auto, unfolding(crate::specs::Report::machine_line))]
fn push_machine(text: &mut String, host: &Host) -> Result<(), AllocError>
    ensures { OnOk result (string_bytes text.new ≡ string_bytes text.old ++ machine_line host.now) }
{
    let frames = host.frames();
    let free = host.free();
    let overhead = host.overhead_frames();
    let held = frames - free - overhead;
    writeln!(
        text,
        "machine {frames} held {held} free {free} overhead {overhead}"
    )
}

/// The end of a run, in lines:
///
/// ```text
/// end
/// NAME target T held H swapped O balloon B active F bad X done D      for each running guest
/// machine N held H free F overhead O
/// ```
///
/// T and H are frames; O and B are pages, those in the swap area and those in the balloon; F is the active fraction in parts
/// of 65536 (Waldspurger, OSDI 2002, section 5.3); X are ignored items of balloon buffers, and D the steps executed. Of the
/// machine's N frames the guests hold H, F are free and O are in overhead.
#[tactic(auto, unfolding(crate::specs::Report::end_text))]
pub fn end_text(alloc: Global, host: &Host) -> Result<String, AllocError>
    ensures { IfOk result (λ text. string_bytes text ≡ end_text host.now) }
{
    let mut text = String::from_str(alloc, "end\n")?;
    for position in 0..host.len() {
        push_guest_at(&mut text, host, position)?;
    }
    push_machine(&mut text, host)?;
    Ok(text)
}
