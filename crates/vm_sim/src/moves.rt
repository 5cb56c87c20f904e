// The lines of what happens to guests in a boundary, who are named by their positions.
ghost use Rattle.std.specs.Prelude.{◌≡◌, ◌++◌, OnOk, codes, string_bytes};
ghost use Rattle.std.specs.List.{flat_map};
ghost use Rattle.vm_sim.specs.Lines.{move_line};
ghost use Rattle.vm_sim.specs.Report.{answer_lines, block_line_at, move_lines, name_at, page_line, stretch_line};

use crate::lines::{push_block, push_command, push_move, push_outcome};
use std::alloc::AllocError;
use vm_host::{Answer, Host, Paged, Plan};
use vm_plan::Stretch;

// What happens to the guest at a position, and how often.
fn push_move_at(
    text: &mut String,
    word: &str,
    host: &Host,
    position: u32,
    count: u32,
) -> Result<(), AllocError>
    ensures { OnOk result (string_bytes text.new
        ≡ string_bytes text.old ++ move_line word.now (name_at host.now position) count) }
{
    let name = host.name(position as usize).unwrap_or("");
    push_move(text, word, name, count)
}

// What happens to the guest of a stretch.
fn push_stretch(
    text: &mut String,
    word: &str,
    host: &Host,
    stretch: Stretch,
) -> Result<(), AllocError>
    ensures { OnOk result (string_bytes text.new ≡ string_bytes text.old ++ stretch_line word.now host.now stretch) }
{
    push_move_at(text, word, host, stretch.position, stretch.count)
}

// A line for each of some stretches.
fn push_stretches(
    text: &mut String,
    word: &str,
    host: &Host,
    stretches: &[Stretch],
) -> Result<(), AllocError>
    ensures { OnOk result (string_bytes text.new
        ≡ string_bytes text.old ++ flat_map (stretch_line word.now host.now) stretches.now) }
{
    for stretch in stretches {
        push_stretch(text, word, host, *stretch)?;
    }
    Ok(())
}

// A line for each stretch of equal positions.
pub(crate) fn push_moves(
    text: &mut String,
    word: &str,
    host: &Host,
    plan: &Plan,
) -> Result<(), AllocError>
    ensures { OnOk result (string_bytes text.new ≡ string_bytes text.old ++ move_lines word.now host.now plan.now) }
{
    push_stretches(text, word, host, plan.stretches())
}

// A command line, the revocations that it needed, and what became of it.
#[tactic(auto, unfolding(crate::specs::Report::answer_lines))]
fn push_answer(text: &mut String, host: &Host, answer: &Answer) -> Result<(), AllocError>
    ensures { OnOk result (string_bytes text.new ≡ string_bytes text.old ++ answer_lines host.now answer.now) }
{
    push_command(text, answer.line())?;
    push_moves(text, "revoke", host, answer.revocations())?;
    push_outcome(text, answer.outcome())
}

// The answer to each line.
pub(crate) fn push_answers(
    text: &mut String,
    host: &Host,
    answers: &[Answer],
) -> Result<(), AllocError>
    ensures { OnOk result (string_bytes text.new
        ≡ string_bytes text.old ++ flat_map (answer_lines host.now) answers.now) }
{
    for answer in answers {
        push_answer(text, host, answer)?;
    }
    Ok(())
}

// A guest that gave up frames.
fn push_page(text: &mut String, host: &Host, paged: Paged) -> Result<(), AllocError>
    ensures { OnOk result (string_bytes text.new ≡ string_bytes text.old ++ page_line host.now paged) }
{
    push_move_at(text, "page", host, paged.position, paged.count)
}

// Each guest that gave up frames.
pub(crate) fn push_paged(text: &mut String, host: &Host, paging: &[Paged]) -> Result<(), AllocError>
    ensures { OnOk result (string_bytes text.new ≡ string_bytes text.old ++ flat_map (page_line host.now) paging.now) }
{
    for paged in paging {
        push_page(text, host, *paged)?;
    }
    Ok(())
}

// The guest at a position, which is blocked.
fn push_block_at(text: &mut String, host: &Host, position: u32) -> Result<(), AllocError>
    ensures { OnOk result (string_bytes text.new ≡ string_bytes text.old ++ block_line_at host.now position) }
{
    let name = host.name(position as usize).unwrap_or("");
    push_block(text, name)
}

// Each guest that is blocked.
pub(crate) fn push_blocked(
    text: &mut String,
    host: &Host,
    positions: &[u32],
) -> Result<(), AllocError>
    ensures { OnOk result (string_bytes text.new
        ≡ string_bytes text.old ++ flat_map (block_line_at host.now) positions.now) }
{
    for position in positions {
        push_block_at(text, host, *position)?;
    }
    Ok(())
}
