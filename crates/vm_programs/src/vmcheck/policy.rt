//! What is told of a policy.
ghost use Rattle.std.specs.Prelude.{◌≡◌, ◌++◌, Err, IfOk, OnOk, fold, length, map, true};
ghost use Rattle.std.specs.Io.KnownBytes.{Appends, Keeps};
ghost use Rattle.vm_check.specs.Report.{text_of_lines};
ghost use Rattle.vm_check.specs.declared.check_error.CheckError.TheVariants.{Memory, Write};
ghost use Rattle.vm_policy_check.specs.Findings.{found_of};
ghost use Rattle.vm_policy_check.specs.Texts.{text_of};
ghost use Rattle.vm_programs.specs.vmcheck.Written.{policy_lines, with_line};
ghost use Rattle.vm_streams.specs.Streams.{AppendsFront, NewlyFailed};

use std::alloc::{AllocError, Global};
use vm_check::CheckError;
use vm_json::Scratch;
use vm_policy_check::{Finding, check_policy};
use vm_streams::{Sink, write_text};

// Adds a line.
fn push_line(lines: &mut Vec<u8>, line: &str) -> Result<(), AllocError>
    ensures { OnOk result (lines.new.items ≡ with_line lines.old.items line.now) }
{
    lines.extend_from_slice(line.as_bytes())?;
    lines.push(b'\n')?;
    Ok(())
}

// Adds a line for each finding.
fn push_lines(alloc: Global, lines: &mut Vec<u8>, found: &[Finding<'_>]) -> Result<(), AllocError>
    ensures { OnOk result (lines.new.items ≡ fold with_line lines.old.items (map text_of (map found_of found.now))) }
{
    for finding in found {
        let finding = *finding;
        let line = format!(in alloc; "{finding}")?;
        push_line(lines, line.as_str())?;
    }
    Ok(())
}

// The lines of the findings.
#[tactic(auto, using(crate::proofs::lemmas::vmcheck::Lines::lines_are))]
fn lines_of(alloc: Global, found: &[Finding<'_>]) -> Result<Vec<u8>, AllocError>
    ensures { IfOk result (λ lines. lines.items ≡ text_of_lines (map text_of (map found_of found.now))) }
{
    let mut lines = Vec::new(alloc);
    push_lines(alloc, &mut lines, found)?;
    Ok(lines)
}

// Writes what is wrong or surprising in the text of a policy, a line for each finding, and answers how many there are.
pub(crate) fn write_findings<W: Sink>(
    alloc: Global,
    text: &[u8],
    writer: &mut W,
) -> Result<usize, CheckError>
    ensures count { IfOk result (λ count. count ≡ length (policy_lines text.now)) }
    ensures written { OnOk result (Appends (W.contents writer.old) (W.contents writer.new) (text_of_lines (policy_lines text.now))) }
    ensures front { result ≡ Err Write → AppendsFront (W.contents writer.old) (W.contents writer.new) (text_of_lines (policy_lines text.now)) }
    ensures failed { result ≡ Err Write → W.has_failed writer.new ≡ true }
    ensures nothing { result ≡ Err Memory → Keeps (W.contents writer.old) (W.contents writer.new) }
    ensures writer_failed { NewlyFailed (W.has_failed writer.old) (W.has_failed writer.new) → result ≡ Err Write }
{
    let mut scratch = Scratch::new(alloc);
    let found = check_policy(alloc, text, &mut scratch)?;
    let lines = lines_of(alloc, &found)?;
    write_text(writer, &lines)?;
    Ok(found.len())
}
