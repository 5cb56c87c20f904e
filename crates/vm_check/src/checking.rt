// The findings of a text, line by line.
ghost use Rattle.std.specs.Prelude.{◌≡◌, Err, IfOk, Ok, OnOk, length, map, option_map, true};
ghost use Rattle.std.specs.Io.KnownBytes.{Appends, Keeps};
ghost use Rattle.json.specs.Value.{value_view};
ghost use Rattle.vm_streams.specs.Streams.{AppendsFront, NewlyFailed};
ghost use Rattle.vm_config.specs.Reading.{config_of};
ghost use Rattle.vm_check.specs.declared.check_error.CheckError.TheVariants.{Memory, Write};
ghost use Rattle.vm_check.specs.Check.{accepted_lines, findings_at, lines_in, lines_of, numbered_lines, odd_or_none, part_lines, refused_lines};
ghost use Rattle.vm_check.specs.Checked.{seen_of};
ghost use Rattle.vm_check.specs.Document.{tree_in};
ghost use Rattle.vm_check.specs.Report.{empty_report, text_of_lines, with_lines};
ghost use Rattle.vm_check.specs.Texts.{text_of};

use crate::check_error::CheckError;
use crate::checked::{Checked, command_findings_at, guest_findings, root_findings};
use crate::document::tree;
use crate::finding::Finding;
use crate::odd::push_odd_keys;
use crate::refused::refused_text;
use crate::report::Report;
use json::{Scratch, Value};
use std::alloc::{AllocError, Global};
use vm_config::{Config, Fault, Part, explain, read_config};
use vm_streams::{Sink, write_text};

// Adds a line for each finding.
fn push_findings(alloc: Global, report: &mut Report, findings: &[Finding]) -> Result<(), AllocError>
    ensures { OnOk result (report.new ≡ with_lines report.old (map text_of findings.now)) }
{
    for finding in findings {
        let finding = *finding;
        let line = format!(in alloc; "{finding}")?;
        report.push(line.as_str())?;
    }
    Ok(())
}

// What is found of a part.
fn findings_at(alloc: Global, checked: &Checked, part: Part) -> Result<Vec<Finding>, AllocError>
    ensures { IfOk result (λ found. found.items ≡ findings_at checked.now part) }
{
    match part {
        Part::Root => root_findings(alloc, checked),
        Part::Guest(number) => guest_findings(alloc, checked, number),
        Part::Command(number) => command_findings_at(alloc, checked, number),
    }
}

// Adds a line for each odd key of a part, where the text has it.
fn push_odd(
    alloc: Global,
    report: &mut Report,
    tree: Option<&Value<'_>>,
    part: Part,
) -> Result<(), AllocError>
    ensures { OnOk result (report.new ≡ with_lines report.old (odd_or_none (option_map (λ v. value_view v.now) tree.entry) part)) }
{
    match tree {
        Some(root) => push_odd_keys(alloc, report, root, part),
        None => Ok(()),
    }
}

// Adds the lines of a part.
#[tactic(auto, using(crate::proofs::ReportLemmas::two_then))]
fn push_part(
    alloc: Global,
    report: &mut Report,
    tree: Option<&Value<'_>>,
    checked: &Checked,
    part: Part,
) -> Result<(), AllocError>
    ensures { OnOk result (report.new ≡ with_lines report.old (part_lines (option_map (λ v. value_view v.now) tree.entry) checked.now part)) }
{
    push_odd(alloc, report, tree, part)?;
    let found = findings_at(alloc, checked, part)?;
    push_findings(alloc, report, &found)
}

// Adds the lines of the guests.
fn push_guests(
    alloc: Global,
    report: &mut Report,
    tree: Option<&Value<'_>>,
    checked: &Checked,
) -> Result<(), AllocError>
    ensures { OnOk result (report.new ≡ with_lines report.old (numbered_lines (λ number. part_lines (option_map (λ v. value_view v.now) tree.entry) checked.now (Part.Guest number)) 0 (length checked.now.configs))) }
{
    let guests = checked.guests();
    for number in 0..guests {
        push_part(alloc, report, tree, checked, Part::Guest(number))?;
    }
    Ok(())
}

// Adds the lines of the commands.
fn push_commands(
    alloc: Global,
    report: &mut Report,
    tree: Option<&Value<'_>>,
    checked: &Checked,
) -> Result<(), AllocError>
    ensures { OnOk result (report.new ≡ with_lines report.old (numbered_lines (λ number. part_lines (option_map (λ v. value_view v.now) tree.entry) checked.now (Part.Command number)) 0 (length checked.now.orders))) }
{
    let commands = checked.commands();
    for number in 0..commands {
        push_part(alloc, report, tree, checked, Part::Command(number))?;
    }
    Ok(())
}

// The lines of a configuration.
#[tactic(auto, using(crate::proofs::ReportLemmas::three_then))]
fn push_config(
    alloc: Global,
    report: &mut Report,
    tree: Option<&Value<'_>>,
    checked: &Checked,
) -> Result<(), AllocError>
    ensures { OnOk result (report.new ≡ with_lines report.old (lines_of (option_map (λ v. value_view v.now) tree.entry) checked.now)) }
{
    push_part(alloc, report, tree, checked, Part::Root)?;
    push_guests(alloc, report, tree, checked)?;
    push_commands(alloc, report, tree, checked)
}

// The configuration that a text means.
fn config_of(alloc: Global, text: &[u8]) -> Result<Config, AllocError>
    ensures { IfOk result (λ config. config_of text.now ≡ Ok config) }
{
    match read_config(alloc, text) {
        Ok(config) => Ok(config),
        Err(_) => Err(AllocError),
    }
}

// The lines of a text that is this configuration.
fn configured(alloc: Global, text: &[u8], config: Config) -> Result<Report, AllocError>
    ensures { IfOk result (λ report. report ≡ with_lines empty_report (lines_of (tree_in text.now) (seen_of config))) }
{
    let checked = Checked::new(alloc, config)?;
    let mut scratch = Scratch::new(alloc);
    let tree = tree(alloc, text, &mut scratch)?;
    let mut report = Report::new(alloc);
    push_config(alloc, &mut report, tree.as_ref(), &checked)?;
    Ok(report)
}

// The lines of a text that is a configuration.
fn accepted(alloc: Global, text: &[u8]) -> Result<Report, AllocError>
    ensures { IfOk result (λ report. report ≡ with_lines empty_report (accepted_lines text.now)) }
{
    let config = config_of(alloc, text)?;
    configured(alloc, text, config)
}

// The line of a text that is none.
fn refused(alloc: Global, text: &[u8], fault: Fault) -> Result<Report, AllocError>
    ensures { IfOk result (λ report. report ≡ with_lines empty_report (refused_lines text.now fault)) }
{
    let mut scratch = Scratch::new(alloc);
    let tree = tree(alloc, text, &mut scratch)?;
    let line = refused_text(alloc, tree.as_ref(), fault)?;
    let mut report = Report::new(alloc);
    report.push(line.as_str())?;
    Ok(report)
}

// The lines of a text.
fn report_of(alloc: Global, text: &[u8]) -> Result<Report, AllocError>
    ensures { IfOk result (λ report. report ≡ with_lines empty_report (lines_in text.now)) }
{
    match explain(alloc, text)? {
        Some(fault) => refused(alloc, text, fault),
        None => accepted(alloc, text),
    }
}

/// Writes what is wrong or surprising in a configuration text, a line for each finding, and answers how many there are.
///
/// A text that is refused has one finding: the first fault of [`explain`], of a number out of its range with that range. Else come
/// the findings of the root, guest by guest, and command by command. `specs/Check.antt` says which lines these are, and names the
/// definitions of each kind.
///
/// | Error | Cause | What was written |
/// |---|---|---|
/// | [`CheckError::Write`] | the writer failed | a front of the lines |
/// | [`CheckError::Memory`] | memory was refused | nothing |
#[tactic(auto, using(crate::proofs::ReportLemmas::text_is, crate::proofs::ReportLemmas::count_is))]
pub fn check<W: Sink>(alloc: Global, text: &[u8], writer: &mut W) -> Result<usize, CheckError>
    ensures count { IfOk result (λ count. count ≡ length (lines_in text.now)) }
    ensures written { OnOk result (Appends (W.contents writer.old) (W.contents writer.new) (text_of_lines (lines_in text.now))) }
    ensures front { result ≡ Err Write → AppendsFront (W.contents writer.old) (W.contents writer.new) (text_of_lines (lines_in text.now)) }
    ensures failed { result ≡ Err Write → W.has_failed writer.new ≡ true }
    ensures nothing { result ≡ Err Memory → Keeps (W.contents writer.old) (W.contents writer.new) }
    ensures writer_failed { NewlyFailed (W.has_failed writer.old) (W.has_failed writer.new) → result ≡ Err Write }
{
    let report = report_of(alloc, text)?;
    write_text(writer, report.text())?;
    Ok(report.count())
}
