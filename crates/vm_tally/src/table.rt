//! The table of a sweep, as comma-separated values.
ghost use Rattle.std.specs.Prelude.{◌≡◌, ◌++◌, IfOk, OnOk, map, string_bytes};
ghost use Rattle.std.specs.Fmt.{decimal};
ghost use Rattle.std.specs.List.{flat_map};
ghost use Rattle.vm_tally.specs.Table.{combination_text, end_of_record, field, header, number_field, numbers_from_blocked, numbers_to_granted, optional_field, record_text, run_columns, setting_columns, swept_field, values_text, yes_or_no};

use crate::combination::Combination;
use crate::summary::Summary;
use std::alloc::{AllocError, Global};
use vm_lists::{ShownValue, Unit};

/// Where the values of `rebalance` of a sweep's runs are from.
#[derive(Clone, Copy, Debug, PartialEq, Eq)]
pub enum Rebalancing {
    /// The configuration: all runs have its own value.
    Own,
    /// A list of values. A table has columns for rebalancing then: `rebalance`, and what came of it.
    Swept,
}

// The columns of the settings.
#[tactic(auto, unfolding(crate::specs::Table::setting_columns))]
fn setting_columns(rebalancing: Rebalancing) -> &'static str
    ensures { result.now ≡ setting_columns rebalancing }
{
    match rebalancing {
        Rebalancing::Own => "frames,swap,tax,page_rate",
        Rebalancing::Swept => "frames,swap,tax,page_rate,rebalance",
    }
}

// The columns of what came of a run, and the end.
#[tactic(auto, unfolding(crate::specs::Table::run_columns))]
fn run_columns(rebalancing: Rebalancing) -> &'static str
    ensures { result.now ≡ run_columns rebalancing }
{
    match rebalancing {
        Rebalancing::Own => {
            ",high,soft,hard,low,least_free,no_memory,no_swap,revoked,paged,evicted,granted,blocked,stalls,done,left,most_swapped,swapped,balloon,fits,worst\r\n"
        }
        Rebalancing::Swept => {
            ",high,soft,hard,low,least_free,no_memory,no_swap,revoked,paged,evicted,granted,rebalanced,blocked,stalls,done,left,most_swapped,swapped,balloon,fits,worst\r\n"
        }
    }
}

// A field for each heading.
fn push_headings(text: &mut String, headings: &[String]) -> Result<(), AllocError>
    ensures { OnOk result (string_bytes text.new ≡ string_bytes text.old ++ flat_map field (map string_bytes headings.now)) }
{
    for heading in headings {
        write!(text, ",{heading}")?;
    }
    Ok(())
}

// The columns of the settings, those under the headings, and these.
pub(crate) fn columns_text(
    alloc: Global,
    rebalancing: Rebalancing,
    headings: &[String],
    columns: &str,
) -> Result<String, AllocError>
    ensures { IfOk result (λ text. string_bytes text
        ≡ setting_columns rebalancing ++ (flat_map field (map string_bytes headings.now) ++ columns.now)) }
{
    let mut text = String::from_str(alloc, setting_columns(rebalancing))?;
    push_headings(&mut text, headings)?;
    text.push_str(columns)?;
    Ok(text)
}

/// The header of the table, with the end of its record. Further columns stand behind those of the settings, under these headings, none of
/// which needs quotes.
#[tactic(auto, unfolding(crate::specs::Table::header))]
pub fn header_text(
    alloc: Global,
    rebalancing: Rebalancing,
    headings: &[String],
) -> Result<String, AllocError>
    ensures { IfOk result (λ text. string_bytes text ≡ header rebalancing (map string_bytes headings.now)) }
{
    columns_text(alloc, rebalancing, headings, run_columns(rebalancing))
}

// A field with a number in a column of rebalancing, if it is there.
pub(crate) fn push_swept(
    text: &mut String,
    rebalancing: Rebalancing,
    number: u64,
) -> Result<(), AllocError>
    ensures { OnOk result (string_bytes text.new ≡ string_bytes text.old ++ swept_field rebalancing number) }
{
    match rebalancing {
        Rebalancing::Own => Ok(()),
        Rebalancing::Swept => write!(text, ",{number}"),
    }
}

// The fields of a combination.
#[tactic(auto, unfolding(crate::specs::Table::combination_text))]
fn combination_text(
    alloc: Global,
    rebalancing: Rebalancing,
    combination: &Combination,
) -> Result<String, AllocError>
    ensures { IfOk result (λ text. string_bytes text ≡ combination_text rebalancing combination.now) }
{
    let tax = ShownValue::new(Unit::Hundredths, combination.tax);
    let frames = combination.frames;
    let swap = combination.swap;
    let page_rate = combination.page_rate;
    let mut text = format!(in alloc; "{frames},{swap},{tax},{page_rate}")?;
    push_swept(&mut text, rebalancing, u64::from(combination.rebalance))?;
    Ok(text)
}

// A field for each number.
pub(crate) fn push_numbers(text: &mut String, numbers: &[u64]) -> Result<(), AllocError>
    ensures { OnOk result (string_bytes text.new ≡ string_bytes text.old ++ flat_map number_field numbers.now) }
{
    for number in numbers {
        write!(text, ",{number}")?;
    }
    Ok(())
}

// The fields of a combination, and a number for each further column.
#[tactic(auto, unfolding(crate::specs::Table::values_text))]
pub(crate) fn values_text(
    alloc: Global,
    rebalancing: Rebalancing,
    combination: &Combination,
    further: &[u64],
) -> Result<String, AllocError>
    ensures { IfOk result (λ text. string_bytes text ≡ values_text rebalancing combination.now further.now) }
{
    let mut text = combination_text(alloc, rebalancing, combination)?;
    push_numbers(&mut text, further)?;
    Ok(text)
}

// The numbers of a summary, in the order of their fields, up to what boundaries gave.
fn numbers_to_granted(s: &Summary) -> [u64; 11]
    ensures { result ≡ numbers_to_granted s.now }
{
    [
        s.high,
        s.soft,
        s.hard,
        s.low,
        s.least_free,
        s.no_memory,
        s.no_swap,
        s.revoked,
        s.paged,
        s.evicted,
        s.granted,
    ]
}

// Those behind.
fn numbers_from_blocked(s: &Summary) -> [u64; 7]
    ensures { result ≡ numbers_from_blocked s.now }
{
    [
        s.blocked,
        s.stalls,
        s.done,
        s.left,
        s.most_swapped,
        s.swapped,
        s.balloon,
    ]
}

fn yes_or_no(is_so: bool) -> &'static str
    ensures { result.now ≡ yes_or_no is_so }
{
    if is_so { "yes" } else { "no" }
}

// Whether all fits, the worst epoch, if there is one, and the end.
fn push_end(text: &mut String, fits: bool, worst: Option<u32>) -> Result<(), AllocError>
    ensures { OnOk result (string_bytes text.new ≡ string_bytes text.old
        ++ (field (yes_or_no fits) ++ (optional_field worst ++ end_of_record))) }
{
    let fits = yes_or_no(fits);
    match worst {
        Some(epoch) => write!(text, ",{fits},{epoch}\r\n"),
        None => write!(text, ",{fits},\r\n"),
    }
}

/// The record of a run, with its end. It has a number for each further column.
#[tactic(auto, unfolding(crate::specs::Table::record_text))]
pub fn record_text(
    alloc: Global,
    rebalancing: Rebalancing,
    combination: &Combination,
    further: &[u64],
    summary: &Summary,
) -> Result<String, AllocError>
    ensures { IfOk result (λ text. string_bytes text ≡ record_text rebalancing combination.now further.now summary.now) }
{
    let mut text = values_text(alloc, rebalancing, combination, further)?;
    push_numbers(&mut text, &numbers_to_granted(summary))?;
    push_swept(&mut text, rebalancing, summary.rebalanced)?;
    push_numbers(&mut text, &numbers_from_blocked(summary))?;
    push_end(&mut text, summary.fits(), summary.worst)?;
    Ok(text)
}
