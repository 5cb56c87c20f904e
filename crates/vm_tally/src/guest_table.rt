//! The table of a sweep guest by guest, as comma-separated values.
ghost use Rattle.std.specs.Prelude.{◌≡◌, ◌++◌, ◌∷◌, [], IfOk, OnOk, map, string_bytes};
ghost use Rattle.std.specs.List.{flat_map};
ghost use Rattle.std.specs.Option.{option_map};
ghost use Rattle.vm_domains.specs.Domains.{names_of};
ghost use Rattle.vm_tally.specs.GuestTable.{guest_columns, guest_fields, guest_records, guests_header, name_at, numbers_from_blocked, numbers_to_granted};
ghost use Rattle.vm_tally.specs.Table.{end_of_record, field, optional_field, values_text};

use crate::combination::Combination;
use crate::guest_summary::{AtEnd, GuestSummary};
use crate::table::{Rebalancing, columns_text, push_numbers, push_swept, values_text};
use std::alloc::{AllocError, Global};
use std::mem;
use vm_config::Config;
use vm_domains::{Domains, Names};

// The columns of what came of a run for a guest, and the end.
#[tactic(auto, unfolding(crate::specs::GuestTable::guest_columns))]
fn guest_columns(rebalancing: Rebalancing) -> &'static str
    ensures { result.now ≡ guest_columns rebalancing }
{
    match rebalancing {
        Rebalancing::Own => {
            ",guest,epochs,revoked,paged,evicted,granted,blocked,stalls,done,left,most_swapped,target,held,swapped,balloon\r\n"
        }
        Rebalancing::Swept => {
            ",guest,epochs,revoked,paged,evicted,granted,rebalanced,blocked,stalls,done,left,most_swapped,target,held,swapped,balloon\r\n"
        }
    }
}

/// The header of the table, with the end of its record. Further columns stand behind those of the settings, as in the header of runs.
#[tactic(auto, unfolding(crate::specs::GuestTable::guests_header))]
pub fn guests_header_text(
    alloc: Global,
    rebalancing: Rebalancing,
    headings: &[String],
) -> Result<String, AllocError>
    ensures { IfOk result (λ text. string_bytes text ≡ guests_header rebalancing (map string_bytes headings.now)) }
{
    columns_text(alloc, rebalancing, headings, guest_columns(rebalancing))
}

/// The names of the guests of a configuration, in order, for [`guest_records_text`]. The configuration stays as it is.
pub fn guest_names(alloc: Global, config: &mut Config) -> Result<Names, AllocError>
    ensures names { IfOk result (λ names. names ≡ names_of config.old.domains) }
    ensures unchanged { config.new ≡ config.old }
{
    let domains = mem::replace(&mut config.domains, Domains::new(alloc));
    let (names, specs) = domains.into_parts();
    let copy: Result<Names, AllocError> = names.clone();
    config.domains = Domains::from_parts(names, specs);
    copy
}

// A field with a number, or an empty one.
fn push_optional(text: &mut String, number: Option<u64>) -> Result<(), AllocError>
    ensures { OnOk result (string_bytes text.new ≡ string_bytes text.old ++ optional_field number) }
{
    match number {
        Some(number) => write!(text, ",{number}"),
        None => text.push_str(","),
    }
}

// A field for each number, or an empty one.
fn push_optionals(text: &mut String, numbers: &[Option<u64>]) -> Result<(), AllocError>
    ensures { OnOk result (string_bytes text.new ≡ string_bytes text.old ++ flat_map optional_field numbers.now) }
{
    for number in numbers {
        push_optional(text, *number)?;
    }
    Ok(())
}

// The numbers of a guest at the end, or none: the steps that are left, and then those of its memory.
fn numbers_at_end(at_end: Option<AtEnd>) -> [Option<u64>; 5]
    ensures { result ≡ option_map (λ e. e.left) at_end ∷ option_map (λ e. e.target) at_end ∷ option_map (λ e. e.held) at_end
        ∷ option_map (λ e. e.swapped) at_end ∷ option_map (λ e. e.balloon) at_end ∷ [] }
{
    match at_end {
        Some(end) => [
            Some(end.left),
            Some(u64::from(end.target)),
            Some(u64::from(end.held)),
            Some(u64::from(end.swapped)),
            Some(u64::from(end.balloon)),
        ],
        None => [None; 5],
    }
}

// The numbers of a guest, in the order of their fields, up to what boundaries gave.
fn numbers_to_granted(s: &GuestSummary) -> [u64; 5]
    ensures { result ≡ numbers_to_granted s.now }
{
    [s.epochs, s.revoked, s.paged, s.evicted, s.granted]
}

// Those behind.
#[tactic(auto, unfolding(crate::specs::GuestTable::numbers_from_blocked))]
fn numbers_from_blocked(s: &GuestSummary) -> [Option<u64>; 9]
    ensures { result ≡ numbers_from_blocked s.now }
{
    let [left, target, held, swapped, balloon] = numbers_at_end(s.at_end);
    [
        Some(s.blocked),
        Some(s.stalls),
        Some(s.done),
        left,
        Some(s.most_swapped),
        target,
        held,
        swapped,
        balloon,
    ]
}

// The fields of the numbers of a guest.
fn push_fields(
    text: &mut String,
    rebalancing: Rebalancing,
    summary: &GuestSummary,
) -> Result<(), AllocError>
    ensures { OnOk result (string_bytes text.new ≡ string_bytes text.old ++ guest_fields rebalancing summary.now) }
{
    push_numbers(text, &numbers_to_granted(summary))?;
    push_swept(text, rebalancing, summary.rebalanced)?;
    push_optionals(text, &numbers_from_blocked(summary))?;
    Ok(())
}

// The record of a guest, behind the fields of the combination.
fn push_record(
    text: &mut String,
    rebalancing: Rebalancing,
    front: &str,
    name: &str,
    summary: &GuestSummary,
) -> Result<(), AllocError>
    ensures { OnOk result (string_bytes text.new ≡ string_bytes text.old
        ++ (front.now ++ (field name.now ++ (guest_fields rebalancing summary.now ++ end_of_record)))) }
{
    write!(text, "{front},{name}")?;
    push_fields(text, rebalancing, summary)?;
    text.push_str("\r\n")?;
    Ok(())
}

// The name at a position.
fn name_at(names: &Names, position: usize) -> &str
    ensures { result.now ≡ name_at names.now position }
{
    names.get(position).unwrap_or("")
}

/// The records of a run, one for each guest, in order, each with its end and a number for each further column. The names are those of the configuration that was run, as
/// [`guest_names`] gives them. None of them needs quotes.
pub fn guest_records_text(
    alloc: Global,
    rebalancing: Rebalancing,
    combination: &Combination,
    further: &[u64],
    names: &Names,
    summaries: &[GuestSummary],
) -> Result<String, AllocError>
    ensures { IfOk result (λ text. string_bytes text ≡ guest_records rebalancing combination.now further.now names.now summaries.now) }
{
    let front = values_text(alloc, rebalancing, combination, further)?;
    let mut text = String::new(alloc);
    for (position, summary) in summaries.iter().enumerate() {
        let name = name_at(names, position);
        push_record(&mut text, rebalancing, &front, name, summary)?;
    }
    Ok(text)
}
