//! The names of the curves: what differs among the combinations.
ghost use Rattle.std.specs.Prelude.{◌≡◌, ◌==◌, ◌++◌, IfOk, OnOk, map, not, option_copied, string_bytes};
ghost use Rattle.std.specs.List.{list_any, range_with_len};
ghost use Rattle.std.specs.Option.{option_map};
ghost use Rattle.vm_sweep.specs.CurveNames.{curve_name, curve_names, differs, name_among, name_in, named, part_words, parts_of, value_among, value_in, value_of, words_among, words_of};

use crate::lists::{GuestList, Lists};
use crate::variant::{Variant, percent_of};
use std::alloc::{AllocError, Global};
use vm_lists::{ShownValue, Unit};
use vm_variants::GuestValue;

/// A part of a combination.
#[derive(Clone, Copy)]
pub(crate) enum Part {
    /// Pages of the swap area.
    Swap,
    /// The tax on idle memory.
    Tax,
    /// The most frames that a guest gives up by paging in a boundary.
    PageRate,
    /// The most pages that a boundary moves from guest to guest.
    Rebalance,
    /// The percentage of its size that each guest has as its minimum.
    Percent,
    /// The minimum of the guest of the list of minimums with this number.
    Minimum(usize),
    /// The shares of the guest of the list of shares with this number.
    Shares(usize),
}

const FIRST_PARTS: [Part; 5] = [
    Part::Swap,
    Part::Tax,
    Part::PageRate,
    Part::Rebalance,
    Part::Percent,
];

// ---- parts

// The parts of minimums behind the others.
fn push_minimums(parts: &mut Vec<Part>, count: usize) -> Result<(), AllocError>
    ensures { OnOk result (parts.new.items ≡ parts.old.items ++ map Part.Minimum (range_with_len 0 count)) }
{
    for number in 0..count {
        parts.push(Part::Minimum(number))?;
    }
    Ok(())
}

// The parts of shares behind the others.
fn push_shares(parts: &mut Vec<Part>, count: usize) -> Result<(), AllocError>
    ensures { OnOk result (parts.new.items ≡ parts.old.items ++ map Part.Shares (range_with_len 0 count)) }
{
    for number in 0..count {
        parts.push(Part::Shares(number))?;
    }
    Ok(())
}

// The parts of a combination that lists of values make, in the order of the loops.
fn parts_of(alloc: Global, lists: &Lists) -> Result<Vec<Part>, AllocError>
    ensures { IfOk result (λ parts. parts.items ≡ parts_of lists.now) }
{
    let mut parts = Vec::from_slice(alloc, &FIRST_PARTS)?;
    push_minimums(&mut parts, lists.minimums().len())?;
    push_shares(&mut parts, lists.shares().len())?;
    Ok(parts)
}

fn value_among(guest: Option<&GuestValue>) -> u32
    ensures { result ≡ value_among (option_copied guest.entry) }
{
    match guest {
        Some(guest) => guest.value,
        None => 0,
    }
}

// The value with this number.
fn value_in(values: &[GuestValue], number: usize) -> u32
    ensures { result ≡ value_in values.now number }
{
    value_among(values.get(number))
}

fn value_of(part: Part, variant: &Variant) -> u32
    ensures { result ≡ value_of part variant.now }
{
    match part {
        Part::Swap => variant.combination.swap,
        Part::Tax => variant.combination.tax,
        Part::PageRate => variant.combination.page_rate,
        Part::Rebalance => variant.combination.rebalance,
        Part::Percent => percent_of(&variant.changes).unwrap_or(0),
        Part::Minimum(number) => value_in(&variant.changes.minimums, number),
        Part::Shares(number) => value_in(&variant.changes.shares, number),
    }
}

fn name_among(list: Option<&GuestList>) -> &str
    ensures { result.now ≡ name_among (option_map (λ l. l.now) list.entry) }
{
    match list {
        Some(list) => list.name(),
        None => "",
    }
}

// The name of the guest of the list with this number.
fn name_in(lists: &[GuestList], number: usize) -> &str
    ensures { result.now ≡ name_in lists.now number }
{
    name_among(lists.get(number))
}

// A part and its value.
#[tactic(auto, unfolding(crate::specs::CurveNames::part_words))]
fn part_words(alloc: Global, lists: &Lists, part: Part, value: u32) -> Result<String, AllocError>
    ensures { IfOk result (λ words. string_bytes words ≡ part_words lists.now part value) }
{
    match part {
        Part::Swap => format!(in alloc; "swap {value}"),
        Part::Tax => {
            let percent = ShownValue::new(Unit::Hundredths, value);
            format!(in alloc; "tax {percent}")
        }
        Part::PageRate => format!(in alloc; "page rate {value}"),
        Part::Rebalance => format!(in alloc; "rebalance {value}"),
        Part::Percent => format!(in alloc; "min {value}%"),
        Part::Minimum(number) => {
            let name = name_in(lists.minimums(), number);
            format!(in alloc; "min {name} {value}")
        }
        Part::Shares(number) => {
            let name = name_in(lists.shares(), number);
            format!(in alloc; "shares {name} {value}")
        }
    }
}

// ---- names

// Whether any combination has another value than this one.
fn any_other(part: Part, value: u32, combinations: &[Variant]) -> bool
    ensures { result ≡ list_any (λ v. not (value_of part v == value)) combinations.now }
{
    combinations
        .iter()
        .any(|variant| value_of(part, variant) != value)
}

// Whether a part is not the same in all combinations.
fn differs(part: Part, combinations: &[Variant]) -> bool
    ensures { result ≡ differs combinations.now part }
{
    match combinations.first() {
        Some(first) => any_other(part, value_of(part, first), combinations),
        None => false,
    }
}

// Those of these parts that differ, each with its value in a combination.
fn words_among(
    alloc: Global,
    lists: &Lists,
    parts: &[Part],
    combinations: &[Variant],
    variant: &Variant,
) -> Result<Vec<String>, AllocError>
    ensures { IfOk result (λ words. map string_bytes words.items ≡ words_among lists.now parts.now combinations.now variant.now) }
{
    let mut words = Vec::new(alloc);
    for part in parts {
        if differs(*part, combinations) {
            let value = value_of(*part, variant);
            words.push(part_words(alloc, lists, *part, value)?)?;
        }
    }
    Ok(words)
}

// The parts that differ, each with its value in a combination.
fn words_of(
    alloc: Global,
    lists: &Lists,
    combinations: &[Variant],
    variant: &Variant,
) -> Result<Vec<String>, AllocError>
    ensures { IfOk result (λ words. map string_bytes words.items ≡ words_of lists.now combinations.now variant.now) }
{
    let parts = parts_of(alloc, lists)?;
    words_among(alloc, lists, &parts, combinations, variant)
}

fn named(alloc: Global, words: &[String]) -> Result<String, AllocError>
    ensures { IfOk result (λ name. string_bytes name ≡ named (map string_bytes words.now)) }
{
    if words.is_empty() {
        String::from_str(alloc, "all")
    } else {
        words.join(alloc, ", ")
    }
}

// The name of a combination among others.
fn curve_name(
    alloc: Global,
    lists: &Lists,
    combinations: &[Variant],
    variant: &Variant,
) -> Result<String, AllocError>
    ensures { IfOk result (λ name. string_bytes name ≡ curve_name lists.now combinations.now variant.now) }
{
    let words = words_of(alloc, lists, combinations, variant)?;
    named(alloc, words.as_slice())
}

/// The names of combinations that lists of values make: what differs among them.
pub(crate) fn curve_names(
    alloc: Global,
    lists: &Lists,
    combinations: &[Variant],
) -> Result<Vec<String>, AllocError>
    ensures { IfOk result (λ names. map string_bytes names.items ≡ curve_names lists.now combinations.now) }
{
    let mut names = Vec::new(alloc);
    for variant in combinations {
        names.push(curve_name(alloc, lists, combinations, variant)?)?;
    }
    Ok(names)
}
