//! The headings of the columns behind those of the five settings.
ghost use Rattle.std.specs.Prelude.{◌≡◌, ◌++◌, IfOk, OnOk, codes, map, string_bytes};
ghost use Rattle.std.specs.Option.{option_map};
ghost use Rattle.vm_sweep.specs.Combinations.{headings, listed};

use crate::lists::{GuestList, Lists};
use std::alloc::{AllocError, Global};

// A heading behind the others, if there is one.
fn push_listed(
    alloc: Global,
    headings: &mut Vec<String>,
    heading: Option<&str>,
) -> Result<(), AllocError>
    ensures { OnOk result (map string_bytes headings.new.items
        ≡ map string_bytes headings.old.items ++ listed (option_map (λ h. h.now) heading.entry)) }
{
    if let Some(heading) = heading {
        headings.push(String::from_str(alloc, heading)?)?;
    }
    Ok(())
}

// A word, and the name of a guest.
fn named(alloc: Global, word: &str, list: &GuestList) -> Result<String, AllocError>
    ensures { IfOk result (λ heading. string_bytes heading ≡ word.now ++ list.now.name) }
{
    let name = list.name();
    format!(in alloc; "{word}{name}")
}

// A heading for each list.
fn push_each(
    alloc: Global,
    headings: &mut Vec<String>,
    word: &str,
    lists: &[GuestList],
) -> Result<(), AllocError>
    ensures { OnOk result (map string_bytes headings.new.items
        ≡ map string_bytes headings.old.items ++ map (λ l. word.now ++ l.name) lists.now) }
{
    for list in lists {
        headings.push(named(alloc, word, list)?)?;
    }
    Ok(())
}

// The heading of percentages, if there is a list of them.
fn percent_heading(lists: &Lists) -> Option<&'static str>
    ensures { option_map (λ h. h.now) result ≡ option_map (λ _. codes "min_percent") lists.now.min_percent }
{
    match lists.min_percent() {
        Some(_) => Some("min_percent"),
        None => None,
    }
}

// The heading of seeds, if it is said how many there are.
fn seed_heading(lists: &Lists) -> Option<&'static str>
    ensures { option_map (λ h. h.now) result ≡ option_map (λ _. codes "seed") lists.now.seeds }
{
    match lists.seeds() {
        Some(_) => Some("seed"),
        None => None,
    }
}

/// A heading for each list that isn't of a setting of the machine, in the order of the loops.
#[tactic(auto, unfolding(crate::specs::Combinations::headings))]
pub(crate) fn headings(alloc: Global, lists: &Lists) -> Result<Vec<String>, AllocError>
    ensures { IfOk result (λ made. map string_bytes made.items ≡ headings lists.now) }
{
    let mut headings = Vec::new(alloc);
    push_listed(alloc, &mut headings, percent_heading(lists))?;
    push_each(alloc, &mut headings, "min ", lists.minimums())?;
    push_each(alloc, &mut headings, "shares ", lists.shares())?;
    push_listed(alloc, &mut headings, seed_heading(lists))?;
    Ok(headings)
}
