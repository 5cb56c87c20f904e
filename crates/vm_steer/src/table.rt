// The records of a sample's domains.
ghost use Rattle.std.specs.Prelude.{◌≡◌, ◌++◌, ◌∷◌, [], IfOk, OnOk, codes, decimal};
ghost use Rattle.vm_plan.specs.State.{state_word};
ghost use Rattle.vm_steer.specs.Table.{fate_fields, fields_behind, left_fields, order_field, records_of, row_fields, steered_fields, target_fields};
ghost use Rattle.vm_steer.specs.Text.{printed};

use crate::fate::{Fate, LeftDomain, SteeredDomain};
use crate::lines::{push_name, push_number};
use crate::told::{Entry, Told};
use std::alloc::{AllocError, Global};
use vm_plan::State;

fn push_field(text: &mut Vec<u8>, number: u64) -> Result<(), AllocError>
    ensures { OnOk result (text.new.items ≡ text.old.items ++ (codes "," ++ decimal number)) }
{
    text.extend_from_slice(b",")?;
    push_number(text, number)
}

// The KiB of an order, or nothing.
fn push_order(text: &mut Vec<u8>, order: Option<u64>) -> Result<(), AllocError>
    ensures { OnOk result (text.new.items ≡ text.old.items ++ (codes "," ++ order_field order)) }
{
    match order {
        Some(kib) => push_field(text, kib),
        None => text.extend_from_slice(b","),
    }
}

// A domain that is left alone: nothing stands behind the words of why.
fn push_left(text: &mut Vec<u8>, left: &LeftDomain) -> Result<(), AllocError>
    ensures { OnOk result (text.new.items ≡ text.old.items ++ fields_behind (left_fields left.now)) }
{
    push_field(text, left.held)?;
    text.extend_from_slice(b",")?;
    text.extend_from_slice(left.why.words().as_bytes())?;
    text.extend_from_slice(b",,,,,,,,\r\n")
}

// What the row of a steered domain was, and its order.
fn push_row(text: &mut Vec<u8>, steered: &SteeredDomain) -> Result<(), AllocError>
    ensures { OnOk result (text.new.items ≡ text.old.items ++ fields_behind (row_fields steered.now)) }
{
    push_field(text, u64::from(steered.demand))?;
    push_field(text, u64::from(steered.min))?;
    push_field(text, u64::from(steered.cap))?;
    push_field(text, u64::from(steered.shares))?;
    push_order(text, steered.order)?;
    text.extend_from_slice(b"\r\n")
}

// The same, behind its target and what it uses.
fn push_target(text: &mut Vec<u8>, steered: &SteeredDomain) -> Result<(), AllocError>
    ensures { OnOk result (text.new.items ≡ text.old.items ++ fields_behind (target_fields steered.now)) }
{
    push_field(text, u64::from(steered.remembered.target))?;
    push_field(text, u64::from(steered.used))?;
    push_field(text, u64::from(steered.active))?;
    push_row(text, steered)
}

// The same, behind what it holds, and nothing of why it would be left alone.
fn push_steered(text: &mut Vec<u8>, steered: &SteeredDomain) -> Result<(), AllocError>
    ensures { OnOk result (text.new.items ≡ text.old.items ++ fields_behind (steered_fields steered.now)) }
{
    push_field(text, u64::from(steered.remembered.held))?;
    text.extend_from_slice(b",")?;
    push_target(text, steered)
}

fn push_fate(text: &mut Vec<u8>, fate: &Fate) -> Result<(), AllocError>
    ensures { OnOk result (text.new.items ≡ text.old.items ++ fields_behind (fate_fields fate.now)) }
{
    match fate {
        Fate::Left(left) => push_left(text, left),
        Fate::Steered(steered) => push_steered(text, steered),
    }
}

// The fields that all records of a sample begin with.
fn head_of(alloc: Global, number: u64, state: State, free: u32) -> Result<Vec<u8>, AllocError>
    ensures { IfOk result (λ head. head.items ≡ decimal number ++ (codes "," ++ (state_word state ++ (codes "," ++ decimal free)))) }
{
    let mut head = Vec::new(alloc);
    push_number(&mut head, number)?;
    head.extend_from_slice(b",")?;
    head.extend_from_slice(state.as_str().as_bytes())?;
    push_field(&mut head, u64::from(free))?;
    Ok(head)
}

// The record of a domain.
fn push_record(text: &mut Vec<u8>, head: &[u8], entry: &Entry) -> Result<(), AllocError>
    ensures { OnOk result (text.new.items ≡ text.old.items ++ (head.now ++ fields_behind (printed entry.now.name ∷ fate_fields entry.now.fate))) }
{
    text.extend_from_slice(head)?;
    text.extend_from_slice(b",")?;
    push_name(text, &entry.name)?;
    push_fate(text, &entry.fate)
}

/// What is written of a good sample as a table, by what is told of it: a record for each domain, in order, of comma-separated values
/// (RFC 4180) with CR LF behind it. Samples count from 0.
///
/// | Field | Of a steered domain | Of one that is left alone |
/// |---|---|---|
/// | `sample` | the sample's number | the same |
/// | `state` | the host's state: `high`, `soft`, `hard` or `low` | the same |
/// | `free` | units that were free before anything was decided | the same |
/// | `domain` | its name | its name, or `-` where that is no guest's |
/// | `held` | units that it holds, without promises | the same |
/// | `left` | empty | why it is left alone: [`Why::words`](crate::Why::words) |
/// | `target` | units that it is meant to hold after all decisions | empty |
/// | `used` | units that it uses | empty |
/// | `active` | its active fraction, of 65536 | empty |
/// | `demand` | units that it wanted beyond its target before the decisions | empty |
/// | `min` | units that it is left at least | empty |
/// | `cap` | units that it has at most | empty |
/// | `shares` | its shares of memory | empty |
/// | `order` | the KiB of its `setmem`, or empty | empty |
///
/// No field needs quotes: a guest's name has letters, digits, `_`, `.` and `-`, and the words have none of a comma, a quote and the ends of
/// lines.
#[tactic(auto, unfolding(crate::specs::Table::records_of))]
pub fn records_of(alloc: Global, number: u64, told: &Told) -> Result<Vec<u8>, AllocError>
    ensures { IfOk result (λ text. text.items ≡ records_of number told.now) }
{
    let head = head_of(alloc, number, told.state, told.free)?;
    let mut text = Vec::new(alloc);
    for entry in &told.domains {
        push_record(&mut text, &head, entry)?;
    }
    Ok(text)
}
