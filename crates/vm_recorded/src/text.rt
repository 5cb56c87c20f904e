//! The configuration text of a recorded host.
ghost use Rattle.std.specs.Prelude.{◌≡◌, ◌≤◌, ◌++◌, IfOk, OnOk, length};
ghost use Rattle.vm_recorded.specs.Hosts.{quantum_for, swap_for};
ghost use Rattle.vm_recorded.specs.Pieces.{head_with, percents_of, rules_of, text_with};
ghost use Rattle.vm_recorded.specs.Texts.{text_of};

use crate::commands::push_commands;
use crate::guests::{push_guests, push_labelled, quantum_for, swap_for};
use crate::host::RecordedHost;
use std::alloc::{AllocError, Global};
use vm_plan::Percents;
use vm_samples::Policy;

// Adds the parts of memory that are meant to be free.
#[tactic(auto, unfolding(crate::specs::Pieces::percents_of))]
fn push_percents(text: &mut Vec<u8>, percents: Percents) -> Result<(), AllocError>
    ensures { OnOk result (text.new.items ≡ text.old.items ++ percents_of percents) }
{
    push_labelled(text, b",\"percent\":[", u64::from(percents.high))?;
    push_labelled(text, b",", u64::from(percents.soft))?;
    push_labelled(text, b",", u64::from(percents.hard))?;
    push_labelled(text, b",", u64::from(percents.low))
}

// Adds what the policy says.
#[tactic(auto, unfolding(crate::specs::Pieces::rules_of))]
fn push_rules(text: &mut Vec<u8>, policy: &Policy) -> Result<(), AllocError>
    ensures { OnOk result (text.new.items ≡ text.old.items ++ rules_of policy.now) }
{
    push_labelled(text, b",\"overhead\":", u64::from(policy.overhead))?;
    push_labelled(text, b",\"tax\":", u64::from(policy.tax))?;
    push_percents(text, policy.percents)?;
    push_labelled(text, b"],\"page_rate\":", u64::from(policy.rate.min(256)))?;
    push_labelled(text, b",\"rebalance\":", u64::from(policy.rebalance))?;
    push_labelled(text, b",\"page\":", u64::from(policy.unit))
}

// Adds all up to the first guest.
#[tactic(auto, unfolding(crate::specs::Pieces::head_with))]
fn push_head(
    text: &mut Vec<u8>,
    host: &RecordedHost,
    swap: u64,
    quantum: u64,
) -> Result<(), AllocError>
    ensures { OnOk result (text.new.items ≡ text.old.items ++ head_with swap quantum host.now) }
{
    push_labelled(text, b"{\"version\":3,\"frames\":", u64::from(host.frames))?;
    push_labelled(text, b",\"swap\":", swap)?;
    push_rules(text, host.policy)?;
    push_labelled(text, b",\"quantum\":", quantum)?;
    push_labelled(text, b",\"epochs\":", u64::from(host.epochs))?;
    text.extend_from_slice(b",\"guests\":[")
}

// Adds the whole text.
#[tactic(auto, unfolding(crate::specs::Pieces::text_with))]
fn push_text(
    text: &mut Vec<u8>,
    host: &RecordedHost,
    swap: u64,
    quantum: u64,
) -> Result<(), AllocError>
    ensures { OnOk result (text.new.items ≡ text.old.items ++ text_with swap quantum host.now) }
{
    let policy = host.policy;
    push_head(text, host, swap, quantum)?;
    push_guests(text, quantum, host.guests)?;
    text.extend_from_slice(b"],\"commands\":[")?;
    push_commands(text, policy.unit, host.epochs, host.guests)?;
    text.extend_from_slice(b"]}\n")
}

/// The configuration text of a host, with its LF. The only error is want of memory.
#[tactic(auto, using(crate::proofs::PartLemmas::text_with_is))]
pub fn text_of(alloc: Global, host: &RecordedHost) -> Result<Vec<u8>, AllocError>
    requires guests { length host.now.guests ≤ 256 }
    ensures { IfOk result (λ text. text.items ≡ text_of host.now) }
{
    let mut text = Vec::new(alloc);
    push_text(
        &mut text,
        host,
        swap_for(host.guests),
        quantum_for(host.guests),
    )?;
    Ok(text)
}
