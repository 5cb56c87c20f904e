// What is written of a sample, to be written at once.
ghost use Rattle.std.specs.Prelude.{◌≡◌, IfOk};
ghost use Rattle.vm_steer.specs.Text.{bad_text, text_of};

use crate::lines::{Part, push_bad, push_part, push_sample, push_state};
use crate::told::Told;
use std::alloc::{AllocError, Global};
use vm_samples::BadSample;

/// What is written of a good sample, by what is told of it. Samples count from 0.
///
/// Lines end with LF. Those that begin with `#` say what is the case and what was decided; the others are commands of `virsh`.
#[tactic(auto, unfolding(crate::specs::Text::text_of))]
pub fn text_of(alloc: Global, number: u64, told: &Told) -> Result<Vec<u8>, AllocError>
    ensures { IfOk result (λ text. text.items ≡ text_of number told.now) }
{
    let mut text = Vec::new(alloc);
    push_sample(&mut text, number)?;
    push_part(&mut text, Part::LeftAlone, &told.domains)?;
    push_state(&mut text, told.state, told.free)?;
    push_part(&mut text, Part::Revoked, &told.domains)?;
    push_part(&mut text, Part::Granted, &told.domains)?;
    push_part(&mut text, Part::Rebalanced, &told.domains)?;
    push_part(&mut text, Part::Guests, &told.domains)?;
    Ok(text)
}

/// What is written of a bad sample: why it is. It has no command.
#[tactic(auto, unfolding(crate::specs::Text::bad_text))]
pub fn bad_text(alloc: Global, number: u64, bad: &BadSample) -> Result<Vec<u8>, AllocError>
    ensures { IfOk result (λ text. text.items ≡ bad_text number bad.now) }
{
    let mut text = Vec::new(alloc);
    push_sample(&mut text, number)?;
    push_bad(&mut text, bad)?;
    Ok(text)
}
