//! From the text of a configuration to one that refuses none of the lists.
ghost use Rattle.std.specs.Prelude.{◌≡◌, IfErr, IfOk, None, Ok, ⊤};
ghost use Rattle.vm_config.specs.Reading.{config_of};
ghost use Rattle.vm_sweep.specs.Refusals.{refusal_of, StopsFor};
ghost use Rattle.vm_sweep.specs.Written.{FailsOnRead};

use crate::errors::SweepError;
use crate::lists::Lists;
use crate::refusals::refuse;
use std::alloc::Global;
use vm_config::{Config, read_config};
use vm_sim::RunError;

// The configuration that a text is.
fn config_of(alloc: Global, text: &[u8]) -> Result<Config, RunError>
    ensures config { IfOk result (λ config. config_of text.now ≡ Ok config) }
    ensures fault { IfErr result (FailsOnRead text.now) }
{
    let config = read_config(alloc, text)?;
    Ok(config)
}

// This configuration, where it refuses none of the lists.
fn judged(
    alloc: Global,
    text: &[u8],
    mut config: Config,
    lists: &Lists,
) -> Result<Config, SweepError>
    requires { config_of text.now ≡ Ok config }
    ensures config { IfOk result (λ same. config_of text.now ≡ Ok same) }
    ensures accepted { IfOk result (λ same. refusal_of lists.now same ≡ None) }
    ensures fault { IfErr result (StopsFor ⊤ (FailsOnRead text.now) lists.now text.now) }
{
    let _ = text;
    match refuse(alloc, &mut config, lists) {
        Ok(()) => Ok(config),
        Err(refusal) => Err(SweepError::Guest(refusal)),
    }
}

/// The configuration that a text is, where that refuses none of the lists.
pub(crate) fn read_for(alloc: Global, text: &[u8], lists: &Lists) -> Result<Config, SweepError>
    ensures config { IfOk result (λ config. config_of text.now ≡ Ok config) }
    ensures accepted { IfOk result (λ config. refusal_of lists.now config ≡ None) }
    ensures fault { IfErr result (StopsFor ⊤ (FailsOnRead text.now) lists.now text.now) }
{
    match config_of(alloc, text) {
        Ok(config) => judged(alloc, text, config, lists),
        Err(error) => Err(SweepError::Run(error)),
    }
}
