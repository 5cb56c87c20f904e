//! What is refused of words that `clap` takes.
ghost use Rattle.std.specs.Prelude.{◌≡◌, IfErr, OnOk, false, is_some, true};
ghost use Rattle.std.specs.List.{list_all, list_any};
ghost use Rattle.clap.specs.Words.{kind_of};
ghost use Rattle.vm_words.specs.Words.{flag_rule, is_beside, is_fit, value_rule};

use crate::command_line::{CommandLine, Flag, ValueWord};
use crate::request::Request;
use clap::error::ErrorKind;
use clap::{Command, Error};
use std::alloc::Global;

// The flag that may not stand beside this one, where both are given.
fn other_beside(request: &Request<'_>, flag: &Flag) -> Option<&'static str>
    ensures { is_some result ≡ is_beside request.now (flag_rule flag.now) }
{
    let other = flag.beside?;
    if request.has_flag(flag.name) && request.has_flag(other) {
        Some(other)
    } else {
        None
    }
}

// The first two flags that are given, and may not stand beside one another.
fn pair_given(request: &Request<'_>, flags: &[Flag]) -> Option<(&'static str, &'static str)>
    ensures { is_some result ≡ list_any (λ flag. is_beside request.now (flag_rule flag)) flags.now }
{
    for flag in flags {
        if let Some(other) = other_beside(request, flag) {
            return Some((flag.name, other));
        }
    }
    None
}

// Whether each value that is given is what it has to be.
fn are_fit(request: &Request<'_>, values: &[ValueWord]) -> bool
    ensures { result ≡ list_all (λ value. is_fit request.now (value_rule value)) values.now }
{
    values.iter().all(|value| request.is_fit(value))
}

impl CommandLine {
    // Why a request is refused, in the form of the errors of `clap`.
    pub(crate) fn check(
        &self,
        alloc: Global,
        command: &mut Command<'_>,
        request: &Request<'_>,
    ) -> Result<(), Error>
        ensures apart { OnOk result (list_any (λ flag. is_beside request.now (flag_rule flag)) self.now.flags.now ≡ false) }
        ensures fit { OnOk result (list_all (λ value. is_fit request.now (value_rule value)) self.now.values.now ≡ true) }
        ensures refused { IfErr result (λ error. list_any (λ flag. is_beside request.now (flag_rule flag)) self.now.flags.now ≡ false
            → list_all (λ value. is_fit request.now (value_rule value)) self.now.values.now ≡ true
            → kind_of error ≡ ErrorKind.OutOfMemory) }
    {
        if let Some((flag, other)) = pair_given(request, self.flags) {
            let why = format!(in alloc; "the argument '--{flag}' cannot be used with '--{other}'")?;
            return Err(command.error(ErrorKind::ArgumentConflict, &why)?);
        }
        if !are_fit(request, self.values) {
            return Err(command.error(ErrorKind::ValueValidation, "a number is out of its range")?);
        }
        Ok(())
    }
}
