//! What the words of a command line ask for.
ghost use Rattle.std.specs.Prelude.{◌≡◌, List, [], map, option_map, unwrap_or};
ghost use Rattle.clap.specs.Words.{Row, found_of, rows_of};
ghost use Rattle.vm_words.specs.Words.{file_of, fits, has_flag, is_fit, number_in, number_of, says_true, text_of, texts_of, value_rule};

use crate::command_line::{FILE, ValueKind, ValueWord};
use clap::ArgMatches;
use std::marker::Model;

/// What the words of a command line ask for. To a contract it is a list of `clap`'s rows, one for each argument.
#[derive(Debug, Drop)]
pub struct Request<'a> {
    matches: ArgMatches<'a>,
}

impl<'a> Model for Request<'a> {
    ghost Value = { List Row };

    ghost view = { λ request. rows_of (found_of request.matches) };
}

// Whether a value of a flag is that of one that was given.
fn says_true(value: Option<&str>) -> bool
    ensures { result ≡ says_true (option_map (λ text. text.now) value.entry) }
{
    match value {
        Some(text) => text == "true",
        None => false,
    }
}

// The number that a text is, where it is one that 64 bits hold.
fn number_in(text: &str) -> Option<u64>
    ensures { result ≡ number_in text.now }
{
    text.parse::<u64>().ok()
}

// Whether a text is what a value has to be.
fn fits(kind: &ValueKind, text: &str) -> bool
    ensures { result ≡ fits kind.now text.now }
{
    match kind {
        ValueKind::Text => true,
        ValueKind::Texts => true,
        ValueKind::Number { least, greatest } => match number_in(text) {
            Some(number) => *least <= number && number <= *greatest,
            None => false,
        },
    }
}

impl<'a> Request<'a> {
    // What `clap` found.
    pub(crate) fn new(matches: ArgMatches<'a>) -> Self
        ensures { result ≡ rows_of (found_of matches.entry) }
    {
        Request { matches }
    }

    /// Whether the flag of this name is among the words.
    #[tactic(auto, unfolding(crate::specs::Words::has_flag))]
    pub fn has_flag(&self, name: &str) -> bool
        ensures { result ≡ has_flag name.now self.now }
    {
        // By its text, since a contract sees the text of each value.
        says_true(self.text(name))
    }

    /// The value of this name, as it was written, where it is among the words; of several the first.
    pub fn text(&self, name: &str) -> Option<&'a str>
        ensures { option_map (λ text. text.now) result ≡ text_of name.now self.now }
    {
        self.matches.get_str(name)
    }

    /// All values of this name, as they were written and in the order in which they stand among the words; `None` where there is none.
    pub fn texts(&self, name: &str) -> Option<&[&'a str]>
        ensures { unwrap_or (option_map (λ texts. map (λ text. text.now) texts.now) result) [] ≡ texts_of name.now self.now }
    {
        self.matches.get_strs(name)
    }

    /// The number that the value of this name is, where it is among the words.
    #[tactic(auto, unfolding(crate::specs::Words::number_of))]
    pub fn number(&self, name: &str) -> Option<u64>
        ensures { result ≡ number_of name.now self.now }
    {
        number_in(self.text(name)?)
    }

    /// The file that is given in place of standard input, as it was written. `-` is one of them.
    pub fn file(&self) -> Option<&'a str>
        ensures { option_map (λ text. text.now) result ≡ file_of self.now }
    {
        self.text(FILE)
    }

    // Whether a value is what it has to be, where it is given.
    pub(crate) fn is_fit(&self, value: &ValueWord) -> bool
        ensures { result ≡ is_fit self.now (value_rule value.now) }
    {
        match self.text(value.name) {
            Some(text) => fits(&value.kind, text),
            None => true,
        }
    }
}
