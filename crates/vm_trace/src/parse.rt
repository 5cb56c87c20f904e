// Reads steps from their text.
ghost use Rattle.std.specs.Prelude.{◌≡◌, ◌==◌, ◌*◌, ◌≤◌, ℕ, [], ◌∷◌, bytes_eq, length, map, position, true, IfOk, OnOk, Ok, Err};
ghost use Rattle.vm_trace.specs.declared.error.TraceError.{TraceError};
ghost use Rattle.vm_trace.specs.declared.step.Step.{Step};
ghost use Rattle.vm_trace.specs.declared.step.Action.TheVariants.{Touch, Free};
ghost use Rattle.vm_trace.specs.Limits.{IsWithin};
ghost use Rattle.vm_trace.specs.Spelling.{IsSpelled};
ghost use Rattle.vm_trace.specs.Words.{words_of, words_left, number_of, number_in, is_hex, hex_pairs, bytes_in};
ghost use Rattle.vm_trace.specs.Meaning.{read_step, write_step, free_step, actual_step, queue_of, post_step, step_of_words, alone, steps_on, steps_of_words, step_within, steps_within};
ghost use Rattle.vm_trace.specs.TextSteps.{IsRow, HasRow, listed, on_row};
ghost use Rattle.vm_trace.specs.Versions.{before_3};

use crate::buffer::{Buffer, MAX_BUFFER};
use crate::bytes::{Bytes, is_hex};
use crate::error::TraceError;
use crate::limits::{StepLimits, most_posted};
use crate::step::{Action, Queue, Step};
use crate::text_steps::{Row, TextSteps, first_of};

// The bytes of a page.
pub(crate) const PAGE_BYTES: u32 = 4096;

// The most bytes that a step reads or writes.
pub(crate) const MAX_ACCESS: u32 = 16;

// The most words that a step has.
const MAX_WORDS: usize = 4;

// The most digits that a number has.
const MAX_DIGITS: usize = 10;

/// Reads a step of a guest with 65536 pages, as [`parse_step_within`] does.
pub fn parse_step(text: &str) -> Result<Step, TraceError>
    ensures exact { result ≡ step_within 65536 text.now }
    ensures within { IfOk result (IsWithin 65536) }
{
    parse_step_within(text, 65536)
}

/// Reads a step of version 2 for a guest with this many pages, as [`Trace::push_text`](crate::Trace::push_text) does, whose table has
/// its words and faults.
pub fn parse_step_within(text: &str, pages: u32) -> Result<Step, TraceError>
    requires some { 1 ≤ pages }
    requires few { pages ≤ 262144 }
    ensures exact { result ≡ step_within pages text.now }
    ensures within { IfOk result (IsWithin pages) }

    // What is read spells the step, and what spells a step is read as that step.
    ensures spelled { IfOk result (IsSpelled (before_3 pages) text.now) }
    ensures accepts { (step : Step) → IsSpelled (before_3 pages) text.now step → result ≡ Ok step }
{
    let limits = StepLimits {
        pages,
        version_3: false,
    };
    let steps = steps_of(text, limits)?;
    Ok(Step::new(first_of(steps)))
}

// The place of the first space.
fn first_space(text: &[u8]) -> Option<usize>
    ensures { result ≡ position (λ b. b == 32) text.now }
{
    text.iter().position(|byte| *byte == b' ')
}

// The first word of a text, and the text behind its space, where there is one.
fn first_word(text: &[u8]) -> (&[u8], Option<&[u8]>)
    ensures { words_of text.now ≡ result.0.now ∷ words_left result.1 }
{
    match first_space(text) {
        Some(end) => (&text[..end], Some(&text[end + 1..])),
        None => (text, None),
    }
}

// The steps that a text stands for.
pub(crate) fn steps_of(text: &str, limits: StepLimits) -> Result<TextSteps, TraceError>
    requires some { 1 ≤ limits.pages }
    requires few { limits.pages ≤ 262144 }
    ensures steps { listed result ≡ steps_within limits text.now }
    ensures row { IfOk result (HasRow limits.pages) }
{
    let mut words: [&[u8]; MAX_WORDS] = [&[]; MAX_WORDS];
    let mut count = 0;
    let mut left = Some(text.as_bytes());
    while let Some(text_left) = left {
        let (word, rest) = first_word(text_left);
        if word.is_empty() || count == MAX_WORDS {
            return Err(TraceError::Unknown);
        }
        words[count] = word;
        count += 1;
        left = rest;
    }
    steps_of_words(&words[..count], limits)
}

// The number that a word is: 1 to 10 decimal digits.
fn number(word: &[u8]) -> Result<u64, TraceError>
    ensures { result ≡ number_of word.now }
{
    if word.is_empty() || word.len() > MAX_DIGITS {
        return Err(TraceError::Number);
    }
    let mut number = 0;
    for digit in word {
        if !digit.is_ascii_digit() {
            return Err(TraceError::Number);
        }
        number = 10 * number + u64::from(*digit - b'0');
    }
    Ok(number)
}

// The number that a word is, from `low` up to `high`.
#[tactic(auto, unfolding(crate::specs::Words::number_in))]
fn number_in(word: &[u8], low: u32, high: u32) -> Result<u32, TraceError>
    ensures value { result ≡ number_in low high word.now }
    ensures least { IfOk result (λ n. low ≤ n) }
    ensures bound { IfOk result (λ n. n ≤ high) }
{
    let number = number(word)?;
    if u64::from(low) <= number && number <= u64::from(high) {
        Ok(number as u32)
    } else {
        Err(TraceError::Range)
    }
}

// Whether a word spells bytes, and at most so many, or its fault.
#[tactic(auto, unfolding(crate::specs::Words::bytes_in))]
fn check_hex(word: &[u8], most: usize) -> Result<(), TraceError>
    ensures digits { OnOk result (is_hex word.now ≡ true) }
    ensures fits { OnOk result (length word.now ≤ 2 * most) }
    ensures bytes { OnOk result (bytes_in most word.now ≡ Ok (hex_pairs word.now)) }
    ensures fault { (fault : TraceError) → result ≡ Err fault → bytes_in most word.now ≡ Err fault }
{
    if !is_hex(word) {
        return Err(TraceError::Hex);
    }
    if word.len() / 2 > most {
        return Err(TraceError::Length);
    }
    Ok(())
}

// The bytes of a write that a word spells.
fn bytes_in(word: &[u8]) -> Result<Bytes, TraceError>
    ensures { result ≡ bytes_in 16 word.now }
{
    check_hex(word, MAX_ACCESS as usize)?;
    Ok(Bytes::from_hex(word))
}

// The bytes of a raw buffer that a word spells, at most `most` of them.
fn buffer_in(word: &[u8], most: usize) -> Result<Buffer, TraceError>
    requires { most ≤ MAX_BUFFER }
    ensures { result ≡ bytes_in most word.now }
{
    check_hex(word, most)?;
    Ok(Buffer::from_hex(word))
}

// r PAGE OFFSET LEN
#[tactic(auto, unfolding(crate::specs::Meaning::read_step))]
fn read(page: &[u8], offset: &[u8], len: &[u8], pages: u32) -> Result<Action, TraceError>
    requires { 1 ≤ pages }
    ensures { result ≡ read_step pages page.now offset.now len.now }
{
    let page = number_in(page, 0, pages - 1)?;
    let offset = number_in(offset, 0, PAGE_BYTES - 1)?;
    let len = number_in(len, 1, MAX_ACCESS)?;
    if offset + len > PAGE_BYTES {
        return Err(TraceError::Range);
    }
    Ok(Action::Read {
        page,
        offset: offset as u16,
        len: len as u8,
    })
}

// w PAGE OFFSET HEX
#[tactic(auto, unfolding(crate::specs::Meaning::write_step))]
fn write(page: &[u8], offset: &[u8], hex: &[u8], pages: u32) -> Result<Action, TraceError>
    requires { 1 ≤ pages }
    ensures { result ≡ write_step pages page.now offset.now hex.now }
{
    let page = number_in(page, 0, pages - 1)?;
    let offset = number_in(offset, 0, PAGE_BYTES - 1)?;
    let bytes = bytes_in(hex)?;
    if offset + bytes.len() as u32 > PAGE_BYTES {
        return Err(TraceError::Range);
    }
    Ok(Action::Write {
        page,
        offset: offset as u16,
        bytes,
    })
}

// f PAGE
#[tactic(auto, unfolding(crate::specs::Meaning::free_step))]
fn free(page: &[u8], pages: u32) -> Result<Action, TraceError>
    requires { 1 ≤ pages }
    ensures { result ≡ free_step pages page.now }
{
    let page = number_in(page, 0, pages - 1)?;
    Ok(Action::Free { page })
}

// Whether a word is this one letter.
fn is_letter(word: &[u8], letter: u8) -> bool
    ensures { result ≡ bytes_eq word.now (letter ∷ []) }
{
    word == [letter].as_slice()
}

// The queue of a letter.
#[tactic(auto, unfolding(crate::specs::Meaning::queue_of))]
pub(crate) fn queue_of(word: &[u8]) -> Result<Queue, TraceError>
    ensures { result ≡ queue_of word.now }
{
    if is_letter(word, b'i') {
        Ok(Queue::Inflate)
    } else if is_letter(word, b'd') {
        Ok(Queue::Deflate)
    } else if is_letter(word, b's') {
        Ok(Queue::Stats)
    } else {
        Err(TraceError::Unknown)
    }
}

// p QUEUE HEX, of at most so many bytes
#[tactic(auto, unfolding(crate::specs::Meaning::post_step))]
fn post(queue: &[u8], hex: &[u8], most: usize) -> Result<Action, TraceError>
    requires { most ≤ MAX_BUFFER }
    ensures { result ≡ post_step most queue.now hex.now }
{
    let queue = queue_of(queue)?;
    let bytes = buffer_in(hex, most)?;
    Ok(Action::Post { queue, bytes })
}

// a N
#[tactic(auto, unfolding(crate::specs::Meaning::actual_step))]
fn actual(number: &[u8]) -> Result<Action, TraceError>
    ensures { result ≡ actual_step number.now }
{
    let pages = number_in(number, 0, u32::MAX)?;
    Ok(Action::Actual { pages })
}

// The action that a word alone is.
#[tactic(auto, unfolding(crate::specs::Meaning::step_of_words))]
fn action_of_letter(kind: &[u8], limits: StepLimits) -> Result<Action, TraceError>
    ensures { result ≡ step_of_words limits (kind.now ∷ []) }
{
    if is_letter(kind, b'i') {
        Ok(Action::Idle)
    } else if limits.version_3 && is_letter(kind, b'y') {
        Ok(Action::Yield)
    } else {
        Err(TraceError::Unknown)
    }
}

// The action that two words are.
#[tactic(auto, unfolding(crate::specs::Meaning::step_of_words))]
fn action_of_number(kind: &[u8], number: &[u8], limits: StepLimits) -> Result<Action, TraceError>
    requires { 1 ≤ limits.pages }
    ensures { result ≡ step_of_words limits (kind.now ∷ number.now ∷ []) }
{
    if is_letter(kind, b'f') {
        free(number, limits.pages)
    } else if limits.version_3 && is_letter(kind, b'a') {
        actual(number)
    } else {
        Err(TraceError::Unknown)
    }
}

// The action that these words are.
#[tactic(auto, unfolding(crate::specs::Meaning::step_of_words))]
fn action_of_words(words: &[&[u8]], limits: StepLimits) -> Result<Action, TraceError>
    requires { 1 ≤ limits.pages }
    ensures { result ≡ step_of_words limits (map (λ word. word.now) words.now) }
{
    match *words {
        [kind] => action_of_letter(kind, limits),
        [kind, number] => action_of_number(kind, number, limits),
        [kind, queue, hex] if is_letter(kind, b'p') => post(queue, hex, most_posted(limits)),
        [kind, page, offset, len] if is_letter(kind, b'r') => read(page, offset, len, limits.pages),
        [kind, page, offset, hex] if is_letter(kind, b'w') => write(
            page,
            offset,
            hex,
            limits.pages,
        ),
        _ => Err(TraceError::Unknown),
    }
}

// PAGE COUNT
#[tactic(auto, unfolding(crate::specs::Meaning::steps_on))]
fn row(page: &[u8], count: &[u8], pages: u32) -> Result<Row, TraceError>
    requires some { 1 ≤ pages }
    requires few { pages ≤ 262144 }
    ensures steps { (step : ℕ → Step) → on_row step result ≡ steps_on pages step page.now count.now }
    ensures row { IfOk result (IsRow pages) }
{
    let page = number_in(page, 0, pages - 1)?;
    let count = number_in(count, 1, pages)?;
    if page + count > pages {
        return Err(TraceError::Range);
    }
    Ok(Row { page, count })
}

// One step alone.
fn alone(words: &[&[u8]], limits: StepLimits) -> Result<TextSteps, TraceError>
    requires { 1 ≤ limits.pages }
    ensures steps { listed result ≡ alone (step_of_words limits (map (λ word. word.now) words.now)) }
    ensures row { IfOk result (HasRow limits.pages) }
{
    let action = action_of_words(words, limits)?;
    Ok(TextSteps::One(action))
}

// t PAGE COUNT
fn touches(page: &[u8], count: &[u8], pages: u32) -> Result<TextSteps, TraceError>
    requires some { 1 ≤ pages }
    requires few { pages ≤ 262144 }
    ensures steps { listed result ≡ steps_on pages Touch page.now count.now }
    ensures row { IfOk result (HasRow pages) }
{
    let row = row(page, count, pages)?;
    Ok(TextSteps::Touches(row))
}

// f PAGE COUNT
fn frees(page: &[u8], count: &[u8], pages: u32) -> Result<TextSteps, TraceError>
    requires some { 1 ≤ pages }
    requires few { pages ≤ 262144 }
    ensures steps { listed result ≡ steps_on pages Free page.now count.now }
    ensures row { IfOk result (HasRow pages) }
{
    let row = row(page, count, pages)?;
    Ok(TextSteps::Frees(row))
}

// The steps that these words are.
#[tactic(auto, using(crate::proofs::WordCounts::three_steps, crate::proofs::WordCounts::not_three))]
fn steps_of_words(words: &[&[u8]], limits: StepLimits) -> Result<TextSteps, TraceError>
    requires some { 1 ≤ limits.pages }
    requires few { limits.pages ≤ 262144 }
    ensures steps { listed result ≡ steps_of_words limits (map (λ word. word.now) words.now) }
    ensures row { IfOk result (HasRow limits.pages) }
{
    let [kind, page, count] = *words else {
        return alone(words, limits);
    };
    if limits.version_3 && is_letter(kind, b't') {
        touches(page, count, limits.pages)
    } else if limits.version_3 && is_letter(kind, b'f') {
        frees(page, count, limits.pages)
    } else {
        alone(words, limits)
    }
}
