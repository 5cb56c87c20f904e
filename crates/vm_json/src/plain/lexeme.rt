// The lexemes at the front of a plain text, which begins with no blank. Each function passes the blanks behind what it takes.
ghost use Rattle.std.specs.Prelude.{◌≡◌, ◌<◌, ◌≤◌, ◌||◌, ◌++◌, ◌∷◌, cond, length, true, IfSome};
ghost use Rattle.json.specs.Lex.{between, comma, lex, operator_lexeme, token};
ghost use Rattle.json.specs.Token.{number, string};
ghost use Rattle.json.specs.Word.{ends_word as word_ends, is_operator, is_space};

use super::number::{byte_at, number_end};
use super::run::{blank_len, is_blank, plain_len};

#[inline(always)]
fn ends_word(byte: u8) -> bool
    ensures { result ≡ (is_operator byte || is_space byte) }
{
    byte == b'{'
        || byte == b'}'
        || byte == b'['
        || byte == b']'
        || byte == b':'
        || byte == b','
        || is_blank(byte)
}

// The text without the blanks at its front.
#[inline(always)]
pub(super) fn after_blanks<'a>(text: &'a str) -> &'a str
    ensures lexemes { lex between result.now ≡ lex between text.now }
    ensures shorter { length result.now ≤ length text.now }
{
    let bytes = text.as_bytes();
    if bytes.is_empty() || bytes[0] > b' ' {
        return text;
    }
    &text[blank_len(bytes)..]
}

// What follows the byte, where it comes first.
#[inline(always)]
fn after_byte<'a>(text: &'a str, byte: u8) -> Option<&'a str>
    requires { byte < 128 }
    ensures { IfSome result (λ left. text.now ≡ byte ∷ left.now) }
{
    let bytes = text.as_bytes();
    if !bytes.is_empty() && bytes[0] == byte {
        Some(&text[1..])
    } else {
        None
    }
}

// What follows the operator, where it comes first.
#[inline(always)]
pub(super) fn after<'a>(operator: u8, text: &'a str) -> Option<&'a str>
    requires { is_operator operator ≡ true }
    ensures lexemes { IfSome result (λ left. lex between text.now
        ≡ operator_lexeme operator ∷ lex between left.now) }
    ensures shorter { IfSome result (λ left. length left.now < length text.now) }
{
    let behind = after_byte(text, operator)?;
    Some(after_blanks(behind))
}

// What follows the closing bracket or the comma that comes first, and whether it is the bracket.
#[inline(always)]
pub(super) fn after_item<'a>(closing: u8, text: &'a str) -> Option<(bool, &'a str)>
    requires { is_operator closing ≡ true }
    ensures lexemes { IfSome result (λ found. lex between text.now
        ≡ cond found.0 (operator_lexeme closing) comma ∷ lex between found.1.now) }
    ensures shorter { IfSome result (λ found. length found.1.now < length text.now) }
{
    if let Some(left) = after(closing, text) {
        return Some((true, left));
    }
    let left = after(b',', text)?;
    Some((false, left))
}

// The text that comes first, where it has no escapes, and what follows it.
#[inline(always)]
pub(super) fn text_at<'a>(text: &'a str) -> Option<(&'a str, &'a str)>
    ensures lexemes { IfSome result (λ found. lex between text.now
        ≡ token (string found.0.now) ∷ lex between found.1.now) }
    ensures shorter { IfSome result (λ found. length found.1.now < length text.now) }
{
    let inside = after_byte(text, b'"')?;
    let bytes = inside.as_bytes();
    let len = plain_len(bytes);
    if len < bytes.len() && bytes[len] == b'"' {
        let left = after_blanks(&inside[len + 1..]);
        Some((&inside[..len], left))
    } else {
        None
    }
}

// The same, where the operator follows it.
#[inline(always)]
pub(super) fn text_before<'a>(operator: u8, text: &'a str) -> Option<(&'a str, &'a str)>
    requires { is_operator operator ≡ true }
    ensures lexemes { IfSome result (λ found. lex between text.now
        ≡ token (string found.0.now) ∷ operator_lexeme operator ∷ lex between found.1.now) }
    ensures shorter { IfSome result (λ found. length found.1.now < length text.now) }
{
    let (found, behind) = text_at(text)?;
    let left = after(operator, behind)?;
    Some((found, left))
}

// The number that comes first, and what follows it.
pub(super) fn number_at<'a>(text: &'a str) -> Option<(&'a str, &'a str)>
    ensures lexemes { IfSome result (λ found. lex between text.now
        ≡ token (number found.0.now) ∷ lex between found.1.now) }
    ensures shorter { IfSome result (λ found. length found.1.now ≤ length text.now) }
{
    let bytes = text.as_bytes();
    let end = number_end(bytes)?;
    if ends_word(byte_at(bytes, end)) {
        let left = after_blanks(&text[end..]);
        Some((&text[..end], left))
    } else {
        None
    }
}

// The bytes up to an operator, a blank or the end, and what follows them.
pub(super) fn word_at<'a>(text: &'a str) -> (&'a str, &'a str)
    ensures parts { text.now ≡ result.0.now ++ result.1.now }
    ensures ended { word_ends result.1.now ≡ true }
    ensures shorter { length result.1.now ≤ length text.now }
{
    let bytes = text.as_bytes();
    let mut at = 0;
    while at < bytes.len() && !ends_word(bytes[at]) {
        at += 1;
    }
    (&text[..at], &text[at..])
}
