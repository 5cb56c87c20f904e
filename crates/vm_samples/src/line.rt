// One line of a sample.
ghost use Rattle.std.specs.Prelude.{◌≡◌, ◌<◌, ◌≤◌, Some, Ok, Err, IfErr, IfOk, OnOk, option_map, length, position, slice_index, take, vec_len, ◌≢◌};
ghost use Rattle.std.specs.List.{prefix_len};
ghost use Rattle.vm_samples.specs.SampleLines.{domain_name, domain_named, is_equals, is_space, key_line, with_key, with_last, with_line, with_value};
ghost use Rattle.vm_samples.specs.Steps.{key_seen, GoesOn, IsAdded, IsBad};

use crate::field::{Field, field_of};
use crate::number::number_of;
use crate::sample::{BadLine, Domain};
use memchr::memchr;
use std::alloc::{AllocError, Global};

const MAX_DOMAINS: usize = 256;

// Why a line was not taken.
#[derive(Clone, Copy)]
pub(crate) enum LineError {
    Bad(BadLine),
    Memory,
}

impl From<AllocError> for LineError {
    ghost use Rattle.vm_samples.specs.declared.line.LineError.TheVariants.{Memory};

    ghost from_gives = { λ _ error. error ≡ Memory };

    fn from(_error: AllocError) -> LineError {
        LineError::Memory
    }
}

// A line of a key.
#[derive(Clone, Copy)]
struct KeyLine<'a> {
    key: &'a [u8],
    value: &'a [u8],
}

// The name in a line of a domain.
#[tactic(auto, unfolding(crate::specs::SampleLines::domain_name))]
fn domain_name(line: &[u8]) -> Option<&[u8]>
    ensures { option_map (λ name. name.now) result ≡ domain_name line.now }
{
    line.strip_prefix(b"Domain: '")?.strip_suffix(b"'")
}

fn spaces_in(line: &[u8]) -> usize
    ensures { result ≡ prefix_len is_space line.now }
{
    line.iter().take_while(|byte| **byte == b' ').count()
}

// How many spaces a line begins with.
fn spaces_in_front(line: &[u8]) -> usize
    ensures spaces { result ≡ prefix_len is_space line.now }
    ensures bound { result ≤ length line.now }
{
    spaces_in(line)
}

// The place of the first `=`.
fn equals_in(text: &[u8]) -> Option<usize>
    ensures { result ≡ position is_equals text.now }
{
    memchr(b'=', text)
}

// The key and the value of the line of so many bytes that a text begins with. The first `=` is looked for in all of the text, which
// takes less time than in so few bytes. Far behind the line it is looked for only where that has none, which ends the sample.
fn key_line(text: &[u8], len: usize) -> Option<KeyLine<'_>>
    requires { len ≤ length text.now }
    ensures { option_map key_seen result ≡ key_line (take len text.now) }
{
    let spaces = spaces_in_front(&text[..len]);
    if spaces < 1 {
        return None;
    }
    let rest = &text[spaces..];
    let Some(end) = equals_in(rest) else {
        return None;
    };
    if end >= len - spaces {
        return None;
    }
    Some(KeyLine {
        key: &rest[..end],
        value: &text[spaces + end + 1..len],
    })
}

// A domain of which nothing is told yet.
fn domain_named(alloc: Global, name: &[u8]) -> Result<Domain, AllocError>
    ensures { IfOk result (λ domain. domain ≡ domain_named name.now) }
{
    let name = Vec::from_slice(alloc, name)?;
    Ok(Domain {
        name,
        state: None,
        current: None,
        maximum: None,
        usable: None,
        unused: None,
        swap_in: None,
    })
}

// Sets a number of a domain.
fn set(domain: &mut Domain, field: Field, number: u64)
    ensures { domain.new ≡ with_value field number domain.old }
{
    match field {
        Field::State => domain.state = Some(number),
        Field::Current => domain.current = Some(number),
        Field::Maximum => domain.maximum = Some(number),
        Field::Usable => domain.usable = Some(number),
        Field::Unused => domain.unused = Some(number),
        Field::SwapIn => domain.swap_in = Some(number),
    }
}

// Sets a number of the last domain.
fn set_last(domains: &mut [Domain], field: Field, number: u64)
    requires { 0 < length domains.old }
    ensures { domains.new ≡ with_last (with_value field number) domains.old }
{
    let last = domains.len() - 1;
    let domain = &mut domains[last];
    set(domain, field, number);
}

// Adds a domain, unless there are already more than a sample may have.
fn add_domain(alloc: Global, domains: &mut Vec<Domain>, name: &[u8]) -> Result<(), AllocError>
    requires { vec_len domains.old ≤ 257 }
    ensures ok { OnOk result (IsAdded (domain_named name.now) domains.old.items domains.new.items) }
    ensures few { OnOk result (vec_len domains.new ≤ 257) }
{
    if domains.len() > MAX_DOMAINS {
        return Ok(());
    }
    let domain = domain_named(alloc, name)?;
    domains.push(domain)?;
    Ok(())
}

// Takes what a line of a key tells of the last domain.
fn take_key(domains: &mut [Domain], line: KeyLine<'_>) -> Result<(), BadLine>
    ensures ok { OnOk result (with_key (Some (key_seen line.entry)) domains.old ≡ Ok domains.new) }
    ensures bad { IfErr result (λ what. with_key (Some (key_seen line.entry)) domains.old ≡ Err what) }
{
    if domains.is_empty() {
        return Err(BadLine::NotALine);
    }
    let Some(field) = field_of(line.key) else {
        return Ok(());
    };
    let Some(number) = number_of(line.value) else {
        return Err(BadLine::NotANumber);
    };
    set_last(domains, field, number);
    Ok(())
}

// Takes what the line of so many bytes that a text begins with tells, where its first byte is a space.
fn take_key_line(domains: &mut [Domain], text: &[u8], len: usize) -> Result<(), BadLine>
    requires within { len ≤ length text.now }
    requires space { slice_index (take len text.now) 0 ≡ 32 }
    ensures ok { OnOk result (with_line (take len text.now) domains.old ≡ Ok domains.new) }
    ensures bad { IfErr result (λ what. with_line (take len text.now) domains.old ≡ Err what) }
{
    let Some(told) = key_line(text, len) else {
        return Err(BadLine::NotALine);
    };
    take_key(domains, told)
}

// Takes what a line that begins with another byte tells.
#[tactic(auto, using(crate::proofs::SampleLemmas::unspaced_no_key, crate::proofs::SampleLemmas::some_line))]
fn take_domain_line(alloc: Global, domains: &mut Vec<Domain>, line: &[u8]) -> Result<(), LineError>
    requires few { vec_len domains.old ≤ 257 }
    requires some { 0 < length line.now }
    requires other { slice_index line.now 0 ≢ 32 }
    ensures ok { OnOk result (GoesOn line.now domains.old.items domains.new.items) }
    ensures few { OnOk result (vec_len domains.new ≤ 257) }
    ensures bad { IfErr result (IsBad line.now domains.old.items) }
{
    let Some(name) = domain_name(line) else {
        return Err(LineError::Bad(BadLine::NotALine));
    };
    add_domain(alloc, domains, name)?;
    Ok(())
}

// Takes what the line of so many bytes that a text begins with tells.
#[tactic(auto, using(crate::proofs::SampleLemmas::goes_on, crate::proofs::SampleLemmas::empty_goes_on))]
pub(crate) fn take_line(
    alloc: Global,
    domains: &mut Vec<Domain>,
    text: &[u8],
    len: usize,
) -> Result<(), LineError>
    requires few { vec_len domains.old ≤ 257 }
    requires within { len ≤ length text.now }
    ensures ok { OnOk result (GoesOn (take len text.now) domains.old.items domains.new.items) }
    ensures few { OnOk result (vec_len domains.new ≤ 257) }
    ensures bad { IfErr result (IsBad (take len text.now) domains.old.items) }
{
    let line = &text[..len];
    if line.is_empty() {
        return Ok(());
    }
    // Most lines are of keys.
    if line[0] != b' ' {
        return take_domain_line(alloc, domains, line);
    }
    take_key_line(domains.as_mut_slice(), text, len).map_err(|what| LineError::Bad(what))
}
