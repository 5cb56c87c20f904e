// Reads a command from its line.
ghost use Rattle.std.specs.Prelude.{◌≡◌, ◌≤◌, ◌↔◌, IfOk, IsErrOf, map, not, nat_eq, codes, option_copied};
ghost use Rattle.std.specs.List.{starts_with};
ghost use Rattle.vm_commands.specs.declared.command.Command.{Command};
ghost use Rattle.vm_commands.specs.LineGrammar.{IsLine, IsUnreadable, HasNoForm};
ghost use Rattle.vm_commands.specs.Lines.{Gives, IsOrMemory, is_domain, minimum_of, shares_of, set_memory, set_minimum, set_shares, domain_command, joined_size, tune_joined, sized_command, tune_command, command_of_words, command_of};

use crate::command::{Command, Domain};
use crate::error::LineFault;
use crate::size::{is_decimal, number, pages_of_size};
use std::alloc::Global;

// The option of a minimum.
const MIN_GUARANTEE: &str = "--min-guarantee";

// The most digits that a number of shares has, and the greatest number.
const MAX_SHARES_DIGITS: usize = 7;

const MAX_SHARES: u64 = 1_000_000;

// The most words that a command has.
const MAX_WORDS: usize = 4;

/// Reads the command that a line is. Its words are the longest runs of bytes other than spaces:
///
/// | Command | Words |
/// |---|---|
/// | [`Command::Start`] | `start D` |
/// | [`Command::Destroy`] | `destroy D` |
/// | [`Command::SetMemory`] | `setmem D SIZE` |
/// | [`Command::SetMinimum`] | `memtune D --min-guarantee SIZE`, the option also before D, also as `--min-guarantee=SIZE` |
/// | [`Command::SetShares`] | `memshares D N` |
/// | [`Command::ShowStatistics`] | `dommemstat D` |
///
/// D doesn't begin with a dash. SIZE and N are any words, read by [`scaled_pages`](crate::scaled_pages), in pages of `page` KiB,
/// and as 1 to 7 decimal digits. All but `memshares` are commands of `virsh`. Memory is only wanted for the domain's word.
pub fn parse_line(alloc: Global, line: &str, page: u32) -> Result<Command, LineFault>
    requires { 1 ≤ page }
    ensures exact { Gives result (command_of page line.now) }

    // What is read is a line of that command, and a line of a command is read so.
    ensures command { IfOk result (IsLine page line.now) }
    ensures accepts { (command : Command) → IsLine page line.now command → IsOrMemory result command }

    // Which fault it is. Memory is only wanted for a command.
    ensures bad { IsErrOf result LineFault.Bad ↔ HasNoForm line.now }
    ensures size { IsErrOf result LineFault.Size ↔ IsUnreadable page line.now }
    ensures memory { IsErrOf result LineFault.Memory → (command : Command) × IsLine page line.now command }
{
    command_of(alloc, line, page)
}

// The command of a line.
fn command_of(alloc: Global, line: &str, page: u32) -> Result<Command, LineFault>
    requires { 1 ≤ page }
    ensures { Gives result (command_of page line.now) }
{
    let mut words = [""; MAX_WORDS];
    let mut count = 0;
    for word in line.split(' ') {
        if word.is_empty() {
            continue;
        }
        if count == MAX_WORDS {
            return Err(LineFault::Bad);
        }
        words[count] = word;
        count += 1;
    }
    command_of_words(alloc, &words[..count], page)
}

// Whether a word can name a domain.
fn is_domain(word: &str) -> bool
    ensures { result ≡ is_domain word.now }
{
    !word.as_bytes().starts_with(b"-")
}

// setmem D SIZE
#[tactic(auto, unfolding(crate::specs::Lines::set_memory))]
fn set_memory(alloc: Global, domain: &str, size: &str, page: u32) -> Result<Command, LineFault>
    requires { 1 ≤ page }
    ensures { Gives result (set_memory page domain.now size.now) }
{
    let pages = pages_of_size(size.as_bytes(), page).ok_or(LineFault::Size)?;
    let domain = Domain::new(alloc, domain)?;
    Ok(Command::SetMemory { domain, pages })
}

// The pages of a minimum, at least one.
#[tactic(auto, unfolding(crate::specs::Lines::minimum_of))]
fn minimum_of(size: &[u8], page: u32) -> Option<u64>
    requires { 1 ≤ page }
    ensures { result ≡ minimum_of page size.now }
{
    pages_of_size(size, page).filter(|pages| *pages != 0)
}

// memtune D with a minimum of SIZE
#[tactic(auto, unfolding(crate::specs::Lines::set_minimum))]
fn set_minimum(alloc: Global, domain: &str, size: &[u8], page: u32) -> Result<Command, LineFault>
    requires { 1 ≤ page }
    ensures { Gives result (set_minimum page domain.now size.now) }
{
    let pages = minimum_of(size, page).ok_or(LineFault::Size)?;
    let domain = Domain::new(alloc, domain)?;
    Ok(Command::SetMinimum { domain, pages })
}

// The SIZE of --min-guarantee=SIZE
#[tactic(auto, unfolding(crate::specs::Lines::joined_size))]
fn joined_size(word: &str) -> Option<&[u8]>
    ensures { option_copied result ≡ joined_size word.now }
{
    word.as_bytes().strip_prefix(b"--min-guarantee=")
}

// A number of shares.
#[tactic(auto, unfolding(crate::specs::Lines::shares_of))]
fn shares_of(word: &[u8]) -> Option<u32>
    ensures { result ≡ shares_of word.now }
{
    if word.is_empty() || word.len() > MAX_SHARES_DIGITS || !is_decimal(word) {
        return None;
    }
    match number(word)? {
        shares @ 1..=MAX_SHARES => Some(shares as u32),
        _ => None,
    }
}

// memshares D N
#[tactic(auto, unfolding(crate::specs::Lines::set_shares))]
fn set_shares(alloc: Global, domain: &str, word: &str) -> Result<Command, LineFault>
    ensures { Gives result (set_shares domain.now word.now) }
{
    let shares = shares_of(word.as_bytes()).ok_or(LineFault::Size)?;
    let domain = Domain::new(alloc, domain)?;
    Ok(Command::SetShares { domain, shares })
}

// K D, where K is start, destroy or dommemstat
#[tactic(auto, unfolding(crate::specs::Lines::domain_command))]
fn domain_command(alloc: Global, kind: &str, domain: &str) -> Result<Command, LineFault>
    ensures { Gives result (domain_command kind.now domain.now) }
{
    if !is_domain(domain) {
        return Err(LineFault::Bad);
    }
    match kind {
        "start" => {
            let domain = Domain::new(alloc, domain)?;
            Ok(Command::Start { domain })
        }
        "destroy" => {
            let domain = Domain::new(alloc, domain)?;
            Ok(Command::Destroy { domain })
        }
        "dommemstat" => {
            let domain = Domain::new(alloc, domain)?;
            Ok(Command::ShowStatistics { domain })
        }
        _ => Err(LineFault::Bad),
    }
}

// memtune D --min-guarantee=SIZE
#[tactic(auto, unfolding(crate::specs::Lines::tune_joined))]
fn tune_joined(alloc: Global, domain: &str, option: &str, page: u32) -> Result<Command, LineFault>
    requires { 1 ≤ page }
    ensures { Gives result (tune_joined page domain.now option.now) }
{
    if !is_domain(domain) {
        return Err(LineFault::Bad);
    }
    match joined_size(option) {
        Some(size) => set_minimum(alloc, domain, size, page),
        None => Err(LineFault::Bad),
    }
}

// K D SIZE, where K is setmem or memshares, or memtune with a joined option before or after D
#[tactic(auto, unfolding(crate::specs::Lines::sized_command))]
fn sized_command(
    alloc: Global,
    kind: &str,
    a: &str,
    b: &str,
    page: u32,
) -> Result<Command, LineFault>
    requires { 1 ≤ page }
    ensures { Gives result (sized_command page kind.now a.now b.now) }
{
    if kind == "memtune" {
        return if is_domain(a) {
            tune_joined(alloc, a, b, page)
        } else {
            tune_joined(alloc, b, a, page)
        };
    }
    if !is_domain(a) {
        return Err(LineFault::Bad);
    }
    match kind {
        "setmem" => set_memory(alloc, a, b, page),
        "memshares" => set_shares(alloc, a, b),
        _ => Err(LineFault::Bad),
    }
}

// memtune D --min-guarantee SIZE, or memtune --min-guarantee SIZE D
#[tactic(auto, unfolding(crate::specs::Lines::tune_command))]
fn tune_command(
    alloc: Global,
    kind: &str,
    a: &str,
    b: &str,
    c: &str,
    page: u32,
) -> Result<Command, LineFault>
    requires { 1 ≤ page }
    ensures { Gives result (tune_command page kind.now a.now b.now c.now) }
{
    if kind != "memtune" {
        return Err(LineFault::Bad);
    }
    if is_domain(a) && b == MIN_GUARANTEE {
        set_minimum(alloc, a, c.as_bytes(), page)
    } else if a == MIN_GUARANTEE && is_domain(c) {
        set_minimum(alloc, c, b.as_bytes(), page)
    } else {
        Err(LineFault::Bad)
    }
}

// The command of some words.
#[tactic(auto, unfolding(crate::specs::Lines::command_of_words))]
fn command_of_words(alloc: Global, words: &[&str], page: u32) -> Result<Command, LineFault>
    requires { 1 ≤ page }
    ensures { Gives result (command_of_words page (map (λ word. word.now) words.now)) }
{
    match *words {
        [kind, domain] => domain_command(alloc, kind, domain),
        [kind, a, b] => sized_command(alloc, kind, a, b, page),
        [kind, a, b, c] => tune_command(alloc, kind, a, b, c, page),
        _ => Err(LineFault::Bad),
    }
}
