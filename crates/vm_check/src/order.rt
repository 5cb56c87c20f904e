// What the command lines of a configuration ask for.
ghost use Rattle.std.specs.Prelude.{◌≡◌, ◌≤◌, IfOk, map};
ghost use Rattle.vm_check.specs.Orders.{ask_of, asked_in, asked_of, domain_of, order_of};

use crate::what::Wrong;
use std::alloc::{AllocError, Global};
use vm_commands::{Command, LineFault, parse_line};
use vm_config::Scheduled;
use vm_domains::Names;

/// What a command asks for, without its domain. Pages are as many as the line says, each of the machine's KiB.
#[derive(Clone, Copy, Debug, PartialEq, Eq)]
pub(crate) enum Ask {
    /// `start`
    Start,
    /// `destroy`
    Destroy,
    /// `setmem`
    SetMemory { pages: u64 },
    /// `memtune`
    SetMinimum,
    /// `memshares` and `dommemstat`
    Other,
}

/// What a line asks for, and of which guest; or why it is refused whenever it comes.
#[derive(Clone, Copy, Debug, PartialEq, Eq)]
pub(crate) enum Asked {
    /// Of the guest with this number.
    Of { guest: usize, ask: Ask },
    /// It is refused.
    Wrong(Wrong),
}

/// A command: the epoch before which it is obeyed, and what it asks for.
#[derive(Clone, Copy, Debug, PartialEq, Eq)]
pub(crate) struct Order {
    pub(crate) at: u32,
    pub(crate) asked: Asked,
}

// What a command asks for.
fn ask_of(command: &Command) -> Ask
    ensures { result ≡ ask_of command.now }
{
    match command {
        Command::Start { .. } => Ask::Start,
        Command::Destroy { .. } => Ask::Destroy,
        Command::SetMemory { pages, .. } => Ask::SetMemory { pages: *pages },
        Command::SetMinimum { .. } => Ask::SetMinimum,
        Command::SetShares { .. } => Ask::Other,
        Command::ShowStatistics { .. } => Ask::Other,
    }
}

// The word of its domain.
fn domain_of(command: &Command) -> &str
    ensures { result.now ≡ domain_of command.now }
{
    match command {
        Command::Start { domain } => domain.as_str(),
        Command::Destroy { domain } => domain.as_str(),
        Command::SetMemory { domain, .. } => domain.as_str(),
        Command::SetMinimum { domain, .. } => domain.as_str(),
        Command::SetShares { domain, .. } => domain.as_str(),
        Command::ShowStatistics { domain } => domain.as_str(),
    }
}

// What a command asks for, and of which of these guests.
fn asked_of(names: &Names, command: &Command) -> Asked
    ensures { result ≡ asked_of names.now command.now }
{
    match names.position(domain_of(command)) {
        Some(guest) => Asked::Of {
            guest,
            ask: ask_of(command),
        },
        None => Asked::Wrong(Wrong::NoSuchDomain),
    }
}

// What a line asks for, on a machine whose pages are of so many KiB.
fn asked_in(alloc: Global, page: u32, names: &Names, line: &str) -> Result<Asked, AllocError>
    requires { 1 ≤ page }
    ensures { IfOk result (λ asked. asked ≡ asked_in page names.now line.now) }
{
    match parse_line(alloc, line, page) {
        Ok(command) => Ok(asked_of(names, &command)),
        Err(LineFault::Bad) => Ok(Asked::Wrong(Wrong::BadLine)),
        Err(LineFault::Size) => Ok(Asked::Wrong(Wrong::BadSize)),
        Err(LineFault::Memory) => Err(AllocError),
    }
}

// A command line with its epoch.
fn order_of(
    alloc: Global,
    page: u32,
    names: &Names,
    scheduled: &Scheduled,
) -> Result<Order, AllocError>
    requires { 1 ≤ page }
    ensures { IfOk result (λ order. order ≡ order_of page names.now scheduled.now) }
{
    let asked = asked_in(alloc, page, names, scheduled.line())?;
    Ok(Order {
        at: scheduled.at(),
        asked,
    })
}

/// The commands of a configuration.
pub(crate) fn orders_of(
    alloc: Global,
    page: u32,
    names: &Names,
    commands: &[Scheduled],
) -> Result<Vec<Order>, AllocError>
    requires { 1 ≤ page }
    ensures { IfOk result (λ orders. orders.items ≡ map (order_of page names.now) commands.now) }
{
    let mut orders = Vec::new(alloc);
    for scheduled in commands {
        orders.push(order_of(alloc, page, names, scheduled)?)?;
    }
    Ok(orders)
}
