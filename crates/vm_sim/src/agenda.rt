// What is asked of a host in its boundaries.
ghost use Rattle.std.specs.Prelude.{◌≡◌, ◌++◌, ◌∷◌, ◌<◌, [], IfOk, OnOk, false, slice_get, unwrap_or};
ghost use Rattle.vm_sim.specs.Course.{autostart_lines, lines_for, lines_of_epoch, start_line};
ghost use Rattle.vm_sim.specs.Report.{name_at};

use crate::calendar::Calendar;
use std::alloc::{AllocError, Global};
use vm_config::{Autostart, Schedule};
use vm_host::{Host, Lines};

// The domains that start by themselves, and the command lines.
#[derive(Drop)]
pub(crate) struct Agenda {
    pub(crate) autostart: Autostart,
    pub(crate) commands: Schedule,
}

// The line that starts the domain at a position.
fn push_start(
    alloc: Global,
    host: &Host,
    position: usize,
    lines: &mut Lines,
) -> Result<(), AllocError>
    ensures { OnOk result (lines.new ≡ lines.old ++ start_line (name_at host.now position) ∷ []) }
{
    let name = host.name(position).unwrap_or("");
    let line = format!(in alloc; "start {name}")?;
    lines.push(&line)
}

// Whether the domain at a position starts by itself.
fn starts_by_itself(flags: &[bool], position: usize) -> bool
    ensures { result ≡ unwrap_or (slice_get flags.now position) false }
{
    flags.get(position).copied().unwrap_or(false)
}

// The lines that start the domains that start by themselves, in order.
fn push_starts(
    alloc: Global,
    host: &Host,
    flags: &[bool],
    lines: &mut Lines,
) -> Result<(), AllocError>
    ensures { OnOk result (lines.new ≡ lines.old ++ autostart_lines host.now.names flags.now) }
{
    for position in 0..host.len() {
        if starts_by_itself(flags, position) {
            push_start(alloc, host, position, lines)?;
        }
    }
    Ok(())
}

// The lines of an epoch, in the order of the configuration. It looks at no command of another one.
fn push_commands(number: u32, calendar: &Calendar, lines: &mut Lines) -> Result<(), AllocError>
    requires { number < calendar.now.epochs }
    ensures { OnOk result (lines.new ≡ lines.old ++ lines_of_epoch number calendar.now.agenda.commands) }
{
    let commands = calendar.agenda().commands.lines();
    let mut position = calendar.first_of(number);
    while position < commands.len() {
        lines.push(commands[position].line())?;
        position = calendar.next_of(position);
    }
    Ok(())
}

// The lines of the boundary before an epoch.
pub(crate) fn lines_for(
    alloc: Global,
    host: &Host,
    calendar: &Calendar,
    number: u32,
) -> Result<Lines, AllocError>
    requires { number < calendar.now.epochs }
    ensures { IfOk result (λ lines. lines ≡ lines_for host.now.names calendar.now.agenda number) }
{
    let mut lines = Lines::new(alloc);
    if number == 0 {
        push_starts(alloc, host, calendar.agenda().autostart.flags(), &mut lines)?;
    }
    push_commands(number, calendar, &mut lines)?;
    Ok(lines)
}
