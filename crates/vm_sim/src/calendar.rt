// The commands of a run by their epochs, so that a boundary looks at its own commands alone.
ghost use Rattle.std.specs.Prelude.{◌≡◌, ◌<◌, ◌≤◌, ◌+◌, ℕ, suc, length, max, IfOk, IfSome, replicate, slice_get};
ghost use Rattle.vm_sim.specs.Calendar.{HaveRoom, IsCalendar, IsNextOf};

use crate::agenda::Agenda;
use std::alloc::{AllocError, Global};
use std::marker::Model;
use std::mem;
use vm_config::Scheduled;

// What is asked of the host of a run, with the commands of each epoch at hand. Those that never run take no room.
#[derive(Drop)]
pub(crate) struct Calendar {
    agenda: Agenda,
    epochs: u32,
    // Where the first command of each epoch stands, up to the last epoch with commands.
    first: Vec<usize>,
    // Where the next command of the same epoch stands, for each command up to the last one that runs.
    next: Vec<usize>,
}

impl Model for Calendar {
    ghost use Rattle.vm_sim.specs.Calendar.{IsCalendar, RunAgenda};

    ghost Value = { RunAgenda };

    ghost view = { λ c. record { agenda = c.agenda; epochs = c.epochs } };

    ghost invariant = { λ c. IsCalendar c.epochs 0 c.agenda.commands c.first.items c.next.items };
}

// For how many epochs and commands there is room.
#[derive(Clone, Copy)]
struct CalendarSize {
    epochs: usize,
    commands: usize,
}

// The room with a place for one command more, which is the last of so many. One that never runs needs none.
fn more_room(room: CalendarSize, command: &Scheduled, count: usize, epochs: u32) -> CalendarSize
    ensures runs { command.now.at < epochs
        → (result.epochs ≡ max room.epochs (command.now.at + 1)) × (result.commands ≡ count) }
    ensures never_runs { epochs ≤ command.now.at → result ≡ room }
{
    let epoch = command.at();
    if epoch >= epochs {
        return room;
    }
    CalendarSize {
        epochs: room.epochs.max(epoch as usize + 1),
        commands: count,
    }
}

// The least room in which all commands that run have their places.
fn room_for(commands: &[Scheduled], epochs: u32) -> CalendarSize
    ensures enough { HaveRoom epochs commands.now (length commands.now) result.epochs result.commands }
    ensures least { (rooms places : ℕ) → HaveRoom epochs commands.now (length commands.now) rooms places
        → (result.epochs ≤ rooms) × (result.commands ≤ places) }
{
    let mut room = CalendarSize {
        epochs: 0,
        commands: 0,
    };
    for (position, command) in commands.iter().enumerate() {
        room = more_room(room, command, position + 1, epochs);
    }
    room
}

// Puts a command before the others of its epoch. One that never runs is passed over.
fn put_command(
    commands: &[Scheduled],
    epochs: u32,
    position: usize,
    first: &mut [usize],
    next: &mut [usize],
)
    requires within { position < length commands.now }
    requires found { IsCalendar epochs (suc position) commands.now first.old next.old }
    ensures { IsCalendar epochs position commands.now first.new next.new }
{
    let epoch = commands[position].at();
    if epoch >= epochs {
        return;
    }
    next[position] = mem::replace(&mut first[epoch as usize], position);
}

// Finds where the commands of each epoch stand, from the last command to the first one.
fn find_commands(commands: &[Scheduled], epochs: u32, first: &mut [usize], next: &mut [usize])
    requires none { first.old ≡ replicate (length first.old) (length commands.now) }
    requires room { HaveRoom epochs commands.now (length commands.now) (length first.old) (length next.old) }
    ensures { IsCalendar epochs 0 commands.now first.new next.new }
{
    let mut position = commands.len();
    while position > 0 {
        position -= 1;
        put_command(commands, epochs, position, first, next);
    }
}

impl Calendar {
    // Each command costs constant time, and so does each epoch up to the last one with commands. Each list is asked for once, with
    // just its room, and where no command runs nothing is.
    pub(crate) fn new(alloc: Global, agenda: Agenda, epochs: u32) -> Result<Self, AllocError>
        ensures { IfOk result (λ calendar. calendar ≡ record { agenda = agenda; epochs = epochs }) }
    {
        let commands = agenda.commands.lines();
        let room = room_for(commands, epochs);
        let mut first = vec![in alloc; commands.len(); room.epochs]?;
        let mut next = vec![in alloc; commands.len(); room.commands]?;
        find_commands(commands, epochs, &mut first, &mut next);
        Ok(Calendar {
            agenda,
            epochs,
            first,
            next,
        })
    }

    // The domains that start by themselves, and the commands in the order of the configuration.
    pub(crate) fn agenda(&self) -> &Agenda
        ensures { result.now ≡ self.now.agenda }
    {
        &self.agenda
    }

    // The same, once nothing more is asked.
    pub(crate) fn into_agenda(self) -> Agenda
        ensures { result ≡ self.agenda }
    {
        self.agenda
    }

    // How many epochs the run has.
    pub(crate) fn epochs(&self) -> u32
        ensures { result ≡ self.now.epochs }
    {
        self.epochs
    }

    // Where the first command of an epoch stands. Where there is none, that is past the end.
    pub(crate) fn first_of(&self, epoch: u32) -> usize
        requires { epoch < self.now.epochs }
        ensures { IsNextOf epoch self.now.agenda.commands 0 result }
    {
        let end = self.agenda.commands.lines().len();
        self.first.get(epoch as usize).copied().unwrap_or(end)
    }

    // Where the next command of the same epoch stands behind one that runs. Where there is none, that is past the end.
    pub(crate) fn next_of(&self, position: usize) -> usize
        ensures { IfSome (slice_get self.now.agenda.commands position)
            (λ command. command.at < self.now.epochs → IsNextOf command.at self.now.agenda.commands (suc position) result) }
    {
        let end = self.agenda.commands.lines().len();
        self.next.get(position).copied().unwrap_or(end)
    }
}
