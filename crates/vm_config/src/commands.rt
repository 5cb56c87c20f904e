// The commands of a configuration.
ghost use Rattle.std.specs.Prelude.{◌≡◌, [], map, codes};
ghost use Rattle.std.specs.List.{list_all};
ghost use Rattle.serde_json.specs.Find.{get};
ghost use Rattle.vm_json.specs.View.{view};
ghost use Rattle.vm_config.specs.Located.{command_at, commands_at};
ghost use Rattle.vm_config.specs.Outcomes.{Answers};
ghost use Rattle.vm_config.specs.Places.{IsOrLacksMemory};
ghost use Rattle.vm_config.specs.Reading.{is_line_byte, line_in};

use crate::error::ConfigError;
use crate::fault::{Fault, at};
use crate::keys::{number, text};
use crate::place::{Key, Part};
use crate::schedule::{Schedule, Scheduled};
use std::alloc::Global;
use vm_json::Value;

const MAX_AT: u64 = 9999;

const MAX_LINE: usize = 256;

fn are_line_bytes(bytes: &[u8]) -> bool
    ensures { result ≡ list_all is_line_byte bytes.now }
{
    bytes.iter().all(|byte| matches!(*byte, b' '..=b'~'))
}

// A line of 1 to 256 printable characters of ASCII and spaces.
fn line<'a>(object: &Value<'a>) -> Result<&'a str, ConfigError>
    ensures { Answers result (λ s. s.now) (line_in (get (codes "line") (view object.now))) }
{
    let line = text(object, "line")?;
    if line.is_empty() || line.len() > MAX_LINE || !are_line_bytes(line.as_bytes()) {
        return Err(ConfigError::Range);
    }
    Ok(line)
}

// The command of this number.
fn command(alloc: Global, place: usize, object: &Value<'_>) -> Result<Scheduled, Fault>
    ensures { IsOrLacksMemory result (command_at place (view object.now)) }
{
    let part = Part::Command(place);
    let epoch = number(object, part, Key::At, 0, MAX_AT)?;
    let line = at(part, Key::Line, line(object))?;
    let command = Scheduled::new(alloc, epoch as u32, line)?;
    Ok(command)
}

// The commands, one by one.
pub(crate) fn commands(alloc: Global, objects: &[Value<'_>]) -> Result<Schedule, Fault>
    ensures { IsOrLacksMemory result (commands_at (map view objects.now) []) }
{
    let mut commands = Schedule::new(alloc);
    for object in objects {
        let command = command(alloc, commands.lines().len(), object)?;
        commands.push(command)?;
    }
    Ok(commands)
}
