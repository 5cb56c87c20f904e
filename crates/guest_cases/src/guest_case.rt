// The case of a guest, from its setup to its end.
use crate::call::Call;
use crate::draft::Draft;
use crate::facts::Facts;
use crate::fault::{Fault, compare};
use crate::lone_guest::LoneGuest;
use crate::script::{Difference, Line};
use crate::value::number;
use std::alloc::{AllocError, Global};
use vm_guest::GuestSpec;

const FRAMES: u32 = 100;

// What stands before the first space of a line, and behind it.
fn split_word(line: &str) -> (&str, &str) {
    match line.split_once(' ') {
        Some(parts) => parts,
        None => (line, ""),
    }
}

// What stands behind this word, which has to be there.
fn after<'a>(word: &str, line: &'a str) -> Result<&'a str, Fault> {
    let (first, rest) = split_word(line);
    if first == word {
        Ok(rest)
    } else {
        Err(Fault::Unknown)
    }
}

/// A guest, and what is to be seen of it where a line says nothing else.
pub struct GuestCase {
    lone: LoneGuest,
    facts: Facts,
}

impl GuestCase {
    /// The guest that the lines `guest`, `steps` and `start` say.
    pub fn start(alloc: Global, guest: &str, steps: &str, start: &str) -> Result<GuestCase, Fault> {
        let draft = Draft::parse(after("guest", guest)?)?;
        let facts = Facts::at_start(&draft);
        let spec = draft.spec(alloc, after("steps", steps)?)?;
        let lone = match start {
            "start" => LoneGuest::start(alloc, spec, FRAMES)?,
            "start in room" => LoneGuest::start_in_room(alloc, spec, FRAMES)?,
            _ => LoneGuest::start(alloc, spec, number(after("on", after("start", start)?)?)?)?,
        };
        Ok(GuestCase { lone, facts })
    }

    /// Does what a line says.
    pub fn obey(&mut self, alloc: Global, line: &str) -> Result<(), Fault> {
        let (word, rest) = split_word(line);
        match word {
            "view" => self.view(alloc, rest),
            "see" => self.see(alloc, rest),
            "epochs" => self.epochs(alloc, rest),
            "spares" => self.spares(alloc, rest),
            "page" => self.page(alloc, rest),
            "reads" => compare(self.lone.reads(alloc)?, rest),
            "bytes" => compare(self.lone.first_bytes(alloc)?, rest),
            "free" => compare(self.lone.free().to_string(alloc)?, rest),
            "reserve" => compare(self.lone.reserve().to_string(alloc)?, rest),
            "work" => compare(self.lone.work(alloc)?, rest),
            "stats" => compare(self.lone.stats(alloc)?, rest),
            _ => self.lone.call(Call::parse(line)?),
        }
    }

    // Compares all that is shown: these, and the rest as in the last such line.
    fn view(&mut self, alloc: Global, text: &str) -> Result<(), Fault> {
        self.facts = self.facts.with(text)?;
        self.lone.facts().compare(alloc, &self.facts)
    }

    // Compares these alone.
    fn see(&self, alloc: Global, text: &str) -> Result<(), Fault> {
        let facts = self.lone.facts();
        facts.compare(alloc, &facts.with(text)?)
    }

    // Goes on for so many epochs, and compares these alone after each.
    fn epochs(&mut self, alloc: Global, text: &str) -> Result<(), Fault> {
        let Some((count, wanted)) = text.split_once(", ") else {
            return Err(Fault::Unknown);
        };
        for _ in 0..number(count)? {
            self.lone.next_epoch()?;
            self.see(alloc, wanted)?;
        }
        Ok(())
    }

    // Has spares come back, and compares how many.
    fn spares(&mut self, alloc: Global, text: &str) -> Result<(), Fault> {
        let wanted = after("back", text)?;
        compare(self.lone.spares_back()?.to_string(alloc)?, wanted)
    }

    fn page(&self, alloc: Global, text: &str) -> Result<(), Fault> {
        let (page, wanted) = split_word(text);
        compare(self.lone.page(alloc, number(page)?)?, wanted)
    }

    /// Ends the guest, and compares what this line says of that.
    pub fn end(self, alloc: Global, line: &str) -> Result<(), Fault> {
        let GuestCase { lone, facts: _ } = self;
        match line.strip_prefix("end frames ") {
            Some(wanted) => compare_frames(alloc, lone.end_before(), wanted),
            None => {
                let spec = lone.end();
                compare_spec(alloc, &spec, after("end", line)?)
            }
        }
    }
}

// Compares the numbers of two frames.
fn compare_frames(alloc: Global, numbers: Option<(u32, u32)>, wanted: &str) -> Result<(), Fault> {
    let Some((first, second)) = numbers else {
        return Err(Fault::NotAllowed);
    };
    compare(format!(in alloc; "{first} {second}")?, wanted)
}

// Compares what came back of a guest, where anything is wanted of that.
fn compare_spec(alloc: Global, spec: &GuestSpec, wanted: &str) -> Result<(), Fault> {
    if wanted.is_empty() {
        return Ok(());
    }
    let GuestSpec { size, min, .. } = *spec;
    let steps = spec.trace.len();
    compare(
        format!(in alloc; "size {size}, min {min}, steps {steps}")?,
        wanted,
    )
}

// Does what lines say, and keeps those that go otherwise.
fn obey_all<'a>(
    alloc: Global,
    case: &mut GuestCase,
    lines: &[Line<'a>],
    differences: &mut Vec<Difference<'a>>,
) -> Result<(), AllocError> {
    for line in lines {
        if let Err(fault) = case.obey(alloc, line.text) {
            differences.push(Difference { line: *line, fault })?;
        }
    }
    Ok(())
}

// A case that is too short for one.
fn refuse<'a>(lines: &[Line<'a>], differences: &mut Vec<Difference<'a>>) -> Result<(), AllocError> {
    if let Some(line) = lines.first() {
        let fault = Fault::Unknown;
        differences.push(Difference { line: *line, fault })?;
    }
    Ok(())
}

/// Tries a case: the lines that go otherwise than they say join the differences.
pub fn try_guest<'a>(
    alloc: Global,
    lines: &[Line<'a>],
    differences: &mut Vec<Difference<'a>>,
) -> Result<(), AllocError> {
    let [guest, steps, start, calls @ .., end] = lines else {
        return refuse(lines, differences);
    };
    let mut case = match GuestCase::start(alloc, guest.text, steps.text, start.text) {
        Ok(case) => case,
        Err(fault) => {
            differences.push(Difference {
                line: *guest,
                fault,
            })?;
            return Ok(());
        }
    };
    let went = obey_all(alloc, &mut case, calls, differences);
    if let Err(fault) = case.end(alloc, end.text) {
        differences.push(Difference { line: *end, fault })?;
    }
    went
}
