// Ranges of keys: both ends of each, and the numbers beside them.
use crate::config::faults::first_fault;
use crate::config::templates::{Part, with_keys};
use crate::table::{Columns, Outcome};
use std::alloc::{AllocError, Global};

/// The range of a key: the least number, and the greatest one of each version that knows the key.
#[derive(Drop)]
struct Case<'a> {
    part: Part,
    key: &'a str,
    least: u64,
    greatest: [Option<u64>; 3],
}

/// The greatest number of a version. `-` is none: it does not know the key.
fn greatest_of(column: &str) -> Option<Option<u64>> {
    if column == "-" {
        return Some(None);
    }
    Some(Some(column.parse::<u64>().ok()?))
}

impl<'a> Case<'a> {
    fn of(line: &'a str) -> Option<Self> {
        let mut columns = Columns::of(line);
        let case = Case {
            part: Part::of(columns.text()?)?,
            key: columns.text()?,
            least: columns.number()?,
            greatest: [
                greatest_of(columns.text()?)?,
                greatest_of(columns.text()?)?,
                greatest_of(columns.text()?)?,
            ],
        };
        columns.end()?;
        Some(case)
    }

    /// What comes of a number at the key.
    fn came(&self, alloc: Global, version: u64, number: u64) -> Result<String, AllocError> {
        let key = self.key;
        let keys = format!(in alloc; "\"{key}\":{number}")?;
        let text = with_keys(alloc, self.part, version, &keys)?;
        first_fault(alloc, &text)
    }

    /// What is to come of a number outside the range.
    fn refusal(&self, alloc: Global) -> Result<String, AllocError> {
        let key = self.key;
        match self.part {
            Part::Root => format!(in alloc; "4 at key \"{key}\""),
            Part::Guest => format!(in alloc; "4 at guest 0, key \"{key}\""),
        }
    }

    /// Tries both ends of the range in a version that knows the key, and the numbers beside them. The answer is the first difference.
    fn difference(
        &self,
        alloc: Global,
        version: u64,
        greatest: Option<u64>,
    ) -> Result<Option<String>, AllocError> {
        let Some(greatest) = greatest else {
            return Ok(None);
        };
        let below = self.least.checked_sub(1);
        let above = greatest.checked_add(1);
        let inside = String::from_str(alloc, "ok")?;
        let outside = self.refusal(alloc)?;
        let tries = [
            (Some(self.least), inside.as_str()),
            (Some(greatest), inside.as_str()),
            (below, outside.as_str()),
            (above, outside.as_str()),
        ];
        for (number, wanted) in tries {
            if let Some(number) = number {
                let came = self.came(alloc, version, number)?;
                if came.as_str() != wanted {
                    return Ok(Some(format!(in alloc; "version {version}, {number}: {came}")?));
                }
            }
        }
        Ok(None)
    }
}

/// Tries a line.
pub(crate) fn outcome(alloc: Global, line: &str) -> Result<Outcome, AllocError> {
    let Some(case) = Case::of(line) else {
        return Ok(Outcome::Malformed);
    };
    let [first, second, third] = case.greatest;
    for (version, greatest) in [(1, first), (2, second), (3, third)] {
        if let Some(told) = case.difference(alloc, version, greatest)? {
            return Ok(Outcome::Differs(told));
        }
    }
    Ok(Outcome::Agrees)
}
