// A line of a table: its columns, and what trying it came to.
use std::alloc::{AllocError, Global};
use std::fmt::Display;

/// What stands between two columns. Spaces beside it are no part of a column, so that columns may be aligned.
const SEPARATOR: &str = " | ";

/// What trying a line came to.
#[derive(Drop)]
pub(crate) enum Outcome {
    /// What came is what the line wants.
    Agrees,
    /// What came differs from what the line wants.
    Differs(String),
    /// The line is no case of its kind.
    Malformed,
}

impl Outcome {
    /// Whether a value reads as it is wanted to.
    pub(crate) fn of(
        alloc: Global,
        wanted: &str,
        came: &impl Display,
    ) -> Result<Outcome, AllocError> {
        let came = format!(in alloc; "{came}")?;
        if came.as_str() == wanted {
            return Ok(Outcome::Agrees);
        }
        Ok(Outcome::Differs(came))
    }
}

/// The columns of a line that are left, from left to right.
#[derive(Drop)]
pub(crate) struct Columns<'a> {
    left: Option<&'a str>,
}

impl<'a> Columns<'a> {
    /// All columns of a line.
    pub(crate) fn of(line: &'a str) -> Self {
        Columns { left: Some(line) }
    }

    /// The next column, without the spaces around it.
    pub(crate) fn text(&mut self) -> Option<&'a str> {
        let line = self.left.take()?;
        let Some((column, rest)) = line.split_once(SEPARATOR) else {
            return Some(line.trim());
        };
        self.left = Some(rest);
        Some(column.trim())
    }

    /// The next column, which stands in quotation marks: what stands between them, with its spaces. Nothing is escaped.
    pub(crate) fn quoted(&mut self) -> Option<&'a str> {
        self.text()?.strip_prefix('"')?.strip_suffix('"')
    }

    /// The next column, which is a decimal number.
    pub(crate) fn number(&mut self) -> Option<u64> {
        self.text()?.parse::<u64>().ok()
    }

    /// Nothing, where no column is left.
    pub(crate) fn end(self) -> Option<()> {
        if self.left.is_some() {
            return None;
        }
        Some(())
    }
}
