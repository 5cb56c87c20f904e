// Lines of two columns: a text, and what is to come of it.
use crate::table::Columns;

/// A text, and what is wanted.
#[derive(Clone, Copy)]
pub(crate) struct Pair<'a> {
    pub(crate) text: &'a str,
    pub(crate) wanted: &'a str,
}

impl<'a> Pair<'a> {
    /// The pair of a line.
    pub(crate) fn of(line: &'a str) -> Option<Self> {
        let mut columns = Columns::of(line);
        let pair = Pair {
            text: columns.text()?,
            wanted: columns.text()?,
        };
        columns.end()?;
        Some(pair)
    }

    /// The pair of a line whose text stands in quotation marks.
    pub(crate) fn quoted(line: &'a str) -> Option<Self> {
        let mut columns = Columns::of(line);
        let pair = Pair {
            text: columns.quoted()?,
            wanted: columns.text()?,
        };
        columns.end()?;
        Some(pair)
    }
}
