//! Equal positions in a row.

/// A position that comes several times in a row.
#[derive(Clone, Copy, Debug, PartialEq, Eq)]
pub struct Stretch {
    /// The position of a guest.
    pub position: u32,
    /// How often it comes, once for each page.
    pub count: u32,
}
