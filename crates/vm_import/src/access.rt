// What one line of a log tells of memory.

/// How memory is accessed.
#[derive(Clone, Copy, Debug, PartialEq, Eq)]
pub enum AccessKind {
    /// `I`: an instruction is fetched.
    Fetch,
    /// `L`: data is read.
    Load,
    /// `S`: data is written.
    Store,
    /// `M`: data is read and then written.
    Modify,
}

/// An access to memory: to `size` bytes, 1 to 1024, from the byte at `address` on. `address + size` is at most 2^64.
#[derive(Clone, Copy, Debug, PartialEq, Eq)]
pub struct Access {
    pub address: u64,
    pub size: u16,
    pub kind: AccessKind,
}
