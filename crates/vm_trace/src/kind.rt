// What a step does, without its bytes.
use crate::step::Queue;

/// What a step does, without the bytes that it writes or posts: those lie in its trace, where [`Trace::bytes`](crate::Trace::bytes)
/// shows them. So it is small, and no bytes are copied to look at a step.
#[derive(Clone, Copy, Debug, PartialEq, Eq)]
pub enum StepKind {
    /// Reads `len` bytes of a page from the byte `offset` on.
    Read { page: u32, offset: u16, len: u8 },
    /// Writes its bytes to a page from the byte `offset` on.
    Write { page: u32, offset: u16 },
    /// Touches a page, and neither reads nor writes it.
    Touch { page: u32 },
    /// Frees a page.
    Free { page: u32 },
    /// Does nothing.
    Idle,
    /// Does nothing, and nothing more in this epoch.
    Yield,
    /// Posts its bytes as a raw buffer to a queue.
    Post { queue: Queue },
    /// Tells how many pages are in the balloon: writes the device's `actual`.
    Actual { pages: u32 },
}
