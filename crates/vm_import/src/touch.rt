// What touches a page, and what is kept of it.
ghost use Rattle.std.specs.Prelude.{◌≡◌};
ghost use Rattle.vm_import.specs.Touches.{writes_of};

/// The bytes of a page.
pub(crate) const PAGE_BYTES: u64 = 4096;

/// What an access does with the bytes that it reaches.
#[derive(Clone, Copy, Debug, PartialEq, Eq)]
pub enum Effect {
    /// It reads them.
    Read,
    /// It writes them.
    Write,
    /// It reads them, and then writes them.
    Modify,
}

impl Effect {
    // Whether the bytes are written.
    #[inline(always)]
    pub(crate) fn writes(self) -> bool
        ensures { result ≡ writes_of self }
    {
        match self {
            Effect::Read => false,
            Effect::Write | Effect::Modify => true,
        }
    }
}

/// A touch of a page by an access.
#[derive(Clone, Copy, Debug, PartialEq, Eq)]
pub struct Touch {
    /// The address of the page in pages of 4096 bytes: below 2^52.
    pub page: u64,
    /// The byte of the page where the access begins, and 0 on a further page: below 4096.
    pub offset: u16,
    pub writes: bool,
}

/// A touch of a page that is named by its rank.
#[derive(Clone, Copy, Debug, PartialEq, Eq)]
pub struct RankedTouch {
    /// The place of the page's first touch among those of all pages, from 0.
    pub rank: u32,
    /// The byte of the page: below 4096.
    pub offset: u16,
    pub writes: bool,
}
