// The commands, and the word of a domain.
ghost use Rattle.std.specs.Prelude.{◌≡◌, IfOk, string_bytes};

use std::alloc::{AllocError, Global};
use std::marker::Model;

/// The word that names a domain. A clause reads it as its bytes.
#[derive(Debug, Drop)]
pub struct Domain {
    word: String,
}

impl Model for Domain {
    ghost use Rattle.std.specs.Prelude.{ℕ, List, string_bytes};

    ghost Value = { List ℕ };

    ghost view = { λ d. string_bytes d.word };
}

impl Domain {
    /// A copy of the word.
    pub fn new(alloc: Global, word: &str) -> Result<Self, AllocError>
        ensures { IfOk result (λ domain. domain ≡ word.now) }
    {
        Ok(Domain {
            word: String::from_str(alloc, word)?,
        })
    }

    /// The word.
    pub fn as_str(&self) -> &str
        ensures { result.now ≡ self.now }
    {
        self.word.as_str()
    }

    /// The word as a `String`, which takes no memory.
    pub fn into_string(self) -> String
        ensures { string_bytes result ≡ self }
    {
        let Domain { word } = self;
        word
    }
}

impl From<String> for Domain {
    ghost use Rattle.std.specs.Prelude.{◌≡◌, string_bytes};

    ghost from_gives = { λ word domain. domain ≡ string_bytes word };

    fn from(word: String) -> Domain {
        Domain { word }
    }
}

/// What a line asks for. D, the domain, doesn't begin with a dash. A page is of as many KiB as [`parse_line`](crate::parse_line)
/// was told.
#[derive(Debug, Drop)]
pub enum Command {
    /// `start D`
    Start { domain: Domain },
    /// `destroy D`
    Destroy { domain: Domain },
    /// `setmem D SIZE`, the size in pages.
    SetMemory { domain: Domain, pages: u64 },
    /// `memtune D --min-guarantee SIZE`, the size in pages, at least one.
    SetMinimum { domain: Domain, pages: u64 },
    /// `memshares D N`, where N is 1 to 1000000.
    SetShares { domain: Domain, shares: u32 },
    /// `dommemstat D`
    ShowStatistics { domain: Domain },
}
