// The pages that were touched last.
ghost use Rattle.std.specs.Prelude.{◌≡◌, ◌==◌, ◌%◌, ℕ};
ghost use Rattle.vm_import.specs.Recent.{recent_at, with_recent};

// No page has so high an address.
const NO_PAGE: u64 = u64::MAX;

const PLACES: usize = 256;

// The page that was touched last of those with the same remainder by 256, or NO_PAGE. Nearly all accesses are to these, and need no
// look-up.
#[derive(Clone, Copy)]
pub(crate) struct RecentPages {
    pages: [u64; PLACES],
}

impl RecentPages {
    pub(crate) fn new() -> RecentPages
        ensures { (place : ℕ) → recent_at result place ≡ NO_PAGE }
    {
        RecentPages {
            pages: [NO_PAGE; PLACES],
        }
    }

    #[inline(always)]
    pub(crate) fn has(&self, page: u64) -> bool
        ensures { result ≡ (recent_at self.now (page % 256) == page) }
    {
        self.pages[(page % 256) as usize] == page
    }

    pub(crate) fn note(&mut self, page: u64)
        ensures { self.new ≡ with_recent self.old page }
    {
        self.pages[(page % 256) as usize] = page;
    }
}
