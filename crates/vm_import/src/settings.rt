//! How a log is read, and what is made of it.
ghost use Rattle.std.specs.Prelude.{◌≤◌, string_len};
ghost use Rattle.std.specs.Option.{ForSome};

/// How a log is read, and what is made of it.
#[derive(Debug, Drop)]
pub struct ImportSettings {
    /// The guest's name, at most 32 bytes, which a configuration has to take as one.
    pub name: String,
    /// The guest's minimum in pages, 1 to 262144; above its size it is the size. Where it isn't said it is half of the size, rounded
    /// up.
    pub min: Option<u32>,
    /// Accesses in an interval, 1 to 1000000000.
    pub interval: u32,
    /// Steps in an epoch, 1 to 65536.
    pub quantum: u32,
    /// How many accesses at the start of the log are left out.
    pub skip: u64,
    /// The most steps of the trace, 1 to 1000000.
    pub steps: u32,
    /// Whether an instruction that is fetched touches its page.
    pub has_code: bool,
    ghost name_short: { string_len name ≤ 32 },
    ghost min_in_range: { ForSome min (λ pages. (1 ≤ pages) × (pages ≤ 262144)) },
    ghost interval_in_range: { (1 ≤ interval) × (interval ≤ 1000000000) },
    ghost quantum_in_range: { (1 ≤ quantum) × (quantum ≤ 65536) },
    ghost steps_in_range: { (1 ≤ steps) × (steps ≤ 1000000) },
}
