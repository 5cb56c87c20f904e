// What has become of a host log.
use vm_recorded::Limit;

/// What has become of a host log.
#[derive(Clone, Copy, Debug, PartialEq, Eq)]
pub struct Planned {
    /// How many epochs the text has.
    pub epochs: u32,
    /// The limit that would be passed with one epoch more, where that ended the reading.
    pub limit: Option<Limit>,
    /// How many bad samples were passed over.
    pub bad: u64,
}
