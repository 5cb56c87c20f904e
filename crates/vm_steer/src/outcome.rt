// What is decided for one domain.

// What is decided for a steered domain, in units.
#[derive(Clone, Copy)]
pub(crate) struct Outcome {
    // How often it is in the revocation list.
    pub(crate) revoked: u32,
    // .. in the grant list.
    pub(crate) granted: u32,
    // .. in the rebalancing list.
    pub(crate) rebalanced: u32,
    // What it is meant to hold after all decisions.
    pub(crate) target: u32,
}
