// Configurations that hold the keys of a case. Of a key that comes twice the last one counts.
use std::alloc::{AllocError, Global};

/// The part of a configuration that keys are given to.
#[derive(Clone, Copy)]
pub(crate) enum Part {
    Root,
    Guest,
}

impl Part {
    /// The part of a name.
    pub(crate) fn of(name: &str) -> Option<Self> {
        match name {
            "root" => Some(Part::Root),
            "guest" => Some(Part::Guest),
            _ => None,
        }
    }
}

/// A configuration without guests, with these keys at its end.
fn with_root(alloc: Global, version: u64, keys: &str) -> Result<String, AllocError> {
    format!(in alloc; "{{\"version\":{version},\"frames\":10,\"epochs\":1,\"guests\":[],{keys}}}")
}

/// A configuration of a guest with 4 pages, with these keys at the guest's end.
fn with_guest(alloc: Global, version: u64, keys: &str) -> Result<String, AllocError> {
    format!(in alloc;
        "{{\"version\":{version},\"frames\":10,\"epochs\":1,\"guests\":[{{\"name\":\"g\",\"size\":4,\"min\":1,{keys}}}]}}"
    )
}

/// A configuration with these keys at the end of a part.
pub(crate) fn with_keys(
    alloc: Global,
    part: Part,
    version: u64,
    keys: &str,
) -> Result<String, AllocError> {
    match part {
        Part::Root => with_root(alloc, version, keys),
        Part::Guest => with_guest(alloc, version, keys),
    }
}
