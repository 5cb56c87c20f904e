// The first fault of a configuration, in the numbers and places of its format.
use std::alloc::{AllocError, Global};
use vm_config::{ConfigError, Fault, explain, read_config};

/// A fault by its number and its place, as `4 at key "frames"`.
fn told(alloc: Global, fault: Fault) -> Result<String, AllocError> {
    let place = fault.place;
    let number = fault.error.number();
    match fault.error {
        ConfigError::Trace { guest, step, fault } => {
            let fault = fault as u8;
            format!(in alloc; "{number} guest {guest} step {step} fault {fault} at {place}")
        }
        _ => format!(in alloc; "{number} at {place}"),
    }
}

/// What comes of a text: `ok`, or its first fault by its number and its place. The fault is asked for with its place and without it.
pub(crate) fn first_fault(alloc: Global, text: &str) -> Result<String, AllocError> {
    let refused = read_config(alloc, text.as_bytes()).err();
    let found = explain(alloc, text.as_bytes())?;
    if refused != found.map(|fault| fault.error) {
        return String::from_str(alloc, "another fault with its place than without it");
    }
    match found {
        Some(fault) => told(alloc, fault),
        None => String::from_str(alloc, "ok"),
    }
}
