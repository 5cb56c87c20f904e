//! Tries guests by worked examples that are data: scripts of calls, one a line, with what is to be seen between them.
//!
//! Each file `NAME.cases` in the folder where it runs is a list of cases, whose lines its head explains. For each file a line says
//! how many cases and lines of them were tried, and before it a line for each that went otherwise than is written there, one that
//! is no such line, or that asks for a call that is not allowed then: `NAME.cases:NUMBER: LINE: found ..`.
#![tactic(auto)]

mod call;
mod draft;
mod facts;
mod fault;
mod guest_case;
mod lone_guest;
mod script;
mod shown;
mod trace;
mod value;

use crate::script::try_script;
use std::io;

const NAMES: [&str; 8] = [
    "memory",
    "balloon",
    "boundary",
    "raw-posts",
    "sampling",
    "work",
    "limits",
    "version-3",
];

fn main(rt: HostRuntime) -> io::Result<()> {
    for name in NAMES {
        try_script(&rt, rt.alloc(), name)?;
    }
    Ok(())
}
