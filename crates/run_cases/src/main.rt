//! Tries cases that lie in files: whole runs, and the programs from words and texts to statuses and what is written.
//!
//! In the folder where it runs, `KIND.cases` are the cases of a kind, in blocks of lines that its head describes, and other files are
//! what these name. A line `KIND COUNT ok` says that so many cases were tried, and that each ended as it has to; where `D` of them did
//! not, a line for each tells which and how, and `KIND COUNT differ D` ends them. A block that is none of its kind differs.
#![tactic(auto)]

mod cases;
mod ends;
mod kind;
mod numbers;
mod programs;
mod reports;
mod requests;
mod series;
mod streams;
mod system;
mod tally;

use kind::Kind;
use std::io;

fn main(rt: HostRuntime) -> io::Result<()> {
    for kind in Kind::ALL {
        kind.try_all(&rt)?;
    }
    Ok(())
}
