//! On how many threads the guests run.
ghost use Rattle.std.specs.Prelude.{◌≡◌, ◌≤◌};
ghost use Rattle.vm_programs.specs.runs.Words.{HasWorkersInRange, workers_asked};

use vm_sim::MAX_WORKERS;
use vm_words::{Request, ValueKind, ValueWord};

/// `--workers N`, with N from 1 to 64.
pub const WORKERS: ValueWord = ValueWord {
    name: "workers",
    value_name: "N",
    help: "On how many threads the guests run, 1 to 64; 1 where it isn't said",
    kind: ValueKind::Number {
        least: 1,
        greatest: MAX_WORKERS as u64,
    },
};

/// On how many threads the guests run at most: 1 where the words don't say. A request of a command line that has [`WORKERS`] among
/// its values has its number in range.
pub fn workers_of(request: &Request<'_>) -> u32
    requires { HasWorkersInRange request.now }
    ensures asked { result ≡ workers_asked request.now }
    ensures within { (1 ≤ result) × (result ≤ 64) }
{
    match request.number(WORKERS.name) {
        Some(number) => number as u32,
        None => 1,
    }
}
