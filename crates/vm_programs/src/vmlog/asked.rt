//! What the words ask for.
ghost use Rattle.std.specs.Prelude.{◌≡◌, ◌≤◌, codes};
ghost use Rattle.std.specs.Option.{ForSome};
ghost use Rattle.vm_programs.specs.vmlog.CommandLine.{every_of};
ghost use Rattle.vm_words.specs.Words.{number_of};

use super::line::EVERY;
use vm_words::Request;

// The samples of an epoch.
pub(crate) fn every_of(request: &Request<'_>) -> u32
    requires { ForSome (number_of (codes "every") request.now) (λ n. (1 ≤ n) × (n ≤ 10000)) }
    ensures exact { result ≡ every_of request.now }
    ensures some { 1 ≤ result }
    ensures few { result ≤ 10000 }
{
    match request.number(EVERY.name) {
        Some(number) => number as u32,
        None => 1,
    }
}
