ghost use Rattle.std.specs.Prelude.{◌≡◌, ◌<◌, ◌≤◌, All, IfOk, vec_len};

use std::alloc::{AllocError, Global};
use std::marker::Model;
use std::process::Abort;
use std::thread::Threads;
use vm_sweep::{Task, run_round_with};

// A job that notes which tool ran it.
#[derive(Drop)]
struct Errand {
    number: u64,
}

// A tool, which can't be dropped: one that was lost would be refused. It serves the numbers below its reach.
struct Hammer {
    name: usize,
    reach: u64,
    blows: u64,
}

// What an errand leaves: its number, and who ran it, which no contract sees.
#[derive(Drop)]
struct Receipt {
    number: u64,
    by: usize,
}

impl Model for Receipt {
    ghost use Rattle.std.specs.Prelude.{ℕ};

    ghost Value = { ℕ };

    ghost view = { λ r. r.number };
}

impl Task for Errand {
    ghost use Rattle.std.specs.Prelude.{◌<◌};

    type Tool = Hammer;

    type Done = Receipt;

    ghost serves = { λ tool errand. errand.number < tool.reach };

    ghost result_of = { λ errand. errand.number };

    fn run(self, tool: &mut Hammer) -> Receipt {
        let left = tool.reach - self.number;
        tool.blows = tool.blows.wrapping_add(left / left);
        Receipt {
            number: self.number,
            by: tool.name,
        }
    }
}

// Errands 0, 1, 2 and so on.
fn errands(alloc: Global, count: u64) -> Result<Vec<Errand>, AllocError>
    requires { count ≤ 256 }
    ensures len { IfOk result (λ list. vec_len list ≡ count) }
    ensures numbers { IfOk result (λ list. All (λ errand. errand.number < 256) list.items) }
{
    let mut list = Vec::with_capacity(alloc, count as usize)?;
    for number in 0..count {
        list.push_reserved(Errand { number });
    }
    Ok(list)
}

// Hammers 0, 1, 2 and so on.
fn hammers(alloc: Global, count: usize) -> Result<Vec<Hammer>, AllocError>
    ensures len { IfOk result (λ list. vec_len list ≡ count) }
    ensures reach { IfOk result (λ list. All (λ hammer. hammer.reach ≡ 256) list.items) }
{
    let mut list = Vec::with_capacity(alloc, count)?;
    for name in 0..count {
        list.push_reserved(Hammer {
            name,
            reach: 256,
            blows: 0,
        });
    }
    Ok(list)
}

// How many blows the hammers gave, which is once a run.
fn put_away(mut list: Vec<Hammer>) -> u64 {
    let mut all: u64 = 0;
    while let Some(hammer) = list.pop() {
        let Hammer {
            name: _,
            reach: _,
            blows,
        } = hammer;
        all = all.wrapping_add(blows);
    }
    list.destroy_empty();
    all
}

// Whether there is a receipt for each errand, in order, by one of so many hammers.
fn are_receipts(list: &[Receipt], errands: u64, hammers: usize) -> bool {
    let mut right = true;
    let mut number: u64 = 0;
    for receipt in list {
        right = right && receipt.number == number && receipt.by < hammers;
        number = number.wrapping_add(1);
    }
    right && number == errands
}

// Whether these are the errands, in order.
fn are_errands(list: &[Errand], errands: u64) -> bool {
    let mut right = true;
    let mut number: u64 = 0;
    for errand in list {
        right = right && errand.number == number;
        number = number.wrapping_add(1);
    }
    right && number == errands
}

// Whether so many errands are run by so many hammers, or come back where the round is refused memory. An error where these lists
// are: there is nothing to run, and a test lets that pass, so that each allocation may fail.
fn are_run<R: Threads + Sync>(
    rt: &R,
    alloc: Global,
    count: u64,
    among: usize,
) -> Result<bool, AllocError>
    requires errands { count ≤ 256 }
    requires hammers { (0 < among) × (among ≤ 64) }
{
    let list = errands(alloc, count)?;
    let mut tools = hammers(alloc, among)?;
    let (right, runs) = match run_round_with(rt, alloc, list, &mut tools) {
        Ok(receipts) => (are_receipts(&receipts, count, among), count),
        Err(refused) => (are_errands(&refused.jobs.into_vec(), count), 0),
    };
    let all_back = tools.len() == among;
    let each_once = put_away(tools) == runs;
    Ok(right && all_back && each_once)
}

// Asserts it, for a list of numbers of errands.
fn check_runs(rt: &(impl Abort + AllocGlobal + Threads + Sync), counts: &[u64], among: usize)
    requires { (0 < among) × (among ≤ 64) }
{
    for count in counts {
        let count = (*count).min(256);
        assert!(rt;
            are_run(rt, rt.alloc(), count, among).unwrap_or(true),
            "{count} errands"
        );
    }
}

#[test]
fn one_hammer(rt: HostRuntime) {
    check_runs(&rt, &[0, 1, 64], 1);
}

#[test]
fn two_hammers(rt: HostRuntime) {
    check_runs(&rt, &[0, 1, 2, 64], 2);
}

#[test]
fn four_hammers(rt: HostRuntime) {
    check_runs(&rt, &[0, 1, 3, 64, 256], 4);
}

#[test]
fn many_hammers(rt: HostRuntime) {
    check_runs(&rt, &[256], 64);
}
