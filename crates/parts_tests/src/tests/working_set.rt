// A working set of many pages.
ghost use Rattle.std.specs.Prelude.{◌+◌, ◌≤◌, ◌^◌};

use super::check_eq;
use std::process::Abort;
use vm_import::{Effect, RankedTouch, WorkingSet};

// Adds an access.
fn add(rt: &impl Abort, set: &mut WorkingSet, effect: Effect, address: u64, size: u16)
    requires some { 1 ≤ size }
    requires few { size ≤ 1024 }
    requires addressed { address + size ≤ 2 ^ 64 }
{
    assert!(rt; set.page_count() < 1000);
    set.access(effect, address, size).expect(rt, "memory");
}

fn touch(rank: u32, offset: u16, writes: bool) -> RankedTouch {
    RankedTouch {
        rank,
        offset,
        writes,
    }
}

#[test]
fn many_pages_are_touched(rt: HostRuntime) {
    let mut set = WorkingSet::new(rt.alloc());
    for page in 0..300u64 {
        add(&rt, &mut set, Effect::Write, page * 4096 + page, 1);
    }
    for page in 0..300u64 {
        add(&rt, &mut set, Effect::Read, page * 4096, 1);
    }
    check_eq(&rt, set.page_count(), 300);
    check_eq(&rt, set.kept().len(), 300);
    check_eq(&rt, set.kept().last().copied(), Some(touch(299, 299, true)));
    set.begin_interval();
    for page in 0..300u64 {
        add(&rt, &mut set, Effect::Read, (299 - page) * 4096, 1);
    }
    check_eq(&rt, set.kept().len(), 300);
    check_eq(&rt, set.kept().first().copied(), Some(touch(299, 0, false)));
}
