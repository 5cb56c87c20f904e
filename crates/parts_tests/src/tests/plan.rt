// Lists of moves for no guests.
use super::check_eq;
use std::test::Fail;
use vm_plan::{Percents, Plan, State, Thresholds, grant, revocations, revoke};

const PERCENTS: Percents = Percents {
    high: 600,
    soft: 400,
    hard: 200,
    low: 100,
};

#[test]
fn a_new_plan_has_no_stretches(rt: HostRuntime) {
    check_eq(&rt, Plan::new(rt.alloc()).stretches(), [].as_slice());
}

// No memory is wanted for them, so that none can be refused.
#[test]
fn without_rows_there_is_a_plan(rt: HostRuntime) -> Result<(), Fail> {
    let alloc = rt.alloc();
    let thresholds = Thresholds::of(100, PERCENTS);
    let _falls = revoke(alloc, State::Low, 0, &thresholds, 7500, &[])?;
    let _rises = grant(alloc, State::High, 100, &thresholds, 7500, &[])?;
    let _taken = revocations(alloc, 7500, u64::MAX, &[])?;
    Ok(())
}
