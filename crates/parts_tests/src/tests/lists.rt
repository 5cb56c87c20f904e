// The fault of a list of values that no text has.
use super::check_words;
use vm_lists::{ListFault, ListFaultKind};

#[test]
fn a_want_of_memory_reads(rt: HostRuntime) {
    let fault = ListFault {
        at: 12,
        kind: ListFaultKind::Memory,
    };
    check_words(&rt, rt.alloc(), fault, "at byte 12: out of memory");
}
