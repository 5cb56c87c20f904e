// The bytes of a step, and what is said of a step that isn't added.
use super::{check_eq, check_words};
use vm_trace::{Bytes, PushError, TraceError};

#[test]
fn bytes_lie_in_place(rt: HostRuntime) {
    let bytes = Bytes::from_slice(&[1, 2, 3]);
    check_eq(&rt, bytes.len(), 3);
    check_eq(&rt, bytes.as_slice(), [1, 2, 3].as_slice());
    check_eq(&rt, bytes.is_empty(), false);
    check_eq(&rt, Bytes::from_slice(&[]).is_empty(), true);
    let bytes = Bytes::from_slice(&[3, 0, 0, 0]);
    check_eq(&rt, bytes.as_slice(), [3, 0, 0, 0].as_slice());
}

#[test]
fn refused_steps_read(rt: HostRuntime) {
    let alloc = rt.alloc();
    let hex = PushError::Fault(TraceError::Hex);
    check_words(&rt, alloc, hex, "not hexadecimal bytes");
    check_words(&rt, alloc, PushError::Memory, "out of memory");
}
