// Worked examples of admission.
use super::{check_eq, check_words};
use vm_admission::{AdmissionError, Books};

#[test]
fn overhead_counts(rt: HostRuntime) {
    let mut books = Books::new(100, 0, 1);
    check_eq(&rt, books.admit(60, 0), Ok(()));
    check_eq(&rt, books.admit(39, 0), Err(AdmissionError::NoMemory));
    check_eq(&rt, books.admit(38, 0), Ok(()));
    check_eq(&rt, books.admit(0, 0), Err(AdmissionError::NoMemory));
}

#[test]
fn reserves_are_booked(rt: HostRuntime) {
    let mut books = Books::new(100, 11, 0);
    check_eq(&rt, books.admit(4, 12), Err(AdmissionError::NoSwap));
    check_eq(&rt, books.admit(101, 12), Err(AdmissionError::NoMemory));
    check_eq(&rt, books.admit(4, 11), Ok(()));
}

#[test]
fn minimum_changes(rt: HostRuntime) {
    let mut books = Books::new(100, 12, 2);
    check_eq(&rt, books.admit(8, 8), Ok(()));
    check_eq(&rt, books.change_min(8, 4, 4), Ok(()));
    check_eq(&rt, books.change_min(4, 3, 1), Err(AdmissionError::NoSwap));
    check_eq(
        &rt,
        books.change_min(4, 99, 0),
        Err(AdmissionError::NoMemory),
    );
    check_eq(&rt, books.change_min(4, 98, 0), Ok(()));
    books.leave(98, 12);
    check_eq(&rt, books.admit(98, 12), Ok(()));
}

#[test]
fn refusals_read(rt: HostRuntime) {
    let alloc = rt.alloc();
    check_eq(&rt, AdmissionError::NoMemory as u8, 1);
    check_eq(&rt, AdmissionError::NoSwap as u8, 2);
    check_words(&rt, alloc, AdmissionError::NoMemory, "no memory to reserve");
    check_words(&rt, alloc, AdmissionError::NoSwap, "no swap to reserve");
}
