// What steps do, in words.
use std::alloc::{AllocError, Global};
use vm_trace::{Action, Queue, StepKind, Trace};

/// Adds bytes, each as two hexadecimal digits.
fn push_hex(alloc: Global, text: &mut String, bytes: &[u8]) -> Result<(), AllocError> {
    for byte in bytes {
        let digits = format!(in alloc; "{byte:02x}")?;
        text.push_str(digits.as_str())?;
    }
    Ok(())
}

/// The name of a queue.
fn queue_name(queue: Queue) -> &'static str {
    match queue {
        Queue::Inflate => "inflate",
        Queue::Deflate => "deflate",
        Queue::Stats => "statistics",
    }
}

/// What a step of a kind does.
fn words_without_bytes(alloc: Global, kind: StepKind) -> Result<String, AllocError> {
    match kind {
        StepKind::Read { page, offset, len } => {
            format!(in alloc; "read page {page} offset {offset} length {len}")
        }
        StepKind::Write { page, offset } => format!(in alloc; "write page {page} offset {offset}"),
        StepKind::Touch { page } => format!(in alloc; "touch page {page}"),
        StepKind::Free { page } => format!(in alloc; "free page {page}"),
        StepKind::Idle => String::from_str(alloc, "idle"),
        StepKind::Yield => String::from_str(alloc, "yield"),
        StepKind::Actual { pages } => format!(in alloc; "actual {pages}"),
        StepKind::Post { queue } => {
            let queue = queue_name(queue);
            format!(in alloc; "post {queue}")
        }
    }
}

/// What a step of a kind does, which brings these bytes along.
pub(crate) fn words_of_kind(
    alloc: Global,
    kind: StepKind,
    bytes: &[u8],
) -> Result<String, AllocError> {
    let mut words = words_without_bytes(alloc, kind)?;
    if !bytes.is_empty() {
        words.push_str(" bytes ")?;
        push_hex(alloc, &mut words, bytes)?;
    }
    Ok(words)
}

/// What an action does.
pub(crate) fn words_of(alloc: Global, action: Action) -> Result<String, AllocError> {
    match action {
        Action::Read { page, offset, len } => {
            words_of_kind(alloc, StepKind::Read { page, offset, len }, &[])
        }
        Action::Write {
            page,
            offset,
            bytes,
        } => { words_of_kind(alloc, StepKind::Write { page, offset }, bytes.as_slice()) }
        Action::Touch { page } => words_of_kind(alloc, StepKind::Touch { page }, &[]),
        Action::Free { page } => words_of_kind(alloc, StepKind::Free { page }, &[]),
        Action::Idle => words_of_kind(alloc, StepKind::Idle, &[]),
        Action::Yield => words_of_kind(alloc, StepKind::Yield, &[]),
        Action::Actual { pages } => words_of_kind(alloc, StepKind::Actual { pages }, &[]),
        Action::Post { queue, bytes } => {
            words_of_kind(alloc, StepKind::Post { queue }, bytes.as_slice())
        }
    }
}

/// What the step at a place of a trace does, which is asked for with its bytes and without them.
pub(crate) fn words_at(alloc: Global, trace: &Trace, place: usize) -> Result<String, AllocError> {
    let (Some(step), Some(kind)) = (trace.step(place), trace.kind(place)) else {
        return String::from_str(alloc, "no step");
    };
    let words = words_of(alloc, step.action())?;
    let words_by_kind = words_of_kind(alloc, kind, trace.bytes(place))?;
    if words != words_by_kind {
        return format!(in alloc; "{words}, and by its kind {words_by_kind}");
    }
    Ok(words)
}
