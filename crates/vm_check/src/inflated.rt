// Steps that touch a page which the trace put into the balloon and never takes out.
ghost use Rattle.std.specs.Prelude.{◌≡◌, IfOk, length, slice_get};
ghost use Rattle.vm_balloon.specs.Virtio.{page_numbers};
ghost use Rattle.vm_pages.specs.Pages.{contains, insert, insert_all, no_pages};
ghost use Rattle.vm_check.specs.Inflated.{action_at, deflated_in, first_stuck, inflated_page, posted_by, stuck_page, touched_by, with_page};

use crate::what::What;
use std::alloc::{AllocError, Global};
use vm_balloon::page_at;
use vm_domains::GuestSpec;
use vm_pages::PageMarks;
use vm_trace::{Queue, StepKind, Trace};

// The bytes that the step at a place posts to a queue, none where it doesn't.
fn posted_at(trace: &Trace, queue: Queue, place: usize) -> &[u8]
    ensures { page_numbers result.now ≡ posted_by queue (action_at trace.now place) }
{
    match trace.kind(place) {
        Some(StepKind::Post { queue: other }) if other == queue => trace.bytes(place),
        _ => &[],
    }
}

// The page that the step at a place touches.
fn touched_at(trace: &Trace, place: usize) -> Option<u32>
    ensures { result ≡ touched_by (action_at trace.now place) }
{
    match trace.kind(place)? {
        StepKind::Read { page, .. } => Some(page),
        StepKind::Write { page, .. } => Some(page),
        StepKind::Touch { page } => Some(page),
        _ => None,
    }
}

// Marks a page, if it is the guest's.
fn mark(page: u32, size: u32, marks: &mut PageMarks)
    requires { length marks.old ≡ size }
    ensures pages { marks.new ≡ insert marks.old page }
    ensures size { length marks.new ≡ size }
{
    if page < size {
        marks.insert(page);
    }
}

// Marks the page at a place of a buffer, if one stands there.
fn mark_at(bytes: &[u8], place: usize, size: u32, marks: &mut PageMarks)
    requires { length marks.old ≡ size }
    ensures pages { marks.new ≡ with_page marks.old (slice_get (page_numbers bytes.now) place) }
    ensures size { length marks.new ≡ size }
{
    if let Some(page) = page_at(bytes, place) {
        mark(page, size, marks);
    }
}

// Marks the pages that a buffer names.
fn mark_all(bytes: &[u8], size: u32, marks: &mut PageMarks)
    requires { length marks.old ≡ size }
    ensures pages { marks.new ≡ insert_all marks.old (page_numbers bytes.now) }
    ensures size { length marks.new ≡ size }
{
    for i in 0..bytes.len() / 4 {
        mark_at(bytes, i, size, marks);
    }
}

// The pages of a guest of this size that steps post to the deflate queue.
fn deflated_in(alloc: Global, size: u32, trace: &Trace) -> Result<PageMarks, AllocError>
    ensures pages { IfOk result (λ marks. marks ≡ deflated_in size trace.now) }
    ensures size { IfOk result (λ marks. length marks ≡ size) }
{
    let mut marks = PageMarks::new(alloc, size)?;
    for place in 0..trace.len() {
        mark_all(posted_at(trace, Queue::Deflate, place), size, &mut marks);
    }
    Ok(marks)
}

// Whether a page is marked; no page behind the guest's is.
fn is_marked(size: u32, marks: &PageMarks, page: u32) -> bool
    requires { length marks.now ≡ size }
    ensures { result ≡ contains marks.now page }
{
    page < size && marks.contains(page)
}

// The page that the step at a place touches, if it is in the balloon for good.
fn stuck_at(
    trace: &Trace,
    size: u32,
    deflated: &PageMarks,
    inflated: &PageMarks,
    place: usize,
) -> Option<u32>
    requires deflated { length deflated.now ≡ size }
    requires inflated { length inflated.now ≡ size }
    ensures { result ≡ stuck_page deflated.now inflated.now (action_at trace.now place) }
{
    let page = touched_at(trace, place)?;
    if is_marked(size, inflated, page) && !is_marked(size, deflated, page) {
        return Some(page);
    }
    None
}

// The first step that touches a page which is in the balloon for good.
fn first_stuck(
    alloc: Global,
    trace: &Trace,
    size: u32,
    deflated: &PageMarks,
) -> Result<Option<What>, AllocError>
    requires { length deflated.now ≡ size }
    ensures { IfOk result (λ found. found ≡ first_stuck deflated.now (no_pages size) 0 trace.now) }
{
    let mut inflated = PageMarks::new(alloc, size)?;
    for step in 0..trace.len() {
        match stuck_at(trace, size, deflated, &inflated, step) {
            Some(page) => return Ok(Some(What::Inflated { step, page })),
            None => mark_all(posted_at(trace, Queue::Inflate, step), size, &mut inflated),
        }
    }
    Ok(None)
}

/// The first step of a guest without a driver of its own that touches a page which an earlier step put into the balloon, and which
/// no step takes out.
pub(crate) fn inflated_page(alloc: Global, spec: &GuestSpec) -> Result<Option<What>, AllocError>
    ensures { IfOk result (λ found. found ≡ inflated_page spec.now) }
{
    if spec.own_driver {
        return Ok(None);
    }
    let deflated = deflated_in(alloc, spec.size, &spec.trace)?;
    first_stuck(alloc, &spec.trace, spec.size, &deflated)
}
