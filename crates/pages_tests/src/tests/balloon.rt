ghost use Rattle.std.specs.Prelude.{◌≡◌, ◌<◌, ◌≤◌, vec_capacity};

use super::{check, check_eq};
use std::alloc::Global;
use std::process::Abort;
use vm_balloon::{
    Device, PageQueueKind, PostError, Queue, Stats, encode_page, encode_stat, page_at, stat_at,
};

// Serves the device, and asserts what that did.
fn check_service(rt: &impl Abort, device: &mut Device, inflated: &[u32], deflated: &[u32], bad: u32)
    ensures { device.new.size ≡ device.old.size }
{
    let served = device.serve();
    check_eq(rt, served.inflated.as_slice(), inflated);
    check_eq(rt, served.deflated.as_slice(), deflated);
    check_eq(rt, served.bad, bad);
}

// Posts a buffer, and asserts that the device takes it.
fn check_post(rt: &impl Abort, device: &mut Device, queue: Queue, bytes: &[u8])
    ensures { device.new.size ≡ device.old.size }
{
    check_eq(rt, device.post(queue, bytes), Ok(()));
}

// Posts page numbers as they are, and asserts what the device answers.
fn check_post_pages(
    rt: &impl Abort,
    device: &mut Device,
    queue: PageQueueKind,
    pages: &[u32],
    want: Result<(), PostError>,
)
    ensures { device.new.size ≡ device.old.size }
{
    check_eq(rt, device.post_pages(queue, pages), want);
}

// Posts a buffer, serves the device, and asserts what that did.
fn check_served(
    rt: &impl Abort,
    device: &mut Device,
    queue: Queue,
    bytes: &[u8],
    inflated: &[u32],
    deflated: &[u32],
    bad: u32,
)
    ensures { device.new.size ≡ device.old.size }
{
    check_post(rt, device, queue, bytes);
    check_service(rt, device, inflated, deflated, bad);
}

// Posts buffers, and asserts that the device takes each.
fn check_posts(rt: &impl Abort, device: &mut Device, posts: &[(Queue, &[u8])]) {
    for &(queue, bytes) in posts {
        check_post(rt, device, queue, bytes);
    }
}

// Asserts which the least pages in the balloon are.
fn check_listed(rt: &impl Abort, alloc: Global, device: &Device, most: u32, want: &[u32]) {
    let mut pages = Vec::with_capacity(alloc, most as usize).expect(rt, "memory");
    // Twice, since what was listed before has to go.
    device.list_ballooned(most, &mut pages);
    device.list_ballooned(most, &mut pages);
    check_eq(rt, pages.as_slice(), want);
}

// Asserts how many pages are in the balloon.
fn check_len(rt: &impl Abort, device: &Device, pages: u32) {
    check_eq(rt, device.balloon_len(), pages);
}

// Asserts whether a page is named by an inflate buffer, and by a deflate buffer.
fn check_posted(rt: &impl Abort, device: &Device, page: u32, inflate: bool, deflate: bool)
    requires { page < device.now.size }
{
    let posted = (device.posted_inflate(page), device.posted_deflate(page));
    check_eq(rt, posted, (inflate, deflate));
}

// Asserts whether a page is in the balloon, and whether it was used early.
fn check_place(rt: &impl Abort, device: &Device, page: u32, ballooned: bool, early: bool)
    requires { page < device.now.size }
{
    let place = (device.is_ballooned(page), device.is_early(page));
    check_eq(rt, place, (ballooned, early));
}

// Asserts how many bytes the driver said last that its guest has.
fn check_total(rt: &impl Abort, device: &Device, total: Option<u64>) {
    check_eq(rt, device.stats().total, total);
}

// Asserts what the driver said last.
fn check_stats(rt: &impl Abort, device: &Device, want: Stats) {
    check_eq(rt, device.stats(), want);
}

// Asserts a refused post.
fn check_refusal(rt: &impl Abort, device: &mut Device, queue: Queue, bytes: &[u8], why: PostError) {
    check_eq(rt, device.post(queue, bytes), Err(why));
}

// Asserts the bytes of the configuration space.
fn check_config(rt: &impl Abort, device: &Device, bytes: [u8; 8]) {
    check_eq(rt, device.config(), bytes);
}

// A device with nothing posted.
fn new_device(rt: &impl Abort, alloc: Global, size: u32, buffers: u32) -> Device
    requires size_in_range { size ≤ 262144 }
    requires buffers_in_range { buffers ≤ 256 }
    ensures { result.size ≡ size }
{
    Device::new(alloc, size, buffers).expect(rt, "memory")
}

// Ends a device. It stands here once, since a function that owns one is proved to free all parts of it where it ends.
fn end(_device: Device) {}

// Puts the last of four pages into the balloon, and uses it early.
fn use_early(rt: &impl Abort, device: &mut Device)
    requires { device.old.size ≡ 4 }
    ensures { device.new.size ≡ 4 }
{
    check_served(rt, device, Queue::Inflate, &encode_page(3), &[3], &[], 0);
    check(rt, device.is_ballooned(3));
    check(rt, !device.posted_inflate(3));
    device.use_early(3);
    check_place(rt, device, 3, false, true);
}

// Posts a statistics buffer, and asserts what it says once it is served.
fn check_report(rt: &impl Abort, device: &mut Device, report: &[u8], want: Stats) {
    check_served(rt, device, Queue::Statistics, report, &[], &[], 0);
    check_stats(rt, device, want);
}

#[test]
fn service(rt: HostRuntime) {
    let mut device = new_device(&rt, rt.alloc(), 4, 2);
    let three_two_and_a_rest = [3, 0, 0, 0, 2, 0, 0, 0, 3];
    check_served(
        &rt,
        &mut device,
        Queue::Inflate,
        &three_two_and_a_rest,
        &[3, 2],
        &[],
        1,
    );
    check_len(&rt, &device, 2);

    let past_the_end_and_again = [255, 255, 255, 255, 3, 0, 0, 0];
    check_served(
        &rt,
        &mut device,
        Queue::Inflate,
        &past_the_end_and_again,
        &[],
        &[],
        2,
    );

    check_served(
        &rt,
        &mut device,
        Queue::Deflate,
        &encode_page(2),
        &[],
        &[2],
        0,
    );
    check_served(
        &rt,
        &mut device,
        Queue::Deflate,
        &encode_page(2),
        &[],
        &[],
        1,
    );
    end(device);
}

#[test]
fn ballooned_pages_are_listed(rt: HostRuntime) {
    let mut device = new_device(&rt, rt.alloc(), 8, 2);
    let six_one_and_four = [6, 0, 0, 0, 1, 0, 0, 0, 4, 0, 0, 0];
    check_served(
        &rt,
        &mut device,
        Queue::Inflate,
        &six_one_and_four,
        &[6, 1, 4],
        &[],
        0,
    );
    check_listed(&rt, rt.alloc(), &device, 2, &[1, 4]);
    check_listed(&rt, rt.alloc(), &device, 4, &[1, 4, 6]);
    end(device);
}

// What is posted after a service takes the places of what was posted before it, also where it is shorter.
#[test]
fn places_are_used_again(rt: HostRuntime) {
    let mut device = new_device(&rt, rt.alloc(), 8, 4);
    let six_one_and_four = [6, 0, 0, 0, 1, 0, 0, 0, 4, 0, 0, 0];
    let nine_in_all = [5, 0, 9, 0, 0, 0, 0, 0, 0, 0];
    check_posts(
        &rt,
        &mut device,
        &[
            (Queue::Inflate, &six_one_and_four),
            (Queue::Inflate, &encode_page(3)),
            (Queue::Statistics, &nine_in_all),
        ],
    );
    check_service(&rt, &mut device, &[6, 1, 4, 3], &[], 0);
    check_total(&rt, &device, Some(9));

    check_post(&rt, &mut device, Queue::Inflate, &encode_page(5));
    check_served(&rt, &mut device, Queue::Statistics, &[5, 0], &[5], &[], 0);
    check_stats(&rt, &device, Stats::default());

    let two_and_seven = [2, 0, 0, 0, 7, 0, 0, 0];
    check_posts(
        &rt,
        &mut device,
        &[
            (Queue::Inflate, &[]),
            (Queue::Inflate, &two_and_seven),
            (Queue::Inflate, &encode_page(0)),
        ],
    );
    check_service(&rt, &mut device, &[2, 7, 0], &[], 0);
    check_len(&rt, &device, 8);
    end(device);
}

#[test]
fn refused_posts(rt: HostRuntime) {
    let mut device = new_device(&rt, rt.alloc(), 4, 2);
    check_post(&rt, &mut device, Queue::Inflate, &[]);
    check_refusal(
        &rt,
        &mut device,
        Queue::Inflate,
        &[0; 1025],
        PostError::TooLong,
    );
    check_post(&rt, &mut device, Queue::Statistics, &[0; 1024]);
    check_refusal(&rt, &mut device, Queue::Deflate, &[], PostError::Full);
    check_refusal(
        &rt,
        &mut device,
        Queue::Deflate,
        &[0; 1025],
        PostError::TooLong,
    );
    end(device);
}

// Posts an inflate of page 2 and then its deflate, and asserts how both are posted until they are served.
fn check_posted_until_served(rt: &impl Abort, device: &mut Device)
    requires { device.old.size ≡ 4 }
{
    check_post(rt, device, Queue::Inflate, &encode_page(2));
    check_post(rt, device, Queue::Deflate, &encode_page(2));
    check_posted(rt, device, 2, true, true);
    check_posted(rt, device, 3, false, false);
    check_service(rt, device, &[2], &[2], 0);
    check_posted(rt, device, 2, false, false);
}

// Inflates are served before deflates, whichever was posted first.
#[test]
fn inflates_first(rt: HostRuntime) {
    let mut device = new_device(&rt, rt.alloc(), 4, 2);
    check_posted_until_served(&rt, &mut device);
    check_post(&rt, &mut device, Queue::Deflate, &encode_page(2));
    check_served(
        &rt,
        &mut device,
        Queue::Inflate,
        &encode_page(2),
        &[2],
        &[2],
        0,
    );
    check_len(&rt, &device, 0);
    end(device);
}

#[test]
fn no_page_in_it(rt: HostRuntime) {
    let mut device = new_device(&rt, rt.alloc(), 4, 20);
    check_post(&rt, &mut device, Queue::Inflate, &[255; 1024]);
    check_service(&rt, &mut device, &[], &[], 256);
    for queue in [Queue::Inflate, Queue::Deflate, Queue::Statistics] {
        check_post(&rt, &mut device, queue, &[]);
    }
    check_service(&rt, &mut device, &[], &[], 0);
    check_stats(&rt, &device, Stats::default());
    end(device);
}

// Page numbers that are posted as they are do what their bytes would do.
#[test]
fn page_numbers_are_posted(rt: HostRuntime) {
    let mut device = new_device(&rt, rt.alloc(), 4, 2);
    let too_many = Err(PostError::TooLong);
    check_post_pages(
        &rt,
        &mut device,
        PageQueueKind::Inflate,
        &[0; 257],
        too_many,
    );
    check_post_pages(&rt, &mut device, PageQueueKind::Inflate, &[3, 4, 3], Ok(()));
    check_posted(&rt, &device, 3, true, false);
    check_post_pages(&rt, &mut device, PageQueueKind::Deflate, &[3, 1], Ok(()));
    check_posted(&rt, &device, 1, false, true);
    let full = Err(PostError::Full);
    check_post_pages(&rt, &mut device, PageQueueKind::Deflate, &[], full);
    // Bad are the second 3, 4, which is past the end, and 1, which is not in the balloon.
    check_service(&rt, &mut device, &[3], &[3], 3);
    check_len(&rt, &device, 0);
    end(device);
}

// Page numbers past the guest's pages name no page. They count as bad, and so does a page that comes again, in its buffer or in
// another one.
#[test]
fn numbers_past_the_pages(rt: HostRuntime) {
    let mut device = new_device(&rt, rt.alloc(), 4, 4);
    let three_four_and_three = [3, 0, 0, 0, 4, 0, 0, 0, 3, 0, 0, 0];
    let three_and_one = [3, 0, 0, 0, 1, 0, 0, 0];
    check_post(&rt, &mut device, Queue::Inflate, &three_four_and_three);
    check_posted(&rt, &device, 3, true, false);
    check_post(&rt, &mut device, Queue::Inflate, &three_and_one);
    check_posted(&rt, &device, 1, true, false);
    check_service(&rt, &mut device, &[3, 1], &[], 3);
    check_posted(&rt, &device, 3, false, false);
    check_posted(&rt, &device, 1, false, false);

    check_post(&rt, &mut device, Queue::Deflate, &three_four_and_three);
    check_posted(&rt, &device, 3, false, true);
    check_post(&rt, &mut device, Queue::Deflate, &three_and_one);
    check_service(&rt, &mut device, &[], &[3, 1], 3);
    check_posted(&rt, &device, 3, false, false);

    // The queues are as ever afterwards.
    check_served(
        &rt,
        &mut device,
        Queue::Inflate,
        &three_and_one,
        &[3, 1],
        &[],
        0,
    );
    end(device);
}

// Pages of three words of marks, some of which come twice, and some of which are in the balloon.
#[test]
fn pages_of_many_words(rt: HostRuntime) {
    let mut device = new_device(&rt, rt.alloc(), 200, 4);
    let down = [
        130, 0, 0, 0, 129, 0, 0, 0, 128, 0, 0, 0, 127, 0, 0, 0, 126, 0, 0, 0,
    ];
    check_served(
        &rt,
        &mut device,
        Queue::Inflate,
        &encode_page(129),
        &[129],
        &[],
        0,
    );
    check_post(&rt, &mut device, Queue::Inflate, &down);
    check_post(
        &rt,
        &mut device,
        Queue::Inflate,
        &[127, 0, 0, 0, 5, 0, 0, 0, 199, 0, 0, 0],
    );
    check_posted(&rt, &device, 126, true, false);
    check_service(&rt, &mut device, &[130, 128, 127, 126, 5, 199], &[], 2);
    check_posted(&rt, &device, 126, false, false);
    check_listed(
        &rt,
        rt.alloc(),
        &device,
        7,
        &[5, 126, 127, 128, 129, 130, 199],
    );
    check_served(
        &rt,
        &mut device,
        Queue::Deflate,
        &down,
        &[],
        &[130, 129, 128, 127, 126],
        0,
    );
    check_len(&rt, &device, 2);
    end(device);
}

// Asserts that a device of four pages and three buffers is as it was when it was new.
fn check_new(rt: &impl Abort, device: &mut Device)
    requires { device.old.size ≡ 4 }
    ensures { device.new.size ≡ 4 }
{
    check_len(rt, device, 0);
    check_config(rt, device, [0; 8]);
    check_stats(rt, device, Stats::default());
    for page in 0..4 {
        check_posted(rt, device, page, false, false);
        check_place(rt, device, page, false, false);
    }
    check_service(rt, device, &[], &[], 0);
}

// Leaves a page in the balloon, another one used early, and a buffer in each queue, with more numbers than are pages.
fn fill(rt: &impl Abort, device: &mut Device)
    requires { device.old.size ≡ 4 }
    ensures { device.new.size ≡ 4 }
{
    device.set_num_pages(2);
    device.set_actual(1);
    check_post(
        rt,
        device,
        Queue::Statistics,
        &[5, 0, 9, 0, 0, 0, 0, 0, 0, 0],
    );
    check_served(rt, device, Queue::Inflate, &encode_page(1), &[1], &[], 0);
    use_early(rt, device);
    check_post(rt, device, Queue::Inflate, &[2, 0, 0, 0, 9, 0, 0, 0, 7]);
    check_post(rt, device, Queue::Deflate, &encode_page(1));
    check_post(
        rt,
        device,
        Queue::Statistics,
        &[5, 0, 8, 0, 0, 0, 0, 0, 0, 0],
    );
}

// A device that was used is as new once it is reset.
fn use_and_reset(rt: &impl Abort, device: &mut Device)
    requires { device.old.size ≡ 4 }
    ensures { device.new.size ≡ 4 }
{
    fill(rt, device);
    device.reset();
    check_new(rt, device);
}

#[test]
fn reset(rt: HostRuntime) {
    let mut device = new_device(&rt, rt.alloc(), 4, 3);
    use_and_reset(&rt, &mut device);
    use_and_reset(&rt, &mut device);
    end(device);
}

#[test]
fn early_use(rt: HostRuntime) {
    let mut device = new_device(&rt, rt.alloc(), 4, 2);
    use_early(&rt, &mut device);
    check_len(&rt, &device, 0);
    check_served(
        &rt,
        &mut device,
        Queue::Deflate,
        &encode_page(3),
        &[],
        &[3],
        0,
    );
    check_place(&rt, &device, 3, false, false);
    check_served(
        &rt,
        &mut device,
        Queue::Deflate,
        &encode_page(3),
        &[],
        &[],
        1,
    );
    end(device);
}

// A page used early is outside the balloon, so an inflate of it is accepted, and its deflate then too.
#[test]
fn early_page_inflated(rt: HostRuntime) {
    let mut device = new_device(&rt, rt.alloc(), 4, 2);
    use_early(&rt, &mut device);
    check_post(&rt, &mut device, Queue::Inflate, &encode_page(3));
    check_posted(&rt, &device, 3, true, false);
    check_served(
        &rt,
        &mut device,
        Queue::Deflate,
        &encode_page(3),
        &[3],
        &[3],
        0,
    );
    check_len(&rt, &device, 0);

    // Early is empty after a service, so this deflate is none of a page used early.
    check_served(
        &rt,
        &mut device,
        Queue::Deflate,
        &encode_page(3),
        &[],
        &[],
        1,
    );
    end(device);
}

// Asserts how a refusal reads.
fn check_words(rt: &impl Abort, alloc: Global, refusal: PostError, want: &str) {
    let words = refusal.to_string(alloc).expect(rt, "memory");
    check_eq(rt, words.as_str(), want);
}

#[test]
fn refusals_read(rt: HostRuntime) {
    let alloc = rt.alloc();
    check_words(&rt, alloc, PostError::Full, "all buffers are posted");
    check_words(&rt, alloc, PostError::TooLong, "the buffer is too long");
    check_eq(&rt, PostError::Full as u8, 1);
    check_eq(&rt, PostError::TooLong as u8, 2);
}

// The tag 99 is none of the seven. What a buffer leaves out is forgotten, and where several came, the last counts.
#[test]
fn statistics(rt: HostRuntime) {
    let mut device = new_device(&rt, rt.alloc(), 4, 2);
    let total = [5, 0, 0, 0, 1, 0, 0, 0, 0, 0];
    let free_unknown_total = [
        4, 0, 0, 16, 0, 0, 0, 0, 0, 0, 99, 0, 1, 0, 0, 0, 0, 0, 0, 0, 5, 0, 0, 32, 0, 0, 0, 0, 0, 0,
    ];
    let mut want = Stats::default();
    want.total = Some(65536);
    check_report(&rt, &mut device, &total, want);

    want.free = Some(4096);
    want.total = Some(8192);
    check_post(&rt, &mut device, Queue::Statistics, &total);
    check_report(&rt, &mut device, &free_unknown_total, want);
    end(device);
}

// A tag that comes twice takes the last value, and nine bytes are no entry.
#[test]
fn repeated_tags(rt: HostRuntime) {
    let mut device = new_device(&rt, rt.alloc(), 4, 2);
    let twice_and_a_rest = [
        3, 0, 1, 0, 0, 0, 0, 0, 0, 0, 3, 0, 2, 0, 0, 0, 0, 0, 0, 0, 3, 0, 3, 0, 0, 0, 0, 0, 0,
    ];
    let mut faults = Stats::default();
    faults.minor_faults = Some(2);
    check_report(&rt, &mut device, &twice_and_a_rest, faults);
    end(device);
}

// What was said last stands until more is said, also over services that find no statistics.
#[test]
fn statistics_stay(rt: HostRuntime) {
    let mut device = new_device(&rt, rt.alloc(), 4, 2);
    let mut want = Stats::default();
    want.total = Some(9);
    check_report(&rt, &mut device, &[5, 0, 9, 0, 0, 0, 0, 0, 0, 0], want);
    check_service(&rt, &mut device, &[], &[], 0);
    check_stats(&rt, &device, want);
    want.total = Some(7);
    check_report(&rt, &mut device, &[5, 0, 7, 0, 0, 0, 0, 0, 0, 0], want);
    check_service(&rt, &mut device, &[], &[], 0);
    check_stats(&rt, &device, want);
    end(device);
}

#[test]
fn bytes(rt: HostRuntime) {
    check_eq(&rt, encode_page(3), [3, 0, 0, 0]);
    let entries = [
        ((5, 65536), [5, 0, 0, 0, 1, 0, 0, 0, 0, 0]),
        ((4, 4096), [4, 0, 0, 16, 0, 0, 0, 0, 0, 0]),
        ((99, 1), [99, 0, 1, 0, 0, 0, 0, 0, 0, 0]),
        ((5, 8192), [5, 0, 0, 32, 0, 0, 0, 0, 0, 0]),
    ];
    for ((tag, value), bytes) in entries {
        check_eq(&rt, encode_stat(tag, value), bytes);
    }
    let places = [(0, Some(3)), (1, Some(258)), (2, None)];
    for (place, page) in places {
        check_eq(&rt, page_at(&[3, 0, 0, 0, 2, 1, 0, 0, 7], place), page);
    }
    check_eq(
        &rt,
        stat_at(&encode_stat(6, 1 << 40), 0),
        Some((6, 1 << 40)),
    );
    check_eq(&rt, stat_at(&encode_stat(6, 1), 1), None);
}

#[test]
fn configuration(rt: HostRuntime) {
    let mut device = new_device(&rt, rt.alloc(), 4, 2);
    check_config(&rt, &device, [0; 8]);
    device.set_num_pages(258);
    device.set_actual(3);
    check_config(&rt, &device, [2, 1, 0, 0, 3, 0, 0, 0]);
    check_eq(&rt, (device.num_pages(), device.actual()), (258, 3));
    end(device);
}
