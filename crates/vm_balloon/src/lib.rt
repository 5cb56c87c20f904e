//! The device side of a virtio memory balloon (OASIS VIRTIO 1.2, section 5.5), as a machine of plain data: what a guest's driver
//! posts is kept until the device is served, and then changes the set of pages that are in the balloon.
//!
//! Left out are the rings of the queues, notifications and transports: a buffer is a list of bytes.
//!
//! **Proved**: what is posted, as bytes or as page numbers, and when each refusal comes (`post`, `post_pages`: `ok`, `too_long`,
//! `full`, `err`); what a service accepts, ignores and leaves (`serve`: `device`, `inflated`, `deflated`, `bad`); the configuration
//! bytes, page numbers and statistics at every place, with both round trips (`encode_page`, `encode_stat`: `reads_back`); what holds
//! of every device, as that the balloon and the pages in early use are disjoint between services (`balloon_len`: `good`); the least
//! ballooned pages in order (`list_ballooned`); that a device which is reset is as a new one (`reset`). No call but `new` takes memory.
//!
//! **Only tested**: that calls succeed, and the numbers of the errors. **Not claimed**: rings, notifications, transports, any real
//! driver; speed.
#![tactic(auto)]

mod buffer;
mod buffer_end;
mod buffers;
mod decode;
mod device;
mod error;
mod page_queue;
mod reports;
mod service;
mod stats;
mod virtio;

pub use device::{Device, PageQueueKind, Queue, Served};
pub use error::PostError;
pub use stats::Stats;
pub use virtio::{encode_page, encode_stat, page_at, stat_at};
