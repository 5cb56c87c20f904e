//! A log of a libvirt host, as `virsh domstats` tells of its domains.
use crate::random::Random;
use crate::text::Text;
use std::alloc::{AllocError, Global};
use std::io;
use std::io::Read;

// In KiB: what each domain has at most, what it holds at least, and by how much what it holds differs.
const MAXIMUM: u32 = 4_194_304;

const LEAST: u32 = 1_048_576;

const SPREAD: u32 = 3_145_728;

// The samples that differ, in some 400 bytes for each domain. They come round.
const SAMPLES: u32 = 32;

// A line of a domain.
fn push_line(sample: &mut Text, key: &str, value: u32) -> Result<(), AllocError> {
    sample.push("  ")?;
    sample.push(key)?;
    sample.push("=")?;
    sample.number(value)?;
    sample.push("\n")
}

// A domain, which holds anything and uses some of it.
fn push_domain(sample: &mut Text, random: &mut Random, number: u32) -> Result<(), AllocError> {
    let current = LEAST + random.below(SPREAD);
    let usable = random.skewed(current);
    let unused = random.below(usable + 1);
    sample.push("Domain: 'domain")?;
    sample.number(number)?;
    sample.push("'\n")?;
    push_line(sample, "state.state", 1)?;
    push_line(sample, "state.reason", 1)?;
    push_line(sample, "balloon.current", current)?;
    push_line(sample, "balloon.maximum", MAXIMUM)?;
    push_line(sample, "balloon.swap_in", 0)?;
    push_line(sample, "balloon.swap_out", 0)?;
    push_line(sample, "balloon.major_fault", 1_700)?;
    push_line(sample, "balloon.minor_fault", 2_900_000)?;
    push_line(sample, "balloon.unused", unused)?;
    push_line(sample, "balloon.available", current - 65_536)?;
    push_line(sample, "balloon.usable", usable)?;
    push_line(sample, "balloon.last-update", 1_790_000_000)?;
    push_line(sample, "balloon.disk_caches", usable - unused)?;
    push_line(sample, "balloon.rss", current)
}

// A sample of so many domains, with the line that ends it.
fn sample(alloc: Global, random: &mut Random, domains: u32) -> Result<Text, AllocError> {
    let mut sample = Text::new(alloc);
    for number in 0..domains {
        push_domain(&mut sample, random, number)?;
    }
    sample.push("---\n")?;
    Ok(sample)
}

/// Samples that differ, of so many domains that hold 1 to 4 GiB each.
pub fn samples(alloc: Global, random: &mut Random, domains: u32) -> Result<Vec<Text>, AllocError> {
    let mut samples = Vec::new(alloc);
    for _ in 0..SAMPLES {
        samples.push(sample(alloc, random, domains)?)?;
    }
    Ok(samples)
}

// A guest of a policy: its minimum, in MiB, and its shares.
fn push_guest(policy: &mut Text, random: &mut Random, number: u32) -> Result<(), AllocError> {
    policy.push(if number == 0 {
        "{\"name\":\"domain"
    } else {
        ",{\"name\":\"domain"
    })?;
    policy.number(number)?;
    policy.push("\",\"min\":\"")?;
    policy.number(random.below(1024) + 256)?;
    policy.push("M\"")?;
    policy.field("shares", random.below(4000) + 1)?;
    policy.push("}")
}

/// A policy that names so many domains and promises this memory, in GiB, with the line that ends it.
pub fn policy(
    alloc: Global,
    random: &mut Random,
    domains: u32,
    memory: u32,
) -> Result<Text, AllocError> {
    let mut policy = Text::new(alloc);
    policy.push("{\"version\":1,\"memory\":\"")?;
    policy.number(memory)?;
    policy.push("GiB\",\"guests\":[")?;
    for number in 0..domains {
        push_guest(&mut policy, random, number)?;
    }
    policy.push("]}\n---\n")?;
    Ok(policy)
}

/// The log of a host: a policy, and samples that come round.
#[derive(Drop)]
pub struct HostLog<'a> {
    samples: &'a [Text],
    // How many samples are still to begin, and how many have begun.
    left: u32,
    begun: usize,
    // What is left of the last text.
    rest: &'a [u8],
}

impl<'a> HostLog<'a> {
    /// The log from its beginning, with so many samples.
    pub fn new(policy: &'a Text, samples: &'a [Text], count: u32) -> Self {
        HostLog {
            samples,
            left: count,
            begun: 0,
            rest: policy.as_bytes(),
        }
    }

    // Begins the next sample, if there is one.
    fn begin_sample(&mut self) {
        if self.left == 0 || self.samples.is_empty() {
            return;
        }
        self.rest = self.samples[self.begun % self.samples.len()].as_bytes();
        self.begun = self.begun.wrapping_add(1);
        self.left -= 1;
    }
}

impl Read for HostLog<'_> {
    fn read(&mut self, buf: &mut [u8]) -> io::Result<usize> {
        if self.rest.is_empty() {
            self.begin_sample();
        }
        let count = buf.len().min(self.rest.len());
        let (front, rest) = self.rest.split_at(count);
        buf[..count].copy_from_slice(front);
        self.rest = rest;
        Ok(count)
    }
}
