//! A log of a program's accesses to memory, as valgrind's tool lackey writes it.
ghost use Rattle.std.specs.Prelude.{◌<◌, ◌≤◌};

use crate::random::Random;
use std::alloc::{AllocError, Global};
use std::io;
use std::io::Read;

const HEX_DIGITS: &[u8; 16] = b"0123456789abcdef";

// Where the program has its code, its heap and its stack.
const CODE: u64 = 0x0400_0000;

const HEAP: u64 = 0x0500_0000;

const STACK: u64 = 0x1f_feff_c000;

// How many bytes an access to data has.
const DATA_SIZES: [u8; 4] = [1, 4, 8, 8];

// The accesses of a phase, in some 60 KB.
const LINES: u32 = 4096;

// How often a phase comes round.
const TURNS: u64 = 64;

// A number in so many hexadecimal digits.
fn push_hex(lines: &mut Vec<u8>, number: u64, digits: u32) -> Result<(), AllocError>
    requires { digits ≤ 16 }
{
    for place in (0..digits).rev() {
        let digit = (number >> (4 * place)) % 16;
        lines.push(HEX_DIGITS[digit as usize])?;
    }
    Ok(())
}

// A line: of what kind the access is, its address in so many digits, and its size.
fn push_access(
    lines: &mut Vec<u8>,
    kind: &str,
    address: u64,
    digits: u32,
    size: u8,
) -> Result<(), AllocError>
    requires digits { digits ≤ 16 }
    requires size { size < 10 }
{
    lines.extend_from_slice(kind.as_bytes())?;
    push_hex(lines, address, digits)?;
    lines.extend_from_slice(&[b',', b'0' + size, b'\n'])?;
    Ok(())
}

/// What a program does again and again for a while, as lines of lackey.
#[derive(Drop)]
pub struct Phase {
    lines: Vec<u8>,
    // Where the instruction behind the last one stands.
    next: u64,
}

impl Phase {
    /// The phase of this number: each runs over a few pages of the code, and over some of the heap that the phases beside it use too.
    pub fn new(alloc: Global, random: &mut Random, number: u32) -> Result<Self, AllocError> {
        let mut phase = Phase {
            lines: Vec::new(alloc),
            next: CODE,
        };
        for _ in 0..LINES {
            phase.push_line(random, number)?;
        }
        Ok(phase)
    }

    // The kinds are as frequent as in a log of `sort`: of 100 accesses 68 fetch an instruction, 20 read and 12 write.
    fn push_line(&mut self, random: &mut Random, number: u32) -> Result<(), AllocError> {
        match random.below(100) {
            0..=67 => self.push_fetch(random, number),
            68..=87 => self.push_data(random, number, " L ", 5),
            88..=98 => self.push_data(random, number, " S ", 1),
            _ => self.push_data(random, number, " M ", 1),
        }
    }

    // An instruction: five times of six the next one, else one of the pages of this phase.
    fn push_fetch(&mut self, random: &mut Random, number: u32) -> Result<(), AllocError> {
        if random.below(6) == 0 {
            let page = u64::from(number % 128) + u64::from(random.skewed(8));
            self.next = CODE + page * 4096 + u64::from(random.below(4096));
        }
        let size = (random.below(7) + 1) as u8;
        push_access(&mut self.lines, "I  ", self.next, 8, size)?;
        self.next = self.next.wrapping_add(u64::from(size));
        Ok(())
    }

    // Data, of the heap so many times of ten, and else of the stack. The pages of the heap move on from phase to phase.
    fn push_data(
        &mut self,
        random: &mut Random,
        number: u32,
        kind: &str,
        of_ten: u32,
    ) -> Result<(), AllocError> {
        let size = DATA_SIZES[random.below(4) as usize];
        if random.below(10) < of_ten {
            let page = u64::from(number) * 16 + u64::from(random.skewed(64));
            let address = HEAP + page * 4096 + u64::from(random.below(4096));
            push_access(&mut self.lines, kind, address, 8, size)
        } else {
            let address = STACK + u64::from(random.below(8192));
            push_access(&mut self.lines, kind, address, 10, size)
        }
    }
}

/// The log of a program that goes from phase to phase, each of which comes round many times.
#[derive(Drop)]
pub struct Recording<'a> {
    phases: &'a [Phase],
    // How many turns were begun, of all phases.
    begun: u64,
    // What is left of the last one.
    rest: &'a [u8],
}

impl<'a> Recording<'a> {
    /// The log from its beginning.
    pub fn new(phases: &'a [Phase]) -> Self {
        Recording {
            phases,
            begun: 0,
            rest: &[],
        }
    }

    // Begins the next turn, if there is one.
    fn begin_turn(&mut self) {
        if let Some(phase) = self.phases.get((self.begun / TURNS) as usize) {
            self.rest = phase.lines.as_slice();
            self.begun = self.begun.wrapping_add(1);
        }
    }
}

impl Read for Recording<'_> {
    fn read(&mut self, buf: &mut [u8]) -> io::Result<usize> {
        if self.rest.is_empty() {
            self.begin_turn();
        }
        let count = buf.len().min(self.rest.len());
        let (front, rest) = self.rest.split_at(count);
        buf[..count].copy_from_slice(front);
        self.rest = rest;
        Ok(count)
    }
}
