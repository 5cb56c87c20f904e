//! Pieces of a configuration text.
use crate::random::Random;
use itoa::Buffer;
use std::alloc::{AllocError, Global};

const HEX_DIGITS: &[u8; 16] = b"0123456789abcdef";

// The most swap that a machine may have, in pages.
const SWAP: u32 = 67_108_864;

/// A machine, and how long it runs.
#[derive(Clone, Copy)]
pub struct Machine {
    pub frames: u32,
    pub tax: u32,
    pub page_rate: u32,
    pub quantum: u32,
    pub epochs: u32,
}

// A byte in two hexadecimal digits.
fn digits_of(byte: u8) -> [u8; 2] {
    [
        HEX_DIGITS[usize::from(byte / 16)],
        HEX_DIGITS[usize::from(byte % 16)],
    ]
}

/// A text that grows.
#[derive(Drop)]
pub struct Text {
    bytes: Vec<u8>,
}

impl Text {
    /// An empty one.
    pub fn new(alloc: Global) -> Self {
        Text {
            bytes: Vec::new(alloc),
        }
    }

    /// What it is so far.
    pub fn as_bytes(&self) -> &[u8] {
        self.bytes.as_slice()
    }

    /// These bytes behind it.
    pub fn push(&mut self, piece: &str) -> Result<(), AllocError> {
        self.bytes.extend_from_slice(piece.as_bytes())?;
        Ok(())
    }

    /// A number in decimal digits behind it.
    pub fn number(&mut self, number: u32) -> Result<(), AllocError> {
        let mut buffer = Buffer::new();
        self.push(buffer.format(number))
    }

    /// A key and its number behind it, with a comma before.
    pub fn field(&mut self, key: &str, number: u32) -> Result<(), AllocError> {
        self.push(",\"")?;
        self.push(key)?;
        self.push("\":")?;
        self.number(number)
    }

    // A byte in two hexadecimal digits behind it.
    fn hex(&mut self, byte: u8) -> Result<(), AllocError> {
        self.bytes.extend_from_slice(&digits_of(byte))?;
        Ok(())
    }

    // A comma, where something stands before.
    fn separate(&mut self) -> Result<(), AllocError> {
        if !self.bytes.is_empty() {
            self.bytes.push(b',')?;
        }
        Ok(())
    }

    /// Another guest, up to its trace. Its `fields` follow its minimum, each with a comma before.
    pub fn begin_guest(
        &mut self,
        name: &str,
        number: u32,
        size: u32,
        minimum: u32,
        fields: &str,
    ) -> Result<(), AllocError> {
        self.separate()?;
        self.push("{\"name\":\"")?;
        self.push(name)?;
        self.number(number)?;
        self.push("\"")?;
        self.field("size", size)?;
        self.field("min", minimum)?;
        self.push(fields)?;
        self.push(",\"trace\":[\"i\"")
    }

    /// The end of a guest.
    pub fn end_guest(&mut self) -> Result<(), AllocError> {
        self.push("]}")
    }

    /// A step that reads.
    pub fn read_step(&mut self, page: u32, offset: u32, length: u32) -> Result<(), AllocError> {
        self.push(",\"r ")?;
        self.number(page)?;
        self.push(" ")?;
        self.number(offset)?;
        self.push(" ")?;
        self.number(length)?;
        self.push("\"")
    }

    /// A step that writes random bytes.
    pub fn write_step(
        &mut self,
        random: &mut Random,
        page: u32,
        offset: u32,
        length: u32,
    ) -> Result<(), AllocError> {
        self.push(",\"w ")?;
        self.number(page)?;
        self.push(" ")?;
        self.number(offset)?;
        self.push(" ")?;
        for _ in 0..length {
            self.hex(random.byte())?;
        }
        self.push("\"")
    }

    // A page number of four bytes, the least first, in hexadecimal digits.
    fn hex_page(&mut self, page: u32) -> Result<(), AllocError> {
        let [first, second, third, fourth] = page.to_le_bytes();
        let (a, b) = (digits_of(first), digits_of(second));
        let (c, d) = (digits_of(third), digits_of(fourth));
        let digits = [a[0], a[1], b[0], b[1], c[0], c[1], d[0], d[1]];
        self.bytes.extend_from_slice(&digits)?;
        Ok(())
    }

    // A step of this letter over so many pages from one on.
    fn range_step(&mut self, letter: &str, page: u32, count: u32) -> Result<(), AllocError> {
        self.push(",\"")?;
        self.push(letter)?;
        self.push(" ")?;
        self.number(page)?;
        self.push(" ")?;
        self.number(count)?;
        self.push("\"")
    }

    /// A step that touches so many pages from one on.
    pub fn touch_step(&mut self, page: u32, count: u32) -> Result<(), AllocError> {
        self.range_step("t", page, count)
    }

    /// A step that frees so many pages from one on.
    pub fn free_step(&mut self, page: u32, count: u32) -> Result<(), AllocError> {
        self.range_step("f", page, count)
    }

    /// A step that yields.
    pub fn yield_step(&mut self) -> Result<(), AllocError> {
        self.push(",\"y\"")
    }

    /// A step that posts a buffer of so many random pages to the queue of this letter.
    pub fn post_step(
        &mut self,
        random: &mut Random,
        queue: &str,
        size: u32,
        pages: u32,
    ) -> Result<(), AllocError> {
        self.push(",\"p ")?;
        self.push(queue)?;
        self.push(" ")?;
        for _ in 0..pages {
            self.hex_page(random.below(size.max(1)))?;
        }
        self.push("\"")
    }

    /// Another command: a word, a guest, and what stands behind it.
    pub fn command(
        &mut self,
        epoch: u32,
        word: &str,
        name: &str,
        number: u32,
        rest: &str,
    ) -> Result<(), AllocError> {
        self.separate()?;
        self.push("{\"at\":")?;
        self.number(epoch)?;
        self.push(",\"line\":\"")?;
        self.push(word)?;
        self.push(" ")?;
        self.push(name)?;
        self.number(number)?;
        self.push(rest)?;
        self.push("\"}")
    }

    /// Another command with a number at its end, and a suffix behind that.
    pub fn command_with(
        &mut self,
        epoch: u32,
        word: &str,
        name: &str,
        number: u32,
        rest: (&str, u32, &str),
    ) -> Result<(), AllocError> {
        self.separate()?;
        self.push("{\"at\":")?;
        self.number(epoch)?;
        self.push(",\"line\":\"")?;
        self.push(word)?;
        self.push(" ")?;
        self.push(name)?;
        self.number(number)?;
        self.push(rest.0)?;
        self.number(rest.1)?;
        self.push(rest.2)?;
        self.push("\"}")
    }

    // The version behind it, and what only texts of version 3 say.
    fn push_version(&mut self, rebalance: Option<u32>) -> Result<(), AllocError> {
        match rebalance {
            Some(pages) => {
                self.push("{\"version\":3")?;
                self.field("rebalance", pages)
            }
            None => self.push("{\"version\":2"),
        }
    }

    // The numbers of a machine behind it, each with a comma before.
    fn push_machine(&mut self, machine: &Machine) -> Result<(), AllocError> {
        self.field("frames", machine.frames)?;
        self.field("swap", SWAP)?;
        self.field("tax", machine.tax)?;
        self.field("page_rate", machine.page_rate)?;
        self.field("quantum", machine.quantum)?;
        self.field("epochs", machine.epochs)
    }

    // A whole configuration behind it.
    fn push_whole(&mut self, machine: &Machine, draft: &Draft) -> Result<(), AllocError> {
        self.push_version(draft.rebalance)?;
        self.push_machine(machine)?;
        self.push(",\"guests\":[")?;
        self.bytes.extend_from_slice(draft.guests.as_bytes())?;
        self.push("],\"commands\":[")?;
        self.bytes.extend_from_slice(draft.commands.as_bytes())?;
        self.push("]}")
    }
}

/// The guests and the commands of a configuration, which is of version 3 where it says how many pages rebalancing moves at a
/// boundary, and else of version 2.
#[derive(Drop)]
pub struct Draft {
    pub guests: Text,
    pub commands: Text,
    pub rebalance: Option<u32>,
}

impl Draft {
    /// None so far, of version 2.
    pub fn new(alloc: Global) -> Self {
        Draft {
            guests: Text::new(alloc),
            commands: Text::new(alloc),
            rebalance: None,
        }
    }

    /// None so far, of version 3 with so many pages that rebalancing moves.
    pub fn rebalanced(alloc: Global, pages: u32) -> Self {
        Draft {
            guests: Text::new(alloc),
            commands: Text::new(alloc),
            rebalance: Some(pages),
        }
    }

    /// The whole configuration, of this machine.
    pub fn whole(&self, alloc: Global, machine: &Machine) -> Result<Text, AllocError> {
        let mut text = Text::new(alloc);
        text.push_whole(machine, self)?;
        Ok(text)
    }
}
