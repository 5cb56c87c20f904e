// The line of a read, which is put together from its end.
ghost use Rattle.std.specs.Prelude.{◌≡◌, ◌+◌, ◌≤◌, ◌∷◌, ◌++◌, IsAscii, OnOk, codes, drop, length, string_bytes};
ghost use Rattle.std.specs.Fmt.{decimal};
ghost use Rattle.vm_sim.specs.Lines.{hex, hex_byte, read_line};

use itoa::write_digits;
use std::alloc::AllocError;
use vm_guest::PageRead;
use vm_trace::MAX_BYTES;

// Room for all that follows a name: two numbers of at most ten digits, and two digits for each of at most 64 bytes.
const ROOM: usize = 160;

// The two digits of each byte, in lower case.
static PAIRS: [u8; 512] = *b"\
    000102030405060708090a0b0c0d0e0f\
    101112131415161718191a1b1c1d1e1f\
    202122232425262728292a2b2c2d2e2f\
    303132333435363738393a3b3c3d3e3f\
    404142434445464748494a4b4c4d4e4f\
    505152535455565758595a5b5c5d5e5f\
    606162636465666768696a6b6c6d6e6f\
    707172737475767778797a7b7c7d7e7f\
    808182838485868788898a8b8c8d8e8f\
    909192939495969798999a9b9c9d9e9f\
    a0a1a2a3a4a5a6a7a8a9aaabacadaeaf\
    b0b1b2b3b4b5b6b7b8b9babbbcbdbebf\
    c0c1c2c3c4c5c6c7c8c9cacbcccdcecf\
    d0d1d2d3d4d5d6d7d8d9dadbdcdddedf\
    e0e1e2e3e4e5e6e7e8e9eaebecedeeef\
    f0f1f2f3f4f5f6f7f8f9fafbfcfdfeff";

// Puts a byte as two digits at a place.
#[inline(always)]
fn put_hex_byte(line: &mut [u8], at: usize, byte: u8)
    requires { at + 2 ≤ length line.old }
    ensures { drop at line.new ≡ hex_byte byte ++ drop (at + 2) line.old }
{
    let from = byte as usize * 2;
    let (high, low) = (PAIRS[from], PAIRS[from + 1]);
    line[at] = high;
    line[at + 1] = low;
}

// Puts a character of ASCII before a place, and returns where it stands.
#[inline(always)]
pub(crate) fn put_char(line: &mut [u8], end: usize, character: u8) -> usize
    requires room { 1 ≤ end }
    requires inside { end ≤ length line.old }
    ensures start { result + 1 ≡ end }
    ensures written { drop result line.new ≡ character ∷ drop end line.old }
{
    line[end - 1] = character;
    end - 1
}

// Puts a number, which has at most ten digits, and a space before a place, and returns where they start.
fn put_number(line: &mut [u8], end: usize, number: u32) -> usize
    requires room { 11 ≤ end }
    requires inside { end ≤ length line.old }
    ensures start { result ≤ end }
    ensures short { end ≤ result + 11 }
    ensures written { drop result line.new ≡ decimal number ++ (codes " " ++ drop end line.old) }
    ensures ascii { IsAscii (decimal number) }
{
    let space = put_char(line, end, b' ');
    write_digits(number as u64, line, space)
}

// Puts bytes as digits before a place, and returns where they start.
fn put_hex(line: &mut [u8], end: usize, bytes: &[u8]) -> usize
    requires few { length bytes.now ≤ 64 }
    requires room { 128 ≤ end }
    requires inside { end ≤ length line.old }
    ensures start { result ≤ end }
    ensures short { end ≤ result + 128 }
    ensures written { drop result line.new ≡ hex bytes.now ++ drop end line.old }
    ensures ascii { IsAscii (hex bytes.now) }
{
    let mut at = end;
    let mut left = bytes.len();
    while left > 0 {
        left -= 1;
        at -= 2;
        put_hex_byte(line, at, bytes[left]);
    }
    at
}

// Puts all that follows the name, and returns where it starts.
fn put_read(line: &mut [u8; ROOM], read: &PageRead) -> usize
    ensures inside { result ≤ ROOM }
    ensures written { drop result line.new
        ≡ codes " r " ++ (decimal read.now.page ++ (codes " " ++ (decimal read.now.offset ++ (codes " " ++ (hex read.now.bytes ++ codes "\n"))))) }
    ensures ascii { IsAscii (drop result line.new) }
{
    prove!(read.bytes.len() <= MAX_BYTES);
    let line_feed = put_char(line, ROOM, b'\n');
    let bytes = put_hex(line, line_feed, read.bytes.as_slice());
    let offset = put_number(line, bytes, read.offset as u32);
    let page = put_number(line, offset, read.page);
    let space = put_char(line, page, b' ');
    let letter = put_char(line, space, b'r');
    put_char(line, letter, b' ')
}

// A read: the guest, the page, the offset and the bytes.
#[tactic(auto, unfolding(crate::specs::Lines::read_line))]
pub(crate) fn push_read(text: &mut String, name: &str, read: &PageRead) -> Result<(), AllocError>
    ensures { OnOk result (string_bytes text.new ≡ string_bytes text.old ++ read_line name.now read.now) }
{
    let mut line = [0; ROOM];
    let start = put_read(&mut line, read);
    text.push_str(name)?;
    // All that was put is ASCII.
    text.push_str(unsafe { std::str::from_utf8_unchecked(&line[start..]) })
}
