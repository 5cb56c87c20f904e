// How far the bytes of a text without escapes go, and how far blanks.
ghost use Rattle.std.specs.Prelude.{◌≡◌, ◌+◌, ◌≤◌, drop, length, map};
ghost use Rattle.std.specs.List.{prefix_len};
ghost use Rattle.std.specs.Simd.Lanes.{mask_l};
ghost use Rattle.json.specs.Run.{is_plain, is_stop};
ghost use Rattle.json.specs.Word.{is_space};
ghost use Rattle.vm_json.specs.Plain.{is_no_space};

use std::simd::prelude::*;

// The lanes that hold a quote, a backslash or a control byte.
#[inline(always)]
fn stops(lanes: u8x16) -> u64
    ensures { result ≡ mask_l (map is_stop lanes) }
{
    (lanes.simd_eq(u8x16::splat(b'"'))
        | lanes.simd_eq(u8x16::splat(b'\\'))
        | lanes.simd_lt(u8x16::splat(0x20))).to_bitmask()
}

// The first such byte from there on, or the length, where the bytes left are no whole vector.
fn plain_end(bytes: &[u8], from: usize) -> usize
    requires { from ≤ length bytes.now }
    ensures { result ≡ from + prefix_len is_plain (drop from bytes.now) }
{
    let mut at = from;
    while at < bytes.len() && bytes[at] != b'"' && bytes[at] != b'\\' && bytes[at] >= 0x20 {
        at += 1;
    }
    at
}

// How many bytes come before the first quote, backslash or control byte.
#[inline(always)]
pub(super) fn plain_len(bytes: &[u8]) -> usize
    ensures { result ≡ prefix_len is_plain bytes.now }
{
    let mut at = 0;
    while bytes.len() - at >= 16 {
        let found = stops(u8x16::from_slice(&bytes[at..]));
        if found != 0 {
            return at + found.trailing_zeros() as usize;
        }
        at += 16;
    }
    plain_end(bytes, at)
}

// The lanes that hold no blank.
#[inline(always)]
fn others(lanes: u8x16) -> u64
    ensures { result ≡ mask_l (map is_no_space lanes) }
{
    (lanes.simd_ne(u8x16::splat(b' '))
        & lanes.simd_ne(u8x16::splat(b'\t'))
        & lanes.simd_ne(u8x16::splat(b'\n'))
        & lanes.simd_ne(u8x16::splat(b'\r'))).to_bitmask()
}

#[inline(always)]
pub(super) fn is_blank(byte: u8) -> bool
    ensures { result ≡ is_space byte }
{
    byte == b' ' || byte == b'\t' || byte == b'\n' || byte == b'\r'
}

// The first byte from there on that is no blank, or the length, where the bytes left are no whole vector.
fn blank_end(bytes: &[u8], from: usize) -> usize
    requires { from ≤ length bytes.now }
    ensures { result ≡ from + prefix_len is_space (drop from bytes.now) }
{
    let mut at = from;
    while at < bytes.len() && is_blank(bytes[at]) {
        at += 1;
    }
    at
}

// How many blanks come first.
pub(super) fn blank_len(bytes: &[u8]) -> usize
    ensures { result ≡ prefix_len is_space bytes.now }
{
    let mut at = 0;
    while bytes.len() - at >= 16 {
        let other = others(u8x16::from_slice(&bytes[at..]));
        if other != 0 {
            return at + other.trailing_zeros() as usize;
        }
        at += 16;
    }
    blank_end(bytes, at)
}
