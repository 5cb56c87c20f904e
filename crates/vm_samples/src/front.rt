// The front of a host log: its first block, or all of it where no line `---` comes.
ghost use Rattle.std.specs.Prelude.{◌≡◌, ◌≢◌, ◌⊎◌, ◌≤◌, ◌<◌, ◌++◌, ℕ, List, [], Err, IfOk, IfSome, IsTrue, OnErr, OnOk, true, false, drop, length, take, vec_len, ◌^◌, ◌+◌};
ghost use Rattle.std.specs.Io.KnownBytes.{prepend_known, Consumes, IsAtEnd};
ghost use Rattle.vm_samples.specs.declared.host_log.LogError.TheVariants.{Read, TooLong};
ghost use Rattle.vm_samples.specs.Blocks.{blocks_of, is_mark};
ghost use Rattle.vm_samples.specs.LogSteps.{front_of_all, front_to, HasNoEnd, IsFront, IsScanned, IsTaken, IsTooLong, Stays};

use crate::host_log::LogError;
use crate::lines::line_end;
use std::alloc::AllocError;
use std::mem;
use vm_streams::Source;

// The most bytes of a block.
const MAX_BLOCK: usize = 16_777_216;

// With so many bytes and no line `---` a block is too long: that line has four.
const TOO_MANY: usize = MAX_BLOCK + 4;

// The most bytes that one read takes.
const CHUNK: usize = 16384;

// How far the lines of bytes were looked at.
#[derive(Clone, Copy)]
pub(crate) struct Scan {
    // Where the next line begins, which is `---` if that was found.
    pub(crate) place: usize,
    pub(crate) is_found: bool,
}

// The block in front of the first line `---`, or all bytes.
#[derive(Clone, Copy)]
pub(crate) struct Front {
    pub(crate) block: usize,
    // With the line behind it.
    pub(crate) used: usize,
    pub(crate) is_ended: bool,
}

// Whether a line ends a block.
fn is_mark(line: &[u8]) -> bool
    ensures { result ≡ is_mark line.now }
{
    line == b"---".as_slice()
}

// Looks for the first line `---`, from the line at a place on, which doesn't end in front of another place.
fn scanned(bytes: &[u8], from: usize, known: usize) -> Scan
    requires ordered { from ≤ known }
    requires within { known ≤ length bytes.now }
    requires none { HasNoEnd bytes.now from known }
    ensures { IsScanned bytes.now from result }
{
    let mut place = from;
    let mut behind = known;
    while let Some(len) = line_end(&bytes[behind..]) {
        let end = behind + len;
        if is_mark(&bytes[place..end]) {
            return Scan {
                place,
                is_found: true,
            };
        }
        place = end + 1;
        behind = place;
    }
    Scan {
        place,
        is_found: false,
    }
}

// Takes more bytes from a source, and says whether there were any.
fn read_more<R: Source>(bytes: &mut Vec<u8>, source: &mut R) -> Result<bool, LogError>
    ensures taken { OnOk result (IsTaken bytes.old.items (R.remaining source.old) bytes.new.items (R.remaining source.new)) }
    ensures more { IfOk result (λ more. IsTrue more → vec_len bytes.old < vec_len bytes.new) }
    ensures end { IfOk result (λ more. more ≡ false → IsAtEnd (R.remaining source.new)) }
    ensures none { IfOk result (λ more. more ≡ false → bytes.new.items ≡ bytes.old.items) }
    ensures failure { result ≡ Err Read → R.has_failed source.new ≡ true }
    ensures stays { (result ≡ Err Read) ⊎ (R.has_failed source.new ≡ R.has_failed source.old) }
    ensures short { result ≢ Err TooLong }
{
    let mut chunk = [0u8; CHUNK];
    let Ok(count) = source.read(&mut chunk) else {
        return Err(LogError::Read);
    };
    if bytes.extend_from_slice(&chunk[..count]).is_err() {
        return Err(LogError::Memory);
    }
    Ok(count > 0)
}

// The front that ends with a line `---` at a place.
fn ended_at(place: usize) -> Result<Front, LogError>
    requires { place + 4 < 2 ^ 64 }
    ensures front { IfOk result (λ front. front ≡ front_to place) }
    ensures short { OnOk result (place ≤ 16777216) }
    ensures long { OnErr result ((result ≡ Err TooLong) × (16777216 < place)) }
{
    if place > MAX_BLOCK {
        return Err(LogError::TooLong);
    }
    Ok(Front {
        block: place,
        used: place + 4,
        is_ended: true,
    })
}

// The front that is all of so many bytes.
fn unended(len: usize) -> Result<Front, LogError>
    ensures front { IfOk result (λ front. front ≡ front_of_all len) }
    ensures short { OnOk result (len ≤ 16777216) }
    ensures long { OnErr result ((result ≡ Err TooLong) × (16777216 < len)) }
{
    if len > MAX_BLOCK {
        return Err(LogError::TooLong);
    }
    Ok(Front {
        block: len,
        used: len,
        is_ended: false,
    })
}

// Takes bytes from a source until the first line `---` is among them, or the source ends.
pub(crate) fn find_front<R: Source>(bytes: &mut Vec<u8>, source: &mut R) -> Result<Front, LogError>
    ensures taken { OnOk result (Stays (prepend_known bytes.old.items (R.remaining source.old)) (prepend_known bytes.new.items (R.remaining source.new))) }
    ensures front { IfOk result (IsFront bytes.new.items) }
    ensures end { IfOk result (λ front. front.is_ended ≡ false → IsAtEnd (R.remaining source.new)) }
    ensures at_hand { blocks_of bytes.old.items ≢ [] → source.new ≡ source.old }
    ensures failure { result ≡ Err Read → R.has_failed source.new ≡ true }
    ensures stays { (result ≡ Err Read) ⊎ (R.has_failed source.new ≡ R.has_failed source.old) }
    ensures long { result ≡ Err TooLong → IfSome (prepend_known bytes.old.items (R.remaining source.old)) IsTooLong }
{
    let mut seen = 0;
    let mut known = 0;
    loop {
        let scan = scanned(bytes, seen, known);
        seen = scan.place;
        if scan.is_found {
            return ended_at(seen);
        }
        if bytes.len() >= TOO_MANY {
            return Err(LogError::TooLong);
        }
        known = bytes.len();
        if !read_more(bytes, source)? {
            return unended(bytes.len());
        }
    }
}

// Moves the block in front of all bytes to one place, and what is behind it to another.
pub(crate) fn cut(block: &mut Vec<u8>, bytes: &mut Vec<u8>, front: Front) -> Result<(), AllocError>
    requires { front.used ≤ vec_len bytes.old }
    ensures block { OnOk result (block.new.items ≡ take front.block bytes.old.items) }
    ensures ahead { OnOk result (bytes.new.items ≡ drop front.used bytes.old.items) }
{
    mem::swap(block, bytes);
    bytes.clear();
    bytes.extend_from_slice(&block[front.used..])?;
    block.truncate(front.block);
    Ok(())
}
