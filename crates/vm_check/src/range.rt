// The range of the number at a key.
ghost use Rattle.std.specs.Prelude.{◌≡◌};
ghost use Rattle.vm_check.specs.Ranges.{between, most_frames, most_pages, most_swap, most_tax, range_of};

use vm_config::Key;

/// The least and the greatest number that a key may have.
#[derive(Clone, Copy, Debug, PartialEq, Eq)]
pub(crate) struct Range {
    pub(crate) least: u32,
    pub(crate) greatest: u32,
}

// The most frames of a machine.
fn most_frames(version: u32) -> u32
    ensures { result ≡ most_frames version }
{
    if version == 1 { 65536 } else { 262_144 }
}

// The most pages of its swap area.
fn most_swap(version: u32) -> u32
    ensures { result ≡ most_swap version }
{
    if version == 1 { 4_194_304 } else { 67_108_864 }
}

// The greatest tax.
fn most_tax(version: u32) -> u32
    ensures { result ≡ most_tax version }
{
    if version == 1 { 99 } else { 9999 }
}

// The most pages of a guest.
fn most_pages(version: u32) -> u32
    ensures { result ≡ most_pages version }
{
    if version == 1 { 65536 } else { 262_144 }
}

// A range.
fn between(least: u32, greatest: u32) -> Option<Range>
    ensures { result ≡ between least greatest }
{
    Some(Range { least, greatest })
}

/// The range of the number at a key, in a version; `None` where no number stands there, or one of any size. That of `min` is
/// [`Key::Size`]'s, and goes to the size of its guest at most.
pub(crate) fn range_of(version: u32, key: Key) -> Option<Range>
    ensures { result ≡ range_of version key }
{
    match key {
        Key::Version => between(1, 3),
        Key::Frames => between(1, most_frames(version)),
        Key::Swap => between(0, most_swap(version)),
        Key::Overhead => between(0, 1024),
        Key::Tax => between(0, most_tax(version)),
        Key::PageRate => between(1, 256),
        Key::Rebalance => between(0, 262_144),
        Key::Page => between(4, 1_048_576),
        Key::Quantum => between(1, 65536),
        Key::Epochs => between(0, 10_000),
        Key::Size => between(1, most_pages(version)),
        Key::Min => between(1, most_pages(version)),
        Key::Shares => between(1, 1_000_000),
        Key::Samples => between(1, 1000),
        Key::Period => between(1, 1_000_000),
        Key::Rate => between(1, 256),
        Key::At => between(0, 9999),
        Key::Percent | Key::Guests | Key::Commands | Key::Name => None,
        Key::Seed | Key::Stream | Key::Autostart | Key::Tell => None,
        Key::Driver | Key::Trace | Key::Line => None,
    }
}
