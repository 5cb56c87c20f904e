ghost use Rattle.std.specs.Prelude.{◌≡◌, ◌++◌, ◌/◌, ◌<◌, Some, length, slice_get};
ghost use Rattle.std.specs.Int.{w16, w32, w64, from_le_bytes, to_le_bytes};
ghost use Rattle.vm_balloon.specs.Virtio.{page_number, page_numbers, stat_entry, stat_entries};

/// The bytes of a page number in a page buffer.
pub(crate) const PAGE_NUMBER_BYTES: usize = 4;

// The bytes of an entry in a statistics buffer.
const STAT_BYTES: usize = 10;

/// The bytes of a page number in a page buffer, low byte first: le32, in units of 4096 bytes (VIRTIO 1.2, section 5.5.6).
pub fn encode_page(page: u32) -> [u8; 4]
    ensures bytes { result ≡ to_le_bytes w32 page }
    ensures reads_back { slice_get (page_numbers result) 0 ≡ Some page }
{
    page.to_le_bytes()
}

/// The bytes of an entry of a statistics buffer: its tag and then its value, le16 and le64 (VIRTIO 1.2, section 5.5.6.3).
pub fn encode_stat(tag: u16, value: u64) -> [u8; 10]
    ensures bytes { result ≡ to_le_bytes w16 tag ++ to_le_bytes w64 value }
    ensures reads_back { slice_get (stat_entries result) 0 ≡ Some (tag, value) }
{
    let [t0, t1] = tag.to_le_bytes();
    let [v0, v1, v2, v3, v4, v5, v6, v7] = value.to_le_bytes();
    [t0, t1, v0, v1, v2, v3, v4, v5, v6, v7]
}

/// The page number at bytes 4 i to 4 i + 3 of a page buffer, `None` where they aren't all there.
#[tactic(auto, using(crate::proofs::VirtioLemmas::numbered))]
pub fn page_at(bytes: &[u8], i: usize) -> Option<u32>
    ensures { result ≡ slice_get (page_numbers bytes.now) i }
{
    if i < page_count(bytes) {
        Some(page_number(bytes, i))
    } else {
        None
    }
}

/// The tag and the value at bytes 10 i to 10 i + 9 of a statistics buffer, `None` where they aren't all there.
#[tactic(auto, using(crate::proofs::VirtioLemmas::numbered))]
pub fn stat_at(bytes: &[u8], i: usize) -> Option<(u16, u64)>
    ensures { result ≡ slice_get (stat_entries bytes.now) i }
{
    if i < stat_count(bytes) {
        Some(stat_entry(bytes, i))
    } else {
        None
    }
}

/// How many page numbers a page buffer has.
pub(crate) fn page_count(bytes: &[u8]) -> usize
    ensures { result ≡ length bytes.now / 4 }
{
    bytes.len() / PAGE_NUMBER_BYTES
}

/// How many entries a statistics buffer has.
pub(crate) fn stat_count(bytes: &[u8]) -> usize
    ensures { result ≡ length bytes.now / 10 }
{
    bytes.len() / STAT_BYTES
}

/// The page number at a place that is there.
pub(crate) fn page_number(bytes: &[u8], i: usize) -> u32
    requires { i < length bytes.now / 4 }
    ensures { result ≡ page_number bytes.now i }
{
    let at = PAGE_NUMBER_BYTES * i;
    le_u32(&bytes[at..at + 4])
}

/// The tag and the value at a place that is there.
pub(crate) fn stat_entry(bytes: &[u8], i: usize) -> (u16, u64)
    requires { i < length bytes.now / 10 }
    ensures { result ≡ stat_entry bytes.now i }
{
    let at = STAT_BYTES * i;
    (le_u16(&bytes[at..at + 2]), le_u64(&bytes[at + 2..at + 10]))
}

fn le_u16(b: &[u8]) -> u16
    requires { length b.now ≡ 2 }
    ensures { result ≡ from_le_bytes w16 b.now }
{
    u16::from_le_bytes([b[0], b[1]])
}

fn le_u32(b: &[u8]) -> u32
    requires { length b.now ≡ 4 }
    ensures { result ≡ from_le_bytes w32 b.now }
{
    u32::from_le_bytes([b[0], b[1], b[2], b[3]])
}

fn le_u64(b: &[u8]) -> u64
    requires { length b.now ≡ 8 }
    ensures { result ≡ from_le_bytes w64 b.now }
{
    u64::from_le_bytes([b[0], b[1], b[2], b[3], b[4], b[5], b[6], b[7]])
}
