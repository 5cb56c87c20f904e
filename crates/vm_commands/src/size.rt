// Sizes as decimal digits and a unit.
ghost use Rattle.std.specs.Prelude.{◌≡◌, ◌<◌, ◌≤◌, ◌^◌, ◌*◌, true, ℕ, map, length, bytes_eq, IfSome, Some};
ghost use Rattle.vm_commands.specs.SizeGrammar.{IsSize};
ghost use Rattle.std.specs.Option.{SomeIff};
ghost use Rattle.std.specs.List.{list_all, prefix_len};
ghost use Rattle.std.specs.Char.{is_ascii_digit, to_ascii_lowercase};
ghost use Rattle.std.specs.Str.Parse.{digits_value};
ghost use Rattle.vm_commands.specs.Sizes.{is_named, unit_of, digits_in_front, bytes_of_size, pages_of_size};

// The most digits that a size has.
const MAX_DIGITS: usize = 20;

/// The pages of a size such as `8`, `4097b` or `1GiB`, or `None` where the text is no size. A page is of `page` KiB: 4 on most
/// machines, more where a great one is counted in pages of several MiB.
///
/// A size is 1 to 20 decimal digits at once followed by a unit in either case, as for `virsh setmem`:
///
/// | Unit | Bytes |
/// |---|---|
/// | none, `k`, `KiB` | 1024 |
/// | `b`, `byte`, `bytes` | 1 |
/// | `KB` | 1000 |
/// | `M`, `MiB` | 1048576 |
/// | `MB` | 1000000 |
/// | `G`, `GiB` | 1073741824 |
/// | `GB` | 1000000000 |
///
/// The size in bytes is below 2^64. It is rounded up to KiB, and then up to pages: by the manual of `virsh`, at `setmem`, libvirt
/// counts in KiB, also where no unit is named, and a hypervisor that counts in more than a KiB rounds up once more. So it is the
/// fewest pages that have room for the bytes.
pub fn scaled_pages(text: &str, page: u32) -> Option<u64>
    requires { 1 ≤ page }
    ensures exact { result ≡ pages_of_size page text.now }

    // What is read is a size of so many pages, and a size of so many pages is read so.
    ensures size { IfSome result (IsSize page text.now) }
    ensures accepts { (pages : ℕ) → IsSize page text.now pages → result ≡ Some pages }
{
    pages_of_size(text.as_bytes(), page)
}

// The same, of bytes.
#[tactic(auto, unfolding(crate::specs::Sizes::pages_of_size))]
pub(crate) fn pages_of_size(text: &[u8], page: u32) -> Option<u64>
    requires { 1 ≤ page }
    ensures { result ≡ pages_of_size page text.now }
{
    let bytes = bytes_of_size(text)?;
    Some(bytes.div_ceil(1024).div_ceil(u64::from(page)))
}

// The bytes of a size.
#[tactic(auto, unfolding(crate::specs::Sizes::bytes_of_size))]
fn bytes_of_size(text: &[u8]) -> Option<u64>
    ensures { result ≡ bytes_of_size text.now }
{
    let count = digits_in_front(text);
    if count < 1 || count > MAX_DIGITS {
        return None;
    }
    let (digits, suffix) = text.split_at(count);
    let unit = unit_of(suffix)?;
    number(digits)?.checked_mul(unit)
}

// How many digits a text begins with.
fn digits_in_front(text: &[u8]) -> usize
    ensures { result ≡ digits_in_front text.now }
{
    text.iter().take_while(|byte| byte.is_ascii_digit()).count()
}

// The bytes of a unit.
#[tactic(auto, unfolding(crate::specs::Sizes::unit_of))]
fn unit_of(suffix: &[u8]) -> Option<u64>
    ensures value { result ≡ unit_of suffix.now }
    ensures positive { IfSome result (λ unit. 0 < unit) }
{
    if is_named(suffix, "") || is_named(suffix, "k") || is_named(suffix, "kib") {
        Some(1024)
    } else if is_named(suffix, "b") || is_named(suffix, "byte") || is_named(suffix, "bytes") {
        Some(1)
    } else if is_named(suffix, "kb") {
        Some(1000)
    } else if is_named(suffix, "m") || is_named(suffix, "mib") {
        Some(1 << 20)
    } else if is_named(suffix, "mb") {
        Some(1_000_000)
    } else if is_named(suffix, "g") || is_named(suffix, "gib") {
        Some(1 << 30)
    } else if is_named(suffix, "gb") {
        Some(1_000_000_000)
    } else {
        None
    }
}

// Whether a text is this name, in any case.
fn is_named(text: &[u8], name: &str) -> bool
    requires { map to_ascii_lowercase name.now ≡ name.now }
    ensures { result ≡ is_named text.now name.now }
{
    text.eq_ignore_ascii_case(name.as_bytes())
}

// The number that digits are, if it is below 2 ^ 64.
pub(crate) fn number(digits: &[u8]) -> Option<u64>
    requires { list_all is_ascii_digit digits.now ≡ true }
    ensures { SomeIff result (digits_value 10 digits.now < 2 ^ 64) (digits_value 10 digits.now) }
{
    let mut value: u64 = 0;
    for digit in digits {
        value = value.checked_mul(10)?.checked_add(u64::from(digit - b'0'))?;
    }
    Some(value)
}

// Whether a text has no other bytes than digits.
pub(crate) fn is_decimal(text: &[u8]) -> bool
    ensures { result ≡ list_all is_ascii_digit text.now }
{
    text.iter().all(|byte| byte.is_ascii_digit())
}
