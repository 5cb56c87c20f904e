//! The names of guests.
ghost use Rattle.std.specs.Prelude.{◌≡◌};
ghost use Rattle.std.specs.List.{list_all};
ghost use Rattle.vm_samples.specs.Names.{is_name, is_name_byte};

const MAX_NAME: usize = 32;

// All four are asked: with branches, each way through them would be proved by itself.
fn is_name_byte(byte: u8) -> bool
    ensures { result ≡ is_name_byte byte }
{
    byte.is_ascii_alphanumeric() | (byte == b'_') | (byte == b'.') | (byte == b'-')
}

fn are_name_bytes(bytes: &[u8]) -> bool
    ensures { result ≡ list_all is_name_byte bytes.now }
{
    bytes.iter().all(|byte| is_name_byte(*byte))
}

/// Whether bytes are the name of a guest: 1 to 32 letters, digits, `_`, `.` and `-`, of which the first is no `-`.
pub fn is_name(bytes: &[u8]) -> bool
    ensures { result ≡ is_name bytes.now }
{
    !bytes.is_empty() && bytes.len() <= MAX_NAME && bytes[0] != b'-' && are_name_bytes(bytes)
}
