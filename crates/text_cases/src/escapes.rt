// Bytes that a line can't hold, or that can't be seen in one.
use percent_encoding::percent_decode;
use std::alloc::{AllocError, Global};

/// The bytes of a text in which `%0A` stands for the byte 10, and so on (RFC 3986, section 2.1).
pub(crate) fn unescaped(alloc: Global, text: &str) -> Result<Vec<u8>, AllocError> {
    let mut bytes = Vec::new(alloc);
    percent_decode(text.as_bytes()).append_to(&mut bytes)?;
    Ok(bytes)
}
