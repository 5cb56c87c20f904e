// A key as a JSON string has it.
ghost use Rattle.std.specs.Prelude.{◌≡◌, ◌<◌, true};
ghost use Rattle.std.specs.Char.{digit_char};
ghost use Rattle.std.specs.Fmt.{WritesOnOk};
ghost use Rattle.json.specs.Print.{escape, escape_byte};
ghost use Rattle.vm_keys.specs.Shown.{by_number, is_escaped};

use std::fmt;

/// A key as a string of JSON (RFC 8259, section 7), in quotes and with its escapes: it has no line end and no other control character.
#[derive(Clone, Copy, Debug)]
pub struct ShownKey<'a> {
    /// The key.
    pub key: &'a str,
}

impl fmt::Display for ShownKey<'_> {
    ghost use Rattle.std.specs.Prelude.{Some};
    ghost use Rattle.json.specs.Print.{quoted};

    ghost output = { λ shown. Some (quoted shown.key.now) };

    fn fmt<W: fmt::Write>(&self, f: &mut fmt::Formatter<W>) -> fmt::Result {
        f.write_str("\"")?;
        write_escaped(f, self.key)?;
        f.write_str("\"")
    }
}

// Writes a text with its escapes, without quotes.
fn write_escaped<W: fmt::Write>(f: &mut fmt::Formatter<W>, text: &str) -> fmt::Result
    ensures { WritesOnOk W.write_str_gives f.old result (escape text.now) f.new }
{
    let bytes = text.as_bytes();
    let mut start = 0;
    'bytes: for at in 0..bytes.len() {
        let byte = bytes[at];
        if is_escaped(byte) {
            f.write_str(&text[start..at])?;
            write_escape(f, byte)?;
            start = at + 1;
        }
    }
    f.write_str(&text[start..])
}

// Whether a byte has an escape.
fn is_escaped(byte: u8) -> bool
    ensures { result ≡ is_escaped byte }
{
    byte < b' ' || byte == b'"' || byte == b'\\'
}

// Writes the escape of a byte that has one.
fn write_escape<W: fmt::Write>(f: &mut fmt::Formatter<W>, byte: u8) -> fmt::Result
    requires { is_escaped byte ≡ true }
    ensures { WritesOnOk W.write_str_gives f.old result (escape_byte byte) f.new }
{
    match byte {
        b'"' => f.write_str("\\\""),
        b'\\' => f.write_str("\\\\"),
        8 => f.write_str("\\b"),
        12 => f.write_str("\\f"),
        b'\n' => f.write_str("\\n"),
        b'\r' => f.write_str("\\r"),
        b'\t' => f.write_str("\\t"),
        _ => write_code(f, byte),
    }
}

// Writes the escape of a byte by its number.
fn write_code<W: fmt::Write>(f: &mut fmt::Formatter<W>, byte: u8) -> fmt::Result
    ensures { WritesOnOk W.write_str_gives f.old result (by_number byte) f.new }
{
    let high = hex_digit(byte / 16);
    let low = hex_digit(byte % 16);
    write!(f, "\\u00{high}{low}")
}

// The hexadecimal digit of a number below 16.
fn hex_digit(digit: u8) -> char
    requires { digit < 16 }
    ensures { result ≡ digit_char digit }
{
    let byte = if digit < 10 {
        b'0' + digit
    } else {
        b'a' + (digit - 10)
    };
    byte as char
}
