// Writing all of a text to a sink.
ghost use Rattle.std.specs.Prelude.{◌≡◌, OnOk, OnErr, true};
ghost use Rattle.std.specs.Io.KnownBytes.{Appends};
ghost use Rattle.vm_streams.specs.Streams.{AppendsFront};

use crate::stream::Sink;

/// The sink failed.
#[derive(Clone, Copy, Debug, PartialEq, Eq)]
pub struct WriteFailed;

/// Writes the whole text, in as many writes as the sink asks for. Where the sink fails, a front of the text was written.
pub fn write_text<W: Sink>(writer: &mut W, text: &[u8]) -> Result<(), WriteFailed>
    ensures written { OnOk result (Appends (W.contents writer.old) (W.contents writer.new) text.now) }
    ensures front { OnErr result (AppendsFront (W.contents writer.old) (W.contents writer.new) text.now) }
    ensures failure { OnErr result (W.has_failed writer.new ≡ true) }
    ensures stays { OnOk result (W.has_failed writer.new ≡ W.has_failed writer.old) }
{
    let mut start = 0;
    while start < text.len() {
        match writer.write(&text[start..]) {
            Ok(count) if count > 0 => start += count,
            _ => return Err(WriteFailed),
        }
    }
    Ok(())
}
