// The lines of a host log.
ghost use Rattle.std.specs.Prelude.{◌≡◌, position};
ghost use Rattle.vm_samples.specs.Lines.{is_line_end};

use memchr::memchr;

// The place of the first end of a line.
#[inline(always)]
pub(crate) fn line_end(text: &[u8]) -> Option<usize>
    ensures { result ≡ position is_line_end text.now }
{
    memchr(b'\n', text)
}
