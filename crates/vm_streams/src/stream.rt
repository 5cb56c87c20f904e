// Readers and writers that remember whether they failed.
ghost use Rattle.std.specs.Prelude.{◌≡◌, ◌≢◌, ◌||◌, ℕ, List, Bool, IfErr, Option, length, is_err};
ghost use Rattle.std.specs.Io.{ReadsAtMost, WritesAtMost};
ghost use Rattle.std.specs.Io.KnownBytes.{ReadConsumes, WriteAppends};
ghost use Rattle.std.specs.IoError.{error_kind};
ghost use Rattle.std.specs.declared.io.ErrorKind.TheVariants.{Interrupted};
ghost use Rattle.vm_streams.specs.Streams.{refuses};

use std::io;
use std::io::{ErrorKind, Read, Write};

/// Where bytes come from.
///
/// A clause sees `remaining`, the bytes that reads will give from here on where they are known, and `has_failed`, whether a
/// read has failed.
pub trait Source {
    ghost remaining: { Self → Option (List ℕ) };

    ghost has_failed: { Self → Bool };

    /// Fills the front of `buf`, and says how many bytes that took; 0 is the end. An error takes none, and is never
    /// [`ErrorKind::Interrupted`]: what a signal interrupts is tried again. Any other kind is a failure.
    fn read(&mut self, buf: &mut [u8]) -> io::Result<usize>
        ensures bound { ReadsAtMost result buf.new }
        ensures bytes { ReadConsumes (remaining self.old) (remaining self.new) result buf.new }
        ensures kind { IfErr result (λ error. error_kind error ≢ Interrupted) }
        ensures failure { has_failed self.new ≡ has_failed self.old || is_err result };

    /// Whether any read so far has failed.
    fn failed(&self) -> bool
        ensures { result ≡ has_failed self.now };
}

/// Where bytes go to.
///
/// A clause sees `contents`, the bytes that the sink holds where they are known, and `has_failed`, whether a write has
/// failed, or took nothing of a slice that was not empty.
pub trait Sink {
    ghost contents: { Self → Option (List ℕ) };

    ghost has_failed: { Self → Bool };

    /// Takes the front of `buf`, and says how many bytes it took. An error takes none, and is never [`ErrorKind::Interrupted`]:
    /// what a signal interrupts is tried again. Any other kind is a failure, and so are 0 bytes of a slice that is not empty.
    fn write(&mut self, buf: &[u8]) -> io::Result<usize>
        ensures bound { WritesAtMost result buf.now }
        ensures bytes { WriteAppends (contents self.old) (contents self.new) result buf.now }
        ensures kind { IfErr result (λ error. error_kind error ≢ Interrupted) }
        ensures failure { has_failed self.new ≡ has_failed self.old || refuses result buf.now };

    /// Whether any write so far has failed.
    fn failed(&self) -> bool
        ensures { result ≡ has_failed self.now };
}

// One read, tried again where a signal interrupted it; after 2^64 - 1 tries it is given up.
fn read_retrying<R: Read>(reader: &mut R, buf: &mut [u8]) -> io::Result<usize>
    ensures bound { ReadsAtMost result buf.new }
    ensures bytes { ReadConsumes (R.remaining reader.old) (R.remaining reader.new) result buf.new }
    ensures kind { IfErr result (λ error. error_kind error ≢ Interrupted) }
{
    for _ in 0..u64::MAX {
        match reader.read(buf) {
            Err(error) if error.kind() == ErrorKind::Interrupted => {}
            outcome => return outcome,
        }
    }
    Err(io::Error::from(ErrorKind::TimedOut))
}

// One write, tried again where a signal interrupted it; after 2^64 - 1 tries it is given up.
fn write_retrying<W: Write>(writer: &mut W, buf: &[u8]) -> io::Result<usize>
    ensures bound { WritesAtMost result buf.now }
    ensures bytes { WriteAppends (W.contents writer.old) (W.contents writer.new) result buf.now }
    ensures kind { IfErr result (λ error. error_kind error ≢ Interrupted) }
{
    for _ in 0..u64::MAX {
        match writer.write(buf) {
            Err(error) if error.kind() == ErrorKind::Interrupted => {}
            outcome => return outcome,
        }
    }
    Err(io::Error::from(ErrorKind::TimedOut))
}

/// A reader or a writer of std, and whether it has failed since it was put in here. It is a [`Source`] over a reader, and a
/// [`Sink`] over a writer. A call that a signal interrupted is tried again.
#[derive(Drop)]
pub struct Watched<T> {
    inner: T,
    has_failed: bool,
}

impl<T> Watched<T> {
    ghost use Rattle.std.specs.Prelude.{false};

    /// Nothing has failed yet.
    pub fn new(inner: T) -> Self
        ensures inner { result.inner ≡ inner }
        ensures fresh { result.has_failed ≡ false }
    {
        Watched {
            inner,
            has_failed: false,
        }
    }
}

// Whether a reader or a writer has failed.
fn has_failed<T>(watched: &Watched<T>) -> bool
    ensures { result ≡ watched.now.has_failed }
{
    watched.has_failed
}

impl<R: Read> Source for Watched<R> {
    ghost remaining = { λ s. R.remaining s.inner };

    ghost has_failed = { λ s. s.has_failed };

    fn read(&mut self, buf: &mut [u8]) -> io::Result<usize> {
        let result = read_retrying(&mut self.inner, buf);
        self.has_failed = self.has_failed || result.is_err();
        result
    }

    fn failed(&self) -> bool {
        has_failed(self)
    }
}

impl<W: Write> Sink for Watched<W> {
    ghost contents = { λ s. W.contents s.inner };

    ghost has_failed = { λ s. s.has_failed };

    fn write(&mut self, buf: &[u8]) -> io::Result<usize> {
        let result = write_retrying(&mut self.inner, buf);
        let is_refused = match &result {
            Ok(taken) => *taken == 0 && !buf.is_empty(),
            Err(_) => true,
        };
        self.has_failed = self.has_failed || is_refused;
        result
    }

    fn failed(&self) -> bool {
        has_failed(self)
    }
}
