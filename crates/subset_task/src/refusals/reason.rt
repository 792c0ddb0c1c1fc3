//! Why the system refused to read or to write.

ghost use Rattle.std.specs.Prelude.{◌≡◌, None};
ghost use Rattle.std.specs.Io.{ReadsAtMost, WritesAtMost};
ghost use Rattle.std.specs.Io.KnownBytes.{Keeps, ReadConsumes, WriteAppends};
ghost use Rattle.subset_task.specs.Files.{IsUnread, IsReason, IsReasonBy, IsNoted};

use crate::refusals::failure::Failure;
use std::io;
use std::io::{ErrorKind, Read, Write};

/// A reader or a writer that keeps why it failed last.
#[derive(Drop)]
pub struct Noted<T: Drop> {
    inner: T,
    reason: Option<io::Error>,
}

impl<T: Drop> Noted<T> {
    /// One that hasn't failed.
    pub fn new(inner: T) -> Self
        ensures inner { result.inner ≡ inner }
        ensures reason { result.reason ≡ None }
    {
        Noted {
            inner,
            reason: None,
        }
    }

    /// Why it failed last.
    pub fn reason(&self) -> Option<io::Error>
        ensures { result ≡ self.now.reason }
    {
        self.reason
    }
}

impl<T: Read + Drop> Read for Noted<T> {
    ghost remaining = { λ noted. T.remaining noted.inner };

    fn read(&mut self, buf: &mut [u8]) -> io::Result<usize>
        ensures bound { ReadsAtMost result buf.new }
        ensures bytes { ReadConsumes (T.remaining self.old.inner) (T.remaining self.new.inner) result buf.new }
        ensures reason { IsNoted result self.old.reason self.new.reason }
    {
        match self.inner.read(buf) {
            Ok(count) => Ok(count),
            Err(error) => {
                self.reason = Some(error);
                Err(error)
            }
        }
    }
}

impl<T: Write + Drop> Write for Noted<T> {
    ghost contents = { λ noted. T.contents noted.inner };

    fn write(&mut self, buf: &[u8]) -> io::Result<usize>
        ensures bound { WritesAtMost result buf.now }
        ensures bytes { WriteAppends (T.contents self.old.inner) (T.contents self.new.inner) result buf.now }
        ensures reason { IsNoted result self.old.reason self.new.reason }
    {
        match self.inner.write(buf) {
            Ok(count) => Ok(count),
            Err(error) => {
                self.reason = Some(error);
                Err(error)
            }
        }
    }

    fn flush(&mut self) -> io::Result<()>
        ensures bytes { Keeps (T.contents self.old.inner) (T.contents self.new.inner) }
        ensures reason { IsNoted result self.old.reason self.new.reason }
    {
        match self.inner.flush() {
            Ok(()) => Ok(()),
            Err(error) => {
                self.reason = Some(error);
                Err(error)
            }
        }
    }
}

/// Why reading failed: what the reader kept, else memory ran out.
pub fn unread(kept: Option<io::Error>) -> Option<io::Error>
    ensures { IsUnread kept result }
{
    match kept {
        Some(error) => Some(error),
        None => Some(io::Error::from(ErrorKind::OutOfMemory)),
    }
}

/// Why the system refused what a failure is of, by what each of the four kept.
fn reason_by(
    failure: &Failure,
    input: Option<io::Error>,
    page: Option<io::Error>,
    output: Option<io::Error>,
    lines: Option<io::Error>,
) -> Option<io::Error>
    ensures { IsReasonBy failure.now (record { font = input; page = page; output = output; lines = lines }) result }
{
    match failure {
        Failure::Read => unread(input),
        Failure::WritePdf => page,
        Failure::Write => output,
        Failure::Output => lines,
        _ => None,
    }
}

/// Why a run failed that read the font, and wrote a PDF, the new font and the lines, by what each of the four kept.
pub fn reason_of(
    ended: &Result<(), Failure>,
    input: Option<io::Error>,
    page: Option<io::Error>,
    output: Option<io::Error>,
    lines: Option<io::Error>,
) -> Option<io::Error>
    ensures { IsReason ended.now (record { font = input; page = page; output = output; lines = lines }) result }
{
    match ended {
        Ok(()) => None,
        Err(failure) => reason_by(failure, input, page, output, lines),
    }
}
