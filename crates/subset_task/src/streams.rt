//! The files and the standard streams that a run reads and writes.

ghost use Rattle.std.specs.Prelude.{◌≡◌, true, false, IfOk, IfSome, OnErr, None};
ghost use Rattle.std.specs.Io.{ReadsAtMost};
ghost use Rattle.std.specs.Io.KnownBytes.{ReadConsumes};
ghost use Rattle.std.specs.Option.{option_copied};
ghost use Rattle.subset_args.specs.Request.{is_stream};
ghost use Rattle.subset_task.specs.Streams.{IsSource, IsTarget};

use late_file::LateFile;
use std::io::{ErrorKind, Read, Write};
use std::os::unix::fs::MetadataExt;
use std::rt::Files;
use std::{fs, io};
use subset_args::is_stream;

/// The most bytes that are read of a file or a stream where an option doesn't say so.
pub const MOST_INPUT: u32 = 1 << 30;

/// What the font or a list of glyphs is read from, and how many bytes may still be.
#[derive(Drop)]
pub enum Source<F: Read + Drop, S: Read + Drop> {
    /// A file.
    File(F, u64),
    /// Standard input.
    Standard(S, u64),
}

/// Reads where bytes are left that may be read, and counts them. `FileTooLarge` where none are.
fn read_counted<R: Read>(reader: &mut R, left: &mut u64, buf: &mut [u8]) -> io::Result<usize>
    ensures bound { ReadsAtMost result buf.new }
    ensures bytes { ReadConsumes (R.remaining reader.old) (R.remaining reader.new) result buf.new }
{
    if *left == 0 {
        return Err(io::Error::from(ErrorKind::FileTooLarge));
    }
    let count = reader.read(buf)?;
    *left = left.saturating_sub(count as u64);
    Ok(count)
}

impl<F: Read + Drop, S: Read + Drop> Read for Source<F, S> {
    ghost use Rattle.subset_task.specs.Streams.{source_left};

    ghost remaining = { source_left F.remaining S.remaining };

    fn read(&mut self, buf: &mut [u8]) -> io::Result<usize> {
        match self {
            Source::File(file, left) => read_counted(file, left, buf),
            Source::Standard(stream, left) => read_counted(stream, left, buf),
        }
    }
}

/// Opens what is read, of at most `most` bytes. One byte more is read, to see the end.
pub fn open_source<R: Files + Input>(
    rt: &R,
    name: &str,
    most: u32,
) -> io::Result<Source<R::File, R::Reader>>
    ensures ok { IfOk result (IsSource name.now most) }
    ensures err { OnErr result (is_stream name.now ≡ false) }
{
    let left = u64::from(most) + 1;
    if is_stream(name) {
        return Ok(Source::Standard(rt.reader(), left));
    }
    Ok(Source::File(fs::open(rt, name)?, left))
}

/// Opens three descriptors, of a folder: by these nothing can be read or written. Where a standard stream is closed at the
/// start, one of them takes its number, so that no file gets it while they are kept: the stream then fails.
pub fn hold_streams<R: Files>(rt: &R) -> (Option<R::File>, Option<R::File>, Option<R::File>) {
    let first = fs::open(rt, "/").ok();
    let second = fs::open(rt, "/").ok();
    let third = fs::open(rt, "/").ok();
    (first, second, third)
}

/// What the font or a PDF is written to.
#[derive(Drop)]
pub enum Target<'a, R: Files + Print> {
    /// A file, which is made by the first write.
    File(LateFile<'a, R>),
    /// Standard output.
    Standard(&'a R),
    /// Nothing: the bytes are dropped.
    Nowhere,
}

impl<'a, R: Files + Print + AllocGlobal> Target<'a, R> {
    /// What an argument names, if it is given. No file is made yet.
    pub fn new(rt: &'a R, name: Option<&'a str>) -> Self
        ensures { IsTarget rt.entry (option_copied name.entry) result }
    {
        let Some(name) = name else {
            return Target::Nowhere;
        };
        if is_stream(name) {
            return Target::Standard(rt);
        }
        Target::File(LateFile::new(rt, rt.alloc(), name))
    }
}

impl<R: Files + Print> Write for Target<'_, R> {
    fn write(&mut self, buf: &[u8]) -> io::Result<usize> {
        match self {
            Target::File(file) => file.write(buf),
            Target::Standard(rt) => io::writer(*rt).write(buf),
            Target::Nowhere => Ok(buf.len()),
        }
    }

    fn flush(&mut self) -> io::Result<()> {
        match self {
            Target::File(file) => file.flush(),
            Target::Standard(_) | Target::Nowhere => Ok(()),
        }
    }
}

/// What the new numbers are printed to.
#[derive(Drop)]
pub enum Lines<'a, R: Print + Eprint> {
    /// Standard output.
    Output(&'a R),
    /// Standard error.
    Error(&'a R),
}

impl<R: Print + Eprint> Write for Lines<'_, R> {
    fn write(&mut self, buf: &[u8]) -> io::Result<usize> {
        match self {
            Lines::Output(rt) => io::writer(*rt).write(buf),
            Lines::Error(rt) => {
                // The lines are ASCII.
                let Ok(text) = str::from_utf8(buf) else {
                    return Err(io::Error::from(ErrorKind::InvalidData));
                };
                rt.eprint(text)?;
                Ok(buf.len())
            }
        }
    }

    fn flush(&mut self) -> io::Result<()> {
        Ok(())
    }
}

/// Whether a name is that of the file that standard output is.
fn is_standard_output<R: Files>(rt: &R, name: &str) -> bool {
    match (fs::metadata(rt, name), fs::metadata(rt, "/dev/stdout")) {
        (Ok(one), Ok(other)) => one.dev() == other.dev() && one.ino() == other.ino(),
        _ => false,
    }
}

/// The bits of a mode that say what a file is, and what they are of a device of characters, as a terminal is.
const KIND: u32 = 0o170000;

const CHARACTERS: u32 = 0o020000;

/// Whether standard error is a terminal, or another device of characters, where nothing is lost.
pub fn is_shown<R: Files>(rt: &R) -> bool {
    match fs::metadata(rt, "/dev/stderr") {
        Ok(about) => about.mode() & KIND == CHARACTERS,
        Err(_) => false,
    }
}

/// Whether the font or a PDF goes to standard output, if it is named.
pub fn is_to_standard_output<R: Files>(rt: &R, name: Option<&str>) -> bool
    ensures unnamed { name.entry ≡ None → result ≡ false }
    ensures stream { IfSome name.entry (λ name. is_stream name.now ≡ true → result ≡ true) }
{
    match name {
        Some(name) => is_stream(name) || is_standard_output(rt, name),
        None => false,
    }
}

/// What the lines go to: standard output, or if the font or a PDF goes there, standard error.
pub fn lines_beside<'a, R: Print + Eprint>(rt: &'a R, is_font_there: bool) -> Lines<'a, R>
    ensures font_there { is_font_there ≡ true → result ≡ Lines.Error rt.entry }
    ensures font_elsewhere { is_font_there ≡ false → result ≡ Lines.Output rt.entry }
{
    if is_font_there {
        return Lines::Error(rt);
    }
    Lines::Output(rt)
}
