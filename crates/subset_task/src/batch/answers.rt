//! What is answered to a request of a batch.

ghost use Rattle.std.specs.Prelude.{◌≡◌, ◌≤◌, ◌^◌, [], length, Some, OnOk};
ghost use Rattle.std.specs.Io.KnownBytes.{Appends};
ghost use Rattle.subset_task.specs.Batch.Answers.{answer_line, has_failed, IsFailedBy};

use plain_text::Unwritten;
use std::alloc::{AllocError, Global};
use std::io;
use std::io::{ErrorKind, Write};
use subset_batch::{write_done, write_failed};

/// What is answered to a request of a batch.
#[derive(Drop)]
pub enum Answer {
    /// It was done: the object that a run of its own prints, as a line; nothing where that prints nothing.
    Done(Vec<u8>),
    /// It failed: the status that the program would end with, and why.
    Failed(u8, String),
    /// Memory ran out.
    NoMemory,
}

/// The status of a request where memory ran out, and why it failed.
const NO_MEMORY_STATUS: u8 = 1;

const NO_MEMORY: &str = "out of memory";

/// The most bytes of an object that is answered.
const MOST: usize = 1 << 26;

/// An object that is written, of 64 MiB at most.
#[derive(Drop)]
pub struct Object {
    text: Vec<u8>,
    // Whether more was to be written.
    is_long: bool,
    ghost within: { length text.items ≤ 2 ^ 26 },
}

impl Object {
    /// One without bytes.
    pub fn new(alloc: Global) -> Self
        ensures { result.text.items ≡ [] }
    {
        Object {
            text: Vec::new(alloc),
            is_long: false,
        }
    }

    /// Whether more was to be written than it has room for.
    pub fn is_long(&self) -> bool
        ensures { result ≡ self.now.is_long }
    {
        self.is_long
    }

    /// Its bytes.
    pub fn into_text(self) -> Vec<u8>
        ensures text { result ≡ self.text }
        ensures within { length result.items ≤ 2 ^ 26 }
    {
        let Object { text, is_long: _ } = self;
        text
    }
}

impl Write for Object {
    ghost contents = { λ object. Some object.text.items };

    fn write(&mut self, buf: &[u8]) -> io::Result<usize> {
        if buf.len() > MOST - self.text.len() {
            self.is_long = true;
            return Err(io::Error::from(ErrorKind::FileTooLarge));
        }
        self.text.extend_from_slice(buf)?;
        Ok(buf.len())
    }

    fn flush(&mut self) -> io::Result<()> {
        Ok(())
    }
}

/// The answer to a request that failed, by a text that memory may not have sufficed for.
pub fn failed(status: u8, text: Result<String, AllocError>) -> Answer
    ensures { IsFailedBy status result }
{
    match text {
        Ok(text) => Answer::Failed(status, text),
        Err(_) => Answer::NoMemory,
    }
}

/// Whether a request failed.
pub fn has_failed(answer: &Answer) -> bool
    ensures { result ≡ has_failed answer.now }
{
    match answer {
        Answer::Done(_) => false,
        Answer::Failed(_, _) | Answer::NoMemory => true,
    }
}

/// Writes the line of answer to the request of a line.
pub fn write_answer<W: Write>(line: usize, answer: &Answer, out: &mut W) -> Result<(), Unwritten>
    ensures { OnOk result (Appends (W.contents out.old) (W.contents out.new) (answer_line line answer.now)) }
{
    match answer {
        Answer::Done(object) => write_done(line, object, out),
        Answer::Failed(status, text) => write_failed(line, *status, text, out),
        Answer::NoMemory => write_failed(line, NO_MEMORY_STATUS, NO_MEMORY, out),
    }
}
