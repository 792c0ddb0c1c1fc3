//! Why a run of the program ended without a subset.

ghost use Rattle.std.specs.Prelude.{◌≡◌, ◌≤◌, string_bytes};
ghost use Rattle.std.specs.Option.{option_copied, option_map};
ghost use Rattle.subset_task.specs.Refusals.Failure.{status_of, status_of_end};
ghost use Rattle.subset_task.specs.Files.{pdf_name, list_name, file_at, name_by, failed_name};
ghost use Rattle.subset_task.specs.declared.refusals.failure.Failure.TheVariants.{Error as Refused};

use pdf_values::Permission;
use std::fmt;
use subset_args::{Glyphs, Job, Plain};
use subsetter::Error;

/// Why a run of the program ended without a subset.
#[derive(Debug, Drop)]
pub enum Failure {
    /// The font is refused, or memory ran out.
    Error(Error),
    /// The face has no table by which Unicode characters have glyphs.
    NoMapping,
    /// The face has no glyph for one of the characters, and may lack none.
    MissingCharacters,
    /// A PDF would show a blank of a glyph that has another picture than an outline, and may show none.
    BlankGlyphs,
    /// A PDF would show a glyph with a text of more than 256 UTF-16 units.
    TextTooLong,
    /// The face has no named instance of the requested name.
    NoInstance,
    /// The font's maker doesn't permit to embed it, and the user holds no rights.
    NotPermitted(Permission),
    /// The arguments after the program's name aren't as the usage says.
    Usage,
    /// The file of glyphs of this request isn't a list of them.
    List(usize),
    /// The source can't be read. The text wants the file's name after it.
    Read,
    /// The list of glyphs of this request can't be read. The text wants the file's name after it.
    ReadList(usize),
    /// The output can't be written. The text wants the file's name after it.
    Write,
    /// The PDF can't be written. The text wants the file's name after it.
    WritePdf,
    /// The lines can't be written.
    Output,
    /// A batch would answer more than 64 MiB to one request.
    LongAnswer,
}

impl fmt::Display for Failure {
    ghost use Rattle.std.specs.Prelude.{Some};
    ghost use Rattle.subset_task.specs.Refusals.Texts.{failure_text};

    ghost output = { λ failure. Some (failure_text failure) };

    fn fmt<W: fmt::Write>(&self, f: &mut fmt::Formatter<W>) -> fmt::Result {
        match self {
            Failure::Error(error) => write!(f, "{error}"),
            Failure::NoMapping => f.write_str("no Unicode cmap in font"),
            Failure::MissingCharacters => f.write_str("characters without a glyph"),
            Failure::BlankGlyphs => f.write_str("glyphs without an outline"),
            Failure::TextTooLong => f.write_str("text too long"),
            Failure::NoInstance => f.write_str("no such instance in font"),
            Failure::NotPermitted(_) => f.write_str("embedding not permitted"),
            Failure::Usage | Failure::List(_) => {
                f.write_str("usage: subset_font IN OUT INDEX GID[,GID..]")
            }
            Failure::Read | Failure::ReadList(_) => f.write_str("cannot read"),
            Failure::Write | Failure::WritePdf => f.write_str("cannot write"),
            Failure::Output => f.write_str("cannot write standard output"),
            Failure::LongAnswer => f.write_str("the answer has more than 64 MiB"),
        }
    }
}

impl std::error::Error for Failure {}

impl From<Error> for Failure {
    ghost from_gives = { λ why failure. failure ≡ Refused why };

    fn from(error: Error) -> Failure {
        Failure::Error(error)
    }
}

impl Failure {
    /// The status that the program ends with.
    pub fn status(&self) -> u8
        ensures value { result ≡ status_of self.now }
        ensures range { (1 ≤ result) × (result ≤ 3) }
    {
        match self {
            Failure::Error(_) => 1,
            Failure::NoMapping | Failure::NoInstance | Failure::NotPermitted(_) => 1,
            Failure::MissingCharacters | Failure::BlankGlyphs => 1,
            Failure::TextTooLong | Failure::LongAnswer => 1,
            Failure::Usage | Failure::List(_) => 2,
            Failure::Read | Failure::ReadList(_) => 3,
            Failure::Write | Failure::WritePdf | Failure::Output => 3,
        }
    }
}

/// A failure as standard error has it: its text, and after it the name of the file that failed.
#[derive(Drop)]
pub struct Report<'a> {
    /// Why the run failed.
    pub failure: &'a Failure,
    /// The name of the file that failed, if one did.
    pub file: Option<&'a str>,
}

/// A name that may be missing.
pub fn given(name: &Option<String>) -> Option<&str>
    ensures { option_copied result ≡ option_map (λ name. string_bytes name) name.now }
{
    match name {
        Some(name) => Some(name.as_str()),
        None => None,
    }
}

/// The name of the file of the PDF that is requested, if one is.
pub fn pdf_file(job: &Job) -> Option<&str>
    ensures { option_copied result ≡ pdf_name job.now }
{
    match &job.pdf {
        Some(pdf) => Some(pdf.file.as_str()),
        None => None,
    }
}

/// The name of the file that lists the glyphs, if one does.
pub fn list_file(glyphs: &Glyphs) -> Option<&str>
    ensures { option_copied result ≡ list_name glyphs.now }
{
    match glyphs {
        Glyphs::InFile(_, name) => Some(name.as_str()),
        _ => None,
    }
}

/// The name of the file that lists the glyphs of the request at a place, if one does.
pub fn file_at(glyphs: &[Glyphs], place: usize) -> Option<&str>
    ensures { option_copied result ≡ file_at glyphs.now place }
{
    match glyphs.get(place) {
        Some(one) => list_file(one),
        None => None,
    }
}

/// The name of the file that a failure is of, if it is of one.
pub fn file_by<'a>(failure: &Failure, job: &'a Job) -> Option<&'a str>
    ensures { option_copied result ≡ name_by failure.now job.now }
{
    match failure {
        Failure::Read => Some(job.input.as_str()),
        Failure::ReadList(place) => file_at(&job.glyphs, *place),
        Failure::Write => given(&job.output),
        Failure::WritePdf => pdf_file(job),
        _ => None,
    }
}

/// The name of the file that failed, if one did.
pub fn file_of<'a>(ended: &Result<(), Failure>, job: &'a Job) -> Option<&'a str>
    ensures { option_copied result ≡ failed_name ended.now job.now }
{
    match ended {
        Ok(()) => None,
        Err(failure) => file_by(failure, job),
    }
}

impl fmt::Display for Report<'_> {
    fn fmt<W: fmt::Write>(&self, f: &mut fmt::Formatter<W>) -> fmt::Result {
        let failure = self.failure;
        match self.file {
            Some(name) => write!(f, "{failure} {}", Plain(name)),
            None => write!(f, "{failure}"),
        }
    }
}

/// The status that the program ends with: 0 where all is done, else the failure's.
pub fn status_of_run(ended: &Result<(), Failure>) -> u8
    ensures value { result ≡ status_of_end ended.now }
    ensures range { result ≤ 3 }
{
    match ended {
        Ok(()) => 0,
        Err(failure) => failure.status(),
    }
}
