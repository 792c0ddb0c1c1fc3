//! What arguments can request.

ghost use Rattle.std.specs.Prelude.{◌≡◌};
ghost use Rattle.subset_args.specs.declared.jobs.command.ArgsError.TheVariants.{OutOfMemory};

use crate::limits::RunLimits;
use crate::listing::lists::FileKind;
use crate::options::chosen::{PdfChoice, Switches};
use std::alloc::AllocError;
use subsetter_base::Tag;

/// Why a list isn't read.
#[derive(Clone, Copy)]
pub enum ArgsError {
    /// It isn't as the usage says.
    Usage,
    /// A request for memory was refused.
    OutOfMemory,
}

impl From<AllocError> for ArgsError {
    ghost use Rattle.std.specs.Prelude.{◌≡◌};
    ghost use Rattle.subset_args.specs.declared.jobs.command.ArgsError.TheVariants.{OutOfMemory};

    ghost from_gives = { λ _ e. e ≡ OutOfMemory };

    fn from(_error: AllocError) -> ArgsError {
        ArgsError::OutOfMemory
    }
}

/// Which glyphs are to be kept.
#[derive(Drop)]
pub enum Glyphs {
    /// Those of these old numbers, in the requested order.
    Listed(Vec<u16>),
    /// Those of these characters, in this order.
    Characters(Vec<char>),
    /// Those that the file of this name requests, by what it has.
    InFile(FileKind, String),
    /// Those of the characters of this text.
    ByText(String),
    /// Every glyph of the face.
    Every,
}

/// A PDF that is requested.
#[derive(Drop)]
pub struct PdfJob {
    /// The name of its file.
    pub file: String,
    /// How it is made.
    pub choice: PdfChoice,
}

/// The making of a subset.
#[derive(Drop)]
pub struct Job {
    /// The name of the source font's file.
    pub input: String,
    /// The name of the file that the subset goes to. Where there is none, a PDF is requested.
    pub output: Option<String>,
    /// The font of a collection, from 0.
    pub index: u32,
    /// The most bytes of the source font's file, if that is given.
    pub most_input: Option<u32>,
    /// The glyphs to keep, one after another.
    pub glyphs: Vec<Glyphs>,
    /// How far the charstring of a glyph may run, if that is given.
    pub limits: Option<RunLimits>,
    /// The options without a value that were given.
    pub switches: Switches,
    /// Where on the axes of a variable font, if that is specified.
    pub position: Option<Position>,
    /// The PDF that is requested, if one is.
    pub pdf: Option<PdfJob>,
    /// Whether an option requests the glyphs, in place of GID.
    pub by_option: bool,
}

/// Where on its axes a variable font is requested.
#[derive(Drop)]
pub enum Position {
    /// At these user coordinates, in 65536ths.
    Coordinates(Vec<(Tag, i32)>),
    /// At the named instance of this name.
    Named(String),
}

/// What can be shown of a face.
#[derive(Clone, Copy)]
pub enum Topic {
    /// Its axes and named instances.
    Axes,
    /// Its outlines, its tables and what is permitted.
    Info,
}

/// What a run of the program is to do.
#[derive(Drop)]
pub enum Command {
    /// To print the help.
    Help,
    /// To print the version.
    Version,
    /// To make a subset.
    Subset(Job),
    /// To do what the lines of the file of this name request.
    Batch(String),
    /// To show something of a face, as JSON or not: the name of its file, and its index in a collection, from 0.
    Show(Topic, bool, String, u32),
}
