//! What is made of the font that is read.

ghost use Rattle.std.specs.Prelude.{◌≡◌, None};
ghost use Rattle.std.specs.Option.{option_copied, option_and_then, option_map};
ghost use Rattle.subset_task.specs.Chosen.{LimitsAreChosen, extras_chosen, form_chosen, at_chosen, instance_chosen};

use subset_args::{PdfChoice, PdfJob, Position, RunLimits, Switches};
use subsetter::{Extras, Limits, Options, Tag};

/// Which glyphs are kept, by one request.
#[derive(Clone, Copy)]
pub enum RequestedGlyphs<'a> {
    /// Those of these old numbers, in the requested order.
    These(&'a [u16]),
    /// Every glyph of the face.
    Every,
    /// Those of the characters of this text.
    ByText(&'a str),
    /// Those of these characters.
    ByCharacters(&'a [char]),
}

/// All glyphs that are kept: those of one request after another.
#[derive(Clone, Copy)]
pub struct Requests<'a> {
    /// The requests.
    pub pieces: &'a [RequestedGlyphs<'a>],
    /// Whether the face may lack none of the characters.
    pub is_strict: bool,
}

/// How the new numbers are printed.
#[derive(Clone, Copy)]
pub enum Form {
    /// By a line for each glyph.
    Lines,
    /// By one JSON object.
    Json,
    /// Not at all.
    Silence,
}

/// What is made of the font that is read.
#[derive(Clone, Copy)]
pub struct Task<'a> {
    /// The glyphs to keep.
    pub requested: Requests<'a>,
    /// The font of a collection, from 0.
    pub index: u32,
    /// How far a charstring may run, and what is kept besides outlines and metrics.
    pub options: Options,
    /// Whether the widths of the glyphs are printed.
    pub widths: bool,
    /// How the new numbers are printed.
    pub form: Form,
    /// The user coordinates on the axes of a variable font, in 65536ths, if they are given.
    pub at: Option<&'a [(Tag, i32)]>,
}

/// What is requested of a run: a task, at the coordinates of a named instance if one is requested.
#[derive(Clone, Copy)]
pub struct Plan<'a> {
    /// The task.
    pub task: Task<'a>,
    /// The name of the named instance whose coordinates are the task's, if one is requested.
    pub instance: Option<&'a str>,
    /// Whether the tables are listed with their sizes.
    pub verbose: bool,
    /// How the PDF is made, if one is requested.
    pub pdf: Option<PdfChoice>,
    /// Whether an option requests the glyphs: then a font with `CFF2` alone is taken at its default.
    pub by_option: bool,
}

/// With a bound on the bytes of the font, if there is one.
fn bounded(limits: Limits, bytes: Option<u32>) -> Limits
    ensures tokens { result.tokens ≡ limits.tokens }
    ensures depth { result.depth ≡ limits.depth }
    ensures bytes { limits.bytes ≡ None → result.bytes ≡ bytes }
{
    match bytes {
        Some(most) => limits.with_bytes(most),
        None => limits,
    }
}

/// The limits that are given, else the default ones.
pub fn limits_of(limits: Option<RunLimits>) -> Limits
    ensures { LimitsAreChosen limits result }
{
    match limits {
        Some(said) => {
            let limits = Limits::new(said.tokens, said.depth).unwrap_or(Limits::default());
            bounded(limits, said.bytes)
        }
        None => Limits::default(),
    }
}

/// What is kept besides outlines and metrics: all that isn't declined, with `--small` none of it.
pub fn extras_of(switches: Switches) -> Extras
    ensures { result ≡ extras_chosen switches }
{
    if switches.small {
        return Extras {
            hinting: false,
            names: false,
            glyph_names: false,
        };
    }
    Extras {
        hinting: !switches.no_hinting,
        names: !switches.no_names,
        glyph_names: !switches.no_glyph_names,
    }
}

/// The user coordinates, if they are given.
pub fn at_of(position: &Option<Position>) -> Option<&[(Tag, i32)]>
    ensures { option_copied result ≡ option_and_then at_chosen position.now }
{
    match position {
        Some(Position::Coordinates(coordinates)) => Some(coordinates.as_slice()),
        Some(Position::Named(_)) => None,
        None => None,
    }
}

/// The name of a named instance, if one is given.
pub fn instance_of(position: &Option<Position>) -> Option<&str>
    ensures { option_copied result ≡ option_and_then instance_chosen position.now }
{
    match position {
        Some(Position::Named(name)) => Some(name.as_str()),
        Some(Position::Coordinates(_)) => None,
        None => None,
    }
}

/// How the PDF is made, if one is requested.
pub fn pdf_of(pdf: &Option<PdfJob>) -> Option<PdfChoice>
    ensures { result ≡ option_map (λ p. p.choice) pdf.now }
{
    match pdf {
        Some(pdf) => Some(pdf.choice),
        None => None,
    }
}

/// How the new numbers are printed: with `--quiet` not at all, with `--json` as JSON.
pub fn form_of(switches: Switches) -> Form
    ensures { result ≡ form_chosen switches }
{
    if switches.quiet {
        return Form::Silence;
    }
    if switches.json {
        Form::Json
    } else {
        Form::Lines
    }
}
