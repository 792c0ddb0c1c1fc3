//! The new font: its program, and what is read of it.

ghost use Rattle.std.specs.Prelude.{◌≡◌};
ghost use Rattle.subsetter_base.specs.Bytes.{number};
ghost use Rattle.subsetter_base.specs.Gives.{Gives};
ghost use Rattle.subsetter_sfnt.specs.Read.{table_in};
ghost use Rattle.pdf_source.specs.Made.{made_in, made_seen, profile_in, profile_seen};
ghost use Rattle.pdf_source.specs.Program.{bare_cff, count_in, flavor_by, flavor_in, kind_of, program_in};

use crate::boxed::boxed_if;
use crate::cff::font_stem;
use crate::choice::{FontOptions, ProgramChoice};
use crate::described::{kept_in, program_box, values_by};
use crate::exact::{ExactWidths, exact_of};
use crate::moved::location_in;
use crate::tops::known_of;
use crate::widened::widened;
use crate::widths::widths_of;
use pdf_text::ProgramKind;
use pdf_values::{GlyphBox, Values};
use std::alloc::Global;
use subsetter_base::read::Reader;
use subsetter_base::{Error, Tag};
use subsetter_sfnt::extras::Extras;
use subsetter_sfnt::face::{Face, OTTO};
use subsetter_sfnt::fields::maxp::num_glyphs;
use subsetter_sfnt::flavor::FontFlavor;
use subsetter_sfnt::parse::parse;

/// What is read of a new font.
#[derive(Drop)]
pub struct Profile {
    /// How many glyphs it has.
    pub count: u16,
    /// The width of each.
    pub widths: Vec<u32>,
    /// The width of each in the font's units.
    pub exact: ExactWidths,
    pub values: Values,
    /// The box that the `head` of the program gets, if it is another.
    pub head_box: Option<GlyphBox>,
}

/// A new font.
#[derive(Drop)]
pub struct NewFont {
    pub kind: ProgramKind,
    pub program: Vec<u8>,
    pub profile: Profile,
}

/// The kind of the outlines of a file that begins with a word.
fn flavor_by(word: u32) -> FontFlavor
    ensures { result ≡ flavor_by word }
{
    if word == OTTO {
        FontFlavor::Cff
    } else {
        FontFlavor::TrueType
    }
}

/// The kind of a new font's outlines.
fn flavor_in(file: &[u8]) -> FontFlavor
    ensures { result ≡ flavor_in file.now }
{
    match Reader::new_at(file, 0).read::<u32>() {
        Some(word) => flavor_by(word),
        None => FontFlavor::TrueType,
    }
}

/// What the program is.
fn kind_of(flavor: FontFlavor, choice: ProgramChoice) -> ProgramKind
    ensures { result ≡ kind_of flavor choice }
{
    match flavor {
        FontFlavor::TrueType => ProgramKind::TrueType,
        FontFlavor::Cff => match choice {
            ProgramChoice::Smallest => ProgramKind::BareCff,
            ProgramChoice::OpenType => ProgramKind::OpenType,
        },
    }
}

/// How many glyphs a new font has: by its `maxp`, which TrueType has to have (ISO 32000-1, 9.9), else as many as were
/// requested. A table that is missing or cut is `MalformedFont`.
fn count_in(new: &Face<'_>, flavor: FontFlavor, requested: u16) -> Result<u16, Error>
    ensures { result ≡ count_in flavor (table_in new.now.«data».now new.now.records.now) requested }
{
    match flavor {
        FontFlavor::Cff => Ok(requested),
        FontFlavor::TrueType => {
            let maxp = new.stored(Tag::MAXP).ok_or(Error::MalformedFont)?;
            num_glyphs(maxp).ok_or(Error::MalformedFont)
        }
    }
}

/// What is read of a new font. What is missing or cut is `MalformedFont`.
#[tactic(auto, unfolding(crate::specs::Made::profile_in))]
fn profile_of(
    alloc: Global,
    face: &Face<'_>,
    file: &[u8],
    settings: &[(Tag, i32)],
    options: &FontOptions,
    requested: u16,
) -> Result<Profile, Error>
    ensures { Gives profile_seen result (profile_in (table_in face.now.«data».now face.now.records.now) settings.now options.now requested file.now) }
{
    let new = parse(file, 0, Extras::ALL)?;
    let count = count_in(&new, flavor_in(file), requested)?;
    let widths = widths_of(alloc, &new, count)?;
    let exact = exact_of(alloc, &new, count)?;
    let location = location_in(alloc, face, settings)?;
    let stem = font_stem(alloc, face, &new)?;
    let kept = kept_in(alloc, face, &new, count)?;
    let known = known_of(alloc, face, &options.limits, stem, kept)?;
    let values = values_by(&location, known, face, options.bounds, settings);
    let head_box = program_box(face, kept, options.bounds);
    Ok(Profile {
        count,
        widths,
        exact,
        values,
        head_box,
    })
}

/// The `CFF ` of a file. What is missing or cut is `MalformedFont`.
#[tactic(auto, unfolding(crate::specs::Program::bare_cff))]
fn bare_cff(alloc: Global, file: &[u8]) -> Result<Vec<u8>, Error>
    ensures { Gives (λ v. v.items) result (bare_cff file.now) }
{
    let face = parse(file, 0, Extras::ALL)?;
    let cff = face.stored(Tag::CFF).ok_or(Error::MalformedFont)?;
    Ok(Vec::from_slice(alloc, cff)?)
}

/// The font program: the file, whose `head` may get a box, or its `CFF `.
fn program_in(
    alloc: Global,
    kind: ProgramKind,
    head_box: Option<GlyphBox>,
    file: Vec<u8>,
) -> Result<Vec<u8>, Error>
    ensures { Gives (λ v. v.items) result (program_in kind head_box file.items) }
{
    match kind {
        ProgramKind::TrueType => Ok(boxed_if(file, head_box)),
        ProgramKind::BareCff => bare_cff(alloc, &file),
        ProgramKind::OpenType => Ok(boxed_if(file, head_box)),
    }
}

/// A new font, from a file for `requested` requested glyphs, with glyph 0. What is missing or cut is `MalformedFont`.
#[tactic(auto, unfolding(crate::specs::Made::made_in))]
pub fn new_font(
    alloc: Global,
    face: &Face<'_>,
    file: Vec<u8>,
    settings: &[(Tag, i32)],
    options: &FontOptions,
    requested: u16,
) -> Result<NewFont, Error>
    ensures { Gives made_seen result (made_in (table_in face.now.«data».now face.now.records.now) settings.now options.now requested file.items) }
{
    let profile = profile_of(alloc, face, &file, settings, options, requested)?;
    let kind = kind_of(flavor_in(&file), options.program);
    let wide = widened(alloc, &profile.exact.widths, file)?;
    let program = program_in(alloc, kind, profile.head_box, wide)?;
    Ok(NewFont {
        kind,
        program,
        profile,
    })
}
