//! What single arguments request: glyphs, coordinates, a PDF.

ghost use Rattle.std.specs.Prelude.{◌≡◌, ◌⊎◌, [], ◌∷◌, ◌++◌, map, IfOk, IfErr, OnOk, Some, None, string_bytes};
ghost use Rattle.std.specs.Option.{option_copied, option_map};
ghost use Rattle.subset_args.specs.Request.{glyph_list, of_list, requested, requested_by, each_requested, is_stream, file_option, stream_kind, wrong_stream, position_option, pdf_choice, pdf_of, is_name, position_in};
ghost use Rattle.subset_args.specs.Listing.ListView.{list_view};
ghost use Rattle.subset_args.specs.Mistakes.{fault_view, Gives};
ghost use Rattle.subset_args.specs.Options.{in_codes, in_list};
ghost use Rattle.subset_args.specs.Words.{number_in_bits};
ghost use Rattle.subset_args.specs.View.{source_view, chosen_view, requested_view, position_view, pdf_view};
ghost use Rattle.subset_args.specs.declared.jobs.command.ArgsError.TheVariants.{Usage, OutOfMemory};

use crate::coordinates::read_coordinates;
use crate::jobs::command::{ArgsError, Glyphs, PdfJob, Position};
use crate::listing::characters::read_characters;
use crate::listing::lists::{FileKind, GlyphList, read_argument};
use crate::listing::wrong::{Listing, wrong_list};
use crate::mistakes::{Mistake, Unread, Wrong, mistake_in};
use crate::options::chosen::{Chosen, PdfChoice};
use crate::options::names::Source;
use crate::words::{parts_of, u16_of};
use std::alloc::{AllocError, Global};

/// Adds a glyph.
fn add(glyphs: &mut Vec<u16>, glyph: u16) -> Result<(), AllocError>
    ensures { OnOk result (glyphs.new.items ≡ glyphs.old.items ++ glyph ∷ []) }
{
    glyphs.push(glyph)?;
    Ok(())
}

/// Adds the glyph that a part says.
fn push_glyph(glyphs: &mut Vec<u16>, part: &str) -> Result<(), ArgsError>
    ensures ok { OnOk result (option_map (λ glyph. glyphs.old.items ++ glyph ∷ []) (number_in_bits 16 part.now) ≡ Some glyphs.new.items) }
    ensures err { IfErr result (λ e. (e ≡ OutOfMemory) ⊎ ((e ≡ Usage) × (number_in_bits 16 part.now ≡ None))) }
{
    let glyph = u16_of(part).ok_or(ArgsError::Usage)?;
    add(glyphs, glyph)?;
    Ok(())
}

/// The glyphs of a list with a comma between each two.
fn glyphs_of(alloc: Global, list: &str) -> Result<Vec<u16>, ArgsError>
    ensures ok { IfOk result (λ v. glyph_list list.now ≡ Some v.items) }
    ensures err { IfErr result (λ e. (e ≡ OutOfMemory) ⊎ ((e ≡ Usage) × (glyph_list list.now ≡ None))) }
{
    let parts = parts_of(alloc, list)?;
    let mut glyphs = Vec::new(alloc);
    for part in &parts {
        push_glyph(&mut glyphs, part)?;
    }
    Ok(glyphs)
}

/// The glyphs that a list requests.
fn of_list(list: GlyphList) -> Glyphs
    ensures { requested_view result ≡ of_list (list_view list) }
{
    match list {
        GlyphList::Every => Glyphs::Every,
        GlyphList::These(glyphs) => Glyphs::Listed(glyphs),
        GlyphList::Characters(characters) => Glyphs::Characters(characters),
        GlyphList::Text(text) => Glyphs::ByText(text),
    }
}

/// The glyphs of the characters that an argument lists.
fn characters_listed<'a>(alloc: Global, text: &'a str) -> Result<Glyphs, Unread<'a>>
    ensures { Gives requested_view result (requested_by (in_codes text.now)) }
{
    match read_characters(alloc, text) {
        Ok(list) => Ok(of_list(list)),
        Err(ArgsError::OutOfMemory) => Err(Unread::OutOfMemory),
        Err(ArgsError::Usage) => Err(Unread::Mistake(wrong_list(alloc, Listing::Codes, text)?)),
    }
}

/// The glyphs that an argument lists.
fn glyphs_listed<'a>(alloc: Global, text: &'a str) -> Result<Glyphs, Unread<'a>>
    ensures { Gives requested_view result (requested_by (in_list text.now)) }
{
    match read_argument(alloc, text) {
        Ok(list) => Ok(of_list(list)),
        Err(ArgsError::OutOfMemory) => Err(Unread::OutOfMemory),
        Err(ArgsError::Usage) => Err(Unread::Mistake(wrong_list(alloc, Listing::Glyphs, text)?)),
    }
}

/// The glyphs that an option requests.
fn by_source<'a>(alloc: Global, source: Source<'a>) -> Result<Glyphs, Unread<'a>>
    ensures { Gives requested_view result (requested_by (source_view source.entry)) }
{
    match source {
        Source::File(kind, name) => Ok(Glyphs::InFile(kind, String::from_str(alloc, name)?)),
        Source::Text(text) => Ok(Glyphs::ByText(String::from_str(alloc, text)?)),
        Source::InList(text) => glyphs_listed(alloc, text),
        Source::Characters(text) => characters_listed(alloc, text),
    }
}

/// Adds what is requested by one more.
fn push_glyphs(glyphs: &mut Vec<Glyphs>, more: Glyphs) -> Result<(), AllocError>
    ensures { OnOk result (glyphs.new.items ≡ glyphs.old.items ++ more ∷ []) }
{
    glyphs.push(more)?;
    Ok(())
}

/// What is requested by one alone.
fn alone(alloc: Global, one: Glyphs) -> Result<Vec<Glyphs>, AllocError>
    ensures { IfOk result (λ v. v.items ≡ one ∷ []) }
{
    let mut glyphs = Vec::new(alloc);
    push_glyphs(&mut glyphs, one)?;
    Ok(glyphs)
}

/// The glyphs of a list that is an argument of its own.
fn numbers_listed<'a>(alloc: Global, list: &'a str) -> Result<Vec<Glyphs>, Unread<'a>>
    ensures { Gives (λ v. map requested_view v.items) result (requested (Some list.now) []) }
{
    match glyphs_of(alloc, list) {
        Ok(glyphs) => Ok(alone(alloc, Glyphs::Listed(glyphs))?),
        Err(ArgsError::OutOfMemory) => Err(Unread::OutOfMemory),
        Err(ArgsError::Usage) => Err(Unread::Mistake(wrong_list(alloc, Listing::Numbers, list)?)),
    }
}

/// Those that options request, one after another.
fn each_requested<'a>(alloc: Global, sources: &[Source<'a>]) -> Result<Vec<Glyphs>, Unread<'a>>
    ensures { Gives (λ v. map requested_view v.items) result (each_requested (map source_view sources.now)) }
{
    let mut glyphs = Vec::new(alloc);
    let mut rest = sources;
    while let [source, following @ ..] = rest {
        let more = by_source(alloc, *source)?;
        push_glyphs(&mut glyphs, more)?;
        rest = following;
    }
    Ok(glyphs)
}

/// Which glyphs are requested: those that an argument lists, or those of options.
pub fn read_glyphs<'a>(
    alloc: Global,
    listed: Option<&'a str>,
    sources: &[Source<'a>],
) -> Result<Vec<Glyphs>, Unread<'a>>
    ensures { Gives (λ v. map requested_view v.items) result (requested (option_copied listed.entry) (map source_view sources.now)) }
{
    match (listed, sources) {
        (Some(list), _) => numbers_listed(alloc, list),
        (None, []) => Err(Unread::Mistake(mistake_in(Wrong::NoGlyphs, ""))),
        (None, [_, ..]) => each_requested(alloc, sources),
    }
}

/// Whether an argument means standard input or output.
pub fn is_stream(word: &str) -> bool
    ensures { result ≡ is_stream word.now }
{
    word == "-"
}

/// The option for a file of glyphs.
fn file_option(kind: FileKind) -> &'static str
    ensures { result.now ≡ file_option kind }
{
    match kind {
        FileKind::Glyphs => "--gids-file",
        FileKind::Characters => "--unicodes-file",
        FileKind::Text => "--text-file",
    }
}

/// What standard input has, if it is a file of glyphs.
fn stream_kind(source: Source<'_>) -> Option<FileKind>
    ensures { result ≡ stream_kind (source_view source.entry) }
{
    match source {
        Source::File(kind, name) if is_stream(name) => Some(kind),
        Source::File(_, _) => None,
        Source::Text(_) => None,
        Source::InList(_) => None,
        Source::Characters(_) => None,
    }
}

/// The first file of glyphs that is standard input, where that is taken before it.
pub fn wrong_stream<'a>(is_taken: bool, sources: &[Source<'_>]) -> Option<Mistake<'a>>
    ensures { option_map fault_view result ≡ wrong_stream is_taken (map source_view sources.now) }
{
    let mut is_taken = is_taken;
    let mut rest = sources;
    while let [source, following @ ..] = rest {
        if let Some(kind) = stream_kind(*source) {
            if is_taken {
                return Some(mistake_in(Wrong::InputTwice, file_option(kind)));
            }
            is_taken = true;
        }
        rest = following;
    }
    None
}

/// Whether a text is the name of a named instance, and not coordinates: it has no equals sign, and isn't empty.
fn is_name(text: &str) -> bool
    ensures { result ≡ is_name text.now }
{
    text.len() > 0 && text.split_once('=').is_none()
}

/// Where on its axes a variable font is requested by a text.
fn position_of(alloc: Global, text: &str) -> Result<Position, ArgsError>
    ensures ok { IfOk result (λ p. position_in text.now ≡ Some (position_view p)) }
    ensures err { IfErr result (λ e. (e ≡ OutOfMemory) ⊎ ((e ≡ Usage) × (position_in text.now ≡ None))) }
{
    if is_name(text) {
        return Ok(Position::Named(String::from_str(alloc, text)?));
    }
    Ok(Position::Coordinates(read_coordinates(alloc, text)?))
}

/// Where on its axes a variable font is requested, if that is specified.
pub fn read_at<'a>(alloc: Global, at: Option<&'a str>) -> Result<Option<Position>, Unread<'a>>
    ensures { Gives (λ v. option_map position_view v) result (position_option (option_copied at.entry)) }
{
    let Some(text) = at else {
        return Ok(None);
    };
    match position_of(alloc, text) {
        Ok(position) => Ok(Some(position)),
        Err(ArgsError::OutOfMemory) => Err(Unread::OutOfMemory),
        Err(ArgsError::Usage) => Err(Unread::Mistake(wrong_list(
            alloc,
            Listing::Coordinates,
            text,
        )?)),
    }
}

/// How a PDF is made.
fn pdf_choice(chosen: &Chosen<'_>) -> PdfChoice
    ensures { result ≡ pdf_choice (chosen_view chosen.now) }
{
    PdfChoice {
        vertical: chosen.switches.vertical,
        coding: chosen.coding,
        is_held: chosen.is_held,
        allow_blank: chosen.switches.allow_blank,
    }
}

/// The PDF that is requested, if one is.
pub fn read_pdf(alloc: Global, chosen: &Chosen<'_>) -> Result<Option<PdfJob>, AllocError>
    ensures { IfOk result (λ pdf. option_map pdf_view pdf ≡ pdf_of (chosen_view chosen.now)) }
{
    match chosen.pdf {
        Some(file) => Ok(Some(PdfJob {
            file: String::from_str(alloc, file)?,
            choice: pdf_choice(chosen),
        })),
        None => Ok(None),
    }
}

/// The name of a file, if it is given.
pub fn owned(alloc: Global, name: Option<&str>) -> Result<Option<String>, AllocError>
    ensures { IfOk result (λ o. option_map (λ name. string_bytes name) o ≡ option_copied name.entry) }
{
    match name {
        Some(name) => Ok(Some(String::from_str(alloc, name)?)),
        None => Ok(None),
    }
}
