//! Glyphs with their texts in cells of a grid, each by the code that it has in a text.

ghost use Rattle.std.specs.Prelude.{◌≡◌, ◌⊎◌, map, IfOk, IfErr};
ghost use Rattle.pdf_codes.specs.Units.{is_left_out};
ghost use Rattle.subset_pdf.specs.Cells.{AreCells, HasNoCells, are_single, is_said, is_said_by};
ghost use Rattle.subsetter_base.specs.declared.error.Error.TheVariants.{OutOfMemory, OverflowError};

use crate::line::Line;
use crate::sheet::map_of;
use pdf_font::Shown;
use pdf_objects::{FontView, Layout, view_with, write_sheet};
use pdf_text_font::TextFont;
use std::alloc::Global;
use subsetter_base::Error;

/// Whether each glyph has one character at most, so that it has one code.
pub fn are_single(shown: &[Shown<'_>]) -> bool
    ensures { result ≡ are_single shown.now }
{
    shown.iter().all(|one| one.text.len() <= 1)
}

/// Whether a character is none that a code may say.
fn is_left_out(character: char) -> bool
    ensures { result ≡ is_left_out character }
{
    character == '\0' || character == '\u{FEFF}' || character == '\u{FFFE}'
}

/// Whether the code of a glyph says its text.
fn is_said_by(glyph: u16, text: &[char]) -> bool
    ensures { result ≡ is_said_by glyph text.now }
{
    match text {
        [character] => glyph != 0 && !is_left_out(*character),
        _ => false,
    }
}

/// Whether the codes of glyphs say their texts.
fn are_said(alloc: Global, shown: &[Shown<'_>]) -> Result<Vec<bool>, Error>
    ensures ok { IfOk result (λ v. v.items ≡ map is_said shown.now) }
    ensures err { IfErr result (λ e. e ≡ OutOfMemory) }
{
    let mut said = Vec::with_capacity(alloc, shown.len())?;
    for one in shown {
        said.push(is_said_by(one.glyph, one.text))?;
    }
    Ok(said)
}

/// The pages of glyphs by the codes of their line.
pub fn cells_of(
    alloc: Global,
    text: &TextFont,
    line: &Line,
    shown: &[Shown<'_>],
) -> Result<Vec<u8>, Error>
    ensures ok { IfOk result (λ file. AreCells text.now line.now shown.now file.items) }
    ensures err { IfErr result (λ e. (e ≡ OutOfMemory) ⊎ ((e ≡ OverflowError) × HasNoCells text.now line.now shown.now)) }
{
    let said = are_said(alloc, shown)?;
    let font = view_with(&text.font, map_of(text));
    let view = FontView {
        values: font.values,
        cids: &line.codes,
        codes: &line.codes,
        is_said: &said,
    };
    write_sheet(alloc, view, shown, Layout::Grid)
}
