//! The entries of a font as glyphs of a sheet.

ghost use Rattle.std.specs.Prelude.{◌≡◌, ◌≤◌, ◌<◌, [], false, None, length, get_or, min, unsigned_abs, IfOk, IfErr};
ghost use Rattle.subsetter_base.specs.declared.error.Error.TheVariants.{OutOfMemory};
ghost use Rattle.pdf_objects.specs.Glyphs.{AreGlyphsOf, advance_of, size_of};
ghost use Rattle.pdf_codes.specs.Shown.{texts_of};
ghost use Rattle.pdf_text.specs.Metrics.Columns.{no_column};

use crate::view::FontView;
use pdf_font::Shown;
use pdf_sheet::{SheetGlyph, width_of};
use pdf_text::{Column, FontValues};
use std::alloc::Global;
use subsetter_base::Error;

/// The advance of a CID in vertical writing.
fn column_advance(columns: &[Column], cid: u16) -> u32
    ensures { result ≡ unsigned_abs (get_or columns.now cid no_column).advance }
{
    let place = cid as usize;
    if place < columns.len() {
        return columns[place].advance.unsigned_abs();
    }
    0
}

/// How far a line goes on with a CID.
fn advance_of(values: FontValues<'_>, cid: u16) -> u32
    ensures { result ≡ advance_of values.entry cid }
{
    match values.columns {
        None => width_of(values.widths, cid),
        Some(columns) => column_advance(columns.each, cid),
    }
}

/// How many entries have all that a sheet needs.
#[tactic(auto, using(crate::proofs::Steps::length_texts))]
fn size_of(view: FontView<'_>, shown: &[Shown<'_>]) -> usize
    ensures { result ≡ size_of view.entry (texts_of shown.now) }
{
    let coded = view.codes.len().min(view.cids.len());
    coded.min(view.is_said.len().min(shown.len()))
}

/// An entry as a glyph of a sheet.
#[tactic(auto, using(crate::proofs::Steps::text_at, crate::proofs::Steps::length_texts))]
fn glyph_at<'a>(view: FontView<'_>, shown: &[Shown<'a>], place: usize) -> SheetGlyph<'a>
    requires { place < size_of view (texts_of shown.now) }
    ensures code { result.code ≡ get_or view.entry.codes.now place 0 }
    ensures is_said { result.is_said ≡ get_or view.entry.is_said.now place false }
    ensures text { result.text.now ≡ get_or (texts_of shown.now) place [] }
    ensures advance { result.advance ≡ advance_of view.entry.values (get_or view.entry.cids.now place 0) }
{
    SheetGlyph {
        code: view.codes[place],
        is_said: view.is_said[place],
        text: shown[place].text,
        advance: advance_of(view.values, view.cids[place]),
    }
}

/// The glyphs of a sheet.
pub fn glyphs_of<'a>(
    alloc: Global,
    view: FontView<'_>,
    shown: &[Shown<'a>],
) -> Result<Vec<SheetGlyph<'a>>, Error>
    ensures ok { IfOk result (λ glyphs. AreGlyphsOf view.entry (texts_of shown.now) glyphs.items) }
    ensures err { IfErr result (λ e. e ≡ OutOfMemory) }
{
    let size = size_of(view, shown);
    let mut glyphs = Vec::with_capacity(alloc, size)?;
    for place in 0..size {
        glyphs.push(glyph_at(view, shown, place))?;
    }
    Ok(glyphs)
}
