//! Glyphs by their codes (ISO 32000-1, 9.4.3 and 14.9.4).

ghost use Rattle.std.specs.Prelude.{◌≡◌, ◌++◌, ◌∷◌, [], IfErr, OnOk, codes, get_or};
ghost use Rattle.subsetter_base.specs.declared.error.Error.TheVariants.{OutOfMemory};
ghost use Rattle.pdf_text.specs.Cmaps.Cmap.{hex_string, words};
ghost use Rattle.pdf_sheet.specs.Units.{units_of};
ghost use Rattle.pdf_sheet.specs.Content.{code_text, span_begin, shown_text};

use crate::hex::{write_characters, write_code_string};
use subsetter_base::Error;

/// A glyph of a sheet.
#[derive(Clone, Copy)]
pub struct SheetGlyph<'a> {
    pub code: u16,
    /// Whether its code says its text; else an ActualText does.
    pub is_said: bool,
    pub text: &'a [char],
    /// How far a line goes on with it, in thousandths of the em.
    pub advance: u32,
}

/// The width of a CID, 0 where there is none.
pub fn width_of(widths: &[u32], cid: u16) -> u32
    ensures { result ≡ get_or widths.now cid 0 }
{
    let place = cid as usize;
    if place < widths.len() {
        return widths[place];
    }
    0
}

/// Writes the operator that shows a code.
#[tactic(auto, using(pdf_text::proofs::Pieces::two_written))]
fn write_code(text: &mut Vec<u8>, code: u16) -> Result<(), Error>
    ensures ok { OnOk result (text.new.items ≡ text.old.items ++ code_text code) }
    ensures err { IfErr result (λ e. e ≡ OutOfMemory) }
{
    write_code_string(text, code)?;
    text.extend_from_slice(b" Tj\n")?;
    Ok(())
}

/// Writes the beginning of a span that has a text.
#[tactic(auto, using(pdf_text::proofs::Written::three_written))]
fn write_span(text: &mut Vec<u8>, characters: &[char]) -> Result<(), Error>
    ensures ok { OnOk result (text.new.items ≡ text.old.items ++ span_begin (units_of characters.now)) }
    ensures err { IfErr result (λ e. e ≡ OutOfMemory) }
{
    text.extend_from_slice(b"/Span << /ActualText <FEFF")?;
    write_characters(text, characters)?;
    text.extend_from_slice(b"> >> BDC\n")?;
    Ok(())
}

/// Writes a glyph.
#[tactic(auto, using(pdf_text::proofs::Written::three_written))]
pub fn write_glyph(text: &mut Vec<u8>, glyph: SheetGlyph<'_>) -> Result<(), Error>
    ensures ok { OnOk result (text.new.items ≡ text.old.items ++ shown_text glyph.entry) }
    ensures err { IfErr result (λ e. e ≡ OutOfMemory) }
{
    if glyph.is_said {
        return write_code(text, glyph.code);
    }
    write_span(text, glyph.text)?;
    write_code(text, glyph.code)?;
    text.extend_from_slice(b"EMC\n")?;
    Ok(())
}
