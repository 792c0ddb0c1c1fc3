//! The boxes of glyphs, by their charstrings (Technical Note 5176, section 14).

ghost use Rattle.std.specs.Prelude.{◌≡◌, Ok, IfErr};
ghost use Rattle.std.specs.Prelude.{option_map};
ghost use Rattle.subsetter_base.specs.Gives.{Gives};
ghost use Rattle.subsetter_base.specs.declared.error.Error.TheVariants.{OutOfMemory};
ghost use Rattle.subsetter_cffdata.specs.Indexes.IndexView.{items};
ghost use Rattle.pdf_boxes.specs.Kept.{box_in, boxes_from, glyph_box, kept_box};

use pdf_cff::unless_memory;
use pdf_glyphs::joined;
use pdf_values::GlyphBox;
use std::alloc::Global;
use subsetter_base::Error;
use subsetter_boxes::charstring_box;
use subsetter_cff::read::source::Table;
use subsetter_cffdata::indexes::index::Index;
use subsetter_points::Bounds;

/// A box as a PDF takes it.
fn box_in(bounds: Option<Bounds>) -> Option<GlyphBox>
    ensures { result ≡ option_map box_in bounds }
{
    let bounds = bounds?;
    Some(GlyphBox {
        x_min: bounds.x_min,
        y_min: bounds.y_min,
        x_max: bounds.x_max,
        y_max: bounds.y_max,
    })
}

/// The box of a glyph.
fn glyph_box(char_strings: &Index<'_>, glyph: u16) -> Result<Option<GlyphBox>, Error>
    ensures value { Gives (λ b. b) result (Ok (glyph_box (items char_strings.now) glyph)) }
    ensures err { IfErr result (λ e. e ≡ OutOfMemory) }
{
    match char_strings.get(u32::from(glyph)) {
        None => Ok(None),
        Some(charstring) => Ok(box_in(charstring_box(charstring)?)),
    }
}

/// The least box around those of the first `count` glyphs.
#[tactic(auto, using(crate::proofs::Glyphs::kept_begun, crate::proofs::Glyphs::kept_more, crate::proofs::Glyphs::kept_done))]
fn box_around(char_strings: &Index<'_>, count: u16) -> Result<Option<GlyphBox>, Error>
    ensures value { Gives (λ b. b) result (Ok (boxes_from (items char_strings.now) 0 count)) }
    ensures err { IfErr result (λ e. e ≡ OutOfMemory) }
{
    let mut kept = None;
    let mut left = count;
    while left > 0 {
        left -= 1;
        kept = joined(glyph_box(char_strings, left)?, kept);
    }
    Ok(kept)
}

/// The least box around the first `count` glyphs of a `CFF ` table; none for a table that can't be opened.
///
/// Each charstring has a width in front and endchar at its end, and calls no subroutines: one that was made of `CFF2` is so.
///
/// # Errors
///
/// `OutOfMemory` alone.
pub fn kept_box(alloc: Global, bytes: &[u8], count: u16) -> Result<Option<GlyphBox>, Error>
    ensures value { Gives (λ b. b) result (Ok (kept_box bytes.now count)) }
    ensures err { IfErr result (λ e. e ≡ OutOfMemory) }
{
    match Table::parse(alloc, bytes) {
        Ok(table) => box_around(&table.char_strings, count),
        Err(error) => {
            unless_memory(error)?;
            Ok(None)
        }
    }
}
