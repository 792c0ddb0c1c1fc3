//! What is wrong with a face, or with the tables that a new font is made from.

ghost use Rattle.std.specs.Prelude.{◌≡◌};
ghost use Rattle.subsetter_sfnt.specs.Extras.{all_extras};
ghost use Rattle.font_reasons.specs.Source.{no_font_or_glyph, wrong_source, reason_of_unknown};

use crate::file::no_font;
use crate::outlines::no_loca;
use crate::parts::{no_glyph, no_outlines, wrong_metrics};
use crate::reason::Reason;
use crate::short::short_header;

/// What isn't there: the face, or a requested glyph.
pub fn no_font_or_glyph(font: &[u8], index: u32, glyphs: &[u16]) -> Option<Reason>
    ensures { result ≡ no_font_or_glyph (record { bytes = font.now; index = index; extras = all_extras }) glyphs.now }
{
    no_font(font, index).or(no_glyph(font, index, glyphs))
}

/// What is wrong with the tables that a new font is made from.
#[tactic(auto, unfolding(crate::specs::Source::wrong_source))]
pub fn wrong_source(font: &[u8], index: u32) -> Option<Reason>
    ensures { result ≡ wrong_source (record { bytes = font.now; index = index; extras = all_extras }) }
{
    short_header(font, index).or(no_loca(font, index).or(wrong_metrics(font, index)))
}

/// Why a file is of no known kind.
pub fn reason_of_unknown(font: &[u8], index: u32) -> Option<Reason>
    ensures { result ≡ reason_of_unknown (record { bytes = font.now; index = index; extras = all_extras }) }
{
    no_font(font, index).or(no_outlines(font, index))
}
