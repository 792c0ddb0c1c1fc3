//! Pictures in the formats of other standards, by `sbix`.

ghost use Rattle.std.specs.Prelude.{◌≡◌, ◌≤◌, ◌<◌};
ghost use Rattle.std.specs.Option.{option_copied};
ghost use Rattle.glyph_kinds.specs.Graphics.{graphic_type, has_graphic, has_type, is_known, is_type};
ghost use Rattle.glyph_kinds.specs.Strikes.{any_from};

use crate::strikes::{NUM_STRIKES, most};
use subsetter_base::read::{between_offsets, from_offset};
use text_glyphs::number_in;

/// strikeOffsets, four bytes each.
const STRIKE_OFFSETS: usize = 8;
/// glyphDataOffsets of a strike, four bytes each.
const GLYPH_DATA_OFFSETS: usize = 4;
/// graphicType of a glyph's data, after originOffsetX and originOffsetY.
const GRAPHIC_TYPE: usize = 4;

/// `png `.
pub(crate) const PNG: u32 = 0x706E6720;
/// `jpg `.
pub(crate) const JPG: u32 = 0x6A706720;
/// `tiff`.
pub(crate) const TIFF: u32 = 0x74696666;
/// `pdf `.
pub(crate) const PDF: u32 = 0x70646620;
/// `mask`.
pub(crate) const MASK: u32 = 0x6D61736B;
/// `dupe`: the picture of another glyph, whose number follows.
pub(crate) const DUPE: u32 = 0x64757065;

/// The type of a glyph's graphic in a strike of `glyphs` glyphs.
#[tactic(auto, unfolding(crate::specs::Graphics::graphic_type))]
fn graphic_type(sbix: &[u8], glyphs: u16, strike: u32, glyph: u16) -> Option<u32>
    requires { strike < 1024 }
    ensures { result ≡ graphic_type sbix.now glyphs strike glyph }
{
    let offset = number_in(sbix, STRIKE_OFFSETS + 4 * (strike as usize), 4)?;
    let strike = from_offset(sbix, offset as usize)?;
    let at = GLYPH_DATA_OFFSETS + 4 * usize::from(glyph);
    let from = number_in(strike, at, 4)?;
    let to = number_in(strike, at + 4, 4)?;
    let data = between_offsets(strike, from as usize, to as usize)?;
    if glyph < glyphs {
        return number_in(data, GRAPHIC_TYPE, 4);
    }
    None
}

/// Whether a type has a kind of its own.
fn is_known(graphic: u32) -> bool
    ensures { result ≡ is_known graphic }
{
    graphic == PNG
        || (graphic == JPG
            || (graphic == TIFF || (graphic == PDF || (graphic == MASK || graphic == DUPE))))
}

/// Whether a type is the wanted one; where none is, it is one without a kind of its own.
fn is_type(wanted: Option<u32>, graphic: u32) -> bool
    ensures { result ≡ is_type wanted graphic }
{
    match wanted {
        Some(wanted) => graphic == wanted,
        None => !is_known(graphic),
    }
}

/// Whether there is such a type.
fn has_type(wanted: Option<u32>, graphic: Option<u32>) -> bool
    ensures { result ≡ has_type wanted graphic }
{
    match graphic {
        Some(graphic) => is_type(wanted, graphic),
        None => false,
    }
}

/// Whether a glyph, of `glyphs` glyphs, has a graphic of such a type in one of the first `count` strikes.
#[tactic(auto, using(crate::proofs::StrikeSteps::any_here, crate::proofs::StrikeSteps::any_on, crate::proofs::StrikeSteps::any_end))]
fn graphic_in_strikes(sbix: &[u8], count: u32, glyphs: u16, wanted: Option<u32>, glyph: u16) -> bool
    requires { count ≤ 1024 }
    ensures { result ≡ any_from (λ k. has_type wanted (graphic_type sbix.now glyphs k glyph)) count 0 }
{
    for strike in 0..count {
        if has_type(wanted, graphic_type(sbix, glyphs, strike, glyph)) {
            return true;
        }
    }
    false
}

/// Whether a glyph, of `glyphs` glyphs, has a graphic of a type; where none is wanted, of one without a kind of its own.
pub(crate) fn has_graphic(
    table: Option<&[u8]>,
    glyphs: u16,
    wanted: Option<u32>,
    glyph: u16,
) -> bool
    ensures { result ≡ has_graphic (option_copied table.entry) glyphs wanted glyph }
{
    let Some(bytes) = table else {
        return false;
    };
    match number_in(bytes, NUM_STRIKES, 4) {
        Some(count) => graphic_in_strikes(bytes, most(count), glyphs, wanted, glyph),
        None => false,
    }
}
