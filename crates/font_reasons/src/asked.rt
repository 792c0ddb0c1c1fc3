//! What was asked of a font.

ghost use Rattle.std.specs.Prelude.{◌≡◌};
ghost use Rattle.font_reasons.specs.Calls.{takes_outlines, is_at, keeps, keeps_names, keeps_glyph_names};

use std::marker::Model;
use subsetter_base::{Error, Tag};
use subsetter_sfnt::extras::Extras;
use subsetter_type2::limits::Limits;

/// Which call was refused.
#[derive(Clone, Copy)]
pub enum Call {
    /// A subset.
    Subset,
    /// A subset at coordinates.
    SubsetAt,
    /// A subset with CIDs and widths.
    Embed,
    /// A subset with CIDs and widths at coordinates.
    EmbedAt,
    /// A font for a PDF.
    PdfFont,
    /// The glyphs of characters.
    GlyphsOf,
    /// The advances of glyphs.
    Advances,
}

/// What was asked of a font, and the error that it was refused with.
#[derive(Drop)]
pub struct Asked<'a> {
    /// The call.
    pub call: Call,
    /// Its error.
    pub error: Error,
    /// The face of a collection, from 0.
    pub index: u32,
    /// The glyphs.
    pub glyphs: &'a [u16],
    /// The user coordinates, each a tag and a value in 65536ths. Calls at coordinates alone look at them.
    pub coordinates: &'a [(Tag, i32)],
    /// What is kept besides outlines and metrics, of subsets with and without widths. Hinting says nothing: what reads it has no reason.
    pub extras: Extras,
    /// How far a charstring may run; with a bound on bytes an overflow isn't looked for in a new table.
    pub limits: Limits,
    /// The most bytes of the new font, where they may be why.
    pub most_bytes: Option<u32>,
}

impl<'a> Model for Asked<'a> {
    ghost use Rattle.font_reasons.specs.Calls.{Question};

    ghost Value = { Question };

    ghost view = { λ a. record { call = a.call; error = a.error; index = a.index; glyphs = a.glyphs.now; coordinates = a.coordinates.now; extras = a.extras; tokens = a.limits.tokens; depth = a.limits.depth; bound = a.limits.bytes; bytes = a.most_bytes } };
}

/// Whether a call is one on outlines.
pub fn takes_outlines(call: Call) -> bool
    ensures { result ≡ takes_outlines call }
{
    match call {
        Call::GlyphsOf | Call::Advances => false,
        Call::Subset | Call::SubsetAt | Call::Embed | Call::EmbedAt | Call::PdfFont => true,
    }
}

/// Whether a call is one at coordinates.
pub fn is_at(call: Call) -> bool
    ensures { result ≡ is_at call }
{
    match call {
        Call::Subset | Call::Embed | Call::GlyphsOf => false,
        Call::SubsetAt | Call::EmbedAt | Call::PdfFont | Call::Advances => true,
    }
}

/// Whether a call keeps what is asked for or not.
fn keeps(call: Call, asked: bool) -> bool
    ensures { result ≡ keeps call asked }
{
    match call {
        Call::Subset | Call::SubsetAt | Call::Embed | Call::EmbedAt => asked,
        Call::PdfFont | Call::GlyphsOf | Call::Advances => false,
    }
}

/// Whether a call keeps names.
pub fn keeps_names(call: Call, extras: Extras) -> bool
    ensures { result ≡ keeps_names call extras }
{
    keeps(call, extras.names)
}

/// Whether a call keeps the names of glyphs.
pub fn keeps_glyph_names(call: Call, extras: Extras) -> bool
    ensures { result ≡ keeps_glyph_names call extras }
{
    keeps(call, extras.glyph_names)
}
