//! Lists that stay until the caller gives them back. An empty one takes no memory.

ghost use Rattle.std.specs.Prelude.{◌≡◌};

use crate::settings::Coordinate;
use pdf_operators::GlyphMetrics;
use pdf_text::Column;
use subsetter_pdf_c::PdfPart;
pub use subsetter_pdf_c::kept_bytes;
use subsetter_text_c::{TextOwn, TextPair, TextPart};

/// Numbers of 16 bits.
pub fn kept_shorts(numbers: Vec<u16>) -> &'static [u16]
    ensures { result.now ≡ numbers.items }
{
    if numbers.is_empty() {
        return &[];
    }
    numbers.leak()
}

/// Numbers of 32 bits.
pub fn kept_words(numbers: Vec<u32>) -> &'static [u32]
    ensures { result.now ≡ numbers.items }
{
    if numbers.is_empty() {
        return &[];
    }
    numbers.leak()
}

/// Sizes.
pub fn kept_sizes(sizes: Vec<usize>) -> &'static [usize]
    ensures { result.now ≡ sizes.items }
{
    if sizes.is_empty() {
        return &[];
    }
    sizes.leak()
}

/// Flags.
pub fn kept_flags(flags: Vec<bool>) -> &'static [bool]
    ensures { result.now ≡ flags.items }
{
    if flags.is_empty() {
        return &[];
    }
    flags.leak()
}

/// Columns.
pub fn kept_columns(columns: Vec<Column>) -> &'static [Column]
    ensures { result.now ≡ columns.items }
{
    if columns.is_empty() {
        return &[];
    }
    columns.leak()
}

/// Parts.
pub fn kept_parts(parts: Vec<PdfPart>) -> &'static [PdfPart]
    ensures { result.now ≡ parts.items }
{
    if parts.is_empty() {
        return &[];
    }
    parts.leak()
}

/// Coordinates.
pub fn kept_coordinates(coordinates: Vec<Coordinate>) -> &'static [Coordinate]
    ensures { result.now ≡ coordinates.items }
{
    if coordinates.is_empty() {
        return &[];
    }
    coordinates.leak()
}

/// Metrics of glyphs.
pub fn kept_metrics(metrics: Vec<GlyphMetrics>) -> &'static [GlyphMetrics]
    ensures { result.now ≡ metrics.items }
{
    if metrics.is_empty() {
        return &[];
    }
    metrics.leak()
}

/// What codes draw and say.
pub fn kept_pairs(pairs: Vec<TextPair>) -> &'static [TextPair]
    ensures { result.now ≡ pairs.items }
{
    if pairs.is_empty() {
        return &[];
    }
    pairs.leak()
}

/// Own glyphs.
pub fn kept_own(own: Vec<TextOwn>) -> &'static [TextOwn]
    ensures { result.now ≡ own.items }
{
    if own.is_empty() {
        return &[];
    }
    own.leak()
}

/// Parts of own glyphs.
pub fn kept_places(parts: Vec<TextPart>) -> &'static [TextPart]
    ensures { result.now ≡ parts.items }
{
    if parts.is_empty() {
        return &[];
    }
    parts.leak()
}
