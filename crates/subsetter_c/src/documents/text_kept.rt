//! What a text keeps of its font.

ghost use Rattle.std.specs.Prelude.{◌<◌};

use crate::settings::Coordinate;
use pdf_operators::GlyphMetrics;

/// What a text keeps of its font.
#[derive(Drop)]
pub struct TextKept {
    pub units: u16,
    pub coordinates: Vec<Coordinate>,
    pub metrics: Vec<GlyphMetrics>,
    pub inked: Vec<bool>,
    pub advances: Vec<u16>,
    pub partable: Vec<bool>,
    pub most_parts: u16,
    pub is_still: bool,
    ghost divides: { 0 < units },
}
