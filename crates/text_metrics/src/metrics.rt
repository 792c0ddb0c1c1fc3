//! What runs of text need of a font.

ghost use Rattle.std.specs.Prelude.{◌≡◌, ◌<◌};

use pdf_operators::{Font, GlyphMetrics};

/// What runs of text, from left to right or from right to left, need of a font.
#[derive(Drop)]
pub struct TextMetrics {
    pub(crate) units: u16,
    pub(crate) metrics: Vec<GlyphMetrics>,
    pub(crate) inked: Vec<bool>,
    ghost divides: { 0 < units },
}

impl TextMetrics {
    ghost use Rattle.std.specs.Prelude.{◌≡◌, ◌<◌};

    /// As [`pdf_operators::show_run`] takes it.
    pub fn font(&self) -> Font<'_>
        ensures units { result.units ≡ self.now.units }
        ensures divides { 0 < result.units }
        ensures metrics { result.metrics.now ≡ self.now.metrics.items }
        ensures inked { result.inked.now ≡ self.now.inked.items }
    {
        Font {
            units: self.units,
            metrics: &self.metrics,
            inked: &self.inked,
        }
    }
}
