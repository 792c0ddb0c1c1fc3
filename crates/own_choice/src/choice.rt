//! What runs with own glyphs need of a font.

ghost use Rattle.std.specs.Prelude.{◌≡◌, ◌<◌, false};

use pdf_figures::Choice;
use pdf_operators::Font;
use text_metrics::TextMetrics;

/// What runs of text, from left to right or from right to left, need of a font that can get own glyphs.
#[derive(Drop)]
pub struct OwnChoice {
    pub(crate) lines: TextMetrics,
    pub(crate) advances: Vec<u16>,
    pub(crate) can_be_part: Vec<bool>,
    pub(crate) most_parts: u16,
    pub(crate) is_still: bool,
}

impl OwnChoice {
    ghost use Rattle.std.specs.Prelude.{◌≡◌, ◌<◌, false};

    /// As [`pdf_operators::show_run`] takes it: that of [`text_metrics::text_metrics`].
    pub fn font(&self) -> Font<'_>
        ensures units { result.units ≡ self.now.lines.units }
        ensures divides { 0 < result.units }
        ensures metrics { result.metrics.now ≡ self.now.lines.metrics.items }
        ensures inked { result.inked.now ≡ self.now.lines.inked.items }
    {
        self.lines.font()
    }

    /// As [`pdf_figures::figured_items`] takes it.
    pub fn choice(&self) -> Choice<'_>
        ensures units { result.units ≡ self.now.lines.units }
        ensures advances { result.advances.now ≡ self.now.advances.items }
        ensures inked { result.inked.now ≡ self.now.lines.inked.items }
        ensures can_be_part { result.can_be_part.now ≡ self.now.can_be_part.items }
        ensures most_parts { result.most_parts ≡ self.now.most_parts }
        ensures is_still { result.is_still ≡ self.now.is_still }
    {
        let font = self.lines.font();
        Choice {
            units: font.units,
            advances: &self.advances,
            inked: font.inked,
            can_be_part: &self.can_be_part,
            most_parts: self.most_parts,
            is_still: self.is_still,
        }
    }
}
