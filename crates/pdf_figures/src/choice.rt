//! Which own glyphs a font can get.

/// What is known of a font, and which own glyphs it can get.
#[derive(Clone, Copy)]
pub struct Choice<'a> {
    /// Units per em.
    pub units: u16,
    /// The advance of each glyph, in units of the font.
    pub advances: &'a [u16],
    /// Whether a glyph has ink.
    pub inked: &'a [bool],
    /// Whether a glyph may be a part: its picture is an outline alone, in a box within 16,384 units of its origin.
    pub can_be_part: &'a [bool],
    /// How many parts an own glyph may have; 0: there are none.
    pub most_parts: u16,
    /// Whether a part stays at the origin.
    pub is_still: bool,
}
