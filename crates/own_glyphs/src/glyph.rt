//! Glyphs of the caller's own.

/// A glyph of the font, moved by `x` and `y` font design units.
#[derive(Clone, Copy)]
pub struct Part {
    pub glyph: u16,
    pub x: i16,
    pub y: i16,
}

/// A glyph that a font gets: its parts, drawn in order, or none (a blank), and its advance in font design units.
#[derive(Clone, Copy)]
pub struct OwnGlyph<'a> {
    pub parts: &'a [Part],
    pub advance: u16,
}
