//! What is requested of a font besides its outlines and its metrics.

/// What a new font has besides its outlines and its metrics. A document that draws glyphs by their numbers needs none of it.
#[derive(Clone, Copy, PartialEq, Eq, Debug)]
pub struct Extras {
    /// The instructions of outlines in `glyf`, and what they use: `cvt `, `fpgm` and `prep`.
    pub hinting: bool,
    /// The names of the font, `name`.
    pub names: bool,
    /// The names of glyphs, in `post`. Without them `post` has version 3.0.
    pub glyph_names: bool,
}

impl Extras {
    /// All of it, as `subset` keeps it.
    pub const ALL: Extras = Extras {
        hinting: true,
        names: true,
        glyph_names: true,
    };

    /// None of it.
    pub const NONE: Extras = Extras {
        hinting: false,
        names: false,
        glyph_names: false,
    };
}
