//! What is drawn for the glyphs of a run.

/// A glyph of the font, and where it is from the origin of an own glyph, in units of the font.
#[derive(Clone, Copy, PartialEq, Eq, Hash, Debug)]
pub struct Placed {
    pub glyph: u16,
    pub x: i16,
    pub y: i16,
}

/// An own glyph: its parts, drawn in order, or none (a blank), and its advance in units of the font.
#[derive(Drop)]
pub struct OwnInk {
    pub parts: Vec<Placed>,
    pub advance: u16,
}

/// What is drawn.
#[derive(Drop)]
pub enum FigureInk {
    /// A glyph of the font.
    Glyph(u16),
    Own(OwnInk),
}

/// What is drawn for a glyph or a cluster in a run, or for a part of it.
#[derive(Drop)]
pub struct Figure<'a> {
    pub ink: FigureInk,
    /// The text of the cluster that begins here.
    pub text: Option<&'a [char]>,
    pub x_advance: i32,
    pub y_advance: i32,
    pub x_offset: i32,
    pub y_offset: i32,
}
