//! What is requested of a CFF2 table.

/// What is requested.
#[derive(Clone, Copy, Debug)]
pub struct TableRequest<'a> {
    /// The normalized coordinates in parts of 2^14, one for each axis.
    pub coordinates: &'a [i32],
    /// For each glyph of the font: its advance at the coordinates, where it is requested.
    pub glyphs: &'a [Option<u16>],
    /// unitsPerEm of `head`, or 0 where it isn't known.
    pub units_per_em: u16,
}
