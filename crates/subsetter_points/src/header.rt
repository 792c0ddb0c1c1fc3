//! The header of a glyph description (OpenType, "glyf", "Glyph Headers").

/// xMin, two bytes, after numberOfContours, and then yMin, xMax and yMax.
pub const X_MIN: usize = 2;
/// How many bytes it has.
pub const HEADER_SIZE: usize = 10;
/// The numbers of contours from here on, as 16 bits, are below 0: those of composite glyphs.
pub const COMPOSITE: u16 = 0x8000;
