//! Why there is no font.

use pdf_values::Permission;
use subsetter_base::Error;

/// Why there is no font.
#[derive(Debug, Drop)]
pub enum FontError {
    /// There is no subset, or not all that a PDF needs of it.
    Subset(Error),
    /// The font's maker doesn't permit it, and the caller holds no rights.
    NotPermitted(Permission),
    /// A text has more than 256 UTF-16 units.
    TextTooLong,
    /// The face has no outlines, but bitmaps or other pictures, or none.
    BitmapsAlone,
}
