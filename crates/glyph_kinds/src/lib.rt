//! Which pictures a font has of its glyphs: paints and layers of `COLR`, documents of `SVG `, images of `CBDT` and `EBDT`,
//! graphics of `sbix`, outlines.
//!
//! ```text
//! let kinds = kinds_of(alloc, data, 0, &[36])?;
//! let is_blank = kinds[0] == 1 << 16;          // an empty outline, and no other picture
//! ```
#![tactic(auto)]

mod bitmaps;
mod call;
mod colour;
mod counts;
mod graphics;
mod outlines;
mod strikes;

pub use call::{is_unseen, kinds_of, unseen_glyphs};
pub use counts::kind_counts;
pub use outlines::{FaceOutlines, has_outline, outlines_in};
