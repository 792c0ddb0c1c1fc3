//! Why a font is refused: the first thing that is wrong with the file, its table directory, a table, or a requested glyph.
//!
//! [`explain`] is the second look after an error, and [`find_prohibition`] after a refusal to embed; what they name is in the font.
//!
//! ```text
//! let asked = Asked { call: Call::Subset, error, index: 0, glyphs: &[60000], coordinates: &[], extras: Extras::ALL, limits };
//! let reason = explain(alloc, font, &asked)?;   // "glyph 60000: the font's glyphs are 0 to 6252"
//! ```
#![tactic(auto)]

mod asked;
mod characters;
mod charstrings;
mod explained;
mod file;
mod names;
mod outlines;
mod parts;
mod permission;
mod reason;
mod short;
mod source;
mod variations;
mod varying;

pub use asked::{Asked, Call};
pub use characters::no_mapping;
pub use explained::explain;
pub use file::{directory_of, face_count, missing_table, no_font};
pub use parts::no_table;
pub use permission::find_prohibition;
pub use reason::Reason;
