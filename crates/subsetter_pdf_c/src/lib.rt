//! What the C library's calls for PDF have beside the proved call of `pdf_font`: texts as C has them, the struct of a font, and
//! what is written of it.
//!
//! ```text
//! let shown = shown_of(alloc, glyphs, &characters, ends)?;           // from C
//! let objects = write_objects(alloc, &made, &[], 4)?;                // of a font that C holds
//! let parts = parts_of(alloc, &made, &[], &[4, 9, 6, 7, 8])?;        // the same as data, with these numbers
//! ```
#![tactic(auto)]

mod entries;
mod kept;
mod made;
mod parts;
mod texts;
mod view;
mod written;

pub use entries::{are_scalars, are_texts, characters_of, shown_of};
pub use kept::kept_bytes;
pub use made::{PdfMade, PdfNumbers};
pub use parts::{PdfPart, part_count, parts_of};
pub use pdf_text::{PartsError, StringRange};
pub use texts::{characters_in, ends_of};
pub use view::view_of;
pub use written::{lines_of, sheet_of, write_objects};
