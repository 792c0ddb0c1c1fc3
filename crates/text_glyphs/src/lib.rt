//! The glyphs of a text that isn't shaped, by the table `cmap` (OpenType, "cmap - Character to Glyph Index Mapping Table").
//!
//! The Unicode table of format 12 or 4 is that of the crate `cmap`. Where a font has none, this crate takes others: Unicode
//! tables of the formats 0, 6 and 13, symbol tables, and those of Mac OS Roman. Tables of format 14 have the glyphs of variation
//! sequences.
//!
//! ```text
//! let read = read_text(alloc, &find_source(cmap)?, &['a', '\u{AD}', '\u{10FFFF}'])?;
//! // read.entries: the glyph of 'a' with the places 0 to 2, glyph 0 with 2 to 3; read.missing: 2
//! ```
#![tactic(auto)]

mod characters;
mod choice;
mod encodings;
mod formats;
mod halves;
mod kinds;
mod laws;
mod reading;
mod sequences;
mod source;
mod tables;

pub use characters::glyphs_of;
pub use choice::{CharacterTable, find_table};
pub use encodings::Encoding;
pub use halves::{Records, last_up_to, number_in};
pub use laws::last_is_found;
pub use reading::{Entry, ReadText, is_entry, read_text};
pub use source::{TextSource, find_source};
