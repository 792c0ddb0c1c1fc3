//! Runs of shaped glyphs as the text of a page: what is drawn by each code, and what each code says.
//!
//! A shaper gives glyphs in visual order, in clusters that each show one text. Their characters are shared among the
//! glyphs, so that readers that don't know ActualText find them too (ISO 32000-1, 9.10).
//!
//! ```text
//! let items = [Item { glyph: 36, text: Some(&['f', 'f', 'i']), x_advance: 900, .. }];
//! let pieces = pieces_of_run(alloc, Direction::LeftToRight, &inked, &items)?;   // glyph 36 says f, blanks f and i
//! ```
#![tactic(auto)]

mod clusters;
mod codes;
mod error;
mod items;
mod laws;
mod marks;
mod pieces;
mod shaped;
mod shares;
mod tables;
mod words;

pub use clusters::clusters_of_run;
pub use codes::{Pair, code_in, codes_of, no_pairs, pair_of};
pub use error::RunError;
pub use items::{Direction, Item, is_run};
pub use laws::{
    clusters_are_the_run, clusters_begin_once, glyphs_are_drawn, pen_goes_on, text_is_said,
};
pub use marks::is_mark;
pub use pieces::{Figure, Piece, pieces_of_clusters, pieces_of_run, text_of};
pub use shaped::{Shaped, Unit, items_of};
pub use words::words_of_run;
