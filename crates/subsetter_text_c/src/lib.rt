//! What the C library's calls for runs of text have beside the proved call of `pdf_own_runs`: pairs, own glyphs, items and texts as
//! C has them.
//!
//! ```text
//! let shown = show_items(alloc, font, &choice, kept, items, characters, direction, order, 12_000)?;
//! let kept = Kept { pairs: &shown.pairs, own: &shown.own, parts: &shown.parts };
//! let shown = show_shaped(alloc, font, &choice, kept, glyphs, units, direction, order, 12_000)?;
//! let pairs = pairs_of(alloc, &shown.pairs)?;                        // as `text_font` takes them
//! let own = own_of(alloc, &shown.own, &shown.parts)?;                // and these
//! ```
#![tactic(auto)]

mod items;
mod own;
mod pairs;
mod shown;
mod units;

pub use items::TextItem;
pub use own::{TextOwn, TextPart, own_of};
pub use pairs::{TextPair, pairs_of};
pub use pdf_runs::{RunError, Shaped};
pub use shown::{Kept, ShownRun, show_items, show_shaped};
pub use units::Units;
