//! The widths in the charstrings of a `CFF ` table (Technical Note 5177, section 3.1 "Type 2 Charstring Organization"): the same table with
//! those of `hmtx`.
//!
//! ```text
//! let new = with_widths(alloc, cff, &advances)?;     // none where each glyph has its advance
//! ```
#![tactic(auto)]

mod changing;
mod defaults;
mod laws;
mod opening;
mod tables;

pub use laws::{tables_change_widths, traces_change_widths};
pub use tables::with_widths;
