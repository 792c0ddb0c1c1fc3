//! The `CFF ` of a CFF2 table at coordinates (OpenType, "CFF2"; Technical Note 5176): CID-keyed, static, without subroutines.
//!
//! [`making::make_table`] makes it of the bytes of the table: the requested glyphs under their old numbers, each with its advance as its
//! width, and `endchar` for every other glyph. [`laws`] has what the definitions come to.
//!
//! ```text
//! let request = TableRequest { coordinates: &at, glyphs: &advances, units_per_em };
//! let table = make_table(alloc, bytes, &request, limits)?;
//! ```
#![tactic(auto)]

pub mod drawing;
pub mod laws;
pub mod making;
mod numbers;
pub mod opening;
pub mod request;
pub mod texts;
mod units;
