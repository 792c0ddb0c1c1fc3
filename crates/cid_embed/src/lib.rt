//! What a PDF writer needs of a font: its subset, the CIDs of the requested glyphs, and the width of each CID.
//!
//! [`embed`] makes all three; `write_widths` writes the widths as a PDF has them; [`shrink`] makes a subset of what
//! `embed` returned.
//!
//! [`shrink_font`] returns what `subset` does, and its contract covers each font that the given one is a subset of: the result
//! keeps what a subset of that font keeps. [`laws`] has the laws of subsets of subsets by themselves.
//!
//! ```text
//! let embedded = embed(alloc, data, 0, &[36, 68])?;   // embedded.font, .cids, .widths
//! let text = write_widths(alloc, &embedded)?;         // [0 [600 684 686]]
//! ```
#![tactic(auto)]

mod array;
mod embedding;
pub mod laws;
mod reader;
mod shrinking;
mod widths;

pub use array::write_widths;
pub use embedding::{
    Embedded, embed, embed_numbered, embed_opened, embed_with_limits, embed_with_options,
    mapper_for,
};
pub use reader::Metrics;
pub use shrinking::{shrink, shrink_font};
pub use widths::all_widths;
