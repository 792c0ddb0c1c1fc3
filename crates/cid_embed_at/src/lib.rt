//! What a PDF writer needs of a variable font at user coordinates: its subset, the CIDs of the requested glyphs, and the width of
//! each CID.
//!
//! ```text
//! let coordinates = [(Tag::new(b"wght"), 650 * 65536)];
//! let embedded = embed_with_variations(alloc, data, 0, &coordinates, &[36, 68])?;   // embedded.font, .cids, .widths
//! ```
#![tactic(auto)]

mod embedding;

pub use embedding::{embed_with_variations, embed_with_variations_and_options, mapper_at};
