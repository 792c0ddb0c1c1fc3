//! A static font of a font with outlines in `CFF2`: [`cff_instance`] returns a font with a CID-keyed `CFF ` in which each
//! glyph that is requested is what the font has at a location, under its old number.
//!
//! ```text
//! let file = cff_instance(alloc, data, 0, &coordinates, &mapper, Limits::default())?;
//! ```
#![tactic(auto)]

mod boxes;
pub mod instancing;
pub mod laws;
pub mod metrics;
pub mod source;
pub mod tables;

pub use instancing::cff_instance;
