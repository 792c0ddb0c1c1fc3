//! Glyphs at a location.

pub mod cache;
pub mod components;
pub mod composite;
pub mod drawn;
pub mod glyph;
pub mod levels;
pub mod placing;
pub mod simple;
pub mod spare;
pub mod unfolding;
