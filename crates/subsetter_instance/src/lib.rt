//! A static font of a variable TrueType font: `instance` returns a font in which each glyph that is requested is the
//! simple outline, without instructions, that the variable font has at a location, under its old number.
#![tactic(auto)]

pub mod glyphs;
pub mod instancing;
pub mod laws;
pub mod source;
pub mod tables;

pub use instancing::instance;
