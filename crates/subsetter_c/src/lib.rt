//! The subsetter as a C library.
//!
//! Each exported function takes a font and glyph numbers, calls one function of the libraries below, hands over its result
//! in buffers of the caller or in memory of its own, and returns a status. `bindings/c/subsetter.h` declares
//! them for C. A slice is passed as a pointer and a count.
//!
//! ```text
//! uint32_t status = subsetter_subset(font, size, 0, glyphs, 2, out, room, &length);
//! ```
#![tactic(auto)]

mod advances;
mod answers;
mod calls;
mod characters;
mod documents;
mod kinds;
mod laws;
mod options;
mod reasons;
mod settings;
mod variations;
mod version;
