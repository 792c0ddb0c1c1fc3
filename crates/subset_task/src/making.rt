//! What is made of the font that is read.

pub mod requested;
