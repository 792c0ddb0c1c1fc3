//! Characters, texts and numbers in what a program prints.
//!
//! [`characters::plain`] has U+FFFD for a character that a line of a message may not have. [`write_pieces`] writes a text to any
//! writer, piece by piece:
//!
//! ```text
//! write_pieces(&[Piece::Text(b"{\"size\":"), Piece::Number(12), Piece::Text(b"}")], out)?;         // {"size":12}
//! ```
#![tactic(auto)]

pub mod characters;
mod fixed;
mod pieces;
mod quoted;
mod text;

pub use fixed::write_fixed;
pub use pieces::{Piece, write_pieces};
pub use quoted::{write_quoted, write_shown};
pub use text::{Unwritten, Written, write_count, write_decimal, write_text};
