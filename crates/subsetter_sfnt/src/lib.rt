//! The font file: its directory and its tables, read and laid out (OpenType, "Organization of an OpenType Font").
//!
//! `parse` finds the directory of a face, `Face::table` a table of it. A new file is made of tables by their tags:
//! `in_order` puts those that are there in order, and `finish` lays them out. What a table's bytes are written from is
//! the caller's type, by the trait `TableBytes`.
//!
//! ```ignore
//! let face = parse(data, index, Extras::ALL)?;
//! let head = face.table(Tag::HEAD);
//! ```
#![tactic(auto)]

pub mod alone;
pub mod directory;
pub mod extras;
pub mod face;
pub mod fields;
pub mod flavor;
pub mod laying;
pub mod opening;
pub mod parse;
