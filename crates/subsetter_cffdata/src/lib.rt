//! The values of a CFF table (Technical Note 5176): numbers, operators, INDEX structures and DICT structures, read and
//! written.
//!
//! [`indexes::index::parse_index`] takes an INDEX, [`dict`]'s `DictionaryParser` the entries of a DICT one after the other, and
//! `indexes::index::create_index` writes an INDEX. [`laws`] says that what is written is read again.
//!
//! ```text
//! let strings = parse_index::<u16>(&mut r)?;
//! let mut parser = DictionaryParser::new(dict, &mut operands);
//! while let Some(operator) = parser.parse_next() { .. }
//! ```
#![tactic(auto)]

pub mod dicts;
pub mod indexes;
pub mod laws;
pub mod numerals;
pub mod reading;
mod reals;
