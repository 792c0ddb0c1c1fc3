//! Runs of shaped glyphs of a font that gets own glyphs, as operators of a content stream.
//!
//! ```text
//! show_own_run(alloc, font, &choice, Direction::LeftToRight, Order::Visual, 12_000, &mut pairs, &mut own, &items)?;
//! ```
#![tactic(auto)]

mod expanded;
mod run;

pub use run::show_own_run;
