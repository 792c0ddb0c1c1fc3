//! Which own glyphs a font can get: what runs with own glyphs need of a font before it is embedded.
//!
//! ```text
//! let found = own_choice(alloc, data, 0, &coordinates, &Limits::default())?;
//! show_own_run(alloc, found.font(), &found.choice(), direction, order, 12_000, &mut pairs, &mut own, &items)?;
//! ```
#![tactic(auto)]

mod call;
mod choice;
mod drawn;
mod laws;
mod outlines;
mod parts;
mod room;

pub use call::own_choice;
pub use choice::OwnChoice;
pub use laws::{drawn_are_small, instances_fit, parts_fit, parts_have_boxes};
