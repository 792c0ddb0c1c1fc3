//! What the program's arguments request of a font, why a run fails, and what a face has: all that needs no new font.
//!
//! ```text
//! let plan = plan_of(&job, ..)?;                      // of the arguments
//! let picked = pick(alloc, &face, requested)?;         // the glyphs of characters
//! ```
#![tactic(auto)]

pub mod batch;
pub mod faces;
pub mod making;
pub mod notes;
pub mod reading;
pub mod refusals;
pub mod run;
pub mod streams;
pub mod task;
