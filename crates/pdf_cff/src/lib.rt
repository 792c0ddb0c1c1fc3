//! What a PDF takes of a `CFF ` table (Technical Note 5176): its first name, and its first vertical stem.
//!
//! ```text
//! let values = cff_values_in(alloc, cff, units)?;     // values.name: "Made-Bold", values.stem: 83
//! ```
#![tactic(auto)]

mod dict_stems;
mod stems;
mod values;

pub use values::{CffValues, cff_values_in, unless_memory};
