//! Type 2 charstrings (Technical Note 5177): flattening, which inlines the subroutines that a charstring calls,
//! and the machine that it agrees with.
//!
//! [`charstring::Decompiler::flatten`] returns the charstring without subroutines that says the same, within a number
//! of tokens and a depth; `decompile` returns its instructions. [`laws`] has what the definitions come to.
//!
//! ```text
//! let decompiler = Decompiler::new(global.get_handler(), local.get_handler());
//! let flat = decompiler.flatten(alloc, charstring)?;
//! ```
#![tactic(auto)]

pub mod argstack;
pub mod charstring;
pub mod laws;
pub mod limits;
pub mod operators;
mod program;
pub mod rests;
pub mod runs;
mod stretches;
pub mod subroutines;
pub mod token;
