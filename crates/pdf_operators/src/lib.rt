//! The operators that show a run of shaped glyphs in a content stream (ISO 32000-1, 9.4), and what readers find in them.
//!
//! ```text
//! show_run(alloc, font, Direction::LeftToRight, Order::Visual, 12_000, &mut pairs, &items)?;    // [<00010002>-12<0003>]TJ
//! ```
#![tactic(auto)]

mod hex;
mod laws;
mod numbers;
mod operations;
mod order;
mod parts;
mod places;
mod runs;

pub use laws::thousandths_are_near;
pub use operations::{Operation, write_operators};
pub use order::Order;
pub use pdf_runs::RunError;
pub use places::{Font, GlyphMetrics};
pub use runs::show_run;
