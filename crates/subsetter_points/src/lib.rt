//! Simple glyph descriptions of a `glyf` table as points, both ways: what an instance of a variable font needs, which moves the
//! points of an outline and writes it anew.
//!
//! - [`read_simple`] reads the [`Outline`] of a simple glyph: its points, and the last point of each contour.
//! - [`read_columns`] reads the same as [`Columns`]: the flags and the coordinates, not joined.
//! - [`fits`] is whether an outline can be written, and [`write_simple`] appends its bytes, as [`write_bounded`] does where the box around its points is known.
//! - [`laws`] has the law that what is written is read again.
//!
//! ```text
//! let Some(mut outline) = read_simple(alloc, glyph)? else { return Err(Error::MalformedFont) };
//! outline.points[0].x = 20;
//! if !fits(&outline) { return Err(Error::OverflowError) }
//! write_simple(&mut out, &outline)?;
//! ```
#![tactic(auto)]

mod bounds;
pub mod component;
pub mod header;
pub mod laws;
mod list_bytes;
mod lists;
mod outline;
mod points;
mod reading;
mod writing;

pub use bounds::{Bounds, bounds_bytes, bounds_of};
pub use list_bytes::fitting::fits;
pub use outline::{Columns, Outline, Point};
pub use reading::{read_columns, read_simple};
pub use writing::{write_bounded, write_simple};
