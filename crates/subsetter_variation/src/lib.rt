//! What varies in a variable font: the coordinates of an instance on the font's axes, how far a tuple counts there, and where the
//! points of a glyph and its advance go. Tables are byte slices here, and there are no fonts. All numbers are whole: scalars and moved
//! points are in parts of 2^30, and whoever writes an outline rounds each coordinate once, by `rounding::nearest`.
//!
//! - `locations::coordinates::coordinates` turns user coordinates into normalized ones, by `fvar` and `avar`.
//! - `glyphs::tuples::gvar_table` opens `gvar`, and `glyphs::movement::moved_points` says where the points of a glyph go, in a number of steps.
//! - `items::advances::advance_delta` says what `HVAR` adds to an advance, and `items::font_metrics::metric_delta` what `MVAR` adds to a metric of
//!   the whole font.
//! - `laws` has what the definitions come to.
//!
//! ```text
//! let at = coordinates(alloc, fvar, avar, &[(Tag::new(b"wght"), 650 * 65536)])?;
//! let table = gvar_table(gvar).ok_or(Error::MalformedFont)?;
//! let outline = Outline { xs: &xs, ys: &ys, ends: &ends };
//! let mut lists = SpareLists::new(alloc);
//! let (moved_xs, moved_ys, left) = moved_points(alloc, &mut lists, &table, glyph, &outline, &at, 1_000_000)?;
//! let x = nearest(moved_xs[0], 1 << 30);
//! ```
#![tactic(auto)]

pub mod fvar;
pub mod glyphs;
pub mod items;
pub mod laws;
pub mod locations;
pub mod packing;
pub mod region;
pub mod rounding;
