//! The values that a PDF's font descriptor (ISO 32000-1, 9.8) has of a font, read of the font's tables, and what the font permits.
//!
//! Each table is a byte slice, or none where the font lacks it. No value refuses a font: a field that is missing or cut
//! counts as not stated, and the next source is taken. A font that is moved along its axes has its values with what `MVAR` says,
//! and with the coordinates on `ital`, `slnt` and `wght`.
//!
//! ```text
//! let values = values_of(tables, known, None, Bounds::Font);             // values.heights.ascent: 905
//! let movement = Movement { at: &at, axes: &axes, settings: &coordinates, mvar };
//! let values = values_of(tables, known, Some(movement), Bounds::Kept);   // values.heights.ascent: 916
//! ```
#![tactic(auto)]

mod descriptor;
pub mod fields;
mod laws;
mod looks;
mod movement;
mod naming;
mod permission;
mod rounding;
mod units;

pub use descriptor::{Known, Tables, Values, values_of};
pub use laws::{first_is_taken, none_is_passed};
pub use looks::bounds::{Bounds, Edges, GlyphBox};
pub use looks::heights::Heights;
pub use movement::Movement;
pub use naming::{postscript_name, table_name};
pub use permission::{Permission, Rights, Usage, is_permitted, permission_of};
pub use rounding::{lowered, raised, thousandths};
pub use units::units_per_em;
