//! Subsets of variable fonts: a font with some glyphs of a font, as they are at user coordinates on its axes.
//!
//! [`subset_with_variations`] returns what `subset` returns for a font that is at its default, with its hints. Where it
//! is elsewhere, it makes the static font that `instance` returns, and subsets that; of a font with outlines in `CFF2` alone
//! it makes the one that `cff_instance` returns, at its default too. [`static_font`] returns that font itself, for
//! whatever takes one, as `embed` of `cid_embed`.
//!
//! ```text
//! let mapper = GlyphRemapper::new_from_glyphs(alloc, &[36, 68])?;
//! let coordinates = [(Tag::new(b"wght"), 650 * 65536)];
//! let font = subset_with_variations(alloc, data, 0, &coordinates, &mapper)?;
//! ```
#![tactic(auto)]

mod default_location;
pub mod laws;
mod subsetting;

pub use default_location::{is_cff2_font, static_font};
pub use subsetter::{Error, Extras, GlyphRemapper, Limits, Options, Tag};
pub use subsetting::{
    check_opening_at, subset_with_variations, subset_with_variations_and_limits,
    subset_with_variations_and_options,
};
