//! What a PDF reads of a font and of the new font that was made of it: the program, the widths of all its glyphs, and the
//! values of the font descriptor; and what a caller chooses.
//!
//! ```text
//! let new = new_font(alloc, &face, file, &coordinates, &options, requested)?;
//! // new.program, new.profile.widths, new.profile.values ..
//! let width = most_frequent(alloc, &new.profile.widths)?;
//! ```
#![tactic(auto)]

mod axes;
mod boxed;
mod cff;
mod choice;
mod described;
mod exact;
mod moved;
mod program;
mod tag;
mod tops;
mod widened;
mod widths;

pub use axes::unknown_axes;
pub use choice::{Direction, FontOptions, ProgramChoice};
pub use described::{Descriptor, heights_by, name_in, vertical_of};
pub use exact::{ExactWidths, exact_of};
pub use moved::{Location, location_in};
pub use program::{NewFont, Profile, new_font};
pub use tag::SubsetTag;
pub use tops::tops_of;
pub use widths::most_frequent;
