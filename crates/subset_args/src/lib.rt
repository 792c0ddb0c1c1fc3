//! What the arguments of `subset_font` request, and the lists of glyphs that they name.
//!
//! [`read_typed`] reads them all; [`read_list`] reads the list that a file holds.
//!
//! ```text
//! match read_typed(alloc, &words) {
//!     Ok(Command::Subset(job)) => ..,
//!     Ok(Command::Batch(file)) => ..,
//!     Err(Unread::Mistake(mistake)) => ..,
//! }
//! ```
#![tactic(auto)]

mod coordinates;
mod jobs;
mod limits;
mod listing;
mod mistakes;
mod nearest;
mod options;
mod texts;
mod words;

pub use coordinates::read_coordinates;
pub use jobs::command::{ArgsError, Command, Glyphs, Job, PdfJob, Position, Topic};
pub use jobs::parts::is_stream;
pub use jobs::reading::{read_typed, read_words};
pub use limits::RunLimits;
pub use listing::characters::codes_descend;
pub use listing::files::{find_wrong, read_list};
pub use listing::lists::{FileKind, GlyphList, descends, is_blank};
pub use mistakes::{Mistake, Unread, Wrong};
pub use options::chosen::{PdfChoice, Switches};
pub use options::names::{Coding, OPTIONS};
pub use texts::{
    Advice, CODES_EXPECTED, FEW_EXPECTED, ORDER_EXPECTED, PARTS_EXPECTED, Plain, Shown,
};
