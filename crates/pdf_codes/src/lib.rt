//! The codes of the glyphs that a PDF shows, where each code leads, and the text of each code.
//!
//! ```text
//! let shown = [Shown { glyph: 36, text: &['A'] }, Shown { glyph: 5, text: &['f', 'i'] }];
//! let coded = codes_and_texts(alloc, &shown, Codes::Consecutive)?;             // coded.codes: 1 2
//! let encoding = encoding_of(alloc, false, &coded.codes, &cids)?;              // none: each code is its CID
//! ```
#![tactic(auto)]

mod calls;
mod cmaps;
mod codes;
mod laws;
mod shown;
mod units;

pub use calls::{ShownCodes, codes_and_texts, codes_of, encoding_of};
pub use codes::Codes;
pub use laws::{codes_are_determined, codes_have_texts, codes_stay};
pub use shown::{Shown, glyphs_of, has_long_text};
