//! What a PDF has of a font for the glyphs in use, from one call: the font program, the codes, the widths, the values of
//! the font descriptor, the ToUnicode CMap and the CMap of the codes.
//!
//! ```text
//! let shown = [Shown { glyph: 36, text: &['A'] }, Shown { glyph: 5, text: &['f', 'i'] }];
//! let font = pdf_font(alloc, data, 0, &[], &shown, &FontOptions::default())?;
//! // font.program, font.codes, font.widths, font.descriptor, font.to_unicode ..
//! ```
#![tactic(auto)]

mod call;
mod error;
mod font;
mod laws;

pub use call::{lacks_outlines, pdf_font};
pub use error::FontError;
pub use font::PdfFont;
pub use laws::{
    answers_are_determined, answers_have_no_fault, boxes_are_kept, cff_widths_agree,
    codes_need_no_font, codes_stay, names_are_short, widths_agree,
};
pub use pdf_codes::{Codes, Shown, codes_of};
pub use pdf_glyphs::Columns;
pub use pdf_source::{Descriptor, Direction, FontOptions, ProgramChoice, SubsetTag};
pub use pdf_text::{Column, DefaultColumn, NamedCmap, ProgramKind};
pub use pdf_values::{Bounds, Edges, Heights, Permission, Rights, Usage, Values};
pub use subsetter::{Limits, Tag};
