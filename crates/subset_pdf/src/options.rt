//! What the options of a command line choose of a font.

ghost use Rattle.std.specs.Prelude.{◌≡◌};
ghost use Rattle.subset_pdf.specs.Options.{codes_by, direction_by, options_by, options_of, rights_by};

use pdf_font::{Bounds, Codes, Direction, FontOptions, Limits, ProgramChoice, Rights};
use pdf_objects::Layout;
use subset_args::{Coding, PdfChoice};
use subsetter_base::Tag;

/// The PDF that is requested of a font.
#[derive(Clone, Copy)]
pub struct PdfRequest<'a> {
    /// The face of a collection, from 0.
    pub index: u32,
    /// The user coordinates on the axes of a variable font, in 65536ths.
    pub at: &'a [(Tag, i32)],
    pub limits: Limits,
    /// Whether the instructions of outlines are kept.
    pub hinting: bool,
    pub choice: PdfChoice,
    /// How the glyphs are shown.
    pub layout: Layout,
}

/// How glyphs get codes: in order of use, where nothing is said.
fn codes_by(coding: Option<Coding>) -> Codes
    ensures { result ≡ codes_by coding }
{
    match coding {
        None | Some(Coding::Consecutive) => Codes::Consecutive,
        Some(Coding::Source) => Codes::Source,
        Some(Coding::Text) => Codes::EachText,
    }
}

/// How text runs.
fn direction_by(vertical: bool) -> Direction
    ensures { result ≡ direction_by vertical }
{
    if vertical {
        Direction::Vertical
    } else {
        Direction::Horizontal
    }
}

/// Whose permission counts.
fn rights_by(is_held: bool) -> Rights
    ensures { result ≡ rights_by is_held }
{
    if is_held {
        Rights::Held
    } else {
        Rights::AsSaid
    }
}

/// What is chosen of the font: what isn't stated is as by default.
pub fn options_of(request: &PdfRequest<'_>) -> FontOptions
    ensures { result ≡ options_of request.now }
{
    FontOptions {
        limits: request.limits,
        hinting: request.hinting,
        program: ProgramChoice::Smallest,
        codes: codes_by(request.choice.coding),
        direction: direction_by(request.choice.vertical),
        bounds: Bounds::Font,
        cid_set: false,
        tag: None,
        rights: rights_by(request.choice.is_held),
    }
}
