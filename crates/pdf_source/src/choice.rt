//! What a caller chooses.

ghost use Rattle.std.specs.Prelude.{◌≡◌};
ghost use Rattle.pdf_source.specs.Chosen.{extras_of, is_vertical, IsDefault};

use crate::tag::SubsetTag;
use pdf_codes::Codes;
use pdf_values::{Bounds, Rights};
use subsetter_sfnt::extras::Extras;
use subsetter_type2::limits::Limits;

/// What the font program of a CFF font is.
#[derive(Clone, Copy, PartialEq, Eq, Debug)]
pub enum ProgramChoice {
    /// The bytes of `CFF ` alone.
    Smallest,
    /// The whole file (PDF 1.6).
    OpenType,
}

/// How text runs.
#[derive(Clone, Copy, PartialEq, Eq, Debug)]
pub enum Direction {
    /// From left to right.
    Horizontal,
    /// From top to bottom.
    Vertical,
}

/// What a caller chooses.
#[derive(Clone, Copy)]
pub struct FontOptions {
    pub limits: Limits,
    /// Whether the instructions of outlines are kept.
    pub hinting: bool,
    pub program: ProgramChoice,
    pub codes: Codes,
    pub direction: Direction,
    pub bounds: Bounds,
    /// Whether there is to be a CIDSet.
    pub cid_set: bool,
    /// The tag of the name, instead of the computed one.
    pub tag: Option<SubsetTag>,
    pub rights: Rights,
}

impl FontOptions {
    /// Hinting is kept, no CIDSet is made, the tag is computed, and of each choice the first counts.
    pub fn default() -> Self
        ensures { IsDefault result }
    {
        FontOptions {
            limits: Limits::default(),
            hinting: true,
            program: ProgramChoice::Smallest,
            codes: Codes::Consecutive,
            direction: Direction::Horizontal,
            bounds: Bounds::Font,
            cid_set: false,
            tag: None,
            rights: Rights::AsSaid,
        }
    }

    /// What is kept of the font: no names, and no names of glyphs.
    pub fn extras(&self) -> Extras
        ensures { result ≡ extras_of self.now }
    {
        Extras {
            hinting: self.hinting,
            names: false,
            glyph_names: false,
        }
    }

    /// Whether text runs from top to bottom.
    pub fn is_vertical(&self) -> bool
        ensures { result ≡ is_vertical self.now.direction }
    {
        match self.direction {
            Direction::Horizontal => false,
            Direction::Vertical => true,
        }
    }
}
