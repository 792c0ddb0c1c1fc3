//! What the objects of a font say (ISO 32000-1, 9.7 to 9.9).

use crate::metrics::columns::{Column, DefaultColumn};

/// The kind of a font program.
#[derive(Clone, Copy, PartialEq, Eq)]
pub enum ProgramKind {
    /// A TrueType file.
    TrueType,
    /// A bare CFF table.
    BareCff,
    /// An OpenType file with CFF outlines (PDF 1.6).
    OpenType,
}

/// A CMap from codes to CIDs that the file itself has.
#[derive(Clone, Copy)]
pub struct OwnCmap<'a> {
    /// Its CMapName.
    pub name: &'a [u8],
    pub text: &'a [u8],
}

/// The values of a font descriptor (Table 122): lengths in thousandths of the em.
#[derive(Clone, Copy)]
pub struct Descriptor<'a> {
    /// A name that needs no escape, as `font_name` gives it.
    pub font_name: &'a [u8],
    pub flags: u32,
    /// The left, lower, right and upper edges.
    pub bounds: [i32; 4],
    /// In thousandths of a degree, counterclockwise.
    pub italic_angle: i32,
    pub ascent: i32,
    /// Not above 0.
    pub descent: i32,
    pub cap_height: i32,
    pub x_height: Option<i32>,
    pub stem_v: u32,
    /// A hundred to nine hundred.
    pub font_weight: u16,
}

/// The columns of vertical writing.
#[derive(Clone, Copy)]
pub struct FontColumns<'a> {
    /// The column of each CID from 0 on that a string can show.
    pub each: &'a [Column],
    /// DW2.
    pub default: DefaultColumn,
}

/// What the objects of a font say: a font that is borrowed.
#[derive(Clone, Copy)]
pub struct FontValues<'a> {
    pub kind: ProgramKind,
    pub descriptor: Descriptor<'a>,
    /// The width of each CID from 0 on, in thousandths of the em.
    pub widths: &'a [u32],
    /// DW.
    pub default_width: u32,
    /// None: text doesn't run from top to bottom.
    pub columns: Option<FontColumns<'a>>,
    /// The font program.
    pub program: &'a [u8],
    /// CIDToGIDMap as a stream, of a TrueType program. None: each CID is the number of its glyph.
    pub cid_to_gid_map: Option<&'a [u8]>,
    /// The ToUnicode CMap, as `write_to_unicode` gives it.
    pub to_unicode: &'a [u8],
    /// None: each code is its CID (`Identity-H` or `Identity-V`).
    pub encoding: Option<OwnCmap<'a>>,
    /// The bytes of CIDSet, if there is one.
    pub cid_set: Option<&'a [u8]>,
}

/// The numbers of the objects that others refer to.
#[derive(Clone, Copy)]
pub struct References {
    pub cid_font: u32,
    pub descriptor: u32,
    pub program: u32,
    pub to_unicode: u32,
    /// Of no effect without a CIDToGIDMap as a stream.
    pub cid_to_gid_map: u32,
    /// Of no effect without a CIDSet.
    pub cid_set: u32,
    /// Of no effect without a CMap of the file's own.
    pub encoding: u32,
}
