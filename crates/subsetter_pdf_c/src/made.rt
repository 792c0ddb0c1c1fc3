//! A font for a PDF as C has it (`subsetter_pdf_font` in `bindings/c/subsetter.h`).

use pdf_text::Column;

/// The numbers of a font.
#[derive(Clone, Copy)]
#[repr(C)]
pub struct PdfNumbers {
    /// 0: a TrueType program, 1: the bytes of `CFF `, 2: an OpenType file with outlines in `CFF `.
    pub kind: u32,
    /// Not 0: text runs from top to bottom.
    pub is_vertical: u32,
    /// DW.
    pub default_width: u32,
    /// DW2: y, and advance.
    pub default_column: [i32; 2],
    pub flags: u32,
    /// The left, lower, right and upper edges.
    pub bounds: [i32; 4],
    /// In thousandths of a degree, counterclockwise.
    pub italic_angle: i32,
    pub ascent: i32,
    pub descent: i32,
    pub cap_height: i32,
    /// 0: there is no XHeight.
    pub has_x_height: u32,
    pub x_height: i32,
    pub stem_v: u32,
    pub font_weight: u32,
    /// 0: unsaid, 1: installable, 2: editable, 3: preview and print, 4: restricted.
    pub usage: u32,
    pub may_subset: u32,
    pub may_embed_outlines: u32,
}

/// A font, whose lists the caller reads, and gives back by `subsetter_free_pdf_font`. An empty list takes no memory.
#[derive(Drop)]
#[repr(C)]
pub struct PdfMade {
    /// The font program.
    pub program: &'static [u8],
    /// The CID of each entry.
    pub cids: &'static [u16],
    /// The code of each entry.
    pub codes: &'static [u16],
    /// Whether readers find the text of an entry by its code.
    pub is_said: &'static [bool],
    /// The width of each CID.
    pub widths: &'static [u32],
    /// In vertical writing of each CID that a string can show.
    pub columns: &'static [Column],
    pub font_name: &'static [u8],
    /// The ToUnicode CMap.
    pub to_unicode: &'static [u8],
    /// The CMap of the codes; empty where each code is its CID.
    pub encoding: &'static [u8],
    /// The name of that CMap.
    pub encoding_name: &'static [u8],
    /// CIDSet; empty where there is none.
    pub cid_set: &'static [u8],
    pub numbers: PdfNumbers,
}
