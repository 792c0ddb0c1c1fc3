//! The tables of a TrueType subset.
//!
//! The order of the glyphs is given back before room for the output is taken, so that its map and the output are never
//! held together. That `glyf` isn't too long is checked by `check_len`, which takes no memory and whose clause names
//! its one error.

ghost use Rattle.std.specs.Prelude.{◌≡◌, ◌<◌, ◌≤◌, ◌^◌, length, IfOk, IfErr, OnOk};
ghost use Rattle.subsetter_base.specs.declared.error.Error.TheVariants.{OverflowError};
ghost use Rattle.subsetter_base.specs.Gives.{Gives};
ghost use Rattle.subsetter_sfnt.specs.FontAt.{tables_of};
ghost use Rattle.subsetter.specs.TableView.{font_seen};
ghost use Rattle.subsetter.specs.Glyf.Reaching.Closure.{AreFound};
ghost use Rattle.subsetter.specs.Glyf.View.{seen};
ghost use Rattle.subsetter.specs.Glyf.Written.{is_long, glyf_bytes};
ghost use Rattle.subsetter.specs.Truetype.Plain.{located, made_of, font_of};
ghost use Rattle.subsetter.specs.Truetype.View.{made_seen};

use crate::common::shared::{self, SharedTables};
use crate::glyf::outlines::{OutlineList, outlines_len};
use crate::glyf::{self, GlyfTables};
use crate::loca;
use crate::tables::{TableData, borrowed};
use std::alloc::Global;
use subsetter_base::{Error, GlyphRemapper, Tag};
use subsetter_sfnt::face::Face;
use subsetter_sfnt::fields::loca::OFFSET32_MAX;
use subsetter_sfnt::flavor::FontFlavor;
use subsetter_sfnt::laying::tables::FontTables;

/// What is made for the new font; its programs are the source's.
#[derive(Drop)]
pub struct TrueTypeTables<'a> {
    pub outlines: OutlineList<'a>,
    /// Whether `loca` has the long format.
    pub long: bool,
    pub loca: Vec<u8>,
    pub shared: SharedTables<'a>,
}

/// `OverflowError` where `glyf` has 2^32 bytes or more. No memory is taken.
fn check_len(outlines: &OutlineList<'_>, long: bool) -> Result<(), Error>
    ensures ok { OnOk result (length (glyf_bytes long outlines.now.items) < 2 ^ 32) }
    ensures err { IfErr result (λ e. (e ≡ OverflowError) × (2 ^ 32 ≤ length (glyf_bytes long outlines.now.items))) }
{
    if outlines_len(outlines, long) > OFFSET32_MAX {
        return Err(Error::OverflowError);
    }
    Ok(())
}

/// `loca` of outlines. `OverflowError` where `glyf` has 2^32 bytes or more.
#[tactic(auto, unfolding(crate::specs::Truetype::Plain::located))]
fn locate(alloc: Global, outlines: &OutlineList<'_>, long: bool) -> Result<Vec<u8>, Error>
    requires { long ≡ is_long outlines.now.items }
    ensures { Gives (λ v. v.items) result (located outlines.now.items) }
{
    check_len(outlines, long)?;
    loca::subset(alloc, outlines, long)
}

impl<'a> TrueTypeTables<'a> {
    /// Makes the tables that depend on the glyphs of the new font. `MalformedFont` where an outline isn't there or is cut,
    /// `OverflowError` where `glyf` has 2^32 bytes or more, and the errors of `SharedTables::build`.
    #[tactic(auto, using(crate::proofs::GlyfLaws::KeptList::all_by_outlines), unfolding(crate::specs::Truetype::Plain::made_of))]
    pub fn build(
        alloc: Global,
        face: &Face<'a>,
        table: &GlyfTables<'a>,
        found: Vec<Option<&'a [u8]>>,
        order: &GlyphRemapper,
    ) -> Result<Self, Error>
        requires { AreFound (seen table.now) order.now found.items }
        ensures exact { Gives made_seen result (made_of (tables_of face.now) (seen table.now) order.now) }
        ensures long { IfOk result (λ m. m.long ≡ is_long m.outlines.items) }
    {
        let outlines = glyf::subset(alloc, found, order, table.hinting)?;
        let long = loca::is_long(&outlines);
        let loca = locate(alloc, &outlines, long)?;
        let shared = SharedTables::build(alloc, face, FontFlavor::TrueType, long, order)?;
        Ok(Self {
            outlines,
            long,
            loca,
            shared,
        })
    }
}

/// The tables of the new font.
pub fn font_tables<'b, 'a>(
    face: &Face<'a>,
    made: &'b TrueTypeTables<'a>,
) -> FontTables<TableData<'b, 'a>>
    requires { made.now.long ≡ is_long made.now.outlines.items }
    ensures { font_seen result ≡ font_of (tables_of face.now) (made_seen made.now) }
{
    let mut tables = shared::font_tables(&made.shared);
    tables.cvt = borrowed(face.table(Tag::CVT));
    tables.fpgm = borrowed(face.table(Tag::FPGM));
    tables.glyf = Some(TableData::Outlines {
        outlines: &made.outlines,
        long: made.long,
    });
    tables.loca = Some(TableData::Whole(&made.loca));
    tables.prep = borrowed(face.table(Tag::PREP));
    tables
}
