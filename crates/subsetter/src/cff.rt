//! `CFF `, outlines as charstrings (Technical Note 5176), and the tables of a subset that has them.
//!
//! The new table is made by `subsetter_cff`, in two pieces. Its glyphs are the given ones and no others, as a charstring
//! leads to no further glyph.

ghost use Rattle.std.specs.Prelude.{◌≡◌, length};
ghost use Rattle.subsetter_base.specs.Within.{GivesWithin};
ghost use Rattle.subsetter_sfnt.specs.FontAt.{tables_of};
ghost use Rattle.subsetter.specs.TableView.{font_seen};
ghost use Rattle.subsetter.specs.Cff.Plain.{made_of, font_of};
ghost use Rattle.subsetter.specs.Cff.View.{made_seen};

use crate::common::shared::{self, SharedTables};
use crate::tables::TableData;
use std::alloc::Global;
use subsetter_base::{Error, GlyphRemapper};
use subsetter_cff::CffPieces;
use subsetter_sfnt::face::Face;
use subsetter_sfnt::flavor::FontFlavor;
use subsetter_sfnt::laying::tables::FontTables;
use subsetter_type2::limits::Limits;

/// What is made for the new font.
#[derive(Drop)]
pub struct CffTables<'a> {
    /// `CFF `.
    pub table: CffPieces,
    /// The tables that do not depend on the kind of outlines.
    pub shared: SharedTables<'a>,
}

impl<'a> CffTables<'a> {
    /// Makes the tables of the new font from the source's `CFF ` and its other tables. The errors are those of
    /// `subsetter_cff::subset` and of `SharedTables::build`.
    #[tactic(auto, unfolding(crate::specs::Cff::Plain::made_of))]
    pub fn build(
        alloc: Global,
        face: &Face<'a>,
        source: &[u8],
        limits: Limits,
        mapper: &GlyphRemapper,
    ) -> Result<Self, Error>
        ensures { GivesWithin made_seen limits.bytes (λ m. length m.cff) result (made_of (tables_of face.now) source.now limits.tokens limits.depth mapper.now) }
    {
        let table = subsetter_cff::subset(alloc, source, mapper, limits)?;
        let shared = SharedTables::build(alloc, face, FontFlavor::Cff, false, mapper)?;
        Ok(Self { table, shared })
    }
}

/// All tables of the new font.
pub fn font_tables<'b, 'a>(made: &'b CffTables<'a>) -> FontTables<TableData<'b, 'a>>
    ensures { font_seen result ≡ font_of (made_seen made.now) }
{
    let mut tables = shared::font_tables(&made.shared);
    tables.cff = Some(TableData::Pieces(&made.table));
    tables
}
