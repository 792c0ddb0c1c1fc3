//! A new table is written: first the pieces, then their offsets are known.

ghost use Rattle.std.specs.Prelude.{◌≡◌, ◌<◌, [], length, IfOk};
ghost use Rattle.subsetter_base.specs.Gives.{Gives};
ghost use Rattle.subsetter_cff.specs.Write.Laying.Layout.{strings};
ghost use Rattle.subsetter_cff.specs.Write.Laying.FrontDraft.{IsDraft};
ghost use Rattle.subsetter_cff.specs.Write.Laying.PartsView.{parts_view};
ghost use Rattle.subsetter_cff.specs.Write.Laying.TableBy.{offsets_by, laid_by, table_by, table_bytes, ArePieces, TableIsLaidOut};
ghost use Rattle.subsetter_cff.specs.Write.Laying.TableLimits.{pieces_limits, offset_limits, laid_limits, table_limits};
ghost use Rattle.subsetter_cff.specs.Write.NewDicts.TopDictView.{offsets_of, AreOffsets};

use crate::write::glyphs::charset::{charset_size, rewrite_charset};
use crate::write::glyphs::flat_index::{header_room, write_flat_header};
use crate::write::laying::front::{FrontDraft, draft_front, write_front};
use crate::write::laying::table::{TableParts, number_strings};
use crate::write::new_dicts::dicts::{
    offset_after, put_index, select_size, size_index, write_dicts, write_select,
};
use crate::write::new_dicts::top_dict::Offsets;
use crate::write::strings::sid_remapper::SidRemapper;
use std::alloc::Global;
use subsetter_base::error::Error;
use subsetter_base::write::Writer;

/// What is between the front and the charstrings.
#[derive(Drop)]
pub struct Pieces {
    /// How many bytes the charset has.
    pub charset: usize,
    /// The private dicts.
    pub privates: Writer,
    /// How many bytes FDSelect has.
    pub select: usize,
    /// The font dicts.
    pub font_dicts: Vec<Vec<u8>>,
    /// How many bytes FDArray has.
    pub font_dicts_size: usize,
}

/// A new table, in two pieces: the second one is large, and needn't be copied after the first.
#[derive(Drop)]
pub struct CffPieces {
    /// What is before the charstrings' data.
    pub front: Vec<u8>,
    /// The charstrings, one after the other.
    pub char_strings: Vec<u8>,
}

/// The pieces after a front of a size.
#[tactic(auto, unfolding(crate::specs::Write::Laying::TableLimits::pieces_limits))]
fn write_pieces(
    alloc: Global,
    table: &TableParts<'_>,
    remapper: &SidRemapper<'_>,
    glyphs: u16,
    size: usize,
) -> Result<Pieces, Error>
    ensures value { IfOk result (λ x. ArePieces remapper.now.texts table.now glyphs size x) }
    ensures checked { Gives (λ _. tt) result (pieces_limits remapper.now.texts table.now glyphs size) }
{
    let charset = charset_size(glyphs);
    let select = select_size(table, glyphs);
    let place = offset_after(size, charset)?;
    let made = write_dicts(alloc, place, remapper, &table.font_dicts)?;
    let font_dicts_size = size_index(&made.dicts)?;
    Ok(Pieces {
        charset,
        privates: made.privates,
        select,
        font_dicts: made.dicts,
        font_dicts_size,
    })
}

/// Where the pieces begin after a front of a size.
#[tactic(auto, unfolding(crate::specs::Write::Laying::TableLimits::offset_limits))]
fn find_offsets(size: usize, pieces: &Pieces) -> Result<Offsets, Error>
    ensures offsets { IfOk result AreOffsets }
    ensures value { IfOk result (λ o. offsets_of o ≡ offsets_by size pieces.now.charset (length pieces.now.privates) pieces.now.select pieces.now.font_dicts_size) }
    ensures checked { Gives (λ _. tt) result (offset_limits size pieces.now.charset (length pieces.now.privates) pieces.now.select pieces.now.font_dicts_size) }
{
    let privates = offset_after(size, pieces.charset)?;
    let select = offset_after(privates, pieces.privates.len())?;
    let font_dicts = offset_after(select, pieces.select)?;
    let char_strings = offset_after(font_dicts, pieces.font_dicts_size)?;
    Ok(Offsets {
        charset: size as u32,
        char_strings: char_strings as u32,
        font_dicts: font_dicts as u32,
        select: select as u32,
    })
}

/// What comes before the charstrings' INDEX, by the draft of its front. Room is taken for that INDEX's offsets too.
#[tactic(auto, unfolding(crate::specs::Write::Laying::TableLimits::laid_limits))]
fn write_laid(
    alloc: Global,
    table: &TableParts<'_>,
    remapper: &SidRemapper<'_>,
    glyphs: u16,
    draft: &FrontDraft,
) -> Result<Writer, Error>
    requires { IsDraft remapper.now.texts table.now draft.now }
    ensures value { IfOk result (λ w. w ≡ laid_by remapper.now.texts table.now glyphs []) }
    ensures checked { Gives (λ _. tt) result (laid_limits remapper.now.texts table.now glyphs draft.now.size) }
{
    let pieces = write_pieces(alloc, table, remapper, glyphs, draft.size)?;
    let offsets = find_offsets(draft.size, &pieces)?;
    let header = header_room(table.char_strings.len(), glyphs);
    let room = header.saturating_add(offsets.char_strings as usize);
    let mut w = Writer::with_capacity(alloc, room)?;
    write_front(table.names, draft, &offsets, &mut w)?;
    rewrite_charset(glyphs, &mut w)?;
    w.extend(pieces.privates.as_slice())?;
    write_select(table, glyphs, &mut w)?;
    put_index(&pieces.font_dicts, &mut w)?;
    Ok(w)
}

/// Writes a table. A real that is too long, an offset past 2147483647 and charstrings of 4 GiB are `OverflowError`.
#[tactic(auto, unfolding(crate::specs::Write::Laying::TableLimits::table_limits))]
pub fn write_table(alloc: Global, table: TableParts<'_>, glyphs: u16) -> Result<CffPieces, Error>
    requires font_dicts { length table.font_dicts.items < 256 }
    requires glyphs { glyphs ≡ length table.ends.items }
    ensures value { IfOk result (λ x. table_bytes x ≡ table_by table.entry) }
    ensures checked { Gives (λ _. tt) result (table_limits (strings (parts_view table.entry [])) table.entry glyphs) }
{
    let remapper = number_strings(alloc, &table)?;
    let draft = draft_front(alloc, &table, &remapper)?;
    let mut front = write_laid(alloc, &table, &remapper, glyphs, &draft)?;
    write_flat_header(table.char_strings.len(), &table.ends, &mut front)?;
    Ok(CffPieces {
        front: front.finish(),
        char_strings: table.char_strings,
    })
}

/// What is written is laid out for the parts of the table.
#[tactic(auto, using(crate::proofs::WriteLaws::LayingLaws::TablesWritten::table_is_laid_out))]
pub fn table_is_laid_out()
    ensures { TableIsLaidOut }
{}
