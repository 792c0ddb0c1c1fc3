//! The new table.

ghost use Rattle.std.specs.Prelude.{◌≡◌, ◌≤◌, length, true, IfOk, IfErr};
ghost use Rattle.subsetter_base.specs.Gives.{Gives};
ghost use Rattle.subsetter_base.specs.declared.error.Error.TheVariants.{OutOfMemory};
ghost use Rattle.subsetter_cff.specs.Read.Source.{cff_of, IsSource};
ghost use Rattle.subsetter_cff.specs.Write.Laying.TableBy.{table_bytes};
ghost use Rattle.cff_repeats.specs.Laws.{HasFigures};
ghost use Rattle.cff_repeats.specs.Repeats.{is_count, repeated, with_repeats};

use crate::keeping::keep_figures;
use std::alloc::Global;
use subsetter_base::Error;
use subsetter_cff::CffPieces;
use subsetter_cff::read::source::Table;
use subsetter_cff::write::laying::parts::new_table_of;
use subsetter_cff::write::laying::writing::write_table;

/// Whether a table may have `count` glyphs.
fn is_count(count: usize) -> bool
    ensures value { result ≡ is_count count }
    ensures few { result ≡ true → count ≤ 65535 }
{
    0 < count && count < 65536
}

/// The table of these glyphs, in two pieces.
fn repeated(alloc: Global, table: &Table<'_>, figures: &[Option<u16>]) -> Result<CffPieces, Error>
    requires source { IsSource table.now }
    requires few { length figures.now ≤ 65535 }
    ensures { Gives table_bytes result (repeated (cff_of table.now) figures.now) }
{
    let kept = keep_figures(alloc, table, figures)?;
    let new = new_table_of(alloc, table, kept)?;
    write_table(alloc, new, figures.len() as u16)
}

/// The two pieces, one after the other.
fn joined(pieces: CffPieces) -> Result<Vec<u8>, Error>
    ensures ok { IfOk result (λ v. v.items ≡ table_bytes pieces) }
    ensures err { IfErr result (λ e. e ≡ OutOfMemory) }
{
    let mut bytes = pieces.front;
    bytes.extend_from_slice(&pieces.char_strings)?;
    Ok(bytes)
}

/// The table, exactly.
#[tactic(auto, unfolding(crate::specs::Repeats::with_repeats))]
fn repeat_exactly(alloc: Global, cff: &[u8], figures: &[Option<u16>]) -> Result<Vec<u8>, Error>
    ensures { Gives (λ v. v.items) result (with_repeats cff.now figures.now) }
{
    if !is_count(figures.len()) {
        return Err(Error::OverflowError);
    }
    let table = Table::parse(alloc, cff)?;
    joined(repeated(alloc, &table, figures)?)
}

/// A CID-keyed table whose glyph i, with CID i, is glyph `figures[i]` of a table without subroutines, as that of a subset: its charstring
/// byte for byte, under the same private dict. None is a blank: endchar, with the width that says 0, in the font dict of glyph 0.
///
/// # Errors
///
/// - `OverflowError`: there are no figures, more than 65535, or 256 used font dicts; a real has more than 64 characters; an offset or the
///   charstrings are too large; or no number of 16 bits says the width 0 of a blank.
/// - `Unimplemented`: there are subroutines that a figure's charstring may call.
/// - `SubsetError`: a string can't be read.
/// - `CFFError`: the table's first byte isn't 1.
/// - `MalformedFont`: all else that is wrong with the table, or it doesn't have such a glyph.
/// - `OutOfMemory`.
pub fn with_repeats(alloc: Global, cff: &[u8], figures: &[Option<u16>]) -> Result<Vec<u8>, Error>
    // What is answered is what the definition says, byte for byte.
    ensures exact { Gives (λ v. v.items) result (with_repeats cff.now figures.now) }
    // And read afresh it has these glyphs, each as it was.
    ensures ok { IfOk result (λ v. HasFigures figures.now cff.now v.items) }
{
    repeat_exactly(alloc, cff, figures)
}
