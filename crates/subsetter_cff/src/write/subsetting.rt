//! The subset of a CFF table.

ghost use Rattle.std.specs.Prelude.{◌≡◌, ◌⊎◌, length, IfOk, IfErr};
ghost use Rattle.subsetter_base.specs.Within.{GivesWithin, IsTooLong};
ghost use Rattle.subsetter_base.specs.declared.error.Error.{Error as SpecError};
ghost use Rattle.subsetter_base.specs.declared.error.Error.TheVariants.{OutOfMemory, OverflowError};
ghost use Rattle.subsetter_cff.specs.Write.Refusals.CffFault.{HasCffFault};
ghost use Rattle.subsetter_cff.specs.Write.Headline.{IsSubsetLaidOut};
ghost use Rattle.subsetter_cff.specs.Write.Plain.{cff_subset};
ghost use Rattle.subsetter_cff.specs.Write.Laying.TableBy.{table_bytes};

use crate::read::source::Table;
use crate::write::glyphs::kept_glyphs::keep_glyphs;
use crate::write::laying::parts::new_table_of;
use crate::write::laying::writing::{CffPieces, write_table};
use crate::write::new_dicts::dicts::judge_privates;
use std::alloc::Global;
use subsetter_base::GlyphRemapper;
use subsetter_base::error::Error;
use subsetter_type2::limits::Limits;

/// The subset, exactly as the plain way makes it, within the bound on bytes.
fn subset_exactly(
    alloc: Global,
    table: &[u8],
    mapper: &GlyphRemapper,
    limits: Limits,
) -> Result<CffPieces, Error>
    ensures { GivesWithin table_bytes limits.bytes length result (cff_subset table.now limits.tokens limits.depth mapper.now) }
{
    // Both matches in place of `?`: the opened table and the parts are large, and are not moved.
    let opened = Table::parse(alloc, table);
    let source = match &opened {
        Ok(source) => source,
        Err(error) => return Err(*error),
    };
    let kept = keep_glyphs(alloc, source, limits, mapper)?;
    match new_table_of(alloc, source, kept) {
        Ok(new) => {
            judge_privates(alloc, &new, limits)?;
            write_table(alloc, new, mapper.num_gids())
        }
        Err(error) => Err(error),
    }
}

/// The table of the glyphs that a mapper keeps, by their new numbers. A first byte that isn't 1, and a charstring that
/// can't be run, are `CFFError`; a charstring with the operands of an accented character is `Unimplemented`; a string that
/// can't be read is `SubsetError`; 256 font dicts, a real of more than 64 characters and a table that is too large are
/// `OverflowError`; all else that is wrong with the table is `MalformedFont`. Once the glyphs are kept, the font dicts are
/// counted before strings are read, and reals are judged after that. `OverflowError` also where the charstrings or the
/// private dicts pass the bound on bytes, found before the table is written; a table that is answered may pass it with its
/// other parts.
pub fn subset(
    alloc: Global,
    table: &[u8],
    mapper: &GlyphRemapper,
    limits: Limits,
) -> Result<CffPieces, Error>
    // What is answered is a subset of the table, laid out byte for byte.
    ensures ok { IfOk result (λ new. IsSubsetLaidOut table.now limits.tokens limits.depth mapper.now (table_bytes new)) }
    // And then the source has no fault.
    ensures clean { IfOk result (λ new. (e : SpecError) → HasCffFault table.now limits.tokens limits.depth mapper.now e → ⊥) }
    // What is refused has a fault of that name, or the bound on bytes is set and the new table would pass it.
    ensures err { IfErr result (λ e. (e ≡ OutOfMemory) ⊎ (HasCffFault table.now limits.tokens limits.depth mapper.now e ⊎ ((e ≡ OverflowError) × IsTooLong limits.bytes length (cff_subset table.now limits.tokens limits.depth mapper.now)))) }
    // Both are what the plain way gives.
    ensures exact { GivesWithin table_bytes limits.bytes length result (cff_subset table.now limits.tokens limits.depth mapper.now) }
{
    let _count = mapper.num_gids();
    let _depth = limits.depth();
    subset_exactly(alloc, table, mapper, limits)
}
