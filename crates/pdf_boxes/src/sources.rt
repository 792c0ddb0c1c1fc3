//! The boxes of glyphs whose charstrings may call subroutines (Technical Note 5176, section 14; Technical Note 5177).

ghost use Rattle.std.specs.Prelude.{◌≡◌, None, Some, Ok, IfOk, IfErr};
ghost use Rattle.std.specs.Option.{option_copied, option_map};
ghost use Rattle.std.specs.Result.{result_ok};
ghost use Rattle.subsetter_base.specs.Gives.{Gives};
ghost use Rattle.subsetter_base.specs.declared.error.Error.TheVariants.{OutOfMemory};
ghost use Rattle.subsetter_type2.specs.Flat.{flat_form};
ghost use Rattle.subsetter_cff.specs.Read.Cff.{char_string};
ghost use Rattle.subsetter_cff.specs.Read.FdArray.Private.{private_of};
ghost use Rattle.subsetter_cff.specs.Read.FdArray.PrivateView.{private_view};
ghost use Rattle.subsetter_cff.specs.Read.Source.{cff_of, IsSource};
ghost use Rattle.subsetter_cff.specs.Read.GlyphTrace.{library};
ghost use Rattle.subsetter_cff.specs.Write.Plain.{source_number};
ghost use Rattle.pdf_boxes.specs.SourceBox.{drawn_box, glyph_top, glyph_tops, run_box, top_in, top_or_zero, tops_in};

use pdf_cff::unless_memory;
use std::alloc::Global;
use subsetter_base::Error;
use subsetter_boxes::flat_box;
use subsetter_cff::read::source::{SIDMetadata, Table};
use subsetter_cff::write::glyphs::kept_glyphs::source_number;
use subsetter_points::Bounds;
use subsetter_type2::charstring::Decompiler;
use subsetter_type2::limits::Limits;
use subsetter_type2::subroutines::SubroutineHandler;

/// A charstring without its subroutines, of any size.
#[tactic(auto, using(crate::proofs::Unbounded::unbounded))]
fn flattened<'a>(
    alloc: Global,
    global: SubroutineHandler<'a>,
    local: SubroutineHandler<'a>,
    limits: Limits,
    charstring: &'a [u8],
) -> Result<Vec<u8>, Error>
    requires { limits.bytes ≡ None }
    ensures { Gives (λ v. v.items) result (flat_form (record { global = global.entry; local = local.entry }) limits.tokens limits.depth charstring.now) }
{
    Decompiler::with_limits(global, local, limits).flatten(alloc, charstring)
}

/// A charstring without its subroutines, within these limits on a run; none where it can't be run.
fn flat_of<'a>(
    alloc: Global,
    table: &Table<'a>,
    limits: &Limits,
    private: SIDMetadata<'a>,
    charstring: &'a [u8],
) -> Result<Option<Vec<u8>>, Error>
    ensures value { Gives (λ flat. option_map (λ v. v.items) flat) result (Ok (result_ok (flat_form (library (cff_of table.now) (private_view private.entry)) limits.now.tokens limits.now.depth charstring.now))) }
    ensures err { IfErr result (λ e. e ≡ OutOfMemory) }
{
    let Some(own) = Limits::new(limits.tokens(), limits.depth()) else {
        return Ok(None);
    };
    let global = SubroutineHandler::new(table.front.subroutines);
    let local = SubroutineHandler::new(private.subroutines);
    match flattened(alloc, global, local, own, charstring) {
        Ok(flat) => Ok(Some(flat)),
        Err(error) => {
            unless_memory(error)?;
            Ok(None)
        }
    }
}

/// The box of a charstring under a private dict.
#[tactic(auto, unfolding(crate::specs::SourceBox::run_box))]
fn run_box<'a>(
    alloc: Global,
    table: &Table<'a>,
    limits: &Limits,
    private: SIDMetadata<'a>,
    charstring: &'a [u8],
) -> Result<Option<Bounds>, Error>
    ensures value { Gives (λ b. b) result (Ok (run_box (cff_of table.now) limits.now (private_view private.entry) charstring.now)) }
    ensures err { IfErr result (λ e. e ≡ OutOfMemory) }
{
    match flat_of(alloc, table, limits, private, charstring)? {
        Some(flat) => flat_box(&flat),
        None => Ok(None),
    }
}

/// The private dict of a glyph, by the number of its font dict.
fn private_by<'a>(table: &Table<'a>, glyph: u16, number: u8) -> Option<SIDMetadata<'a>>
    requires source { IsSource table.now }
    requires number { source_number (cff_of table.now) glyph ≡ Some number }
    ensures { option_map private_view result ≡ private_of (cff_of table.now) glyph }
{
    match &table.cid {
        None => Some(table.private),
        Some(parts) => {
            let font_dict = parts.font_dicts.get(number as usize)?;
            Some(font_dict.private)
        }
    }
}

/// The private dict of a glyph.
fn private_of<'a>(table: &Table<'a>, glyph: u16) -> Option<SIDMetadata<'a>>
    requires { IsSource table.now }
    ensures { option_map private_view result ≡ private_of (cff_of table.now) glyph }
{
    match source_number(table, glyph) {
        Some(number) => private_by(table, glyph, number),
        None => None,
    }
}

/// The charstring of a glyph.
fn charstring_of<'a>(table: &Table<'a>, glyph: u16) -> Option<&'a [u8]>
    requires { IsSource table.now }
    ensures { option_copied result ≡ char_string (cff_of table.now) glyph }
{
    table.char_strings.get(u32::from(glyph))
}

/// The box of a glyph.
#[tactic(auto, unfolding(crate::specs::SourceBox::drawn_box))]
fn drawn_box(
    alloc: Global,
    table: &Table<'_>,
    limits: &Limits,
    glyph: u16,
) -> Result<Option<Bounds>, Error>
    requires { IsSource table.now }
    ensures value { Gives (λ b. b) result (Ok (drawn_box (cff_of table.now) limits.now glyph)) }
    ensures err { IfErr result (λ e. e ≡ OutOfMemory) }
{
    let Some(charstring) = charstring_of(table, glyph) else {
        return Ok(None);
    };
    let Some(private) = private_of(table, glyph) else {
        return Ok(None);
    };
    run_box(alloc, table, limits, private, charstring)
}

/// The top of a glyph's box.
fn top_in(
    alloc: Global,
    table: &Table<'_>,
    limits: &Limits,
    glyph: u16,
) -> Result<Option<i16>, Error>
    requires { IsSource table.now }
    ensures value { Gives (λ top. top) result (Ok (top_in (cff_of table.now) limits.now glyph)) }
    ensures err { IfErr result (λ e. e ≡ OutOfMemory) }
{
    let Some(bounds) = drawn_box(alloc, table, limits, glyph)? else {
        return Ok(None);
    };
    Ok(Some(bounds.y_max))
}

/// The top of a glyph's box; 0 where the glyph has no box.
fn top_or_zero(alloc: Global, table: &Table<'_>, limits: &Limits, glyph: u16) -> Result<i16, Error>
    requires { IsSource table.now }
    ensures value { Gives (λ top. top) result (Ok (top_or_zero (cff_of table.now) limits.now glyph)) }
    ensures err { IfErr result (λ e. e ≡ OutOfMemory) }
{
    match top_in(alloc, table, limits, glyph)? {
        Some(top) => Ok(top),
        None => Ok(0),
    }
}

/// Those of glyphs.
fn tops_in(
    alloc: Global,
    table: &Table<'_>,
    limits: &Limits,
    glyphs: &[u16],
) -> Result<Vec<i16>, Error>
    requires { IsSource table.now }
    ensures ok { IfOk result (λ tops. tops.items ≡ tops_in (cff_of table.now) limits.now glyphs.now) }
    ensures err { IfErr result (λ e. e ≡ OutOfMemory) }
{
    let mut tops = Vec::with_capacity(alloc, glyphs.len())?;
    for glyph in glyphs {
        tops.push(top_or_zero(alloc, table, limits, *glyph)?)?;
    }
    Ok(tops)
}

/// The top of the box around the outline of a glyph of a `CFF ` table, around its control points too, in the font's units. There is
/// none where the outline is empty, its charstring can't be run within these limits on a run, or a point isn't of 16 bits.
///
/// # Errors
///
/// `OutOfMemory` alone.
pub fn glyph_top(
    alloc: Global,
    bytes: &[u8],
    limits: &Limits,
    glyph: u16,
) -> Result<Option<i16>, Error>
    ensures value { Gives (λ top. top) result (Ok (glyph_top bytes.now limits.now glyph)) }
    ensures err { IfErr result (λ e. e ≡ OutOfMemory) }
{
    match Table::parse(alloc, bytes) {
        Ok(table) => top_in(alloc, &table, limits, glyph),
        Err(error) => {
            unless_memory(error)?;
            Ok(None)
        }
    }
}

/// Those of glyphs, 0 where there is none; no list of a table that can't be opened.
///
/// # Errors
///
/// `OutOfMemory` alone.
pub fn glyph_tops(
    alloc: Global,
    bytes: &[u8],
    limits: &Limits,
    glyphs: &[u16],
) -> Result<Vec<i16>, Error>
    ensures ok { IfOk result (λ tops. tops.items ≡ glyph_tops bytes.now limits.now glyphs.now) }
    ensures err { IfErr result (λ e. e ≡ OutOfMemory) }
{
    match Table::parse(alloc, bytes) {
        Ok(table) => tops_in(alloc, &table, limits, glyphs),
        Err(error) => {
            unless_memory(error)?;
            Ok(Vec::new(alloc))
        }
    }
}
