//! A new font whose `CFF ` has the advances of `hmtx` as its widths (ISO 19005-2, 6.2.11.5).

ghost use Rattle.std.specs.Prelude.{◌≡◌, ℕ, List, Some, IfOk, IfErr};
ghost use Rattle.std.specs.Option.{option_map};
ghost use Rattle.std.specs.Result.{result_ok};
ghost use Rattle.subsetter_base.specs.declared.error.Error.TheVariants.{OutOfMemory};
ghost use Rattle.subsetter_sfnt.specs.Laying.Rows.{present, rows};
ghost use Rattle.subsetter_sfnt.specs.Laying.Written.{kind_word};
ghost use Rattle.subsetter_sfnt.specs.Plain.{file_of};
ghost use Rattle.subsetter_sfnt.specs.Read.{table_in};
ghost use Rattle.subsetter_sfnt.specs.View.{font_seen};
ghost use Rattle.subsetter_sfnt.specs.declared.flavor.FontFlavor.TheVariants.{Cff};
ghost use Rattle.pdf_source.specs.Widened.{tables_with, unadjusted, widened, widened_by, widened_in};

use crate::boxed::{CHECKSUM_ADJUSTMENT, put};
use pdf_cff::unless_memory;
use pdf_widths::with_widths;
use std::alloc::Global;
use subsetter_base::{Error, Tag};
use subsetter_sfnt::extras::Extras;
use subsetter_sfnt::face::Face;
use subsetter_sfnt::flavor::FontFlavor;
use subsetter_sfnt::laying::construct::finish;
use subsetter_sfnt::laying::tables::{FontTables, in_order};
use subsetter_sfnt::parse::parse;

/// `head` with zeros in checkSumAdjustment; none of one that hasn't these bytes.
fn unadjusted(alloc: Global, head: &[u8]) -> Result<Option<Vec<u8>>, Error>
    ensures ok { IfOk result (λ o. option_map (λ v. v.items) o ≡ unadjusted head.now) }
    ensures err { IfErr result (λ e. e ≡ OutOfMemory) }
{
    if head.len() < 12 {
        return Ok(None);
    }
    let mut bytes = Vec::from_slice(alloc, head)?;
    put(&mut bytes, CHECKSUM_ADJUSTMENT, &[0; 4]);
    Ok(Some(bytes))
}

/// The tables of a file with outlines in `CFF `, with another one.
fn tables_with<'a>(face: &Face<'a>, head: &'a [u8], cff: &'a [u8]) -> FontTables<&'a [u8]>
    ensures { font_seen (λ bytes. bytes.now) result ≡ tables_with (table_in face.now.«data».now face.now.records.now) head.now cff.now }
{
    FontTables {
        cff: Some(cff),
        cvt: None,
        fpgm: None,
        glyf: None,
        head: Some(head),
        hhea: face.stored(Tag::HHEA),
        hmtx: face.stored(Tag::HMTX),
        loca: None,
        maxp: face.stored(Tag::MAXP),
        name: face.stored(Tag::NAME),
        post: face.stored(Tag::POST),
        prep: None,
    }
}

/// The file of these tables; none where an offset or a length is 2^32 or more.
fn laid_out(
    alloc: Global,
    face: &Face<'_>,
    head: &[u8],
    cff: &[u8],
) -> Result<Option<Vec<u8>>, Error>
    requires { (there : List ℕ) × (unadjusted there ≡ Some head.now) }
    ensures ok { IfOk result (λ o. option_map (λ v. v.items) o ≡ result_ok (file_of (kind_word Cff) (present (rows (tables_with (table_in face.now.«data».now face.now.records.now) head.now cff.now))))) }
    ensures err { IfErr result (λ e. e ≡ OutOfMemory) }
{
    let tables = tables_with(face, head, cff);
    let list = in_order(alloc, tables)?;
    match finish(alloc, FontFlavor::Cff, &list, None) {
        Ok(file) => Ok(Some(file)),
        Err(error) => {
            unless_memory(error)?;
            Ok(None)
        }
    }
}

/// The file with another `CFF `; none where each width is its glyph's advance.
#[tactic(auto, unfolding(crate::specs::Widened::widened_in))]
fn widened_in(alloc: Global, face: &Face<'_>, advances: &[u16]) -> Result<Option<Vec<u8>>, Error>
    ensures ok { IfOk result (λ o. option_map (λ v. v.items) o ≡ widened_in (table_in face.now.«data».now face.now.records.now) advances.now) }
    ensures err { IfErr result (λ e. e ≡ OutOfMemory) }
{
    let Some(cff) = face.stored(Tag::CFF) else {
        return Ok(None);
    };
    let Some(new) = with_widths(alloc, cff, advances)? else {
        return Ok(None);
    };
    let Some(there) = face.stored(Tag::HEAD) else {
        return Ok(None);
    };
    let Some(head) = unadjusted(alloc, there)? else {
        return Ok(None);
    };
    laid_out(alloc, face, &head, &new)
}

/// The file with another `CFF `; none where each width in the file's `CFF ` is its glyph's advance.
fn widened_by(alloc: Global, advances: &[u16], file: &[u8]) -> Result<Option<Vec<u8>>, Error>
    ensures ok { IfOk result (λ o. option_map (λ v. v.items) o ≡ widened_by advances.now file.now) }
    ensures err { IfErr result (λ e. e ≡ OutOfMemory) }
{
    match parse(file, 0, Extras::ALL) {
        Ok(face) => widened_in(alloc, &face, advances),
        Err(_) => Ok(None),
    }
}

/// A new font whose `CFF `, if it has one, has the advances of `hmtx` as its widths, in the font's units.
///
/// # Errors
///
/// `OutOfMemory` alone.
#[tactic(auto, unfolding(crate::specs::Widened::widened))]
pub fn widened(alloc: Global, advances: &[u16], file: Vec<u8>) -> Result<Vec<u8>, Error>
    ensures ok { IfOk result (λ v. v.items ≡ widened advances.now file.items) }
    ensures err { IfErr result (λ e. e ≡ OutOfMemory) }
{
    match widened_by(alloc, advances, &file)? {
        Some(new) => Ok(new),
        None => Ok(file),
    }
}
