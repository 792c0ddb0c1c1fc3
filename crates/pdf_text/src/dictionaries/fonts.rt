//! A composite font and its CIDFont (ISO 32000-1, 9.7.4 and 9.7.6).

ghost use Rattle.std.specs.Prelude.{◌≡◌, ◌++◌, IfErr, OnOk, codes, is_some};
ghost use Rattle.subsetter_base.specs.declared.error.Error.TheVariants.{OutOfMemory};
ghost use Rattle.pdf_text.specs.Dictionaries.Entries.{reference, array, entry};
ghost use Rattle.pdf_text.specs.Dictionaries.Fonts.{base_font, cmap_name, name_end, identity_name, encoding_value, font_entries, cid_font_kind, map_value, glyph_map, cid_font_entries, cid_heading};
ghost use Rattle.pdf_text.specs.Dictionaries.Widths.{IsRefused};

use crate::dictionaries::entries::{write_entry, write_name, write_reference, write_reference_to};
use crate::dictionaries::widths::write_metrics;
use crate::values::{FontValues, OwnCmap, ProgramKind, References};
use std::alloc::Global;
use subsetter_base::Error;

// ---- the font

/// The predefined CMap that leads each code to the CID of its number.
fn identity_name(vertical: bool) -> &'static [u8]
    ensures { result.now ≡ identity_name vertical }
{
    if vertical {
        b"Identity-V"
    } else {
        b"Identity-H"
    }
}

/// The name of a font's CMap.
fn cmap_name(encoding: Option<OwnCmap<'_>>, vertical: bool) -> &[u8]
    ensures { result.now ≡ cmap_name encoding.entry vertical }
{
    match encoding {
        Some(cmap) => cmap.name,
        None => identity_name(vertical),
    }
}

/// Writes what comes after the name of a font with CFF outlines.
#[tactic(auto, using(crate::proofs::Pieces::two_written))]
fn write_name_end(text: &mut Vec<u8>, kind: ProgramKind, cmap: &[u8]) -> Result<(), Error>
    ensures ok { OnOk result (text.new.items ≡ text.old.items ++ name_end kind cmap.now) }
    ensures err { IfErr result (λ e. e ≡ OutOfMemory) }
{
    match kind {
        ProgramKind::TrueType => Ok(()),
        ProgramKind::BareCff | ProgramKind::OpenType => {
            text.extend_from_slice(b"-")?;
            text.extend_from_slice(cmap)?;
            Ok(())
        }
    }
}

/// Writes the name of the composite font.
#[tactic(auto, using(crate::proofs::Pieces::two_written))]
fn write_base_font(text: &mut Vec<u8>, values: FontValues<'_>) -> Result<(), Error>
    ensures ok { OnOk result (text.new.items ≡ text.old.items ++ base_font values.entry) }
    ensures err { IfErr result (λ e. e ≡ OutOfMemory) }
{
    text.extend_from_slice(values.descriptor.font_name)?;
    write_name_end(
        text,
        values.kind,
        cmap_name(values.encoding, values.columns.is_some()),
    )
}

/// Writes Encoding.
fn write_encoding(text: &mut Vec<u8>, values: FontValues<'_>, n: u32) -> Result<(), Error>
    ensures ok { OnOk result (text.new.items ≡ text.old.items ++ entry (codes "Encoding") (encoding_value values.entry.encoding (is_some values.entry.columns) n)) }
    ensures err { IfErr result (λ e. e ≡ OutOfMemory) }
{
    match values.encoding {
        Some(_) => write_reference(text, b"Encoding", n),
        None => write_name(text, b"Encoding", identity_name(values.columns.is_some())),
    }
}

/// Writes BaseFont.
#[tactic(auto, using(crate::proofs::Written::three_written))]
fn write_font_name(text: &mut Vec<u8>, values: FontValues<'_>) -> Result<(), Error>
    ensures ok { OnOk result (text.new.items ≡ text.old.items ++ entry (codes "BaseFont") (codes "/" ++ base_font values.entry)) }
    ensures err { IfErr result (λ e. e ≡ OutOfMemory) }
{
    text.extend_from_slice(b"/BaseFont /")?;
    write_base_font(text, values)?;
    text.extend_from_slice(b" ")?;
    Ok(())
}

/// Writes DescendantFonts.
fn write_descendant(text: &mut Vec<u8>, n: u32) -> Result<(), Error>
    ensures ok { OnOk result (text.new.items ≡ text.old.items ++ entry (codes "DescendantFonts") (codes "[" ++ (reference n ++ codes "]"))) }
    ensures err { IfErr result (λ e. e ≡ OutOfMemory) }
{
    text.extend_from_slice(b"/DescendantFonts [")?;
    write_reference_to(text, n)?;
    text.extend_from_slice(b"] ")?;
    Ok(())
}

/// Writes the entries of the composite font.
#[tactic(auto, using(crate::proofs::Written::five_written))]
pub fn write_font(
    text: &mut Vec<u8>,
    values: FontValues<'_>,
    references: References,
) -> Result<(), Error>
    ensures ok { OnOk result (text.new.items ≡ text.old.items ++ font_entries values.entry references) }
    ensures err { IfErr result (λ e. e ≡ OutOfMemory) }
{
    text.extend_from_slice(b"/Type /Font /Subtype /Type0 ")?;
    write_font_name(text, values)?;
    write_encoding(text, values, references.encoding)?;
    write_descendant(text, references.cid_font)?;
    write_reference(text, b"ToUnicode", references.to_unicode)
}

// ---- the CIDFont

/// The kind of a CIDFont.
fn cid_font_kind(kind: ProgramKind) -> &'static [u8]
    ensures { result.now ≡ cid_font_kind kind }
{
    match kind {
        ProgramKind::TrueType => b"/CIDFontType2",
        ProgramKind::BareCff | ProgramKind::OpenType => b"/CIDFontType0",
    }
}

/// Writes CIDToGIDMap: a stream, or that each CID is the number of a glyph.
fn write_map(text: &mut Vec<u8>, map: Option<&[u8]>, n: u32) -> Result<(), Error>
    ensures ok { OnOk result (text.new.items ≡ text.old.items ++ entry (codes "CIDToGIDMap") (map_value (is_some map.entry) n)) }
    ensures err { IfErr result (λ e. e ≡ OutOfMemory) }
{
    match map {
        Some(_) => write_reference(text, b"CIDToGIDMap", n),
        None => write_entry(text, b"CIDToGIDMap", b"/Identity"),
    }
}

/// Writes CIDToGIDMap, for TrueType outlines.
fn write_glyph_map(text: &mut Vec<u8>, values: FontValues<'_>, n: u32) -> Result<(), Error>
    ensures ok { OnOk result (text.new.items ≡ text.old.items ++ glyph_map values.entry.kind (is_some values.entry.cid_to_gid_map) n) }
    ensures err { IfErr result (λ e. e ≡ OutOfMemory) }
{
    match values.kind {
        ProgramKind::TrueType => write_map(text, values.cid_to_gid_map, n),
        ProgramKind::BareCff | ProgramKind::OpenType => Ok(()),
    }
}

/// Writes the kind and the name of a CIDFont.
#[tactic(auto, using(crate::proofs::Written::three_written))]
fn write_cid_heading(text: &mut Vec<u8>, kind: ProgramKind, name: &[u8]) -> Result<(), Error>
    ensures ok { OnOk result (text.new.items ≡ text.old.items ++ cid_heading kind name.now) }
    ensures err { IfErr result (λ e. e ≡ OutOfMemory) }
{
    text.extend_from_slice(b"/Type /Font ")?;
    write_entry(text, b"Subtype", cid_font_kind(kind))?;
    write_name(text, b"BaseFont", name)
}

/// Writes the entries of the CIDFont.
///
/// # Errors
///
/// - `OverflowError`: there are more columns than CIDs.
/// - `OutOfMemory`: a request for memory was refused.
#[tactic(auto, using(crate::proofs::Written::five_written))]
pub fn write_cid_font(
    alloc: Global,
    text: &mut Vec<u8>,
    values: FontValues<'_>,
    references: References,
) -> Result<(), Error>
    ensures ok { OnOk result (text.new.items ≡ text.old.items ++ cid_font_entries values.entry references) }
    ensures err { IfErr result (IsRefused values.entry.columns) }
{
    write_cid_heading(text, values.kind, values.descriptor.font_name)?;
    text.extend_from_slice(
        b"/CIDSystemInfo << /Registry (Adobe) /Ordering (Identity) /Supplement 0 >> ",
    )?;
    write_reference(text, b"FontDescriptor", references.descriptor)?;
    write_glyph_map(text, values, references.cid_to_gid_map)?;
    write_metrics(alloc, text, values)
}
