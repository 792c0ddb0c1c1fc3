//! ToUnicode CMaps (ISO 32000-1, 9.10.3).

ghost use Rattle.std.specs.Prelude.{◌≡◌, ◌++◌, ◌∷◌, [], IfOk, IfErr, OnOk, length, map, codes, All, Some};
ghost use Rattle.subsetter_base.specs.declared.error.Error.TheVariants.{OutOfMemory};
ghost use Rattle.pdf_text.specs.Cmaps.Blocks.{row_text, rows_text, block, blocks};
ghost use Rattle.pdf_text.specs.Cmaps.Cmap.{front, cmap_text, hex_string, mapping_in, IsLine, IsReadBack};
ghost use Rattle.pdf_text.specs.View.{lines_view, mapping_row};

use crate::cmaps::lines::{block_size, digits, write_count, write_hex};
use std::alloc::Global;
use subsetter_base::Error;

/// A code, and the UTF-16 units of its text.
#[derive(Clone, Copy)]
pub struct Mapping<'a> {
    pub code: u16,
    pub units: &'a [u16],
}

/// The line of a code whose text is one unit.
fn short_line(code: u16, unit: u16) -> [u8; 14]
    ensures { result ≡ hex_string (code ∷ []) ++ (codes " " ++ (hex_string (unit ∷ []) ++ codes "\n")) }
{
    let [a, b, c, d] = digits(code);
    let [e, f, g, h] = digits(unit);
    [b'<', a, b, c, d, b'>', b' ', b'<', e, f, g, h, b'>', b'\n']
}

/// Writes the line of a code.
#[tactic(auto, using(crate::proofs::Written::four_written))]
fn write_line(text: &mut Vec<u8>, mapping: Mapping<'_>) -> Result<(), Error>
    ensures ok { OnOk result (text.new.items ≡ text.old.items ++ row_text (mapping_row mapping.entry)) }
    ensures err { IfErr result (λ e. e ≡ OutOfMemory) }
{
    if let [unit] = mapping.units {
        text.extend_from_slice(&short_line(mapping.code, *unit))?;
        return Ok(());
    }
    write_hex(text, &[mapping.code])?;
    text.extend_from_slice(b" ")?;
    write_hex(text, mapping.units)?;
    text.extend_from_slice(b"\n")?;
    Ok(())
}

/// Writes a line for each code.
#[tactic(auto, using(crate::proofs::Written::one_more_written))]
fn write_lines(text: &mut Vec<u8>, mappings: &[Mapping<'_>]) -> Result<(), Error>
    ensures ok { OnOk result (text.new.items ≡ text.old.items ++ rows_text (map mapping_row mappings.now)) }
    ensures err { IfErr result (λ e. e ≡ OutOfMemory) }
{
    for mapping in mappings {
        write_line(text, *mapping)?;
    }
    Ok(())
}

/// Writes a block.
fn write_block(text: &mut Vec<u8>, mappings: &[Mapping<'_>]) -> Result<(), Error>
    ensures ok { OnOk result (text.new.items ≡ text.old.items ++ block (codes "bfchar") (map mapping_row mappings.now)) }
    ensures err { IfErr result (λ e. e ≡ OutOfMemory) }
{
    write_count(text, mappings.len())?;
    text.extend_from_slice(b" beginbfchar\n")?;
    write_lines(text, mappings)?;
    text.extend_from_slice(b"endbfchar\n")?;
    Ok(())
}

/// Writes blocks of at most 100 lines.
fn write_blocks(text: &mut Vec<u8>, mappings: &[Mapping<'_>]) -> Result<(), Error>
    ensures ok { OnOk result (text.new.items ≡ text.old.items ++ blocks (codes "bfchar") (length mappings.now) (map mapping_row mappings.now)) }
    ensures err { IfErr result (λ e. e ≡ OutOfMemory) }
{
    let mut rest = mappings;
    while rest.len() > 0 {
        let n = block_size(rest.len());
        write_block(text, &rest[..n])?;
        rest = &rest[n..];
    }
    Ok(())
}

/// Writes what comes before the blocks.
#[tactic(auto, unfolding(crate::specs::Cmaps::Cmap::front))]
fn write_front(text: &mut Vec<u8>) -> Result<(), Error>
    ensures ok { OnOk result (text.new.items ≡ text.old.items ++ front) }
    ensures err { IfErr result (λ e. e ≡ OutOfMemory) }
{
    text.extend_from_slice(
        b"/CIDInit /ProcSet findresource begin\n12 dict begin\nbegincmap\n/CIDSystemInfo << /Registry (Adobe) /Ordering (UCS) /Supplement 0 >> def\n/CMapName /Adobe-Identity-UCS def\n/CMapType 2 def\n1 begincodespacerange\n<0000> <FFFF>\nendcodespacerange\n",
    )?;
    Ok(())
}

/// The text of the CMap.
fn text_of(alloc: Global, mappings: &[Mapping<'_>]) -> Result<Vec<u8>, Error>
    ensures ok { IfOk result (λ text. text.items ≡ cmap_text (lines_view mappings.now)) }
    ensures err { IfErr result (λ e. e ≡ OutOfMemory) }
{
    let mut text = Vec::new(alloc);
    write_front(&mut text)?;
    write_blocks(&mut text, mappings)?;
    text.extend_from_slice(b"endcmap\nCMapName currentdict /CMap defineresource pop\nend\nend\n")?;
    Ok(text)
}

/// The ToUnicode CMap of codes and their texts: a `bfchar` line for each.
///
/// # Errors
///
/// `OutOfMemory` alone.
pub fn write_to_unicode(alloc: Global, mappings: &[Mapping<'_>]) -> Result<Vec<u8>, Error>
    ensures ok { IfOk result (λ text. text.items ≡ cmap_text (lines_view mappings.now)) }
    ensures read { IfOk result (λ text. All IsLine (lines_view mappings.now) → mapping_in text.items ≡ Some (lines_view mappings.now)) }
    ensures err { IfErr result (λ e. e ≡ OutOfMemory) }
{
    text_of(alloc, mappings)
}

/// What a reader of the CMap finds is what was to be written.
pub fn cmap_is_read()
    ensures { IsReadBack }
{}
