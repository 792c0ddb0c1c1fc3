//! CMaps from codes to CIDs (ISO 32000-1, 9.7.5).

ghost use Rattle.std.specs.Prelude.{◌≡◌, ◌++◌, IfOk, IfErr, OnOk, length, map, codes, All, Some};
ghost use Rattle.subsetter_base.specs.declared.error.Error.TheVariants.{OutOfMemory};
ghost use Rattle.pdf_text.specs.Cmaps.Blocks.{row_text, rows_text, block, blocks};
ghost use Rattle.pdf_text.specs.Cmaps.Encoding.{encoding_front, encoding_text, codes_in, IsPair, CodesAreRead};
ghost use Rattle.pdf_text.specs.View.{pairs_view, cid_row};

use crate::cmaps::lines::{block_size, write_count, write_hex};
use std::alloc::Global;
use subsetter_base::Error;

/// A code, and the CID that it leads to.
#[derive(Clone, Copy)]
pub struct CidOfCode {
    pub code: u16,
    pub cid: u16,
}

/// Writes the line of a code.
#[tactic(auto, using(crate::proofs::Written::four_written))]
fn write_line(text: &mut Vec<u8>, pair: CidOfCode) -> Result<(), Error>
    ensures ok { OnOk result (text.new.items ≡ text.old.items ++ row_text (cid_row pair)) }
    ensures err { IfErr result (λ e. e ≡ OutOfMemory) }
{
    write_hex(text, &[pair.code])?;
    text.extend_from_slice(b" ")?;
    write_count(text, pair.cid as usize)?;
    text.extend_from_slice(b"\n")?;
    Ok(())
}

/// Writes a line for each code.
#[tactic(auto, using(crate::proofs::Written::one_more_written))]
fn write_lines(text: &mut Vec<u8>, pairs: &[CidOfCode]) -> Result<(), Error>
    ensures ok { OnOk result (text.new.items ≡ text.old.items ++ rows_text (map cid_row pairs.now)) }
    ensures err { IfErr result (λ e. e ≡ OutOfMemory) }
{
    for pair in pairs {
        write_line(text, *pair)?;
    }
    Ok(())
}

/// Writes a block.
fn write_block(text: &mut Vec<u8>, pairs: &[CidOfCode]) -> Result<(), Error>
    ensures ok { OnOk result (text.new.items ≡ text.old.items ++ block (codes "cidchar") (map cid_row pairs.now)) }
    ensures err { IfErr result (λ e. e ≡ OutOfMemory) }
{
    write_count(text, pairs.len())?;
    text.extend_from_slice(b" begincidchar\n")?;
    write_lines(text, pairs)?;
    text.extend_from_slice(b"endcidchar\n")?;
    Ok(())
}

/// Writes blocks of at most 100 lines.
pub fn write_blocks(text: &mut Vec<u8>, pairs: &[CidOfCode]) -> Result<(), Error>
    ensures ok { OnOk result (text.new.items ≡ text.old.items ++ blocks (codes "cidchar") (length pairs.now) (map cid_row pairs.now)) }
    ensures err { IfErr result (λ e. e ≡ OutOfMemory) }
{
    let mut rest = pairs;
    while rest.len() > 0 {
        let n = block_size(rest.len());
        write_block(text, &rest[..n])?;
        rest = &rest[n..];
    }
    Ok(())
}

/// Writes what comes before the blocks.
#[tactic(auto, unfolding(crate::specs::Cmaps::Encoding::encoding_front))]
fn write_front(text: &mut Vec<u8>, vertical: bool) -> Result<(), Error>
    ensures ok { OnOk result (text.new.items ≡ text.old.items ++ encoding_front vertical) }
    ensures err { IfErr result (λ e. e ≡ OutOfMemory) }
{
    if vertical {
        text.extend_from_slice(
            b"/CIDInit /ProcSet findresource begin\n12 dict begin\nbegincmap\n/CIDSystemInfo << /Registry (Adobe) /Ordering (Identity) /Supplement 0 >> def\n/CMapName /Chosen-V def\n/CMapType 1 def\n/WMode 1 def\n1 begincodespacerange\n<0000> <FFFF>\nendcodespacerange\n",
        )?;
        return Ok(());
    }
    text.extend_from_slice(
        b"/CIDInit /ProcSet findresource begin\n12 dict begin\nbegincmap\n/CIDSystemInfo << /Registry (Adobe) /Ordering (Identity) /Supplement 0 >> def\n/CMapName /Chosen-H def\n/CMapType 1 def\n1 begincodespacerange\n<0000> <FFFF>\nendcodespacerange\n",
    )?;
    Ok(())
}

/// The text of the CMap.
fn text_of(alloc: Global, vertical: bool, pairs: &[CidOfCode]) -> Result<Vec<u8>, Error>
    ensures ok { IfOk result (λ text. text.items ≡ encoding_text vertical (pairs_view pairs.now)) }
    ensures err { IfErr result (λ e. e ≡ OutOfMemory) }
{
    let mut text = Vec::new(alloc);
    write_front(&mut text, vertical)?;
    write_blocks(&mut text, pairs)?;
    text.extend_from_slice(b"endcmap\nCMapName currentdict /CMap defineresource pop\nend\nend\n")?;
    Ok(text)
}

/// The CMap from codes to CIDs, of horizontal or of vertical writing: a `cidchar` line for each.
///
/// # Errors
///
/// `OutOfMemory` alone.
pub fn write_encoding(alloc: Global, vertical: bool, pairs: &[CidOfCode]) -> Result<Vec<u8>, Error>
    ensures ok { IfOk result (λ text. text.items ≡ encoding_text vertical (pairs_view pairs.now)) }
    ensures read { IfOk result (λ text. All IsPair (pairs_view pairs.now) → codes_in text.items ≡ Some (pairs_view pairs.now)) }
    ensures err { IfErr result (λ e. e ≡ OutOfMemory) }
{
    text_of(alloc, vertical, pairs)
}

/// What a reader of the CMap finds is what was to be written.
pub fn codes_are_read()
    ensures { CodesAreRead }
{}
