//! CMaps from codes to CIDs, under a name that their lines determine (ISO 32000-1, 9.7.5.3).

ghost use Rattle.std.specs.Prelude.{◌≡◌, ◌++◌, IfOk, IfErr, OnOk, All, Some};
ghost use Rattle.subsetter_base.specs.declared.error.Error.TheVariants.{OutOfMemory};
ghost use Rattle.pdf_text.specs.Cmaps.CmapName.{name_front, name_back, code_space, code_lines, mode_end, name_of_codes, named_text, NamedCodesAreRead};
ghost use Rattle.pdf_text.specs.Cmaps.Encoding.{codes_in, IsPair};
ghost use Rattle.pdf_text.specs.SubsetName.{tag_of};
ghost use Rattle.pdf_text.specs.View.{pairs_view};

use crate::cmaps::encoding::{CidOfCode, write_blocks};
use crate::tag::tag_of;
use std::alloc::Global;
use subsetter_base::Error;

/// A CMap: its name, and its text.
#[derive(Drop)]
pub struct NamedCmap {
    pub name: Vec<u8>,
    pub text: Vec<u8>,
}

/// The lines from `begincodespacerange` on.
#[tactic(auto, unfolding(crate::specs::Cmaps::CmapName::code_space), using(crate::proofs::CmapsLaws::NamedSteps::lines_written))]
fn code_lines(alloc: Global, pairs: &[CidOfCode]) -> Result<Vec<u8>, Error>
    ensures ok { IfOk result (λ text. text.items ≡ code_lines (pairs_view pairs.now)) }
    ensures err { IfErr result (λ e. e ≡ OutOfMemory) }
{
    let mut text = Vec::new(alloc);
    text.extend_from_slice(b"1 begincodespacerange\n<0000> <FFFF>\nendcodespacerange\n")?;
    write_blocks(&mut text, pairs)?;
    text.extend_from_slice(b"endcmap\nCMapName currentdict /CMap defineresource pop\nend\nend\n")?;
    Ok(text)
}

/// The end of a CMap's name, by its writing mode.
fn mode_end(vertical: bool) -> &'static [u8]
    ensures { result.now ≡ mode_end vertical }
{
    if vertical { b"-V" } else { b"-H" }
}

/// The name of a CMap with these lines.
#[tactic(auto, using(crate::proofs::Pieces::two_after_nothing))]
fn name_of(alloc: Global, vertical: bool, lines: &[u8]) -> Result<Vec<u8>, Error>
    ensures ok { IfOk result (λ name. name.items ≡ tag_of lines.now ++ mode_end vertical) }
    ensures err { IfErr result (λ e. e ≡ OutOfMemory) }
{
    let mut name = Vec::new(alloc);
    name.extend_from_slice(&tag_of(lines))?;
    name.extend_from_slice(mode_end(vertical))?;
    Ok(name)
}

/// Writes what comes before the name.
#[tactic(auto, unfolding(crate::specs::Cmaps::CmapName::name_front))]
fn write_front(text: &mut Vec<u8>) -> Result<(), Error>
    ensures ok { OnOk result (text.new.items ≡ text.old.items ++ name_front) }
    ensures err { IfErr result (λ e. e ≡ OutOfMemory) }
{
    text.extend_from_slice(
        b"/CIDInit /ProcSet findresource begin\n12 dict begin\nbegincmap\n/CIDSystemInfo << /Registry (Adobe) /Ordering (Identity) /Supplement 0 >> def\n/CMapName /",
    )?;
    Ok(())
}

/// Writes what comes after the name.
#[tactic(auto, unfolding(crate::specs::Cmaps::CmapName::name_back))]
fn write_back(text: &mut Vec<u8>, vertical: bool) -> Result<(), Error>
    ensures ok { OnOk result (text.new.items ≡ text.old.items ++ name_back vertical) }
    ensures err { IfErr result (λ e. e ≡ OutOfMemory) }
{
    if vertical {
        text.extend_from_slice(b" def\n/CMapType 1 def\n/WMode 1 def\n")?;
        return Ok(());
    }
    text.extend_from_slice(b" def\n/CMapType 1 def\n")?;
    Ok(())
}

/// The text of a CMap with a name.
#[tactic(auto, using(crate::proofs::Pieces::four_after_nothing))]
fn text_of(alloc: Global, vertical: bool, name: &[u8], lines: &[u8]) -> Result<Vec<u8>, Error>
    ensures ok { IfOk result (λ text. text.items ≡ name_front ++ (name.now ++ (name_back vertical ++ lines.now))) }
    ensures err { IfErr result (λ e. e ≡ OutOfMemory) }
{
    let mut text = Vec::new(alloc);
    write_front(&mut text)?;
    text.extend_from_slice(name)?;
    write_back(&mut text, vertical)?;
    text.extend_from_slice(lines)?;
    Ok(text)
}

/// The name and the text of a CMap.
fn cmap_of(alloc: Global, vertical: bool, pairs: &[CidOfCode]) -> Result<NamedCmap, Error>
    ensures name { IfOk result (λ c. c.name.items ≡ name_of_codes vertical (pairs_view pairs.now)) }
    ensures text { IfOk result (λ c. c.text.items ≡ named_text vertical (pairs_view pairs.now)) }
    ensures err { IfErr result (λ e. e ≡ OutOfMemory) }
{
    let lines = code_lines(alloc, pairs)?;
    let name = name_of(alloc, vertical, &lines)?;
    let text = text_of(alloc, vertical, &name, &lines)?;
    Ok(NamedCmap { name, text })
}

/// The CMap from codes to CIDs, of horizontal or of vertical writing: a `cidchar` line for each. Its name has six letters that its
/// lines determine, so that different CMaps of a file seldom share one.
///
/// # Errors
///
/// `OutOfMemory` alone.
pub fn write_named_encoding(
    alloc: Global,
    vertical: bool,
    pairs: &[CidOfCode],
) -> Result<NamedCmap, Error>
    ensures name { IfOk result (λ c. c.name.items ≡ name_of_codes vertical (pairs_view pairs.now)) }
    ensures text { IfOk result (λ c. c.text.items ≡ named_text vertical (pairs_view pairs.now)) }
    ensures read { IfOk result (λ c. All IsPair (pairs_view pairs.now) → codes_in c.text.items ≡ Some (pairs_view pairs.now)) }
    ensures err { IfErr result (λ e. e ≡ OutOfMemory) }
{
    cmap_of(alloc, vertical, pairs)
}

/// What a reader of the CMap finds is what was to be written.
pub fn named_codes_are_read()
    ensures { NamedCodesAreRead }
{}
