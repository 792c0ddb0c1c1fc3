//! What is in the dictionaries of streams: of a font program (ISO 32000-1, 9.9) and of a CMap (9.7.5.3).

ghost use Rattle.std.specs.Prelude.{◌≡◌, ◌++◌, IfErr, OnOk};
ghost use Rattle.subsetter_base.specs.declared.error.Error.TheVariants.{OutOfMemory};
ghost use Rattle.pdf_text.specs.Dictionaries.Entries.{entry};
ghost use Rattle.pdf_text.specs.Dictionaries.Streams.{program_entries, mode_entry, own_cmap_entries, cmap_entries};

use crate::dictionaries::entries::{write_entry, write_name, write_size};
use crate::values::{OwnCmap, ProgramKind};
use subsetter_base::Error;

/// Writes the entries of a font program of `size` bytes, except Length.
pub fn write_program(text: &mut Vec<u8>, kind: ProgramKind, size: usize) -> Result<(), Error>
    ensures ok { OnOk result (text.new.items ≡ text.old.items ++ program_entries kind size) }
    ensures err { IfErr result (λ e. e ≡ OutOfMemory) }
{
    match kind {
        ProgramKind::TrueType => write_size(text, b"Length1", size),
        ProgramKind::BareCff => write_name(text, b"Subtype", b"CIDFontType0C"),
        ProgramKind::OpenType => write_name(text, b"Subtype", b"OpenType"),
    }
}

/// Writes WMode, for vertical writing.
fn write_mode(text: &mut Vec<u8>, vertical: bool) -> Result<(), Error>
    ensures ok { OnOk result (text.new.items ≡ text.old.items ++ mode_entry vertical) }
    ensures err { IfErr result (λ e. e ≡ OutOfMemory) }
{
    if vertical {
        write_entry(text, b"WMode", b"1")
    } else {
        Ok(())
    }
}

/// Writes the entries of a CMap.
#[tactic(auto, using(crate::proofs::Written::four_written))]
fn write_own_cmap(text: &mut Vec<u8>, name: &[u8], vertical: bool) -> Result<(), Error>
    ensures ok { OnOk result (text.new.items ≡ text.old.items ++ own_cmap_entries name.now vertical) }
    ensures err { IfErr result (λ e. e ≡ OutOfMemory) }
{
    text.extend_from_slice(b"/Type /CMap ")?;
    write_name(text, b"CMapName", name)?;
    text.extend_from_slice(
        b"/CIDSystemInfo << /Registry (Adobe) /Ordering (Identity) /Supplement 0 >> ",
    )?;
    write_mode(text, vertical)
}

/// Writes the entries of the CMap of a font's own, but for Length.
pub fn write_cmap(
    text: &mut Vec<u8>,
    encoding: Option<OwnCmap<'_>>,
    vertical: bool,
) -> Result<(), Error>
    ensures ok { OnOk result (text.new.items ≡ text.old.items ++ cmap_entries encoding.entry vertical) }
    ensures err { IfErr result (λ e. e ≡ OutOfMemory) }
{
    match encoding {
        Some(cmap) => write_own_cmap(text, cmap.name, vertical),
        None => Ok(()),
    }
}
