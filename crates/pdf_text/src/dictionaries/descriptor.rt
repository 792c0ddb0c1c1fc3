//! A font descriptor (ISO 32000-1, 9.8).

ghost use Rattle.std.specs.Prelude.{◌≡◌, ◌++◌, IfErr, OnOk, codes};
ghost use Rattle.subsetter_base.specs.declared.error.Error.TheVariants.{OutOfMemory};
ghost use Rattle.pdf_text.specs.Numbers.{thousandths};
ghost use Rattle.pdf_text.specs.Dictionaries.Descriptor.{x_height_entry, program_key, cid_set_entry, heading_entries, line_entries, letter_entries, height_entries, weight_entries, descriptor_entries};
ghost use Rattle.pdf_text.specs.Dictionaries.Entries.{entry};

use crate::dictionaries::entries::{
    write_name, write_number, write_numbers, write_reference, write_signed,
};
use crate::numbers::write_thousandths;
use crate::values::{Descriptor, FontValues, ProgramKind, References};
use subsetter_base::Error;

/// Writes ItalicAngle.
fn write_angle(text: &mut Vec<u8>, descriptor: Descriptor<'_>) -> Result<(), Error>
    ensures ok { OnOk result (text.new.items ≡ text.old.items ++ entry (codes "ItalicAngle") (thousandths descriptor.entry.italic_angle)) }
    ensures err { IfErr result (λ e. e ≡ OutOfMemory) }
{
    text.extend_from_slice(b"/ItalicAngle ")?;
    write_thousandths(text, descriptor.italic_angle)?;
    text.extend_from_slice(b" ")?;
    Ok(())
}

/// Writes name, flags, box and angle.
fn write_heading(text: &mut Vec<u8>, descriptor: Descriptor<'_>) -> Result<(), Error>
    ensures ok { OnOk result (text.new.items ≡ text.old.items ++ heading_entries descriptor.entry) }
    ensures err { IfErr result (λ e. e ≡ OutOfMemory) }
{
    text.extend_from_slice(b"/Type /FontDescriptor ")?;
    write_name(text, b"FontName", descriptor.font_name)?;
    write_number(text, b"Flags", descriptor.flags)?;
    write_numbers(text, b"FontBBox", &descriptor.bounds)?;
    write_angle(text, descriptor)?;
    Ok(())
}

/// Writes XHeight, if there is one.
fn write_x_height(text: &mut Vec<u8>, x_height: Option<i32>) -> Result<(), Error>
    ensures ok { OnOk result (text.new.items ≡ text.old.items ++ x_height_entry x_height) }
    ensures err { IfErr result (λ e. e ≡ OutOfMemory) }
{
    match x_height {
        Some(z) => write_signed(text, b"XHeight", z),
        None => Ok(()),
    }
}

/// Writes Ascent and Descent.
#[tactic(auto, using(crate::proofs::Pieces::two_signed))]
fn write_line(text: &mut Vec<u8>, descriptor: Descriptor<'_>) -> Result<(), Error>
    ensures ok { OnOk result (text.new.items ≡ text.old.items ++ line_entries descriptor.entry) }
    ensures err { IfErr result (λ e. e ≡ OutOfMemory) }
{
    write_signed(text, b"Ascent", descriptor.ascent)?;
    write_signed(text, b"Descent", descriptor.descent)?;
    Ok(())
}

/// Writes the heights of letters.
fn write_letters(text: &mut Vec<u8>, descriptor: Descriptor<'_>) -> Result<(), Error>
    ensures ok { OnOk result (text.new.items ≡ text.old.items ++ letter_entries descriptor.entry) }
    ensures err { IfErr result (λ e. e ≡ OutOfMemory) }
{
    write_signed(text, b"CapHeight", descriptor.cap_height)?;
    write_x_height(text, descriptor.x_height)?;
    Ok(())
}

/// Writes the heights.
#[tactic(auto, using(crate::proofs::Pieces::two_written))]
fn write_heights(text: &mut Vec<u8>, descriptor: Descriptor<'_>) -> Result<(), Error>
    ensures ok { OnOk result (text.new.items ≡ text.old.items ++ height_entries descriptor.entry) }
    ensures err { IfErr result (λ e. e ≡ OutOfMemory) }
{
    write_line(text, descriptor)?;
    write_letters(text, descriptor)?;
    Ok(())
}

/// Writes StemV and FontWeight.
#[tactic(auto, using(crate::proofs::Pieces::two_written))]
fn write_weight(text: &mut Vec<u8>, descriptor: Descriptor<'_>) -> Result<(), Error>
    ensures ok { OnOk result (text.new.items ≡ text.old.items ++ weight_entries descriptor.entry) }
    ensures err { IfErr result (λ e. e ≡ OutOfMemory) }
{
    write_number(text, b"StemV", descriptor.stem_v)?;
    write_number(text, b"FontWeight", u32::from(descriptor.font_weight))
}

/// The key of a font program.
fn program_key(kind: ProgramKind) -> &'static [u8]
    ensures { result.now ≡ program_key kind }
{
    match kind {
        ProgramKind::TrueType => b"FontFile2",
        ProgramKind::BareCff | ProgramKind::OpenType => b"FontFile3",
    }
}

/// Writes CIDSet, if there is one.
fn write_cid_set(text: &mut Vec<u8>, has_cid_set: bool, n: u32) -> Result<(), Error>
    ensures ok { OnOk result (text.new.items ≡ text.old.items ++ cid_set_entry has_cid_set n) }
    ensures err { IfErr result (λ e. e ≡ OutOfMemory) }
{
    if has_cid_set {
        write_reference(text, b"CIDSet", n)
    } else {
        Ok(())
    }
}

/// Writes the entries of the font descriptor.
pub fn write_descriptor(
    text: &mut Vec<u8>,
    values: FontValues<'_>,
    references: References,
) -> Result<(), Error>
    ensures ok { OnOk result (text.new.items ≡ text.old.items ++ descriptor_entries values.entry references) }
    ensures err { IfErr result (λ e. e ≡ OutOfMemory) }
{
    write_heading(text, values.descriptor)?;
    write_heights(text, values.descriptor)?;
    write_weight(text, values.descriptor)?;
    write_reference(text, program_key(values.kind), references.program)?;
    write_cid_set(text, values.cid_set.is_some(), references.cid_set)?;
    Ok(())
}
