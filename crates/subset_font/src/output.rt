//! What a run writes.

ghost use Rattle.std.specs.Prelude.{◌≡◌, ◌⊎◌, OnOk, IfErr, IsErrOf};
ghost use Rattle.std.specs.Io.KnownBytes.{Appends};
ghost use Rattle.subset_font.specs.Making.Sheet.{page_of};
ghost use Rattle.subset_font.specs.Report.{report_of};
ghost use Rattle.subset_task.specs.declared.refusals.failure.Failure.TheVariants.{Write as CannotWrite, WritePdf as CannotWritePdf, Output};

use crate::making::outcome::Outcome;
use std::io::Write;
use subset_lines::{Numbering, write_json, write_lines};
use subset_pdf::Sheet;
use subset_task::refusals::failure::Failure;
use subset_task::task::Form;

/// Writes the PDF, if there is one, to one writer, then the font to another, and then the new numbers to the third.
///
/// `WritePdf` where the first writer fails, `Write` where the second does, and `Output` where the third does.
pub fn emit<P: Write, W: Write, L: Write>(
    outcome: &Outcome<'_>,
    form: Form,
    page: &mut P,
    output: &mut W,
    lines: &mut L,
) -> Result<(), Failure>
    ensures page { OnOk result (Appends (P.contents page.old) (P.contents page.new) (page_of outcome.now.sheet)) }
    ensures font { OnOk result (Appends (W.contents output.old) (W.contents output.new) outcome.now.made.font.items) }
    ensures lines { OnOk result (Appends (L.contents lines.old) (L.contents lines.new) (report_of form outcome.now)) }
    // Nothing else is written before the whole PDF.
    ensures no_font { IsErrOf result Failure.WritePdf → output.new ≡ output.old }
    ensures no_line { IsErrOf result Failure.WritePdf → lines.new ≡ lines.old }
    // No line is written before the whole font.
    ensures unwritten { IsErrOf result Failure.Write → lines.new ≡ lines.old }
    ensures written { IsErrOf result Failure.Output → Appends (W.contents output.old) (W.contents output.new) outcome.now.made.font.items }
    ensures err { IfErr result (λ e. (e ≡ CannotWritePdf) ⊎ ((e ≡ CannotWrite) ⊎ (e ≡ Output))) }
{
    write_page(&outcome.sheet, page)?;
    write_font(&outcome.made.font, output)?;
    write_numbers(outcome, form, lines)
}

/// Writes the PDF, if there is one, and passes on what the writer keeps back.
pub fn write_page<P: Write>(sheet: &Option<Sheet>, page: &mut P) -> Result<(), Failure>
    ensures bytes { OnOk result (Appends (P.contents page.old) (P.contents page.new) (page_of sheet.now)) }
    ensures err { IfErr result (λ e. e ≡ CannotWritePdf) }
{
    let Some(sheet) = sheet else {
        return Ok(());
    };
    if page.write_all(&sheet.file).is_err() || page.flush().is_err() {
        return Err(Failure::WritePdf);
    }
    Ok(())
}

/// Writes the font, and passes on what the writer keeps back.
pub fn write_font<W: Write>(font: &[u8], output: &mut W) -> Result<(), Failure>
    ensures bytes { OnOk result (Appends (W.contents output.old) (W.contents output.new) font.now) }
    ensures err { IfErr result (λ e. e ≡ CannotWrite) }
{
    if output.write_all(font).is_err() || output.flush().is_err() {
        return Err(Failure::Write);
    }
    Ok(())
}

/// Writes the new numbers.
pub fn write_numbers<L: Write>(
    outcome: &Outcome<'_>,
    form: Form,
    lines: &mut L,
) -> Result<(), Failure>
    ensures bytes { OnOk result (Appends (L.contents lines.old) (L.contents lines.new) (report_of form outcome.now)) }
    ensures err { IfErr result (λ e. e ≡ Output) }
{
    let made = &outcome.made;
    let numbering = Numbering {
        characters: &made.picked.characters,
        names: &outcome.names,
        glyphs: &made.picked.glyphs,
        mapper: &made.mapper,
    };
    let written = match form {
        Form::Lines => write_lines(&numbering, &made.text, &outcome.more, lines),
        Form::Json => write_json(&numbering, &made.text, &outcome.more, lines),
        Form::Silence => Ok(()),
    };
    written.map_err(|_| Failure::Output)
}
