//! A plan from the font that is read to the PDF, the font and the numbers that are written.

ghost use Rattle.std.specs.Prelude.{◌≡◌, ◌⊎◌, IfErr, OnOk, IsErrOf};
ghost use Rattle.subset_font.specs.Making.Carried.{IsBeforeWriting, IsFailureOf, WritesFont, WritesAll};
ghost use Rattle.subset_task.specs.declared.refusals.failure.Failure.TheVariants.{Write as CannotWrite, WritePdf as CannotWritePdf, Output};

use crate::making::outcome::make_planned;
use crate::output::emit;
use std::alloc::Global;
use std::io::{Read, Write};
use subset_task::reading::read_whole;
use subset_task::refusals::failure::Failure;
use subset_task::task::Plan;

/// Reads the font from the reader, writes the PDF of its glyphs to one writer, if one is requested, its subset to another, and
/// the new numbers to the third. The bytes that were read are kept. Memory for `room` bytes is reserved at once.
///
/// `Read` where the reader fails; `Error`, `NoMapping` or `NoInstance` where the glyphs or the font are refused, or the font
/// has no widths that are requested; `NotPermitted` where it may not be embedded into the PDF, `TextTooLong` where it would show a
/// glyph with too long a text; `WritePdf`, `Write` and `Output` where a writer fails. A writer is first used when all is made.
pub fn carry_out<R: Read, P: Write, W: Write, L: Write>(
    alloc: Global,
    plan: &Plan<'_>,
    reader: &mut R,
    room: usize,
    source: &mut Vec<u8>,
    page: &mut P,
    output: &mut W,
    lines: &mut L,
) -> Result<(), Failure>
    ensures ok { OnOk result (WritesAll plan.now (R.remaining reader.old) (P.contents page.old) (P.contents page.new) (W.contents output.old) (W.contents output.new) (L.contents lines.old) (L.contents lines.new)) }
    // All writers are as they were where the font can't be read or is refused.
    ensures page_kept { IfErr result (λ e. IsBeforeWriting e → page.new ≡ page.old) }
    ensures output_kept { IfErr result (λ e. IsBeforeWriting e → output.new ≡ output.old) }
    ensures lines_kept { IfErr result (λ e. IsBeforeWriting e → lines.new ≡ lines.old) }
    // Nothing else is written before the whole PDF.
    ensures no_font { IsErrOf result Failure.WritePdf → output.new ≡ output.old }
    ensures no_line { IsErrOf result Failure.WritePdf → lines.new ≡ lines.old }
    // No line is written before the whole font.
    ensures unwritten { IsErrOf result Failure.Write → lines.new ≡ lines.old }
    ensures written { IsErrOf result Failure.Output → WritesFont plan.now (R.remaining reader.old) (W.contents output.old) (W.contents output.new) }
    // Why nothing is written.
    ensures err { IfErr result (λ e. IsFailureOf plan.now (R.remaining reader.old) e ⊎ ((e ≡ CannotWritePdf) ⊎ ((e ≡ CannotWrite) ⊎ (e ≡ Output)))) }
{
    let font = read_whole(alloc, reader, room)?;
    *source = font;
    match make_planned(alloc, source, plan) {
        Ok(outcome) => emit(&outcome, plan.task.form, page, output, lines),
        Err(failure) => Err(failure),
    }
}
