//! Which glyphs have ink: those whose outline isn't empty.

ghost use Rattle.std.specs.Prelude.{◌≡◌, IfOk, IfErr, Ok};
ghost use Rattle.std.specs.Option.{option_map};
ghost use Rattle.subsetter_base.specs.Gives.{Gives};
ghost use Rattle.subsetter_base.specs.declared.error.Error.TheVariants.{OutOfMemory};
ghost use Rattle.subsetter_sfnt.specs.Read.{table_in};
ghost use Rattle.glyph_kinds.specs.Outlines.{has_outline};
ghost use Rattle.glyph_kinds.specs.View.{outlines_view};
ghost use Rattle.text_metrics.specs.Ink.{each_from, inked_in};

use glyph_kinds::{FaceOutlines, has_outline, outlines_in};
use std::alloc::Global;
use subsetter_base::Error;
use subsetter_sfnt::face::Face;

/// Whether each of the first `count` glyphs has an outline that isn't empty.
#[tactic(auto, using(crate::proofs::Each::each_more, crate::proofs::Each::each_done))]
fn outlined(
    alloc: Global,
    outlines: Option<FaceOutlines<'_>>,
    count: u16,
) -> Result<Vec<bool>, Error>
    ensures ok { IfOk result (λ v. v.items ≡ each_from (has_outline (option_map outlines_view outlines.entry)) 0 count) }
    ensures err { IfErr result (λ e. e ≡ OutOfMemory) }
{
    let mut inked = Vec::with_capacity(alloc, usize::from(count))?;
    for glyph in 0..count {
        inked.push(has_outline(outlines, glyph))?;
    }
    Ok(inked)
}

/// Whether each of the first `count` glyphs of a font has ink.
pub(crate) fn inked_in(alloc: Global, face: &Face<'_>, count: u16) -> Result<Vec<bool>, Error>
    ensures value { Gives (λ v. v.items) result (Ok (inked_in (table_in face.now.«data».now face.now.records.now) count)) }
    ensures err { IfErr result (λ e. e ≡ OutOfMemory) }
{
    let outlines = outlines_in(alloc, face)?;
    outlined(alloc, outlines, count)
}
