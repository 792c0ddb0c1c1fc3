//! The subset of a font that was read.

ghost use Rattle.std.specs.Prelude.{◌≡◌, ◌⊎◌, [], ◌∷◌, IfOk, OnOk, IfErr};
ghost use Rattle.std.specs.Option.{option_map};
ghost use Rattle.cid_embed.specs.Embed.{numbering};
ghost use Rattle.subsetter_sfnt.specs.FontAt.{font_at};
ghost use Rattle.subsetter.specs.Bound.{IsWithin};
ghost use Rattle.subset_task.specs.Making.Picked.{picked_view};
ghost use Rattle.subset_task.specs.Making.Requested.{IsRequested};
ghost use Rattle.subset_font.specs.Making.Made.{face_of, taken_of, IsFaultless, IsFaultlessWithWidths, IsWidthText, IsTaken, IsMadeOf, IsMade, IsRefusal, IsRefusalOfWidths, IsUntaken, IsRefusedFace, IsRefusedTask, IsUnmade, width_text};
ghost use Rattle.subset_task.specs.declared.refusals.failure.Failure.TheVariants.{Error as Refused};
ghost use Rattle.subsetter_base.specs.declared.error.Error.TheVariants.{OutOfMemory};

use cid_embed::{Embedded, embed_with_options, write_widths};
use std::alloc::Global;
use subset_lines::json_numbers;
use subset_task::making::requested::{Picked, pick};
use subset_task::refusals::failure::Failure;
use subset_task::task::{Form, Task};
use subsetter::{Error, GlyphRemapper, subset_with_options};
use subsetter_variable::static_font;

/// What is made of a font.
#[derive(Drop)]
pub struct Made {
    /// The subset.
    pub font: Vec<u8>,
    /// What knows the new numbers.
    pub mapper: GlyphRemapper,
    /// The requested glyphs.
    pub picked: Picked,
    /// The text of the widths, which is empty where they aren't requested.
    pub text: Vec<u8>,
}

/// The text of widths.
fn text_of(alloc: Global, embedded: &Embedded, form: Form) -> Result<Vec<u8>, Error>
    ensures ok { IfOk result (λ text. text.items ≡ width_text form embedded.now.widths.items) }
    ensures err { IfErr result (λ e. e ≡ OutOfMemory) }
{
    match form {
        Form::Json => { json_numbers(alloc, &embedded.widths).map_err(|_| Error::OutOfMemory) }
        _ => write_widths(alloc, embedded),
    }
}

/// The subset for glyphs, and their new numbers.
fn make_plain(
    alloc: Global,
    font: &[u8],
    index: u32,
    task: &Task<'_>,
    glyphs: &[u16],
) -> Result<(Vec<u8>, GlyphRemapper), Error>
    ensures mapper { IfOk result (λ made. made.1 ≡ numbering glyphs.now) }
    ensures clean { IfOk result (λ made. IsFaultless task.now.options.limits.tokens task.now.options.limits.depth (font_at font.now index task.now.options.extras) glyphs.now made.0.items) }
    ensures within { IfOk result (λ made. IsWithin task.now.options.limits.bytes made.0.items) }
    ensures err { IfErr result (λ e. (e ≡ OutOfMemory) ⊎ IsRefusal task.now.options.limits.bytes task.now.options.limits.tokens task.now.options.limits.depth (font_at font.now index task.now.options.extras) glyphs.now e) }
{
    let mapper = GlyphRemapper::new_from_glyphs(alloc, glyphs)?;
    let subset = subset_with_options(alloc, font, index, &mapper, &task.options)?;
    Ok((subset, mapper))
}

/// The subset for glyphs, their new numbers, and the text of the widths.
fn make_with_widths(
    alloc: Global,
    font: &[u8],
    index: u32,
    task: &Task<'_>,
    glyphs: &[u16],
) -> Result<(Vec<u8>, GlyphRemapper, Vec<u8>), Error>
    ensures mapper { IfOk result (λ made. made.1 ≡ numbering glyphs.now) }
    ensures clean { IfOk result (λ made. IsFaultlessWithWidths task.now.options.limits.tokens task.now.options.limits.depth (font_at font.now index task.now.options.extras) glyphs.now made.0.items) }
    ensures within { IfOk result (λ made. IsWithin task.now.options.limits.bytes made.0.items) }
    ensures text { IfOk result (λ made. IsWidthText task.now.form (font_at font.now index task.now.options.extras) glyphs.now made.2.items) }
    ensures err { IfErr result (λ e. (e ≡ OutOfMemory) ⊎ IsRefusalOfWidths task.now.options.limits.bytes task.now.options.limits.tokens task.now.options.limits.depth (font_at font.now index task.now.options.extras) glyphs.now e) }
{
    let mapper = GlyphRemapper::new_from_glyphs(alloc, glyphs)?;
    let embedded = embed_with_options(alloc, font, index, glyphs, &task.options)?;
    let text = text_of(alloc, &embedded, task.form)?;
    Ok((embedded.font, mapper, text))
}

/// The subset of a face for the glyphs that were found.
fn make_face(
    alloc: Global,
    font: &[u8],
    index: u32,
    task: &Task<'_>,
    picked: Picked,
) -> Result<Made, Failure>
    ensures kept { IfOk result (λ made. made.picked ≡ picked) }
    ensures ok { IfOk result (IsMadeOf task.now (font_at font.now index task.now.options.extras) picked.glyphs.items) }
    ensures err { IfErr result (λ e. (e ≡ Refused OutOfMemory) ⊎ IsRefusedFace task.now (font_at font.now index task.now.options.extras) picked.glyphs.items e) }
{
    if task.widths {
        return match make_with_widths(alloc, font, index, task, &picked.glyphs) {
            Ok((font, mapper, text)) => Ok(Made {
                font,
                mapper,
                picked,
                text,
            }),
            Err(error) => Err(Failure::Error(error)),
        };
    }
    match make_plain(alloc, font, index, task, &picked.glyphs) {
        Ok((font, mapper)) => Ok(Made {
            font,
            mapper,
            picked,
            text: Vec::new(alloc),
        }),
        Err(error) => Err(Failure::Error(error)),
    }
}

/// The file of the static font that is taken for glyphs, where user coordinates are given and the font isn't at its default.
fn static_of(
    alloc: Global,
    font: &[u8],
    task: &Task<'_>,
    glyphs: &[u16],
) -> Result<Option<Vec<u8>>, Error>
    ensures ok { IfOk result (λ made. IsTaken task.now font.now glyphs.now (taken_of task.now font.now (option_map (λ file. file.items) made))) }
    ensures err { IfErr result (λ e. (e ≡ OutOfMemory) ⊎ IsUntaken task.now font.now glyphs.now e) }
{
    let Some(at) = task.at else {
        return Ok(None);
    };
    let mapper = GlyphRemapper::new_from_glyphs(alloc, glyphs)?;
    static_font(alloc, font, task.index, at, &mapper, &task.options.limits)
}

/// The subset for the glyphs that were found.
fn make_for(alloc: Global, font: &[u8], task: &Task<'_>, picked: Picked) -> Result<Made, Failure>
    requires { IsRequested (face_of task.now font.now) task.now.requested (picked_view picked) }
    ensures ok { IfOk result (IsMade task.now font.now) }
    ensures err { IfErr result (λ e. (e ≡ Refused OutOfMemory) ⊎ IsRefusedTask task.now font.now e) }
{
    match static_of(alloc, font, task, &picked.glyphs) {
        Ok(None) => make_face(alloc, font, task.index, task, picked),
        Ok(Some(file)) => make_face(alloc, &file, 0, task, picked),
        Err(error) => Err(Failure::Error(error)),
    }
}

/// What a task makes of the bytes of a font.
#[tactic(auto, using(crate::proofs::MakingLaws::Making::unasked_unmade, crate::proofs::MakingLaws::Making::refused_unmade))]
pub fn make_of(alloc: Global, font: &[u8], task: &Task<'_>) -> Result<Made, Failure>
    ensures ok { IfOk result (IsMade task.now font.now) }
    ensures err { IfErr result (IsUnmade task.now font.now) }
{
    match pick(alloc, font, task.index, &task.requested) {
        Ok(picked) => make_for(alloc, font, task, picked),
        Err(failure) => Err(failure),
    }
}
