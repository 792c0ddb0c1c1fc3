//! A text that is read without shaping, handed to C.

ghost use Rattle.std.specs.Prelude.{◌≡◌, ◌⊎◌, IfOk, IfErr, IfSome, Ok, Err, None, false, true};
ghost use Rattle.subsetter_base.specs.declared.error.Error.TheVariants.{OutOfMemory};
ghost use Rattle.subsetter_sfnt.specs.Extras.{all_extras};
ghost use Rattle.subsetter_sfnt.specs.FontAt.{font_at};
ghost use Rattle.text_glyphs.specs.Reading.{entries_of, missing_in};
ghost use Rattle.text_glyphs.specs.View.{source_view};
ghost use Rattle.subsetter_pdf_c.specs.Entries.{are_scalars};
ghost use Rattle.subsetter_c.specs.Answers.Status.{invalid_text, no_cmap};
ghost use Rattle.subsetter_c.specs.Documents.Reading.{IsReadBy, IsReadHanded, IsReadMade, IsNothingRead, read_sizes};

use crate::answers::handing::begin_with;
use crate::answers::status::{DONE, INVALID_TEXT, NO_CMAP, TOO_SMALL, status_of};
use crate::characters::source_for;
use std::alloc::Global;
use subsetter::Error;
use subsetter_pdf_c::{are_scalars, characters_of};
use text_glyphs::{Entry, ReadText, TextSource, read_text};

/// How many entries there are, and how many places of what the font lacks.
#[derive(Clone, Copy)]
#[repr(C)]
pub struct ReadSizes {
    pub entries: usize,
    pub missing: usize,
}

impl ReadSizes {
    /// Of nothing.
    pub const NONE: ReadSizes = ReadSizes {
        entries: 0,
        missing: 0,
    };
}

/// The sizes of what is handed over.
fn sizes_of(read: &ReadText) -> ReadSizes
    ensures { result ≡ read_sizes read.now }
{
    ReadSizes {
        entries: read.entries.len(),
        missing: read.missing.len(),
    }
}

/// A text that is read.
fn read_by(alloc: Global, source: &TextSource<'_>, text: &[u32]) -> Result<ReadText, Error>
    requires { are_scalars text.now ≡ true }
    ensures entries { IfOk result (λ read. read.entries.items ≡ entries_of (source_view source.now) text.now) }
    ensures missing { IfOk result (λ read. read.missing.items ≡ missing_in (source_view source.now) text.now) }
    ensures err { IfErr result (λ e. e ≡ OutOfMemory) }
{
    let characters = characters_of(alloc, text)?;
    Ok(read_text(alloc, source, &characters)?)
}

/// Hands a text over that is read, or the error: the status. The sizes are reported also where a buffer is too small.
fn hand_read(
    answer: Result<ReadText, Error>,
    entries: &mut [Entry],
    missing: &mut [usize],
    told: &mut ReadSizes,
) -> u32
    ensures { IsReadHanded (λ read. answer ≡ Ok read) (λ e. answer ≡ Err e) (record { entries = entries.old; missing = missing.old }) (record { entries = entries.new; missing = missing.new }) told.new result }
{
    let read = match answer {
        Ok(read) => read,
        Err(error) => {
            *told = ReadSizes::NONE;
            return status_of(error);
        }
    };
    *told = sizes_of(&read);
    if read.entries.len() > entries.len() || read.missing.len() > missing.len() {
        return TOO_SMALL;
    }
    begin_with(entries, &read.entries);
    begin_with(missing, &read.missing);
    DONE
}

/// Hands a text over that is read by these tables, if there are any: the status.
fn hand_read_by(
    alloc: Global,
    source: Option<TextSource<'_>>,
    text: &[u32],
    entries: &mut [Entry],
    missing: &mut [usize],
    told: &mut ReadSizes,
) -> u32
    requires { are_scalars text.now ≡ true }
    ensures none { source.entry ≡ None → IsNothingRead no_cmap (record { entries = entries.old; missing = missing.old }) (record { entries = entries.new; missing = missing.new }) told.new result }
    ensures some { IfSome source.entry (λ s. IsReadHanded (IsReadBy (source_view s) text.now) (λ e. e ≡ OutOfMemory) (record { entries = entries.old; missing = missing.old }) (record { entries = entries.new; missing = missing.new }) told.new result) }
{
    match source {
        Some(source) => hand_read(read_by(alloc, &source, text), entries, missing, told),
        None => {
            *told = ReadSizes::NONE;
            NO_CMAP
        }
    }
}

/// A text read without shaping, by the font's `cmap`, in the caller's buffers: entries, each a glyph with the places of its
/// characters in the text, and the places of what the font lacks. Neither has more than the text has characters.
///
/// Status 0: each buffer begins with its list, and the rest of it is unchanged. Status 8: a buffer is too small, both are unchanged,
/// and `told` are the exact sizes. Status 12: a number is no character; status 13: the font has no table by which characters have
/// glyphs; status 1, 2 or 7: an error; nothing is written, and the sizes are 0.
#[unsafe(no_mangle)]
pub extern "C" fn subsetter_read_text(
    alloc: Global,
    font: &[u8],
    index: u32,
    text: &[u32],
    entries: &mut [Entry],
    missing: &mut [usize],
    told: &mut ReadSizes,
) -> u32
    ensures no_text { are_scalars text.now ≡ false → IsNothingRead invalid_text (record { entries = entries.old; missing = missing.old }) (record { entries = entries.new; missing = missing.new }) told.new result }
    ensures read { are_scalars text.now ≡ true → IsReadMade (font_at font.now index all_extras) text.now (record { entries = entries.old; missing = missing.old }) (record { entries = entries.new; missing = missing.new }) told.new result }
{
    if !are_scalars(text) {
        *told = ReadSizes::NONE;
        return INVALID_TEXT;
    }
    match source_for(font, index) {
        Ok(source) => hand_read_by(alloc, source, text, entries, missing, told),
        Err(error) => {
            *told = ReadSizes::NONE;
            status_of(error)
        }
    }
}
