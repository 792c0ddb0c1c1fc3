//! The glyphs in use, with their texts.

ghost use Rattle.std.specs.Prelude.{◌≡◌, drop, take, map, slice_index, IfOk, IfErr};
ghost use Rattle.subsetter_base.specs.declared.error.Error.TheVariants.{OutOfMemory};
ghost use Rattle.subset_pdf.specs.Shown.{entries_of, entry_of};

use pdf_font::Shown;
use std::alloc::Global;
use subsetter_base::Error;

/// The first `count` characters of a text, or all where there are fewer, and the others.
fn cut(text: &[char], count: usize) -> (&[char], &[char])
    ensures text { result.0.now ≡ take count text.now }
    ensures others { result.1.now ≡ drop count text.now }
{
    if count < text.len() {
        (&text[..count], &text[count..])
    } else {
        (text, &[])
    }
}

/// The first number, 0 where there is none, and the others.
fn take_number(numbers: &[usize]) -> (usize, &[usize])
    ensures number { result.0 ≡ slice_index numbers.now 0 }
    ensures others { result.1.now ≡ drop 1 numbers.now }
{
    match numbers {
        [] => (0, numbers),
        [number, others @ ..] => (*number, others),
    }
}

/// Glyphs in use, in order, each with its text: the next of the characters, as many as its length says.
///
/// # Errors
///
/// `OutOfMemory` alone.
pub fn shown_of<'a>(
    alloc: Global,
    text: &'a [char],
    lengths: &[usize],
    glyphs: &[u16],
) -> Result<Vec<Shown<'a>>, Error>
    ensures ok { IfOk result (λ shown. map entry_of shown.items ≡ entries_of text.now lengths.now glyphs.now) }
    ensures err { IfErr result (λ e. e ≡ OutOfMemory) }
{
    let mut shown = Vec::with_capacity(alloc, glyphs.len())?;
    let mut rest = text;
    let mut left = lengths;
    for glyph in glyphs {
        let (count, fewer) = take_number(left);
        let (text, others) = cut(rest, count);
        shown.push(Shown {
            glyph: *glyph,
            text,
        })?;
        rest = others;
        left = fewer;
    }
    Ok(shown)
}
