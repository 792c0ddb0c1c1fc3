//! The text of each code.

ghost use Rattle.std.specs.Prelude.{◌≡◌, ◌≤◌, ◌<◌, ◌∷◌, ◌==◌, ℕ, List, length, All, IfOk, IfErr, if◌then◌else◌, map, slice_index_or, replicate, [], Some};
ghost use Rattle.subsetter_base.specs.declared.error.Error.TheVariants.{OutOfMemory};
ghost use Rattle.pdf_text.specs.View.{line_view, lines_view};
ghost use Rattle.pdf_text.specs.Cmaps.Cmap.{IsLine, Line, cmap_text};
ghost use Rattle.pdf_codes.specs.Cmaps.Texts.{first_text, is_line_found, joiner, limit, lines_of_codes, is_found, said_by, table_lines, text_in};
ghost use Rattle.subsetter_base.specs.Texts.{or_else, views};

use pdf_text::{Mapping, write_to_unicode};
use std::alloc::Global;
use subsetter_base::Error;

/// One more than the greatest code.
fn limit_of(lines: &[Mapping<'_>]) -> usize
    ensures exact { result ≡ limit (lines_view lines.now) }
    ensures small { result ≤ 65536 }
{
    let mut limit = 0;
    for line in lines {
        limit = limit.max(usize::from(line.code) + 1);
    }
    limit
}

/// A table in which no code has a text.
fn no_texts<'a>(alloc: Global, count: usize) -> Result<Vec<&'a [u16]>, Error>
    ensures ok { IfOk result (λ texts. views texts.items ≡ replicate count []) }
    ensures err { IfErr result (λ e. e ≡ OutOfMemory) }
{
    let empty: &'a [u16] = &[];
    let mut texts = Vec::with_capacity(alloc, count)?;
    for place in 0..count {
        texts.push(empty)?;
    }
    Ok(texts)
}

/// Notes the text of a line, unless an earlier line of its code has one.
#[tactic(auto, using(crate::proofs::CmapsLaws::TextSteps::written_in, crate::proofs::CmapsLaws::TextSteps::kept_in))]
fn put<'a>(texts: &mut Vec<&'a [u16]>, line: Mapping<'a>)
    requires { line.code < length texts.old.items }
    ensures len { length texts.new.items ≡ length texts.old.items }
    ensures put { (k : ℕ) (rest : List Line) → or_else (slice_index_or (views texts.new.items) k []) (first_text rest k) ≡ or_else (slice_index_or (views texts.old.items) k []) (first_text (line_view line.entry ∷ rest) k) }
{
    let code = usize::from(line.code);
    if texts[code].is_empty() {
        texts[code] = line.units;
    }
}

/// The first text of each code below a limit.
#[tactic(auto, using(crate::proofs::CmapsLaws::TextSteps::text_begun, crate::proofs::CmapsLaws::TextSteps::text_done))]
fn first_texts<'a>(
    alloc: Global,
    lines: &[Mapping<'a>],
    bound: usize,
) -> Result<Vec<&'a [u16]>, Error>
    requires { bound ≡ limit (lines_view lines.now) }
    ensures len { IfOk result (λ texts. length texts.items ≡ bound) }
    ensures ok { IfOk result (λ texts. (k : ℕ) → k < bound → slice_index_or (views texts.items) k [] ≡ first_text (lines_view lines.now) k) }
    ensures err { IfErr result (λ e. e ≡ OutOfMemory) }
{
    let mut texts = no_texts(alloc, bound)?;
    for line in lines {
        put(&mut texts, *line);
    }
    Ok(texts)
}

/// The line of a code, whose text isn't empty.
fn line_of(code: usize, units: &[u16]) -> Mapping<'_>
    requires code { code < 65536 }
    requires some { 0 < length units.now }
    ensures line { line_view result ≡ record { code = code; units = units.now } }
    ensures is_line { IsLine (line_view result) }
{
    Mapping {
        code: code as u16,
        units,
    }
}

/// The lines of a table, which has at most 65,536 codes.
#[tactic(auto, using(crate::proofs::CmapsLaws::TextSteps::line_added, crate::proofs::CmapsLaws::TextSteps::line_none, crate::proofs::CmapsLaws::TextSteps::line_is))]
fn lines_in<'a>(alloc: Global, texts: &[&'a [u16]]) -> Result<Vec<Mapping<'a>>, Error>
    requires { length texts.now ≤ 65536 }
    ensures ok { IfOk result (λ lines. lines_view lines.items ≡ table_lines 0 (views texts.now)) }
    ensures are_lines { IfOk result (λ lines. All IsLine (lines_view lines.items)) }
    ensures err { IfErr result (λ e. e ≡ OutOfMemory) }
{
    let mut lines = Vec::new(alloc);
    for place in 0..texts.len() {
        let units = texts[place];
        if !units.is_empty() {
            lines.push(line_of(place, units))?;
        }
    }
    Ok(lines)
}

/// Whether readers find a text, where its code has this one.
fn is_found(text: &[u16], units: &[u16]) -> bool
    ensures { result ≡ is_found text.now units.now }
{
    1 <= units.len() && units.len() <= 8 && text == units
}

/// Whether readers find the text of each line by its code.
#[tactic(auto, using(crate::proofs::CmapsLaws::TextSteps::text_found))]
fn all_found(alloc: Global, lines: &[Mapping<'_>], texts: &[&[u16]]) -> Result<Vec<bool>, Error>
    requires len { length texts.now ≡ limit (lines_view lines.now) }
    requires are { (k : ℕ) → k < length texts.now → slice_index_or (views texts.now) k [] ≡ first_text (lines_view lines.now) k }
    ensures ok { IfOk result (λ said. said.items ≡ map (is_line_found (lines_view lines.now)) (lines_view lines.now)) }
    ensures err { IfErr result (λ e. e ≡ OutOfMemory) }
{
    let mut said = Vec::with_capacity(alloc, lines.len())?;
    for line in lines {
        said.push(is_found(texts[usize::from(line.code)], line.units))?;
    }
    Ok(said)
}

/// U+2060 (word joiner), which has no ink and breaks no word; code 0 has none.
fn joiner(code: u16) -> &'static [u16]
    ensures { result.now ≡ joiner code }
{
    if code == 0 { &[] } else { &[0x2060] }
}

/// Notes U+2060 for a code without a text.
fn put_joiner(texts: &mut Vec<&[u16]>, code: u16)
    requires { code < length texts.old.items }
    ensures len { length texts.new.items ≡ length texts.old.items }
    ensures put { (k : ℕ) → slice_index_or (views texts.new.items) k [] ≡ or_else (slice_index_or (views texts.old.items) k []) (if code == k then joiner code else []) }
{
    put(
        texts,
        Mapping {
            code,
            units: joiner(code),
        },
    );
}

/// Notes U+2060 for each code of the lines that has no text.
fn put_joiners(texts: &mut Vec<&[u16]>, lines: &[Mapping<'_>])
    requires len { length texts.old.items ≡ limit (lines_view lines.now) }
    requires are { (k : ℕ) → k < length texts.old.items → slice_index_or (views texts.old.items) k [] ≡ first_text (lines_view lines.now) k }
    ensures len { length texts.new.items ≡ length texts.old.items }
    ensures put { (k : ℕ) → k < length texts.new.items → slice_index_or (views texts.new.items) k [] ≡ said_by (lines_view lines.now) k }
{
    for line in lines {
        put_joiner(texts, line.code);
    }
}

/// The texts of codes, as a PDF has them.
#[derive(Drop)]
pub struct Texts {
    /// The ToUnicode CMap.
    pub to_unicode: Vec<u8>,
    /// Whether readers find the text of a line by its code.
    pub is_said: Vec<bool>,
}

/// The ToUnicode CMap of codes with their texts, in which a code has its first text that isn't empty, else U+2060 (code 0
/// nothing), and of each line whether readers find its text there.
///
/// # Errors
///
/// `OutOfMemory` alone.
#[tactic(auto, using(crate::proofs::CmapsLaws::TextSteps::lines_are, crate::proofs::CmapsLaws::ReadBack::text_back))]
pub fn texts_for(alloc: Global, lines: &[Mapping<'_>]) -> Result<Texts, Error>
    ensures cmap { IfOk result (λ texts. texts.to_unicode.items ≡ cmap_text (lines_of_codes (lines_view lines.now))) }
    ensures said { IfOk result (λ texts. texts.is_said.items ≡ map (is_line_found (lines_view lines.now)) (lines_view lines.now)) }
    // The CMap is read: each code has what it says.
    ensures read { IfOk result (λ texts. (k : ℕ) → text_in texts.to_unicode.items k ≡ Some (said_by (lines_view lines.now) k)) }
    ensures err { IfErr result (λ e. e ≡ OutOfMemory) }
{
    let mut texts = first_texts(alloc, lines, limit_of(lines))?;
    let is_said = all_found(alloc, lines, &texts)?;
    put_joiners(&mut texts, lines);
    let written = lines_in(alloc, &texts)?;
    let to_unicode = write_to_unicode(alloc, &written)?;
    Ok(Texts {
        to_unicode,
        is_said,
    })
}
