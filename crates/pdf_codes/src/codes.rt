//! Codes of glyphs in use.

ghost use Rattle.std.specs.Prelude.{◌≡◌, ◌≤◌, ◌<◌, ◌⊎◌, length, map, IfOk, IfErr, IsSome, OnOk, Some, [], ◌∷◌, All};
ghost use Rattle.subsetter_base.specs.Indexes.{index_of, with_glyphs, HasAllAboveZero};
ghost use Rattle.subsetter_base.specs.Remap.{index_by, with_value};
ghost use Rattle.subsetter_base.specs.declared.error.Error.TheVariants.{OutOfMemory, OverflowError};
ghost use Rattle.pdf_text.specs.View.{lines_view};
ghost use Rattle.pdf_codes.specs.Codes.{AreCodes, IsOverfull, coded, glyphs_of, keyed, pairs_of, same, used_of};

use pdf_text::Mapping;
use std::alloc::Global;
use subsetter_base::remapper::Remapper;
use subsetter_base::{Error, GlyphRemapper};

/// How the glyphs in use get codes. Code 0 is that of glyph 0 in each.
#[derive(Clone, Copy, PartialEq, Eq)]
pub enum Codes {
    /// The codes are the CIDs: from 1 on, in order of use.
    Consecutive,
    /// The code of a glyph is its number in the font.
    Source,
    /// Each pair of a glyph and a text has a code: from 1 on, in order of use.
    EachText,
}

/// A glyph in use, and the UTF-16 units of its text.
#[derive(Clone, Copy, PartialEq, Eq, Hash)]
pub struct Entry<'a> {
    pub glyph: u16,
    pub units: &'a [u16],
}

/// The glyphs in use.
fn glyphs_in(alloc: Global, entries: &[Entry<'_>]) -> Result<Vec<u16>, Error>
    ensures ok { IfOk result (λ glyphs. glyphs.items ≡ glyphs_of (map used_of entries.now)) }
    ensures err { IfErr result (λ e. e ≡ OutOfMemory) }
{
    let mut glyphs = Vec::with_capacity(alloc, entries.len())?;
    for entry in entries {
        glyphs.push(entry.glyph)?;
    }
    Ok(glyphs)
}

/// The new numbers of glyphs, which the mapper knows.
fn numbers(alloc: Global, mapper: &GlyphRemapper, glyphs: &[u16]) -> Result<Vec<u16>, Error>
    requires { All (λ glyph. IsSome (index_of mapper.now glyph)) glyphs.now }
    ensures ok { IfOk result (λ numbers. map Some numbers.items ≡ map (index_of mapper.now) glyphs.now) }
    ensures err { IfErr result (λ e. e ≡ OutOfMemory) }
{
    let mut numbers = Vec::with_capacity(alloc, glyphs.len())?;
    for glyph in glyphs {
        numbers.push(mapper.get(*glyph).unwrap())?;
    }
    Ok(numbers)
}

/// The new numbers of glyphs: 0 for glyph 0, and consecutive in order of use.
fn consecutive(alloc: Global, glyphs: &[u16]) -> Result<Vec<u16>, Error>
    ensures ok { IfOk result (λ codes. map Some codes.items ≡ map (index_of (with_glyphs (0 ∷ []) glyphs.now)) glyphs.now) }
    ensures room { OnOk result (HasAllAboveZero glyphs.now → ⊥) }
    ensures err { IfErr result (λ e. (e ≡ OutOfMemory) ⊎ ((e ≡ OverflowError) × HasAllAboveZero glyphs.now)) }
{
    let mapper = GlyphRemapper::new_from_glyphs(alloc, glyphs)?;
    numbers(alloc, &mapper, glyphs)
}

/// A glyph and its text as a key: glyph 0 has no text.
fn keyed(entry: Entry<'_>) -> Entry<'_>
    ensures { used_of result ≡ keyed (used_of entry.entry) }
{
    if entry.glyph == 0 {
        Entry {
            glyph: 0,
            units: &[],
        }
    } else {
        entry
    }
}

/// The number of a pair, which goes last if it is new.
fn number_of<'a>(pairs: &mut Remapper<u16, Entry<'a>>, pair: Entry<'a>) -> Result<u16, Error>
    ensures list { OnOk result (map used_of pairs.new ≡ with_value same (map used_of pairs.old) (used_of pair.entry)) }
    ensures number { IfOk result (λ n. index_by same (map used_of pairs.new) (used_of pair.entry) ≡ Some n) }
    ensures few { OnOk result (length pairs.new ≤ 65535) }
    ensures err { IfErr result (λ e. (e ≡ OutOfMemory) ⊎ ((e ≡ OverflowError) × (65535 < length (with_value same (map used_of pairs.old) (used_of pair.entry))))) }
{
    if pairs.len() == u16::MAX && pairs.get(pair).is_none() {
        return Err(Error::OverflowError);
    }
    pairs.remap(pair)
}

/// The numbers of pairs of a glyph and a text: 0 for glyph 0, and consecutive in order of use.
#[tactic(auto, using(crate::proofs::Pairs::number_stays, crate::proofs::CodeLaws::pairs_grow))]
fn each_text(alloc: Global, entries: &[Entry<'_>]) -> Result<Vec<u16>, Error>
    ensures ok { IfOk result (λ codes. map Some codes.items ≡ map (index_by same (pairs_of (map used_of entries.now))) (map keyed (map used_of entries.now))) }
    ensures room { OnOk result (length (pairs_of (map used_of entries.now)) ≤ 65535) }
    ensures err { IfErr result (λ e. (e ≡ OutOfMemory) ⊎ ((e ≡ OverflowError) × (65535 < length (pairs_of (map used_of entries.now))))) }
{
    let mut pairs = Remapper::new(alloc);
    number_of(
        &mut pairs,
        Entry {
            glyph: 0,
            units: &[],
        },
    )?;
    let mut codes = Vec::with_capacity(alloc, entries.len())?;
    for entry in entries {
        codes.push(number_of(&mut pairs, keyed(*entry))?)?;
    }
    Ok(codes)
}

/// The code of each entry, in order.
pub fn codes_for(alloc: Global, entries: &[Entry<'_>], choice: Codes) -> Result<Vec<u16>, Error>
    ensures ok { IfOk result (λ codes. AreCodes choice (map used_of entries.now) codes.items) }
    ensures room { OnOk result (IsOverfull choice (map used_of entries.now) → ⊥) }
    ensures err { IfErr result (λ e. (e ≡ OutOfMemory) ⊎ ((e ≡ OverflowError) × IsOverfull choice (map used_of entries.now))) }
{
    match choice {
        Codes::Consecutive => {
            let glyphs = glyphs_in(alloc, entries)?;
            consecutive(alloc, &glyphs)
        }
        Codes::Source => glyphs_in(alloc, entries),
        Codes::EachText => each_text(alloc, entries),
    }
}

/// Each code with its text; glyph 0 has none.
pub fn lines_of<'a>(
    alloc: Global,
    entries: &[Entry<'a>],
    codes: &[u16],
) -> Result<Vec<Mapping<'a>>, Error>
    requires { length codes.now ≡ length entries.now }
    ensures ok { IfOk result (λ lines. lines_view lines.items ≡ coded (map used_of entries.now) codes.now) }
    ensures err { IfErr result (λ e. e ≡ OutOfMemory) }
{
    let mut lines = Vec::with_capacity(alloc, entries.len())?;
    for place in 0..entries.len() {
        lines.push(Mapping {
            code: codes[place],
            units: keyed(entries[place]).units,
        })?;
    }
    Ok(lines)
}
