//! The glyphs that are kept: their charstrings without subroutines.

ghost use Rattle.std.specs.Prelude.{◌≡◌, ◌+◌, length, Some, IfOk, OnOk, IfErr};
ghost use Rattle.std.specs.Option.{option_map};
ghost use Rattle.subsetter_base.specs.Bytes.{IsBytes};
ghost use Rattle.subsetter_base.specs.Within.{GivesWithin, FailsWithin};
ghost use Rattle.subsetter_base.specs.declared.error.Error.TheVariants.{OutOfMemory};
ghost use Rattle.subsetter_cff.specs.Read.Cff.{char_string};
ghost use Rattle.subsetter_cff.specs.Write.Glyphs.KeptView.{kept_view, kept_past, texts_size, AreKept, IsPut, AreAllKept, KeepsNext};
ghost use Rattle.subsetter_cff.specs.Write.Plain.{source_number, kept_glyph, kept_glyphs};
ghost use Rattle.subsetter_cff.specs.Read.FdArray.Private.{private_of};
ghost use Rattle.subsetter_cff.specs.Read.FdArray.PrivateView.{private_view};
ghost use Rattle.subsetter_cff.specs.Read.Source.{cff_of, IsSource};

use crate::read::fd_array::private::PrivateDict;
use crate::read::source::Table;
use std::alloc::Global;
use subsetter_base::GlyphRemapper;
use subsetter_base::error::Error;
use subsetter_type2::charstring::Decompiler;
use subsetter_type2::limits::Limits;
use subsetter_type2::runs::fixed_stack::FixedStack;
use subsetter_type2::subroutines::SubroutineHandler;

/// A glyph that is kept, after others.
#[derive(Drop)]
pub struct Kept {
    /// The number of its font dict in the source.
    pub number: u8,
    /// Its flattened charstring, after those of the others.
    pub bytes: Vec<u8>,
}

/// All glyphs that are kept.
#[derive(Drop)]
pub struct KeptGlyphs {
    /// The numbers of their font dicts in the source.
    pub numbers: Vec<u8>,
    /// Their flattened charstrings, one after the other.
    pub char_strings: Vec<u8>,
    /// Where each charstring ends, as an INDEX counts: from 1 on.
    pub ends: Vec<usize>,
}

/// The number of a glyph's font dict. A font without font dicts has just one.
pub fn source_number(source: &Table<'_>, glyph: u16) -> Option<u8>
    requires { IsSource source.now }
    ensures { result ≡ source_number (cff_of source.now) glyph }
{
    match &source.cid {
        None => Some(0),
        Some(parts) => parts.select.font_dict_index(glyph),
    }
}

/// The private dict of a glyph, by the number of its font dict.
fn find_private<'a>(source: &Table<'a>, glyph: u16, number: u8) -> Option<PrivateDict<'a>>
    requires source { IsSource source.now }
    requires number { source_number (cff_of source.now) glyph ≡ Some number }
    ensures { option_map private_view result ≡ private_of (cff_of source.now) glyph }
{
    match &source.cid {
        None => Some(source.private),
        Some(parts) => {
            let font_dict = parts.font_dicts.get(number as usize)?;
            Some(font_dict.private)
        }
    }
}

/// The charstring of a glyph.
fn find_char_string<'a>(source: &Table<'a>, glyph: u16) -> Option<&'a [u8]>
    requires { IsSource source.now }
    ensures { option_map (λ x. x.now) result ≡ char_string (cff_of source.now) glyph }
{
    source.char_strings.get(u32::from(glyph))
}

/// Flattens a glyph after others. `OverflowError` where all of these pass the bound on bytes.
#[tactic(auto, unfolding(crate::specs::Write::Glyphs::KeptView::kept_past))]
fn keep_glyph<'a>(
    source: &Table<'a>,
    limits: Limits,
    glyph: u16,
    char_strings: Vec<u8>,
    rests: &mut FixedStack<&'a [u8], 64>,
) -> Result<Kept, Error>
    requires { IsSource source.now }
    ensures { GivesWithin kept_view limits.bytes (λ k. length k.bytes) result (kept_past char_strings.items (cff_of source.now) limits.tokens limits.depth glyph) }
{
    let number = source_number(source, glyph).ok_or(Error::MalformedFont)?;
    let private = find_private(source, glyph, number).ok_or(Error::MalformedFont)?;
    let char_string = find_char_string(source, glyph).ok_or(Error::MalformedFont)?;
    let global = SubroutineHandler::new(source.front.subroutines);
    let local = SubroutineHandler::new(private.subroutines);
    let bytes = Decompiler::with_limits(global, local, limits).flatten_after(
        char_strings,
        char_string,
        rests,
    )?;
    Ok(Kept { number, bytes })
}

/// Flattens one glyph more.
fn keep_next<'a>(
    source: &Table<'a>,
    limits: Limits,
    glyph: u16,
    kept: KeptGlyphs,
    rests: &mut FixedStack<&'a [u8], 64>,
) -> Result<KeptGlyphs, Error>
    requires { IsSource source.now }
    ensures ok { IfOk result (λ k. KeepsNext (cff_of source.now) limits.tokens limits.depth glyph kept k) }
    ensures err { IfErr result (λ e. FailsWithin limits.bytes (λ k. length kept.char_strings.items + length k.bytes) e (kept_glyph (cff_of source.now) limits.tokens limits.depth glyph)) }
{
    let mut numbers = kept.numbers;
    let mut ends = kept.ends;
    let all = keep_glyph(source, limits, glyph, kept.char_strings, rests)?;
    numbers.push(all.number)?;
    ends.push(all.bytes.len() + 1)?;
    Ok(KeptGlyphs {
        numbers,
        char_strings: all.bytes,
        ends,
    })
}

/// What is known of numbers of eight bits.
fn are_bytes(numbers: &[u8])
    ensures { IsBytes numbers.now }
{}

/// Room for the charstrings to begin with, in bytes. More than that is given back.
const FIRST_ROOM: usize = 4096;

/// How many bytes may be written at once, as a rule, before the bound on bytes is looked at.
const STRETCH_ROOM: usize = 65_536;

/// Room to begin with under a bound on bytes: doubled some times, it comes to the bound and a stretch more.
fn room_under(most: usize) -> usize {
    let mut room = most.saturating_add(most.min(STRETCH_ROOM));
    for _ in 0..16 {
        if room / 2 < STRETCH_ROOM {
            break;
        }
        room /= 2;
    }
    room
}

/// Room for the charstrings of `count` glyphs to begin with, in bytes.
fn first_room(count: usize, bound: Option<u32>) -> usize {
    match bound {
        Some(most) => room_under(most as usize),
        None if count < 16 => count * 256,
        None => FIRST_ROOM,
    }
}

/// Gives room back that isn't used, where there may be much.
fn give_back(bytes: &mut Vec<u8>)
    ensures { bytes.new.items ≡ bytes.old.items }
{
    if bytes.len() >= FIRST_ROOM {
        bytes.shrink_to_fit();
    }
}

/// Flattens all glyphs that are kept. `OverflowError` where their charstrings pass the bound on bytes, before the next one
/// is flattened.
pub fn keep_glyphs<'a>(
    alloc: Global,
    source: &Table<'a>,
    limits: Limits,
    mapper: &GlyphRemapper,
) -> Result<KeptGlyphs, Error>
    requires { IsSource source.now }
    ensures ok { IfOk result (λ k. AreAllKept (cff_of source.now) limits.tokens limits.depth mapper.now k) }
    ensures small { IfOk result (λ k. IsBytes k.numbers.items) }
    ensures err { IfErr result (λ e. FailsWithin limits.bytes texts_size e (kept_glyphs (cff_of source.now) limits.tokens limits.depth mapper.now)) }
{
    let count = usize::from(mapper.num_gids());
    let mut kept = KeptGlyphs {
        numbers: Vec::with_capacity(alloc, count)?,
        char_strings: Vec::with_capacity(alloc, first_room(count, limits.bytes()))?,
        ends: Vec::with_capacity(alloc, count)?,
    };
    let mut rests: FixedStack<&'a [u8], 64> = FixedStack::new(source.front.bytes);
    for glyph in mapper.remapped_gids() {
        kept = keep_next(source, limits, glyph, kept, &mut rests)?;
    }
    give_back(&mut kept.char_strings);
    are_bytes(&kept.numbers);
    Ok(kept)
}
