//! The charstrings of the requested glyphs at coordinates (OpenType, "CFF2 CharString Format").

ghost use Rattle.std.specs.Prelude.{◌≡◌, ◌≤◌, ◌+◌, ◌++◌, ◌∷◌, [], false, length, map, Some, IfOk, IfErr, OnOk};
ghost use Rattle.subsetter_base.specs.Gives.{Gives};
ghost use Rattle.subsetter_base.specs.declared.error.Error.TheVariants.{OutOfMemory};
ghost use Rattle.subsetter_base.specs.Within.{FailsWithin, is_past};
ghost use Rattle.subsetter_boxes.specs.CharstringBox.{charstring_box};
ghost use Rattle.subsetter_cff2.specs.Made2View.{dict_view};
ghost use Rattle.subsetter_cff_at.specs.Plain.{glyph_text, no_glyph, placed_text, text_if, texts_from, texts_size, text_size};
ghost use Rattle.subsetter_cff_at.specs.View.{opened_of, AreTexts, DrawsNext, AreAllDrawn};

use crate::opening::OpenTable;
use std::alloc::Global;
use subsetter_base::error::Error;
use subsetter_blend::resolving::resolve_in;
use subsetter_blend::runs::machine::Subroutines;
use subsetter_blend::runs::running::Room;
use subsetter_boxes::charstring_box;
use subsetter_cff2::made::PlacedDict;
use subsetter_points::Bounds;
use subsetter_type2::limits::Limits;
use subsetter_type2::operators::first_byte;
use subsetter_type2::subroutines::SubroutineHandler;

/// The charstrings of glyphs, one after the other.
#[derive(Drop)]
pub struct Texts {
    /// Their bytes.
    pub char_strings: Vec<u8>,
    /// Where each charstring ends, as an INDEX counts: from 1 on.
    pub ends: Vec<usize>,
    /// The box of each glyph.
    pub boxes: Vec<Option<Bounds>>,
    /// How many bytes those of the requested glyphs have.
    pub requested: usize,
}

/// The charstring of a requested glyph under a private dict. An advance past 32,767, for which a charstring has no number, is
/// `OverflowError`; a charstring that isn't there is `MalformedFont`.
#[tactic(auto, unfolding(crate::specs::Plain::glyph_text))]
fn glyph_text<'a>(
    alloc: Global,
    room: &mut Room<'a>,
    opened: &OpenTable<'a>,
    dict: &PlacedDict<'a>,
    glyph: u16,
    advance: u16,
    limits: Limits,
) -> Result<Vec<u8>, Error>
    ensures { Gives (λ v. v.items) result (glyph_text (opened_of opened.now).cff (opened_of opened.now).variation limits.tokens limits.depth (dict_view dict.now) glyph advance) }
{
    if advance > 32767 {
        return Err(Error::OverflowError);
    }
    let Some(char_string) = opened.table.char_strings.get(u32::from(glyph)) else {
        return Err(Error::MalformedFont);
    };
    let subroutines = Subroutines {
        global: SubroutineHandler::new(opened.table.subroutines),
        local: SubroutineHandler::new(dict.subroutines),
    };
    resolve_in(
        alloc,
        room,
        &subroutines,
        &opened.variation,
        &limits,
        dict.data_index,
        advance as i16,
        char_string,
    )
}

/// The charstring of a requested glyph, by the place of its private dict.
#[tactic(auto, unfolding(crate::specs::Plain::placed_text))]
fn placed_text<'a>(
    alloc: Global,
    room: &mut Room<'a>,
    opened: &OpenTable<'a>,
    dicts: &[PlacedDict<'a>],
    place: u8,
    glyph: u16,
    advance: u16,
    limits: Limits,
) -> Result<Vec<u8>, Error>
    ensures { Gives (λ v. v.items) result (placed_text (opened_of opened.now).cff (opened_of opened.now).variation limits.tokens limits.depth (map dict_view dicts.now) place glyph advance) }
{
    if usize::from(place) >= dicts.len() {
        return Err(Error::MalformedFont);
    }
    glyph_text(
        alloc,
        room,
        opened,
        &dicts[usize::from(place)],
        glyph,
        advance,
        limits,
    )
}

/// No charstrings yet, which pass no bound on bytes.
fn no_texts(alloc: Global, count: usize, limits: Limits) -> Result<Texts, Error>
    ensures ok { IfOk result (AreTexts []) }
    ensures within { IfOk result (λ t. is_past limits.bytes t.requested ≡ false) }
    ensures err { IfErr result (λ e. e ≡ OutOfMemory) }
{
    Ok(Texts {
        char_strings: Vec::with_capacity(alloc, count)?,
        ends: Vec::with_capacity(alloc, count)?,
        boxes: Vec::with_capacity(alloc, count)?,
        requested: 0,
    })
}

/// Puts the bytes of a charstring, and its box, after the others.
fn put(texts: &mut Texts, bytes: &[u8], bounds: Option<Bounds>) -> Result<(), Error>
    ensures char_strings { OnOk result (texts.new.char_strings.items ≡ texts.old.char_strings.items ++ bytes.now) }
    ensures ends { OnOk result (texts.new.ends.items ≡ texts.old.ends.items ++ (length texts.new.char_strings.items + 1) ∷ []) }
    ensures boxes { OnOk result (texts.new.boxes.items ≡ texts.old.boxes.items ++ bounds ∷ []) }
    ensures requested { texts.new.requested ≡ texts.old.requested }
    ensures err { IfErr result (λ e. e ≡ OutOfMemory) }
{
    texts.char_strings.extend_from_slice(bytes)?;
    texts.ends.push(texts.char_strings.len() + 1)?;
    texts.boxes.push(bounds)?;
    Ok(())
}

/// Puts `endchar` after the others, which has no box.
#[inline(always)]
#[tactic(auto, using(crate::proofs::Boxes::no_box))]
fn put_end(texts: &mut Texts) -> Result<(), Error>
    ensures char_strings { OnOk result (texts.new.char_strings.items ≡ texts.old.char_strings.items ++ no_glyph) }
    ensures ends { OnOk result (texts.new.ends.items ≡ texts.old.ends.items ++ (length texts.new.char_strings.items + 1) ∷ []) }
    ensures boxes { OnOk result (texts.new.boxes.items ≡ texts.old.boxes.items ++ charstring_box no_glyph ∷ []) }
    ensures requested { texts.new.requested ≡ texts.old.requested }
    ensures err { IfErr result (λ e. e ≡ OutOfMemory) }
{
    texts.char_strings.push(first_byte::ENDCHAR)?;
    texts.ends.push(texts.char_strings.len() + 1)?;
    texts.boxes.push(None)?;
    Ok(())
}

/// Draws a requested glyph more. `OverflowError` also where the charstrings of the requested glyphs pass the bound on bytes.
fn draw_requested<'a>(
    alloc: Global,
    room: &mut Room<'a>,
    opened: &OpenTable<'a>,
    dicts: &[PlacedDict<'a>],
    place: u8,
    glyph: u16,
    advance: u16,
    limits: Limits,
    texts: &mut Texts,
) -> Result<(), Error>
    ensures ok { OnOk result (DrawsNext (opened_of opened.now).cff (opened_of opened.now).variation limits.tokens limits.depth (map dict_view dicts.now) place glyph (Some advance) texts.old texts.new) }
    ensures within { OnOk result (is_past limits.bytes texts.new.requested ≡ false) }
    ensures err { IfErr result (λ e. FailsWithin limits.bytes (λ text. texts.old.requested + text_size text) e (text_if (opened_of opened.now).cff (opened_of opened.now).variation limits.tokens limits.depth (map dict_view dicts.now) place glyph (Some advance))) }
{
    let text = placed_text(alloc, room, opened, dicts, place, glyph, advance, limits)?;
    let requested = texts.requested.saturating_add(text.len());
    if limits.is_past(requested) {
        return Err(Error::OverflowError);
    }
    texts.requested = requested;
    let bounds = charstring_box(&text)?;
    put(texts, &text, bounds)
}

/// Draws a glyph more. The texts stay where they are: moved in and out they cost more than `endchar`.
#[inline(always)]
fn draw_next<'a>(
    alloc: Global,
    room: &mut Room<'a>,
    opened: &OpenTable<'a>,
    dicts: &[PlacedDict<'a>],
    place: u8,
    glyph: u16,
    advance: Option<u16>,
    limits: Limits,
    texts: &mut Texts,
) -> Result<(), Error>
    ensures ok { OnOk result (DrawsNext (opened_of opened.now).cff (opened_of opened.now).variation limits.tokens limits.depth (map dict_view dicts.now) place glyph advance texts.old texts.new) }
    ensures within { OnOk result (is_past limits.bytes texts.old.requested ≡ false → is_past limits.bytes texts.new.requested ≡ false) }
    ensures err { IfErr result (λ e. FailsWithin limits.bytes (λ text. texts.old.requested + text_size text) e (text_if (opened_of opened.now).cff (opened_of opened.now).variation limits.tokens limits.depth (map dict_view dicts.now) place glyph advance)) }
{
    match advance {
        None => put_end(texts),
        Some(advance) => draw_requested(
            alloc, room, opened, dicts, place, glyph, advance, limits, texts,
        ),
    }
}

/// Draws all glyphs: the requested ones, and `endchar` for every other one. `OverflowError` where the charstrings of the requested
/// glyphs pass the bound on bytes, before the next one is drawn.
pub fn draw_texts<'a>(
    alloc: Global,
    opened: &OpenTable<'a>,
    dicts: &[PlacedDict<'a>],
    places: &[u8],
    glyphs: &[Option<u16>],
    limits: Limits,
) -> Result<Texts, Error>
    requires few { length glyphs.now ≤ 65535 }
    requires places { length places.now ≡ length glyphs.now }
    ensures ok { IfOk result (AreAllDrawn (opened_of opened.now).cff (opened_of opened.now).variation limits.tokens limits.depth (map dict_view dicts.now) places.now glyphs.now) }
    ensures within { IfOk result (λ t. is_past limits.bytes t.requested ≡ false) }
    ensures err { IfErr result (λ e. FailsWithin limits.bytes texts_size e (texts_from (opened_of opened.now).cff (opened_of opened.now).variation limits.tokens limits.depth (map dict_view dicts.now) places.now 0 glyphs.now)) }
{
    let mut room = Room::new(opened.table.bytes);
    let mut texts = no_texts(alloc, glyphs.len(), limits)?;
    for glyph in 0..glyphs.len() {
        draw_next(
            alloc,
            &mut room,
            opened,
            dicts,
            places[glyph],
            glyph as u16,
            glyphs[glyph],
            limits,
            &mut texts,
        )?;
    }
    Ok(texts)
}
