//! Variation sequences, by a table of format 14.

ghost use Rattle.std.specs.Prelude.{◌≡◌, ◌<◌, ◌^◌, ◌+◌, ◌*◌, IfSome};
ghost use Rattle.std.specs.Option.{option_copied};
ghost use Rattle.text_glyphs.specs.Sequences.{are_sequences, glyph_by_record, has_default, if_selects, if_sequences, is_default, last_has, mapping_glyph, other_glyph, part, part_at, range_has, selector_record, sequence_glyph, sequences_from, sequences_of, sequences_table};

use crate::choice::{
    ENCODING_ID, ENCODING_RECORD_SIZE, ENCODING_RECORDS, NUM_TABLES, SUBTABLE_OFFSET,
};
use crate::halves::{Records, last_up_to, number_in};
use subsetter_base::read::{Reader, from_offset, number_at};

/// The format.
const VARIATION_SEQUENCES: u16 = 14;
/// numVarSelectorRecords, four bytes.
const NUM_VAR_SELECTOR_RECORDS: usize = 6;
/// varSelector of each.
const SELECTORS: Records = Records {
    at: 10,
    size: 11,
    width: 3,
};
/// defaultUVSOffset and nonDefaultUVSOffset of a record, four bytes each.
const DEFAULT_UVS_OFFSET: usize = 3;

const NON_DEFAULT_UVS_OFFSET: usize = 7;
/// startUnicodeValue of each range, and additionalCount, one byte.
const RANGES: Records = Records {
    at: 4,
    size: 4,
    width: 3,
};

const ADDITIONAL_COUNT: usize = 3;
/// unicodeValue of each mapping, and glyphID, two bytes.
const MAPPINGS: Records = Records {
    at: 4,
    size: 5,
    width: 3,
};

const GLYPH_ID: usize = 3;

/// The table, if it is one of variation sequences.
fn if_sequences(table: &[u8]) -> Option<&[u8]>
    ensures { option_copied result ≡ if_sequences table.now }
{
    let format = number_at(table, 0)?;
    if format == VARIATION_SEQUENCES {
        return Some(table);
    }
    None
}

/// Whether a record's platformID and encodingID are those of variation sequences.
fn are_sequences(platform: u16, id: u16) -> bool
    ensures { result ≡ are_sequences platform id }
{
    platform == 0 && id == 5
}

/// The table of variation sequences that the encoding record at a place leads to.
fn sequences_table(cmap: &[u8], at: usize) -> Option<&[u8]>
    requires { at < 2 ^ 32 }
    ensures { option_copied result ≡ sequences_table cmap.now at }
{
    let platform = number_at(cmap, at)?;
    let id = number_at(cmap, at + ENCODING_ID)?;
    let offset = Reader::new_at(cmap, at + SUBTABLE_OFFSET).read::<u32>()?;
    if !are_sequences(platform, id) {
        return None;
    }
    let table = from_offset(cmap, offset as usize)?;
    if_sequences(table)
}

/// The first such table of that many encoding records.
#[tactic(auto, using(crate::proofs::RecordSteps::sequences_here, crate::proofs::RecordSteps::sequences_on, crate::proofs::RecordSteps::sequences_end))]
fn find_sequences_table(cmap: &[u8], count: u16) -> Option<&[u8]>
    ensures { option_copied result ≡ sequences_from cmap.now count 4 }
{
    for record in 0..count {
        if let Some(table) = sequences_table(
            cmap,
            ENCODING_RECORDS + ENCODING_RECORD_SIZE * usize::from(record),
        ) {
            return Some(table);
        }
    }
    None
}

/// The table of variation sequences of a `cmap`.
pub(crate) fn find_sequences(cmap: &[u8]) -> Option<&[u8]>
    ensures { option_copied result ≡ sequences_of cmap.now }
{
    let count = number_at(cmap, NUM_TABLES)?;
    find_sequences_table(cmap, count)
}

/// The offset of a record, if it is that of a selector.
fn if_selects(table: &[u8], at: usize, selector: char) -> Option<usize>
    ensures value { result ≡ if_selects table.now at selector }
    ensures same { IfSome result (λ found. found ≡ at) }
{
    let found = number_in(table, at, 3)?;
    if found == u32::from(selector) {
        return Some(at);
    }
    None
}

/// Where the record of a selector is.
fn selector_record(table: &[u8], selector: char) -> Option<usize>
    ensures value { result ≡ selector_record table.now selector }
    ensures near { IfSome result (λ at. at < 2 ^ 48) }
{
    let count = number_in(table, NUM_VAR_SELECTOR_RECORDS, 4)?;
    let place = last_up_to(table, SELECTORS, count, u32::from(selector))?;
    if_selects(table, SELECTORS.at + SELECTORS.size * place, selector)
}

/// The table that an offset leads to; 0 means none.
fn part(table: &[u8], offset: u32) -> Option<&[u8]>
    ensures { option_copied result ≡ part table.now offset }
{
    if offset == 0 {
        return None;
    }
    from_offset(table, offset as usize)
}

/// The table that the offset at a place leads to.
fn part_at(table: &[u8], at: usize) -> Option<&[u8]>
    ensures { option_copied result ≡ part_at table.now at }
{
    let offset = number_in(table, at, 4)?;
    part(table, offset)
}

/// Whether the range at an offset, which doesn't start above a character, has it.
fn range_has(defaults: &[u8], at: usize, character: char) -> Option<bool>
    requires { at < 2 ^ 48 }
    ensures { result ≡ range_has defaults.now at character }
{
    let start = number_in(defaults, at, 3)?;
    let more = number_in(defaults, at + ADDITIONAL_COUNT, 1)?;
    Some(u32::from(character).saturating_sub(start) <= more)
}

/// Whether the last range that doesn't start above a character has it.
fn last_has(defaults: &[u8], character: char) -> Option<bool>
    ensures { result ≡ last_has defaults.now character }
{
    let count = number_in(defaults, 0, 4)?;
    let place = last_up_to(defaults, RANGES, count, u32::from(character))?;
    range_has(defaults, RANGES.at + RANGES.size * place, character)
}

/// Whether a character's sequence has the character's own glyph.
fn has_default(defaults: &[u8], character: char) -> bool
    ensures { result ≡ has_default defaults.now character }
{
    last_has(defaults, character).unwrap_or(false)
}

/// The glyph of the mapping at an offset, if it is that of a character.
fn mapping_glyph(others: &[u8], at: usize, character: char) -> Option<u16>
    requires { at < 2 ^ 48 }
    ensures { result ≡ mapping_glyph others.now at character }
{
    let found = number_in(others, at, 3)?;
    if found == u32::from(character) {
        return number_at(others, at + GLYPH_ID);
    }
    None
}

/// The glyph of a character's sequence that isn't the character's own.
fn other_glyph(others: &[u8], character: char) -> Option<u16>
    ensures { result ≡ other_glyph others.now character }
{
    let count = number_in(others, 0, 4)?;
    let place = last_up_to(others, MAPPINGS, count, u32::from(character))?;
    mapping_glyph(others, MAPPINGS.at + MAPPINGS.size * place, character)
}

/// Whether a record's sequence of a character has the character's own glyph.
fn is_default(table: &[u8], at: usize, character: char) -> bool
    requires { at < 2 ^ 48 }
    ensures { result ≡ is_default table.now at character }
{
    match part_at(table, at + DEFAULT_UVS_OFFSET) {
        Some(defaults) => has_default(defaults, character),
        None => false,
    }
}

/// The glyph of a record's sequence of a character, if it isn't the character's own.
fn glyph_by_record(table: &[u8], at: usize, character: char) -> Option<u16>
    requires { at < 2 ^ 48 }
    ensures { result ≡ glyph_by_record table.now at character }
{
    if is_default(table, at, character) {
        return None;
    }
    let others = part_at(table, at + NON_DEFAULT_UVS_OFFSET)?;
    other_glyph(others, character)
}

/// The glyph of a character with a selector, if it isn't the character's own.
#[tactic(auto, unfolding(crate::specs::Sequences::sequence_glyph))]
pub(crate) fn sequence_glyph(table: &[u8], character: char, selector: char) -> Option<u16>
    ensures { result ≡ sequence_glyph table.now character selector }
{
    let at = selector_record(table, selector)?;
    glyph_by_record(table, at, character)
}
