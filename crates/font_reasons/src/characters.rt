//! What is wrong with the tables by which characters have glyphs.

ghost use Rattle.std.specs.Prelude.{◌≡◌};
ghost use Rattle.subsetter_sfnt.specs.Extras.{all_extras};
ghost use Rattle.cmap.specs.View.{mapping_view};
ghost use Rattle.text_glyphs.specs.View.{chosen_view};
ghost use Rattle.font_reasons.specs.Characters.{cmap_tag, no_cmap, encodings_end, short_cmap, groups_end, segments_end, short_map, short_mapping, short_chosen, no_unicode, no_mapping};

use crate::parts::no_table;
use crate::reason::Reason;
use crate::short::short;
use cmap::Subtable;
use subsetter_base::Tag;
use subsetter_base::read::{Reader, number_at};
use subsetter_sfnt::directory::table;
use text_glyphs::{CharacterTable, find_table};

/// numTables of `cmap`, after its version.
const NUM_TABLES: usize = 2;
/// numGroups of format 12, four bytes.
const NUM_GROUPS: usize = 12;
/// segCountX2 of format 4.
const SEG_COUNT_X2: usize = 6;

/// The tag of `cmap`.
fn cmap_tag() -> Tag
    ensures { result ≡ cmap_tag }
{
    Tag::new(b"cmap")
}

/// Whether a face has no `cmap`.
fn no_cmap(font: &[u8], index: u32) -> Option<Reason>
    ensures { result ≡ no_cmap (record { bytes = font.now; index = index; extras = all_extras }) }
{
    no_table(font, index, cmap_tag())
}

/// Where encoding records end, by their count.
fn encodings_end(count: Option<u16>) -> u64
    ensures { result ≡ encodings_end count }
{
    match count {
        Some(count) => 4 + 8 * u64::from(count),
        None => 4,
    }
}

/// Whether a table `cmap` ends before its encoding records do.
fn short_cmap(cmap: &[u8]) -> Option<Reason>
    ensures { result ≡ short_cmap cmap.now }
{
    let needed = encodings_end(number_at(cmap, NUM_TABLES));
    short(cmap_tag(), needed, cmap)
}

/// Where the groups of a table of format 12 end, by their count.
fn groups_end(count: Option<u32>) -> u64
    ensures { result ≡ groups_end count }
{
    match count {
        Some(count) => 16 + 12 * u64::from(count),
        None => 16,
    }
}

/// Where the segments of a table of format 4 end, by segCountX2.
fn segments_end(twice: Option<u16>) -> u64
    ensures { result ≡ segments_end twice }
{
    match twice {
        Some(twice) => 16 + 8 * u64::from(twice / 2),
        None => 16,
    }
}

/// Whether a table of a format has fewer bytes than it needs.
fn short_map(format: u16, table: &[u8], needed: u64) -> Option<Reason>
    ensures { result ≡ short_map format table.now needed }
{
    let size = table.len() as u64;
    if size < needed {
        return Some(Reason::ShortMap(format, size, needed));
    }
    None
}

/// Whether a Unicode table of format 12 or 4 does.
fn short_mapping(found: Subtable<'_>) -> Option<Reason>
    ensures { result ≡ short_mapping (mapping_view found.entry) }
{
    match found {
        Subtable::Groups(table) => {
            let count = Reader::new_at(table, NUM_GROUPS).read::<u32>();
            short_map(12, table, groups_end(count))
        }
        Subtable::Segments(table) => {
            short_map(4, table, segments_end(number_at(table, SEG_COUNT_X2)))
        }
    }
}

/// Whether the table that is used does; others than these aren't looked at.
fn short_chosen(found: CharacterTable<'_>) -> Option<Reason>
    ensures { result ≡ short_chosen (chosen_view found.entry) }
{
    match found {
        CharacterTable::Unicode(table) => short_mapping(table),
        CharacterTable::Other(_, _) => None,
    }
}

/// Whether the `cmap` of a face has no table that is read, or one that is cut.
#[tactic(auto, unfolding(crate::specs::Characters::no_unicode))]
fn no_unicode(font: &[u8], index: u32) -> Option<Reason>
    ensures { result ≡ no_unicode (record { bytes = font.now; index = index; extras = all_extras }) }
{
    let cmap = table(font, index, cmap_tag())?;
    match find_table(cmap) {
        Some(found) => short_chosen(found),
        None => short_cmap(cmap).or(Some(Reason::NoUnicode)),
    }
}

/// Whether a face lacks what glyphs of characters are found by, or it is cut.
pub fn no_mapping(font: &[u8], index: u32) -> Option<Reason>
    ensures { result ≡ no_mapping (record { bytes = font.now; index = index; extras = all_extras }) }
{
    no_cmap(font, index).or(no_unicode(font, index))
}
