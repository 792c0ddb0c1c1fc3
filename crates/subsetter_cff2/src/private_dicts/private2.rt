//! Private dicts with their local subroutines (OpenType, "CFF2": "Font DICT Data", "Private DICT Data", "Local/Global Subrs INDEXes").

ghost use Rattle.std.specs.Prelude.{◌≡◌, ◌≤◌};
ghost use Rattle.std.specs.Option.{option_map};
ghost use Rattle.subsetter_cffdata.specs.Dicts.Dict.{entries};
ghost use Rattle.subsetter_cffdata.specs.Indexes.IndexView.{items};
ghost use Rattle.subsetter_cff.specs.Read.Entries.Lookup.{last_of};
ghost use Rattle.subsetter_cff.specs.Read.Entries.Operators.{subroutines_operator};
ghost use Rattle.subsetter_cff2.specs.Cff2View.{cff2_of};
ghost use Rattle.subsetter_cff2.specs.PrivateDicts.Private2.{index_if, subroutines_by, private_in, private_at, private_numbered};
ghost use Rattle.subsetter_cff2.specs.PrivateDicts.Private2View.{private_view};

use crate::offsets::{optional_offset, wide_index};
use crate::table::Table2;
use std::ops::Range;
use subsetter_cff::read::entries::demands::show_last;
use subsetter_cffdata::dicts::dict::DictionaryParser;
use subsetter_cffdata::dicts::dict::operators::{PRIVATE, SUBRS};
use subsetter_cffdata::dicts::operands::range_of;
use subsetter_cffdata::indexes::index::Index;
use subsetter_cffdata::numerals::number::Number;

/// A private dict and its local subroutines.
#[derive(Clone, Copy, Debug)]
pub struct PrivateDict2<'a> {
    /// The bytes of the dict.
    pub dict: &'a [u8],
    /// The local subroutines.
    pub subroutines: Index<'a>,
}

/// The INDEX at an offset; an empty one where there is no offset.
fn index_if(bytes: &[u8], offset: Option<u32>) -> Option<Index<'_>>
    ensures { option_map items result ≡ index_if bytes.now offset }
{
    match offset {
        None => Some(Index::default()),
        Some(offset) => wide_index(bytes, offset as usize),
    }
}

/// The local subroutines of a private dict at the front of the bytes.
fn find_subroutines<'a>(bytes: &'a [u8], dict: &[u8]) -> Option<Index<'a>>
    ensures { option_map items result ≡ subroutines_by bytes.now (last_of subroutines_operator (entries dict.now)) }
{
    let offset = optional_offset(dict, &SUBRS)?;
    index_if(bytes, offset)
}

/// The private dict of a range of the table; None where the range leaves the table, or the subroutines are outside or unreadable.
#[tactic(auto, unfolding(crate::specs::PrivateDicts::Private2::private_in))]
fn parse_private(table: &[u8], place: Range<usize>) -> Option<PrivateDict2<'_>>
    requires { place.start ≤ place.end }
    ensures { option_map private_view result ≡ private_in table.now (place.start, place.end) }
{
    let start = place.start;
    let dict = table.get(start..place.end)?;
    let subroutines = find_subroutines(&table[start..], dict)?;
    Some(PrivateDict2 { dict, subroutines })
}

/// The private dict that a font dict names: an empty one where it names none; None where it leads nowhere.
#[tactic(auto, unfolding(crate::specs::PrivateDicts::Private2::private_at))]
fn parse_private_at<'a>(table: &'a [u8], dict: &[u8]) -> Option<PrivateDict2<'a>>
    ensures { option_map private_view result ≡ private_at table.now (entries dict.now) }
{
    let mut buffer = [Number::zero(); 48];
    let mut parser = DictionaryParser::new(dict, &mut buffer);
    if !show_last(&mut parser, &PRIVATE) {
        return Some(PrivateDict2 {
            dict: &[],
            subroutines: Index::default(),
        });
    }
    parse_private(table, range_of(parser.operands())?)
}

/// The private dict of the font dict of a number; None where there is no such font dict, or it is unreadable.
#[tactic(auto, unfolding(crate::specs::PrivateDicts::Private2::private_numbered))]
pub fn private_numbered<'a>(table: &Table2<'a>, number: u16) -> Option<PrivateDict2<'a>>
    ensures { option_map private_view result ≡ private_numbered (cff2_of table.now) number }
{
    let dict = table.font_dicts.get(u32::from(number))?;
    parse_private_at(table.bytes, dict)
}
