//! Font dicts (Technical Note 5176, section 18 "CID-keyed Fonts").

ghost use Rattle.std.specs.Prelude.{◌≡◌, length, IfSome, IfNone};
ghost use Rattle.std.specs.Option.{option_map};
ghost use Rattle.subsetter_cffdata.specs.Dicts.Dict.{entries};
ghost use Rattle.subsetter_cffdata.specs.Dicts.Operands.{operands_at};
ghost use Rattle.subsetter_cffdata.specs.Dicts.ParserView.{left, entry_of};
ghost use Rattle.subsetter_cffdata.specs.Views.{operator_of};
ghost use Rattle.subsetter_cff.specs.Read.Opened.{all_lead};
ghost use Rattle.subsetter_cff.specs.Read.FdArray.FontDictFaults.{leads_if_there, IsFontDictIn, HasFontDictFault};
ghost use Rattle.subsetter_cff.specs.Read.FdArray.Private.{private_at};
ghost use Rattle.subsetter_cff.specs.Read.FdArray.PrivateView.{private_view};

use crate::read::entries::demands::show_last;
use crate::read::entries::operators::same_operator;
use crate::read::fd_array::font_dict_entries::{FontDictData, parse_font_dict_data};
use crate::read::fd_array::private::{PrivateDict, parse_private};
use crate::read::fd_array::subr_offsets::SubrOffsets;
use subsetter_cffdata::dicts::dict::DictionaryParser;
use subsetter_cffdata::dicts::dict::operators::PRIVATE;
use subsetter_cffdata::dicts::operands::range_of;
use subsetter_cffdata::dicts::operator::Operator;
use subsetter_cffdata::indexes::index::Index;
use subsetter_cffdata::numerals::number::Number;

/// A font dict with its private dict.
#[derive(Drop)]
pub struct FontDict<'a> {
    /// What its entries say.
    pub entries: FontDictData,
    /// The private dict of its last Private entry.
    pub private: PrivateDict<'a>,
}

/// The private dict that a top dict or a font dict names: an empty one where it names none; None where it leads nowhere.
#[tactic(auto, unfolding(crate::specs::Read::FdArray::Private::private_at))]
pub fn parse_private_at<'a>(offsets: &SubrOffsets<'a>, dict: &[u8]) -> Option<PrivateDict<'a>>
    ensures { option_map private_view result ≡ private_at offsets.now (entries dict.now) }
{
    let mut buffer = [Number::zero(); 48];
    let mut parser = DictionaryParser::new(dict, &mut buffer);
    if !show_last(&mut parser, &PRIVATE) {
        return Some(PrivateDict {
            dict: &[],
            subroutines: Index::default(),
        });
    }
    parse_private(offsets, range_of(parser.operands())?)
}

/// How many bytes the private dict of an entry has, where it is a Private entry.
fn private_len(operator: &Operator, operands: &[Number]) -> usize {
    if !same_operator(operator, &PRIVATE) {
        return 0;
    }
    match range_of(operands) {
        None => 0,
        Some(place) => place.end - place.start,
    }
}

/// How many bytes the private dicts have together that the Private entries of a dict lead to. No answer depends on it.
pub fn private_bytes(dict: &[u8]) -> usize {
    let mut bytes: usize = 0;
    let mut buffer = [Number::zero(); 3];
    let mut parser = DictionaryParser::new(dict, &mut buffer);
    while let Some(operator) = parser.parse_entry() {
        bytes = bytes.saturating_add(private_len(&operator, parser.operands()));
    }
    bytes
}

/// Whether the entry that the parser is at leads to a private dict, where it is a Private entry.
fn leads_here(
    offsets: &SubrOffsets<'_>,
    operator: &Operator,
    parser: &mut DictionaryParser<'_>,
) -> bool
    ensures value { result ≡ leads_if_there offsets.now (operator_of operator.now) (operands_at (length parser.old.operands.now) (entry_of parser.old)) }
    ensures left { left parser.new ≡ left parser.old }
    ensures room { length parser.new.operands.now ≡ length parser.old.operands.now }
{
    if parser.parse_operands().is_none() {
        return true;
    }
    if !same_operator(operator, &PRIVATE) {
        return true;
    }
    match range_of(parser.operands()) {
        None => false,
        Some(place) => parse_private(offsets, place).is_some(),
    }
}

/// Whether all Private entries of a dict lead to private dicts.
fn all_lead(offsets: &SubrOffsets<'_>, dict: &[u8]) -> bool
    ensures { result ≡ all_lead offsets.now (entries dict.now) }
{
    let mut buffer = [Number::zero(); 48];
    let mut parser = DictionaryParser::new(dict, &mut buffer);
    while let Some(operator) = parser.parse_next() {
        if !leads_here(offsets, &operator, &mut parser) {
            return false;
        }
    }
    true
}

/// Reads a font dict; None where an entry has wrong operands, or a Private entry leads nowhere.
pub fn parse_font_dict<'a>(offsets: &SubrOffsets<'a>, dict: &[u8]) -> Option<FontDict<'a>>
    ensures value { IfSome result (λ f. IsFontDictIn offsets.now (entries dict.now) f) }
    ensures sound { IfSome result (λ _. HasFontDictFault offsets.now (entries dict.now) → ⊥) }
    ensures fault { IfNone result (HasFontDictFault offsets.now (entries dict.now)) }
{
    let entries = parse_font_dict_data(dict)?;
    if !all_lead(offsets, dict) {
        return None;
    }
    let private = parse_private_at(offsets, dict)?;
    Some(FontDict { entries, private })
}
