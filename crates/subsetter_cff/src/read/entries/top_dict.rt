//! The top dict (Technical Note 5176, section 9 "Top DICT Data").

ghost use Rattle.std.specs.Prelude.{◌≡◌, IsTrue, false, map};
ghost use Rattle.subsetter_cffdata.specs.Dicts.Dict.{entries};
ghost use Rattle.subsetter_cffdata.specs.Views.{number_of, operator_of};
ghost use Rattle.subsetter_cff.specs.Read.Fault.{HasWrongOperands};
ghost use Rattle.subsetter_cff.specs.Read.Entries.OperandDemands.{top_demands};
ghost use Rattle.subsetter_cff.specs.Read.Entries.Fields.{demands_of};
ghost use Rattle.subsetter_cff.specs.Read.Opened.{meets, all_meet};
ghost use Rattle.subsetter_cff.specs.Read.Entries.Values.{values_of, taken, no_values};
ghost use Rattle.subsetter_cff.specs.Read.Entries.TopDicts.{IsTopDict};

use crate::read::entries::fields::{Demands, field_of, is_demanded, take_field};
use std::ops::Range;
use subsetter_cffdata::dicts::dict::DictionaryParser;
use subsetter_cffdata::dicts::operator::Operator;
use subsetter_cffdata::numerals::number::{Number, StringId};

/// What a top dict says.
#[derive(Drop)]
pub struct TopDictData {
    /// The copyright.
    pub copyright: Option<StringId>,
    /// The notice.
    pub notice: Option<StringId>,
    /// The name of the font.
    pub font_name: Option<StringId>,
    /// The font is CID-keyed.
    pub has_ros: bool,
    /// The matrix of the font.
    pub font_matrix: Option<[Number; 6]>,
    /// The bounding box.
    pub font_bbox: Option<[Number; 4]>,
    /// The offset of the charset.
    pub charset: Option<usize>,
    /// The offset of the charstrings.
    pub char_strings: Option<usize>,
    /// The offset of the font dicts.
    pub fd_array: Option<usize>,
    /// The offset of the FDSelect.
    pub fd_select: Option<usize>,
    /// The range of the private dict.
    pub private: Option<Range<usize>>,
}

/// Takes what an entry says, in place of what an earlier one of its operator said, and returns whether it meets all demands.
#[tactic(auto, using(crate::proofs::ReadLaws::EntriesLaws::FieldsTaken::met_is))]
fn take_entry(
    demands: Demands,
    operator: &Operator,
    operands: &[Number],
    said: &mut TopDictData,
) -> bool
    ensures met { result ≡ meets (demands_of demands) (record { operator = operator_of operator.now; operands = map number_of operands.now }) }
    ensures value { values_of said.new ≡ taken (values_of said.old) (operator_of operator.now) (map number_of operands.now) }
{
    let field = field_of(operator);
    take_field(field, operands, said) || !is_demanded(demands, field)
}

/// What a dict without entries says.
pub fn no_values() -> TopDictData
    ensures { values_of result ≡ no_values }
{
    TopDictData {
        copyright: None,
        notice: None,
        font_name: None,
        has_ros: false,
        font_matrix: None,
        font_bbox: None,
        charset: None,
        char_strings: None,
        fd_array: None,
        fd_select: None,
        private: None,
    }
}

/// The values of the entries of a top dict or a font dict; false where one doesn't meet all demands. Seven operands of each
/// entry are enough to know whether it has as many as are demanded, which are at most six.
pub fn read_entries(demands: Demands, dict: &[u8], said: &mut TopDictData) -> bool
    requires { values_of said.old ≡ no_values }
    ensures met { result ≡ all_meet (demands_of demands) (entries dict.now) }
    ensures value { IsTrue result → IsTopDict (entries dict.now) said.new }
{
    let mut buffer = [Number::zero(); 7];
    let mut parser = DictionaryParser::new(dict, &mut buffer);
    while let Some(operator) = parser.parse_entry() {
        if !take_entry(demands, &operator, parser.operands(), said) {
            return false;
        }
    }
    true
}

/// Reads a top dict into a variable, so that its numbers aren't moved; false where an entry has wrong operands.
pub fn read_top_dict(dict: &[u8], said: &mut TopDictData) -> bool
    requires { values_of said.old ≡ no_values }
    ensures value { IsTrue result → IsTopDict (entries dict.now) said.new }
    ensures sound { IsTrue result → HasWrongOperands top_demands (entries dict.now) → ⊥ }
    ensures fault { result ≡ false → HasWrongOperands top_demands (entries dict.now) }
{
    read_entries(Demands::TopDict, dict, said)
}
