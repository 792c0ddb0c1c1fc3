//! What an operator of a top dict or a font dict says, and which operands it demands (Technical Note 5176, section 9 "Top DICT Data").

ghost use Rattle.std.specs.Prelude.{◌≡◌, map};
ghost use Rattle.subsetter_cffdata.specs.Views.{number_of, operator_of};
ghost use Rattle.subsetter_cff.specs.Read.Entries.Fields.{field_by, taken_as, holds_as, is_demanded};
ghost use Rattle.subsetter_cff.specs.Read.Entries.Values.{values_of};

use crate::read::entries::top_dict::TopDictData;
use subsetter_cffdata::dicts::dict::operators::{first_byte, second_byte};
use subsetter_cffdata::dicts::operands::{four_of, offset_of, range_of, six_of, string_of};
use subsetter_cffdata::dicts::operator::{Operator, TWO_BYTE_OPERATOR_MARK};
use subsetter_cffdata::numerals::number::Number;

/// What an operator says.
#[derive(Clone, Copy)]
pub enum Field {
    /// The notice.
    Notice,
    /// The copyright.
    Copyright,
    /// The name of the font.
    FontName,
    /// The offset of the charset.
    Charset,
    /// The offset of the charstrings.
    CharStrings,
    /// The offset of the font dicts.
    FdArray,
    /// The offset of the FDSelect.
    FdSelect,
    /// The range of the private dict.
    Private,
    /// The matrix.
    FontMatrix,
    /// The bounding box.
    FontBBox,
    /// The font is CID-keyed.
    Ros,
    /// Nothing that is kept.
    Other,
}

/// Whose demands are to be met.
#[derive(Clone, Copy)]
pub enum Demands {
    /// Those of a top dict.
    TopDict,
    /// Those of a font dict.
    FontDict,
}

/// What an operator says.
pub fn field_of(operator: &Operator) -> Field
    ensures { result ≡ field_by (operator_of operator.now) }
{
    match operator.as_slice() {
        [first_byte::NOTICE] => Field::Notice,
        [first_byte::FONT_BBOX] => Field::FontBBox,
        [first_byte::CHARSET] => Field::Charset,
        [first_byte::CHAR_STRINGS] => Field::CharStrings,
        [first_byte::PRIVATE] => Field::Private,
        [TWO_BYTE_OPERATOR_MARK, second_byte::COPYRIGHT] => Field::Copyright,
        [TWO_BYTE_OPERATOR_MARK, second_byte::FONT_MATRIX] => Field::FontMatrix,
        [TWO_BYTE_OPERATOR_MARK, second_byte::ROS] => Field::Ros,
        [TWO_BYTE_OPERATOR_MARK, second_byte::FD_ARRAY] => Field::FdArray,
        [TWO_BYTE_OPERATOR_MARK, second_byte::FD_SELECT] => Field::FdSelect,
        [TWO_BYTE_OPERATOR_MARK, second_byte::FONT_NAME] => Field::FontName,
        _ => Field::Other,
    }
}

/// Takes the value of an entry in place of that of an earlier one, and returns whether its operands are as a top dict demands.
pub fn take_field(field: Field, operands: &[Number], said: &mut TopDictData) -> bool
    ensures value { values_of said.new ≡ taken_as (values_of said.old) field (map number_of operands.now) }
    ensures met { result ≡ holds_as field (map number_of operands.now) }
{
    match field {
        Field::Notice => {
            said.notice = string_of(operands);
            said.notice.is_some()
        }
        Field::Copyright => {
            said.copyright = string_of(operands);
            said.copyright.is_some()
        }
        Field::FontName => {
            said.font_name = string_of(operands);
            said.font_name.is_some()
        }
        Field::Charset => {
            said.charset = offset_of(operands);
            said.charset.is_some()
        }
        Field::CharStrings => {
            said.char_strings = offset_of(operands);
            said.char_strings.is_some()
        }
        Field::FdArray => {
            said.fd_array = offset_of(operands);
            said.fd_array.is_some()
        }
        Field::FdSelect => {
            said.fd_select = offset_of(operands);
            said.fd_select.is_some()
        }
        Field::Private => {
            said.private = range_of(operands);
            said.private.is_some()
        }
        Field::FontMatrix => {
            said.font_matrix = six_of(operands);
            operands.len() == 6
        }
        Field::FontBBox => {
            said.font_bbox = four_of(operands);
            operands.len() == 4
        }
        Field::Ros => {
            said.has_ros = true;
            true
        }
        Field::Other => true,
    }
}

/// Whether a dict demands operands of a field.
pub fn is_demanded(demands: Demands, field: Field) -> bool
    ensures { result ≡ is_demanded demands field }
{
    match demands {
        Demands::TopDict => true,
        Demands::FontDict => match field {
            Field::Private | Field::FontName | Field::FontMatrix => true,
            _ => false,
        },
    }
}
