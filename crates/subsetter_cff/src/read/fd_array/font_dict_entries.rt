//! What the entries of a font dict say (Technical Note 5176, section 18 "CID-keyed Fonts").

ghost use Rattle.std.specs.Prelude.{IfSome, IfNone};
ghost use Rattle.subsetter_cffdata.specs.Dicts.Dict.{entries};
ghost use Rattle.subsetter_cff.specs.Read.Fault.{HasWrongOperands};
ghost use Rattle.subsetter_cff.specs.Read.Entries.OperandDemands.{font_dict_demands};
ghost use Rattle.subsetter_cff.specs.Read.Entries.TopDicts.{IsFontDict};

use crate::read::entries::fields::Demands;
use crate::read::entries::top_dict::{no_values, read_entries};
use std::ops::Range;
use subsetter_cffdata::numerals::number::{Number, StringId};

/// What a font dict says.
#[derive(Drop)]
pub struct FontDictData {
    /// The matrix of the font dict.
    pub font_matrix: Option<[Number; 6]>,
    /// Its name.
    pub font_name: Option<StringId>,
    /// The range of its private dict.
    pub private: Option<Range<usize>>,
}

/// Reads the entries of a font dict; None where an entry has wrong operands.
pub fn parse_font_dict_data(dict: &[u8]) -> Option<FontDictData>
    ensures value { IfSome result (λ f. IsFontDict (entries dict.now) f) }
    ensures sound { IfSome result (λ _. HasWrongOperands font_dict_demands (entries dict.now) → ⊥) }
    ensures fault { IfNone result (HasWrongOperands font_dict_demands (entries dict.now)) }
{
    let mut said = no_values();
    if !read_entries(Demands::FontDict, dict, &mut said) {
        return None;
    }
    Some(FontDictData {
        font_matrix: said.font_matrix,
        font_name: said.font_name,
        private: said.private,
    })
}
