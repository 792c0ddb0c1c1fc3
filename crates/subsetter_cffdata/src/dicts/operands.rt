//! The operands that operators demand (Technical Note 5176, section 4 "DICT Data", table 6 "Operand Types").

ghost use Rattle.std.specs.Prelude.{◌≡◌, ◌≤◌, map, IfSome};
ghost use Rattle.std.specs.Option.{option_map};
ghost use Rattle.subsetter_cffdata.specs.Dicts.Operands.{string_operand, offset_operand, range_operands, just};
ghost use Rattle.subsetter_cffdata.specs.Views.{number_of};

use crate::numerals::number::Number;
use crate::numerals::string_id::StringId;
use std::ops::Range;

/// One string number.
#[tactic(auto, unfolding(crate::specs::Dicts::Operands::string_operand))]
pub fn string_of(operands: &[Number]) -> Option<StringId>
    ensures { option_map (λ s. s.0) result ≡ string_operand (map number_of operands.now) }
{
    match operands {
        [x] => Some(StringId(u16::try_from(x.as_i32()?).ok()?)),
        _ => None,
    }
}

/// One offset.
#[tactic(auto, unfolding(crate::specs::Dicts::Operands::offset_operand))]
pub fn offset_of(operands: &[Number]) -> Option<usize>
    ensures { result ≡ offset_operand (map number_of operands.now) }
{
    match operands {
        [x] => Some(x.as_u32()? as usize),
        _ => None,
    }
}

/// A length and an offset, as a range that ends no earlier than it begins.
#[tactic(auto, unfolding(crate::specs::Dicts::Operands::range_operands))]
pub fn range_of(operands: &[Number]) -> Option<Range<usize>>
    ensures value { option_map (λ r. (r.start, r.end)) result ≡ range_operands (map number_of operands.now) }
    ensures order { IfSome result (λ r. r.start ≤ r.end) }
{
    match operands {
        [size, offset] => {
            let len = size.as_u32()? as usize;
            let start = offset.as_u32()? as usize;
            Some(start..start + len)
        }
        _ => None,
    }
}

/// Four numbers.
#[tactic(auto, unfolding(crate::specs::Dicts::Operands::just))]
pub fn four_of(operands: &[Number]) -> Option<[Number; 4]>
    ensures { option_map (map number_of) result ≡ just 4 (map number_of operands.now) }
{
    match operands {
        [a, b, c, d] => Some([*a, *b, *c, *d]),
        _ => None,
    }
}

/// Six numbers.
#[tactic(auto, unfolding(crate::specs::Dicts::Operands::just))]
pub fn six_of(operands: &[Number]) -> Option<[Number; 6]>
    ensures { option_map (map number_of) result ≡ just 6 (map number_of operands.now) }
{
    if operands.len() != 6 {
        return None;
    }
    let mut numbers = [Number::zero(); 6];
    numbers.copy_from_slice(operands);
    Some(numbers)
}
