//! Vertical stems of private dicts (Technical Note 5176, section 15).

ghost use Rattle.std.specs.Prelude.{◌≡◌, ◌<◌, [], ◌∷◌, map};
ghost use Rattle.std.specs.Str.{bytes_eq};
ghost use Rattle.subsetter_cffdata.specs.Dicts.Dict.{entries};
ghost use Rattle.subsetter_cffdata.specs.Views.{number_of, operator_of};
ghost use Rattle.pdf_cff.specs.Stems.{IsNearest, in_thousandths, of_em, stem_by, stem_in, stem_of, stem_operator};

use subsetter_cffdata::dicts::dict::DictionaryParser;
use subsetter_cffdata::dicts::operator::Operator;
use subsetter_cffdata::numerals::number::Number;

/// StdVW, an operator of one byte.
const STD_VW: u8 = 11;

/// Whether an operator is StdVW.
pub(crate) fn is_stem(operator: &Operator) -> bool
    ensures { result ≡ bytes_eq (operator_of operator.now) stem_operator }
{
    operator.as_slice() == [STD_VW].as_slice()
}

/// A number in thousandths, where it isn't below 0 and has at most three decimals.
fn in_thousandths(width: &Number) -> Option<u32>
    ensures { result ≡ in_thousandths (number_of width.now ∷ []) }
{
    width.times_thousand()?.as_u32()
}

/// `n` thousandths of a unit in thousandths of the em, to the nearest, halves up.
fn of_em(units: u16, n: u32) -> u32
    requires { 0 < units }
    ensures value { result ≡ of_em units n }
    ensures nearest { IsNearest n units result }
{
    let em = u64::from(units);
    ((2 * u64::from(n) + em) / (2 * em)) as u32
}

/// The stem that a width says, in thousandths of the em, if it is above 0.
pub(crate) fn stem_by_width(units: u16, width: &Number) -> Option<u32>
    requires { 0 < units }
    ensures { result ≡ stem_by units (number_of width.now ∷ []) }
{
    let stem = of_em(units, in_thousandths(width)?);
    if stem == 0 {
        return None;
    }
    Some(stem)
}

/// That of just one operand.
fn stem_by(units: u16, operands: &[Number]) -> Option<u32>
    requires { 0 < units }
    ensures { result ≡ stem_by units (map number_of operands.now) }
{
    match operands {
        [width] => stem_by_width(units, width),
        _ => None,
    }
}

/// That of an entry that is StdVW.
fn stem_of(units: u16, operator: &Operator, operands: &[Number]) -> Option<u32>
    requires { 0 < units }
    ensures { result ≡ stem_of units (record { operator = operator_of operator.now; operands = map number_of operands.now }) }
{
    if !is_stem(operator) {
        return None;
    }
    stem_by(units, operands)
}

/// That of the first entry of a private dict that has one. Two operands are enough to know whether there is just one.
pub fn stem_in(units: u16, dict: &[u8]) -> Option<u32>
    requires { 0 < units }
    ensures { result ≡ stem_in units (entries dict.now) }
{
    let mut buffer = [Number::zero(); 2];
    let mut parser = DictionaryParser::new(dict, &mut buffer);
    while let Some(operator) = parser.parse_entry() {
        if let Some(stem) = stem_of(units, &operator, parser.operands()) {
            return Some(stem);
        }
    }
    None
}
