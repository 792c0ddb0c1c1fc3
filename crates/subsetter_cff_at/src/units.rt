//! FontMatrix of a font whose top dict has none (OpenType, "head"; Technical Note 5176, section 9 "Top DICT Data").

ghost use Rattle.std.specs.Prelude.{◌≡◌, ◌≤◌, ◌<◌};
ghost use Rattle.std.specs.Option.{option_map};
ghost use Rattle.subsetter_cffdata.specs.Dicts.Dict.{entries};
ghost use Rattle.subsetter_cff.specs.Read.Entries.Lookup.{last_of};
ghost use Rattle.subsetter_cff.specs.Read.Entries.Operators.{font_matrix_operator};
ghost use Rattle.subsetter_cff.specs.Write.NewDicts.MatrixView.{shown};
ghost use Rattle.subsetter_cff2.specs.Made2.{optional_matrix};
ghost use Rattle.subsetter_cff_at.specs.Units.{parts_of_unit, two_digits, unit_real, units_dict, matrix_or};

use subsetter_cff::write::new_dicts::matrix::Matrix;
use subsetter_cff2::made::find_matrix;

/// 1/unitsPerEm in parts of 10^14, to the nearest; 0.001 where there are no units.
fn parts_of_unit(units: u16) -> u64
    ensures value { result ≡ parts_of_unit units }
    ensures small { result ≤ 100000000032767 }
{
    if units == 0 {
        return 100_000_000_000;
    }
    let units = u64::from(units);
    (100_000_000_000_000 + units / 2) / units
}

/// Two digits as two halves of a byte.
fn two_digits(n: u64) -> u8
    requires { n < 100 }
    ensures { result ≡ two_digits n }
{
    (n / 10 * 16 + n % 10) as u8
}

/// A real of a DICT: a digit, the point and fourteen digits.
fn unit_real(n: u64) -> [u8; 10]
    requires { n ≤ 100000000032767 }
    ensures { result ≡ unit_real n }
{
    [
        30,
        (n / 100_000_000_000_000 * 16 + 10) as u8,
        two_digits(n / 1_000_000_000_000 % 100),
        two_digits(n / 10_000_000_000 % 100),
        two_digits(n / 100_000_000 % 100),
        two_digits(n / 1_000_000 % 100),
        two_digits(n / 10_000 % 100),
        two_digits(n / 100 % 100),
        two_digits(n % 100),
        255,
    ]
}

/// A dict with FontMatrix alone: 1/unitsPerEm 0 0 1/unitsPerEm 0 0.
#[tactic(auto, unfolding(crate::specs::Units::units_dict))]
fn units_dict(units: u16) -> [u8; 26]
    ensures { result ≡ units_dict units }
{
    let [a, b, c, d, e, f, g, h, i, j] = unit_real(parts_of_unit(units));
    [
        a, b, c, d, e, f, g, h, i, j, 139, 139, a, b, c, d, e, f, g, h, i, j, 139, 139, 12, 7,
    ]
}

/// FontMatrix of a top dict, or by unitsPerEm where it has none; None where it isn't six numbers.
pub fn top_matrix(top: &[u8], units: u16) -> Option<Option<Matrix>>
    ensures { option_map shown result ≡ matrix_or (optional_matrix (last_of font_matrix_operator (entries top.now))) units }
{
    match find_matrix(top)? {
        Some(matrix) => Some(Some(matrix)),
        None => find_matrix(&units_dict(units)),
    }
}
