//! The matrices of a subset (Technical Note 5176, section 9 "Top DICT Data" and section 18 "CID-keyed Fonts").

ghost use Rattle.std.specs.Prelude.{◌≡◌, map};
ghost use Rattle.subsetter_cffdata.specs.Views.{number_of};
ghost use Rattle.subsetter_cff.specs.Read.Entries.Matrices.{thousandth, unit_matrix};
ghost use Rattle.subsetter_cff.specs.Write.Made.{new_matrix};
ghost use Rattle.subsetter_cff.specs.Write.NewDicts.MatrixView.{new_top_matrix, shown};

use subsetter_cffdata::numerals::number::{Number, RealNumber};

/// A matrix: six numbers.
pub type Matrix = [Number; 6];

/// The real 0.001.
fn thousandth() -> Number
    ensures { number_of result ≡ thousandth }
{
    Number::Real(RealNumber::ten_to(-3))
}

/// The matrix of a font dict that has none.
pub fn unit_matrix() -> Matrix
    ensures { map number_of result ≡ unit_matrix }
{
    let zero = Number::zero();
    let one = Number::one();
    [one, zero, zero, one, zero, zero]
}

/// The matrix that is written for the font: its own, or 0.001 0 0 0.001 0 0.
pub fn new_top_matrix(top: &Option<Matrix>) -> Matrix
    ensures { map number_of result ≡ new_top_matrix (shown top.now) }
{
    match top {
        Some(matrix) => *matrix,
        None => {
            let zero = Number::zero();
            let scale = thousandth();
            [scale, zero, zero, scale, zero, zero]
        }
    }
}

/// The matrix that is written for a font dict: its own or 1 0 0 1 0 0. Where the font has none, its own is scaled by 1000;
/// None where that has a power of ten past all limits.
pub fn new_matrix(top: Option<Matrix>, own: Option<Matrix>) -> Option<Matrix>
    ensures { shown result ≡ new_matrix (shown top) (shown own) }
{
    match own {
        None => Some(unit_matrix()),
        Some(own) => match top {
            Some(_) => Some(own),
            None => Number::combine(&own),
        },
    }
}
