//! The numbers of an entry at a location: each edge of an array of differences, or each number, rounded once.

ghost use Rattle.std.specs.Prelude.{◌≡◌, ◌≤◌, ◌+ℤ◌, ◌-ℤ◌, ◌^◌, ◌*◌, ◌+◌, ℕ, All, length, map, take, is_some, pos, unsigned_abs, OnOk, IfErr};
ghost use Rattle.std.specs.List.{list_all};
ghost use Rattle.subsetter_cffdata.specs.Numerals.Numbers.{Integer};
ghost use Rattle.subsetter_cffdata.specs.Views.{number_of, operator_of};
ghost use Rattle.subsetter_base.specs.Gives.{Fails, following};
ghost use Rattle.subsetter_cff.specs.Write.NewDicts.Rewritten.{written_entry};
ghost use Rattle.subsetter_blend.specs.Runs.Number.{whole};
ghost use Rattle.subsetter_cff2.specs.PrivateDicts.Blend.{edges};
ghost use Rattle.subsetter_cff2.specs.PrivateDicts.Held.{IsHeld};
ghost use Rattle.subsetter_cff2.specs.PrivateDicts.PrivateAt.{known, rounded, placed_numbers};

use subsetter_base::error::Error;
use subsetter_base::write::Writer;
use subsetter_blend::runs::parts::whole;
use subsetter_cff::write::new_dicts::entries::write_numbers;
use subsetter_cffdata::dicts::operator::Operator;
use subsetter_cffdata::numerals::number::Number;

/// The parts, or 0.
fn known(parts: Option<i64>) -> i64
    requires { IsHeld parts }
    ensures value { result ≡ known parts }
    ensures bound { unsigned_abs result ≤ 2 ^ 45 }
{
    parts.unwrap_or(0)
}

/// All operands have parts.
fn are_known(parts: &[Option<i64>]) -> bool
    ensures { result ≡ list_all is_some parts.now }
{
    for part in parts {
        if part.is_none() {
            return false;
        }
    }
    true
}

/// A sum of few edges.
fn plus(sum: i64, more: i64) -> i64
    requires sum { unsigned_abs sum ≤ 2 ^ 59 }
    requires more { unsigned_abs more ≤ 2 ^ 45 }
    ensures value { result ≡ sum +ℤ more }
    ensures bound { unsigned_abs result ≤ unsigned_abs sum + unsigned_abs more }
{
    sum + more
}

/// From one edge to the next, as a number.
fn step(from: i64, to: i64) -> Number
    requires from { unsigned_abs from ≤ 2 ^ 59 }
    requires to { unsigned_abs to ≤ 2 ^ 59 }
    ensures { number_of result ≡ Integer (whole to -ℤ whole from) }
{
    Number::from_i32((whole(to) - whole(from)) as i32)
}

/// Numbers give way to the differences between rounded edges.
fn place_edges(numbers: &mut [Number], parts: &[Option<i64>])
    requires same { length numbers.old ≡ length parts.now }
    requires few { length parts.now ≤ 48 }
    requires held { All IsHeld parts.now }
    ensures { map number_of numbers.new ≡ map Integer (edges (map known parts.now)) }
{
    let mut sum = 0;
    for i in 0..numbers.len() {
        let next = plus(sum, known(parts[i]));
        numbers[i] = step(sum, next);
        sum = next;
    }
}

/// Numbers give way to rounded ones.
fn place_wholes(numbers: &mut [Number], parts: &[Option<i64>])
    requires same { length numbers.old ≡ length parts.now }
    requires held { All IsHeld parts.now }
    ensures { map number_of numbers.new ≡ map Integer (map whole (map known parts.now)) }
{
    for i in 0..numbers.len() {
        numbers[i] = Number::from_i32(whole(known(parts[i])) as i32);
    }
}

/// The operands of an entry give way to those at the place, where all have parts.
#[tactic(auto, unfolding(crate::specs::PrivateDicts::PrivateAt::placed_numbers))]
fn place_numbers(is_array: bool, numbers: &mut [Number], parts: &[Option<i64>])
    requires same { length numbers.old ≡ length parts.now }
    requires few { length parts.now ≤ 48 }
    requires held { All IsHeld parts.now }
    ensures { map number_of numbers.new ≡ placed_numbers is_array (map number_of numbers.old) parts.now }
{
    if are_known(parts) {
        if is_array {
            place_edges(numbers, parts);
        } else {
            place_wholes(numbers, parts);
        }
    }
}

/// The first `len` numbers give way to those at the place.
fn place_front(is_array: bool, numbers: &mut [Number], parts: &[Option<i64>], len: usize)
    requires same { len ≤ length numbers.old }
    requires same_parts { len ≤ length parts.now }
    requires few { len ≤ 48 }
    requires held { All IsHeld parts.now }
    ensures { map number_of (take len numbers.new) ≡ placed_numbers is_array (map number_of (take len numbers.old)) (take len parts.now) }
{
    place_numbers(is_array, &mut numbers[..len], &parts[..len]);
}

/// Writes the first `len` numbers, placed, and an operator. A real that is too long is `OverflowError`.
pub fn write_front(
    is_array: bool,
    numbers: &mut [Number],
    parts: &[Option<i64>],
    len: usize,
    operator: Operator,
    w: &mut Writer,
) -> Result<(), Error>
    requires same { len ≤ length numbers.old }
    requires same_parts { len ≤ length parts.now }
    requires few { len ≤ 48 }
    requires held { All IsHeld parts.now }
    ensures ok { OnOk result (following w.old (written_entry (operator_of operator) (placed_numbers is_array (map number_of (take len numbers.old)) (take len parts.now))) ≡ Ok w.new) }
    ensures err { IfErr result (λ e. Fails e (following w.old (written_entry (operator_of operator) (placed_numbers is_array (map number_of (take len numbers.old)) (take len parts.now))))) }
{
    place_front(is_array, numbers, parts, len);
    write_numbers(&numbers[..len], operator, w)
}
