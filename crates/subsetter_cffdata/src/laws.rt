//! What was written is read again, whatever follows; what was read is bounded.

ghost use Rattle.std.specs.Prelude.{◌≡◌, ◌≢◌, ◌<◌, ◌^◌, ℕ, ℤ, pos, FitsSigned, List, [], ◌∷◌, map, Some, None};
ghost use Rattle.std.specs.Int.{w32};
ghost use Rattle.std.specs.List.{AllByRecursion};
ghost use Rattle.std.specs.Option.{option_map_or};
ghost use Rattle.subsetter_cffdata.specs.Bytes.{ReadAgain};
ghost use Rattle.subsetter_cffdata.specs.Dicts.Dict.{NewEntry, FitsNewEntry, entry_bytes, meaning, dict, entries, entry_at, limited};
ghost use Rattle.subsetter_cffdata.specs.Indexes.Index.{index, index_at};
ghost use Rattle.subsetter_cffdata.specs.Numerals.Numbers.{Number, FitsDict, integer, integer_at, offset, number, dict_number_at};
ghost use Rattle.subsetter_cffdata.specs.Indexes.Owned.{FitIndex};
ghost use Rattle.subsetter_cffdata.specs.Numerals.ReadNumbers.{IsBounded, HasBounded};
ghost use Rattle.subsetter_cffdata.specs.Numerals.Values.{thousand};

/// An integer that is written is read again.
#[tactic(auto, using(crate::proofs::NumeralsLaws::Integers::integer_again))]
pub fn integer_is_read_again()
    ensures { (z : ℤ) → FitsSigned w32 z → ReadAgain integer_at (integer z) z }
{}

/// An offset that is written in five bytes is read again.
#[tactic(auto, using(crate::proofs::NumeralsLaws::Integers::offset_again))]
pub fn offset_is_read_again()
    ensures { (n : ℕ) → n < 2 ^ 31 → ReadAgain integer_at (offset n) (pos n) }
{}

/// A number of a DICT that is written is read again: an integer, or a real whose text is not too long.
#[tactic(auto, using(crate::proofs::DictsLaws::Dicts::number_again))]
pub fn number_is_read_again()
    ensures { (x : Number) → FitsDict x → ReadAgain dict_number_at (number x) x }
{}

/// An INDEX that is written is read again: all its items can be read.
#[tactic(auto, using(crate::proofs::IndexesLaws::Indexes::index_again))]
pub fn index_is_read_again()
    ensures { (items : List (List ℕ)) → FitIndex items → ReadAgain index_at (index items) (map Some items) }
{}

/// An entry of a DICT that is written is read again.
#[tactic(auto, using(crate::proofs::DictsLaws::Dicts::entry_again))]
pub fn entry_is_read_again()
    ensures { (l : NewEntry) → FitsNewEntry l → ReadAgain entry_at (entry_bytes l) (meaning l) }
{}

/// A DICT that is written is read again, entry by entry.
#[tactic(auto, using(crate::proofs::DictsLaws::Dicts::dict_again))]
pub fn dict_is_read_again()
    ensures { (ls : List NewEntry) → AllByRecursion FitsNewEntry ls → entries (dict ls) ≡ map meaning ls }
{}

/// The entries of a DICT are the one in front, and those after it.
#[tactic(auto, using(crate::proofs::DictsLaws::Entries::entries_step))]
pub fn entries_follow_one_another()
    ensures { (bytes : List ℕ) → entries bytes ≡ option_map_or (λ e. limited e.0 ∷ entries e.1) (entry_at bytes) [] }
{}

/// The numbers of a DICT, whatever its bytes: an integer fits in 32 bits, and the power of ten of a real is at most 1127 in size.
#[tactic(auto, using(crate::proofs::NumeralsLaws::BoundedNumbers::entries_bounded))]
pub fn read_numbers_are_bounded()
    ensures { (bytes : List ℕ) → AllByRecursion HasBounded (entries bytes) }
{}

/// So a thousand times such a number is a number again.
#[tactic(auto, using(crate::proofs::NumeralsLaws::BoundedNumbers::thousand_there))]
pub fn bounded_numbers_can_be_scaled()
    ensures { (x : Number) → IsBounded x → thousand x ≢ None }
{}
