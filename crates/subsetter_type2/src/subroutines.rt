//! Subroutines, and how a charstring names them (Technical Note 5177, section 4.7 "Subroutine Operators").

ghost use Rattle.std.specs.Prelude.{◌≡◌, ◌+ℤ◌, pos, length, slice_get};
ghost use Rattle.std.specs.Option.{option_copied};
ghost use Rattle.subsetter_cffdata.specs.Indexes.IndexView.{items};
ghost use Rattle.subsetter_type2.specs.Subroutines.{bias_of, entry_at, biased_entry};
ghost use Rattle.subsetter_cffdata.specs.Numerals.Numbers.{not_negative};

use crate::charstring::CharString;
use std::marker::Model;
use subsetter_cffdata::indexes::index::Index;

/// The local subroutines of each font dict.
#[derive(Drop)]
pub struct SubroutineCollection<'a> {
    containers: Vec<SubroutineContainer<'a>>,
}

impl<'a> Model for SubroutineCollection<'a> {
    ghost use Rattle.std.specs.Prelude.{ℕ, List, Option};

    ghost Value = { List (List (Option (List ℕ))) };

    ghost view = { λ c. c.containers.items };
}

impl<'a> SubroutineCollection<'a> {
    /// The local subroutines of the font dicts, in the order of their numbers.
    pub fn new(containers: Vec<SubroutineContainer<'a>>) -> Self
        ensures { result ≡ containers.entry.items }
    {
        SubroutineCollection { containers }
    }

    /// The local subroutines of this font dict, if there is one of that number.
    pub fn get_handler(&self, font_dict: u8) -> Option<SubroutineHandler<'_>>
        ensures { result ≡ slice_get self.now font_dict }
    {
        let container = self.containers.get(font_dict as usize)?;
        Some(container.get_handler())
    }
}

/// The entries of one subroutine INDEX, with `None` for one that cannot be read.
#[derive(Drop)]
pub struct SubroutineContainer<'a> {
    index: Index<'a>,
}

impl<'a> Model for SubroutineContainer<'a> {
    ghost use Rattle.std.specs.Prelude.{ℕ, List, Option};
    ghost use Rattle.subsetter_cffdata.specs.Indexes.IndexView.{items};

    ghost Value = { List (Option (List ℕ)) };

    ghost view = { λ c. items c.index };
}

impl<'a> SubroutineContainer<'a> {
    /// The entries of this INDEX. None is read before it is requested.
    pub fn new(index: Index<'a>) -> Self
        ensures { result ≡ items index.entry }
    {
        SubroutineContainer { index }
    }

    /// Access to the subroutines.
    pub fn get_handler(&self) -> SubroutineHandler<'a>
        ensures { result ≡ self.now }
    {
        SubroutineHandler::new(self.index)
    }
}

/// Access to the subroutines of one INDEX by their numbers.
#[derive(Drop)]
pub struct SubroutineHandler<'a> {
    index: Index<'a>,
}

impl<'a> Model for SubroutineHandler<'a> {
    ghost use Rattle.std.specs.Prelude.{ℕ, List, Option};
    ghost use Rattle.subsetter_cffdata.specs.Indexes.IndexView.{items};

    ghost Value = { List (Option (List ℕ)) };

    ghost view = { λ h. items h.index };
}

impl<'a> SubroutineHandler<'a> {
    /// The entries of this INDEX. One that cannot be read counts for the bias all the same.
    pub fn new(index: Index<'a>) -> Self
        ensures { result ≡ items index.entry }
    {
        SubroutineHandler { index }
    }

    /// The subroutine that an operand names; none where there is none, or it cannot be read.
    #[tactic(auto, unfolding(crate::specs::Subroutines::biased_entry))]
    pub fn get_with_biased(&self, index: i32) -> Option<CharString<'a>>
        ensures { option_copied result ≡ biased_entry self.now index }
    {
        let unbiased = unapply_bias(index, bias(self.index.len()))?;
        self.get_with_unbiased(unbiased)
    }

    /// The entry at this index; none where there is none, or it cannot be read.
    pub fn get_with_unbiased(&self, index: u32) -> Option<CharString<'a>>
        ensures { option_copied result ≡ entry_at self.now index }
    {
        self.index.get(index)
    }
}

/// With fewer subroutines than this the bias is the least one (Technical Note 5176, section 16 "Local/Global Subrs INDEXes").
const FEW_SUBROUTINES: u32 = 1240;
/// With this many or more it is the greatest one.
const MANY_SUBROUTINES: u32 = 33900;

const LEAST_BIAS: u16 = 107;

const MIDDLE_BIAS: u16 = 1131;

const GREATEST_BIAS: u16 = 32768;

/// What is added to an operand, by how many subroutines there are.
fn bias(count: u32) -> u16
    ensures { result ≡ bias_of count }
{
    if count < FEW_SUBROUTINES {
        LEAST_BIAS
    } else if count < MANY_SUBROUTINES {
        MIDDLE_BIAS
    } else {
        GREATEST_BIAS
    }
}

/// The index in the INDEX that an operand names; none where the sum with the bias is below 0.
pub fn unapply_bias(index: i32, bias: u16) -> Option<u32>
    ensures { result ≡ not_negative (index +ℤ pos bias) }
{
    let sum = index as i64 + bias as i64;
    if sum < 0 {
        return None;
    }
    Some(sum as u32)
}
