//! The operands of a private dict that no operator has taken yet (OpenType, "CFF2": "Private DICT Data").

ghost use Rattle.std.specs.Prelude.{◌≡◌, ◌≤◌, ◌<◌, ◌^◌, ◌*◌, ◌+◌, ◌++◌, All, IfSome, length, map, take, OnOk, IfErr, IfOk};
ghost use Rattle.std.specs.Option.{option_map};
ghost use Rattle.subsetter_base.specs.declared.error.Error.TheVariants.{OutOfMemory};
ghost use Rattle.subsetter_base.specs.Gives.{Fails, following};
ghost use Rattle.subsetter_cffdata.specs.Views.{number_of, operator_of};
ghost use Rattle.subsetter_cff.specs.Write.NewDicts.Rewritten.{written_entry};
ghost use Rattle.subsetter_cff2.specs.PrivateDicts.Blend.{in_parts};
ghost use Rattle.subsetter_cff2.specs.PrivateDicts.Held.{IsHeld};
ghost use Rattle.subsetter_cff2.specs.PrivateDicts.PrivateAt.{at_start, cleared, pushed, chosen, last_natural, blended_by, placed_entry};

use crate::offsets::one_natural;
use crate::private_dicts::blend::{blend_from, in_parts};
use crate::private_dicts::placing::write_front;
use crate::variation::Variation;
use std::alloc::Global;
use std::marker::Model;
use subsetter_base::error::Error;
use subsetter_base::write::Writer;
use subsetter_cffdata::dicts::operator::Operator;
use subsetter_cffdata::numerals::number::Number;

/// How many operands the stack holds.
pub const MAX_OPERANDS: usize = 513;

/// The operands, and which item variation data count.
#[derive(Drop)]
pub struct PrivateStack {
    defaults: Vec<Number>,
    parts: [Option<i64>; 513],
    len: usize,
    data_index: u16,
    is_settled: bool,
}

impl Model for PrivateStack {
    ghost use Rattle.std.specs.Prelude.{◌≡◌, ◌≤◌, All, length, map, take};
    ghost use Rattle.subsetter_cffdata.specs.Views.{number_of};
    ghost use Rattle.subsetter_cff2.specs.PrivateDicts.Held.{IsHeld};
    ghost use Rattle.subsetter_cff2.specs.PrivateDicts.PrivateAt.{Registers};

    ghost Value = { Registers };

    ghost view = { λ s. record {
      defaults = map number_of (take s.len s.defaults.items);
      parts = take s.len s.parts;
      data_index = s.data_index;
      settled = s.is_settled;
    } };

    ghost invariant = { λ s. record {
      room : length s.defaults.items ≡ 513;
      room_of_parts : length s.parts ≡ 513;
      few : s.len ≤ 513;
      held : All IsHeld s.parts;
    } };
}

/// Puts numbers at a place.
fn put_defaults(places: &mut [Number], at: usize, operands: &[Number])
    requires { at + length operands.now ≤ length places.old }
    ensures { take (at + length operands.now) places.new ≡ take at places.old ++ operands.now }
{
    places[at..at + operands.len()].copy_from_slice(operands);
}

/// Operands in parts, each in its place.
fn fill_parts(places: &mut [Option<i64>], operands: &[Number])
    requires same { length places.old ≡ length operands.now }
    requires held { All IsHeld places.old }
    ensures value { places.new ≡ map in_parts (map number_of operands.now) }
    ensures held { All IsHeld places.new }
{
    for i in 0..operands.len() {
        places[i] = in_parts(&operands[i]);
    }
}

/// Puts operands in parts at a place.
fn put_parts(places: &mut [Option<i64>], at: usize, operands: &[Number])
    requires room { at + length operands.now ≤ length places.old }
    requires held { All IsHeld places.old }
    ensures value { take (at + length operands.now) places.new ≡ take at places.old ++ map in_parts (map number_of operands.now) }
    ensures held { All IsHeld places.new }
{
    fill_parts(&mut places[at..at + operands.len()], operands);
}

/// The last number, where it is a natural one.
#[tactic(auto, unfolding(crate::specs::PrivateDicts::PrivateAt::last_natural))]
fn last_natural(numbers: &[Number]) -> Option<u32>
    ensures value { result ≡ last_natural (map number_of numbers.now) }
    ensures some { IfSome result (λ _. 1 ≤ length numbers.now) }
{
    match numbers {
        [.., last] => last.as_u32(),
        [] => None,
    }
}

/// How many operands a blend takes, but for its count.
fn size_of_blend(count: usize, regions: usize) -> usize
    requires count { count < 2 ^ 32 }
    requires regions { regions ≤ 65535 }
    ensures { result ≡ count * (regions + 1) }
{
    count.saturating_mul(regions + 1)
}

impl PrivateStack {
    /// No operands, and the first item variation data.
    pub fn new(alloc: Global) -> Result<Self, Error>
        ensures ok { IfOk result (λ s. s ≡ at_start) }
        ensures err { IfErr result (λ e. e ≡ OutOfMemory) }
    {
        Ok(PrivateStack {
            defaults: vec![in alloc; Number::zero(); 513]?,
            parts: [None; 513],
            len: 0,
            data_index: 0,
            is_settled: false,
        })
    }

    /// The item variation data that count.
    pub fn data_index(&self) -> u16
        ensures { result ≡ self.now.data_index }
    {
        self.data_index
    }

    /// Puts operands after the others; None where there are more than 513.
    #[tactic(auto, unfolding(crate::specs::PrivateDicts::PrivateAt::pushed))]
    pub fn push(&mut self, operands: &[Number]) -> Option<()>
        ensures { pushed self.old (map number_of operands.now) ≡ option_map (λ _. self.new) result }
    {
        if operands.len() > MAX_OPERANDS - self.len {
            return None;
        }
        put_defaults(&mut self.defaults, self.len, operands);
        put_parts(&mut self.parts, self.len, operands);
        self.len += operands.len();
        Some(())
    }

    /// Takes all operands away.
    pub fn clear(&mut self)
        ensures { self.new ≡ cleared self.old }
    {
        self.len = 0;
    }

    /// Its one operand names the item variation data that count from here on; None where it doesn't, or they are settled.
    #[tactic(auto, unfolding(crate::specs::PrivateDicts::PrivateAt::chosen))]
    pub fn choose(&mut self, variation: &Option<Variation<'_>>) -> Option<()>
        ensures { chosen variation.now self.old ≡ option_map (λ _. self.new) result }
    {
        let Some(variation) = variation else {
            return None;
        };
        if self.is_settled {
            return None;
        }
        let outer = one_natural(&self.defaults[..self.len])?;
        variation.count(outer)?;
        self.len = 0;
        self.data_index = outer as u16;
        self.is_settled = true;
        Some(())
    }

    /// Results replace defaults and deltas, by the last operand; None where there are too few, or no data.
    #[tactic(auto, unfolding(crate::specs::PrivateDicts::PrivateAt::blended_by, crate::specs::PrivateDicts::Blend::blended))]
    pub fn blend(&mut self, variation: &Option<Variation<'_>>) -> Option<()>
        ensures { blended_by variation.now self.old ≡ option_map (λ _. self.new) result }
    {
        let Some(variation) = variation else {
            return None;
        };
        let count = last_natural(&self.defaults[..self.len])? as usize;
        let outer = u32::from(self.data_index);
        let regions = variation.count(outer)?;
        let len = self.len - 1;
        let size = size_of_blend(count, regions);
        if size > len {
            return None;
        }
        let base = len - size;
        blend_from(&mut self.parts, base, len, count, variation, outer, regions);
        self.len = base + count;
        self.is_settled = true;
        Some(())
    }

    /// Writes an entry of the first 48 operands, placed, and takes all operands away. A real that is too long is `OverflowError`.
    pub fn write(&mut self, is_array: bool, operator: Operator, w: &mut Writer) -> Result<(), Error>
        ensures registers { OnOk result (self.new ≡ cleared self.old) }
        ensures ok { OnOk result (following w.old (written_entry (operator_of operator) (placed_entry is_array (operator_of operator) self.old).operands) ≡ Ok w.new) }
        ensures err { IfErr result (λ e. Fails e (following w.old (written_entry (operator_of operator) (placed_entry is_array (operator_of operator) self.old).operands))) }
    {
        let len = self.len.min(48);
        write_front(is_array, &mut self.defaults, &self.parts, len, operator, w)?;
        self.len = 0;
        Ok(())
    }
}
