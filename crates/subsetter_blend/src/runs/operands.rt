//! The operands on the stack.

ghost use Rattle.std.specs.Prelude.{◌≡◌, ◌≤◌, ◌<◌, ◌+◌, ◌^◌, ◌++◌, ◌∷◌, [], Some, All, IfSome, OnOk, IfErr, length, map, take, unsigned_abs};
ghost use Rattle.subsetter_blend.specs.Runs.Small.{IsSmall, small};
ghost use Rattle.subsetter_blend.specs.Runs.Blend.{blended, scalars_in};
ghost use Rattle.subsetter_blend.specs.Runs.Machine.{last_operand, but_last};
ghost use Rattle.subsetter_blend.specs.Runs.Number.{IsWithin};
ghost use Rattle.subsetter_blend.specs.Runs.Operands.{IsBlendFault};

use crate::runs::regions::Regions;
use crate::runs::sharing::vary_front;
use std::marker::Model;
use subsetter_base::error::Error;
use subsetter_type2::operators::first_byte;

/// How many operands the stack holds (OpenType, "CFF2 CharString Format").
pub const MAX_OPERANDS: usize = 513;

/// The greatest first byte of a number that has no other.
pub const GREATEST_SMALL: u8 = 246;

/// The lesser of two counts.
fn least(one: usize, other: usize) -> usize
    ensures one { result ≤ one }
    ensures other { result ≤ other }
{
    if one < other { one } else { other }
}

/// The number of this byte alone, in parts.
#[inline(always)]
fn small_in_parts(first: u8) -> i64
    requires low { 32 ≤ first }
    requires high { first < 247 }
    ensures value { result ≡ small first }
    ensures within { unsigned_abs result ≤ 2 ^ 45 }
{
    (i64::from(first) - 139) * 1073741824
}

/// The numbers that no operator has taken yet, in parts.
#[derive(Drop)]
pub struct Operands {
    items: [i64; 513],
    len: usize,
}

impl Model for Operands {
    ghost use Rattle.std.specs.Prelude.{ℤ, List, take};
    ghost use Rattle.subsetter_blend.specs.Runs.Operands.{AreHeld};

    ghost Value = { List ℤ };

    ghost view = { λ s. take s.len s.items };

    ghost invariant = { λ s. AreHeld s.items s.len };
}

impl Operands {
    /// No operands.
    pub fn new() -> Self
        ensures { result ≡ [] }
    {
        Operands {
            items: [0; 513],
            len: 0,
        }
    }

    /// How many operands there are.
    #[inline(always)]
    pub fn len(&self) -> usize
        ensures len { result ≡ length self.now }
        ensures room { length self.now ≤ 513 }
    {
        self.len
    }

    /// The operands, the last one pushed last.
    #[inline(always)]
    pub fn as_slice(&self) -> &[i64]
        ensures same { result.now ≡ self.now }
        ensures few { length self.now ≤ 513 }
        ensures within { All IsWithin self.now }
    {
        &self.items[..self.len]
    }

    /// Puts an operand on the top.
    #[inline(always)]
    pub fn push(&mut self, operand: i64)
        requires room { length self.old < 513 }
        requires within { unsigned_abs operand ≤ 2 ^ 45 }
        ensures { self.new ≡ self.old ++ operand ∷ [] }
    {
        self.items[self.len] = operand;
        self.len += 1;
    }

    /// Pushes the one-byte numbers at the front of these bytes, at most `most` of them, and returns how many.
    #[inline(always)]
    pub fn push_all_small(&mut self, bytes: &[u8], most: usize) -> usize
        ensures most { result ≤ most }
        ensures inside { result ≤ length bytes.now }
        ensures room { length self.old + result ≤ 513 }
        ensures small { All IsSmall (take result bytes.now) }
        ensures pushed { self.new ≡ self.old ++ map small (take result bytes.now) }
    {
        let limit = least(bytes.len(), least(most, MAX_OPERANDS - self.len()));
        for count in 0..limit {
            let first = bytes[count];
            if first < first_byte::LEAST_NUMBER || first > GREATEST_SMALL {
                return count;
            }
            self.push(small_in_parts(first));
        }
        limit
    }

    /// Takes the operand at the top.
    #[inline(always)]
    pub fn pop(&mut self) -> Option<i64>
        ensures value { result ≡ last_operand self.old }
        ensures rest { self.new ≡ but_last self.old }
        ensures within { IfSome result (λ z. unsigned_abs z ≤ 2 ^ 45) }
    {
        if self.len == 0 {
            return None;
        }
        self.len -= 1;
        Some(self.items[self.len])
    }

    /// Takes all operands away.
    #[inline(always)]
    pub fn clear(&mut self)
        ensures { self.new ≡ [] }
    {
        self.len = 0;
    }

    /// Replaces the last operands, `n` defaults and their deltas, by `n` results.
    #[tactic(auto, unfolding(crate::specs::Runs::Blend::blended))]
    pub fn blend<R: Regions>(
        &mut self,
        n: u16,
        regions: &R,
        data_index: u16,
        count: usize,
    ) -> Result<(), Error>
        requires regions { count ≡ length (scalars_in (R.scalars regions.now data_index)) }
        requires few { count ≤ 65535 }
        ensures ok { OnOk result (blended (scalars_in (R.scalars regions.now data_index)) n self.old ≡ Some self.new) }
        ensures within { OnOk result (All IsWithin self.new) }
        ensures err { IfErr result (IsBlendFault (blended (scalars_in (R.scalars regions.now data_index)) n self.old)) }
    {
        let n = n as usize;
        if n * (count + 1) > self.len {
            return Err(Error::CFFError);
        }
        let base = self.len - n * (count + 1);
        vary_front(
            &mut self.items[base..self.len],
            n,
            regions,
            data_index,
            count,
        )?;
        self.len = base + n;
        Ok(())
    }
}
