//! New consecutive numbers for values, in the order in which these come.
//!
//! `get` and `remap` return the counter's type. `CheckedAdd` requires `Copy + From<u8>`.

ghost use Rattle.std.specs.Prelude.{◌≡◌, ◌+◌, ◌<◌, ◌⊎◌, ℕ, [], length, Some, is_ok, IfOk, IfErr, IsOk, IsSome, IsTrue, if◌then◌else◌};
ghost use Rattle.std.specs.Cmp.{partial_equiv_from_equiv};
ghost use Rattle.std.specs.Cmp.Lexicographic.{pointwise};
ghost use Rattle.std.specs.Hash as fed;
ghost use Rattle.std.specs.Iterator.{YieldsFirst, item_count};
ghost use Rattle.std.specs.List.{IsDistinct};
ghost use Rattle.std.specs.Option.{option_map};
ghost use Rattle.std.proofs.lemmas.Cmp.{lists_equiv};
ghost use Rattle.subsetter_base.specs.declared.error.Error.TheVariants.{OutOfMemory};
ghost use Rattle.subsetter_base.specs.Remap.{index_by, with_value, sum_below};

use crate::error::Error;
use std::alloc::Global;
use std::collections::HashMap;
use std::hash::{Hash, Hasher};
use std::marker::Model;

/// A number that counts, up to a limit.
pub trait CheckedAdd: Copy + From<u8> {
    /// The number that a value is.
    ghost number: { Self → ℕ };

    /// The first number that is too great.
    ghost limit: { ℕ };

    /// The sum, if it fits.
    fn checked_add(&self, v: &Self) -> Option<Self>
        ensures { option_map number result ≡ sum_below limit (number self.now) (number v.now) };

    /// A byte becomes the same number.
    ghost same_number: { (n : ℕ) (x : Self) → Self.from_gives n x → number x ≡ n };
}

impl CheckedAdd for u8 {
    ghost number = { λ n. n };

    ghost limit = { 256 };

    ghost same_number = { λ n x h. h };

    fn checked_add(&self, v: &Self) -> Option<Self> {
        u8::checked_add(*self, *v)
    }
}

impl CheckedAdd for u16 {
    ghost number = { λ n. n };

    ghost limit = { 65536 };

    ghost same_number = { λ n x h. h };

    fn checked_add(&self, v: &Self) -> Option<Self> {
        u16::checked_add(*self, *v)
    }
}

impl CheckedAdd for u32 {
    ghost number = { λ n. n };

    ghost limit = { 4294967296 };

    ghost same_number = { λ n x h. h };

    fn checked_add(&self, v: &Self) -> Option<Self> {
        u32::checked_add(*self, *v)
    }
}

/// Values, by new numbers from 0 on that a counter gives them.
#[derive(Drop)]
pub struct Remapper<C: CheckedAdd, T: Copy + Eq + Hash> {
    counter: C,
    forward: HashMap<T, C>,
    backward: Vec<T>,
}

impl<C: CheckedAdd, T: Copy + Eq + Hash> Model for Remapper<C, T> {
    ghost use Rattle.std.specs.Prelude.{◌≡◌, List, length};
    ghost use Rattle.std.specs.Coded.{coded_list};
    ghost use Rattle.std.specs.HashMap.{get};
    ghost use Rattle.std.specs.List.{IsDistinct};
    ghost use Rattle.std.specs.Option.{option_map};
    ghost use Rattle.subsetter_base.specs.Remap.{index_by};

    ghost Value = { List T };

    ghost coded = { coded_list T.code };

    ghost view = { λ r. r.backward.items };

    ghost invariant = { λ r. record {
      counted : C.number r.counter ≡ length r.backward.items;
      forward_is_index : (q : T) → option_map C.number (get T.eq r.forward q) ≡ index_by T.eq r.backward.items q;
      once : IsDistinct T.eq r.backward.items;
    } };
}

impl<C: CheckedAdd, T: Copy + Eq + Hash> Remapper<C, T> {
    /// No values.
    pub fn new(alloc: Global) -> Self
        ensures { result ≡ [] }
    {
        Self {
            counter: C::from(0),
            forward: HashMap::new(alloc),
            backward: Vec::new(alloc),
        }
    }

    /// How many values there are.
    pub fn len(&self) -> C
        ensures count { C.number result ≡ length self.now }
        // None comes twice.
        ensures once { IsDistinct T.eq self.now }
    {
        self.counter
    }

    /// The new number of a value.
    pub fn get(&self, old: T) -> Option<C>
        ensures { option_map C.number result ≡ index_by T.eq self.now old }
    {
        self.forward.get(&old).copied()
    }

    /// The new number of a value, which goes last if it is unknown.
    pub fn remap(&mut self, old: T) -> Result<C, Error>
        requires { IsSome (index_by T.eq self.old old) ⊎ (length self.old + 1 < C.limit) }
        ensures list { self.new ≡ (if is_ok result then with_value T.eq self.old old else self.old) }
        ensures number { IfOk result (λ n. index_by T.eq self.new old ≡ Some (C.number n)) }
        ensures err { IfErr result (λ e. e ≡ OutOfMemory) }
        // A known value takes no memory.
        ensures known { IsSome (index_by T.eq self.old old) → IsOk result }
    {
        if let Some(new) = self.forward.get(&old) {
            return Ok(*new);
        }
        let new = self.counter;
        let next = new.checked_add(&C::from(1)).unwrap();
        self.backward.reserve(1)?;
        self.forward.insert(old, new)?;
        self.backward.push(old).unwrap();
        self.counter = next;
        Ok(new)
    }

    /// The values, by their new numbers.
    pub fn sorted_iter(&self) -> SortedIter<'_, T>
        ensures { result ≡ self.now }
    {
        SortedIter {
            rest: &self.backward,
        }
    }
}

/// Remappers are equal where their lists are.
impl<C: CheckedAdd, T: Copy + Eq + Hash> PartialEq for Remapper<C, T> {
    ghost eq = { pointwise T.eq };

    ghost laws = { partial_equiv_from_equiv (lists_equiv T.Eq.laws) };

    fn eq(&self, other: &Self) -> bool {
        self.backward == other.backward
    }
}

impl<C: CheckedAdd, T: Copy + Eq + Hash> Eq for Remapper<C, T> {
    ghost laws = { lists_equiv T.Eq.laws };
}

/// The hash is that of the list.
impl<C: CheckedAdd, T: Copy + Eq + Hash> Hash for Remapper<C, T> {
    ghost hash_input = { fed.slice T.hash_input };

    ghost respects_eq = { (fed.items_Alike (record { fed = T.respects_eq })).fed };

    fn hash<H: Hasher>(&self, state: &mut H) {
        self.backward.hash(state);
    }
}

/// The values of a remapper, by their new numbers.
#[derive(Drop)]
pub struct SortedIter<'a, T: Copy> {
    rest: &'a [T],
}

impl<'a, T: Copy> Model for SortedIter<'a, T> {
    ghost use Rattle.std.specs.Prelude.{List};
    ghost use Rattle.std.specs.Coded.{coded_list};

    ghost Value = { List T };

    ghost coded = { coded_list T.code };

    ghost view = { λ s. s.rest.now };
}

impl<'a, T: Copy> Iterator for SortedIter<'a, T> {
    type Item = T;

    ghost next_gives = { YieldsFirst (λ rest. rest) };

    ghost remaining = { item_count (λ rest. rest) };

    fn next(&mut self) -> Option<T> {
        let rest = self.rest;
        if rest.is_empty() {
            return None;
        }
        self.rest = &rest[1..];
        Some(rest[0])
    }
}
