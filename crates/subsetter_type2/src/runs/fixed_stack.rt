//! A stack of a fixed capacity, which requests no memory.

ghost use Rattle.std.specs.Prelude.{◌≡◌, ◌<◌, ◌≤◌, ◌++◌, ◌∷◌, [], length, MatchOption};

use std::marker::Model;

/// A stack of at most `N` items.
#[derive(Drop)]
pub struct FixedStack<T, const N: usize> {
    items: [T; N],
    len: usize,
}

impl<T, const N: usize> Model for FixedStack<T, N> {
    ghost use Rattle.std.specs.Prelude.{◌≤◌, List, take};

    ghost Value = { List T };

    ghost view = { λ s. take s.len s.items };

    ghost invariant = { λ s. s.len ≤ N };
}

impl<T: Copy, const N: usize> FixedStack<T, N> {
    /// An empty stack, whose room is filled with an item that is never read.
    #[inline(always)]
    pub fn new(filler: T) -> Self
        ensures { result ≡ [] }
    {
        FixedStack {
            items: [filler; N],
            len: 0,
        }
    }

    /// How many items there are.
    #[inline(always)]
    pub fn len(&self) -> usize
        ensures len { result ≡ length self.now }
        ensures room { length self.now ≤ N }
    {
        self.len
    }

    /// The items, the last one pushed last.
    pub fn as_slice(&self) -> &[T]
        ensures { result.now ≡ self.now }
    {
        &self.items[..self.len]
    }

    /// Puts an item on the top.
    #[inline(always)]
    pub fn push(&mut self, item: T)
        requires { length self.old < N }
        ensures { self.new ≡ self.old ++ item ∷ [] }
    {
        self.items[self.len] = item;
        self.len += 1;
    }

    /// Takes the item at the top.
    #[inline(always)]
    pub fn pop(&mut self) -> Option<T>
        ensures { MatchOption result ((self.old ≡ []) × (self.new ≡ [])) (λ item. self.old ≡ self.new ++ item ∷ []) }
    {
        if self.len == 0 {
            return None;
        }
        self.len -= 1;
        Some(self.items[self.len])
    }

    /// Takes all items away.
    pub fn clear(&mut self)
        ensures { self.new ≡ [] }
    {
        self.len = 0;
    }
}
