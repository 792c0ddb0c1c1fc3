//! Arrays whose items are read from their bytes only when they are requested.
//!
//! `LazyArray16` keeps its bytes and its count. It isn't `Copy`; it has `iter` beside `into_iter`.

ghost use Rattle.std.specs.Prelude.{◌≡◌, ◌*◌, ◌/◌, ◌<◌, ◌≤◌, [], length};
ghost use Rattle.std.specs.Iterator.{YieldsFirst, item_count};
ghost use Rattle.std.specs.Option.{option_and_then};
ghost use Rattle.subsetter_base.specs.Items.{item, values};

use crate::read::{Readable, Reader};
use std::fmt;
use std::marker::{Model, PhantomData};

/// An array of at most 65535 items of one size, as the bytes that spell them.
#[derive(Drop)]
pub struct LazyArray16<'a, T> {
    data: &'a [u8],
    len: u16,
    of: PhantomData<T>,
}

impl<'a, T> Model for LazyArray16<'a, T> {
    ghost use Rattle.subsetter_base.specs.Items.{Items};

    ghost Value = { Items };

    ghost view = { λ a. record { bytes = a.data.now; count = a.len } };
}

impl<'a, T: Readable<'a>> LazyArray16<'a, T> {
    /// The array that the bytes spell; bytes after its last whole item are left out.
    pub fn new(data: &'a [u8]) -> Self
        requires size { 0 < T.SIZE }
        requires few { length «data».now / T.SIZE ≤ 65535 }
        ensures { result ≡ record { bytes = «data».now; count = length «data».now / T.SIZE } }
    {
        Self::of_items(data, (data.len() / T::SIZE) as u16)
    }

    /// The array of `len` items over these bytes.
    pub(crate) fn of_items(data: &'a [u8], len: u16) -> Self
        ensures { result ≡ record { bytes = «data».now; count = len } }
    {
        Self {
            data,
            len,
            of: PhantomData,
        }
    }

    /// How many items there are.
    pub fn len(&self) -> u16
        ensures { result ≡ self.now.count }
    {
        self.len
    }

    /// The item at an index, if it is there and its bytes spell one.
    pub fn get(&self, index: u16) -> Option<T>
        ensures { result ≡ option_and_then T.value_of (item T.SIZE self.now index) }
    {
        if index >= self.len {
            return None;
        }
        let start = usize::from(index).checked_mul(T::SIZE)?;
        Reader::new_at(self.data, start).read::<T>()
    }

    /// Its values from the front, up to the first that can't be read.
    pub fn iter(&self) -> LazyArrayIter16<'a, T>
        ensures { result ≡ self.now }
    {
        LazyArrayIter16 {
            rest: self.data,
            len: self.len,
            of: PhantomData,
        }
    }
}

/// No items.
impl<'a, T: Readable<'a>> Default for LazyArray16<'a, T> {
    ghost is_default = { λ a. a ≡ record { bytes = []; count = 0 } };

    fn default() -> Self {
        Self::of_items(&[], 0)
    }
}

impl<'a, T: Readable<'a> + fmt::Debug + Drop> fmt::Debug for LazyArray16<'a, T> {
    fn fmt<W: fmt::Write>(&self, f: &mut fmt::Formatter<W>) -> fmt::Result {
        f.debug_list().entries(self.iter()).finish()
    }
}

impl<'a, T: Readable<'a>> IntoIterator for LazyArray16<'a, T> {
    type Item = T;

    type IntoIter = LazyArrayIter16<'a, T>;

    ghost into_iter_gives = { λ a it. it ≡ a };

    fn into_iter(self) -> LazyArrayIter16<'a, T> {
        self.iter()
    }
}

/// The values of an array, from the front, up to the first that can't be read.
#[derive(Drop)]
pub struct LazyArrayIter16<'a, T> {
    rest: &'a [u8],
    len: u16,
    of: PhantomData<T>,
}

impl<'a, T> Model for LazyArrayIter16<'a, T> {
    ghost use Rattle.subsetter_base.specs.Items.{Items};

    ghost Value = { Items };

    ghost view = { λ s. record { bytes = s.rest.now; count = s.len } };
}

/// No values.
impl<'a, T: Readable<'a>> Default for LazyArrayIter16<'a, T> {
    ghost is_default = { λ s. s ≡ record { bytes = []; count = 0 } };

    fn default() -> Self {
        Self {
            rest: &[],
            len: 0,
            of: PhantomData,
        }
    }
}

impl<'a, T: Readable<'a>> Iterator for LazyArrayIter16<'a, T> {
    type Item = T;

    ghost next_gives = { YieldsFirst (values T.SIZE T.value_of) };

    ghost remaining = { item_count (values T.SIZE T.value_of) };

    fn next(&mut self) -> Option<T> {
        let len = self.len;
        if len == 0 {
            return None;
        }
        self.len = 0;
        let value = Reader::new(self.rest).read::<T>()?;
        self.rest = &self.rest[T::SIZE..];
        self.len = len - 1;
        Some(value)
    }
}
