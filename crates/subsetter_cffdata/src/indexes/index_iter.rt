//! The entries of an INDEX, one after the other.

use crate::indexes::index_view::Index;

/// The entries from the front, before the first that can't be read.
#[derive(Drop)]
pub struct IndexIter<'a> {
    pub(crate) index: Index<'a>,
    pub(crate) offset: u32,
}

impl<'a> Iterator for IndexIter<'a> {
    type Item = &'a [u8];

    ghost use Rattle.std.specs.Iterator.{YieldsFirstRef, item_count};
    ghost use Rattle.subsetter_cffdata.specs.Indexes.IndexRest.{left};

    ghost next_gives = { YieldsFirstRef left };

    ghost remaining = { item_count left };

    fn next(&mut self) -> Option<&'a [u8]> {
        let place = self.offset;
        let end = self.index.len();
        if place >= end {
            return None;
        }
        // After an entry that can't be read nothing follows.
        self.offset = end;
        let entry = self.index.get(place)?;
        self.offset = place + 1;
        Some(entry)
    }
}
