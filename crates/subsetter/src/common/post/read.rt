//! What is read of `post`: its parts, and the font's own names one after another.
//!
//! Version 2.0 has after its header of 32 bytes an index for each glyph: below 258 it is the number of a standard
//! Macintosh name, from there on that of a Pascal string among those that follow.

ghost use Rattle.std.specs.Prelude.{◌≡◌, ◌<◌, ◌*◌, ℕ, [], length, IfOk};
ghost use Rattle.std.specs.Option.{option_map};
ghost use Rattle.std.specs.Iterator.{YieldsFirstRef, item_count};
ghost use Rattle.subsetter_base.specs.Gives.{Gives};
ghost use Rattle.subsetter.specs.Common.Post.Read.{names_in, post_table};
ghost use Rattle.subsetter.specs.Common.Post.Plain.{seen_post, indexes_of};

use std::alloc::Global;
use std::marker::Model;
use subsetter_base::read::{LazyArray16, Reader};
use subsetter_base::{Error, GlyphRemapper};
use subsetter_sfnt::fields::post::{HEADER_SIZE, VERSION_2_0, version};

/// Names, each after its length byte. An empty name is a name; a cut one ends them.
#[derive(Drop)]
pub struct Names<'a> {
    rest: &'a [u8],
}

impl<'a> Model for Names<'a> {
    ghost use Rattle.std.specs.Prelude.{ℕ, List};

    ghost Value = { List ℕ };

    ghost view = { λ s. s.rest.now };
}

impl<'a> Names<'a> {
    /// The names in some bytes.
    pub(crate) fn new(bytes: &'a [u8]) -> Self
        ensures { result ≡ bytes.now }
    {
        Self { rest: bytes }
    }
}

impl<'a> Iterator for Names<'a> {
    type Item = &'a [u8];

    ghost next_gives = { YieldsFirstRef names_in };

    ghost remaining = { item_count names_in };

    fn next(&mut self) -> Option<&'a [u8]> {
        let bytes = self.rest;
        self.rest = &[];
        let (len, rest) = bytes.split_first()?;
        let len = usize::from(*len);
        if len > rest.len() {
            return None;
        }
        self.rest = &rest[len..];
        Some(&rest[..len])
    }
}

/// A table of version 2.0.
#[derive(Drop)]
pub struct Version2Table<'a> {
    pub header: &'a [u8],
    pub glyph_indexes: LazyArray16<'a, u16>,
    pub names_data: &'a [u8],
}

impl<'a> Version2Table<'a> {
    /// Parses a table, if it is one of version 2.0 and its header and its indexes are there.
    #[tactic(auto, unfolding(crate::specs::Common::Post::Read::post_table))]
    pub fn parse(data: &'a [u8]) -> Option<Self>
        ensures { option_map seen_post result ≡ post_table «data».now }
    {
        if version(data)? != VERSION_2_0 {
            return None;
        }
        let mut r = Reader::new(data);
        let header = r.read_bytes(HEADER_SIZE)?;
        let count = r.read::<u16>()?;
        let glyph_indexes = r.read_array16::<u16>(count)?;
        let names_data = r.tail()?;
        Some(Self {
            header,
            glyph_indexes,
            names_data,
        })
    }

    /// The font's own names.
    pub fn names(&self) -> Names<'a>
        ensures { result ≡ self.now.names_data.now }
    {
        Names::new(self.names_data)
    }

    /// The indexes of glyphs; `MalformedFont` where one is missing.
    pub(crate) fn indexes(&self, alloc: Global, mapper: &GlyphRemapper) -> Result<Vec<u16>, Error>
        ensures exact { Gives (λ v. v.items) result (indexes_of (seen_post self.now) mapper.now) }
        ensures each { IfOk result (λ v. length v.items ≡ length mapper.now) }
    {
        let mut indexes = Vec::with_capacity(alloc, mapper.num_gids() as usize)?;
        for old in mapper.remapped_gids() {
            let index = self.glyph_indexes.get(old).ok_or(Error::MalformedFont)?;
            indexes.push(index)?;
        }
        Ok(indexes)
    }
}
