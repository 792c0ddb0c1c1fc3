//! The tables of a new font.

ghost use Rattle.std.specs.Prelude.{◌≡◌, ◌+◌, ◌<◌, ◌≤◌, ◌^◌, ◌++◌, ℕ, List, length, vec_capacity, IfOk, IfErr};
ghost use Rattle.std.specs.Option.{option_map};
ghost use Rattle.subsetter_sfnt.specs.Laying.Checksum.{checksum};
ghost use Rattle.subsetter_sfnt.specs.Laying.Rows.{opt, rows, present};
ghost use Rattle.subsetter_sfnt.specs.View.{views, font_seen};
ghost use Rattle.subsetter_base.specs.declared.error.Error.TheVariants.{OutOfMemory};

use crate::laying::checksum::checksum;
use crate::laying::room::put;
use std::alloc::Global;
use subsetter_base::{Error, Tag};

/// What a table's bytes are written from.
pub trait TableBytes: Copy {
    /// The bytes of the table.
    ghost bytes_of: { Self → List ℕ };

    /// How many bytes there are; where these are 2^32 or more, some number from 2^32 on.
    fn len(&self) -> usize
        ensures exact { length (bytes_of self.now) < 2 ^ 32 → result ≡ length (bytes_of self.now) }
        ensures past { 2 ^ 32 ≤ length (bytes_of self.now) → 2 ^ 32 ≤ result };

    /// Writes the bytes into room that was reserved before, and returns their checksum.
    fn write_summed(&self, out: &mut Vec<u8>) -> u32
        requires { length out.old.items + length (bytes_of self.now) ≤ vec_capacity out.old }
        ensures items { out.new.items ≡ out.old.items ++ bytes_of self.now }
        ensures capacity { vec_capacity out.old ≤ vec_capacity out.new }
        ensures sum { result ≡ checksum (bytes_of self.now) };
}

/// A table as one piece.
impl<'a> TableBytes for &'a [u8] {
    ghost bytes_of = { λ bytes. bytes.now };

    fn len(&self) -> usize {
        let bytes = *self;
        bytes.len()
    }

    fn write_summed(&self, out: &mut Vec<u8>) -> u32 {
        let bytes = *self;
        put(out, bytes);
        checksum(bytes)
    }
}

/// The tables that a new font can have, whichever its kind of outlines is, each if it is there.
pub struct FontTables<T> {
    pub cff: Option<T>,
    pub cvt: Option<T>,
    pub fpgm: Option<T>,
    pub glyf: Option<T>,
    pub head: Option<T>,
    pub hhea: Option<T>,
    pub hmtx: Option<T>,
    pub loca: Option<T>,
    pub maxp: Option<T>,
    pub name: Option<T>,
    pub post: Option<T>,
    pub prep: Option<T>,
}

/// A table of the new font.
#[derive(Clone, Copy)]
pub struct NewTable<T> {
    pub tag: Tag,
    pub data: T,
}

/// Puts a table last, if it is there, in room that was reserved before.
fn push<T: TableBytes>(list: &mut Vec<NewTable<T>>, tag: Tag, data: Option<T>)
    requires { length list.old.items < vec_capacity list.old }
    ensures items { views T.bytes_of list.new.items ≡ views T.bytes_of list.old.items ++ opt tag.0 (option_map T.bytes_of «data») }
    ensures length { length list.new.items ≤ length list.old.items + 1 }
    ensures capacity { vec_capacity list.old ≤ vec_capacity list.new }
{
    if let Some(data) = data {
        list.push(NewTable { tag, data }).unwrap();
    }
}

/// The tables that are there, in ascending order of their tags.
pub fn in_order<T: TableBytes>(
    alloc: Global,
    tables: FontTables<T>,
) -> Result<Vec<NewTable<T>>, Error>
    ensures ok { IfOk result (λ list. views T.bytes_of list.items ≡ present (rows (font_seen T.bytes_of tables))) }
    ensures err { IfErr result (λ e. e ≡ OutOfMemory) }
{
    let FontTables {
        cff,
        cvt,
        fpgm,
        glyf,
        head,
        hhea,
        hmtx,
        loca,
        maxp,
        name,
        post,
        prep,
    } = tables;
    let mut list = Vec::with_capacity(alloc, 12)?;
    push(&mut list, Tag::CFF, cff);
    push(&mut list, Tag::CVT, cvt);
    push(&mut list, Tag::FPGM, fpgm);
    push(&mut list, Tag::GLYF, glyf);
    push(&mut list, Tag::HEAD, head);
    push(&mut list, Tag::HHEA, hhea);
    push(&mut list, Tag::HMTX, hmtx);
    push(&mut list, Tag::LOCA, loca);
    push(&mut list, Tag::MAXP, maxp);
    push(&mut list, Tag::NAME, name);
    push(&mut list, Tag::POST, post);
    push(&mut list, Tag::PREP, prep);
    Ok(list)
}
