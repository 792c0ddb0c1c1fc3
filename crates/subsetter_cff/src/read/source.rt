//! A CFF table that can be subset (Technical Note 5176, section 2 "Data Layout").

ghost use Rattle.std.specs.Prelude.{◌≡◌, drop, unwrap_or, IfOk, Some};
ghost use Rattle.std.specs.Option.{option_map, option_and_then};
ghost use Rattle.subsetter_base.specs.Gives.{Gives};
ghost use Rattle.subsetter_cffdata.specs.Indexes.IndexView.{items};
ghost use Rattle.subsetter_cff.specs.Read.Cff.{char_strings};
ghost use Rattle.subsetter_cff.specs.Read.FdArray.FontDicts.{select_at};
ghost use Rattle.subsetter_cff.specs.Read.FrontView.{front_of};
ghost use Rattle.subsetter_cff.specs.Read.Opened.{opened, opened_cid};
ghost use Rattle.subsetter_cff.specs.Read.FdArray.Private.{no_private, private_at};
ghost use Rattle.subsetter_cff.specs.Read.FdArray.PrivateView.{private_view};
ghost use Rattle.subsetter_cff.specs.Read.Source.{cff_of, entries_at, opened_keyed, opened_top, IsCidParts, IsKeyed, IsSource};
ghost use Rattle.subsetter_cff.specs.Read.Entries.TopDicts.{IsTopDict};
ghost use Rattle.subsetter_cff.specs.Read.Views.{select_view};

use crate::read::entries::top_dict::{TopDictData, no_values, read_top_dict};
use crate::read::fd_array::fd_select::{FDSelect, parse_fd_select};
pub use crate::read::fd_array::font_dict::FontDict;
use crate::read::fd_array::font_dict_list::parse_font_dicts;
use crate::read::fd_array::private::{PrivateDict, index_at, parse_one_private};
use crate::read::front::{Front, parse_front};
use std::alloc::Global;
use subsetter_base::error::Error;
use subsetter_cffdata::indexes::index::Index;

/// What a font without font dicts has: its private dict.
pub type SIDMetadata<'a> = PrivateDict<'a>;

/// What a CID-keyed font has.
#[derive(Drop)]
pub struct CIDMetadata<'a> {
    /// The font dicts.
    pub font_dicts: Vec<FontDict<'a>>,
    /// Which glyph has which of them.
    pub select: FDSelect<'a>,
}

/// A table that can be subset.
#[derive(Drop)]
pub struct Table<'a> {
    /// The parts in front.
    pub front: Front<'a>,
    /// What the top dict says.
    pub top: TopDictData,
    /// The charstrings.
    pub char_strings: Index<'a>,
    /// The private dict that the top dict names; an empty one where it names none that can be read.
    pub private: SIDMetadata<'a>,
    /// What a CID-keyed font has.
    pub cid: Option<CIDMetadata<'a>>,
}

/// The INDEX at an offset of the table; None where there is no offset, or no INDEX.
fn index_at_offset(bytes: &[u8], offset: Option<usize>) -> Option<Index<'_>>
    ensures { option_map items result ≡ entries_at bytes.now offset }
{
    index_at(bytes, offset?)
}

/// The FDSelect at an offset of the table.
fn select_at_offset(glyphs: u32, bytes: &[u8], offset: Option<usize>) -> Option<FDSelect<'_>>
    ensures { option_map select_view result ≡ option_and_then (λ o. select_at glyphs (drop o bytes.now)) offset }
{
    let start = offset?;
    parse_fd_select(glyphs, bytes.get(start..).unwrap_or(&[]))
}

/// An empty private dict.
#[tactic(auto, using(crate::proofs::ReadLaws::FdArrayLaws::LeadingEntries::no_entries))]
fn empty_private<'a>() -> PrivateDict<'a>
    ensures { private_view result ≡ no_private }
{
    PrivateDict {
        dict: &[],
        subroutines: Index::default(),
    }
}

/// The private dict that the top dict names; an empty one where it names none that can be read.
fn parse_sid_metadata<'a>(alloc: Global, front: &Front<'a>, top: &TopDictData) -> SIDMetadata<'a>
    requires { IsTopDict (front_of front.now).top top.now }
    ensures { private_view result ≡ unwrap_or (private_at (front_of front.now).bytes (front_of front.now).top) no_private }
{
    let Some(place) = &top.private else {
        return empty_private();
    };
    match parse_one_private(alloc, front.bytes, place.start..place.end) {
        Some(private) => private,
        None => empty_private(),
    }
}

/// Opens what a CID-keyed font has.
fn parse_cid_metadata<'a>(
    alloc: Global,
    front: &Front<'a>,
    top: &TopDictData,
    glyphs: &Index<'a>,
) -> Result<CIDMetadata<'a>, Error>
    requires top { IsTopDict (front_of front.now).top top.now }
    requires glyphs { char_strings (front_of front.now) ≡ Some (items glyphs.now) }
    ensures value { Gives (λ _. front_of front.now) result (opened_cid (front_of front.now)) }
    ensures ok { IfOk result (λ c. IsCidParts (front_of front.now) c) }
{
    let Some(dicts) = index_at_offset(front.bytes, top.fd_array) else {
        return Err(Error::MalformedFont);
    };
    let Some(select) = select_at_offset(glyphs.len(), front.bytes, top.fd_select) else {
        return Err(Error::MalformedFont);
    };
    let font_dicts = parse_font_dicts(alloc, front.bytes, dicts)?;
    Ok(CIDMetadata { font_dicts, select })
}

/// Opens what a CID-keyed font has, where the font is one.
fn open_keyed<'a>(
    alloc: Global,
    front: &Front<'a>,
    top: &TopDictData,
    glyphs: &Index<'a>,
) -> Result<Option<CIDMetadata<'a>>, Error>
    requires top { IsTopDict (front_of front.now).top top.now }
    requires glyphs { char_strings (front_of front.now) ≡ Some (items glyphs.now) }
    ensures value { Gives (λ _. front_of front.now) result (opened_keyed (front_of front.now)) }
    ensures ok { IfOk result (λ c. IsKeyed (front_of front.now) c) }
{
    if !top.has_ros {
        return Ok(None);
    }
    let parts = parse_cid_metadata(alloc, front, top, glyphs)?;
    Ok(Some(parts))
}

/// Opens what the top dict leads to.
fn open_top<'a>(alloc: Global, front: Front<'a>) -> Result<Table<'a>, Error>
    ensures value { Gives cff_of result (opened_top (front_of front.entry)) }
    ensures ok { IfOk result IsSource }
{
    let mut top = no_values();
    if !read_top_dict(front.top, &mut top) {
        return Err(Error::MalformedFont);
    }
    let Some(char_strings) = index_at_offset(front.bytes, top.char_strings) else {
        return Err(Error::MalformedFont);
    };
    if char_strings.len() == 0 {
        return Err(Error::MalformedFont);
    }
    let cid = open_keyed(alloc, &front, &top, &char_strings)?;
    let private = parse_sid_metadata(alloc, &front, &top);
    Ok(Table {
        front,
        top,
        char_strings,
        private,
        cid,
    })
}

impl<'a> Table<'a> {
    /// Opens a table. A first byte that isn't 1 is `CFFError`; a part that can't be read, or an operator with other operands
    /// than it demands, is `MalformedFont`.
    #[tactic(auto, using(crate::proofs::ReadLaws::Opening::opened_is))]
    pub fn parse(alloc: Global, bytes: &'a [u8]) -> Result<Self, Error>
        ensures value { Gives cff_of result (opened bytes.now) }
        ensures ok { IfOk result IsSource }
    {
        let front = parse_front(bytes)?;
        open_top(alloc, front)
    }
}
