//! The front of a table: header, Name INDEX, Top DICT INDEX, String INDEX, Global Subr INDEX (Technical Note 5176, section 2 "Data Layout").

ghost use Rattle.std.specs.Prelude.{◌≡◌, ◌-◌, take, drop, length};
ghost use Rattle.std.specs.Option.{option_map};
ghost use Rattle.subsetter_base.specs.Gives.{Gives};
ghost use Rattle.subsetter_cff.specs.Read.Cff.{past_header};
ghost use Rattle.subsetter_cffdata.specs.Reading.{rest};
ghost use Rattle.subsetter_cff.specs.Read.Cff.{before};
ghost use Rattle.subsetter_cff.specs.Read.FrontView.{front_of, front_at, front_read};

use subsetter_base::error::Error;
use subsetter_base::read::Reader;
use subsetter_cffdata::indexes::index::{Index, parse_index};

/// The parts that are one after the other.
#[derive(Clone, Copy, Debug)]
pub struct Front<'a> {
    /// The whole table.
    pub bytes: &'a [u8],
    /// The Name INDEX as it is.
    pub names: &'a [u8],
    /// The top dict.
    pub top: &'a [u8],
    /// The String INDEX.
    pub strings: Index<'a>,
    /// The Global Subr INDEX.
    pub subroutines: Index<'a>,
}

/// The bytes that were read.
fn read_before<'a>(start: &'a [u8], offset: usize) -> &'a [u8]
    ensures { result.now ≡ before start.now (drop offset start.now) }
{
    let left = start.len().saturating_sub(offset);
    &start[..start.len() - left]
}

/// Reads the parts from after the header on; None where one of them can't be read.
#[tactic(auto, unfolding(crate::specs::Read::FrontView::front_at))]
pub fn parse_parts<'a>(bytes: &'a [u8], start: &'a [u8]) -> Option<Front<'a>>
    ensures { option_map front_of result ≡ front_at bytes.now start.now }
{
    let mut r = Reader::new(start);
    parse_index::<u16>(&mut r)?;
    let names = read_before(start, r.offset());
    let tops = parse_index::<u16>(&mut r)?;
    let top = tops.get(0)?;
    let strings = parse_index::<u16>(&mut r)?;
    let subroutines = parse_index::<u16>(&mut r)?;
    Some(Front {
        bytes,
        names,
        top,
        strings,
        subroutines,
    })
}

/// What comes after the header, as far as the third byte says.
#[tactic(auto, unfolding(crate::specs::Read::Cff::past_header))]
fn past_header(bytes: &[u8]) -> Option<&[u8]>
    ensures { option_map (λ x. x.now) result ≡ past_header bytes.now }
{
    let [_, _, size, ..] = bytes else {
        return None;
    };
    Some(bytes.get(usize::from(*size)..).unwrap_or(&[]))
}

/// Reads the front. A first byte that isn't 1 is `CFFError`; a part that can't be read is `MalformedFont`.
#[tactic(auto, unfolding(crate::specs::Read::FrontView::front_read))]
pub fn parse_front<'a>(bytes: &'a [u8]) -> Result<Front<'a>, Error>
    ensures { Gives front_of result (front_read bytes.now) }
{
    let Some(version) = bytes.first() else {
        return Err(Error::MalformedFont);
    };
    if *version != 1 {
        return Err(Error::CFFError);
    }
    let Some(start) = past_header(bytes) else {
        return Err(Error::MalformedFont);
    };
    parse_parts(bytes, start).ok_or(Error::MalformedFont)
}
