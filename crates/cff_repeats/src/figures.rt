//! A glyph of the new table: one of the old table, or a blank.

ghost use Rattle.std.specs.Prelude.{◌≡◌, Some};
ghost use Rattle.std.specs.Option.{option_map};
ghost use Rattle.subsetter_cff.specs.Read.FdArray.Private.{private_of};
ghost use Rattle.subsetter_cff.specs.Read.FdArray.PrivateView.{private_view};
ghost use Rattle.subsetter_cff.specs.Read.Source.{cff_of, IsSource};
ghost use Rattle.subsetter_cff.specs.Write.Plain.{source_number};
ghost use Rattle.cff_repeats.specs.Repeats.{again, blank, calls_none, figure};
ghost use Rattle.cff_repeats.specs.View.{seen};

use crate::blanks::zero_width;
use subsetter_base::Error;
use subsetter_cff::read::source::{SIDMetadata as PrivateDict, Table};
use subsetter_cff::write::glyphs::kept_glyphs::source_number;
use subsetter_cffdata::numerals::charstring_number::CharStringNumber;

/// endchar.
const ENDCHAR: [u8; 1] = [14];

/// A glyph of the new table.
#[derive(Clone, Copy)]
pub struct Figure<'a> {
    /// The number of its font dict in the old table.
    pub number: u8,
    /// A number before its charstring.
    pub width: Option<CharStringNumber>,
    /// What is after that.
    pub body: &'a [u8],
}

/// The private dict of a glyph, by the number of its font dict.
fn private_dict<'a>(table: &Table<'a>, glyph: u16, number: u8) -> Option<PrivateDict<'a>>
    requires source { IsSource table.now }
    requires number { source_number (cff_of table.now) glyph ≡ Some number }
    ensures { option_map private_view result ≡ private_of (cff_of table.now) glyph }
{
    match &table.cid {
        None => Some(table.private),
        Some(keyed) => {
            let font_dict = keyed.font_dicts.get(number as usize)?;
            Some(font_dict.private)
        }
    }
}

/// Whether there is no subroutine that a charstring under a private dict may call.
fn calls_none(table: &Table<'_>, private: &PrivateDict<'_>) -> bool
    ensures { result ≡ calls_none (cff_of table.now) (private_view private.now) }
{
    table.front.subroutines.len() == 0 && private.subroutines.len() == 0
}

/// A glyph of the old table.
#[tactic(auto, unfolding(crate::specs::Repeats::again))]
fn again<'a>(table: &Table<'a>, glyph: u16) -> Result<Figure<'a>, Error>
    requires { IsSource table.now }
    ensures { seen result ≡ again (cff_of table.now) glyph }
{
    let number = source_number(table, glyph).ok_or(Error::MalformedFont)?;
    let private = private_dict(table, glyph, number).ok_or(Error::MalformedFont)?;
    let body = table
        .char_strings
        .get(u32::from(glyph))
        .ok_or(Error::MalformedFont)?;
    if !calls_none(table, &private) {
        return Err(Error::Unimplemented);
    }
    Ok(Figure {
        number,
        width: None,
        body,
    })
}

/// A blank.
#[tactic(auto, unfolding(crate::specs::Repeats::blank))]
pub fn blank<'a>(table: &Table<'a>) -> Result<Figure<'a>, Error>
    requires { IsSource table.now }
    ensures { seen result ≡ blank (cff_of table.now) }
{
    let number = source_number(table, 0).ok_or(Error::MalformedFont)?;
    let private = private_dict(table, 0, number).ok_or(Error::MalformedFont)?;
    let width = zero_width(private.dict).ok_or(Error::OverflowError)?;
    Ok(Figure {
        number,
        width,
        body: &ENDCHAR,
    })
}

/// A glyph of the old table, or the blank.
pub fn find_figure<'a>(
    table: &Table<'a>,
    empty: &Result<Figure<'a>, Error>,
    glyph: Option<u16>,
) -> Result<Figure<'a>, Error>
    requires source { IsSource table.now }
    requires empty { seen empty.now ≡ blank (cff_of table.now) }
    ensures { seen result ≡ figure (cff_of table.now) glyph }
{
    match glyph {
        Some(glyph) => again(table, glyph),
        None => match empty {
            Ok(blank) => Ok(*blank),
            Err(error) => Err(*error),
        },
    }
}
