//! The parts of a new table, made of a source.

ghost use Rattle.std.specs.Prelude.{◌≡◌, [], map, Some, None, Ok, IfOk, IfErr};
ghost use Rattle.subsetter_base.specs.Gives.{Gives};
ghost use Rattle.subsetter_base.specs.declared.error.Error.TheVariants.{OutOfMemory};
ghost use Rattle.subsetter_cffdata.specs.Indexes.IndexView.{items};
ghost use Rattle.subsetter_cffdata.specs.Views.{number_of};
ghost use Rattle.subsetter_cff.specs.Write.NewDicts.MatrixView.{shown, new_box};
ghost use Rattle.subsetter_cff.specs.Write.Laying.PartsBy.{made_dict, only_font_dict, parts_by, select_by, stored_dict};
ghost use Rattle.subsetter_cff.specs.Write.Laying.PartsView.{font_dict_view, parts_view, select_of_table};
ghost use Rattle.subsetter_cff.specs.Write.Plain.{new_font_dict, new_font_dicts};
ghost use Rattle.subsetter_cff.specs.Read.FdArray.PrivateView.{private_view};
ghost use Rattle.subsetter_cff.specs.Read.Source.{cff_of, IsSource};

use crate::read::fd_array::font_dict::FontDict;
use crate::read::source::Table;
use crate::read::string_names::name_string;
use crate::write::glyphs::kept_glyphs::KeptGlyphs;
use crate::write::laying::table::{FontDictParts, TableParts};
use crate::write::new_dicts::font_dict_remapper::{FontDictRemapper, renumber};
use crate::write::new_dicts::matrix::{Matrix, new_matrix, new_top_matrix, unit_matrix};
use crate::write::strings::kept_strings::{copyright, font_name, notice};
use std::alloc::Global;
use subsetter_base::error::Error;
use subsetter_cffdata::indexes::index::Index;
use subsetter_cffdata::numerals::number::Number;

/// The font dict that is written for one of the source. A name that can't be read is `SubsetError`.
#[tactic(auto, unfolding(crate::specs::Write::Laying::PartsBy::made_dict))]
fn new_dict_of<'a>(
    strings: &Index<'a>,
    top: Option<Matrix>,
    font_dict: &FontDict<'a>,
) -> Result<FontDictParts<'a>, Error>
    ensures { Gives font_dict_view result (made_dict (shown top) (stored_dict (items strings.now) font_dict.now)) }
{
    let name = name_string(strings, font_dict.entries.font_name)?;
    let matrix = new_matrix(top, font_dict.entries.font_matrix).ok_or(Error::OverflowError)?;
    Ok(FontDictParts {
        matrix,
        private: font_dict.private.dict,
        name,
    })
}

/// The one font dict that is written for a font without font dicts.
fn only_dict<'a>(source: &Table<'a>) -> FontDictParts<'a>
    ensures { font_dict_view result ≡ only_font_dict (private_view source.now.private) }
{
    FontDictParts {
        matrix: unit_matrix(),
        private: source.private.dict,
        name: None,
    }
}

/// The font dict that is written for that of a number.
fn new_font_dict<'a>(source: &Table<'a>, number: u8) -> Result<FontDictParts<'a>, Error>
    requires { IsSource source.now }
    ensures { Gives font_dict_view result (new_font_dict (cff_of source.now) number) }
{
    match &source.cid {
        None => Ok(only_dict(source)),
        Some(parts) => {
            let Some(font_dict) = parts.font_dicts.get(number as usize) else {
                return Err(Error::MalformedFont);
            };
            new_dict_of(&source.front.strings, source.top.font_matrix, font_dict)
        }
    }
}

/// The font dicts that are written for those of these numbers.
#[tactic(auto, using(crate::proofs::WriteLaws::LayingLaws::PartsMade::none_following))]
fn new_font_dicts<'a>(
    alloc: Global,
    source: &Table<'a>,
    numbers: &[u8],
) -> Result<Vec<FontDictParts<'a>>, Error>
    requires { IsSource source.now }
    ensures { Gives (λ v. map font_dict_view v.items) result (new_font_dicts (cff_of source.now) numbers.now) }
{
    let mut made = Vec::with_capacity(alloc, numbers.len())?;
    for number in numbers {
        let font_dict = new_font_dict(source, *number)?;
        made.push(font_dict)?;
    }
    Ok(made)
}

/// The new number of each glyph's font dict; None for a font without font dicts.
fn new_select(
    alloc: Global,
    source: &Table<'_>,
    used: &FontDictRemapper,
    numbers: &[u8],
) -> Result<Option<Vec<u8>>, Error>
    requires { IsSource source.now }
    ensures ok { IfOk result (λ s. select_of_table s ≡ select_by (cff_of source.now) used.now numbers.now) }
    ensures err { IfErr result (λ e. e ≡ OutOfMemory) }
{
    match &source.cid {
        None => Ok(None),
        Some(_) => {
            let places = renumber(alloc, used, numbers)?;
            Ok(Some(places))
        }
    }
}

/// FontBBox: the font's, or four zeros.
fn new_box(own: &Option<[Number; 4]>) -> [Number; 4]
    ensures { map number_of result ≡ new_box (shown own.now) }
{
    match own {
        Some(numbers) => *numbers,
        None => [Number::zero(); 4],
    }
}

/// The parts of the new table. 256 used font dicts are `OverflowError`, before a string that can't be read is
/// `SubsetError`.
#[tactic(auto, unfolding(crate::specs::Write::Laying::PartsBy::parts_by))]
pub fn new_table_of<'a>(
    alloc: Global,
    source: &Table<'a>,
    kept: KeptGlyphs,
) -> Result<TableParts<'a>, Error>
    requires { IsSource source.now }
    ensures value { Gives (λ t. parts_view t []) result (parts_by (cff_of source.now) kept.numbers.items []) }
    ensures char_strings { IfOk result (λ t. t.char_strings ≡ kept.char_strings) }
    ensures ends { IfOk result (λ t. t.ends ≡ kept.ends) }
{
    let used = FontDictRemapper::of_used(alloc, &kept.numbers)?;
    let copyright = copyright(source)?;
    let font_name = font_name(source)?;
    let notice = notice(source)?;
    let font_dicts = new_font_dicts(alloc, source, used.sorted())?;
    let numbers = new_select(alloc, source, &used, &kept.numbers)?;
    Ok(TableParts {
        names: source.front.names,
        copyright,
        notice,
        font_name,
        matrix: new_top_matrix(&source.top.font_matrix),
        font_box: new_box(&source.top.font_bbox),
        font_dicts,
        numbers,
        char_strings: kept.char_strings,
        ends: kept.ends,
    })
}
