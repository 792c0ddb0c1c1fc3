//! The font dicts of the requested glyphs (OpenType, "CFF2": "FDSelect").

ghost use Rattle.std.specs.Prelude.{◌≡◌, ◌≤◌, length, OnOk, IfOk, IfErr};
ghost use Rattle.subsetter_base.specs.Gives.{Gives};
ghost use Rattle.subsetter_base.specs.declared.error.Error.TheVariants.{OutOfMemory};
ghost use Rattle.subsetter_cff2.specs.Cff2View.{cff2_of};
ghost use Rattle.subsetter_cff_at.specs.Plain.{dict_number, number_if, numbers_from, present, dict_bound};

use std::alloc::Global;
use subsetter_base::error::Error;
use subsetter_cff2::selection::search::FontDictSelect;
use subsetter_cff2::table::Table2;

/// How many font dicts there are; FDSelect names those below 65536.
pub fn dict_bound(table: &Table2<'_>) -> usize
    ensures value { result ≡ dict_bound (cff2_of table.now) }
    ensures small { result ≤ 65536 }
{
    table.font_dicts.len().min(65536) as usize
}

/// The number of a glyph's font dict. Where there is none, or no font dict of that number, it is `MalformedFont`.
#[tactic(auto, unfolding(crate::specs::Plain::dict_number))]
fn dict_number(table: &Table2<'_>, select: &FontDictSelect<'_>, glyph: u16) -> Result<u16, Error>
    requires { select.now ≡ record { bytes = table.now.bytes.now; select = table.now.select } }
    ensures { result ≡ dict_number (cff2_of table.now) glyph }
{
    let number = select.font_dict_number(glyph).ok_or(Error::MalformedFont)?;
    if usize::from(number) < dict_bound(table) {
        Ok(number)
    } else {
        Err(Error::MalformedFont)
    }
}

/// The number of the font dict of a glyph that is requested.
fn number_if(
    table: &Table2<'_>,
    select: &FontDictSelect<'_>,
    glyph: u16,
    advance: Option<u16>,
) -> Result<Option<u16>, Error>
    requires { select.now ≡ record { bytes = table.now.bytes.now; select = table.now.select } }
    ensures { result ≡ number_if (cff2_of table.now) glyph advance }
{
    match advance {
        None => Ok(None),
        Some(_) => {
            let number = dict_number(table, select, glyph)?;
            Ok(Some(number))
        }
    }
}

/// The numbers of the font dicts of all glyphs.
pub fn find_numbers(
    alloc: Global,
    table: &Table2<'_>,
    glyphs: &[Option<u16>],
) -> Result<Vec<Option<u16>>, Error>
    requires { length glyphs.now ≤ 65535 }
    ensures { Gives (λ v. v.items) result (numbers_from (cff2_of table.now) 0 glyphs.now) }
{
    let select = FontDictSelect::new(table.bytes, table.select);
    let mut numbers = Vec::with_capacity(alloc, glyphs.len())?;
    for glyph in 0..glyphs.len() {
        let number = number_if(table, &select, glyph as u16, glyphs[glyph])?;
        numbers.push(number)?;
    }
    Ok(numbers)
}

/// The numbers that are there.
pub fn present(alloc: Global, numbers: &[Option<u16>]) -> Result<Vec<u16>, Error>
    ensures ok { IfOk result (λ v. v.items ≡ present numbers.now) }
    ensures err { IfErr result (λ e. e ≡ OutOfMemory) }
{
    let mut found = Vec::with_capacity(alloc, numbers.len())?;
    for number in numbers {
        if let Some(number) = number {
            found.push(*number)?;
        }
    }
    Ok(found)
}
