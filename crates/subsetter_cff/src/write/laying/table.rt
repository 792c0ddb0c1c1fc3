//! A new table before it is written.

ghost use Rattle.std.specs.Prelude.{◌≡◌, ◌+◌, ◌≤◌, ◌<◌, [], length, OnOk, IfOk, IfErr};
ghost use Rattle.std.specs.Option.{option_map};
ghost use Rattle.subsetter_base.specs.declared.error.Error.TheVariants.{OutOfMemory};
ghost use Rattle.subsetter_cff.specs.Write.Laying.Layout.{custom_string, number_of, strings, with_strings};
ghost use Rattle.subsetter_cff.specs.Read.Strings.{Custom};
ghost use Rattle.subsetter_cff.specs.Write.Laying.PartsView.{dict_texts, parts_view, string_view};

use crate::read::string_names::StringName;
use crate::write::new_dicts::matrix::Matrix;
use crate::write::strings::sid_remapper::SidRemapper;
use std::alloc::Global;
use subsetter_base::error::Error;
use subsetter_cffdata::numerals::number::{Number, StringId};

/// A font dict with its private dict.
#[derive(Clone, Copy)]
pub struct FontDictParts<'a> {
    /// Its matrix.
    pub matrix: Matrix,
    /// The private dict as it is in the source.
    pub private: &'a [u8],
    /// Its name.
    pub name: Option<StringName<'a>>,
}

/// A new table.
#[derive(Drop)]
pub struct TableParts<'a> {
    /// The Name INDEX as it is.
    pub names: &'a [u8],
    /// The copyright.
    pub copyright: Option<StringName<'a>>,
    /// The notice.
    pub notice: Option<StringName<'a>>,
    /// The name of the font.
    pub font_name: Option<StringName<'a>>,
    /// FontMatrix.
    pub matrix: Matrix,
    /// FontBBox.
    pub font_box: [Number; 4],
    /// The font dicts.
    pub font_dicts: Vec<FontDictParts<'a>>,
    /// The number of each glyph's font dict; None where all have the first.
    pub numbers: Option<Vec<u8>>,
    /// The charstrings, one after the other.
    pub char_strings: Vec<u8>,
    /// Where each charstring ends, as an INDEX counts.
    pub ends: Vec<usize>,
}

/// The number of a string that has one.
#[tactic(auto, using(crate::proofs::WriteLaws::StringsLaws::Numbering::number_is))]
pub fn string_number(remapper: &SidRemapper<'_>, string: &[u8]) -> StringId
    ensures { result.0 ≡ number_of remapper.now.texts (Custom string.now) }
{
    remapper
        .get(string)
        .unwrap_or(StringId(StringId::STANDARD_STRING_LEN))
}

/// The number of a name that has one.
pub fn name_number(remapper: &SidRemapper<'_>, name: Option<StringName<'_>>) -> Option<StringId>
    ensures { option_map (λ s. s.0) result ≡ option_map (number_of remapper.now.texts) (string_view name.entry) }
{
    match name? {
        StringName::Standard(number) => Some(number),
        StringName::Custom(string) => Some(string_number(remapper, string)),
    }
}

/// Gives a string a number, where it wants one.
#[tactic(auto, using(crate::proofs::WriteLaws::StringsLaws::Numbering::longer_by_one))]
fn put_name<'a>(remapper: &mut SidRemapper<'a>, name: Option<StringName<'a>>) -> Result<(), Error>
    requires { length remapper.old.texts < 65145 }
    ensures texts { OnOk result (remapper.new.texts ≡ with_strings remapper.old.texts (custom_string (string_view name.entry))) }
    ensures few { OnOk result (length remapper.new.texts ≤ length remapper.old.texts + 1) }
    ensures err { IfErr result (λ e. e ≡ OutOfMemory) }
{
    if let Some(StringName::Custom(string)) = name {
        remapper.remap(string)?;
    }
    Ok(())
}

/// Gives the names of font dicts a number each.
fn put_dicts<'a>(remapper: &mut SidRemapper<'a>, dicts: &[FontDictParts<'a>]) -> Result<(), Error>
    requires { length remapper.old.texts + length dicts.now ≤ 65145 }
    ensures texts { OnOk result (remapper.new.texts ≡ with_strings remapper.old.texts (dict_texts dicts.now)) }
    ensures err { IfErr result (λ e. e ≡ OutOfMemory) }
{
    for dict in dicts {
        put_name(remapper, dict.name)?;
    }
    Ok(())
}

/// Numbers the strings of a table, in their order.
pub fn number_strings<'a>(alloc: Global, table: &TableParts<'a>) -> Result<SidRemapper<'a>, Error>
    requires { length table.now.font_dicts.items ≤ 256 }
    ensures ok { IfOk result (λ r. r.texts ≡ strings (parts_view table.now [])) }
    ensures err { IfErr result (λ e. e ≡ OutOfMemory) }
{
    // Adobe, Identity, and at most three names of the font and one of each font dict.
    let room = table.font_dicts.len().saturating_add(5);
    let mut remapper = SidRemapper::with_capacity(alloc, room)?;
    put_name(&mut remapper, Some(StringName::Custom(b"Adobe")))?;
    put_name(&mut remapper, Some(StringName::Custom(b"Identity")))?;
    put_name(&mut remapper, table.copyright)?;
    put_name(&mut remapper, table.font_name)?;
    put_name(&mut remapper, table.notice)?;
    put_dicts(&mut remapper, &table.font_dicts)?;
    Ok(remapper)
}
