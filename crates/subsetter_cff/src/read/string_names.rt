//! Strings by their numbers (Technical Note 5176, section 10 "String INDEX").

ghost use Rattle.std.specs.Prelude.{◌≡◌};
ghost use Rattle.std.specs.Option.{option_map, ok_or};
ghost use Rattle.subsetter_base.specs.Gives.{Gives};
ghost use Rattle.subsetter_base.specs.declared.error.Error.TheVariants.{SubsetError};
ghost use Rattle.subsetter_cffdata.specs.Indexes.IndexView.{items};
ghost use Rattle.subsetter_cff.specs.Write.Strings.SidRemapping.{name_of, named};
ghost use Rattle.subsetter_cff.specs.Read.Strings.{string_of};

use subsetter_base::error::Error;
use subsetter_cffdata::indexes::index::Index;
use subsetter_cffdata::numerals::number::StringId;

/// A standard string by its number, or another by its bytes.
#[derive(Clone, Copy, Debug)]
pub enum StringName<'a> {
    /// One of the 391 standard strings.
    Standard(StringId),
    /// An entry of the String INDEX.
    Custom(&'a [u8]),
}

/// The string of a number; None where its entry is missing or unreadable.
#[tactic(auto, unfolding(crate::specs::Read::Strings::string_of))]
pub fn find_string<'a>(strings: &Index<'a>, sid: StringId) -> Option<StringName<'a>>
    ensures { option_map name_of result ≡ string_of (items strings.now) sid.0 }
{
    if sid.is_standard_string() {
        return Some(StringName::Standard(sid));
    }
    let entry = strings.get(u32::from(sid.0 - StringId::STANDARD_STRING_LEN))?;
    Some(StringName::Custom(entry))
}

/// The string of a number, where there is a number. One that can't be read is `SubsetError`.
pub fn name_string<'a>(
    strings: &Index<'a>,
    sid: Option<StringId>,
) -> Result<Option<StringName<'a>>, Error>
    ensures { Gives (option_map name_of) result (ok_or (named (items strings.now) (option_map (λ s. s.0) sid)) SubsetError) }
{
    match sid {
        None => Ok(None),
        Some(sid) => {
            let string = find_string(strings, sid).ok_or(Error::SubsetError)?;
            Ok(Some(string))
        }
    }
}
