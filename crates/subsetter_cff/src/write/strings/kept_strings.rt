//! The strings of a source that its subset keeps.

ghost use Rattle.std.specs.Option.{option_map, ok_or};
ghost use Rattle.subsetter_base.specs.Gives.{Gives};
ghost use Rattle.subsetter_base.specs.declared.error.Error.TheVariants.{SubsetError};
ghost use Rattle.subsetter_cff.specs.Write.Laying.PartsView.{string_view};
ghost use Rattle.subsetter_cff.specs.Read.Entries.Operators.{copyright_operator, font_name_operator, notice_operator};
ghost use Rattle.subsetter_cff.specs.Read.Source.{cff_of, IsSource};
ghost use Rattle.subsetter_cff.specs.Read.Strings.{string_at};

use crate::read::source::Table;
use crate::read::string_names::{StringName, name_string};
use subsetter_base::error::Error;

/// The copyright.
#[tactic(auto, using(crate::proofs::WriteLaws::StringsLaws::KeptStrings::copyright_named))]
pub fn copyright<'a>(source: &Table<'a>) -> Result<Option<StringName<'a>>, Error>
    requires { IsSource source.now }
    ensures { Gives string_view result (ok_or (string_at (cff_of source.now).strings copyright_operator (cff_of source.now).top) SubsetError) }
{
    name_string(&source.front.strings, source.top.copyright)
}

/// The name of the font.
#[tactic(auto, using(crate::proofs::WriteLaws::StringsLaws::KeptStrings::font_name_named))]
pub fn font_name<'a>(source: &Table<'a>) -> Result<Option<StringName<'a>>, Error>
    requires { IsSource source.now }
    ensures { Gives string_view result (ok_or (string_at (cff_of source.now).strings font_name_operator (cff_of source.now).top) SubsetError) }
{
    name_string(&source.front.strings, source.top.font_name)
}

/// The notice.
#[tactic(auto, using(crate::proofs::WriteLaws::StringsLaws::KeptStrings::notice_named))]
pub fn notice<'a>(source: &Table<'a>) -> Result<Option<StringName<'a>>, Error>
    requires { IsSource source.now }
    ensures { Gives string_view result (ok_or (string_at (cff_of source.now).strings notice_operator (cff_of source.now).top) SubsetError) }
{
    name_string(&source.front.strings, source.top.notice)
}
