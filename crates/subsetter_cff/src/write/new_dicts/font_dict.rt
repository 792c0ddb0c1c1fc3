//! A font dict of a new table (Technical Note 5176, section 18 "CID-keyed Fonts").

ghost use Rattle.std.specs.Prelude.{◌≡◌, ◌<◌, ◌^◌, ◌++◌, map, OnOk};
ghost use Rattle.std.specs.Option.{option_map};
ghost use Rattle.subsetter_base.specs.Gives.{Gives};
ghost use Rattle.subsetter_cffdata.specs.Dicts.Dict.{dict};
ghost use Rattle.subsetter_cffdata.specs.Views.{number_of};
ghost use Rattle.subsetter_cff.specs.Write.Laying.Layout.{entries_of_font_dict_by};
ghost use Rattle.subsetter_cff.specs.Write.Laying.TableLimits.{limit, short};

use crate::write::new_dicts::entries::{write_numbers, write_range, write_string};
use subsetter_base::error::Error;
use subsetter_base::write::Writer;
use subsetter_cffdata::dicts::dict::operators::{FONT_MATRIX, FONT_NAME, PRIVATE};
use subsetter_cffdata::numerals::number::{Number, StringId};

/// Writes a font dict whose private dict of a size is at an offset. A real that is too long is `OverflowError`.
#[tactic(auto, using(crate::proofs::WriteLaws::NewDictsLaws::WrittenEntries::font_dict_is))]
pub fn write_font_dict(
    matrix: &[Number; 6],
    size: u32,
    place: u32,
    name: Option<StringId>,
    w: &mut Writer,
) -> Result<(), Error>
    requires size { size < 2 ^ 31 }
    requires offset { place < 2 ^ 31 }
    ensures ok { OnOk result (w.new ≡ w.old ++ dict (entries_of_font_dict_by (map number_of matrix.now) size place (option_map (λ s. s.0) name))) }
    ensures checked { Gives (λ _. tt) result (limit (short (map number_of matrix.now))) }
{
    write_numbers(matrix, FONT_MATRIX, w)?;
    write_range(size, place, PRIVATE, w)?;
    write_string(name, FONT_NAME, w)
}
