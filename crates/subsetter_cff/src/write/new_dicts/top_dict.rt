//! The top dict of a new table (Technical Note 5176, section 9 "Top DICT Data").

ghost use Rattle.std.specs.Prelude.{◌≡◌, ◌<◌, ◌^◌, ◌++◌, map, OnOk, IfErr};
ghost use Rattle.subsetter_base.specs.Gives.{Gives};
ghost use Rattle.subsetter_base.specs.declared.error.Error.TheVariants.{OutOfMemory};
ghost use Rattle.subsetter_cffdata.specs.Dicts.Dict.{entry_bytes, dict};
ghost use Rattle.subsetter_cffdata.specs.Views.{number_of};
ghost use Rattle.subsetter_cff.specs.Write.Laying.FrontDraft.{named_bytes};
ghost use Rattle.subsetter_cff.specs.Write.Laying.Layout.{registry_entry, placed_entries};
ghost use Rattle.subsetter_cff.specs.Write.Laying.TableLimits.{numbers_limits};
ghost use Rattle.subsetter_cff.specs.Write.NewDicts.TopDictView.{top_dict_of, offsets_of, AreOffsets};

use crate::write::new_dicts::entries::{write_integer, write_numbers, write_offset, write_string};
use subsetter_base::error::Error;
use subsetter_base::write::Writer;
use subsetter_cffdata::dicts::dict::operators::{
    CHAR_STRINGS, CHARSET, CID_COUNT, COPYRIGHT, FD_ARRAY, FD_SELECT, FONT_BBOX, FONT_MATRIX,
    FONT_NAME, NOTICE, ROS,
};
use subsetter_cffdata::numerals::number::{IntegerNumber, Number, StringId};

/// The values of a new top dict, beside the offsets of the parts.
#[derive(Drop)]
pub struct TopDict<'a> {
    /// The number of the copyright's string.
    pub copyright: Option<StringId>,
    /// The number of the notice's string.
    pub notice: Option<StringId>,
    /// The number of the font name's string.
    pub font_name: Option<StringId>,
    /// FontMatrix.
    pub matrix: &'a [Number; 6],
    /// FontBBox.
    pub font_box: &'a [Number; 4],
}

/// The offsets of the parts that a new top dict names.
#[derive(Clone, Copy)]
pub struct Offsets {
    /// The charset.
    pub charset: u32,
    /// The INDEX of the charstrings.
    pub char_strings: u32,
    /// FDArray.
    pub font_dicts: u32,
    /// FDSelect.
    pub select: u32,
}

/// Adobe, Identity, 0: the first two strings, and no supplement.
#[tactic(auto, using(crate::proofs::WriteLaws::NewDictsLaws::WrittenEntries::registry_is))]
fn write_registry(w: &mut Writer) -> Result<(), Error>
    ensures ok { OnOk result (w.new ≡ w.old ++ entry_bytes registry_entry) }
    ensures err { IfErr result (λ e. e ≡ OutOfMemory) }
{
    w.write(&IntegerNumber(i32::from(StringId::STANDARD_STRING_LEN)))?;
    w.write(&IntegerNumber(i32::from(StringId::STANDARD_STRING_LEN + 1)))?;
    w.write(&IntegerNumber(0))?;
    w.write(&ROS)
}

/// How many bytes the entries with offsets have, whatever the offsets are.
pub const OFFSETS_SIZE: usize = 33;

/// CIDCount: all numbers of 16 bits but the last.
const CIDS: u16 = 65535;

/// Writes the entries with offsets.
pub fn write_offsets(offsets: &Offsets, w: &mut Writer) -> Result<(), Error>
    requires { AreOffsets offsets.now }
    ensures ok { OnOk result (w.new ≡ w.old ++ dict (placed_entries (offsets_of offsets.now))) }
    ensures err { IfErr result (λ e. e ≡ OutOfMemory) }
{
    write_offset(offsets.charset, CHARSET, w)?;
    write_offset(offsets.char_strings, CHAR_STRINGS, w)?;
    write_integer(CIDS, CID_COUNT, w)?;
    write_offset(offsets.font_dicts, FD_ARRAY, w)?;
    write_offset(offsets.select, FD_SELECT, w)
}

/// Writes the entries without offsets, which are in front. A real that is too long is `OverflowError`.
#[tactic(auto, unfolding(crate::specs::Write::Laying::TableLimits::numbers_limits))]
pub fn write_named(top: &TopDict<'_>, w: &mut Writer) -> Result<(), Error>
    ensures ok { OnOk result (w.new ≡ w.old ++ named_bytes (top_dict_of top.now)) }
    ensures checked { Gives (λ _. tt) result (numbers_limits (map number_of top.now.matrix.now) (map number_of top.now.font_box.now)) }
{
    let matrix = top.matrix;
    let font_box = top.font_box;
    write_registry(w)?;
    write_string(top.copyright, COPYRIGHT, w)?;
    write_string(top.notice, NOTICE, w)?;
    write_string(top.font_name, FONT_NAME, w)?;
    write_numbers(matrix, FONT_MATRIX, w)?;
    write_numbers(font_box, FONT_BBOX, w)
}
