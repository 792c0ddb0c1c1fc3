//! The font dicts of an FDArray (Technical Note 5176, section 18 "CID-keyed Fonts").

ghost use Rattle.std.specs.Prelude.{◌≡◌, ◌⊎◌, IfOk, OnOk, IfErr};
ghost use Rattle.subsetter_base.specs.declared.error.Error.TheVariants.{OutOfMemory, MalformedFont};
ghost use Rattle.subsetter_cffdata.specs.Indexes.Index.{readable};
ghost use Rattle.subsetter_cffdata.specs.Indexes.IndexView.{items};
ghost use Rattle.subsetter_cff.specs.Read.FdArray.FontDictList.{AreFontDicts, HasFaultAmong};

use crate::read::fd_array::font_dict::{FontDict, parse_font_dict, private_bytes};
use crate::read::fd_array::subr_offsets::SubrOffsets;
use std::alloc::Global;
use subsetter_base::error::Error;
use subsetter_cffdata::indexes::index::Index;

/// How many bytes the private dicts of all font dicts have together. No answer depends on it.
fn all_private_bytes(index: Index<'_>) -> usize {
    let mut bytes: usize = 0;
    for dict in index {
        bytes = bytes.saturating_add(private_bytes(dict));
    }
    bytes
}

/// Reads the font dicts before the first unreadable one. One with a fault is `MalformedFont`.
pub fn parse_font_dicts<'a>(
    alloc: Global,
    table: &'a [u8],
    index: Index<'a>,
) -> Result<Vec<FontDict<'a>>, Error>
    ensures ok { IfOk result (λ v. AreFontDicts table.now (readable (items index.entry)) v.items) }
    ensures sound { OnOk result (HasFaultAmong table.now (readable (items index.entry)) → ⊥) }
    ensures err { IfErr result (λ e. (e ≡ OutOfMemory) ⊎ ((e ≡ MalformedFont) × HasFaultAmong table.now (readable (items index.entry)))) }
{
    let offsets = SubrOffsets::for_dicts(alloc, table, all_private_bytes(index))?;
    let mut font_dicts = Vec::with_capacity(alloc, index.len() as usize)?;
    for dict in index {
        let Some(font_dict) = parse_font_dict(&offsets, dict) else {
            return Err(Error::MalformedFont);
        };
        font_dicts.push(font_dict)?;
    }
    Ok(font_dicts)
}
