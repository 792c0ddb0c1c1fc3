//! The front of a new table: header, Name INDEX, Top DICT INDEX, String INDEX, Global Subr INDEX.

ghost use Rattle.std.specs.Prelude.{◌≡◌, ◌+◌, ◌<◌, ◌≤◌, ◌^◌, ◌++◌, ◌∷◌, [], length, OnOk, IfOk, IfErr};
ghost use Rattle.subsetter_base.specs.Gives.{Gives};
ghost use Rattle.subsetter_base.specs.declared.error.Error.TheVariants.{OutOfMemory};
ghost use Rattle.subsetter_cffdata.specs.Dicts.Dict.{dict};
ghost use Rattle.subsetter_cffdata.specs.Indexes.Index.{index};
ghost use Rattle.subsetter_cff.specs.Write.Laying.FrontDraft.{front_of_draft, named_bytes, named_of, tail_by, tail_of, IsDraft};
ghost use Rattle.subsetter_cff.specs.Write.Laying.Layout.{placed_entries};
ghost use Rattle.subsetter_cff.specs.Write.Laying.PartsView.{top_by};
ghost use Rattle.subsetter_cff.specs.Write.Laying.TableLimits.{limit, has_index, is_offset, numbers_limits, front_limits};
ghost use Rattle.subsetter_cff.specs.Write.NewDicts.TopDictView.{top_dict_of, offsets_of, AreOffsets};

use crate::write::glyphs::flat_index::{single_size, write_single_header};
use crate::write::laying::slice_index::write_index;
use crate::write::laying::table::{TableParts, name_number};
use crate::write::new_dicts::dicts::offset_after;
use crate::write::new_dicts::top_dict::{
    OFFSETS_SIZE, Offsets, TopDict, write_named, write_offsets,
};
use crate::write::strings::sid_remapper::SidRemapper;
use std::alloc::Global;
use subsetter_base::error::Error;
use subsetter_base::write::Writer;

/// Room for the entries of a top dict and for a few short strings, in bytes.
const DRAFT_ROOM: usize = 384;

/// A front before its offsets are known: as their offsets have five bytes each, its size is.
#[derive(Drop)]
pub struct FrontDraft {
    /// The entries of the top dict without offsets, and after them the String INDEX and the Global Subr INDEX.
    pub text: Writer,
    /// How many bytes these entries have.
    pub named: usize,
    /// How many bytes the front has.
    pub size: usize,
}

/// The entries of the top dict without offsets.
fn named_part(draft: &FrontDraft) -> &[u8]
    requires { draft.now.named ≤ length draft.now.text }
    ensures value { result.now ≡ named_of draft.now }
    ensures len { length result.now ≡ draft.now.named }
{
    &draft.text.as_slice()[..draft.named]
}

/// The String INDEX and the Global Subr INDEX.
fn tail_part(draft: &FrontDraft) -> &[u8]
    requires { draft.now.named ≤ length draft.now.text }
    ensures { result.now ≡ tail_of draft.now }
{
    &draft.text.as_slice()[draft.named..]
}

/// What the top dict says.
fn new_top_dict<'a>(table: &'a TableParts<'_>, remapper: &SidRemapper<'_>) -> TopDict<'a>
    ensures { top_dict_of result ≡ top_by remapper.now.texts table.now }
{
    TopDict {
        copyright: name_number(remapper, table.copyright),
        notice: name_number(remapper, table.notice),
        font_name: name_number(remapper, table.font_name),
        matrix: &table.matrix,
        font_box: &table.font_box,
    }
}

/// The entries of the top dict without offsets. A real that is too long is `OverflowError`.
fn draft_top(
    alloc: Global,
    table: &TableParts<'_>,
    remapper: &SidRemapper<'_>,
) -> Result<Writer, Error>
    ensures value { IfOk result (λ w. w ≡ named_bytes (top_by remapper.now.texts table.now)) }
    ensures checked { Gives (λ _. tt) result (numbers_limits (top_by remapper.now.texts table.now).matrix (top_by remapper.now.texts table.now).box) }
{
    let mut named = Writer::with_capacity(alloc, DRAFT_ROOM)?;
    write_named(&new_top_dict(table, remapper), &mut named)?;
    Ok(named)
}

/// Writes the String INDEX and the Global Subr INDEX. An INDEX that is too large is `OverflowError`.
fn put_tail(remapper: &SidRemapper<'_>, text: &mut Writer) -> Result<(), Error>
    ensures ok { OnOk result (text.new ≡ text.old ++ tail_by remapper.now.texts) }
    ensures checked { Gives (λ _. tt) result (limit (has_index remapper.now.texts)) }
{
    write_index(remapper.sorted_strings(), text)?;
    text.extend(&[0, 0])?;
    Ok(())
}

/// The size of a front. One that passes 2147483647 is `OverflowError`.
fn sum_front(names: usize, top: usize, tail: usize) -> Result<usize, Error>
    ensures value { IfOk result (λ n. n ≡ 4 + (names + (top + tail))) }
    ensures small { IfOk result (λ n. n < 2 ^ 31) }
    ensures checked { Gives (λ _. tt) result (limit (is_offset (4 + (names + (top + tail))))) }
{
    offset_after(4, names.saturating_add(top.saturating_add(tail)))
}

/// The front but for its offsets. A real that is too long, an INDEX that is too large, and a front that passes 2147483647
/// bytes are `OverflowError`.
#[tactic(auto, unfolding(crate::specs::Write::Laying::TableLimits::front_limits))]
pub fn draft_front(
    alloc: Global,
    table: &TableParts<'_>,
    remapper: &SidRemapper<'_>,
) -> Result<FrontDraft, Error>
    ensures value { IfOk result (λ d. IsDraft remapper.now.texts table.now d) }
    ensures checked { Gives (λ _. tt) result (front_limits remapper.now.texts table.now) }
{
    let mut text = draft_top(alloc, table, remapper)?;
    let named = text.len();
    let top = offset_after(named, OFFSETS_SIZE)?;
    put_tail(remapper, &mut text)?;
    let tail = text.len() - named;
    let size = sum_front(table.names.len(), single_size(top as u32), tail)?;
    Ok(FrontDraft { text, named, size })
}

/// Writes the INDEX of the one top dict.
fn rewrite_top_dict_index(named: &[u8], offsets: &Offsets, w: &mut Writer) -> Result<(), Error>
    requires offsets { AreOffsets offsets.now }
    requires small { length named.now + 33 < 2 ^ 31 }
    ensures ok { OnOk result (w.new ≡ w.old ++ index ((named.now ++ dict (placed_entries (offsets_of offsets.now))) ∷ [])) }
    ensures err { IfErr result (λ e. e ≡ OutOfMemory) }
{
    write_single_header((named.len() + OFFSETS_SIZE) as u32, w)?;
    w.extend(named)?;
    write_offsets(offsets, w)
}

/// major and minor, hdrSize, and offSize, which readers pass over.
const HEADER: [u8; 4] = [1, 0, 4, 4];

/// Writes a front with known offsets.
pub fn write_front(
    names: &[u8],
    draft: &FrontDraft,
    offsets: &Offsets,
    w: &mut Writer,
) -> Result<(), Error>
    requires offsets { AreOffsets offsets.now }
    requires small { draft.now.named + 33 < 2 ^ 31 }
    requires within { draft.now.named ≤ length draft.now.text }
    ensures ok { OnOk result (w.new ≡ w.old ++ front_of_draft names.now (named_of draft.now) (tail_of draft.now) (offsets_of offsets.now)) }
    ensures err { IfErr result (λ e. e ≡ OutOfMemory) }
{
    w.extend(&HEADER)?;
    w.extend(names)?;
    rewrite_top_dict_index(named_part(draft), offsets, w)?;
    w.extend(tail_part(draft))
}
