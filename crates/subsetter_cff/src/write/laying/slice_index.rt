//! Writing an INDEX of slices, whose limit is one of the table (Technical Note 5176, section 5 "INDEX Data").

ghost use Rattle.std.specs.Prelude.{◌≡◌, ◌++◌, OnOk};
ghost use Rattle.subsetter_base.specs.Gives.{Gives};
ghost use Rattle.subsetter_cffdata.specs.Indexes.Index.{index};
ghost use Rattle.subsetter_base.specs.Texts.{views};
ghost use Rattle.subsetter_cff.specs.Write.Laying.TableLimits.{limit, has_index};

use subsetter_base::error::Error;
use subsetter_base::write::Writer;

/// Writes the INDEX of items. Data of 4 GiB, or 65536 items, are `OverflowError`.
#[tactic(auto, using(crate::proofs::WriteLaws::LayingLaws::Checked::index_kept, crate::proofs::WriteLaws::LayingLaws::Checked::index_refused))]
pub fn write_index(items: &[&[u8]], w: &mut Writer) -> Result<(), Error>
    ensures ok { OnOk result (w.new ≡ w.old ++ index (views items.now)) }
    ensures checked { Gives (λ _. tt) result (limit (has_index (views items.now))) }
{
    subsetter_cffdata::indexes::index::write_index(items, w)?;
    Ok(())
}
