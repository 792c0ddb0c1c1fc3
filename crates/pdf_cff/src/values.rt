//! What a PDF takes of a `CFF ` table.

ghost use Rattle.std.specs.Prelude.{◌≡◌, ◌≢◌, ◌<◌, IfOk, IfErr, Ok, OnOk};
ghost use Rattle.std.specs.Option.{option_and_then, option_copied, option_map};
ghost use Rattle.subsetter_base.specs.Gives.{Gives};
ghost use Rattle.subsetter_base.specs.declared.error.Error.TheVariants.{OutOfMemory};
ghost use Rattle.subsetter_cffdata.specs.Indexes.Index.{index_at};
ghost use Rattle.subsetter_type2.specs.Subroutines.{entry_at};
ghost use Rattle.subsetter_cff.specs.Read.FdArray.PrivateView.{private_view};
ghost use Rattle.subsetter_cff.specs.Read.Source.{IsSource, cff_of};
ghost use Rattle.pdf_cff.specs.Values.{first_stem, privates, cff_values_in, cff_values_of};
ghost use Rattle.pdf_cff.specs.View.{cff_values_view};

use crate::dict_stems::first_stem_in;
use crate::stems::stem_in;
use std::alloc::Global;
use subsetter_base::Error;
use subsetter_base::read::Reader;
use subsetter_cff::read::source::Table;
use subsetter_cffdata::indexes::index::parse_index;

/// What a PDF takes of a table.
#[derive(Clone, Copy)]
pub struct CffValues<'a> {
    /// The first entry of the Name INDEX.
    pub name: Option<&'a [u8]>,
    /// The first StdVW above 0 of the private dicts, in thousandths of the em.
    pub stem: Option<u32>,
}

/// The first entry of a Name INDEX.
fn first_name(names: &[u8]) -> Option<&[u8]>
    ensures { option_copied result ≡ option_and_then (λ names. entry_at names.0 0) (index_at names.now) }
{
    let index = parse_index::<u16>(&mut Reader::new(names))?;
    index.get(0)
}

/// The first stem of the private dicts of a table.
fn first_stem(alloc: Global, units: u16, table: &Table<'_>) -> Result<Option<u32>, Error>
    requires units { 0 < units }
    requires source { IsSource table.now }
    ensures ok { IfOk result (λ stem. stem ≡ first_stem units (privates (cff_of table.now))) }
    ensures err { IfErr result (λ e. e ≡ OutOfMemory) }
{
    match &table.cid {
        Some(keyed) => first_stem_in(alloc, units, table.front.bytes, &keyed.font_dicts),
        None => Ok(stem_in(units, table.private.dict)),
    }
}

/// The error, where memory ran out; another one is passed over.
pub fn unless_memory(error: Error) -> Result<(), Error>
    ensures ok { OnOk result (error ≢ OutOfMemory) }
    ensures err { IfErr result (λ e. e ≡ OutOfMemory) }
{
    match error {
        Error::OutOfMemory => Err(Error::OutOfMemory),
        _ => Ok(()),
    }
}

/// What a PDF takes of a table, in a font with `units` units per em; nothing of one that can't be opened.
///
/// # Errors
///
/// `OutOfMemory` alone.
pub fn cff_values_in<'a>(alloc: Global, bytes: &'a [u8], units: u16) -> Result<CffValues<'a>, Error>
    requires { 0 < units }
    ensures { Gives cff_values_view result (Ok (cff_values_in units bytes.now)) }
{
    match Table::parse(alloc, bytes) {
        Ok(table) => {
            let stem = first_stem(alloc, units, &table)?;
            Ok(CffValues {
                name: first_name(table.front.names),
                stem,
            })
        }
        Err(error) => {
            unless_memory(error)?;
            Ok(CffValues {
                name: None,
                stem: None,
            })
        }
    }
}
