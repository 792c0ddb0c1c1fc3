//! A table that is opened, with what varies in it at coordinates (OpenType, "CFF2").

ghost use Rattle.std.specs.Prelude.{◌≡◌, length};
ghost use Rattle.std.specs.Option.{option_map, ok_or};
ghost use Rattle.subsetter_base.specs.Gives.{Gives};
ghost use Rattle.subsetter_base.specs.declared.error.Error.TheVariants.{MalformedFont};
ghost use Rattle.subsetter_cff.specs.Write.NewDicts.MatrixView.{shown};
ghost use Rattle.subsetter_cff2.specs.Cff2.{cff2_parts};
ghost use Rattle.subsetter_cff2.specs.Cff2View.{cff2_of};
ghost use Rattle.subsetter_cff2.specs.Variation.{optional_variation};
ghost use Rattle.subsetter_cff_at.specs.Plain.{opened};
ghost use Rattle.subsetter_cff_at.specs.Units.{top_matrix};
ghost use Rattle.subsetter_cff_at.specs.View.{opened_of, request_of};

use crate::request::TableRequest;
use crate::units::top_matrix;
use std::alloc::Global;
use subsetter_base::error::Error;
use subsetter_cff::write::new_dicts::matrix::Matrix;
use subsetter_cff2::table::{Table2, open};
use subsetter_cff2::variation::{FontVariation, optional_store_at};
use subsetter_cff2::variation_store::VariationStore;

/// A table, its FontMatrix, and what varies in it.
#[derive(Drop)]
pub struct OpenTable<'a> {
    /// The parts of the table.
    pub table: Table2<'a>,
    /// FontMatrix.
    pub matrix: Option<Matrix>,
    /// What varies.
    pub variation: FontVariation<'a>,
}

/// The item variation store of a table. It is found anew, as what varies takes it.
fn find_store(bytes: &[u8], axes: usize) -> Option<Option<VariationStore<'_>>>
    ensures { result ≡ option_map (λ cff. cff.store) (cff2_parts bytes.now axes) }
{
    let table = open(bytes, axes)?;
    Some(table.store)
}

/// FontMatrix of a table.
#[tactic(auto, unfolding(crate::specs::Units::top_matrix))]
fn find_matrix(table: &Table2<'_>, units: u16) -> Option<Option<Matrix>>
    ensures { option_map shown result ≡ top_matrix (cff2_of table.now) units }
{
    top_matrix(table.top, units)
}

/// Opens a table. What can't be read is `MalformedFont`.
#[tactic(auto, unfolding(crate::specs::Plain::opened))]
pub fn open_table<'a>(
    alloc: Global,
    bytes: &'a [u8],
    request: &TableRequest<'_>,
) -> Result<OpenTable<'a>, Error>
    ensures { Gives opened_of result (opened bytes.now (request_of request.now)) }
{
    let axes = request.coordinates.len();
    let Some(table) = open(bytes, axes) else {
        return Err(Error::MalformedFont);
    };
    let Some(matrix) = find_matrix(&table, request.units_per_em) else {
        return Err(Error::MalformedFont);
    };
    let Some(store) = find_store(bytes, axes) else {
        return Err(Error::MalformedFont);
    };
    let variation = optional_store_at(alloc, store, request.coordinates)?;
    Ok(OpenTable {
        table,
        matrix,
        variation: FontVariation { variation },
    })
}
