//! The widths and the columns of a CIDFont (ISO 32000-1, 9.7.4.3).

ghost use Rattle.std.specs.Prelude.{◌≡◌, ◌≤◌, ◌<◌, ◌++◌, ℕ, IfErr, IfOk, OnOk, Some, length, get_or};
ghost use Rattle.subsetter_base.specs.declared.error.Error.TheVariants.{OutOfMemory, OverflowError};
ghost use Rattle.pdf_text.specs.Metrics.Arrays.{value_in};
ghost use Rattle.pdf_text.specs.Dictionaries.Widths.{array_entry, column_entry, default_column, metric_entries, w_text, w2_text, IsRefused};

use crate::dictionaries::entries::{write_entry, write_number, write_numbers};
use crate::metrics::arrays::write_widths;
use crate::metrics::columns::{Column, DefaultColumn, write_columns};
use crate::values::{FontColumns, FontValues};
use std::alloc::Global;
use subsetter_base::Error;

// ---- arrays

/// The value of W, which leaves out the CIDs that have the default width.
///
/// # Errors
///
/// `OutOfMemory` alone.
pub fn write_w(alloc: Global, values: FontValues<'_>) -> Result<Vec<u8>, Error>
    ensures ok { IfOk result (λ text. text.items ≡ w_text values.entry) }
    ensures read { IfOk result (λ text. (k : ℕ) → k < length values.entry.widths.now → value_in text.items values.entry.default_width k ≡ Some (get_or values.entry.widths.now k values.entry.default_width)) }
    ensures err { IfErr result (λ e. e ≡ OutOfMemory) }
{
    write_widths(alloc, values.widths, values.default_width)
}

/// Whether there are no more columns than CIDs.
fn checked(columns: &[Column]) -> Result<(), Error>
    ensures ok { OnOk result (length columns.now ≤ 65536) }
    ensures err { IfErr result (λ e. (e ≡ OverflowError) × (65536 < length columns.now)) }
{
    if columns.len() > 65536 {
        return Err(Error::OverflowError);
    }
    Ok(())
}

/// The value of W2, which leaves out the CIDs that have the default column. Of horizontal writing it is `[]`.
///
/// # Errors
///
/// - `OverflowError`: there are more columns than CIDs.
/// - `OutOfMemory`: a request for memory was refused.
pub fn write_w2(alloc: Global, columns: Option<FontColumns<'_>>) -> Result<Vec<u8>, Error>
    ensures ok { IfOk result (λ text. text.items ≡ w2_text columns.entry) }
    ensures err { IfErr result (IsRefused columns.entry) }
{
    match columns {
        None => Ok(Vec::from_slice(alloc, b"[]")?),
        Some(columns) => {
            checked(columns.each)?;
            write_columns(alloc, columns.each, columns.default)
        }
    }
}

// ---- entries

/// Writes an array, if it has a member.
fn write_members(text: &mut Vec<u8>, key: &[u8], value: &[u8]) -> Result<(), Error>
    ensures ok { OnOk result (text.new.items ≡ text.old.items ++ array_entry key.now value.now) }
    ensures err { IfErr result (λ e. e ≡ OutOfMemory) }
{
    if value.len() > 2 {
        write_entry(text, key, value)
    } else {
        Ok(())
    }
}

/// DW2, if it isn't PDF's own.
fn default_column(columns: Option<FontColumns<'_>>) -> Option<[i32; 2]>
    ensures { result ≡ default_column columns.entry }
{
    match columns {
        None => None,
        Some(columns) => {
            let DefaultColumn { y, advance } = columns.default;
            if y == 880 && advance == -1000 {
                return None;
            }
            Some([y, advance])
        }
    }
}

/// Writes DW2, if it isn't PDF's own.
fn write_column(text: &mut Vec<u8>, column: Option<[i32; 2]>) -> Result<(), Error>
    ensures ok { OnOk result (text.new.items ≡ text.old.items ++ column_entry column) }
    ensures err { IfErr result (λ e. e ≡ OutOfMemory) }
{
    match column {
        Some(numbers) => write_numbers(text, b"DW2", &numbers),
        None => Ok(()),
    }
}

/// Writes DW, W, DW2 and W2, of which the arrays are these.
#[tactic(auto, using(crate::proofs::Written::four_written))]
fn write_all(text: &mut Vec<u8>, values: FontValues<'_>, w: &[u8], w2: &[u8]) -> Result<(), Error>
    requires w { w.now ≡ w_text values }
    requires w2 { w2.now ≡ w2_text values.columns }
    ensures ok { OnOk result (text.new.items ≡ text.old.items ++ metric_entries values.entry) }
    ensures err { IfErr result (λ e. e ≡ OutOfMemory) }
{
    write_number(text, b"DW", values.default_width)?;
    write_members(text, b"W", w)?;
    write_column(text, default_column(values.columns))?;
    write_members(text, b"W2", w2)
}

/// Writes DW, W, DW2 and W2.
pub fn write_metrics(alloc: Global, text: &mut Vec<u8>, values: FontValues<'_>) -> Result<(), Error>
    ensures ok { OnOk result (text.new.items ≡ text.old.items ++ metric_entries values.entry) }
    ensures err { IfErr result (IsRefused values.entry.columns) }
{
    let w = write_w(alloc, values)?;
    let w2 = write_w2(alloc, values.columns)?;
    write_all(text, values, &w, &w2)?;
    Ok(())
}
