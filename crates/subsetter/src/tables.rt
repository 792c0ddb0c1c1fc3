//! The tables of a new font.
//!
//! A table that is made of the source's (`NewHead`, `NewMetrics`, `NewMaxp`, `NewNames`) is written into the output at
//! once: it knows its length and writes itself, and its value in contracts is the bytes that it writes.

ghost use Rattle.std.specs.Prelude.{◌≡◌, ◌+◌, ◌<◌, ◌≤◌, ◌^◌, ◌++◌, length, vec_capacity, IfOk, IfErr};
ghost use Rattle.std.specs.Option.{option_copied, option_map};
ghost use Rattle.subsetter_sfnt.specs.Laying.Checksum.{checksum};
ghost use Rattle.subsetter.specs.TableView.{table_bytes};
ghost use Rattle.subsetter_base.specs.declared.error.Error.TheVariants.{OutOfMemory};

use crate::common::head::NewHead;
use crate::common::hmtx::NewMetrics;
use crate::common::maxp::NewMaxp;
use crate::common::name::NewNames;
use crate::glyf::outlines::{OutlineList, outlines_len, write_outlines};
use subsetter_cff::CffPieces;
use subsetter_sfnt::laying::checksum::checksum;
use subsetter_sfnt::laying::room::put;
use subsetter_sfnt::laying::tables::TableBytes;

/// The bytes of a table, or what they are written from.
#[derive(Clone, Copy)]
pub enum TableData<'b, 'a> {
    /// A table as one piece.
    Whole(&'b [u8]),
    /// `glyf` as its outlines, in the long or the short format of `loca`.
    Outlines {
        outlines: &'b OutlineList<'a>,
        long: bool,
    },
    /// `CFF ` in two pieces: what is before the charstrings' data, and that data.
    Pieces(&'b CffPieces),
    /// `head`.
    Head(&'b NewHead<'a>),
    /// `hhea`.
    Hhea(&'b NewMetrics<'a>),
    /// `hmtx`.
    Hmtx(&'b NewMetrics<'a>),
    /// `maxp`.
    Maxp(&'b NewMaxp<'a>),
    /// `name`.
    Names(&'b NewNames<'a>),
}

impl<'b, 'a> TableBytes for TableData<'b, 'a> {
    ghost bytes_of = { table_bytes };

    fn len(&self) -> usize {
        match self {
            TableData::Whole(bytes) => bytes.len(),
            TableData::Outlines { outlines, long } => outlines_len(outlines, *long),
            TableData::Pieces(table) => table.front.len().saturating_add(table.char_strings.len()),
            TableData::Head(head) => head.len(),
            TableData::Hhea(metrics) => metrics.hhea_len(),
            TableData::Hmtx(metrics) => metrics.hmtx_len(),
            TableData::Maxp(maxp) => maxp.len(),
            TableData::Names(names) => names.len(),
        }
    }

    fn write_summed(&self, out: &mut Vec<u8>) -> u32 {
        // Outlines are summed while they are at hand.
        if let TableData::Outlines { outlines, long } = self {
            return write_outlines(out, outlines, *long);
        }
        let start = out.len();
        self.write(out);
        checksum(&out[start..])
    }
}

impl<'b, 'a> TableData<'b, 'a> {
    /// Writes the bytes.
    fn write(&self, out: &mut Vec<u8>)
        requires { length out.old.items + length (table_bytes self.now) ≤ vec_capacity out.old }
        ensures items { out.new.items ≡ out.old.items ++ table_bytes self.now }
        ensures capacity { vec_capacity out.old ≤ vec_capacity out.new }
    {
        match self {
            TableData::Whole(bytes) => put(out, bytes),
            TableData::Outlines { outlines, long } => {
                write_outlines(out, outlines, *long);
            }
            TableData::Pieces(table) => {
                put(out, &table.front);
                put(out, &table.char_strings);
            }
            TableData::Head(head) => head.write(out),
            TableData::Hhea(metrics) => metrics.write_hhea(out),
            TableData::Hmtx(metrics) => metrics.write_hmtx(out),
            TableData::Maxp(maxp) => maxp.write(out),
            TableData::Names(names) => names.write(out),
        }
    }
}

/// A table that stays as it is in the source.
pub fn borrowed<'b, 'a>(bytes: Option<&'b [u8]>) -> Option<TableData<'b, 'a>>
    ensures { option_map table_bytes result ≡ option_copied bytes.entry }
{
    match bytes {
        Some(bytes) => Some(TableData::Whole(bytes)),
        None => None,
    }
}
