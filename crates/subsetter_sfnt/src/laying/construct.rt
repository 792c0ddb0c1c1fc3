//! Laying out a font file.
//!
//! The checksum adjustment is a patch of four bytes, the last step. That the tables' offsets fit 32 bits is checked by
//! `file_size`, which takes no memory and whose clause names its one error.

ghost use Rattle.std.specs.Prelude.{◌≡◌, ◌+◌, ◌-◌, ◌*◌, ◌<◌, ◌≤◌, ◌^◌, ◌++◌, ◌%◌, [], length, map, take, drop, true, false, vec_capacity, OnOk, IfOk, IfErr};
ghost use Rattle.std.specs.Int.{w16, w32, to_be_bytes};
ghost use Rattle.std.specs.List.{AllByRecursion};
ghost use Rattle.subsetter_base.specs.Bytes.{aligned};
ghost use Rattle.subsetter_base.specs.Within.{GivesWithin, is_past};
ghost use Rattle.subsetter_base.specs.declared.error.Error.TheVariants.{OverflowError};
ghost use Rattle.subsetter_sfnt.specs.Laying.Written.{selector, header_bytes, directory_bytes, record_bytes, body, adjusted, fits, file, start_of, kind_word, IsTable};
ghost use Rattle.subsetter_sfnt.specs.Laying.Checksum.{checksum};
ghost use Rattle.subsetter_sfnt.specs.Plain.{file_of};
ghost use Rattle.subsetter_sfnt.specs.View.{view, views};

use crate::face::{TABLE_RECORD_SIZE, TABLE_RECORDS};
use crate::fields::head::CHECKSUM_ADJUSTMENT;
use crate::flavor::FontFlavor;
use crate::laying::checksum::checksum;
use crate::laying::room::{align, aligned_len, patch, put};
use crate::laying::tables::{NewTable, TableBytes};
use std::alloc::Global;
use subsetter_base::{Error, Tag};

/// The greatest offset and the greatest length, which have 32 bits.
const MAX_OFFSET: usize = 0xffff_ffff;
/// The sum of a whole file with its adjustment (OpenType, "head", checksumAdjustment).
const FILE_SUM: u32 = 0xB1B0AFBA;

/// How many bytes the file has. `OverflowError` where an offset or a length is 2^32 or more. No memory is taken.
fn file_size<T: TableBytes>(tables: &[NewTable<T>]) -> Result<usize, Error>
    requires { length tables.now < 16 }
    ensures ok { IfOk result (λ n. (fits (start_of (views T.bytes_of tables.now)) (views T.bytes_of tables.now) ≡ true) × (n ≡ start_of (views T.bytes_of tables.now) + length (body (views T.bytes_of tables.now)))) }
    ensures err { IfErr result (λ e. (e ≡ OverflowError) × (fits (start_of (views T.bytes_of tables.now)) (views T.bytes_of tables.now) ≡ false)) }
{
    let mut at = TABLE_RECORDS + TABLE_RECORD_SIZE * tables.len();
    for table in tables {
        if at > MAX_OFFSET {
            return Err(Error::OverflowError);
        }
        let len = table.data.len();
        if len > MAX_OFFSET {
            return Err(Error::OverflowError);
        }
        at = at.saturating_add(aligned_len(len));
    }
    Ok(at)
}

/// The greatest e with 2^e at most the number of tables.
fn entry_selector(count: u16) -> u16
    requires { count < 16 }
    ensures { result ≡ selector count }
{
    match count {
        0..2 => 0,
        2..4 => 1,
        4..8 => 2,
        _ => 3,
    }
}

/// 16 times that power of two.
fn search_range(count: u16) -> u16
    requires { count < 16 }
    ensures { result ≡ 16 * 2 ^ selector count }
{
    match count {
        0..2 => 16,
        2..4 => 32,
        4..8 => 64,
        _ => 128,
    }
}

/// Overwrites the bytes at an offset.
fn patch_bytes(out: &mut Vec<u8>, at: usize, bytes: &[u8])
    requires { at + length bytes.now ≤ length out.old.items }
    ensures items { out.new.items ≡ take at out.old.items ++ bytes.now ++ drop (at + length bytes.now) out.old.items }
    ensures capacity { vec_capacity out.old ≤ vec_capacity out.new }
{
    out[at..at + bytes.len()].copy_from_slice(bytes);
}

/// Kind, number of tables and the numbers for a search.
#[tactic(auto, unfolding(crate::specs::Laying::Written::header_bytes))]
fn new_header(kind: u32, count: u16) -> [u8; 12]
    requires { count < 16 }
    ensures { result ≡ header_bytes kind count }
{
    let range = search_range(count);
    let [a, b, c, d] = kind.to_be_bytes();
    let [e, f] = count.to_be_bytes();
    let [g, h] = range.to_be_bytes();
    let [i, j] = entry_selector(count).to_be_bytes();
    let [k, l] = (16 * count).saturating_sub(range).to_be_bytes();
    [a, b, c, d, e, f, g, h, i, j, k, l]
}

/// The record of a table that is at an offset.
fn new_record<T: TableBytes>(at: u32, len: u32, sum: u32, table: &NewTable<T>) -> [u8; 16]
    requires len { len ≡ length (view T.bytes_of table.now).bytes }
    requires sum { sum ≡ checksum (view T.bytes_of table.now).bytes }
    ensures { result ≡ record_bytes at (view T.bytes_of table.now) }
{
    let tag = table.tag.get();
    let [a, b, c, d] = sum.to_be_bytes();
    let [e, f, g, h] = at.to_be_bytes();
    let [i, j, k, l] = len.to_be_bytes();
    [
        tag[0], tag[1], tag[2], tag[3], a, b, c, d, e, f, g, h, i, j, k, l,
    ]
}

/// Writes a table, with zeros up to a multiple of four, and its record in the place of other bytes, and returns its checksum.
fn write_table<T: TableBytes>(
    out: &mut Vec<u8>,
    place: usize,
    at: usize,
    table: &NewTable<T>,
) -> u32
    requires at { (at < 2 ^ 32) × (length (view T.bytes_of table.now).bytes < 2 ^ 32) }
    requires multiple { length out.old.items % 4 ≡ 0 }
    requires room { length out.old.items + length (aligned 4 (view T.bytes_of table.now).bytes) ≤ vec_capacity out.old }
    requires is_table { IsTable (view T.bytes_of table.now) }
    requires place { place + 16 ≤ length out.old.items }
    ensures record { take (place + 16) out.new.items ≡ take place out.old.items ++ record_bytes at (view T.bytes_of table.now) }
    ensures items { drop (place + 16) out.new.items ≡ drop (place + 16) out.old.items ++ aligned 4 (view T.bytes_of table.now).bytes }
    ensures len { length out.new.items ≡ length out.old.items + length (aligned 4 (view T.bytes_of table.now).bytes) }
    ensures capacity { vec_capacity out.old ≤ vec_capacity out.new }
    ensures sum { result ≡ checksum (view T.bytes_of table.now).bytes }
{
    let sum = table.data.write_summed(out);
    align(out);
    let bytes = new_record(at as u32, table.data.len() as u32, sum, table);
    patch_bytes(out, place, &bytes);
    sum
}

/// Writes tables, each with zeros up to a multiple of four, and their records in the place of other bytes, all of which are
/// before an offset. Returns the checksum of all the tables.
fn write_tables<T: TableBytes>(out: &mut Vec<u8>, start: usize, tables: &[NewTable<T>]) -> u32
    requires tables { AllByRecursion IsTable (views T.bytes_of tables.now) }
    requires fit { fits start (views T.bytes_of tables.now) ≡ true }
    requires start { start ≡ 12 + 16 * length tables.now }
    requires few { length tables.now < 16 }
    requires front { length out.old.items ≡ start }
    requires room { length out.old.items + length (body (views T.bytes_of tables.now)) ≤ vec_capacity out.old }
    ensures front { take start out.new.items ≡ take 12 out.old.items ++ directory_bytes start (views T.bytes_of tables.now) }
    ensures items { drop start out.new.items ≡ body (views T.bytes_of tables.now) }
    ensures len { start ≤ length out.new.items }
    ensures sum { result ≡ checksum (body (views T.bytes_of tables.now)) }
{
    let mut place = TABLE_RECORDS;
    let mut at = start;
    let mut sum: u32 = 0;
    for table in tables {
        sum = sum.wrapping_add(write_table(out, place, at, table));
        place += TABLE_RECORD_SIZE;
        at += aligned_len(table.data.len());
    }
    sum
}

/// Puts the adjustment into a table that is at an offset, if it is `head`.
fn adjust_table<T: TableBytes>(out: &mut Vec<u8>, at: usize, word: u32, table: &NewTable<T>)
    requires is_table { IsTable (view T.bytes_of table.now) }
    requires within { at + length (view T.bytes_of table.now).bytes ≤ length out.old.items }
    requires there { take (length (view T.bytes_of table.now).bytes) (drop at out.old.items) ≡ (view T.bytes_of table.now).bytes }
    ensures { out.new.items ≡ take at out.old.items ++ (adjusted word (view T.bytes_of table.now)).bytes ++ drop (at + length (view T.bytes_of table.now).bytes) out.old.items }
{
    if table.tag == Tag::HEAD {
        patch(out, at + CHECKSUM_ADJUSTMENT, word);
    }
}

/// Puts the adjustment into `head` among the tables that are from an offset on.
fn adjust<T: TableBytes>(out: &mut Vec<u8>, start: usize, word: u32, tables: &[NewTable<T>])
    requires tables { AllByRecursion IsTable (views T.bytes_of tables.now) }
    requires fit { fits start (views T.bytes_of tables.now) ≡ true }
    requires start { start ≤ length out.old.items }
    requires body { drop start out.old.items ≡ body (views T.bytes_of tables.now) }
    ensures { out.new.items ≡ take start out.old.items ++ body (map (adjusted word) (views T.bytes_of tables.now)) }
{
    let mut at = start;
    for table in tables {
        adjust_table(out, at, word, table);
        at += aligned_len(table.data.len());
    }
}

/// Writes zeros for what is before the tables, in whose place it is written later. At most 252 bytes: a header and 15 records.
fn skip_front(out: &mut Vec<u8>, count: usize)
    requires few { count ≤ 252 }
    requires room { length out.old.items + count ≤ vec_capacity out.old }
    ensures count { length out.new.items ≡ length out.old.items + count }
    ensures capacity { vec_capacity out.old ≤ vec_capacity out.new }
{
    put(out, &[0; 252][..count]);
}

/// Lays out a file in room that its caller reserved, also for what is before the tables. No memory is taken.
/// Each table is summed as it is written.
pub fn construct<T: TableBytes>(out: Vec<u8>, flavor: FontFlavor, tables: &[NewTable<T>]) -> Vec<u8>
    requires few { length tables.now < 16 }
    requires tables { AllByRecursion IsTable (views T.bytes_of tables.now) }
    requires fit { fits (start_of (views T.bytes_of tables.now)) (views T.bytes_of tables.now) ≡ true }
    requires empty { out.items ≡ [] }
    requires room { length (file (kind_word flavor) (views T.bytes_of tables.now)) ≤ vec_capacity out }
    ensures { result.items ≡ file (kind_word flavor) (views T.bytes_of tables.now) }
{
    let mut out = out;
    let start = TABLE_RECORDS + TABLE_RECORD_SIZE * tables.len();
    skip_front(&mut out, start);
    let header = new_header(flavor.kind(), tables.len() as u16);
    patch_bytes(&mut out, 0, &header);
    let tables_sum = write_tables(&mut out, start, tables);
    // Each table begins at a multiple of four, so the sum of the file is that of its parts.
    let sum = checksum(&out[..start]).wrapping_add(tables_sum);
    adjust(&mut out, start, FILE_SUM.wrapping_sub(sum), tables);
    out
}

/// `OverflowError` where a size passes a bound. No memory is taken.
fn check_bound(size: usize, bytes: Option<u32>) -> Result<(), Error>
    ensures ok { OnOk result (is_past bytes size ≡ false) }
    ensures err { IfErr result (λ e. (e ≡ OverflowError) × (is_past bytes size ≡ true)) }
{
    match bytes {
        Some(most) if size > most as usize => Err(Error::OverflowError),
        _ => Ok(()),
    }
}

/// Lays out a file. Its size is taken first: `OverflowError` where an offset or a length is 2^32 or more, or where it has more
/// bytes than it may, if these have a bound. Room is reserved once.
#[tactic(auto, unfolding(crate::specs::Plain::file_of))]
pub fn finish<T: TableBytes>(
    alloc: Global,
    flavor: FontFlavor,
    tables: &[NewTable<T>],
    bytes: Option<u32>,
) -> Result<Vec<u8>, Error>
    requires few { length tables.now < 16 }
    requires tables { AllByRecursion IsTable (views T.bytes_of tables.now) }
    ensures gives { GivesWithin (λ v. v.items) bytes length result (file_of (kind_word flavor) (views T.bytes_of tables.now)) }
    ensures within { IfOk result (λ v. is_past bytes (length v.items) ≡ false) }
{
    let size = file_size(tables)?;
    check_bound(size, bytes)?;
    let out = Vec::with_capacity(alloc, size)?;
    Ok(construct(out, flavor, tables))
}
