//! The box of the kept glyphs in the `head` of a new font (OpenType, "head", "Calculating Checksums").

ghost use Rattle.std.specs.Prelude.{◌≡◌, ◌≤◌, ◌+◌, is_some, length, true};
ghost use Rattle.subsetter_sfnt.specs.Read.{table_in};
ghost use Rattle.pdf_source.specs.Boxed.{blank, box_bytes, boxed, boxed_at, boxed_if, head_box, head_place, is_in, one_if, place_by, put, records_before, settled, summed};

use pdf_values::{Bounds, GlyphBox};
use subsetter_base::Tag;
use subsetter_sfnt::directory::{find_record, records_at, table_in};
use subsetter_sfnt::laying::checksum::checksum;

/// The sum of a whole file with its adjustment (OpenType, "head", checksumAdjustment).
const FILE_SUM: u32 = 0xB1B0AFBA;
/// checksumAdjustment, four bytes.
pub(crate) const CHECKSUM_ADJUSTMENT: usize = 8;
/// xMin, and after it yMin, xMax and yMax, two bytes each.
const X_MIN: usize = 36;
/// The checksum of a record of the directory, four bytes after its tag.
const RECORD_CHECKSUM: usize = 4;
/// How many bytes are before the records of the directory, and how many a record has.
const TABLE_RECORDS: u32 = 12;

const TABLE_RECORD_SIZE: u32 = 16;

/// Where `head` is, in bytes.
#[derive(Clone, Copy)]
pub struct HeadPlace {
    /// Its record in the directory.
    pub record_at: u32,
    pub offset: u32,
    pub size: u32,
}

/// xMin, yMin, xMax and yMax.
fn box_bytes(bounds: GlyphBox) -> [u8; 8]
    ensures { result ≡ box_bytes bounds }
{
    let [a, b] = bounds.x_min.to_be_bytes();
    let [c, d] = bounds.y_min.to_be_bytes();
    let [e, f] = bounds.x_max.to_be_bytes();
    let [g, h] = bounds.y_max.to_be_bytes();
    [a, b, c, d, e, f, g, h]
}

/// 1, if a table is there.
fn one_if(file: &[u8], directory: &[u8], tag: Tag) -> u32
    ensures value { result ≡ one_if (is_some (table_in file.now directory.now tag.0)) }
    ensures few { result ≤ 1 }
{
    match table_in(file, directory, tag) {
        Some(_) => 1,
        None => 0,
    }
}

/// How many records of a directory are before that of `head`.
fn records_before(file: &[u8], directory: &[u8]) -> u32
    ensures value { result ≡ records_before (table_in file.now directory.now) }
    ensures few { result ≤ 4 }
{
    one_if(file, directory, Tag::CFF)
        + (one_if(file, directory, Tag::CVT)
            + (one_if(file, directory, Tag::FPGM) + one_if(file, directory, Tag::GLYF)))
}

/// Where `head` is, by the records of the directory.
fn place_by(file: &[u8], directory: &[u8]) -> Option<HeadPlace>
    ensures { result ≡ place_by file.now directory.now }
{
    let record = find_record(directory, Tag::HEAD)?;
    Some(HeadPlace {
        record_at: TABLE_RECORDS + TABLE_RECORD_SIZE * records_before(file, directory),
        offset: record.offset,
        size: record.length,
    })
}

/// Where the `head` of a file is.
#[tactic(auto, unfolding(crate::specs::Boxed::head_place))]
fn head_place(file: &[u8]) -> Option<HeadPlace>
    ensures { result ≡ head_place file.now }
{
    let directory = records_at(file, 0)?;
    place_by(file, directory)
}

/// Whether the bytes that are written are in a file of this length.
fn is_in(place: HeadPlace, size: usize) -> bool
    ensures value { result ≡ is_in place size }
    ensures large { result ≡ true → 44 ≤ place.size }
    ensures head { result ≡ true → place.offset + place.size ≤ size }
    ensures entry { result ≡ true → place.record_at + 8 ≤ size }
{
    place.size >= 44
        && (place.offset as usize + place.size as usize <= size
            && place.record_at as usize + 8 <= size)
}

/// Writes bytes in place of others.
pub(crate) fn put(file: &mut Vec<u8>, at: usize, bytes: &[u8])
    requires { at + length bytes.now ≤ length file.old.items }
    ensures items { file.new.items ≡ put at bytes.now file.old.items }
    ensures size { length file.new.items ≡ length file.old.items }
{
    file[at..at + bytes.len()].copy_from_slice(bytes);
}

/// Writes zeros for the adjustment, and a box.
fn put_box(file: &mut Vec<u8>, place: HeadPlace, bounds: [u8; 8])
    requires large { 44 ≤ place.size }
    requires head { place.offset + place.size ≤ length file.old.items }
    ensures items { file.new.items ≡ blank place bounds file.old.items }
    ensures size { length file.new.items ≡ length file.old.items }
{
    let head = place.offset as usize;
    put(file, head + CHECKSUM_ADJUSTMENT, &[0; 4]);
    put(file, head + X_MIN, &bounds);
}

/// Writes the checksum of `head` into its record.
fn put_checksum(file: &mut Vec<u8>, place: HeadPlace)
    requires head { place.offset + place.size ≤ length file.old.items }
    requires entry { place.record_at + 8 ≤ length file.old.items }
    ensures items { file.new.items ≡ summed place file.old.items }
    ensures size { length file.new.items ≡ length file.old.items }
{
    let head = place.offset as usize;
    let sum = checksum(&file[head..head + place.size as usize]);
    put(
        file,
        place.record_at as usize + RECORD_CHECKSUM,
        &sum.to_be_bytes(),
    );
}

/// Writes the adjustment of the whole file.
fn put_adjustment(file: &mut Vec<u8>, place: HeadPlace)
    requires large { 44 ≤ place.size }
    requires head { place.offset + place.size ≤ length file.old.items }
    ensures { file.new.items ≡ settled place file.old.items }
{
    let word = FILE_SUM.wrapping_sub(checksum(file));
    put(
        file,
        place.offset as usize + CHECKSUM_ADJUSTMENT,
        &word.to_be_bytes(),
    );
}

/// A file with a box in its `head`, where the file has the bytes.
fn boxed_at(file: Vec<u8>, place: HeadPlace, bounds: [u8; 8]) -> Vec<u8>
    ensures { result.items ≡ boxed_at place bounds file.items }
{
    let mut file = file;
    if is_in(place, file.len()) {
        put_box(&mut file, place, bounds);
        put_checksum(&mut file, place);
        put_adjustment(&mut file, place);
    }
    file
}

/// A file with a box in its `head`.
#[tactic(auto, unfolding(crate::specs::Boxed::boxed))]
fn boxed(file: Vec<u8>, bounds: GlyphBox) -> Vec<u8>
    ensures { result.items ≡ boxed bounds file.items }
{
    match head_place(&file) {
        Some(place) => boxed_at(file, place, box_bytes(bounds)),
        None => file,
    }
}

/// A file with a box in its `head`, if there is one.
pub fn boxed_if(file: Vec<u8>, bounds: Option<GlyphBox>) -> Vec<u8>
    ensures { result.items ≡ boxed_if bounds file.items }
{
    match bounds {
        Some(bounds) => boxed(file, bounds),
        None => file,
    }
}

/// The box of the kept glyphs, where FontBBox is to hold these.
pub fn head_box(choice: Bounds, kept: Option<GlyphBox>) -> Option<GlyphBox>
    ensures { result ≡ head_box choice kept }
{
    match choice {
        Bounds::Font => None,
        Bounds::Kept => kept,
    }
}
