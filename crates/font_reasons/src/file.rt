//! What is wrong with a file as a whole: its first bytes, its table directory, and tables that end past the end of the file.

ghost use Rattle.std.specs.Prelude.{◌≡◌, ◌+◌, length};
ghost use Rattle.subsetter_sfnt.specs.Extras.{all_extras};
ghost use Rattle.subsetter_sfnt.specs.Read.{records};
ghost use Rattle.font_reasons.specs.Directory.{bytes_or_none};
ghost use Rattle.font_reasons.specs.File.{packed, by_front, by_magic, other_format, front_of, not_font, face_count, no_face, no_directory, no_font, end_of, cut_by, cut_table, missing_table};

use crate::reason::Reason;
use subsetter_base::Tag;
use subsetter_base::read::{Reader, number_at};
use subsetter_sfnt::directory::{find_record, header_offset, kind_at, records};
use subsetter_sfnt::face::{TTC_TAG, TableRecord};

/// What a WOFF begins with: `wOFF`.
const WOFF: u32 = 0x774F4646;
/// What a WOFF2 begins with: `wOF2`.
const WOFF2: u32 = 0x774F4632;
/// What a Type 1 font begins with: `%!`, or the mark of a segment of ASCII.
const TYPE_1: u16 = 0x2521;

const TYPE_1_SEGMENT: u16 = 0x8001;
/// What a PDF begins with: `%P`.
const PDF: u16 = 0x2550;
/// MagicNumber of an EOT, low byte first, and its offset in bytes.
const EOT: u16 = 0x4C50;

const EOT_MAGIC: usize = 34;
/// The offset of numFonts in the header of a collection, in bytes.
const NUM_FONTS: usize = 8;

/// The records of a face's table directory; no bytes where it has none.
pub fn directory_of(font: &[u8], index: u32) -> &[u8]
    ensures { result.now ≡ bytes_or_none (records (record { bytes = font.now; index = index; extras = all_extras })) }
{
    match records(font, index) {
        Some(bytes) => bytes,
        None => &[],
    }
}

/// Whether a file is a WOFF or a WOFF2.
fn packed(font: &[u8]) -> Option<Reason>
    ensures { result ≡ packed font.now }
{
    match Reader::new_at(font, 0).read::<u32>()? {
        WOFF => Some(Reason::Woff),
        WOFF2 => Some(Reason::Woff2),
        _ => None,
    }
}

/// numFonts of a collection.
pub fn face_count(font: &[u8]) -> Option<u32>
    ensures { result ≡ face_count font.now }
{
    match Reader::new_at(font, 0).read::<u32>()? {
        TTC_TAG => Reader::new_at(font, NUM_FONTS).read::<u32>(),
        _ => None,
    }
}

/// Whether a collection has no face of an index.
fn no_face(font: &[u8], index: u32) -> Option<Reason>
    ensures { result ≡ no_face font.now index }
{
    let count = face_count(font)?;
    if index < count {
        return None;
    }
    Some(Reason::NoFace(index, count))
}

/// That a file begins as no font does, by its first four bytes.
fn by_front(front: Option<Tag>) -> Reason
    ensures { result ≡ by_front front }
{
    match front {
        Some(front) => Reason::Begins(front),
        None => Reason::NotFont,
    }
}

/// What a file is that begins as no font does, by the number where EOT has its own.
fn by_magic(magic: Option<u16>, front: Option<Tag>) -> Reason
    ensures { result ≡ by_magic magic front }
{
    match magic {
        Some(EOT) => Reason::Eot,
        _ => by_front(front),
    }
}

/// What a file is that begins as no font does, by its first number or by the number where EOT has its own.
fn other_format(number: Option<u16>, magic: Option<u16>, front: Option<Tag>) -> Reason
    ensures { result ≡ other_format number magic front }
{
    match number {
        Some(TYPE_1) => Reason::Type1,
        Some(TYPE_1_SEGMENT) => Reason::Type1,
        Some(PDF) => Reason::Pdf,
        _ => by_magic(magic, front),
    }
}

/// The first four bytes of a file.
fn front_of(font: &[u8]) -> Option<Tag>
    ensures { result ≡ front_of font.now }
{
    Reader::new_at(font, 0).read::<Tag>()
}

/// Whether a file begins as no font does.
fn not_font(font: &[u8]) -> Option<Reason>
    ensures { result ≡ not_font font.now }
{
    if font.len() == 0 {
        return Some(Reason::Empty);
    }
    match kind_at(font, 0) {
        Some(_) => None,
        None => Some(other_format(
            number_at(font, 0),
            number_at(font, EOT_MAGIC),
            front_of(font),
        )),
    }
}

/// Whether the header of a face isn't there, or its directory isn't inside the file.
fn no_directory(font: &[u8], index: u32) -> Option<Reason>
    ensures { result ≡ no_directory (record { bytes = font.now; index = index; extras = all_extras }) }
{
    match (header_offset(font, index), records(font, index)) {
        (None, _) => Some(Reason::NoHeader(index)),
        (Some(_), None) => Some(Reason::CutDirectory),
        (Some(_), Some(_)) => None,
    }
}

/// What is wrong with a file before a table is looked for.
pub fn no_font(font: &[u8], index: u32) -> Option<Reason>
    ensures { result ≡ no_font (record { bytes = font.now; index = index; extras = all_extras }) }
{
    packed(font).or(not_font(font).or(no_face(font, index).or(no_directory(font, index))))
}

/// Where the table of a record ends, in bytes from the start of the file.
fn end_of(one: TableRecord) -> u64
    ensures { result ≡ end_of one }
{
    u64::from(one.offset) + u64::from(one.length)
}

/// Whether the table of a record ends past the end of a file of this many bytes.
fn cut_by(one: TableRecord, size: u64) -> Option<Reason>
    ensures { result ≡ cut_by size one }
{
    let end = end_of(one);
    if end > size {
        return Some(Reason::Cut(one.tag, end, size));
    }
    None
}

/// Whether the table of a tag does so.
pub fn cut_table(font: &[u8], index: u32, tag: Tag) -> Option<Reason>
    ensures { result ≡ cut_table (record { bytes = font.now; index = index; extras = all_extras }) tag }
{
    let found = find_record(directory_of(font, index), tag)?;
    cut_by(found, font.len() as u64)
}

/// Why a table of a face isn't found: it ends past the end of the file, or the directory doesn't have it.
pub fn missing_table(font: &[u8], index: u32, tag: Tag) -> Reason
    ensures { result ≡ missing_table (record { bytes = font.now; index = index; extras = all_extras }) tag }
{
    match find_record(directory_of(font, index), tag) {
        Some(found) => Reason::Cut(tag, end_of(found), font.len() as u64),
        None => Reason::NoTable(tag),
    }
}
