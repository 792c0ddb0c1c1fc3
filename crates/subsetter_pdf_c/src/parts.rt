//! The objects of a font that C holds, as data.

ghost use Rattle.std.specs.Prelude.{◌≡◌, ◌≤◌, ◌<◌, ◌+◌, length, map, IfOk, IfErr};
ghost use Rattle.std.specs.Option.{option_copied};
ghost use Rattle.subsetter_base.specs.declared.error.Error.TheVariants.{OutOfMemory};
ghost use Rattle.pdf_text.specs.Parts.{part_view, parts_view};
ghost use Rattle.subsetter_pdf_c.specs.Written.{ArePartsOf, HasNoPartsOf, IsPartCount, laid_out, laid_view, role_number, stream_bytes, stream_number};

use crate::kept::{kept_bytes, kept_strings};
use crate::made::PdfMade;
use crate::view::view_of;
use pdf_text::{FontPart, Object, PartsError, StringRange, write_parts};
use std::alloc::Global;
use subsetter_base::Error;

/// An object of a font, whose entries and strings the caller gives back; its stream is the font's.
#[derive(Clone, Copy)]
#[repr(C)]
pub struct PdfPart {
    /// 0: the Type 0 font, 1: the CIDFont, 2: the font descriptor, 3: the font program, 4: ToUnicode, 5: CIDSet, 6: the CMap,
    /// 7: CIDToGIDMap.
    pub role: u32,
    pub number: u32,
    /// The entries of its dictionary, each with a blank after it, but for a stream's Length.
    pub entries: &'static [u8],
    /// Where the strings of the entries are, in order.
    pub strings: &'static [StringRange],
    /// Not 0: it is a stream.
    pub is_stream: u32,
    pub stream: &'static [u8],
}

/// The number of a role.
fn role_number(role: Object) -> u32
    ensures { result ≡ role_number role }
{
    match role {
        Object::Font => 0,
        Object::CidFont => 1,
        Object::FontDescriptor => 2,
        Object::FontFile => 3,
        Object::ToUnicode => 4,
        Object::CidSet => 5,
        Object::Cmap => 6,
        Object::CidToGidMap => 7,
    }
}

/// Whether there is a stream.
fn stream_number(stream: Option<&[u8]>) -> u32
    ensures { result ≡ stream_number (option_copied stream.entry) }
{
    match stream {
        None => 0,
        Some(_) => 1,
    }
}

/// The bytes of a stream.
fn stream_bytes(stream: Option<&'static [u8]>) -> &'static [u8]
    ensures { result.now ≡ stream_bytes (option_copied stream.entry) }
{
    match stream {
        None => &[],
        Some(bytes) => bytes,
    }
}

/// A part that stays until the caller gives it back.
fn laid_out(part: FontPart<'static>) -> PdfPart
    ensures { laid_view result ≡ laid_out (part_view part.entry) }
{
    PdfPart {
        role: role_number(part.role),
        number: part.number,
        entries: kept_bytes(part.entries),
        strings: kept_strings(part.strings),
        is_stream: stream_number(part.stream),
        stream: stream_bytes(part.stream),
    }
}

/// Parts that stay until the caller gives them back.
fn all_laid_out(alloc: Global, parts: Vec<FontPart<'static>>) -> Result<Vec<PdfPart>, Error>
    ensures ok { IfOk result (λ list. map laid_view list.items ≡ map laid_out (parts_view parts.entry.items)) }
    ensures err { IfErr result (λ e. e ≡ OutOfMemory) }
{
    let mut list = Vec::with_capacity(alloc, parts.len())?;
    let mut rest = parts;
    while !rest.is_empty() {
        list.push_reserved(laid_out(rest.remove(0)));
    }
    Ok(list)
}

/// How many objects a font has, with these bytes of CIDToGIDMap.
pub fn part_count(made: &PdfMade, cid_to_gid_map: &'static [u8]) -> usize
    ensures { IsPartCount made.now cid_to_gid_map.now result }
{
    pdf_text::part_count(view_of(made, cid_to_gid_map).values)
}

/// The objects of a font as data, with these numbers: as `pdf_text::write_parts` gives them. What the parts own stays until
/// the caller gives it back.
///
/// # Errors
///
/// - `InvalidNumbers`: the numbers aren't distinct, one is 0, or they aren't as many as there are objects.
/// - `Subset`: there are more columns than CIDs (`OverflowError`), or a request for memory was refused (`OutOfMemory`).
pub fn parts_of(
    alloc: Global,
    made: &PdfMade,
    cid_to_gid_map: &'static [u8],
    numbers: &[u32],
) -> Result<Vec<PdfPart>, PartsError>
    ensures ok { IfOk result (λ parts. ArePartsOf made.now cid_to_gid_map.now numbers.now parts.items) }
    ensures err { IfErr result (λ e. HasNoPartsOf made.now cid_to_gid_map.now numbers.now e) }
{
    let parts = match write_parts(alloc, view_of(made, cid_to_gid_map).values, numbers) {
        Ok(parts) => parts,
        Err(error) => return Err(error),
    };
    match all_laid_out(alloc, parts) {
        Ok(list) => Ok(list),
        Err(error) => Err(PartsError::Subset(error)),
    }
}
