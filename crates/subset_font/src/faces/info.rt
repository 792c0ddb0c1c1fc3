//! What a face is: its outlines and tables, what its maker permits, and whether a subset of all its glyphs is made.

ghost use Rattle.std.specs.Prelude.{◌≡◌, ◌≢◌, ◌⊎◌, IfErr, IfOk, IfSome, None, OnOk, codes, is_some, string_bytes};
ghost use Rattle.std.specs.Io.KnownBytes.{Appends};
ghost use Rattle.std.specs.Option.{option_copied, option_map};
ghost use Rattle.subsetter_base.specs.declared.error.Error.TheVariants.{OutOfMemory};
ghost use Rattle.subsetter_sfnt.specs.Extras.{all_extras};
ghost use Rattle.subsetter_sfnt.specs.Read.{header_offset, records, stored};
ghost use Rattle.subset_font.specs.Faces.Accepted.{IsAnswer};
ghost use Rattle.subset_font.specs.Faces.Info.{known_kinds, permission_of, pictures_of, IsInfo, info_text, ShowsInfo, IsInfoFault};
ghost use Rattle.font_reasons.specs.Directory.{bytes_or_none, records_in};
ghost use Rattle.subset_task.specs.Faces.Tables.{tables_of};
ghost use Rattle.subset_task.specs.declared.refusals.failure.Failure.TheVariants.{Error as Refused, Read as CannotRead, Output, Usage};

use crate::faces::accepted::{InfoParts, try_all};
use font_reasons::{directory_of, face_count};
use glyph_kinds::{kind_counts, kinds_of};
use std::alloc::{AllocError, Global};
use std::io::{Read, Write};
use subset_lines::{Info, write_info, write_info_json};
use subset_task::faces::outlines::outlines_of;
use subset_task::faces::tables::tables_of;
use subset_task::making::requested::{count_glyphs, first_glyphs};
use subset_task::reading::read_whole;
use subset_task::refusals::failure::Failure;
use subsetter::{Error, Tag};
use subsetter_base::read::Reader;
use subsetter_sfnt::directory::{header_offset, table};

/// Whether a face has `fvar`.
fn is_variable(font: &[u8], index: u32) -> bool
    ensures { result ≡ is_some (stored (record { bytes = font.now; index = index; extras = all_extras }) (codes "fvar")) }
{
    match table(font, index, Tag::new(b"fvar")) {
        Some(_) => true,
        None => false,
    }
}

/// The bits of fsType, if the face has them.
fn permission_of(font: &[u8], index: u32) -> Option<u16>
    ensures { result ≡ permission_of (record { bytes = font.now; index = index; extras = all_extras }) }
{
    let table = table(font, index, Tag::new(b"OS/2"))?;
    Reader::new_at(table, 8).read::<u16>()
}

/// A text's bytes, if there is one.
fn bytes_of(text: &Option<String>) -> Option<&[u8]>
    ensures { option_copied result ≡ option_map string_bytes text.now }
{
    match text {
        Some(text) => Some(text.as_bytes()),
        None => None,
    }
}

/// The kinds of pictures of glyphs; none where the directory of the face can't be read.
fn known_kinds(
    alloc: Global,
    font: &[u8],
    index: u32,
    glyphs: &[u16],
) -> Result<Vec<u32>, AllocError>
    ensures { IfOk result (λ v. v.items ≡ known_kinds (record { bytes = font.now; index = index; extras = all_extras }) glyphs.now) }
{
    match kinds_of(alloc, font, index, glyphs) {
        Ok(kinds) => Ok(kinds),
        Err(Error::OutOfMemory) => Err(AllocError),
        Err(_) => Ok(Vec::new(alloc)),
    }
}

/// Each kind of pictures that glyphs of a face have, with how many have it.
fn pictures_of(alloc: Global, font: &[u8], index: u32) -> Result<Vec<(u8, usize)>, AllocError>
    ensures { IfOk result (λ v. v.items ≡ pictures_of (record { bytes = font.now; index = index; extras = all_extras })) }
{
    let count = count_glyphs(font, index).unwrap_or(0);
    let glyphs = first_glyphs(alloc, count)?;
    let kinds = known_kinds(alloc, font, index, &glyphs)?;
    let counts = kind_counts(&kinds);
    counts
        .iter()
        .copied()
        .filter(|kind| kind.1 > 0)
        .collect(alloc)
}

/// What a face is.
#[tactic(auto, using(crate::proofs::FacesLaws::Showing::answered))]
fn info_of<'a>(
    font: &[u8],
    index: u32,
    parts: &'a InfoParts,
    pictures: &'a [(u8, usize)],
    tables: &'a [(Tag, u32)],
) -> Info<'a>
    requires answer { IsAnswer (record { bytes = font.now; index = index; extras = all_extras }) (option_map string_bytes parts.now.refusal) (option_map string_bytes parts.now.reason) }
    requires pictures { pictures.now ≡ pictures_of (record { bytes = font.now; index = index; extras = all_extras }) }
    requires tables { tables.now ≡ tables_of (records_in (bytes_or_none (records (record { bytes = font.now; index = index; extras = all_extras })))) }
    ensures { IsInfo (record { bytes = font.now; index = index; extras = all_extras }) result }
{
    Info {
        outlines: outlines_of(font, index),
        is_variable: is_variable(font, index),
        faces: face_count(font).unwrap_or(1),
        glyphs: count_glyphs(font, index),
        pictures,
        bytes: font.len() as u64,
        permission: permission_of(font, index),
        refusal: bytes_of(&parts.refusal),
        reason: bytes_of(&parts.reason),
        tables,
    }
}

/// Writes what a face is, as lines or as JSON.
fn write_shown<L: Write>(
    alloc: Global,
    info: &Info<'_>,
    json: bool,
    lines: &mut L,
) -> Result<(), Failure>
    ensures ok { OnOk result (Appends (L.contents lines.old) (L.contents lines.new) (info_text json info.now)) }
    ensures err { IfErr result (λ e. e ≡ Output) }
{
    if json {
        return write_info_json(alloc, info, lines).map_err(|_| Failure::Output);
    }
    write_info(alloc, info, lines).map_err(|_| Failure::Output)
}

/// Writes what a face is, by what was found out of it.
fn write_parts<L: Write>(
    alloc: Global,
    font: &[u8],
    index: u32,
    json: bool,
    parts: &InfoParts,
    pictures: &[(u8, usize)],
    tables: &[(Tag, u32)],
    lines: &mut L,
) -> Result<(), Failure>
    requires header { header_offset (record { bytes = font.now; index = index; extras = all_extras }) ≢ None }
    requires answer { IsAnswer (record { bytes = font.now; index = index; extras = all_extras }) (option_map string_bytes parts.now.refusal) (option_map string_bytes parts.now.reason) }
    requires pictures { pictures.now ≡ pictures_of (record { bytes = font.now; index = index; extras = all_extras }) }
    requires tables { tables.now ≡ tables_of (records_in (bytes_or_none (records (record { bytes = font.now; index = index; extras = all_extras })))) }
    ensures ok { OnOk result (ShowsInfo json (record { bytes = font.now; index = index; extras = all_extras }) (L.contents lines.old) (L.contents lines.new)) }
    ensures err { IfErr result (λ e. e ≡ Output) }
{
    let info = info_of(font, index, parts, pictures, tables);
    write_shown(alloc, &info, json, lines)
}

/// Writes what a face with a header is.
fn show_face<L: Write>(
    alloc: Global,
    font: &[u8],
    index: u32,
    json: bool,
    lines: &mut L,
) -> Result<(), Failure>
    requires { header_offset (record { bytes = font.now; index = index; extras = all_extras }) ≢ None }
    ensures ok { OnOk result (ShowsInfo json (record { bytes = font.now; index = index; extras = all_extras }) (L.contents lines.old) (L.contents lines.new)) }
    ensures err { IfErr result (λ e. (e ≡ Output) ⊎ (e ≡ Refused OutOfMemory)) }
{
    let Ok(tables) = tables_of(alloc, directory_of(font, index)) else {
        return Err(Failure::Error(Error::OutOfMemory));
    };
    let Ok(pictures) = pictures_of(alloc, font, index) else {
        return Err(Failure::Error(Error::OutOfMemory));
    };
    match try_all(alloc, font, index) {
        Ok(parts) => write_parts(alloc, font, index, json, &parts, &pictures, &tables, lines),
        Err(_) => Err(Failure::Error(Error::OutOfMemory)),
    }
}

/// Writes what a face is, as lines or as one JSON object.
///
/// `UnknownKind` where the file has no font at the index; `Output` where the writer fails.
pub fn show_info<L: Write>(
    alloc: Global,
    font: &[u8],
    index: u32,
    json: bool,
    lines: &mut L,
) -> Result<(), Failure>
    ensures ok { OnOk result (ShowsInfo json (record { bytes = font.now; index = index; extras = all_extras }) (L.contents lines.old) (L.contents lines.new)) }
    ensures err { IfErr result (λ e. (e ≡ Output) ⊎ ((e ≡ Refused OutOfMemory) ⊎ IsInfoFault (record { bytes = font.now; index = index; extras = all_extras }) e)) }
    ensures kind { IfErr result (λ e. e ≢ Usage) }
{
    match header_offset(font, index) {
        Some(_) => show_face(alloc, font, index, json, lines),
        None => Err(Failure::Error(Error::UnknownKind)),
    }
}

/// Reads the font from the reader, and writes what a face is. The bytes that were read are kept. Memory for `room` bytes is
/// reserved at once.
pub fn carry_info<R: Read, L: Write>(
    alloc: Global,
    index: u32,
    json: bool,
    reader: &mut R,
    room: usize,
    source: &mut Vec<u8>,
    lines: &mut L,
) -> Result<(), Failure>
    ensures ok { OnOk result (IfSome (R.remaining reader.old) (λ bytes. ShowsInfo json (record { bytes = bytes; index = index; extras = all_extras }) (L.contents lines.old) (L.contents lines.new))) }
    ensures err { IfErr result (λ e. (e ≡ CannotRead) ⊎ ((e ≡ Output) ⊎ ((e ≡ Refused OutOfMemory) ⊎ IfSome (R.remaining reader.old) (λ bytes. IsInfoFault (record { bytes = bytes; index = index; extras = all_extras }) e)))) }
    ensures kind { IfErr result (λ e. e ≢ Usage) }
{
    let font = read_whole(alloc, reader, room)?;
    let shown = show_info(alloc, &font, index, json, lines);
    *source = font;
    shown
}
