//! The parts, the objects and a sheet of a font, handed to C.

ghost use Rattle.std.specs.Prelude.{◌≡◌, ◌≢◌, Err};
ghost use Rattle.subsetter_pdf_c.specs.Written.{ArePartsOf, HasNoPartsOf, IsPartCount};
ghost use Rattle.subsetter_c.specs.Documents.PdfObjects.{AreLinesWritten, AreObjectsWritten, IsNoneWritten};
ghost use Rattle.subsetter_c.specs.Documents.Parts.{AreNoParts, ArePartsAnswered, ArePartsHanded, parts_status};
ghost use Rattle.subsetter_c.specs.Documents.Whole.{own_size};
ghost use Rattle.subsetter_c.specs.Answers.Status.{unknown_option};

use crate::answers::kept::kept_parts;
use crate::answers::status::{DONE, INVALID_NUMBERS, UNKNOWN_OPTION, status_of};
use crate::documents::pdf_files::{ObjectsMade, hand_file, hand_objects, nothing};
use crate::documents::whole::{FontMade, SIZE};
use pdf_sheet::SheetLine;
use std::alloc::Global;
use subsetter_pdf_c::{PartsError, PdfPart, lines_of, part_count, parts_of, write_objects};

/// All parts of a font, which the caller reads, and gives back by `subsetter_free_pdf_parts`.
#[derive(Drop)]
#[repr(C)]
pub struct PartsMade {
    pub parts: &'static [PdfPart],
}

/// No parts.
fn no_parts() -> PartsMade
    ensures { AreNoParts result }
{
    PartsMade { parts: &[] }
}

/// The number of a refusal.
fn parts_status(error: PartsError) -> u32
    ensures { result ≡ parts_status error }
{
    match error {
        PartsError::InvalidNumbers => INVALID_NUMBERS,
        PartsError::Subset(error) => status_of(error),
    }
}

/// Hands parts over, or the error: the status.
fn hand_parts(answer: Result<Vec<PdfPart>, PartsError>, made: &mut PartsMade) -> u32
    ensures { ArePartsHanded (ArePartsAnswered answer) (λ e. answer ≡ Err e) made.new result }
{
    match answer {
        Ok(parts) => {
            *made = PartsMade {
                parts: kept_parts(parts),
            };
            DONE
        }
        Err(error) => {
            *made = no_parts();
            parts_status(error)
        }
    }
}

/// How many parts a font has.
#[tactic(auto, using(crate::proofs::DocumentsLaws::Parts::few_parts))]
#[unsafe(no_mangle)]
pub extern "C" fn subsetter_pdf_part_count(font: &FontMade) -> u32
    ensures { IsPartCount font.now.pdf font.now.cid_to_gid_map.now result }
{
    part_count(&font.pdf, font.cid_to_gid_map) as u32
}

/// The parts of a font, with these numbers, in memory of the library, but for the streams, which are the font's.
///
/// Status 0: `made` is the parts. Another status: it is empty. Status 10: the size of the font is unknown. Status 16: the numbers
/// aren't distinct, one is 0, or they aren't as many as the parts. Status 5 or 7: an error.
#[unsafe(no_mangle)]
pub extern "C" fn subsetter_make_pdf_parts(
    alloc: Global,
    font: &FontMade,
    numbers: &[u32],
    made: &mut PartsMade,
) -> u32
    ensures sized { font.now.size ≢ own_size → (AreNoParts made.new) × (result ≡ unknown_option) }
    ensures made { font.now.size ≡ own_size → ArePartsHanded (ArePartsOf font.now.pdf font.now.cid_to_gid_map.now numbers.now) (HasNoPartsOf font.now.pdf font.now.cid_to_gid_map.now numbers.now) made.new result }
{
    if font.size != SIZE {
        *made = no_parts();
        return UNKNOWN_OPTION;
    }
    let answer = parts_of(alloc, &font.pdf, font.cid_to_gid_map, numbers);
    hand_parts(answer, made)
}

/// The objects of a font, with numbers from `first` on, and where each begins, in memory of the library.
///
/// Status 0: `made` is the objects. Another status: it is empty. Status 10: the size of the font is unknown. Status 5 or 7: an
/// error.
#[unsafe(no_mangle)]
pub extern "C" fn subsetter_make_objects(
    alloc: Global,
    font: &FontMade,
    first: u32,
    made: &mut ObjectsMade,
) -> u32
    ensures sized { font.now.size ≢ own_size → IsNoneWritten unknown_option made.new result }
    ensures made { font.now.size ≡ own_size → AreObjectsWritten font.now.pdf font.now.cid_to_gid_map.now first made.new result }
{
    if font.size != SIZE {
        *made = nothing();
        return UNKNOWN_OPTION;
    }
    let answer = write_objects(alloc, &font.pdf, font.cid_to_gid_map, first);
    hand_objects(answer, made)
}

/// A whole PDF file that shows lines of a font by their operators, each on a page of its own, in memory of the library.
///
/// Status 0: `made` is the file, without offsets. Another status: it is empty. Status 10: the size of the font is unknown.
/// Status 5 or 7: an error.
#[unsafe(no_mangle)]
pub extern "C" fn subsetter_make_text_sheet(
    alloc: Global,
    font: &FontMade,
    lines: &[SheetLine<'_>],
    made: &mut ObjectsMade,
) -> u32
    ensures sized { font.now.size ≢ own_size → IsNoneWritten unknown_option made.new result }
    ensures made { font.now.size ≡ own_size → AreLinesWritten font.now.pdf font.now.cid_to_gid_map.now lines.now made.new result }
{
    if font.size != SIZE {
        *made = nothing();
        return UNKNOWN_OPTION;
    }
    hand_file(lines_of(alloc, &font.pdf, font.cid_to_gid_map, lines), made)
}
