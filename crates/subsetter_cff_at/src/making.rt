//! The table at coordinates.

ghost use Rattle.std.specs.Prelude.{◌≡◌, ◌≤◌, ◌⊎◌, length, Ok, IfOk, IfErr};
ghost use Rattle.subsetter_base.specs.Within.{IsTooLong};
ghost use Rattle.subsetter_base.specs.declared.error.Error.{Error as SpecError};
ghost use Rattle.subsetter_base.specs.declared.error.Error.TheVariants.{OutOfMemory, OverflowError};
ghost use Rattle.subsetter_cff.specs.Write.Laying.TableBy.{table_bytes};
ghost use Rattle.subsetter_cff_at.specs.Boxes.{table_boxes};
ghost use Rattle.subsetter_cff_at.specs.Fault.{HasFault};
ghost use Rattle.subsetter_cff_at.specs.Plain.{drawn_of, made_table, some_requested};
ghost use Rattle.subsetter_cff_at.specs.Promise.{IsTableAt};
ghost use Rattle.subsetter_cff_at.specs.View.{drawn_size, request_of, FailsMaking, HasBoxes, KeepsBound};

use crate::drawing::{DrawnGlyphs, draw};
use crate::opening::open_table;
use crate::request::TableRequest;
use std::alloc::Global;
use subsetter_base::error::Error;
use subsetter_boxes::{font_box, least_box};
use subsetter_cff::CffPieces;
use subsetter_cff2::made::write_made;
use subsetter_points::Bounds;
use subsetter_type2::limits::Limits;

/// Whether a glyph is requested.
#[tactic(auto, unfolding(crate::specs::Plain::some_requested))]
fn some_requested(glyphs: &[Option<u16>]) -> bool
    ensures { result ≡ some_requested glyphs.now }
{
    glyphs.iter().any(|glyph| glyph.is_some())
}

/// A new table, and the box of each of its glyphs.
#[derive(Drop)]
pub struct MadeTable {
    /// The table.
    pub pieces: CffPieces,
    /// The boxes, in the font's units; none where nothing is drawn.
    pub boxes: Vec<Option<Bounds>>,
}

/// Makes the table, exactly as the plain way does.
#[tactic(auto, unfolding(crate::specs::Plain::made_table))]
fn make_exactly(
    alloc: Global,
    bytes: &[u8],
    request: &TableRequest<'_>,
    limits: Limits,
) -> Result<MadeTable, Error>
    requires { length request.now.glyphs.now ≤ 65535 }
    ensures ok { IfOk result (λ t. made_table bytes.now (request_of request.now) limits.tokens limits.depth ≡ Ok (table_bytes t.pieces)) }
    ensures boxes { IfOk result (λ t. HasBoxes t.boxes.items (drawn_of bytes.now (request_of request.now) limits.tokens limits.depth)) }
    ensures within { IfOk result (λ _. KeepsBound limits.bytes (drawn_of bytes.now (request_of request.now) limits.tokens limits.depth)) }
    ensures err { IfErr result (λ e. FailsMaking bytes.now (request_of request.now) limits.tokens limits.depth limits.bytes e) }
{
    if !some_requested(request.glyphs) {
        return Err(Error::MalformedFont);
    }
    let opened = open_table(alloc, bytes, request)?;
    let DrawnGlyphs {
        dicts,
        glyphs,
        boxes,
    } = draw(alloc, &opened, request.glyphs, limits)?;
    let pieces = write_made(
        alloc,
        &dicts,
        &opened.matrix,
        &font_box(least_box(&boxes)),
        glyphs,
        request.glyphs.len() as u16,
    )?;
    Ok(MadeTable { pieces, boxes })
}

/// A CID-keyed, static `CFF ` of the bytes of a `CFF2` table at coordinates: the requested glyphs under their old numbers, each with its
/// advance as its width, and `endchar` for every other glyph. FontBBox is the least box around them.
///
/// `MalformedFont` where the table can't be read, no glyph is requested, or a requested glyph has no charstring, font dict or private dict
/// that can be read; `CFFError` where its charstring can't be run within the limits; `OverflowError` where a number of it has no room, for
/// an advance past 32,767, for 256 used font dicts, a real of more than 64 characters, an offset past 2,147,483,647 or 4 GiB of charstrings.
/// `OverflowError` also where the charstrings of the requested glyphs pass the bound on bytes, found before the next one is drawn.
pub fn make_table(
    alloc: Global,
    bytes: &[u8],
    request: &TableRequest<'_>,
    limits: Limits,
) -> Result<MadeTable, Error>
    requires { length request.now.glyphs.now ≤ 65535 }
    // What is answered says, read afresh, what was requested.
    ensures ok { IfOk result (λ t. IsTableAt bytes.now (request_of request.now) limits.tokens limits.depth (table_bytes t.pieces)) }
    // With the box of each glyph of that table, by its charstring.
    ensures boxes { IfOk result (λ t. t.boxes.items ≡ table_boxes (table_bytes t.pieces)) }
    // And then the table has no fault.
    ensures clean { IfOk result (λ t. (e : SpecError) → HasFault bytes.now (request_of request.now) limits.tokens limits.depth e → ⊥) }
    // And the charstrings of the requested glyphs have no more bytes than they may have.
    ensures within { IfOk result (λ _. KeepsBound limits.bytes (drawn_of bytes.now (request_of request.now) limits.tokens limits.depth)) }
    // What is refused has a fault of that name, or the bound on bytes is set and the charstrings would pass it.
    ensures err { IfErr result (λ e. (e ≡ OutOfMemory) ⊎ (HasFault bytes.now (request_of request.now) limits.tokens limits.depth e ⊎ ((e ≡ OverflowError) × IsTooLong limits.bytes drawn_size (drawn_of bytes.now (request_of request.now) limits.tokens limits.depth)))) }
{
    make_exactly(alloc, bytes, request, limits)
}
