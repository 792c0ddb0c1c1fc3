//! The page of a sheet, and where its glyphs are on it.

ghost use Rattle.std.specs.Prelude.{◌≡◌, ◌≤◌, ◌<◌, ◌+◌, ◌-◌, ◌*◌, ◌/◌, ◌++◌, IfErr, OnOk, min};
ghost use Rattle.subsetter_base.specs.declared.error.Error.TheVariants.{OutOfMemory};
ghost use Rattle.pdf_sheet.specs.Content.{position_text, cell_x, cell_y, line_position, glyph_position, advance_of, extent, frame_of, line_frame};

use crate::glyphs::SheetGlyph;
use pdf_text::write_count;
use subsetter_base::Error;

/// How a sheet shows its glyphs.
#[derive(Clone, Copy, PartialEq, Eq, Debug)]
pub enum Layout {
    /// In one line, or in one column of vertical writing, on a page that is as long as it, up to 14,400 points.
    Line,
    /// Each in a cell of its own, 12 in a row and 16 rows a page.
    Grid,
}

/// A page of a sheet, in points.
#[derive(Clone, Copy)]
pub struct Frame {
    pub layout: Layout,
    pub vertical: bool,
    pub width: usize,
    pub height: usize,
}

// ---- the page

/// How far glyphs go on, up to a bound.
fn advance_of(glyphs: &[SheetGlyph<'_>]) -> u64
    ensures { result ≡ min (advance_of glyphs.now) 398000 }
{
    let mut advance: u64 = 0;
    for glyph in glyphs {
        advance = (advance + u64::from(glyph.advance)).min(398_000);
    }
    advance
}

/// The points of a line that goes on by thousandths of the em, up to a bound.
fn extent(advance: u64) -> usize
    requires { advance ≤ 398000 }
    ensures { result ≡ extent advance }
{
    72 + ((36 * advance + 999) / 1000) as usize
}

/// The page of a line that goes on by thousandths of the em, up to a bound.
fn frame_of_line(vertical: bool, advance: u64) -> Frame
    requires { advance ≤ 398000 }
    ensures { result ≡ line_frame vertical advance }
{
    if vertical {
        return Frame {
            layout: Layout::Line,
            vertical,
            width: 144,
            height: extent(advance),
        };
    }
    Frame {
        layout: Layout::Line,
        vertical,
        width: extent(advance),
        height: 144,
    }
}

/// The page of a line that goes on by thousandths of the em.
#[tactic(auto, using(crate::proofs::Frames::same_frame))]
pub fn line_frame(vertical: bool, advance: u32) -> Frame
    ensures { result ≡ line_frame vertical advance }
{
    frame_of_line(vertical, u64::from(advance).min(398_000))
}

/// The page.
#[tactic(auto, using(crate::proofs::Frames::same_frame))]
pub fn frame_of(layout: Layout, vertical: bool, glyphs: &[SheetGlyph<'_>]) -> Frame
    ensures { result ≡ frame_of layout vertical glyphs.now }
{
    match layout {
        Layout::Grid => Frame {
            layout,
            vertical,
            width: 595,
            height: 842,
        },
        Layout::Line => frame_of_line(vertical, advance_of(glyphs)),
    }
}

// ---- places

/// Writes the operator that sets the pen to a point.
#[tactic(auto, using(pdf_text::proofs::Written::five_written))]
fn write_position(text: &mut Vec<u8>, x: usize, y: usize) -> Result<(), Error>
    ensures ok { OnOk result (text.new.items ≡ text.old.items ++ position_text x y) }
    ensures err { IfErr result (λ e. e ≡ OutOfMemory) }
{
    text.extend_from_slice(b"1 0 0 1 ")?;
    write_count(text, x)?;
    text.extend_from_slice(b" ")?;
    write_count(text, y)?;
    text.extend_from_slice(b" Tm\n")?;
    Ok(())
}

/// The left edge of a cell.
fn cell_x(place: usize) -> usize
    ensures value { result ≡ cell_x place }
    ensures small { result ≤ 518 }
{
    34 + 44 * (place % 12)
}

/// The baseline of a cell.
fn cell_y(place: usize) -> usize
    ensures value { result ≡ cell_y place }
    ensures small { result ≤ 770 }
{
    50 + 48 * (15 - place / 12 % 16)
}

/// Writes where a line begins.
pub fn write_line_position(text: &mut Vec<u8>, vertical: bool, height: usize) -> Result<(), Error>
    ensures ok { OnOk result (text.new.items ≡ text.old.items ++ line_position vertical height) }
    ensures err { IfErr result (λ e. e ≡ OutOfMemory) }
{
    if vertical {
        return write_position(text, 72, height.saturating_sub(36));
    }
    write_position(text, 36, 54)
}

/// Writes where a cell's glyph is: its origin, or that of vertical writing.
fn write_cell_position(text: &mut Vec<u8>, vertical: bool, place: usize) -> Result<(), Error>
    ensures ok { OnOk result (text.new.items ≡ text.old.items ++ glyph_position Layout.Grid vertical 0 place) }
    ensures err { IfErr result (λ e. e ≡ OutOfMemory) }
{
    if vertical {
        return write_position(text, cell_x(place) + 18, cell_y(place) + 32);
    }
    write_position(text, cell_x(place), cell_y(place))
}

/// Writes the position of a glyph with `place` glyphs before it, unless it follows the one before.
pub fn write_glyph_position(text: &mut Vec<u8>, frame: Frame, place: usize) -> Result<(), Error>
    ensures ok { OnOk result (text.new.items ≡ text.old.items ++ glyph_position frame.layout frame.vertical frame.height place) }
    ensures err { IfErr result (λ e. e ≡ OutOfMemory) }
{
    match frame.layout {
        Layout::Grid => write_cell_position(text, frame.vertical, place),
        Layout::Line => {
            if place == 0 {
                return write_line_position(text, frame.vertical, frame.height);
            }
            Ok(())
        }
    }
}
