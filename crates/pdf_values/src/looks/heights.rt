//! Ascent, Descent, CapHeight and XHeight (ISO 32000-1, Table 122), by `hhea`, `OS/2` and `head` (OpenType, "hhea",
//! "OS/2", "head"), with what `MVAR` says of a font that is moved ("MVAR").

ghost use Rattle.std.specs.Prelude.{◌≡◌, ◌<◌, ◌≤◌, ◌^◌, ◌*◌, IfSome, codes, unsigned_abs, pos, ◌≤ℤ◌};
ghost use Rattle.std.specs.Option.{option_copied, option_and_then, option_map, option_or, unwrap_or};
ghost use Rattle.pdf_values.specs.Rounding.{thousandths};
ghost use Rattle.pdf_values.specs.Looks.Heights.{counted, line, horizontal_line, typographic_line, windows_line, box_line, uses_typographic, first_line, text_line, clip_line, source_line, first_moved, other_line, line_of, above_0, height, descent_of, heights_by, heights_of, IsSmall};
ghost use Rattle.pdf_values.specs.Movement.{movement_view};

use crate::fields::sets_bit;
use crate::movement::{Movement, varied};
use crate::rounding::thousandths;
use subsetter_base::Tag;
use subsetter_sfnt::fields::head::{y_max, y_min};
use subsetter_sfnt::fields::hhea::{ascender, descender};
use subsetter_sfnt::fields::os2::{
    fs_selection, s_cap_height, s_typo_ascender, s_typo_descender, sx_height, us_win_ascent,
    us_win_descent,
};

/// How far a line of text reaches above the baseline, and, as a number below 0, below it, in the font's units.
#[derive(Clone, Copy)]
pub struct Line {
    pub ascent: i32,
    pub descent: i32,
}

/// The heights of a font, in thousandths of the em.
#[derive(Clone, Copy, PartialEq, Eq)]
pub struct Heights {
    pub ascent: i32,
    pub descent: i32,
    pub cap_height: i32,
    pub x_height: Option<i32>,
}

/// A line, unless its numbers are 0 and 0.
fn counted(ascent: i32, descent: i32) -> Option<Line>
    requires above { unsigned_abs ascent ≤ 2 ^ 16 }
    requires below { unsigned_abs descent ≤ 2 ^ 16 }
    ensures value { result ≡ counted (record { ascent = ascent; descent = descent }) }
    ensures small { IfSome result IsSmall }
{
    if ascent == 0 && descent == 0 {
        return None;
    }
    Some(Line { ascent, descent })
}

/// The line of two signed fields.
fn line_in(ascent: Option<i16>, descent: Option<i16>) -> Option<Line>
    ensures value { result ≡ line ascent descent }
    ensures small { IfSome result IsSmall }
{
    let above = ascent?;
    let below = descent?;
    counted(i32::from(above), i32::from(below))
}

/// The line that Windows clips to: usWinAscent, and usWinDescent, which is counted downwards.
fn windows_line(os2: Option<&[u8]>) -> Option<Line>
    ensures value { result ≡ windows_line (option_copied os2.entry) }
    ensures small { IfSome result IsSmall }
{
    let above = us_win_ascent(os2)?;
    let below = us_win_descent(os2)?;
    counted(i32::from(above), -i32::from(below))
}

/// The line of `hhea`, unless the typographic one is to be used (fsSelection, bit 7, USE_TYPO_METRICS).
fn first_line(hhea: Option<&[u8]>, os2: Option<&[u8]>) -> Option<Line>
    ensures value { result ≡ first_line (option_copied hhea.entry) (option_copied os2.entry) }
    ensures small { IfSome result IsSmall }
{
    if sets_bit(fs_selection(os2), 7) {
        return None;
    }
    line_in(ascender(hhea), descender(hhea))
}

/// The line of `hhea` or the typographic one, with what it varies by.
fn text_line(movement: Option<Movement<'_>>, line: Line) -> Line
    requires small { IsSmall line }
    ensures value { result ≡ text_line (option_map movement_view movement.entry) line }
    ensures small { IsSmall result }
{
    Line {
        ascent: varied(movement, Tag::new(b"hasc"), line.ascent),
        descent: varied(movement, Tag::new(b"hdsc"), line.descent),
    }
}

/// The line that Windows clips to, with what it varies by.
fn clip_line(movement: Option<Movement<'_>>, line: Line) -> Line
    requires small { IsSmall line }
    ensures value { result ≡ clip_line (option_map movement_view movement.entry) line }
    ensures small { IsSmall result }
{
    Line {
        ascent: varied(movement, Tag::new(b"hcla"), line.ascent),
        descent: -varied(movement, Tag::new(b"hcld"), -line.descent),
    }
}

/// The line of `hhea`, else the typographic one.
#[tactic(auto, unfolding(crate::specs::Looks::Heights::source_line))]
fn source_line(hhea: Option<&[u8]>, os2: Option<&[u8]>) -> Option<Line>
    ensures value { result ≡ source_line (option_copied hhea.entry) (option_copied os2.entry) }
    ensures small { IfSome result IsSmall }
{
    match first_line(hhea, os2) {
        Some(line) => Some(line),
        None => line_in(s_typo_ascender(os2), s_typo_descender(os2)),
    }
}

/// The line of `hhea`, else the typographic one, with what it varies by.
#[tactic(auto, unfolding(crate::specs::Looks::Heights::first_moved))]
fn first_moved(
    movement: Option<Movement<'_>>,
    hhea: Option<&[u8]>,
    os2: Option<&[u8]>,
) -> Option<Line>
    ensures value { result ≡ first_moved (option_map movement_view movement.entry) (option_copied hhea.entry) (option_copied os2.entry) }
    ensures small { IfSome result IsSmall }
{
    let line = source_line(hhea, os2)?;
    Some(text_line(movement, line))
}

/// The line that Windows clips to, with what it varies by, else the box of `head`.
#[tactic(auto, unfolding(crate::specs::Looks::Heights::other_line))]
fn other_line(
    movement: Option<Movement<'_>>,
    os2: Option<&[u8]>,
    head: Option<&[u8]>,
) -> Option<Line>
    ensures value { result ≡ other_line (option_map movement_view movement.entry) (option_copied os2.entry) (option_copied head.entry) }
    ensures small { IfSome result IsSmall }
{
    match windows_line(os2) {
        Some(line) => Some(clip_line(movement, line)),
        None => line_in(y_max(head), y_min(head)),
    }
}

/// The first line that is said, with what it varies by.
#[tactic(auto, unfolding(crate::specs::Looks::Heights::line_of))]
fn line_of(
    movement: Option<Movement<'_>>,
    hhea: Option<&[u8]>,
    os2: Option<&[u8]>,
    head: Option<&[u8]>,
) -> Line
    ensures value { result ≡ line_of (option_map movement_view movement.entry) (option_copied hhea.entry) (option_copied os2.entry) (option_copied head.entry) }
    ensures small { IsSmall result }
{
    if let Some(line) = first_moved(movement, hhea, os2) {
        return line;
    }
    match other_line(movement, os2, head) {
        Some(line) => line,
        None => Line {
            ascent: 0,
            descent: 0,
        },
    }
}

/// A height, if it is above 0.
fn above_0(height: Option<i16>) -> Option<i32>
    ensures value { result ≡ option_and_then above_0 height }
    ensures small { IfSome result (λ v. unsigned_abs v ≤ 2 ^ 16) }
{
    let height = height?;
    if height > 0 {
        return Some(i32::from(height));
    }
    None
}

/// A height that is said, with what it varies by, else the top of a glyph.
#[tactic(auto, unfolding(crate::specs::Looks::Heights::height))]
fn height(
    movement: Option<Movement<'_>>,
    tag: Tag,
    said: Option<i16>,
    top: Option<i16>,
) -> Option<i32>
    ensures value { result ≡ height (option_map movement_view movement.entry) tag.0 said top }
    ensures small { IfSome result (λ v. unsigned_abs v ≤ 2 ^ 16) }
{
    if let Some(height) = above_0(said) {
        return Some(varied(movement, tag, height));
    }
    above_0(top)
}

/// How far below the baseline a line reaches, as a number that isn't above 0.
fn descent_of(line: Line) -> i32
    requires { IsSmall line }
    ensures value { result ≡ descent_of line }
    ensures below { result ≤ℤ pos 0 }
    ensures small { unsigned_abs result ≤ 2 ^ 16 }
{
    -line.descent.abs()
}

/// The height of capitals: what is stated, else Ascent.
fn cap_height(height: Option<i32>, line: Line) -> i32
    requires line { IsSmall line }
    requires height { IfSome height (λ v. unsigned_abs v ≤ 2 ^ 16) }
    ensures value { result ≡ unwrap_or height line.ascent }
    ensures small { unsigned_abs result ≤ 2 ^ 16 }
{
    match height {
        Some(height) => height,
        None => line.ascent,
    }
}

/// A height in thousandths.
fn in_thousandths(height: Option<i32>, units: u16) -> Option<i32>
    requires above { 0 < units }
    requires small { IfSome height (λ v. unsigned_abs v ≤ 2 ^ 16) }
    ensures { result ≡ option_map (λ v. thousandths v units) height }
{
    let height = height?;
    Some(thousandths(height, u32::from(units)))
}

/// Descent in thousandths.
#[tactic(auto, using(crate::proofs::Nearest::not_above_0))]
fn descent_in_thousandths(line: Line, units: u16) -> i32
    requires above { 0 < units }
    requires small { IsSmall line }
    ensures value { result ≡ thousandths (descent_of line) units }
    ensures below { result ≤ℤ pos 0 }
{
    thousandths(descent_of(line), u32::from(units))
}

/// Ascent in thousandths.
fn ascent_in(line: Line, units: u16) -> i32
    requires above { 0 < units }
    requires small { IsSmall line }
    ensures { result ≡ thousandths line.ascent units }
{
    thousandths(line.ascent, u32::from(units))
}

/// The height of capitals in thousandths.
fn cap_in(cap: Option<i32>, line: Line, units: u16) -> i32
    requires above { 0 < units }
    requires line { IsSmall line }
    requires cap { IfSome cap (λ v. unsigned_abs v ≤ 2 ^ 16) }
    ensures { result ≡ thousandths (unwrap_or cap line.ascent) units }
{
    thousandths(cap_height(cap, line), u32::from(units))
}

/// All four, of a line and of what is said of capitals and of small letters.
#[tactic(auto, unfolding(crate::specs::Looks::Heights::heights_by))]
fn heights_by(line: Line, cap: Option<i32>, x: Option<i32>, units: u16) -> Heights
    requires above { 0 < units }
    requires line { IsSmall line }
    requires cap { IfSome cap (λ v. unsigned_abs v ≤ 2 ^ 16) }
    requires x { IfSome x (λ v. unsigned_abs v ≤ 2 ^ 16) }
    ensures value { result ≡ heights_by line cap x units }
    ensures below { result.descent ≤ℤ pos 0 }
{
    Heights {
        ascent: ascent_in(line, units),
        descent: descent_in_thousandths(line, units),
        cap_height: cap_in(cap, line, units),
        x_height: in_thousandths(x, units),
    }
}

/// All four, in a font with `units` units per em. The tops are those of "H" and "x" in these units, if the caller
/// knows them: they replace heights that `OS/2` doesn't have.
pub fn heights_of(
    movement: Option<Movement<'_>>,
    hhea: Option<&[u8]>,
    os2: Option<&[u8]>,
    head: Option<&[u8]>,
    cap_top: Option<i16>,
    x_top: Option<i16>,
    units: u16,
) -> Heights
    requires { 0 < units }
    ensures value { result ≡ heights_of (option_map movement_view movement.entry) (option_copied hhea.entry) (option_copied os2.entry) (option_copied head.entry) cap_top x_top units }
    ensures below { result.descent ≤ℤ pos 0 }
{
    let line = line_of(movement, hhea, os2, head);
    let cap = height(movement, Tag::new(b"cpht"), s_cap_height(os2), cap_top);
    let x = height(movement, Tag::new(b"xhgt"), sx_height(os2), x_top);
    heights_by(line, cap, x, units)
}
