//! A font that C holds, as it is borrowed.

ghost use Rattle.std.specs.Prelude.{◌≡◌};
ghost use Rattle.std.specs.Option.{option_copied, option_map};
ghost use Rattle.pdf_objects.specs.View.{default_of, each_of};
ghost use Rattle.pdf_text.specs.View.{name_of, text_of};
ghost use Rattle.subsetter_pdf_c.specs.Made.{IsDescriptorOf, IsViewOf, default_advance, default_y, kind_of, unless_empty, unless_zero, weight_of};

use crate::made::{PdfMade, PdfNumbers};
use pdf_objects::FontView;
use pdf_text::{Column, DefaultColumn, Descriptor, FontColumns, FontValues, OwnCmap, ProgramKind};

/// The kind of a program.
fn kind_of(number: u32) -> ProgramKind
    ensures { result ≡ kind_of number }
{
    match number {
        0 => ProgramKind::TrueType,
        1 => ProgramKind::BareCff,
        _ => ProgramKind::OpenType,
    }
}

/// XHeight, if there is one.
fn x_height_of(numbers: &PdfNumbers) -> Option<i32>
    ensures { result ≡ unless_zero numbers.now.has_x_height numbers.now.x_height }
{
    if numbers.has_x_height == 0 {
        return None;
    }
    Some(numbers.x_height)
}

/// FontWeight.
fn weight_of(number: u32) -> u16
    ensures { result ≡ weight_of number }
{
    if number < 1000 { number as u16 } else { 1000 }
}

/// The values of the descriptor.
fn descriptor_of(made: &PdfMade) -> Descriptor<'static>
    ensures { IsDescriptorOf made.now result }
{
    let numbers = &made.numbers;
    Descriptor {
        font_name: made.font_name,
        flags: numbers.flags,
        bounds: numbers.bounds,
        italic_angle: numbers.italic_angle,
        ascent: numbers.ascent,
        descent: numbers.descent,
        cap_height: numbers.cap_height,
        x_height: x_height_of(numbers),
        stem_v: numbers.stem_v,
        font_weight: weight_of(numbers.font_weight),
    }
}

/// DW2.
fn default_of(numbers: &PdfNumbers) -> DefaultColumn
    ensures { result ≡ record { y = default_y numbers.now; advance = default_advance numbers.now } }
{
    DefaultColumn {
        y: numbers.default_column[0],
        advance: numbers.default_column[1],
    }
}

/// The columns, if text runs from top to bottom.
fn columns_of(
    vertical: u32,
    each: &'static [Column],
    default: DefaultColumn,
) -> Option<FontColumns<'static>>
    ensures each { option_map each_of result ≡ unless_zero vertical each.now }
    ensures default { option_map default_of result ≡ unless_zero vertical default }
{
    if vertical == 0 {
        return None;
    }
    Some(FontColumns { each, default })
}

/// The CMap of the codes, if there is one.
fn cmap_of(text: &'static [u8], name: &'static [u8]) -> Option<OwnCmap<'static>>
    ensures name { option_map name_of result ≡ unless_empty text.now name.now }
    ensures text { option_map text_of result ≡ unless_empty text.now text.now }
{
    if text.is_empty() {
        return None;
    }
    Some(OwnCmap { name, text })
}

/// The bytes of a stream, if there are any.
fn stream_of(bytes: &'static [u8]) -> Option<&'static [u8]>
    ensures { option_copied result ≡ unless_empty bytes.now bytes.now }
{
    if bytes.is_empty() {
        return None;
    }
    Some(bytes)
}

/// A font that C holds, and the bytes of its CIDToGIDMap: its lists are C's own, and stay until C gives them back.
pub fn view_of(made: &PdfMade, cid_to_gid_map: &'static [u8]) -> FontView<'static>
    ensures { IsViewOf made.now cid_to_gid_map.now result }
{
    let numbers = &made.numbers;
    let values = FontValues {
        kind: kind_of(numbers.kind),
        descriptor: descriptor_of(made),
        widths: made.widths,
        default_width: numbers.default_width,
        columns: columns_of(numbers.is_vertical, made.columns, default_of(numbers)),
        program: made.program,
        cid_to_gid_map: stream_of(cid_to_gid_map),
        to_unicode: made.to_unicode,
        encoding: cmap_of(made.encoding, made.encoding_name),
        cid_set: stream_of(made.cid_set),
    };
    FontView {
        values,
        cids: made.cids,
        codes: made.codes,
        is_said: made.is_said,
    }
}
