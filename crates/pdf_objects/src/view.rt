//! A font that is borrowed, as it was made, or as another language has it.

ghost use Rattle.std.specs.Prelude.{◌≡◌};
ghost use Rattle.std.specs.Option.{option_copied, option_map};
ghost use Rattle.pdf_objects.specs.View.{IsDescriptorOf, IsViewOf, IsViewWith, default_of, each_of};
ghost use Rattle.pdf_text.specs.View.{name_of, text_of};

use pdf_font::{Columns, NamedCmap, PdfFont};
use pdf_text::{Descriptor, FontColumns, FontValues, OwnCmap};

/// A font: what its objects say, and its entries.
#[derive(Clone, Copy)]
pub struct FontView<'a> {
    pub values: FontValues<'a>,
    /// The CID of each entry.
    pub cids: &'a [u16],
    /// The code of each entry.
    pub codes: &'a [u16],
    /// Whether readers find the text of an entry by its code.
    pub is_said: &'a [bool],
}

/// The values of the descriptor.
fn descriptor_of(font: &PdfFont) -> Descriptor<'_>
    ensures { IsDescriptorOf font.now result }
{
    let values = font.descriptor.values;
    Descriptor {
        font_name: &font.descriptor.font_name,
        flags: values.flags,
        bounds: [
            values.bounds.x_min,
            values.bounds.y_min,
            values.bounds.x_max,
            values.bounds.y_max,
        ],
        italic_angle: values.italic_angle,
        ascent: values.heights.ascent,
        descent: values.heights.descent,
        cap_height: values.heights.cap_height,
        x_height: values.heights.x_height,
        stem_v: values.stem_v,
        font_weight: values.font_weight,
    }
}

/// The columns of vertical writing.
fn columns_of(columns: &Option<Columns>) -> Option<FontColumns<'_>>
    ensures each { option_map each_of result ≡ option_map (λ c. c.each.items) columns.now }
    ensures default { option_map default_of result ≡ option_map (λ c. c.default) columns.now }
{
    match columns {
        None => None,
        Some(columns) => Some(FontColumns {
            each: &columns.each,
            default: columns.default,
        }),
    }
}

/// The CMap of the codes.
fn cmap_of(encoding: &Option<NamedCmap>) -> Option<OwnCmap<'_>>
    ensures name { option_map name_of result ≡ option_map (λ c. c.name.items) encoding.now }
    ensures text { option_map text_of result ≡ option_map (λ c. c.text.items) encoding.now }
{
    match encoding {
        None => None,
        Some(cmap) => Some(OwnCmap {
            name: &cmap.name,
            text: &cmap.text,
        }),
    }
}

/// The bytes of CIDSet.
fn cid_set_of(set: &Option<Vec<u8>>) -> Option<&[u8]>
    ensures { option_copied result ≡ option_map (λ s. s.items) set.now }
{
    match set {
        None => None,
        Some(set) => Some(set),
    }
}

/// A font that was made, and the bytes of its CIDToGIDMap, if that is a stream.
pub fn view_with<'a>(font: &'a PdfFont, cid_to_gid_map: Option<&'a [u8]>) -> FontView<'a>
    ensures { IsViewWith font.now (option_copied cid_to_gid_map.entry) result }
{
    let values = FontValues {
        kind: font.kind,
        descriptor: descriptor_of(font),
        widths: &font.widths,
        default_width: font.default_width,
        columns: columns_of(&font.columns),
        program: &font.program,
        cid_to_gid_map,
        to_unicode: &font.to_unicode,
        encoding: cmap_of(&font.encoding),
        cid_set: cid_set_of(&font.cid_set),
    };
    FontView {
        values,
        cids: &font.cids,
        codes: &font.codes,
        is_said: &font.is_said,
    }
}

/// A font that was made of glyphs with their texts.
pub fn view_of(font: &PdfFont) -> FontView<'_>
    ensures { IsViewOf font.now result }
{
    view_with(font, None)
}
