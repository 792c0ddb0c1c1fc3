//! Faces that have bitmaps and no outlines.

ghost use Rattle.std.specs.Prelude.{◌≡◌, is_some};
ghost use Rattle.subsetter_sfnt.specs.Extras.{all_extras};
ghost use Rattle.subsetter_sfnt.specs.FontAt.{font_at};
ghost use Rattle.subsetter_sfnt.specs.Read.{stored};
ghost use Rattle.subsetter_sfnt.specs.Alone.{bitmap_table, bitmaps_alone, has_outlines};

use crate::directory::table;
use subsetter_base::Tag;

/// Whether a face has a table.
fn has(data: &[u8], index: u32, tag: Tag) -> bool
    ensures { result ≡ is_some (stored (font_at «data».now index all_extras) tag.0) }
{
    table(data, index, tag).is_some()
}

/// Whether a face has a table of outlines: `glyf`, `CFF ` or `CFF2`.
pub fn has_outlines(data: &[u8], index: u32) -> bool
    ensures { result ≡ has_outlines (stored (font_at «data».now index all_extras)) }
{
    has(data, index, Tag::GLYF) || (has(data, index, Tag::CFF) || has(data, index, Tag::CFF2))
}

/// The table of a face's bitmaps.
fn bitmap_table(data: &[u8], index: u32) -> Option<Tag>
    ensures { result ≡ bitmap_table (stored (font_at «data».now index all_extras)) }
{
    let cbdt = Tag::new(b"CBDT");
    if has(data, index, cbdt) && has(data, index, Tag::new(b"CBLC")) {
        return Some(cbdt);
    }
    let sbix = Tag::new(b"sbix");
    if has(data, index, sbix) {
        return Some(sbix);
    }
    let ebdt = Tag::new(b"EBDT");
    if has(data, index, ebdt) && has(data, index, Tag::new(b"EBLC")) {
        return Some(ebdt);
    }
    None
}

/// The table of the bitmaps of a face that has no outlines: `CBDT` (beside `CBLC`), `sbix` or `EBDT` (beside `EBLC`), and none of
/// `glyf`, `CFF ` and `CFF2`. None of another face, or of what is no font.
pub fn bitmaps_alone(data: &[u8], index: u32) -> Option<Tag>
    ensures { result ≡ bitmaps_alone (font_at «data».now index all_extras) }
{
    if has_outlines(data, index) {
        return None;
    }
    bitmap_table(data, index)
}
