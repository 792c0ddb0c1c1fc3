//! The glyphs of a run, as C has them: with the ranges of their texts among characters.

ghost use Rattle.std.specs.Prelude.{◌≡◌, ◌⊎◌, ◌<◌, map, length, true, false, IfOk, IfErr, OnOk};
ghost use Rattle.pdf_runs.specs.declared.error.RunError.TheVariants.{InvalidText, OutOfMemory};
ghost use Rattle.pdf_runs.specs.Shaped.{seen, text_seen};
ghost use Rattle.subsetter_text_c.specs.Items.{are_items, is_item, is_ranged, labelled_in, text_in};

use pdf_runs::{Item, RunError};
use std::alloc::Global;

/// A glyph of a run, in units of the font.
#[derive(Clone, Copy)]
#[repr(C)]
pub struct TextItem {
    /// Its number in the font.
    pub glyph: u32,
    /// 0: a cluster begins here. Else the glyph continues one, and the range isn't looked at.
    pub continues: u32,
    /// The text of the cluster begins here among the characters.
    pub start: u32,
    /// And it ends before this.
    pub end: u32,
    /// How far the pen goes on.
    pub x_advance: i32,
    /// And upwards.
    pub y_advance: i32,
    /// How far the glyph is from the pen.
    pub x_offset: i32,
    /// And above it.
    pub y_offset: i32,
}

/// Whether the text that begins at a glyph, if any does, is within `count` characters.
fn is_ranged(count: usize, item: TextItem) -> bool
    ensures { result ≡ is_ranged count item }
{
    item.continues != 0 || (item.start <= item.end && item.end as usize <= count)
}

/// Whether the glyph has 16 bits, too.
fn is_item(count: usize, item: TextItem) -> bool
    ensures { result ≡ is_item count item }
{
    item.glyph < 65_536 && is_ranged(count, item)
}

/// The text of the cluster that begins at a glyph.
fn text_in(characters: &[char], item: TextItem) -> Option<&[char]>
    requires { is_item (length characters.now) item ≡ true }
    ensures { text_seen result ≡ text_in characters.now item }
{
    if item.continues != 0 {
        return None;
    }
    Some(&characters[item.start as usize..item.end as usize])
}

/// A glyph with its text.
fn item_in(characters: &[char], item: TextItem) -> Item<'_>
    requires { is_item (length characters.now) item ≡ true }
    ensures { seen result ≡ labelled_in characters.now item }
{
    Item {
        glyph: item.glyph as u16,
        text: text_in(characters, item),
        x_advance: item.x_advance,
        y_advance: item.y_advance,
        x_offset: item.x_offset,
        y_offset: item.y_offset,
    }
}

/// Glyphs with their texts.
///
/// # Errors
///
/// - `InvalidText`: a range isn't one of the characters, or a glyph hasn't 16 bits.
/// - `OutOfMemory`: a request for memory was refused.
pub fn items_in<'a>(
    alloc: Global,
    characters: &'a [char],
    items: &[TextItem],
) -> Result<Vec<Item<'a>>, RunError>
    ensures ok { IfOk result (λ v. map seen v.items ≡ map (labelled_in characters.now) items.now) }
    ensures valid { OnOk result (are_items (length characters.now) items.now ≡ true) }
    ensures err { IfErr result (λ e. (e ≡ OutOfMemory) ⊎ ((e ≡ InvalidText) × (are_items (length characters.now) items.now ≡ false))) }
{
    let mut found = Vec::with_capacity(alloc, items.len())?;
    for item in items {
        if !is_item(characters.len(), *item) {
            return Err(RunError::InvalidText);
        }
        found.push(item_in(characters, *item))?;
    }
    Ok(found)
}
