//! The glyphs of a run, as a shaper gives them.

ghost use Rattle.std.specs.Prelude.{◌≡◌, length};
ghost use Rattle.pdf_runs.specs.Items.{are_along, are_known, begins, is_along, is_begun, is_run};

/// How the glyphs of a run follow each other. They are in visual order: from left to right, or from top to bottom.
#[derive(Clone, Copy, PartialEq, Eq, Debug)]
pub enum Direction {
    LeftToRight,
    /// The text is read from the last glyph to the first.
    RightToLeft,
    TopToBottom,
}

/// A glyph of a run, in units of the font.
#[derive(Clone, Copy)]
pub struct Item<'a> {
    pub glyph: u16,
    /// The text of the cluster that begins here; none where the glyph continues a cluster.
    pub text: Option<&'a [char]>,
    pub x_advance: i32,
    pub y_advance: i32,
    pub x_offset: i32,
    pub y_offset: i32,
}

/// Whether a glyph is the first of a cluster.
pub(crate) fn begins(item: &Item<'_>) -> bool
    ensures { result ≡ begins item.now }
{
    item.text.is_some()
}

/// Whether the pen goes on along the line alone.
fn is_along(direction: Direction, item: &Item<'_>) -> bool
    ensures { result ≡ is_along direction item.now }
{
    match direction {
        Direction::LeftToRight | Direction::RightToLeft => item.y_advance == 0,
        Direction::TopToBottom => item.x_advance == 0,
    }
}

/// Whether each glyph is one of the font's.
fn are_known(glyph_count: usize, items: &[Item<'_>]) -> bool
    ensures { result ≡ are_known glyph_count items.now }
{
    for item in items {
        if usize::from(item.glyph) >= glyph_count {
            return false;
        }
    }
    true
}

/// Whether the pen goes on along the line alone, at each glyph.
fn are_along(direction: Direction, items: &[Item<'_>]) -> bool
    ensures { result ≡ are_along direction items.now }
{
    for item in items {
        if !is_along(direction, item) {
            return false;
        }
    }
    true
}

/// Whether the first glyph, if there is one, begins a cluster.
fn is_begun(items: &[Item<'_>]) -> bool
    ensures { result ≡ is_begun items.now }
{
    match items {
        [] => true,
        [item, ..] => begins(item),
    }
}

/// Whether glyphs are a run of a font with `glyph_count` glyphs: the first begins a cluster, each is one of the font's,
/// and the pen moves along the line alone.
pub fn is_run(direction: Direction, glyph_count: usize, items: &[Item<'_>]) -> bool
    ensures { result ≡ is_run direction glyph_count items.now }
{
    is_begun(items) && are_known(glyph_count, items) && are_along(direction, items)
}
