//! What is printed.

ghost use Rattle.std.specs.Prelude.{◌≡◌, [], drop, map, get_or};
ghost use Rattle.subset_lines.specs.Text.{first_character};

use subsetter_base::GlyphRemapper;

/// The glyphs whose new numbers are printed.
#[derive(Clone, Copy)]
pub struct Numbering<'a> {
    /// The character of each glyph, if it has one.
    pub characters: &'a [Option<char>],
    /// The names of the glyphs, as far as there are any; an empty one is none.
    pub names: &'a [&'a [u8]],
    /// The old numbers.
    pub glyphs: &'a [u16],
    /// What knows the new numbers.
    pub mapper: &'a GlyphRemapper,
}

/// The first character, and the others.
pub fn take_first(characters: &[Option<char>]) -> (Option<char>, &[Option<char>])
    ensures first { result.0 ≡ first_character characters.now }
    ensures others { result.1.now ≡ drop 1 characters.now }
{
    match characters {
        [] => (None, characters),
        [character, others @ ..] => (*character, others),
    }
}

/// The name at an index, an empty one where there is none.
pub fn name_at<'a>(names: &[&'a [u8]], index: usize) -> &'a [u8]
    ensures { result.now ≡ get_or (map (λ name. name.now) names.now) index [] }
{
    match names.get(index) {
        Some(name) => name,
        None => &[],
    }
}
