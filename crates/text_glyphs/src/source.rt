//! The tables of a `cmap` by which a text is read.

ghost use Rattle.std.specs.Prelude.{◌≡◌};
ghost use Rattle.std.specs.Option.{option_map};
ghost use Rattle.text_glyphs.specs.Reading.{source_of};
ghost use Rattle.text_glyphs.specs.View.{source_view};

use crate::choice::{CharacterTable, find_table};
use crate::sequences::find_sequences;

/// The tables of a `cmap` by which a text is read.
#[derive(Clone, Copy)]
pub struct TextSource<'a> {
    /// That of characters.
    pub table: CharacterTable<'a>,
    /// That of variation sequences.
    pub sequences: Option<&'a [u8]>,
}

/// The tables of a `cmap` by which a text is read, if it has one of characters.
pub fn find_source(cmap: &[u8]) -> Option<TextSource<'_>>
    ensures { option_map source_view result ≡ source_of cmap.now }
{
    let table = find_table(cmap)?;
    let sequences = find_sequences(cmap);
    Some(TextSource { table, sequences })
}
