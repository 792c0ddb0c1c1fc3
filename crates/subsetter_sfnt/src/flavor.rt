//! The kind of a font's outlines.

ghost use Rattle.std.specs.Prelude.{◌≡◌};
ghost use Rattle.subsetter_sfnt.specs.Read.{table_in};
ghost use Rattle.subsetter_sfnt.specs.Extras.{requested};
ghost use Rattle.subsetter_sfnt.specs.Plain.{flavored};
ghost use Rattle.subsetter_sfnt.specs.Laying.Written.{kind_word};

use crate::face::{Face, OTTO, TRUETYPE_VERSION};
use subsetter_base::write::{Writeable, Writer};
use subsetter_base::{Error, Tag};

/// The kind of a font's outlines.
#[derive(Clone, Copy, Debug, PartialEq, Eq)]
pub enum FontFlavor {
    /// Outlines in `glyf`.
    TrueType,
    /// Outlines in `CFF `.
    Cff,
}

impl FontFlavor {
    /// The word that begins a file with outlines of this kind.
    pub fn kind(self) -> u32
        ensures { result ≡ kind_word self }
    {
        match self {
            FontFlavor::TrueType => TRUETYPE_VERSION,
            FontFlavor::Cff => OTTO,
        }
    }
}

impl Writeable for FontFlavor {
    ghost use Rattle.std.specs.Int.{w32, to_be_bytes};
    ghost use Rattle.subsetter_sfnt.specs.Laying.Written.{kind_word};

    ghost bytes_of = { λ flavor. to_be_bytes w32 (kind_word flavor) };

    fn write(&self, w: &mut Writer) -> Result<(), Error> {
        w.write(&self.kind())
    }
}

/// The kind of a font's outlines: `glyf` makes it TrueType, else `CFF ` makes it CFF. A lone `CFF2` is `Unimplemented`; no outlines are `UnknownKind`.
#[tactic(auto, unfolding(crate::specs::Plain::flavored))]
pub fn flavor(face: &Face<'_>) -> Result<FontFlavor, Error>
    ensures { result ≡ flavored (requested face.now.extras (table_in face.now.«data».now face.now.records.now)) }
{
    if face.table(Tag::GLYF).is_some() {
        Ok(FontFlavor::TrueType)
    } else if face.table(Tag::CFF).is_some() {
        Ok(FontFlavor::Cff)
    } else if face.table(Tag::CFF2).is_some() {
        Err(Error::Unimplemented)
    } else {
        Err(Error::UnknownKind)
    }
}
