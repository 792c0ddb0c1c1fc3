//! Opening a font: its directory, and the kind of its outlines.

ghost use Rattle.std.specs.Prelude.{◌≡◌, Err, IfOk, IfErr};
ghost use Rattle.subsetter_sfnt.specs.FontAt.{font_at};
ghost use Rattle.subsetter_sfnt.specs.Opening.{IsOpened, font_opened, opened_as, outlines_by};
ghost use Rattle.subsetter_sfnt.specs.Read.{table_in};

use crate::extras::Extras;
use crate::face::Face;
use crate::parse::parse;
use subsetter_base::{Error, Tag};

/// The kind of a font's outlines.
#[derive(Clone, Copy, Debug, PartialEq, Eq)]
pub enum Outlines {
    /// Outlines in `glyf`.
    TrueType,
    /// Outlines in `CFF `.
    Cff,
    /// Outlines in `CFF2`.
    Cff2,
}

/// A font that is opened.
#[derive(Clone, Copy)]
pub struct Opened<'a> {
    pub face: Face<'a>,
    /// Which font of the file it is.
    pub index: u32,
    pub outlines: Outlines,
}

/// The kind of the outlines: `glyf` comes before `CFF `, and this before `CFF2`. No outlines are `UnknownKind`.
#[tactic(auto, unfolding(crate::specs::Opening::outlines_by))]
fn outlines_of(face: &Face<'_>) -> Result<Outlines, Error>
    ensures { result ≡ outlines_by (table_in face.now.«data».now face.now.records.now) }
{
    if face.stored(Tag::GLYF).is_some() {
        Ok(Outlines::TrueType)
    } else if face.stored(Tag::CFF).is_some() {
        Ok(Outlines::Cff)
    } else if face.stored(Tag::CFF2).is_some() {
        Ok(Outlines::Cff2)
    } else {
        Err(Error::UnknownKind)
    }
}

/// Opens a font, of which these extras are requested. No table is demanded but one of outlines, and no memory is taken.
///
/// # Errors
///
/// - `UnknownKind`: the file doesn't begin with a known kind of font, or has none of `glyf`, `CFF ` and `CFF2`.
/// - `MalformedFont`: the collection has no entry for `index`, that entry doesn't lead to the header of a single font, or
///   the header or a record of the directory is cut.
pub fn open(data: &[u8], index: u32, extras: Extras) -> Result<Opened<'_>, Error>
    ensures font { IfOk result (λ opened. font_opened opened ≡ font_at «data».now index extras) }
    ensures ok { IfOk result (λ opened. IsOpened opened) }
    ensures err { IfErr result (λ e. opened_as (font_at «data».now index extras) ≡ Err e) }
{
    let face = parse(data, index, extras)?;
    let outlines = outlines_of(&face)?;
    Ok(Opened {
        face,
        index,
        outlines,
    })
}
