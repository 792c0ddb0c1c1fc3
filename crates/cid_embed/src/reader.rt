//! A reader for the tables of a font that was made by `subset`: the directory, `head`, `hhea` and `hmtx`.
//!
//! It looks at neither the kind of the file nor its checksums: the container of a subset is sound, which a law says.
//! That `head` is cut before unitsPerEm is no fault of its own, as a `head` under 52 bytes is one of `subset`.

ghost use Rattle.std.specs.Prelude.{◌≡◌, ◌<◌, IfOk, IfErr};
ghost use Rattle.std.specs.Option.{option_copied};
ghost use Rattle.subsetter_sfnt.specs.Fields.Hmtx.{advance_in};
ghost use Rattle.cid_embed.specs.Afresh.{table_of, measures_of, measures_seen};

use subsetter_base::{Error, Tag};
use subsetter_sfnt::directory::{records_at, table_in};
use subsetter_sfnt::fields::head::units_per_em;
use subsetter_sfnt::fields::hhea::number_of_h_metrics;
use subsetter_sfnt::fields::hmtx::glyph_advance;

/// What the advances of glyphs and their widths are found by.
#[derive(Clone, Copy)]
pub struct Metrics<'a> {
    /// The table `hmtx`.
    pub hmtx: &'a [u8],
    /// numberOfHMetrics of `hhea`: how many pairs of an advance and a bearing `hmtx` begins with.
    pub number_of_h_metrics: u16,
    /// unitsPerEm of `head`, which isn't 0.
    pub units: u16,
}

/// The bytes of a table.
#[tactic(auto, unfolding(crate::specs::Afresh::table_of, subsetter_sfnt::specs::Read::records_at))]
fn table(file: &[u8], tag: Tag) -> Option<&[u8]>
    ensures { option_copied result ≡ table_of file.now tag.0 }
{
    let records = records_at(file, 0)?;
    table_in(file, records, tag)
}

/// What the advances and widths of a font's glyphs are found by. A missing or cut table, and a unitsPerEm of 0, are
/// `MalformedFont`.
#[tactic(auto, unfolding(crate::specs::Afresh::measures_of))]
pub fn read_metrics(file: &[u8]) -> Result<Metrics<'_>, Error>
    ensures ok { IfOk result (λ m. measures_of (table_of file.now) ≡ Ok (measures_seen m)) }
    ensures err { IfErr result (λ e. measures_of (table_of file.now) ≡ Err e) }
    ensures divides { IfOk result (λ m. 0 < m.units) }
{
    let hmtx = table(file, Tag::HMTX).ok_or(Error::MalformedFont)?;
    let head = table(file, Tag::HEAD).ok_or(Error::MalformedFont)?;
    let units = units_per_em(head).ok_or(Error::MalformedFont)?;
    if units == 0 {
        return Err(Error::MalformedFont);
    }
    let hhea = table(file, Tag::HHEA).ok_or(Error::MalformedFont)?;
    let pairs = number_of_h_metrics(hhea).ok_or(Error::MalformedFont)?;
    Ok(Metrics {
        hmtx,
        number_of_h_metrics: pairs,
        units,
    })
}

impl Metrics<'_> {
    /// The advance of a glyph, in font design units.
    pub fn advance(&self, glyph: u16) -> Option<u16>
        ensures { result ≡ advance_in self.now.hmtx.now self.now.number_of_h_metrics glyph }
    {
        glyph_advance(self.hmtx, self.number_of_h_metrics, glyph)
    }
}
