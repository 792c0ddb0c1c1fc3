//! The tables that a static font is made from.

ghost use Rattle.std.specs.Prelude.{◌≡◌, Ok, Err, IfOk, IfErr};
ghost use Rattle.std.specs.Option.{option_copied};
ghost use Rattle.subsetter_sfnt.specs.Read.{table_in};
ghost use Rattle.subsetter_cff_instance.specs.Source.{has_other_outlines, outlines_or_fault, source_in, has_other_version, source_or_fault, metric};

use std::marker::Model;
use subsetter_base::{Error, Tag};
use subsetter_sfnt::face::Face;
use subsetter_sfnt::fields::head::{units_per_em, y_max};
use subsetter_sfnt::fields::hhea::number_of_h_metrics;
use subsetter_sfnt::fields::hmtx::{LongHorMetric, glyph_metric};
use subsetter_sfnt::fields::maxp::num_glyphs;
use subsetter_variation::locations::coordinates::is_other_version;

/// The headers and the metrics, and what varies advances.
#[derive(Drop)]
pub struct Source<'a> {
    maxp: &'a [u8],
    count: u16,
    head: &'a [u8],
    units_per_em: u16,
    number_of_h_metrics: u16,
    hmtx: &'a [u8],
    hvar: Option<&'a [u8]>,
}

impl<'a> Model for Source<'a> {
    ghost use Rattle.std.specs.Option.{option_copied};
    ghost use Rattle.subsetter_cff_instance.specs.Source.{Source};

    ghost Value = { Source };

    ghost view = { λ s. record { maxp = s.maxp.now; count = s.count; head = s.head.now; units_per_em = s.units_per_em; number_of_h_metrics = s.number_of_h_metrics; hmtx = s.hmtx.now; hvar = option_copied s.hvar } };
}

/// Whether there are outlines in `glyf` or in `CFF `.
fn has_other_outlines(face: &Face<'_>) -> bool
    ensures { result ≡ has_other_outlines (table_in face.now.«data».now face.now.records.now) }
{
    face.stored(Tag::GLYF).is_some() || face.stored(Tag::CFF).is_some()
}

/// `CFF2`, where the outlines are in it alone. Outlines of another kind are `Unimplemented`; no outlines are `UnknownKind`.
#[tactic(auto, unfolding(crate::specs::Source::outlines_or_fault))]
pub fn outlines_or_fault<'a>(face: &Face<'a>) -> Result<&'a [u8], Error>
    ensures ok { IfOk result (λ cff2. outlines_or_fault (table_in face.now.«data».now face.now.records.now) ≡ Ok cff2.now) }
    ensures err { IfErr result (λ e. outlines_or_fault (table_in face.now.«data».now face.now.records.now) ≡ Err e) }
{
    if has_other_outlines(face) {
        return Err(Error::Unimplemented);
    }
    face.stored(Tag::CFF2).ok_or(Error::UnknownKind)
}

/// The tables of a font, unless one is missing or cut.
#[tactic(auto, unfolding(crate::specs::Source::source_in))]
fn source_in<'a>(face: &Face<'a>) -> Option<Source<'a>>
    ensures { result ≡ source_in (table_in face.now.«data».now face.now.records.now) }
{
    let maxp = face.stored(Tag::MAXP)?;
    let count = num_glyphs(maxp)?;
    let head = face.stored(Tag::HEAD)?;
    let units = units_per_em(head)?;
    y_max(Some(head))?;
    let hhea = face.stored(Tag::HHEA)?;
    let pairs = number_of_h_metrics(hhea)?;
    let hmtx = face.stored(Tag::HMTX)?;
    Some(Source {
        maxp,
        count,
        head,
        units_per_em: units,
        number_of_h_metrics: pairs,
        hmtx,
        hvar: face.stored(Tag::new(b"HVAR")),
    })
}

/// The tables of a font. `Unimplemented` where `HVAR` or `MVAR` has a major version other than 1, else `MalformedFont` where a table is
/// missing or cut.
pub fn source_or_fault<'a>(face: &Face<'a>) -> Result<Source<'a>, Error>
    ensures { result ≡ source_or_fault (table_in face.now.«data».now face.now.records.now) }
{
    let hvar = face.stored(Tag::new(b"HVAR"));
    let mvar = face.stored(Tag::new(b"MVAR"));
    if is_other_version(hvar) || is_other_version(mvar) {
        return Err(Error::Unimplemented);
    }
    source_in(face).ok_or(Error::MalformedFont)
}

impl<'a> Source<'a> {
    /// `maxp`.
    pub fn maxp(&self) -> &'a [u8]
        ensures { result.now ≡ self.now.maxp }
    {
        self.maxp
    }

    /// How many glyphs there are.
    pub fn count(&self) -> u16
        ensures { result ≡ self.now.count }
    {
        self.count
    }

    /// `head`.
    pub fn head(&self) -> &'a [u8]
        ensures { result.now ≡ self.now.head }
    {
        self.head
    }

    /// unitsPerEm of `head`.
    pub fn units_per_em(&self) -> u16
        ensures { result ≡ self.now.units_per_em }
    {
        self.units_per_em
    }

    /// The variations of advances, if there are some.
    pub fn hvar(&self) -> Option<&'a [u8]>
        ensures { option_copied result ≡ self.now.hvar }
    {
        self.hvar
    }

    /// The metric of a glyph: a pair of its own, or the last advance with a bearing of its own.
    #[tactic(auto, unfolding(crate::specs::Source::metric))]
    pub fn metric(&self, glyph: u16) -> Option<LongHorMetric>
        ensures { result ≡ metric self.now glyph }
    {
        glyph_metric(self.hmtx, self.number_of_h_metrics, glyph)
    }
}
