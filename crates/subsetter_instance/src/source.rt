//! The tables that an instance is made from.

ghost use Rattle.std.specs.Prelude.{◌≡◌, ◌≤◌, ◌<◌, ◌^◌, ◌+◌, Ok, Some, IfOk, IfSome, length};
ghost use Rattle.std.specs.Option.{ok_or, option_copied};
ghost use Rattle.subsetter_base.specs.Gives.{Gives};
ghost use Rattle.subsetter_base.specs.declared.error.Error.TheVariants.{MalformedFont};
ghost use Rattle.subsetter_sfnt.specs.Read.{table_in};
ghost use Rattle.subsetter_variation.specs.Glyphs.SharedScalars.{AreSharedScalars};
ghost use Rattle.subsetter_instance.specs.Source.{HasAxes, normalized_coordinates, variations_in, source_in, source_or_fault, offset, description, metric};

use std::alloc::{AllocError, Global};
use std::marker::Model;
use subsetter_base::read::{Reader, between_offsets};
use subsetter_base::{Error, Tag};
use subsetter_sfnt::face::Face;
use subsetter_sfnt::fields::head::index_to_loc_format;
use subsetter_sfnt::fields::hhea::number_of_h_metrics;
use subsetter_sfnt::fields::hmtx::{LongHorMetric, glyph_metric};
use subsetter_sfnt::fields::loca::loca_offset;
use subsetter_sfnt::fields::maxp::num_glyphs;
use subsetter_variation::glyphs::tuples::{Gvar, gvar_table};
use subsetter_variation::locations::coordinates::{coordinates, is_other_version};

/// The tables of outlines and metrics, and what varies.
#[derive(Drop)]
pub struct Source<'a> {
    glyf: &'a [u8],
    loca: &'a [u8],
    long: bool,
    count: u16,
    number_of_h_metrics: u16,
    hmtx: &'a [u8],
    gvar: Option<Gvar<'a>>,
    hvar: Option<&'a [u8]>,
}

impl<'a> Model for Source<'a> {
    ghost use Rattle.std.specs.Option.{option_copied};
    ghost use Rattle.subsetter_instance.specs.Source.{Source};

    ghost Value = { Source };

    ghost view = { λ s. record { glyf = s.glyf.now; loca = s.loca.now; long = s.long; count = s.count; number_of_h_metrics = s.number_of_h_metrics; hmtx = s.hmtx.now; gvar = s.gvar; hvar = option_copied s.hvar } };
}

/// The normalized coordinates for settings of user coordinates, each a tag and a value in 65536ths. A cut table is
/// `MalformedFont`, a major version of `fvar` or `avar` other than 1 `Unimplemented`.
pub fn normalized_coordinates(
    alloc: Global,
    face: &Face<'_>,
    settings: &[(Tag, i32)],
) -> Result<Vec<i32>, Error>
    ensures { Gives (λ v. v.items) result (normalized_coordinates (table_in face.now.«data».now face.now.records.now) settings.now) }
{
    match face.stored(Tag::new(b"fvar")) {
        None => Ok(Vec::new(alloc)),
        Some(fvar) => coordinates(alloc, fvar, face.stored(Tag::new(b"avar")), settings),
    }
}

/// The variations of outlines for `axes` axes, if there are some.
fn variations_in(gvar: Option<&[u8]>, axes: usize) -> Option<Option<Gvar<'_>>>
    ensures value { result ≡ variations_in (option_copied gvar.entry) axes }
    ensures axes { IfSome result (λ t. HasAxes t axes) }
{
    let Some(bytes) = gvar else {
        return Some(None);
    };
    let table = gvar_table(bytes)?;
    if usize::from(table.axis_count()) == axes {
        Some(Some(table))
    } else {
        None
    }
}

/// The tables of a font with `axes` axes, unless one is missing or cut.
#[tactic(auto, unfolding(crate::specs::Source::source_in))]
pub fn source_in<'a>(face: &Face<'a>, axes: usize) -> Option<Source<'a>>
    ensures value { result ≡ source_in (table_in face.now.«data».now face.now.records.now) axes }
    ensures axes { IfSome result (λ s. HasAxes s.gvar axes) }
{
    let glyf = face.stored(Tag::GLYF)?;
    let loca = face.stored(Tag::LOCA)?;
    let head = face.stored(Tag::HEAD)?;
    let format = index_to_loc_format(head)?;
    let maxp = face.stored(Tag::MAXP)?;
    let count = num_glyphs(maxp)?;
    let hhea = face.stored(Tag::HHEA)?;
    let pairs = number_of_h_metrics(hhea)?;
    let hmtx = face.stored(Tag::HMTX)?;
    let gvar = variations_in(face.stored(Tag::new(b"gvar")), axes)?;
    Some(Source {
        glyf,
        loca,
        long: format != 0,
        count,
        number_of_h_metrics: pairs,
        hmtx,
        gvar,
        hvar: face.stored(Tag::new(b"HVAR")),
    })
}

/// The tables of a font with `axes` axes. `Unimplemented` where `gvar`, `HVAR` or `MVAR` has a major version other than 1, else
/// `MalformedFont` where a table is missing or cut.
pub fn source_or_fault<'a>(face: &Face<'a>, axes: usize) -> Result<Source<'a>, Error>
    ensures value { result ≡ source_or_fault (table_in face.now.«data».now face.now.records.now) axes }
    ensures axes { IfOk result (λ s. HasAxes s.gvar axes) }
{
    let gvar = face.stored(Tag::new(b"gvar"));
    let hvar = face.stored(Tag::new(b"HVAR"));
    let mvar = face.stored(Tag::new(b"MVAR"));
    if is_other_version(gvar) || (is_other_version(hvar) || is_other_version(mvar)) {
        return Err(Error::Unimplemented);
    }
    source_in(face, axes).ok_or(Error::MalformedFont)
}

impl<'a> Source<'a> {
    /// How many glyphs there are.
    pub fn count(&self) -> u16
        ensures { result ≡ self.now.count }
    {
        self.count
    }

    /// The variations of outlines, if there are some.
    pub fn gvar(&self) -> Option<&Gvar<'a>>
        ensures { option_copied result ≡ self.now.gvar }
    {
        self.gvar.as_ref()
    }

    /// The scalars of the first shared tuples at a location; none without variations of outlines.
    pub fn shared_scalars(&self, alloc: Global, at: &[i32]) -> Result<Vec<i64>, AllocError>
        requires { HasAxes self.now.gvar (length at.now) }
        ensures { IfOk result (λ v. IfSome self.now.gvar (λ t. AreSharedScalars t at.now v.items)) }
    {
        match &self.gvar {
            Some(table) => table.shared_scalars(alloc, at),
            None => Ok(Vec::new(alloc)),
        }
    }

    /// The variations of outlines, at a location where scalars of the first shared tuples are known.
    fn located_gvar<'b>(&'b self, at: &'b [i32], scalars: &'b [i64]) -> Option<Gvar<'b>>
        requires { IfSome self.now.gvar (λ t. AreSharedScalars t at.now scalars.now) }
        ensures { result ≡ self.now.gvar }
    {
        match &self.gvar {
            Some(table) => Some(table.located(at, scalars)),
            None => None,
        }
    }

    /// These tables at a location where scalars of the first shared tuples are known.
    pub fn located<'b>(&'b self, at: &'b [i32], scalars: &'b [i64]) -> Source<'b>
        requires { IfSome self.now.gvar (λ t. AreSharedScalars t at.now scalars.now) }
        ensures { result ≡ self.now }
    {
        Source {
            glyf: self.glyf,
            loca: self.loca,
            long: self.long,
            count: self.count,
            number_of_h_metrics: self.number_of_h_metrics,
            hmtx: self.hmtx,
            gvar: self.located_gvar(at, scalars),
            hvar: self.hvar,
        }
    }

    /// The variations of advances, if there are some.
    pub fn hvar(&self) -> Option<&'a [u8]>
        ensures { option_copied result ≡ self.now.hvar }
    {
        self.hvar
    }

    /// An offset of `loca`.
    fn offset(&self, number: usize) -> Option<usize>
        requires { number ≤ 65536 }
        ensures { result ≡ offset self.now number }
    {
        loca_offset(self.loca, self.long, number)
    }

    /// The description of a glyph, if it is there.
    #[tactic(auto, unfolding(crate::specs::Source::description))]
    pub fn description(&self, glyph: u16) -> Option<&'a [u8]>
        ensures { option_copied result ≡ description self.now glyph }
    {
        let from = self.offset(glyph as usize)?;
        let to = self.offset(glyph as usize + 1)?;
        between_offsets(self.glyf, from, to)
    }

    /// The metric of a glyph: a pair of its own, or the last advance with a bearing of its own.
    #[tactic(auto, unfolding(crate::specs::Source::metric))]
    pub fn metric(&self, glyph: u16) -> Option<LongHorMetric>
        ensures { result ≡ metric self.now glyph }
    {
        glyph_metric(self.hmtx, self.number_of_h_metrics, glyph)
    }
}
