//! The tables that glyphs are added to.

ghost use Rattle.std.specs.Prelude.{◌≡◌, ◌≢◌, ◌⊎◌, ◌≤◌, ◌<◌, length, IfOk, IfErr, IfSome, OnOk};
ghost use Rattle.std.specs.Option.{option_copied, option_map};
ghost use Rattle.subsetter_base.specs.declared.error.Error.TheVariants.{MalformedFont, OutOfMemory};
ghost use Rattle.subsetter_sfnt.specs.Read.{table_in};
ghost use Rattle.own_glyphs.specs.Composite.{outline_of};
ghost use Rattle.own_glyphs.specs.Refused.{HasSourceFault};
ghost use Rattle.own_glyphs.specs.Source.{AreMetrics, AreOffsets, source_in};
ghost use Rattle.own_glyphs.specs.View.{seen};

use std::alloc::Global;
use subsetter_base::read::between_offsets;
use subsetter_base::{Error, Tag};
use subsetter_sfnt::face::Face;
use subsetter_sfnt::fields::head::index_to_loc_format;
use subsetter_sfnt::fields::hhea::number_of_h_metrics;
use subsetter_sfnt::fields::hmtx::{LongHorMetric, glyph_metric};
use subsetter_sfnt::fields::loca::loca_offset;
use subsetter_sfnt::fields::maxp::num_glyphs;

/// The tables of outlines and metrics, and of their fields what is read.
#[derive(Clone, Copy)]
pub struct Source<'a> {
    pub glyf: &'a [u8],
    pub loca: &'a [u8],
    pub head: &'a [u8],
    /// Whether offsets of `loca` are long.
    pub long: bool,
    pub maxp: &'a [u8],
    /// numGlyphs.
    pub count: u16,
    pub hhea: &'a [u8],
    /// numberOfHMetrics.
    pub pairs: u16,
    pub hmtx: &'a [u8],
}

/// The tables of a font, unless one is missing or cut.
#[tactic(auto, unfolding(crate::specs::Source::source_in))]
pub fn source_in<'a>(face: &Face<'a>) -> Option<Source<'a>>
    ensures value { option_map seen result ≡ source_in (table_in face.now.«data».now face.now.records.now) }
    ensures head { IfSome result (λ s. 52 ≤ length s.head.now) }
    ensures maxp { IfSome result (λ s. 6 ≤ length s.maxp.now) }
    ensures hhea { IfSome result (λ s. 36 ≤ length s.hhea.now) }
{
    let glyf = face.stored(Tag::GLYF)?;
    let loca = face.stored(Tag::LOCA)?;
    let head = face.stored(Tag::HEAD)?;
    let format = index_to_loc_format(head)?;
    let maxp = face.stored(Tag::MAXP)?;
    let count = num_glyphs(maxp)?;
    let hhea = face.stored(Tag::HHEA)?;
    let pairs = number_of_h_metrics(hhea)?;
    let hmtx = face.stored(Tag::HMTX)?;
    Some(Source {
        glyf,
        loca,
        head,
        long: format != 0,
        maxp,
        count,
        hhea,
        pairs,
        hmtx,
    })
}

impl<'a> Source<'a> {
    /// The outline of a glyph, if there is one.
    #[tactic(auto, unfolding(subsetter::specs::Glyf::Read::outline_in))]
    pub fn outline(&self, glyph: u16) -> Option<&'a [u8]>
        ensures { option_copied result ≡ outline_of (seen self.now) glyph }
    {
        if glyph >= self.count {
            return None;
        }
        let from = loca_offset(self.loca, self.long, usize::from(glyph))?;
        let to = loca_offset(self.loca, self.long, usize::from(glyph) + 1)?;
        between_offsets(self.glyf, from, to)
    }

    /// Where each outline begins, and where the last one ends. `MalformedFont` where that isn't the end of `glyf`, or `loca` is cut.
    pub fn offsets(&self, alloc: Global) -> Result<Vec<usize>, Error>
        ensures ok { IfOk result (λ v. AreOffsets (seen self.now) v.items) }
        ensures err { IfErr result (λ e. (e ≡ OutOfMemory) ⊎ ((e ≡ MalformedFont) × HasSourceFault (seen self.now))) }
    {
        let count = usize::from(self.count);
        let mut offsets = Vec::with_capacity(alloc, count + 1)?;
        for entry in 0..count + 1 {
            let offset = loca_offset(self.loca, self.long, entry).ok_or(Error::MalformedFont)?;
            offsets.push(offset)?;
        }
        if offsets[count] != self.glyf.len() {
            return Err(Error::MalformedFont);
        }
        Ok(offsets)
    }

    /// The metric of each glyph. `MalformedFont` where `hmtx` is cut.
    pub fn metrics(&self, alloc: Global) -> Result<Vec<LongHorMetric>, Error>
        ensures ok { IfOk result (λ v. AreMetrics (seen self.now) v.items) }
        ensures err { IfErr result (λ e. (e ≡ OutOfMemory) ⊎ ((e ≡ MalformedFont) × HasSourceFault (seen self.now))) }
    {
        let mut metrics = Vec::with_capacity(alloc, usize::from(self.count))?;
        for glyph in 0..self.count {
            let metric = glyph_metric(self.hmtx, self.pairs, glyph).ok_or(Error::MalformedFont)?;
            metrics.push(metric)?;
        }
        Ok(metrics)
    }
}
