//! `hmtx`, the horizontal metrics of glyphs (OpenType, "hmtx").
//!
//! It has pairs of an advance and a left side bearing, as many as numberOfHMetrics in `hhea` says, and then bearings alone
//! for the glyphs after these, which share the last advance.

ghost use Rattle.std.specs.Prelude.{◌≡◌, ◌<◌, ◌-◌, ◌*◌};
ghost use Rattle.subsetter_base.specs.Bytes.{number};
ghost use Rattle.subsetter_sfnt.specs.Fields.Hmtx.{metric_at, metric_in, advance_in, metric_bytes};

use subsetter_base::read::Reader;

/// How many bytes a pair of an advance and a bearing has.
pub const LONG_HOR_METRIC_SIZE: usize = 4;
/// How many bytes a bearing has, and an advance.
const LSB_SIZE: usize = 2;

/// The horizontal metric of a glyph, in font design units.
#[derive(Clone, Copy, PartialEq, Eq)]
pub struct LongHorMetric {
    /// advanceWidth.
    pub advance_width: u16,
    /// lsb, the left side bearing: the two bytes of an int16.
    pub lsb: u16,
}

impl LongHorMetric {
    /// Its bytes.
    pub fn to_bytes(self) -> [u8; 4]
        ensures { result ≡ metric_bytes self }
    {
        let [a, b] = self.advance_width.to_be_bytes();
        let [c, d] = self.lsb.to_be_bytes();
        [a, b, c, d]
    }
}

/// An advance and a bearing at two offsets of `hmtx`.
fn metric_at(hmtx: &[u8], advance_at: usize, bearing_at: usize) -> Option<LongHorMetric>
    ensures { result ≡ metric_at hmtx.now advance_at bearing_at }
{
    let advance_width = Reader::new_at(hmtx, advance_at).read::<u16>()?;
    let lsb = Reader::new_at(hmtx, bearing_at).read::<u16>()?;
    Some(LongHorMetric { advance_width, lsb })
}

/// The metric of a glyph: among the first `count` a pair of its own, after them the last advance with a bearing of its own.
#[tactic(auto, unfolding(crate::specs::Fields::Hmtx::metric_in))]
pub fn glyph_metric(hmtx: &[u8], count: u16, glyph: u16) -> Option<LongHorMetric>
    ensures { result ≡ metric_in hmtx.now count glyph }
{
    let pairs = count as usize;
    let glyph = glyph as usize;
    if glyph < pairs {
        let at = LONG_HOR_METRIC_SIZE * glyph;
        metric_at(hmtx, at, at + LSB_SIZE)
    } else if pairs == 0 {
        None
    } else {
        let following = LONG_HOR_METRIC_SIZE * pairs;
        metric_at(
            hmtx,
            LONG_HOR_METRIC_SIZE * (pairs - 1),
            following + LSB_SIZE * (glyph - pairs),
        )
    }
}

/// The advance of the last of `count` pairs.
pub fn last_advance(hmtx: &[u8], count: u16) -> Option<u16>
    requires { 0 < count }
    ensures { result ≡ number hmtx.now (4 * (count - 1)) 2 }
{
    Reader::new_at(hmtx, LONG_HOR_METRIC_SIZE * (count as usize - 1)).read::<u16>()
}

/// The advance of a glyph, by `numberOfHMetrics`.
pub fn glyph_advance(hmtx: &[u8], count: u16, glyph: u16) -> Option<u16>
    ensures { result ≡ advance_in hmtx.now count glyph }
{
    let pair = glyph.min(count.saturating_sub(1));
    Reader::new_at(hmtx, LONG_HOR_METRIC_SIZE * usize::from(pair)).read::<u16>()
}
