//! What a glyph that is drawn comes to in the new tables.

ghost use Rattle.std.specs.Prelude.{◌≡◌, ◌++◌, length, IfErr, Some, OnOk};
ghost use Rattle.subsetter_base.specs.declared.error.Error.TheVariants.{OutOfMemory};
ghost use Rattle.subsetter_instance.specs.Tables.Extremes.{glyph_extents};
ghost use Rattle.subsetter_instance.specs.Tables.Written.{outline_bytes, drawn_metric};

use crate::glyphs::drawn::Drawn;
use crate::tables::extremes::{Extents, glyph_extents};
use subsetter_base::Error;
use subsetter_points::write_bounded;
use subsetter_sfnt::fields::hmtx::LongHorMetric;

impl Drawn {
    /// How many points it has.
    pub fn point_count(&self) -> usize
        ensures { result ≡ length self.now.points }
    {
        self.outline.points.len()
    }

    /// How many contours it has.
    pub fn contour_count(&self) -> usize
        ensures { result ≡ length self.now.ends }
    {
        self.outline.ends.len()
    }

    /// Its extents, if it has contours.
    pub fn extents(&self) -> Option<Extents>
        ensures { result ≡ glyph_extents self.now.advance self.now.points }
    {
        glyph_extents(self.advance, &self.outline.points, self.bounds)
    }

    /// Appends its description, of even length, to `glyf`.
    pub fn write_outline(&self, glyf: &mut Vec<u8>) -> Result<(), Error>
        ensures ok { OnOk result (glyf.new.items ≡ glyf.old.items ++ outline_bytes (Some self.now)) }
        ensures err { IfErr result (λ e. e ≡ OutOfMemory) }
    {
        let start = glyf.len();
        write_bounded(glyf, &self.outline, self.bounds)?;
        if (glyf.len() - start) % 2 == 1 {
            glyf.push(0)?;
        }
        Ok(())
    }

    /// Its metric in `hmtx`.
    pub fn metric(&self) -> LongHorMetric
        ensures { result ≡ drawn_metric (Some self.now) }
    {
        LongHorMetric {
            advance_width: self.advance,
            lsb: self.bounds.x_min.cast_unsigned(),
        }
    }
}
