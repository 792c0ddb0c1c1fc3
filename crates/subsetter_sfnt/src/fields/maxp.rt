//! `maxp`, the number of glyphs (OpenType, "maxp").

ghost use Rattle.std.specs.Prelude.{◌≡◌, ◌≤◌, length, IfSome};
ghost use Rattle.subsetter_sfnt.specs.Fields.Maxp.{num_glyphs};

use subsetter_base::read::Reader;

/// numGlyphs, two bytes.
const NUM_GLYPHS: usize = 4;
/// Where it ends. The fields after it are of version 1.0 alone.
pub const NUM_GLYPHS_END: usize = 6;

/// numGlyphs.
pub fn num_glyphs(maxp: &[u8]) -> Option<u16>
    ensures exact { result ≡ num_glyphs maxp.now }
    ensures whole { IfSome result (λ n. 6 ≤ length maxp.now) }
{
    Reader::new_at(maxp, NUM_GLYPHS).read::<u16>()
}
