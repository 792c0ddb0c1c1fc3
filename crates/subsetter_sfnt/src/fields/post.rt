//! `post`, for PostScript (OpenType, "post").

ghost use Rattle.std.specs.Prelude.{◌≡◌};
ghost use Rattle.std.specs.Option.{option_copied};
ghost use Rattle.subsetter_sfnt.specs.Fields.Post.{italic_angle, is_fixed_pitch, version, num_glyphs};

use subsetter_base::fields::{long_in, long_signed_in};
use subsetter_base::read::Reader;

/// version, four bytes.
const VERSION: usize = 0;
/// The version with indexes and names of glyphs.
pub const VERSION_2_0: u32 = 0x0002_0000;
/// The version without them.
pub const VERSION_3_0: u32 = 0x0003_0000;
/// italicAngle, four bytes.
pub const ITALIC_ANGLE: usize = 4;
/// isFixedPitch, four bytes.
pub const IS_FIXED_PITCH: usize = 12;
/// underlinePosition, two bytes.
pub const UNDERLINE_POSITION: usize = 8;
/// underlineThickness, two bytes.
pub const UNDERLINE_THICKNESS: usize = 10;
/// numGlyphs of version 2.0, two bytes, after the header that each version has.
const NUM_GLYPHS: usize = 32;
/// Where the indexes of version 2.0 begin, two bytes each.
pub const INDEXES: usize = 34;
/// Where the header ends.
pub const HEADER_SIZE: usize = 32;

/// version.
pub fn version(post: &[u8]) -> Option<u32>
    ensures { result ≡ version post.now }
{
    Reader::new_at(post, VERSION).read::<u32>()
}

/// italicAngle.
pub fn italic_angle(post: Option<&[u8]>) -> Option<i32>
    ensures { result ≡ italic_angle (option_copied post.entry) }
{
    long_signed_in(post, ITALIC_ANGLE)
}

/// isFixedPitch.
pub fn is_fixed_pitch(post: Option<&[u8]>) -> Option<u32>
    ensures { result ≡ is_fixed_pitch (option_copied post.entry) }
{
    long_in(post, IS_FIXED_PITCH)
}

/// numGlyphs of version 2.0.
pub fn num_glyphs(post: &[u8]) -> Option<u16>
    ensures { result ≡ num_glyphs post.now }
{
    Reader::new_at(post, NUM_GLYPHS).read::<u16>()
}
