//! The charset (Technical Note 5176, section 13 "Charsets").

ghost use Rattle.std.specs.Prelude.{◌≡◌, ◌++◌, length, OnOk, IfErr};
ghost use Rattle.subsetter_base.specs.declared.error.Error.TheVariants.{OutOfMemory};
ghost use Rattle.subsetter_cff.specs.Write.Laying.Layout.{charset_bytes};

use subsetter_base::error::Error;
use subsetter_base::write::Writer;

/// A charset that lists each glyph but glyph 0.
const FORMAT_0: u8 = 0;
/// One of ranges: the first number, and how many follow it, two bytes each.
const FORMAT_2: u8 = 2;

/// Writes the charset of `count` glyphs: each but glyph 0 has its own number as CID.
#[tactic(auto, unfolding(crate::specs::Write::Laying::Layout::charset_bytes))]
pub fn rewrite_charset(count: u16, w: &mut Writer) -> Result<(), Error>
    ensures ok { OnOk result (w.new ≡ w.old ++ charset_bytes count) }
    ensures err { IfErr result (λ e. e ≡ OutOfMemory) }
{
    if count < 2 {
        return w.extend(&[FORMAT_0]);
    }
    let left = (count - 2).to_be_bytes();
    w.extend(&[FORMAT_2, 0, 1, left[0], left[1]])
}

/// How many bytes the charset of `count` glyphs has.
#[tactic(auto, unfolding(crate::specs::Write::Laying::Layout::charset_bytes))]
pub fn charset_size(count: u16) -> usize
    ensures { result ≡ length (charset_bytes count) }
{
    if count < 2 { 1 } else { 5 }
}
