//! How many strikes are looked at.

ghost use Rattle.std.specs.Prelude.{◌≡◌, ◌≤◌};
ghost use Rattle.glyph_kinds.specs.Strikes.{most};

/// More strikes than any font has.
const MOST_STRIKES: u32 = 1024;
/// How many strikes there are, four bytes, in `CBLC`, `EBLC` and `sbix`.
pub(crate) const NUM_STRIKES: usize = 4;

/// How many of `count` strikes are looked at.
pub(crate) fn most(count: u32) -> u32
    ensures value { result ≡ most count }
    ensures few { result ≤ 1024 }
{
    if count < MOST_STRIKES {
        count
    } else {
        MOST_STRIKES
    }
}
