//! The coordinates of points.

ghost use Rattle.std.specs.Prelude.{◌≡◌, IfOk, IfErr, IfSome, length, vec_len, pos};
ghost use Rattle.std.specs.Option.{option_map};
ghost use Rattle.subsetter_base.specs.declared.error.Error.TheVariants.{OutOfMemory};
ghost use Rattle.subsetter_points.specs.Simple.{coordinates};

use crate::lists::deltas::read_coordinate;
use subsetter_base::Error;

/// Room for the coordinates of the phantom points of a glyph, which may be put after those of its points.
const PHANTOM_POINTS: usize = 4;

/// The coordinate of each flag, by the two bits that encode its delta, in the memory of a list that is spare, and the bytes after them.
pub fn read_coordinates<'a>(
    spare: Vec<i16>,
    short: u8,
    same: u8,
    flags: &[u8],
    bytes: &'a [u8],
) -> Result<Option<(Vec<i16>, &'a [u8])>, Error>
    ensures ok { IfOk result (λ o. option_map (λ p. (p.0.items, p.1.now)) o ≡ coordinates short same (pos 0) flags.now bytes.now) }
    ensures len { IfOk result (λ o. IfSome o (λ p. vec_len p.0 ≡ length flags.now)) }
    ensures err { IfErr result (λ e. e ≡ OutOfMemory) }
{
    let mut coordinates = spare;
    coordinates.clear();
    coordinates.reserve(flags.len().saturating_add(PHANTOM_POINTS))?;
    let mut before = 0;
    let mut rest = bytes;
    for flag in flags {
        let Some((x, after)) = read_coordinate(short, same, before, *flag, rest) else {
            return Ok(None);
        };
        coordinates.push_reserved(x);
        before = x;
        rest = after;
    }
    Ok(Some((coordinates, rest)))
}
