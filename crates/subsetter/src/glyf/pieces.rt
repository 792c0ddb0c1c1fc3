//! An outline as it is written: whole, or without its instructions in two pieces (OpenType, "glyf": simple glyph
//! description).

ghost use Rattle.std.specs.Prelude.{◌≡◌, ◌+◌, ◌<◌, ◌^◌, ◌∷◌, ◌++◌, length};
ghost use Rattle.std.specs.Option.{option_map, unwrap_or};
ghost use Rattle.subsetter.specs.Glyf.BareOutlines.Bare.{bare_simple, requested_simple};
ghost use Rattle.subsetter.specs.Glyf.Reaching.Unfold.{padded};

use subsetter_base::read::u16_at;
use subsetter_points::header::HEADER_SIZE;

/// A simple outline without its instructions: what is before their length, and what is after them. A length of
/// 0 is between the two.
#[derive(Clone, Copy)]
pub struct Bare<'a> {
    pub front: &'a [u8],
    pub following: &'a [u8],
    ghost fits: { length front.now + 2 + length following.now < 2 ^ 63 },
}

/// An outline as it is written.
#[derive(Clone, Copy)]
pub enum Outline<'a> {
    /// As one piece.
    Whole(&'a [u8]),
    /// A simple one without its instructions.
    InPieces(Bare<'a>),
}

/// The pieces of a simple outline that has instructions, all of which are there.
#[tactic(auto, using(crate::proofs::GlyfLaws::BareOutlinesLaws::Bare::stays_bare), unfolding(crate::specs::Glyf::BareOutlines::Bare::bare_simple))]
fn bare_pieces(outline: &[u8]) -> Option<Bare<'_>>
    ensures { unwrap_or (option_map (λ b. b.front.now ++ 0 ∷ 0 ∷ b.following.now) result) outline.now ≡ bare_simple outline.now }
{
    if outline.len() < 2 {
        return None;
    }
    let at = HEADER_SIZE + 2 * usize::from(u16_at(outline, 0));
    if outline.len() < at + 2 {
        return None;
    }
    let size = usize::from(u16_at(outline, at));
    if size == 0 {
        return None;
    }
    let end = at + 2 + size;
    if outline.len() < end {
        return None;
    }
    Some(Bare {
        front: &outline[..at],
        following: &outline[end..],
    })
}

impl<'a> Outline<'a> {
    ghost use Rattle.subsetter.specs.Glyf.View.{outline_bytes};

    /// A simple outline of the source, with its instructions if they are requested.
    pub fn simple(outline: &'a [u8], hinting: bool) -> Self
        ensures { outline_bytes result ≡ requested_simple hinting outline.now }
    {
        if hinting {
            return Outline::Whole(outline);
        }
        match bare_pieces(outline) {
            Some(bare) => Outline::InPieces(bare),
            None => Outline::Whole(outline),
        }
    }

    /// How many bytes it has.
    pub fn len(self) -> usize
        ensures exact { result ≡ length (outline_bytes self.entry) }
        ensures fits { result < 2 ^ 63 }
    {
        match self {
            Outline::Whole(bytes) => bytes.len(),
            Outline::InPieces(bare) => bare.front.len() + 2 + bare.following.len(),
        }
    }

    /// How many bytes it takes: in the short format of `loca` an even number.
    pub fn padded_len(self, long: bool) -> usize
        ensures { result ≡ length (padded long (outline_bytes self.entry)) }
    {
        let len = self.len();
        if long { len } else { len + len % 2 }
    }
}
