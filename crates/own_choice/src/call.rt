//! The call.

ghost use Rattle.std.specs.Prelude.{◌≡◌, IfOk, IfErr};
ghost use Rattle.subsetter_base.specs.Gives.{Gives};
ghost use Rattle.subsetter_base.specs.declared.error.Error.TheVariants.{OutOfMemory};
ghost use Rattle.subsetter_sfnt.specs.Extras.{all_extras};
ghost use Rattle.subsetter_sfnt.specs.FontAt.{font_at};
ghost use Rattle.subsetter_sfnt.specs.Read.{table_in};
ghost use Rattle.text_metrics.specs.Ink.{each_from};
ghost use Rattle.text_metrics.specs.Metrics.{count_in};
ghost use Rattle.own_choice.specs.Choosing.{chosen_seen, own_choice};

use crate::choice::OwnChoice;
use crate::parts::{has_charstrings, parts_in};
use font_advances::advances;
use std::alloc::Global;
use subsetter_base::{Error, Tag};
use subsetter_sfnt::extras::Extras;
use subsetter_sfnt::face::Face;
use subsetter_sfnt::fields::maxp::num_glyphs;
use subsetter_sfnt::parse::parse;
use subsetter_type2::limits::Limits;
use text_metrics::text_metrics;

/// The numbers of the first `count` glyphs.
#[tactic(auto, using(text_metrics::proofs::Each::each_more, text_metrics::proofs::Each::each_done))]
fn numbers(alloc: Global, count: u16) -> Result<Vec<u16>, Error>
    ensures ok { IfOk result (λ v. v.items ≡ each_from (λ g. g) 0 count) }
    ensures err { IfErr result (λ e. e ≡ OutOfMemory) }
{
    let mut glyphs = Vec::with_capacity(alloc, usize::from(count))?;
    for glyph in 0..count {
        glyphs.push(glyph)?;
    }
    Ok(glyphs)
}

/// How many glyphs a font has. `MalformedFont` where `maxp` is missing or cut.
fn count_in(face: &Face<'_>) -> Result<u16, Error>
    ensures { result ≡ count_in (table_in face.now.«data».now face.now.records.now) }
{
    let maxp = face.stored(Tag::MAXP).ok_or(Error::MalformedFont)?;
    num_glyphs(maxp).ok_or(Error::MalformedFont)
}

/// What runs of text, from left to right or from right to left, need of a font at coordinates that can get own glyphs:
/// what `text_metrics` has of it, and of each glyph the advance in units of the font and whether it can be a part.
/// `data`, `index` and `coordinates` are as for `advances`.
///
/// - Own glyphs can have parts where the font has fewer than 65,535 glyphs, and outlines in `glyf`: as many as leave the points
///   and contours of a glyph, and its depth, 16 bits by `maxp`, which has 32 bytes. Off its default, where the font becomes an
///   instance, these are the points and contours of the largest glyph there. Where outlines are in `CFF ` they can have one,
///   which stays at the origin.
/// - A glyph can be a part where its outline is empty, or the box in its header is within 16,384 units of the origin on
///   each side; off the default this is the box that an instance has. A glyph that an instance can't have isn't one. Of `CFF `
///   each can. In a font with `COLR`, `SVG `, `CBDT`, `sbix` or `EBDT` none can be one.
///
/// # Errors
///
/// Those of `text_metrics`.
#[tactic(auto, unfolding(crate::specs::Choosing::own_choice))]
pub fn own_choice(
    alloc: Global,
    data: &[u8],
    index: u32,
    coordinates: &[(Tag, i32)],
    limits: &Limits,
) -> Result<OwnChoice, Error>
    ensures { Gives chosen_seen result (own_choice (font_at «data».now index all_extras) coordinates.now limits.now.tokens) }
{
    let lines = text_metrics(alloc, data, index, coordinates, limits)?;
    let face = parse(data, index, Extras::ALL)?;
    let count = count_in(&face)?;
    let glyphs = numbers(alloc, count)?;
    let found = advances(alloc, data, index, &glyphs, coordinates, limits)?;
    let parts = parts_in(alloc, &face, coordinates, limits.tokens(), count)?;
    Ok(OwnChoice {
        lines,
        advances: found.widths,
        can_be_part: parts.can_be,
        most_parts: parts.most,
        is_still: has_charstrings(&face),
    })
}
