//! Which glyphs can be parts of own ones off a font's default: as an instance has its glyphs (OpenType, "gvar").

ghost use Rattle.std.specs.Prelude.{◌≡◌, ◌<◌, length, map, IfOk, IfErr};
ghost use Rattle.std.specs.Option.{option_map_or};
ghost use Rattle.subsetter_base.specs.declared.error.Error.TheVariants.{OutOfMemory};
ghost use Rattle.subsetter_instance.specs.Glyphs.Cache.{AreKept};
ghost use Rattle.subsetter_instance.specs.Glyphs.Drawn.{drawn};
ghost use Rattle.subsetter_instance.specs.Source.{HasAxes};
ghost use Rattle.own_choice.specs.Parts.{drawn_size, is_small_box, most_points, no_size, parts_seen, size_of, sized_parts, sizes};

use crate::outlines::is_small_box;
use crate::parts::Parts;
use crate::room::times_in;
use std::alloc::Global;
use subsetter_base::Error;
use subsetter_instance::glyphs::cache::GlyphCache;
use subsetter_instance::glyphs::drawn::{Drawn, draw};
use subsetter_instance::glyphs::spare::Spare;
use subsetter_instance::source::Source;

/// What is drawn of a glyph: whether it is in a box that has 16 bits wherever it is placed, and how many points it has, or
/// contours, if these are more.
#[derive(Clone, Copy)]
pub struct Size {
    pub is_small: bool,
    pub count: usize,
}

/// The size of a glyph that is drawn.
fn drawn_size(drawn: &Drawn) -> Size
    ensures { result ≡ drawn_size drawn.now }
{
    let is_small = match drawn.extents() {
        Some(extents) => is_small_box(extents.bounds),
        None => true,
    };
    Size {
        is_small,
        count: drawn.point_count().max(drawn.contour_count()),
    }
}

/// That of one that isn't: if it takes more steps, it may have any number of points.
fn no_size(error: Error) -> Size
    ensures { result ≡ no_size error }
{
    let count = match error {
        Error::OverflowError => 65536,
        _ => 0,
    };
    Size {
        is_small: false,
        count,
    }
}

/// The size of a glyph at a location, and the glyphs that are kept.
fn size_at(
    alloc: Global,
    spare: &mut Spare,
    source: &Source<'_>,
    at: &[i32],
    steps: u32,
    glyph: u16,
    kept: GlyphCache,
) -> Result<(Size, GlyphCache), Error>
    requires axes { HasAxes source.now.gvar (length at.now) }
    requires kept { AreKept source.now at.now kept }
    ensures value { IfOk result (λ r. r.0 ≡ size_of (drawn source.now at.now steps glyph)) }
    ensures kept { IfOk result (λ r. AreKept source.now at.now r.1) }
    ensures err { IfErr result (λ e. e ≡ OutOfMemory) }
{
    match draw(alloc, spare, source, at, steps, glyph, None, kept) {
        Ok((drawn, kept)) => Ok((drawn_size(&drawn), kept)),
        Err(Error::OutOfMemory) => Err(Error::OutOfMemory),
        Err(error) => Ok((no_size(error), GlyphCache::new(alloc))),
    }
}

/// The sizes of the first `count` glyphs at a location.
#[tactic(auto, using(text_metrics::proofs::Each::each_more, text_metrics::proofs::Each::each_done))]
fn sizes(
    alloc: Global,
    source: &Source<'_>,
    at: &[i32],
    steps: u32,
    count: u16,
) -> Result<Vec<Size>, Error>
    requires axes { HasAxes source.now.gvar (length at.now) }
    ensures ok { IfOk result (λ v. v.items ≡ sizes source.now at.now steps count) }
    ensures err { IfErr result (λ e. e ≡ OutOfMemory) }
{
    let mut all = Vec::with_capacity(alloc, usize::from(count))?;
    let mut kept = GlyphCache::new(alloc);
    let mut spare = Spare::new(alloc);
    for glyph in 0..count {
        let (size, others) = size_at(alloc, &mut spare, source, at, steps, glyph, kept)?;
        all.push(size)?;
        kept = others;
    }
    Ok(all)
}

/// Which of glyphs are small.
fn are_small(alloc: Global, sizes: &[Size]) -> Result<Vec<bool>, Error>
    ensures ok { IfOk result (λ v. v.items ≡ map (λ z. z.is_small) sizes.now) }
    ensures err { IfErr result (λ e. e ≡ OutOfMemory) }
{
    let mut small = Vec::with_capacity(alloc, sizes.len())?;
    for size in sizes {
        small.push(size.is_small)?;
    }
    Ok(small)
}

/// The points or contours of the glyph that has the most.
fn most_points(sizes: &[Size]) -> usize
    ensures { result ≡ most_points sizes.now }
{
    let mut most = 0;
    for size in sizes {
        most = most.max(size.count);
    }
    most
}

/// Which of the first `count` glyphs can be parts at a location, and how many parts own glyphs can have there.
pub fn drawn_parts(
    alloc: Global,
    source: &Source<'_>,
    at: &[i32],
    steps: u32,
    count: u16,
) -> Result<Parts, Error>
    requires axes { HasAxes source.now.gvar (length at.now) }
    ensures ok { IfOk result (λ p. parts_seen p ≡ sized_parts (sizes source.now at.now steps count)) }
    ensures err { IfErr result (λ e. e ≡ OutOfMemory) }
{
    let sizes = sizes(alloc, source, at, steps, count)?;
    Ok(Parts {
        can_be: are_small(alloc, &sizes)?,
        most: times_in(most_points(&sizes)),
    })
}
