//! A glyph at a location, unfolded.

ghost use Rattle.std.specs.Prelude.{◌≡◌, IfOk, length};
ghost use Rattle.std.specs.Option.{option_copied};
ghost use Rattle.subsetter_base.specs.Gives.{Gives};
ghost use Rattle.subsetter_instance.specs.Glyphs.Cache.{AreKept};
ghost use Rattle.subsetter_instance.specs.Source.{HasAxes};
ghost use Rattle.subsetter_instance.specs.Glyphs.Unfolded.{IsInReach, counted_description, is_composite, unfolded};
ghost use Rattle.subsetter_instance.specs.Glyphs.Drawn.{levels};

use crate::glyphs::cache::GlyphCache;
use crate::glyphs::levels::Work;
use crate::glyphs::spare::Spare;
use crate::source::Source;
use std::alloc::Global;
use std::marker::Model;
use subsetter_base::Error;
use subsetter_base::read::Reader;
use subsetter_points::header::COMPOSITE;

/// How deep components may have components: 64 levels below a glyph.
const LEVELS: u8 = 65;

/// A glyph at a location: the number of each contour's last point, the flags of the points, of which bit 0 says whether they are on
/// the curve, their coordinates, and x of the left and of the right phantom point. All coordinates are in parts of 2^30.
#[derive(Drop)]
pub struct Unfolded {
    pub ends: Vec<u16>,
    pub on: Vec<u8>,
    pub xs: Vec<i64>,
    pub ys: Vec<i64>,
    pub left: i64,
    pub right: i64,
}

impl Model for Unfolded {
    ghost use Rattle.subsetter_instance.specs.Glyphs.Unfolded.{Unfolded, on_curve};

    ghost Value = { Unfolded };

    ghost view = { λ u. record { ends = u.ends.items; on = on_curve u.on.items; xs = u.xs.items; ys = u.ys.items; left = u.left; right = u.right } };
}

/// Whether bytes are the description of a composite glyph.
pub fn is_composite(bytes: &[u8]) -> bool
    ensures { result ≡ is_composite bytes.now }
{
    let Some(contours) = Reader::new(bytes).read::<u16>() else {
        return false;
    };
    contours >= COMPOSITE
}

/// The description of a glyph that `maxp` counts, if it is there.
pub fn counted_description<'a>(source: &Source<'a>, glyph: u16) -> Option<&'a [u8]>
    ensures { option_copied result ≡ counted_description source.now glyph }
{
    if glyph < source.count() {
        source.description(glyph)
    } else {
        None
    }
}

/// Unfolds a glyph at a location. Its components may be `depth` levels deep. What its levels hold is not on the stack, of which
/// each takes little.
fn unfold_within(
    alloc: Global,
    spare: &mut Spare,
    work: &mut Work,
    depth: u8,
    source: &Source<'_>,
    at: &[i32],
    glyph: u16,
) -> Result<(), Error>
    requires axes { HasAxes source.now.gvar (length at.now) }
    requires kept { AreKept source.now at.now work.old.kept }
    ensures value { Gives (λ _. (work.new.part, work.new.left)) result (unfolded depth source.now at.now work.old.left glyph) }
    ensures bound { IfOk result (λ _. IsInReach work.new.part) }
    ensures kept { IfOk result (λ _. AreKept source.now at.now work.new.kept) }
    ensures level { IfOk result (λ _. work.new.level ≡ work.old.level) }
    ensures outer { IfOk result (λ _. work.new.outer.items ≡ work.old.outer.items) }
{
    let Some(count) = work.begin(alloc, spare, source, at, depth, glyph)? else {
        return Ok(());
    };
    for k in 0..count {
        let component = work.level.composite.component(k);
        if let Some(found) = work.kept.find(depth - 1, component.glyph, work.left) {
            let rest = work.left - found.cost;
            work.left = work
                .level
                .place(alloc, k, &component, &found.outline, rest)?;
        } else {
            let before = work.left;
            unfold_within(alloc, spare, work, depth - 1, source, at, component.glyph)?;
            work.place_part(alloc, spare, source, at, depth - 1, k, &component, before)?;
        }
    }
    work.end(spare);
    Ok(())
}

/// A glyph at a location, the steps that are left, and the glyphs that are kept.
pub fn unfold(
    alloc: Global,
    spare: &mut Spare,
    source: &Source<'_>,
    at: &[i32],
    steps: u32,
    glyph: u16,
    kept: GlyphCache,
) -> Result<(Unfolded, u32, GlyphCache), Error>
    requires axes { HasAxes source.now.gvar (length at.now) }
    requires kept { AreKept source.now at.now kept }
    ensures value { Gives (λ r. (r.0, r.1)) result (unfolded levels source.now at.now steps glyph) }
    ensures bound { IfOk result (λ r. IsInReach r.0) }
    ensures kept { IfOk result (λ r. AreKept source.now at.now r.2) }
{
    let mut work = Work::new(alloc, spare, steps, kept);
    unfold_within(alloc, spare, &mut work, LEVELS, source, at, glyph)?;
    Ok(work.done(spare))
}
