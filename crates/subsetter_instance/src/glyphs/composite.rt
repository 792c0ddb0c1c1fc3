//! A composite glyph: its components, and where its variations move them.

ghost use Rattle.std.specs.Prelude.{◌≡◌, ◌≤◌, ◌<◌, ◌^◌, ◌+◌, ◌∷◌, pos, length, drop, slice_index_or, unsigned_abs, All, IfOk};
ghost use Rattle.std.specs.List.{range_with_len};
ghost use Rattle.std.specs.Option.{option_copied};
ghost use Rattle.subsetter_base.specs.Gives.{Gives};
ghost use Rattle.subsetter_instance.specs.Glyphs.Components.{offset_xs, offset_ys};
ghost use Rattle.subsetter_instance.specs.Source.{HasAxes};
ghost use Rattle.subsetter_instance.specs.Glyphs.Unfolded.{IsInReach, composite, moved, no_points, with_component, with_phantoms};

use crate::glyphs::components::{
    Component, ends_with_phantoms, offsets_with_phantoms, read_components,
};
use crate::glyphs::placing::{with_metrics, with_part};
use crate::glyphs::simple::{coordinate_at, left_point, moved, right_point};
use crate::glyphs::spare::Spare;
use crate::glyphs::unfolding::Unfolded;
use crate::source::Source;
use std::alloc::{AllocError, Global};
use std::marker::Model;
use subsetter_base::Error;
use subsetter_base::read::Reader;
use subsetter_points::header::HEADER_SIZE;
use subsetter_sfnt::fields::hmtx::LongHorMetric;
use subsetter_variation::glyphs::movement::{Outline as DefaultOutline, spent};
use subsetter_variation::glyphs::tuples::Gvar;

/// Most glyphs have fewer points.
const MANY_POINTS: usize = 128;

/// The components of a glyph, their varied offsets, the phantom points, and the steps that are left. All coordinates are in parts of 2^30.
#[derive(Drop)]
pub struct Composite {
    components: Vec<Component>,
    xs: Vec<i64>,
    ys: Vec<i64>,
    left: i64,
    right: i64,
    steps: u32,
    ghost near_xs: { All (λ x. unsigned_abs x ≤ 2 ^ 57) xs.items },
    ghost near_ys: { All (λ y. unsigned_abs y ≤ 2 ^ 57) ys.items },
    ghost near_left: { unsigned_abs left ≤ 2 ^ 58 },
    ghost near_right: { unsigned_abs right ≤ 2 ^ 58 },
}

impl Model for Composite {
    ghost use Rattle.subsetter_instance.specs.Glyphs.Unfolded.{Composite};

    ghost Value = { Composite };

    ghost view = { λ c. record { components = c.components.items; xs = c.xs.items; ys = c.ys.items; left = c.left; right = c.right; steps = c.steps } };
}

/// Where the offsets of components go, and the phantom points.
fn moved_offsets(
    alloc: Global,
    spare: &mut Spare,
    gvar: Option<&Gvar<'_>>,
    glyph: u16,
    components: &[Component],
    at: &[i32],
    steps: u32,
) -> Result<(Vec<i64>, Vec<i64>, u32), Error>
    requires few { length components.now + 4 < 2 ^ 32 }
    requires axes { HasAxes (option_copied gvar) (length at.now) }
    ensures value { Gives (λ r. (r.0.items, r.1.items, r.2)) result (moved (option_copied gvar.entry) glyph (with_phantoms (range_with_len 0 (length components.now)) (offset_xs components.now) (offset_ys components.now)) at.now steps) }
    ensures xs { IfOk result (λ r. All (λ x. unsigned_abs x ≤ 2 ^ 57) r.0.items) }
    ensures ys { IfOk result (λ r. All (λ y. unsigned_abs y ≤ 2 ^ 57) r.1.items) }
{
    let offsets = offsets_with_phantoms(alloc, components)?;
    let ends = ends_with_phantoms(spare.take_ends(alloc), components.len())?;
    let default = DefaultOutline {
        xs: &offsets.xs,
        ys: &offsets.ys,
        ends: &ends,
    };
    let answer = moved(alloc, &mut spare.offsets, gvar, glyph, &default, at, steps);
    spare.ends = ends;
    answer
}

/// A composite glyph at a location.
#[tactic(auto, unfolding(crate::specs::Glyphs::Unfolded::composite))]
pub fn read_composite(
    alloc: Global,
    spare: &mut Spare,
    source: &Source<'_>,
    at: &[i32],
    steps: u32,
    glyph: u16,
    bytes: &[u8],
    metric: LongHorMetric,
) -> Result<Composite, Error>
    requires { HasAxes source.now.gvar (length at.now) }
    ensures { Gives (λ c. c) result (composite source.now at.now steps glyph bytes.now metric) }
{
    let steps = spent(5, steps)?;
    let body = Reader::new_at(bytes, HEADER_SIZE)
        .tail()
        .ok_or(Error::MalformedFont)?;
    let list = spare.take_components(alloc);
    let (components, steps) = read_components(list, body, steps)?;
    let gvar = source.gvar();
    let (xs, ys, steps) = moved_offsets(alloc, spare, gvar, glyph, &components, at, steps)?;
    let left = left_point(bytes, metric, components.len(), &xs);
    let right = right_point(bytes, metric, components.len(), &xs);
    Ok(Composite {
        components,
        xs,
        ys,
        left,
        right,
        steps,
    })
}

/// A composite glyph without components, in no memory.
pub(crate) fn no_components(alloc: Global) -> Composite {
    Composite {
        components: Vec::new(alloc),
        xs: Vec::new(alloc),
        ys: Vec::new(alloc),
        left: 0,
        right: 0,
        steps: 0,
    }
}

impl Composite {
    /// How many components there are.
    pub fn count(&self) -> usize
        ensures { result ≡ length self.now.components }
    {
        self.components.len()
    }

    /// The steps that are left.
    pub fn steps(&self) -> u32
        ensures { result ≡ self.now.steps }
    {
        self.steps
    }

    /// A component.
    #[tactic(auto, using(crate::proofs::GlyphsLaws::Joins::component_next))]
    pub fn component(&self, k: usize) -> Component
        requires { k < length self.now.components }
        ensures { drop k self.now.components ≡ result ∷ drop (k + 1) self.now.components }
    {
        self.components[k]
    }

    /// Keeps its lists for the next one.
    pub fn keep(self, spare: &mut Spare)
        ensures components { spare.new.components.items ≡ self.components }
        ensures xs { spare.new.offsets.xs.items ≡ self.xs }
        ensures ys { spare.new.offsets.ys.items ≡ self.ys }
    {
        let Composite {
            components,
            xs,
            ys,
            ..
        } = self;
        spare.keep_components(components, xs, ys);
    }

    /// No points yet, with room for those of most glyphs, in the memory of lists that are spare.
    pub fn no_points(&self, alloc: Global, spare: &mut Spare) -> Result<Unfolded, AllocError>
        ensures value { IfOk result (λ u. u ≡ no_points self.now.left self.now.right) }
        ensures bound { IfOk result (λ u. IsInReach u) }
    {
        let mut on = spare.take_flags(alloc);
        let mut xs = spare.lists.take_xs(alloc);
        let mut ys = spare.lists.take_ys(alloc);
        on.clear();
        xs.clear();
        ys.clear();
        on.reserve(MANY_POINTS)?;
        xs.reserve(MANY_POINTS)?;
        ys.reserve(MANY_POINTS)?;
        Ok(Unfolded {
            ends: Vec::new(alloc),
            on,
            xs,
            ys,
            left: self.left,
            right: self.right,
        })
    }

    /// The components before component k with itself, the phantom points of the last one with USE_MY_METRICS, and the steps that are left.
    pub fn with_component(
        &self,
        alloc: Global,
        k: usize,
        component: Component,
        before: Unfolded,
        part: &Unfolded,
        steps: u32,
    ) -> Result<(Unfolded, u32), Error>
        requires before { IsInReach before }
        requires part { IsInReach part.now }
        ensures value { Gives (λ r. (r.0, r.1)) result (with_component component (slice_index_or self.now.xs k (pos 0)) (slice_index_or self.now.ys k (pos 0)) before part.now steps) }
        ensures bound { IfOk result (λ r. IsInReach r.0) }
    {
        let x = coordinate_at(&self.xs, k);
        let y = coordinate_at(&self.ys, k);
        let before = with_metrics(component.flags, before, part);
        with_part(alloc, component, x, y, before, part, steps)
    }
}
