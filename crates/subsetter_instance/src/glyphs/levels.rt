//! The composite glyphs that are begun while a glyph is unfolded, in a list and not on the stack.

ghost use Rattle.std.specs.Prelude.{◌≡◌, ◌<◌, ◌-◌, ◌∷◌, ◌++◌, [], Ok, MatchOption, IfOk, IfErr, length, pos, slice_index_or};
ghost use Rattle.subsetter_base.specs.Gives.{Gives, Fails};
ghost use Rattle.subsetter_instance.specs.Glyphs.Cache.{AreKept};
ghost use Rattle.subsetter_instance.specs.Glyphs.Levels.{begun};
ghost use Rattle.subsetter_instance.specs.Glyphs.Unfolded.{IsInReach, no_points, unfolded, with_component};
ghost use Rattle.subsetter_instance.specs.Source.{HasAxes};

use crate::glyphs::cache::GlyphCache;
use crate::glyphs::components::Component;
use crate::glyphs::composite::{Composite, no_components, read_composite};
use crate::glyphs::simple::unfold_simple;
use crate::glyphs::spare::Spare;
use crate::glyphs::unfolding::{Unfolded, counted_description, is_composite};
use crate::source::Source;
use std::alloc::{AllocError, Global};
use std::mem;
use subsetter_base::Error;

/// A composite glyph that is begun, and what its components come to that are placed.
#[derive(Drop)]
pub struct Level {
    pub composite: Composite,
    pub all: Unfolded,
}

/// A glyph that is being unfolded.
#[derive(Drop)]
pub struct Work {
    /// The composite glyph whose components are being placed.
    pub level: Level,
    /// Those whose components it is in, the outermost first.
    pub outer: Vec<Level>,
    /// What was unfolded last.
    pub part: Unfolded,
    /// The steps that are left.
    pub left: u32,
    /// The glyphs that are kept.
    pub kept: GlyphCache,
}

/// An outline without points, in no memory.
fn no_outline(alloc: Global) -> Unfolded {
    Unfolded {
        ends: Vec::new(alloc),
        on: Vec::new(alloc),
        xs: Vec::new(alloc),
        ys: Vec::new(alloc),
        left: 0,
        right: 0,
    }
}

impl Level {
    /// A level without components, in no memory.
    fn none(alloc: Global) -> Self {
        Level {
            composite: no_components(alloc),
            all: no_outline(alloc),
        }
    }

    /// Places component k, which unfolds to a part. Returns the steps that are left.
    pub fn place(
        &mut self,
        alloc: Global,
        k: usize,
        component: &Component,
        part: &Unfolded,
        steps: u32,
    ) -> Result<u32, Error>
        requires all { IsInReach self.old.all }
        requires part { IsInReach part.now }
        ensures value { Gives (λ left. (self.new.all, left)) result (with_component component.now (slice_index_or self.old.composite.xs k (pos 0)) (slice_index_or self.old.composite.ys k (pos 0)) self.old.all part.now steps) }
        ensures bound { IfOk result (λ _. IsInReach self.new.all) }
        ensures composite { self.new.composite ≡ self.old.composite }
    {
        let before = mem::replace(&mut self.all, no_outline(alloc));
        let (all, left) = self
            .composite
            .with_component(alloc, k, *component, before, part, steps)?;
        self.all = all;
        Ok(left)
    }
}

impl Work {
    /// Nothing yet, with `steps` steps left, in the memory of the spare lists.
    pub fn new(alloc: Global, spare: &mut Spare, steps: u32, kept: GlyphCache) -> Self
        ensures left { result.left ≡ steps }
        ensures kept { result.kept ≡ kept }
    {
        Work {
            level: Level::none(alloc),
            outer: mem::replace(&mut spare.levels, Vec::new(alloc)),
            part: no_outline(alloc),
            left: steps,
            kept,
        }
    }

    /// Begins a composite glyph. Returns how many components it has.
    fn begin_composite(
        &mut self,
        alloc: Global,
        spare: &mut Spare,
        composite: Composite,
    ) -> Result<usize, AllocError>
        ensures count { IfOk result (λ n. n ≡ length composite.components) }
        ensures composite { IfOk result (λ _. self.new.level.composite ≡ composite) }
        ensures all { IfOk result (λ _. self.new.level.all ≡ no_points composite.left composite.right) }
        ensures bound { IfOk result (λ _. IsInReach self.new.level.all) }
        ensures left { IfOk result (λ _. self.new.left ≡ composite.steps) }
        ensures outer { IfOk result (λ _. self.new.outer.items ≡ self.old.outer.items ++ self.old.level ∷ []) }
        ensures kept { self.new.kept ≡ self.old.kept }
    {
        let all = composite.no_points(alloc, spare)?;
        let count = composite.count();
        self.left = composite.steps();
        let level = mem::replace(&mut self.level, Level { composite, all });
        self.outer.push(level)?;
        Ok(count)
    }

    /// Begins a glyph that may have components one level less deep than this. A simple one is unfolded; for a composite one it
    /// returns how many components are to be placed.
    #[tactic(auto, unfolding(crate::specs::Glyphs::Unfolded::unfolded))]
    pub fn begin(
        &mut self,
        alloc: Global,
        spare: &mut Spare,
        source: &Source<'_>,
        at: &[i32],
        depth: u8,
        glyph: u16,
    ) -> Result<Option<usize>, Error>
        requires axes { HasAxes source.now.gvar (length at.now) }
        ensures deep { IfOk result (λ _. 0 < depth) }
        ensures value { IfOk result (λ n. begun n (unfolded (depth - 1) source.now at.now) self.new.level self.new.part self.new.left ≡ unfolded depth source.now at.now self.old.left glyph) }
        ensures levels { IfOk result (λ n. MatchOption n ((self.new.level ≡ self.old.level) × (self.new.outer.items ≡ self.old.outer.items)) (λ _. self.new.outer.items ≡ self.old.outer.items ++ self.old.level ∷ [])) }
        ensures bound { IfOk result (λ n. MatchOption n (IsInReach self.new.part) (λ n. (n ≡ length self.new.level.composite.components) × IsInReach self.new.level.all)) }
        ensures kept { self.new.kept ≡ self.old.kept }
        ensures err { IfErr result (λ e. Fails e (unfolded depth source.now at.now self.old.left glyph)) }
    {
        if depth == 0 {
            return Err(Error::MalformedFont);
        }
        let bytes = counted_description(source, glyph).ok_or(Error::MalformedFont)?;
        let metric = source.metric(glyph).ok_or(Error::MalformedFont)?;
        if is_composite(bytes) {
            let composite = read_composite(
                alloc, spare, source, at, self.left, glyph, bytes, metric,
            )?;
            return Ok(Some(self.begin_composite(alloc, spare, composite)?));
        }
        let (part, left) = unfold_simple(
            alloc, spare, source, at, self.left, glyph, bytes, metric,
        )?;
        self.part = part;
        self.left = left;
        Ok(None)
    }

    /// Places component k, whose glyph was unfolded last, at a depth and with `before` steps left before it. The glyph is kept if
    /// it is a simple one.
    pub fn place_part(
        &mut self,
        alloc: Global,
        spare: &mut Spare,
        source: &Source<'_>,
        at: &[i32],
        depth: u8,
        k: usize,
        component: &Component,
        before: u32,
    ) -> Result<(), Error>
        requires part { unfolded depth source.now at.now before component.now.glyph ≡ Ok (self.old.part, self.old.left) }
        requires reach { IsInReach self.old.part }
        requires all { IsInReach self.old.level.all }
        requires kept { AreKept source.now at.now self.old.kept }
        ensures value { Gives (λ _. (self.new.level.all, self.new.left)) result (with_component component.now (slice_index_or self.old.level.composite.xs k (pos 0)) (slice_index_or self.old.level.composite.ys k (pos 0)) self.old.level.all self.old.part self.old.left) }
        ensures bound { IfOk result (λ _. IsInReach self.new.level.all) }
        ensures composite { self.new.level.composite ≡ self.old.level.composite }
        ensures outer { self.new.outer.items ≡ self.old.outer.items }
        ensures kept { IfOk result (λ _. AreKept source.now at.now self.new.kept) }
    {
        let part = mem::replace(&mut self.part, no_outline(alloc));
        let after = self.left;
        self.left = self.level.place(alloc, k, component, &part, after)?;
        let kept = mem::replace(&mut self.kept, GlyphCache::new(alloc));
        self.kept = kept.with(
            alloc,
            spare,
            source,
            at,
            depth,
            before,
            component.glyph,
            part,
            after,
        )?;
        Ok(())
    }

    /// Ends the composite glyph whose components are placed.
    pub fn end(&mut self, spare: &mut Spare)
        requires { 0 < length self.old.outer.items }
        ensures part { self.new.part ≡ self.old.level.all }
        ensures outer { self.old.outer.items ≡ self.new.outer.items ++ self.new.level ∷ [] }
        ensures left { self.new.left ≡ self.old.left }
        ensures kept { self.new.kept ≡ self.old.kept }
    {
        let Some(outer) = self.outer.pop() else {
            return;
        };
        let Level { composite, all } = mem::replace(&mut self.level, outer);
        composite.keep(spare);
        self.part = all;
    }

    /// What was unfolded last, the steps that are left, and the glyphs that are kept. The list of levels is spare again.
    pub fn done(self, spare: &mut Spare) -> (Unfolded, u32, GlyphCache)
        ensures { result ≡ (self.part, self.left, self.kept) }
    {
        let Work {
            outer,
            part,
            left,
            kept,
            ..
        } = self;
        spare.levels = outer;
        (part, left, kept)
    }
}
