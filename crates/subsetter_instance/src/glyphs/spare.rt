//! Lists that one glyph after another is unfolded with, so that their memory is requested once and not for each glyph. They grow to what
//! the largest glyph takes.

ghost use Rattle.std.specs.Prelude.{◌≡◌, [], IfOk};

use crate::glyphs::components::Component;
use crate::glyphs::levels::Level;
use crate::glyphs::unfolding::Unfolded;
use std::alloc::{AllocError, Global};
use std::mem;
use subsetter_points::Columns;
use subsetter_variation::glyphs::spare::SpareLists;

/// Lists for the next glyph. What they hold doesn't count: each is cleared before it is filled.
#[derive(Drop)]
pub struct Spare {
    /// For the flags of points.
    pub flags: Vec<u8>,
    /// For x before it is moved.
    pub xs: Vec<i16>,
    /// For y before it is moved.
    pub ys: Vec<i16>,
    /// For the last points of contours.
    pub ends: Vec<usize>,
    /// For components.
    pub components: Vec<Component>,
    /// For composite glyphs that are begun.
    pub levels: Vec<Level>,
    /// For moved points.
    pub lists: SpareLists,
    /// For the moved offsets of components.
    pub offsets: SpareLists,
}

impl Spare {
    /// Lists without memory.
    pub fn new(alloc: Global) -> Self
        ensures points { (result.flags.items ≡ []) × (result.xs.items ≡ []) × (result.ys.items ≡ []) × (result.ends.items ≡ []) }
        ensures components { result.components.items ≡ [] }
    {
        Spare {
            flags: Vec::new(alloc),
            xs: Vec::new(alloc),
            ys: Vec::new(alloc),
            ends: Vec::new(alloc),
            components: Vec::new(alloc),
            levels: Vec::new(alloc),
            lists: SpareLists::new(alloc),
            offsets: SpareLists::new(alloc),
        }
    }

    /// The list for flags.
    pub fn take_flags(&mut self, alloc: Global) -> Vec<u8>
        ensures taken { result.items ≡ self.old.flags.items }
        ensures left { self.new.flags.items ≡ [] }
        ensures kept { (self.new.xs.items ≡ self.old.xs.items) × (self.new.ys.items ≡ self.old.ys.items) }
    {
        mem::replace(&mut self.flags, Vec::new(alloc))
    }

    /// The list for x before it is moved.
    pub fn take_xs(&mut self, alloc: Global) -> Vec<i16>
        ensures taken { result.items ≡ self.old.xs.items }
        ensures left { self.new.xs.items ≡ [] }
        ensures kept { self.new.ys.items ≡ self.old.ys.items }
    {
        mem::replace(&mut self.xs, Vec::new(alloc))
    }

    /// The list for y before it is moved.
    pub fn take_ys(&mut self, alloc: Global) -> Vec<i16>
        ensures taken { result.items ≡ self.old.ys.items }
        ensures left { self.new.ys.items ≡ [] }
    {
        mem::replace(&mut self.ys, Vec::new(alloc))
    }

    /// The list for the last points of contours.
    pub fn take_ends(&mut self, alloc: Global) -> Vec<usize>
        ensures taken { result.items ≡ self.old.ends.items }
        ensures left { self.new.ends.items ≡ [] }
    {
        mem::replace(&mut self.ends, Vec::new(alloc))
    }

    /// The list for components.
    pub fn take_components(&mut self, alloc: Global) -> Vec<Component>
        ensures taken { result.items ≡ self.old.components.items }
        ensures left { self.new.components.items ≡ [] }
    {
        mem::replace(&mut self.components, Vec::new(alloc))
    }

    /// The lists for a description.
    pub fn take_columns(&mut self, alloc: Global) -> Columns
        ensures ends { result.ends.items ≡ [] }
        ensures flags { result.flags.items ≡ self.old.flags.items }
        ensures xs { result.xs.items ≡ self.old.xs.items }
        ensures ys { result.ys.items ≡ self.old.ys.items }
    {
        let flags = self.take_flags(alloc);
        let xs = self.take_xs(alloc);
        let ys = self.take_ys(alloc);
        Columns {
            ends: Vec::new(alloc),
            flags,
            xs,
            ys,
        }
    }

    /// Keeps the lists of an outline that is moved.
    pub fn keep_default(&mut self, xs: Vec<i16>, ys: Vec<i16>, ends: Vec<usize>)
        ensures xs { self.new.xs.items ≡ xs.items }
        ensures ys { self.new.ys.items ≡ ys.items }
        ensures ends { self.new.ends.items ≡ ends.items }
    {
        self.xs = xs;
        self.ys = ys;
        self.ends = ends;
    }

    /// Keeps the lists of a composite glyph whose components are placed.
    pub fn keep_components(&mut self, components: Vec<Component>, xs: Vec<i64>, ys: Vec<i64>)
        ensures components { self.new.components.items ≡ components.items }
        ensures xs { self.new.offsets.xs.items ≡ xs.items }
        ensures ys { self.new.offsets.ys.items ≡ ys.items }
    {
        self.components = components;
        self.offsets.keep(xs, ys);
    }

    /// Keeps the flags and the coordinates of a glyph that is done.
    pub fn keep(&mut self, on: Vec<u8>, xs: Vec<i64>, ys: Vec<i64>)
        ensures flags { self.new.flags.items ≡ on.items }
        ensures xs { self.new.lists.xs.items ≡ xs.items }
        ensures ys { self.new.lists.ys.items ≡ ys.items }
    {
        self.flags = on;
        self.lists.keep(xs, ys);
    }

    /// A glyph in lists that have room for it alone. Its own are kept.
    pub fn exact(&mut self, alloc: Global, unfolded: Unfolded) -> Result<Unfolded, AllocError>
        ensures { IfOk result (λ u. u ≡ unfolded) }
    {
        let Unfolded {
            ends,
            on,
            xs,
            ys,
            left,
            right,
        } = unfolded;
        let exact_on = Vec::from_slice(alloc, &on)?;
        let exact_xs = Vec::from_slice(alloc, &xs)?;
        let exact_ys = Vec::from_slice(alloc, &ys)?;
        self.keep(on, xs, ys);
        Ok(Unfolded {
            ends,
            on: exact_on,
            xs: exact_xs,
            ys: exact_ys,
            left,
            right,
        })
    }
}
