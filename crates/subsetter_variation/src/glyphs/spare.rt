//! Lists that one glyph after another is moved with, so that their memory is requested once and not for each glyph.

ghost use Rattle.std.specs.Prelude.{◌≡◌, [], unwrap_or, option_map};

use crate::glyphs::inference::Point;
use std::alloc::Global;
use std::mem;

/// Lists for the next glyph. What they hold doesn't count: each is cleared before it is filled.
#[derive(Drop)]
pub struct SpareLists {
    /// For x of the moved points.
    pub xs: Vec<i64>,
    /// For y of the moved points.
    pub ys: Vec<i64>,
    /// For the point numbers that tuples share.
    pub shared: Vec<u32>,
    /// For the point numbers of a tuple.
    pub numbers: Vec<u32>,
    /// For the deltas of a tuple along x.
    pub dx: Vec<i16>,
    /// For the deltas of a tuple along y.
    pub dy: Vec<i16>,
    /// For the points of a tuple along one axis.
    pub points: Vec<Point>,
}

impl SpareLists {
    /// Lists without memory.
    pub fn new(alloc: Global) -> Self
        ensures moved { (result.xs.items ≡ []) × (result.ys.items ≡ []) }
        ensures numbers { (result.shared.items ≡ []) × (result.numbers.items ≡ []) }
        ensures deltas { (result.dx.items ≡ []) × (result.dy.items ≡ []) }
        ensures points { result.points.items ≡ [] }
    {
        SpareLists {
            xs: Vec::new(alloc),
            ys: Vec::new(alloc),
            shared: Vec::new(alloc),
            numbers: Vec::new(alloc),
            dx: Vec::new(alloc),
            dy: Vec::new(alloc),
            points: Vec::new(alloc),
        }
    }

    /// The list for x of the moved points.
    pub fn take_xs(&mut self, alloc: Global) -> Vec<i64>
        ensures taken { result.items ≡ self.old.xs.items }
        ensures left { self.new.xs.items ≡ [] }
    {
        mem::replace(&mut self.xs, Vec::new(alloc))
    }

    /// The list for y of the moved points.
    pub fn take_ys(&mut self, alloc: Global) -> Vec<i64>
        ensures taken { result.items ≡ self.old.ys.items }
        ensures left { self.new.ys.items ≡ [] }
    {
        mem::replace(&mut self.ys, Vec::new(alloc))
    }

    /// Keeps the lists of moved points that are done.
    pub fn keep(&mut self, xs: Vec<i64>, ys: Vec<i64>)
        ensures xs { self.new.xs.items ≡ xs.items }
        ensures ys { self.new.ys.items ≡ ys.items }
    {
        self.xs = xs;
        self.ys = ys;
    }

    /// The list for the deltas of a tuple along x.
    pub fn take_dx(&mut self, alloc: Global) -> Vec<i16>
        ensures taken { result.items ≡ self.old.dx.items }
        ensures left { self.new.dx.items ≡ [] }
    {
        mem::replace(&mut self.dx, Vec::new(alloc))
    }

    /// The list for the deltas of a tuple along y.
    pub fn take_dy(&mut self, alloc: Global) -> Vec<i16>
        ensures taken { result.items ≡ self.old.dy.items }
        ensures left { self.new.dy.items ≡ [] }
    {
        mem::replace(&mut self.dy, Vec::new(alloc))
    }
}

/// Keeps a list of point numbers for the next ones, if it is one.
pub fn keep_numbers(spare: &mut Vec<u32>, numbers: Option<Vec<u32>>)
    ensures { spare.new.items ≡ unwrap_or (option_map (λ list. list.items) numbers) spare.old.items }
{
    if let Some(list) = numbers {
        *spare = list;
    }
}
