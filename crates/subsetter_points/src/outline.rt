//! Outlines as points.

ghost use Rattle.std.specs.Prelude.{◌≡◌, []};
ghost use Rattle.subsetter_points.specs.Simple.{coordinate_in};

use std::alloc::Global;

/// A point of an outline, in font design units.
#[derive(Clone, Copy, Debug, PartialEq, Eq)]
pub struct Point {
    /// From left to right.
    pub x: i16,
    /// From below to above.
    pub y: i16,
    /// Whether it is on the curve, and no control point.
    pub on_curve: bool,
}

/// One of the two columns of coordinates of a simple glyph description.
#[derive(Clone, Copy)]
pub enum Column {
    /// From left to right.
    XCoordinates,
    /// From below to above.
    YCoordinates,
}

/// The coordinate of a point in a column.
#[inline]
pub fn coordinate_in(column: Column, point: Point) -> i16
    ensures { result ≡ coordinate_in column point }
{
    match column {
        Column::XCoordinates => point.x,
        Column::YCoordinates => point.y,
    }
}

/// An outline: the points of its contours one after the other, and for each contour the number of its last point, from 0.
#[derive(Debug, Drop)]
pub struct Outline {
    /// The points of all contours.
    pub points: Vec<Point>,
    /// The number of the last point of each contour.
    pub ends: Vec<u16>,
}

/// An outline before its points are joined: of each point its flag, of which bit 0 is set where it is on the curve, and its
/// coordinates, and for each contour the number of its last point.
#[derive(Debug, Drop)]
pub struct Columns {
    /// The number of the last point of each contour.
    pub ends: Vec<u16>,
    /// The flags, one for each point.
    pub flags: Vec<u8>,
    /// From left to right, of each point.
    pub xs: Vec<i16>,
    /// From below to above, of each point.
    pub ys: Vec<i16>,
}

impl Columns {
    /// Those of an outline without points.
    pub fn new(alloc: Global) -> Self
        ensures ends { result.ends.items ≡ [] }
        ensures flags { result.flags.items ≡ [] }
        ensures xs { result.xs.items ≡ [] }
        ensures ys { result.ys.items ≡ [] }
    {
        Self {
            ends: Vec::new(alloc),
            flags: Vec::new(alloc),
            xs: Vec::new(alloc),
            ys: Vec::new(alloc),
        }
    }

    /// Lists with the room of these, which hold nothing.
    pub fn emptied(self) -> Self
        ensures ends { result.ends.items ≡ [] }
        ensures flags { result.flags.items ≡ [] }
        ensures xs { result.xs.items ≡ [] }
        ensures ys { result.ys.items ≡ [] }
    {
        let mut columns = self;
        columns.ends.clear();
        columns.flags.clear();
        columns.xs.clear();
        columns.ys.clear();
        columns
    }
}

impl Outline {
    /// An outline without points.
    pub fn new(alloc: Global) -> Self
        ensures points { result.points.items ≡ [] }
        ensures ends { result.ends.items ≡ [] }
    {
        Self {
            points: Vec::new(alloc),
            ends: Vec::new(alloc),
        }
    }
}
