//! Where a font is moved to along its axes (OpenType, "fvar", "MVAR").

ghost use Rattle.std.specs.Prelude.{◌≡◌, ◌≤◌, ◌^◌, unsigned_abs};
ghost use Rattle.std.specs.Option.{option_map};
ghost use Rattle.pdf_values.specs.Movement.{coordinate_on, delta_of, if_small, movement_view, varied};
ghost use Rattle.subsetter_variation.specs.Locations.Axes.{find_axis};

use subsetter_base::Tag;
use subsetter_variation::items::font_metrics::metric_delta;
use subsetter_variation::locations::axes::{Axis, clamped, find_axis};

/// Where a font is moved to.
#[derive(Clone, Copy)]
pub struct Movement<'a> {
    /// The normalized coordinates, in 16384ths.
    pub at: &'a [i32],
    pub axes: &'a [Axis],
    /// User coordinates, each a tag and a value in 65536ths.
    pub settings: &'a [(Tag, i32)],
    /// The table `MVAR`, if there is one.
    pub mvar: Option<&'a [u8]>,
}

/// The user coordinate on the first axis of a tag, clamped to it, if the font is moved and has such an axis.
pub(crate) fn coordinate_on(movement: Option<Movement<'_>>, tag: Tag) -> Option<i32>
    ensures { result ≡ coordinate_on tag.0 (option_map movement_view movement.entry) }
{
    let movement = movement?;
    let axis = find_axis(movement.axes, tag)?;
    Some(clamped(axis, movement.settings))
}

/// What a metric varies by, in whole units; 0 where nothing is there to be read, or the font isn't moved.
fn delta_of(movement: Option<Movement<'_>>, tag: Tag) -> i64
    ensures { result ≡ delta_of (option_map movement_view movement.entry) tag.0 }
{
    let Some(movement) = movement else {
        return 0;
    };
    let Some(mvar) = movement.mvar else {
        return 0;
    };
    match metric_delta(mvar, movement.at, tag) {
        Ok(delta) => delta,
        Err(_) => 0,
    }
}

/// A sum that a metric can be, else the metric.
fn if_small(sum: i128, metric: i32) -> i32
    requires { unsigned_abs metric ≤ 2 ^ 16 }
    ensures value { result ≡ if_small sum metric }
    ensures small { unsigned_abs result ≤ 2 ^ 16 }
{
    if -65536 <= sum && sum <= 65536 {
        return sum as i32;
    }
    metric
}

/// A metric with what it varies by.
#[tactic(auto, unfolding(crate::specs::Movement::varied))]
pub(crate) fn varied(movement: Option<Movement<'_>>, tag: Tag, metric: i32) -> i32
    requires { unsigned_abs metric ≤ 2 ^ 16 }
    ensures value { result ≡ varied (option_map movement_view movement.entry) tag.0 metric }
    ensures small { unsigned_abs result ≤ 2 ^ 16 }
{
    if_small(
        i128::from(metric) + i128::from(delta_of(movement, tag)),
        metric,
    )
}
