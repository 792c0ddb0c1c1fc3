//! The laws of variations, which name no code: how far a tuple counts, and what it moves the points of a contour by.

ghost use Rattle.subsetter_variation.specs.Items.ItemLaws.{IsItemAtDefault, IsItemAtMaster, IsRoundedAsItIs};
ghost use Rattle.subsetter_variation.specs.Locations.LocationLaws.{IsDefaultAtZero, IsGreatestAtOne, IsMappedToItself, IsLeastAtMinusOne, NeverDescends, NeverDescendsBent};
ghost use Rattle.subsetter_variation.specs.Glyphs.Moves.{IsShift, IsZeroAtScalarZero, IsRotated, IsBetweenNeighbours};
ghost use Rattle.subsetter_variation.specs.VariationLaws.{AreAscending, AreFaultsNamed, IsBetweenNothingAndFull, IsExactAtPeak, IsFreeOfPosition, IsNothingAtDefault, IsPassedOver, IsSameAtAnySteps, IsUnvariedAtDefault};

/// At the scalar 0 nothing moves.
pub fn is_zero_at_scalar_zero()
    ensures { IsZeroAtScalarZero }
{}

/// An untouched point moves as between the last touched point and the first one of the contour rotated to it.
pub fn is_rotated()
    ensures { IsRotated }
{}

/// One touched point moves all points of its contour by its delta.
pub fn is_shift()
    ensures { IsShift }
{}

/// An inferred delta is between the scaled deltas of its neighbours.
pub fn is_between_neighbours()
    ensures { IsBetweenNeighbours }
{}

/// At the default a region counts nothing.
pub fn is_nothing_at_default()
    ensures { IsNothingAtDefault }
{}

/// At the default the points of a glyph stay where they are.
pub fn is_unvaried_at_default()
    ensures { IsUnvariedAtDefault }
{}

/// A tuple that doesn't count moves nothing.
pub fn is_passed_over()
    ensures { IsPassedOver }
{}

/// At its peak a tuple moves points by exactly its deltas.
pub fn is_exact_at_peak()
    ensures { IsExactAtPeak }
{}

/// What moves a point that is alone in its contour, as a phantom point is, doesn't depend on its position.
pub fn is_free_of_position()
    ensures { IsFreeOfPosition }
{}

/// The point numbers of a tuple ascend.
pub fn are_ascending()
    ensures { AreAscending }
{}

/// Points don't move exactly where the variations of their glyph have a fault.
pub fn are_faults_named()
    ensures { AreFaultsNamed }
{}

/// Points move to the same positions at whatever number of steps.
pub fn is_same_at_any_steps()
    ensures { IsSameAtAnySteps }
{}

/// At the default an item of `HVAR` or `MVAR` varies by nothing.
pub fn is_item_at_default()
    ensures { IsItemAtDefault }
{}

/// An item that varies by whole units is rounded to them: so advances and metrics are at a master those of the font and the delta.
pub fn is_rounded_as_it_is()
    ensures { IsRoundedAsItIs }
{}

/// At a master it varies by exactly its delta for it.
pub fn is_item_at_master()
    ensures { IsItemAtMaster }
{}

/// A segment map takes each number to itself that its ends keep, of those that count.
pub fn is_mapped_to_itself()
    ensures { IsMappedToItself }
{}

/// The default of an axis is at 0.
pub fn is_default_at_zero()
    ensures { IsDefaultAtZero }
{}

/// The least coordinate of an axis is at -1, where it is below the default.
pub fn is_least_at_minus_one()
    ensures { IsLeastAtMinusOne }
{}

/// The greatest coordinate of an axis is at 1, where it is above the default.
pub fn is_greatest_at_one()
    ensures { IsGreatestAtOne }
{}

/// Before the segments a greater coordinate is no lower on its axis.
pub fn never_descends()
    ensures { NeverDescends }
{}

/// Nor does it through the segments of `avar`.
pub fn never_descends_bent()
    ensures { NeverDescendsBent }
{}

/// A region counts between nothing and in full.
pub fn is_between_nothing_and_full()
    ensures { IsBetweenNothingAndFull }
{}
