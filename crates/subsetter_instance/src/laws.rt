//! Laws of the definitions, which no code runs.

ghost use Rattle.subsetter_instance.specs.Laws.{IsReadAfresh, IsSameAtAnySteps, HasFaultWhereRefused, HasNoneWhereAnswered, IsBoxOfAll, AreFaultsNamed, IsDrawnAsInSource};
ghost use Rattle.subsetter_instance.specs.MetricLaws.{AreLinesAtDefault, IsAdvanceAtDefault, IsAdvanceAtMaster, IsDrawnAsUnvaried, IsMetricAtDefault, IsMetricAtMaster, IsSimpleAdvanceAtDefault};
ghost use Rattle.subsetter_instance.specs.Promise.{AnswersAreClean, AnswersAreOne};

/// A font that is returned is an instance, read afresh from its bytes, and its source has no fault.
pub fn answers_are_clean()
    ensures { AnswersAreClean }
{}

/// Fonts that are returned for the same coordinates and glyphs of a font, in whatever number of steps, have the same bytes.
pub fn answers_are_one()
    ensures { AnswersAreOne }
{}

/// The file that the plain way lays out is an instance, read afresh from its bytes.
pub fn is_read_afresh()
    ensures { IsReadAfresh }
{}

/// The file is the same in whatever number of steps.
pub fn is_same_at_any_steps()
    ensures { IsSameAtAnySteps }
{}

/// An error is the name of a fault of the source.
pub fn has_fault_where_refused()
    ensures { HasFaultWhereRefused }
{}

/// Where there is a file, the source has no fault.
pub fn has_none_where_answered()
    ensures { HasNoneWhereAnswered }
{}

/// A glyph with its components isn't unfolded exactly where it has a fault.
pub fn are_faults_named()
    ensures { AreFaultsNamed }
{}

/// At the default a glyph, its components unrolled, is as it is in the source.
pub fn is_drawn_as_in_source()
    ensures { IsDrawnAsInSource }
{}

/// And what is drawn of it is what is drawn without variations of outlines.
pub fn is_drawn_as_unvaried()
    ensures { IsDrawnAsUnvaried }
{}

/// By `HVAR` the advance of a glyph is at a master what `hmtx` has and the delta for it.
pub fn is_advance_at_master()
    ensures { IsAdvanceAtMaster }
{}

/// At the default it is what `hmtx` has.
pub fn is_advance_at_default()
    ensures { IsAdvanceAtDefault }
{}

/// Without `HVAR` too, of a simple glyph.
pub fn is_simple_advance_at_default()
    ensures { IsSimpleAdvanceAtDefault }
{}

/// By `MVAR` a metric of the font is at a master what its table has and the delta for it.
pub fn is_metric_at_master()
    ensures { IsMetricAtMaster }
{}

/// At the default it is what its table has.
pub fn is_metric_at_default()
    ensures { IsMetricAtDefault }
{}

/// So at the default `hhea` and `post` are as they are in the source.
pub fn are_lines_at_default()
    ensures { AreLinesAtDefault }
{}

/// The box of an instance is the least one around all points.
pub fn is_box_of_all()
    ensures { IsBoxOfAll }
{}
