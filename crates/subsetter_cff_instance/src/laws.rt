//! Laws of the definitions, which no code runs.

ghost use Rattle.subsetter_cff_instance.specs.Laws.{IsCffReadAfresh, IsSameAtAnyLimits, HasCffFaultWhereRefused, HasNoCffFaultWhereAnswered};
ghost use Rattle.subsetter_cff_instance.specs.Promise.{CffAnswersAreClean, CffAnswersAreOne};

/// A font that is returned is a static font, read afresh from its bytes, and its source has no fault.
pub fn cff_answers_are_clean()
    ensures { CffAnswersAreClean }
{}

/// Fonts that are returned for the same coordinates and glyphs of a font, within whatever limits, have the same bytes.
pub fn cff_answers_are_one()
    ensures { CffAnswersAreOne }
{}

/// The file that the plain way lays out is a static font, read afresh from its bytes.
pub fn is_cff_read_afresh()
    ensures { IsCffReadAfresh }
{}

/// The file is the same within whatever limits.
pub fn is_same_at_any_limits()
    ensures { IsSameAtAnyLimits }
{}

/// An error is the name of a fault of the source.
pub fn has_cff_fault_where_refused()
    ensures { HasCffFaultWhereRefused }
{}

/// Where there is a file, the source has no fault.
pub fn has_no_cff_fault_where_answered()
    ensures { HasNoCffFaultWhereAnswered }
{}
