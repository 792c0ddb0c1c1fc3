//! Laws of the run of a charstring, which no code runs.

ghost use Rattle.subsetter_type2.specs.Laws.{PlaysBack, KeepsTrace, IsFlatAlready, HasOneTrace};

/// The flat form of a trace has that trace, whatever the subroutines, and takes no more tokens.
pub fn trace_plays_back()
    ensures { PlaysBack }
{}

/// The bytes that flatten a charstring are those of its trace, and have that trace without the subroutines too.
pub fn flattening_keeps_the_trace()
    ensures { KeepsTrace }
{}

/// Flattening a flat charstring gives the same bytes.
pub fn flat_form_is_flat()
    ensures { IsFlatAlready }
{}

/// A trace that is there at two limits is the same at both.
pub fn trace_is_one()
    ensures { HasOneTrace }
{}
