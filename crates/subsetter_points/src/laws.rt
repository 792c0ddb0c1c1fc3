//! Laws of the definitions, which no code runs.

ghost use Rattle.subsetter_points.specs.Laws.{IsReadBack, IsReadBackBefore};

/// An outline that fits is read from its bytes.
#[tactic(auto, using(crate::proofs::Back::reads_back))]
pub fn is_read_back()
    ensures { IsReadBack }
{}

/// An outline that fits and has a contour is read from its bytes, whatever follows them.
#[tactic(auto, using(crate::proofs::Back::reads_back_before))]
pub fn is_read_back_before()
    ensures { IsReadBackBefore }
{}
