//! The laws of the CFF table: what is laid out is read afresh as it was meant, what is answered is a subset, and what is
//! refused has a fault.

ghost use Rattle.subsetter_cff.specs.Write.Refusals.CffFault.{RefusedHasFault, AnsweredExcludes, FaultIsNamed};
ghost use Rattle.subsetter_cff.specs.Write.Headline.{AnsweredIsSubset};
ghost use Rattle.subsetter_cff.specs.Write.Made.{MadeIsSubset};
ghost use Rattle.subsetter_cff.specs.Write.Laying.ReadsAs.{CharsetIsRead, SelectIsRead, LaidOutIsRead};

/// The charset that is written says of each glyph that its CID is its number, whatever bytes follow.
#[tactic(auto, using(crate::proofs::WriteLaws::GlyphsLaws::Charsets::charset_is_read))]
pub fn charset_is_read()
    ensures { CharsetIsRead }
{}

/// The FDSelect that is written gives each glyph the font dict of the number that it was written with, whatever bytes follow.
#[tactic(auto, using(crate::proofs::WriteLaws::GlyphsLaws::Charsets::select_is_read))]
pub fn select_is_read()
    ensures { SelectIsRead }
{}

/// A table that was laid out is read afresh as the parts that it was laid out for.
#[tactic(auto, using(crate::proofs::WriteLaws::LayingLaws::Whole::laid_out_is_read))]
pub fn laid_out_is_read()
    ensures { LaidOutIsRead }
{}

/// A table whose parts were made of a source is a subset of it, read afresh.
#[tactic(auto, using(crate::proofs::WriteLaws::Keeping::made_is_subset))]
pub fn made_is_subset()
    ensures { MadeIsSubset }
{}

/// Where the plain way makes a table, that table read afresh is a subset of the source.
#[tactic(auto, using(crate::proofs::WriteLaws::Headline::answered_is_subset))]
pub fn answered_is_subset()
    ensures { AnsweredIsSubset }
{}

/// What is refused has a fault of the name that is answered.
#[tactic(auto, using(crate::proofs::WriteLaws::RefusalsLaws::CffFaults::refused_stands))]
pub fn refused_has_fault()
    ensures { RefusedHasFault }
{}

/// Where a table is answered, its source has no fault.
#[tactic(auto, using(crate::proofs::WriteLaws::RefusalsLaws::Excluded::answered_excludes))]
pub fn answered_excludes()
    ensures { AnsweredExcludes }
{}

/// Faults have five names, and out of memory is none of them.
#[tactic(auto, using(crate::proofs::WriteLaws::RefusalsLaws::FaultNames::fault_is_named))]
pub fn fault_is_named()
    ensures { FaultIsNamed }
{}
