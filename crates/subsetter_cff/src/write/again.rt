//! The laws of a subset of a subset.

ghost use Rattle.subsetter_cff.specs.Write.Again.{AnsweredAgain, HasNoFaultAgain, IsComposed, IsGivenBack, IsSameTable, KeepsAllCharStrings, StaysFromThenOn, TablesCompose, TablesKeepAllCharStrings, UnknownIsFault};

/// A subset of a subset is a subset of the first font, read afresh.
pub fn subset_of_the_first_font()
    ensures { IsComposed }
{}

/// A subset of a subset is a subset of the first font, by the bytes of three tables.
pub fn tables_compose()
    ensures { TablesCompose }
{}

/// A subset of all glyphs in order has the same charstrings.
pub fn same_char_strings()
    ensures { KeepsAllCharStrings }
{}

/// A subset of all glyphs in order has the same charstrings, by the bytes of three tables.
pub fn tables_keep_char_strings()
    ensures { TablesKeepAllCharStrings }
{}

/// The table of a subset of a subset is that of the first font, where that is CID-keyed.
#[tactic(auto, using(crate::proofs::WriteLaws::AgainLaws::Tables::is_same_table))]
pub fn same_table()
    ensures { IsSameTable }
{}

/// All glyphs of a subset of a CID-keyed font give its table back, byte for byte.
#[tactic(auto, using(crate::proofs::WriteLaws::AgainLaws::Tables::is_given_back))]
pub fn given_back()
    ensures { IsGivenBack }
{}

/// A subset of a CID-keyed font, for all its glyphs, has no fault.
#[tactic(auto, using(crate::proofs::WriteLaws::AgainLaws::Faults::has_no_fault_again))]
pub fn no_fault_again()
    ensures { HasNoFaultAgain }
{}

/// What is answered for all glyphs of a subset is given back from then on.
#[tactic(auto, using(crate::proofs::WriteLaws::AgainLaws::Tables::stays_from_then_on))]
pub fn stays_from_then_on()
    ensures { StaysFromThenOn }
{}

/// What is answered for all glyphs of a subset has its charstrings, and is given back from then on.
pub fn answered_again()
    ensures { AnsweredAgain }
{}

/// A glyph that a subset hasn't is a fault in it.
pub fn unknown_is_fault()
    ensures { UnknownIsFault }
{}
