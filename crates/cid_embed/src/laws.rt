//! The laws of a subset of a subset, which name no code. The second subset's glyphs are named by their indexes in the
//! first one's order.
//!
//! Composition and the fixed point need one glyph at least in the second list, which every mapper has. That a list
//! names all glyphs in order is counted by the first order (`AreAll`): a subset has as many glyphs as its order, so
//! nothing has to be read of it.

ghost use Rattle.cid_embed.specs.Again.{ComposesAfresh, ComposesLessAfresh, HasNoFaultAgain, IsCanonical, IsComposed, IsComposedOfLess, IsKeyedByCids, KeepsAllCharStrings, UnknownIsFault};

/// A subset of a subset keeps what a subset of the first font keeps, read afresh.
pub fn composes_afresh()
    ensures { ComposesAfresh }
{}

/// A subset of a subset is a subset of the first font, where that is TrueType or CID-keyed.
pub fn is_composed()
    ensures { IsComposed }
{}

/// What a subset of a subset leaves out of names and glyph names is left out of what it keeps of the first font, read afresh.
pub fn composes_less_afresh()
    ensures { ComposesLessAfresh }
{}

/// A subset of a subset that leaves out more names is a subset of the first font that leaves these out too.
pub fn is_composed_of_less()
    ensures { IsComposedOfLess }
{}

/// Every subset is TrueType or CID-keyed.
pub fn is_keyed_by_cids()
    ensures { IsKeyedByCids }
{}

/// A subset of all glyphs of a subset, in order, is that subset, byte for byte.
pub fn is_canonical()
    ensures { IsCanonical }
{}

/// A subset of all glyphs of a subset has its charstrings, whatever the keying of the first font is.
pub fn keeps_all_charstrings()
    ensures { KeepsAllCharStrings }
{}

/// A subset for all its glyphs, in order, has no fault.
pub fn no_fault_again()
    ensures { HasNoFaultAgain }
{}

/// A glyph that a subset doesn't have is a fault in it.
pub fn unknown_is_fault()
    ensures { UnknownIsFault }
{}
