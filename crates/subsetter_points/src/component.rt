//! The record of a component, and its flags (OpenType, "glyf", "Composite glyph description").

/// glyphIndex, two bytes, after flags.
pub const GLYPH_INDEX: usize = 2;
/// argument1, and after it argument2, two bytes each or one.
pub const ARGUMENTS: usize = 4;

/// The arguments are two words, and not two bytes.
pub const ARG_1_AND_2_ARE_WORDS: u16 = 0x0001;
/// The arguments are an offset, and not two points.
pub const ARGS_ARE_XY_VALUES: u16 = 0x0002;
/// A scale follows.
pub const WE_HAVE_A_SCALE: u16 = 0x0008;
/// Another component follows.
pub const MORE_COMPONENTS: u16 = 0x0020;
/// Two scales follow.
pub const WE_HAVE_AN_X_AND_Y_SCALE: u16 = 0x0040;
/// A matrix of four numbers follows.
pub const WE_HAVE_A_TWO_BY_TWO: u16 = 0x0080;
/// Instructions follow the last component.
pub const WE_HAVE_INSTRUCTIONS: u16 = 0x0100;
/// The glyph has the metrics of this component.
pub const USE_MY_METRICS: u16 = 0x0200;
/// The offset is scaled as the component is.
pub const SCALED_COMPONENT_OFFSET: u16 = 0x0800;
/// The offset isn't scaled.
pub const UNSCALED_COMPONENT_OFFSET: u16 = 0x1000;
