//! The first bytes of numbers (Technical Note 5176, section 4 "DICT Data", and Technical Note 5177, section 3.2 "Charstring
//! Number Encoding").

/// Of an integer in two bytes more.
pub(crate) const SHORT_INTEGER: u8 = 28;
/// Of an integer in four bytes more; in a DICT alone.
pub(crate) const LONG_INTEGER: u8 = 29;
/// Of a real, whose characters are in the nibbles after it; in a DICT alone.
pub(crate) const REAL: u8 = 30;
/// Of a number of 65536ths in four bytes more; in a charstring alone.
pub(crate) const FIXED: u8 = 255;
