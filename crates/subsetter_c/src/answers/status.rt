//! Statuses: what each call returns to C.

ghost use Rattle.std.specs.Prelude.{◌≡◌};
ghost use Rattle.subsetter_c.specs.Answers.Status.{status_of, status_text};

use subsetter::Error;

/// Everything was done.
pub const DONE: u32 = 0;
/// A request for memory was refused.
pub const OUT_OF_MEMORY: u32 = 7;
/// A buffer is too small.
pub const TOO_SMALL: u32 = 8;
/// The limit of the depth is 0, at which no charstring can run.
pub const NO_DEPTH: u32 = 9;

/// The options have a size, a depth or a bit that isn't known.
pub const UNKNOWN_OPTION: u32 = 10;
/// The font's maker doesn't permit that it is embedded.
pub const NOT_PERMITTED: u32 = 11;
/// A text isn't one, or is too long.
pub const INVALID_TEXT: u32 = 12;
/// The font has no table by which characters have glyphs.
pub const NO_CMAP: u32 = 13;
/// The face has no outlines.
pub const BITMAPS_ALONE: u32 = 14;
/// There would be more than 65,535 codes.
pub const OVERFULL: u32 = 15;
/// The numbers of objects aren't distinct, one is 0, or there are too few or too many.
pub const INVALID_NUMBERS: u32 = 16;

/// The number of an error: from 1 on, in the order of the names in `Error`.
pub fn status_of(error: Error) -> u32
    ensures { result ≡ status_of error }
{
    match error {
        Error::UnknownKind => 1,
        Error::MalformedFont => 2,
        Error::Unimplemented => 3,
        Error::SubsetError => 4,
        Error::OverflowError => 5,
        Error::CFFError => 6,
        Error::OutOfMemory => 7,
    }
}

/// What a status says.
#[tactic(auto, unfolding(crate::specs::Answers::Status::status_text))]
pub fn status_text(status: u32) -> &'static [u8]
    ensures { result.now ≡ status_text status }
{
    match status {
        0 => b"all done",
        1 => b"unknown font kind",
        2 => b"malformed font",
        3 => b"unsupported feature in font",
        4 => b"subsetting of font failed",
        5 => b"overflow occurred",
        6 => b"processing CFF table failed",
        7 => b"out of memory",
        8 => b"a buffer is too small",
        9 => b"the limit of the depth is 0",
        10 => b"wrong option, size or text",
        11 => b"embedding not permitted",
        12 => b"invalid text",
        13 => b"no usable cmap in font",
        14 => b"no outlines in font",
        15 => b"too many codes",
        16 => b"invalid numbers",
        _ => b"unknown status",
    }
}
