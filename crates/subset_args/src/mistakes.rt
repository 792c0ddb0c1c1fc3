//! What is wrong with arguments that request nothing.

ghost use Rattle.std.specs.Prelude.{◌≡◌};
ghost use Rattle.subset_args.specs.Mistakes.{Fault, fault_view};

use crate::options::names::Setting;
use std::alloc::AllocError;

/// What is wrong with an argument, or with one of the values that it lists.
#[derive(Clone, Copy)]
pub enum Wrong {
    /// IN is missing.
    NoInput,
    /// OUT is missing.
    NoOutput,
    /// INDEX is missing.
    NoIndex,
    /// GID is missing, and no option says which glyphs are requested.
    NoGlyphs,
    /// It is one argument too many.
    Further,
    /// It is one argument too many after `--axes IN INDEX` or `--info IN INDEX`.
    AfterShown,
    /// It is an option, and is after IN.
    Late,
    /// It is `--axes` or `--info`, and isn't the first argument.
    ShownLate,
    /// The FILE of `--batch` is missing.
    NoBatchFile,
    /// It is one argument too many after `--batch FILE`.
    AfterBatch,
    /// It is `--batch`, and isn't the first argument.
    BatchLate,
    /// It looks like an option, and is none.
    Unknown,
    /// It is an option that was given before.
    Twice,
    /// It is an option, and its value is missing.
    NoValue,
    /// It is a GID, and an option says which glyphs are requested.
    BesideOption,
    /// It reads standard input, as IN does.
    InputTwice,
    /// INDEX isn't a number below 2^32.
    Index,
    /// The value of `--face-index` isn't a number below 2^32.
    FaceIndex,
    /// The value of `--most-input` isn't a number below 2^32.
    MostInput,
    /// GID isn't a number below 2^16.
    Glyph,
    /// It isn't TOKENS,DEPTH[,BYTES].
    Limits,
    /// It isn't TAG=VALUE.
    Coordinate,
    /// It is TAG=VALUE, and the tag hasn't four bytes.
    Tag,
    /// It is no number and no range of glyphs.
    Part,
    /// It is a range of glyphs whose ends aren't in order.
    Descends,
    /// It is no number and no range of characters.
    Codes,
    /// It is a range of characters whose ends aren't in order.
    CodesDescend,
    /// It is an option whose list has too many numbers.
    TooMany,
    /// It is a second argument beside IN, where an option says OUT or INDEX.
    BesideInput,
    /// No option says which glyphs are requested.
    NoSource,
    /// The value of `--codes` is none of its words.
    Coding,
    /// The value of `--rights` isn't `held`.
    Rights,
    /// It is an option that says how a PDF is made, and there is no `--pdf`.
    NoPdf,
    /// It is the file of a PDF, and OUT.
    OutputTwice,
    /// It is an option, and the value of this one, which is before it.
    Taken(Setting),
}

/// A mistake in the arguments.
#[derive(Clone, Copy)]
pub struct Mistake<'a> {
    /// What is wrong.
    pub wrong: Wrong,
    /// The argument, or one of the values that it lists. It is empty where one is missing.
    pub word: &'a str,
}

/// A mistake in an argument.
pub fn mistake_in(wrong: Wrong, word: &str) -> Mistake<'_>
    ensures { fault_view result ≡ record { wrong = wrong; word = word.now } }
{
    Mistake { wrong, word }
}

/// Why the arguments request nothing.
#[derive(Clone, Copy)]
pub enum Unread<'a> {
    /// A request for memory was refused.
    OutOfMemory,
    /// This is wrong with them.
    Mistake(Mistake<'a>),
}

impl From<AllocError> for Unread<'_> {
    ghost use Rattle.std.specs.Prelude.{◌≡◌};
    ghost use Rattle.subset_args.specs.declared.mistakes.Unread.TheVariants.{OutOfMemory};

    ghost from_gives = { λ _ e. e ≡ OutOfMemory };

    fn from(_error: AllocError) -> Self {
        Unread::OutOfMemory
    }
}
