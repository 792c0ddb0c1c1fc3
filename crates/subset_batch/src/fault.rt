//! Why a line isn't a request.

ghost use Rattle.std.specs.Prelude.{◌≡◌, length};
ghost use Rattle.subset_batch.specs.Reading.{from_start};
ghost use Rattle.subset_batch.specs.View.{fault_view};

use std::alloc::{AllocError, AllocFailed};
use std::fmt;
use subset_args::Plain;

/// What is expected in a line.
#[derive(Clone, Copy)]
pub enum Wanted {
    /// `{`
    Object,
    /// The name of a member, in quotation marks.
    Name,
    /// `:` after a name.
    Colon,
    /// A string, a number, `true`, `false`, `null` or an array.
    Value,
    /// A string or a number, in an array.
    Item,
    /// `,` or `}` after a member.
    CommaOrBrace,
    /// `,` or `]` after a member of an array.
    CommaOrBracket,
    /// The quotation mark that ends a string.
    Quote,
    /// A character that isn't a control character below U+0020, which only an escape writes.
    Character,
    /// One of `"`, `\`, `/`, `b`, `f`, `n`, `r`, `t` and `u` after `\`.
    Escape,
    /// A hexadecimal digit after `\u`.
    HexDigit,
    /// The escape of a low surrogate, after that of a high one.
    LowSurrogate,
    /// The escape of a character, or of a high surrogate before a low one.
    Scalar,
    /// A string in UTF-8.
    Utf8,
    /// A value that the name of the member has.
    Fitting,
    /// Nothing but white space after the object.
    End,
}

/// Why a line isn't a request. A number counts the bytes from its start, or those that are left.
#[derive(Drop)]
pub enum Fault {
    /// This is expected there.
    Expected(Wanted, usize),
    /// The name there is neither `in`, `out` nor `index`, nor that of an option.
    Unknown(String, usize),
    /// Two members have this name.
    Twice(String),
}

impl Fault {
    /// With the bytes from the start of a line in place of those that are left.
    pub fn from_start(self, line: &[u8]) -> Fault
        ensures { fault_view result ≡ from_start line.now (fault_view self) }
    {
        match self {
            Fault::Expected(wanted, left) => {
                Fault::Expected(wanted, line.len().saturating_sub(left))
            }
            Fault::Unknown(name, left) => Fault::Unknown(name, line.len().saturating_sub(left)),
            Fault::Twice(name) => Fault::Twice(name),
        }
    }
}

impl fmt::Display for Wanted {
    fn fmt<W: fmt::Write>(&self, f: &mut fmt::Formatter<W>) -> fmt::Result {
        f.write_str(match self {
            Wanted::Object => "{",
            Wanted::Name => "the name of a member, in quotation marks",
            Wanted::Colon => ":",
            Wanted::Value => "a string, a number, true, false, null or an array",
            Wanted::Item => "a string or a number",
            Wanted::CommaOrBrace => ", or }",
            Wanted::CommaOrBracket => ", or ]",
            Wanted::Quote => "a quotation mark at the end of the string",
            Wanted::Character => "an escape in place of a control character",
            Wanted::Escape => "a letter of an escape",
            Wanted::HexDigit => "a hexadecimal digit",
            Wanted::LowSurrogate => "the escape of a low surrogate",
            Wanted::Scalar => "the escape of a character",
            Wanted::Utf8 => "a string in UTF-8",
            Wanted::Fitting => "a value that this member may have",
            Wanted::End => "the end of the line",
        })
    }
}

impl fmt::Display for Fault {
    fn fmt<W: fmt::Write>(&self, f: &mut fmt::Formatter<W>) -> fmt::Result {
        match self {
            Fault::Expected(wanted, at) => write!(f, "expected after {at} bytes: {wanted}"),
            Fault::Unknown(name, at) => write!(
                f,
                "no member has the name after {at} bytes: {}",
                Plain(name)
            ),
            Fault::Twice(name) => write!(f, "two members have the name {}", Plain(name)),
        }
    }
}

/// Why a line wasn't read.
#[derive(Drop)]
pub enum Unread {
    /// A request for memory was refused.
    OutOfMemory,
    /// It isn't a request.
    Fault(Fault),
}

impl From<AllocError> for Unread {
    ghost use Rattle.std.specs.Prelude.{◌≡◌};
    ghost use Rattle.subset_batch.specs.declared.fault.Unread.TheVariants.{OutOfMemory};

    ghost from_gives = { λ _ e. e ≡ OutOfMemory };

    fn from(_error: AllocError) -> Unread {
        Unread::OutOfMemory
    }
}

impl<T: Drop> From<AllocFailed<T>> for Unread {
    ghost use Rattle.std.specs.Prelude.{◌≡◌};
    ghost use Rattle.subset_batch.specs.declared.fault.Unread.TheVariants.{OutOfMemory};

    ghost from_gives = { λ _ e. e ≡ OutOfMemory };

    fn from(_error: AllocFailed<T>) -> Unread {
        Unread::OutOfMemory
    }
}

/// What is expected before these bytes.
pub fn missing(wanted: Wanted, bytes: &[u8]) -> Unread
    ensures { result ≡ Unread.Fault (Fault.Expected wanted (length bytes.now)) }
{
    Unread::Fault(Fault::Expected(wanted, bytes.len()))
}
