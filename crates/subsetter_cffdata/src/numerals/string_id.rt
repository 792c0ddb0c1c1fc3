//! Numbers of strings (Technical Note 5176, section 10 "String INDEX").

ghost use Rattle.std.specs.Prelude.{◌≡◌, Some, nat_lt};
ghost use Rattle.std.specs.Int.{w16, to_be_bytes};
ghost use Rattle.subsetter_base.specs.Bytes.{be};

use subsetter_base::error::Error;
use subsetter_base::read::{Readable, Reader};
use subsetter_base::write::{Writeable, Writer};

/// The number of a string: a standard string, or from 391 on an entry of the String INDEX.
#[derive(Clone, Copy, PartialEq, Eq, PartialOrd, Ord, Hash, Debug)]
pub struct StringId(pub u16);

impl StringId {
    /// How many standard strings there are.
    pub const STANDARD_STRING_LEN: u16 = 391;

    /// It is the number of a standard string.
    pub fn is_standard_string(&self) -> bool
        ensures { result ≡ nat_lt self.now.0 391 }
    {
        self.0 < Self::STANDARD_STRING_LEN
    }
}

impl From<u16> for StringId {
    ghost from_gives = { λ n s. s.0 ≡ n };

    fn from(value: u16) -> StringId {
        StringId(value)
    }
}

impl Readable<'_> for StringId {
    const SIZE: usize = 2;

    ghost SIZE = { 2 };

    ghost value_of = { λ bytes. Some (record { 0 = be bytes }) };

    fn read(r: &mut Reader<'_>) -> Option<Self> {
        Some(StringId(r.read::<u16>()?))
    }
}

impl Writeable for StringId {
    ghost bytes_of = { λ s. to_be_bytes w16 s.0 };

    fn write(&self, w: &mut Writer) -> Result<(), Error> {
        w.write(&self.0)
    }
}
