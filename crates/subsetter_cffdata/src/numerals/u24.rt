//! Unsigned numbers of three bytes.

ghost use Rattle.std.specs.Prelude.{◌≡◌, ◌%◌, Some};
ghost use Rattle.std.specs.Int.{bytes_high_first};
ghost use Rattle.subsetter_base.specs.Bytes.{be};

use subsetter_base::error::Error;
use subsetter_base::numbers::number_of;
use subsetter_base::read::{Readable, Reader};
use subsetter_base::write::{Writeable, Writer};

/// A number whose low three bytes are written.
#[derive(Clone, Copy, PartialEq, Eq, Debug)]
pub struct U24(pub u32);

impl U24 {
    /// The greatest number of three bytes.
    pub const MAX: u32 = 16777215;
}

impl Readable<'_> for U24 {
    const SIZE: usize = 3;

    ghost SIZE = { 3 };

    ghost value_of = { λ bytes. Some (record { 0 = be bytes }) };

    fn read(r: &mut Reader<'_>) -> Option<Self> {
        Some(U24(number_of(r.read_bytes(3)?)))
    }
}

impl Writeable for U24 {
    ghost bytes_of = { λ n. bytes_high_first 3 n.0 };

    fn write(&self, w: &mut Writer) -> Result<(), Error> {
        let bytes = self.0.to_be_bytes();
        w.extend(&bytes[1..])
    }
}
