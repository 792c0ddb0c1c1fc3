//! Numbers of 16384ths (OpenType, "Data types": F2DOT14).

ghost use Rattle.std.specs.Prelude.{◌≡◌, Some};
ghost use Rattle.std.specs.Int.{w16, to_be_bytes};
ghost use Rattle.subsetter_base.specs.Bytes.{be};

use subsetter_base::Error;
use subsetter_base::read::{Readable, Reader};
use subsetter_base::write::{Writeable, Writer};

/// A number of 16384ths, as the scales of a component are. Its 16 bits are kept and never computed with.
#[derive(Clone, Copy, Debug, PartialEq, Eq)]
pub struct F2Dot14(pub u16);

impl Readable<'_> for F2Dot14 {
    const SIZE: usize = 2;

    ghost SIZE = { 2 };

    ghost value_of = { λ bytes. Some (record { 0 = be bytes }) };

    fn read(r: &mut Reader<'_>) -> Option<Self> {
        Some(F2Dot14(r.read::<u16>()?))
    }
}

impl Writeable for F2Dot14 {
    ghost bytes_of = { λ n. to_be_bytes w16 n.0 };

    fn write(&self, w: &mut Writer) -> Result<(), Error> {
        w.write(&self.0)
    }
}
