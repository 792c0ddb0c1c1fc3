//! How many bytes an offset of an INDEX takes (Technical Note 5176, section 3 "Data Types": OffSize).

ghost use Rattle.std.specs.Prelude.{◌≡◌, ◌<◌, ◌≤◌};
ghost use Rattle.subsetter_base.specs.Bytes.{be};
ghost use Rattle.subsetter_cffdata.specs.Indexes.OffsetSizes.{size_of, size_from};

use subsetter_base::read::{Readable, Reader};

/// How many bytes an offset takes.
#[derive(Clone, Copy, PartialEq, Eq, Debug)]
pub enum OffsetSize {
    /// One byte.
    Size1,
    /// Two bytes.
    Size2,
    /// Three bytes.
    Size3,
    /// Four bytes.
    Size4,
}

impl OffsetSize {
    /// The number of bytes.
    pub fn to_u32(self) -> u32
        ensures value { result ≡ size_of self }
        ensures some { 0 < result }
        ensures few { result ≤ 4 }
    {
        match self {
            OffsetSize::Size1 => 1,
            OffsetSize::Size2 => 2,
            OffsetSize::Size3 => 3,
            OffsetSize::Size4 => 4,
        }
    }

    /// The number of bytes.
    pub fn to_usize(self) -> usize
        ensures value { result ≡ size_of self }
        ensures some { 0 < result }
        ensures few { result ≤ 4 }
    {
        self.to_u32() as usize
    }

    /// The size that a byte means.
    pub fn from_byte(b: u8) -> Option<OffsetSize>
        ensures { result ≡ size_from b }
    {
        match b {
            1 => Some(OffsetSize::Size1),
            2 => Some(OffsetSize::Size2),
            3 => Some(OffsetSize::Size3),
            4 => Some(OffsetSize::Size4),
            _ => None,
        }
    }
}

impl Readable<'_> for OffsetSize {
    const SIZE: usize = 1;

    ghost SIZE = { 1 };

    ghost value_of = { λ bytes. size_from (be bytes) };

    fn read(r: &mut Reader<'_>) -> Option<Self> {
        let size = OffsetSize::from_byte(r.peak::<u8>()?)?;
        r.skip_bytes(1);
        Some(size)
    }
}
