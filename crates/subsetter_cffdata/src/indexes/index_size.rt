//! The count of an INDEX: two bytes, or four (Technical Note 5176, section 5 "INDEX Data").

ghost use Rattle.std.specs.Prelude.{◌≡◌, ℕ};
ghost use Rattle.subsetter_cffdata.specs.Bytes.{card};
ghost use Rattle.subsetter_cffdata.specs.Reading.{Takes};

use crate::reading;
use subsetter_base::read::Reader;

/// A count of entries.
pub trait IndexSize: Sized {
    /// How many bytes a count has.
    ghost width: { ℕ };

    /// The number that a count is.
    ghost value: { Self → ℕ };

    /// The count as a number.
    fn to_u32(self) -> u32
        ensures { result ≡ value self };

    /// Reads a count.
    fn read_count(r: &mut Reader<'_>) -> Option<Self>
        ensures value { Takes value result r.old r.new (card width) }
        ensures same { r.new.bytes ≡ r.old.bytes };
}

impl IndexSize for u16 {
    ghost width = { 2 };

    ghost value = { λ n. n };

    fn to_u32(self) -> u32 {
        u32::from(self)
    }

    fn read_count(r: &mut Reader<'_>) -> Option<Self> {
        reading::next_u16(r)
    }
}

impl IndexSize for u32 {
    ghost width = { 4 };

    ghost value = { λ n. n };

    fn to_u32(self) -> u32 {
        self
    }

    fn read_count(r: &mut Reader<'_>) -> Option<Self> {
        reading::next_u32(r)
    }
}
