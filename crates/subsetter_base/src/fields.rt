//! Fields of a table that may be missing or cut.

ghost use Rattle.std.specs.Prelude.{◌≡◌};
ghost use Rattle.std.specs.Option.{option_copied, option_map};
ghost use Rattle.std.specs.Int.{w32, cast_signed};
ghost use Rattle.subsetter_base.specs.Bytes.{field, signed_field};

use crate::read::Reader;

/// The byte at an offset of a table, if the table has it.
pub fn byte_in(table: Option<&[u8]>, at: usize) -> Option<u8>
    ensures { result ≡ field (option_copied table.entry) at 1 }
{
    let bytes = table?;
    Reader::new_at(bytes, at).read::<u8>()
}

/// The number of 16 bits at an offset of a table, if the table has it.
pub fn number_in(table: Option<&[u8]>, at: usize) -> Option<u16>
    ensures { result ≡ field (option_copied table.entry) at 2 }
{
    let bytes = table?;
    Reader::new_at(bytes, at).read::<u16>()
}

/// The number of 32 bits at an offset of a table, if the table has it.
pub fn long_in(table: Option<&[u8]>, at: usize) -> Option<u32>
    ensures { result ≡ field (option_copied table.entry) at 4 }
{
    let bytes = table?;
    Reader::new_at(bytes, at).read::<u32>()
}

/// The signed number of 16 bits at an offset of a table, if the table has it.
pub fn signed_in(table: Option<&[u8]>, at: usize) -> Option<i16>
    ensures { result ≡ signed_field (option_copied table.entry) at }
{
    let bytes = table?;
    Reader::new_at(bytes, at).read::<i16>()
}

/// The signed number of 32 bits at an offset of a table, if the table has it.
pub fn long_signed_in(table: Option<&[u8]>, at: usize) -> Option<i32>
    ensures { result ≡ option_map (cast_signed w32) (field (option_copied table.entry) at 4) }
{
    let bytes = table?;
    Reader::new_at(bytes, at).read::<i32>()
}
