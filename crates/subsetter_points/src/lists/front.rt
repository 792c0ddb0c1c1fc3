//! What bytes begin with, and the bytes after it.

ghost use Rattle.std.specs.Prelude.{◌≡◌};
ghost use Rattle.std.specs.Option.{option_map};
ghost use Rattle.subsetter_points.specs.Simple.{byte, word, after};

use subsetter_base::read::Reader;

/// A uint8, and the bytes after it.
pub fn read_byte(bytes: &[u8]) -> Option<(u8, &[u8])>
    ensures { option_map (λ p. (p.0, p.1.now)) result ≡ byte bytes.now }
{
    let n = Reader::new(bytes).read::<u8>()?;
    Some((n, &bytes[1..]))
}

/// A uint16, and the bytes after it.
pub fn read_word(bytes: &[u8]) -> Option<(u16, &[u8])>
    ensures { option_map (λ p. (p.0, p.1.now)) result ≡ word bytes.now }
{
    let n = Reader::new(bytes).read::<u16>()?;
    Some((n, &bytes[2..]))
}

/// The bytes after the first `size`, if these are there.
pub fn read_after(bytes: &[u8], size: usize) -> Option<&[u8]>
    ensures { option_map (λ p. p.now) result ≡ after size bytes.now }
{
    bytes.get(size..)
}
