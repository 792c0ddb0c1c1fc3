//! Bits of the fields of a table.

ghost use Rattle.std.specs.Prelude.{◌≡◌, ◌<◌};
ghost use Rattle.pdf_values.specs.Fields.{has_bit};
ghost use Rattle.pdf_values.specs.Head.{sets_bit};

/// Whether a bit is set; bit 0 is the lowest.
pub fn has_bit(n: u16, place: u32) -> bool
    requires { place < 16 }
    ensures { result ≡ has_bit n place }
{
    (n >> place) % 2 == 1
}

/// Whether a field that is stated has a bit.
pub fn sets_bit(field: Option<u16>, place: u32) -> bool
    requires { place < 16 }
    ensures { result ≡ sets_bit field place }
{
    match field {
        Some(n) => has_bit(n, place),
        None => false,
    }
}
