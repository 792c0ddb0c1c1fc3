//! The version of the library.

ghost use Rattle.std.specs.Prelude.{◌≡◌};
ghost use Rattle.subsetter_base.specs.Bytes.{be};
ghost use Rattle.subsetter_c.specs.Version.{version};

/// The four numbers of the version in one, eight bits each.
pub fn version() -> u32
    ensures { result ≡ be version }
{
    u32::from_be_bytes([1, 0, 0, 0])
}
