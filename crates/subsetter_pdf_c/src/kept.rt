//! Lists that stay until C gives them back. An empty one takes no memory.

ghost use Rattle.std.specs.Prelude.{◌≡◌};

use pdf_text::StringRange;

/// Bytes.
pub fn kept_bytes(bytes: Vec<u8>) -> &'static [u8]
    ensures { result.now ≡ bytes.items }
{
    if bytes.is_empty() {
        return &[];
    }
    bytes.leak()
}

/// Where strings are.
pub fn kept_strings(strings: Vec<StringRange>) -> &'static [StringRange]
    ensures { result.now ≡ strings.items }
{
    if strings.is_empty() {
        return &[];
    }
    strings.leak()
}
