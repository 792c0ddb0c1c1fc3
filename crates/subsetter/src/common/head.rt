//! `head`, the font header (OpenType, "head").
//!
//! It says, among much else, in checksumAdjustment what the sum of the whole file lacks to a fixed number, and in
//! indexToLocFormat which format `loca` has. The new one is a copy in which these two are written anew.

ghost use Rattle.std.specs.Prelude.{◌≡◌, ◌≤◌, ◌+◌, ◌++◌, length, vec_capacity};
ghost use Rattle.std.specs.Option.{option_copied};
ghost use Rattle.subsetter_base.specs.Gives.{Gives};
ghost use Rattle.subsetter.specs.Common.Head.Written.{head_in};

use std::marker::Model;
use subsetter_base::Error;
use subsetter_sfnt::fields::head::{GLYPH_DATA_FORMAT, MAC_STYLE, X_MIN, write_head};

/// The new table: a copy of the source's with zeros in checksumAdjustment, until the sum of the file is known, and with
/// the format of the new `loca`.
#[derive(Drop)]
pub struct NewHead<'a> {
    source: &'a [u8],
    long: bool,
}

impl<'a> Model for NewHead<'a> {
    ghost use Rattle.std.specs.Prelude.{◌≤◌, ℕ, List, length};
    ghost use Rattle.subsetter.specs.Common.Head.Written.{head_bytes};

    ghost Value = { List ℕ };

    ghost view = { λ h. head_bytes h.long h.source.now };

    ghost invariant = { λ h. 52 ≤ length h.source.now };
}

impl<'a> NewHead<'a> {
    /// How many bytes it has.
    pub fn len(&self) -> usize
        ensures { result ≡ length self.now }
    {
        self.source.len()
    }

    /// Writes it.
    pub fn write(&self, out: &mut Vec<u8>)
        requires { length out.old.items + length self.now ≤ vec_capacity out.old }
        ensures items { out.new.items ≡ out.old.items ++ self.now }
        ensures capacity { vec_capacity out.old ≤ vec_capacity out.new }
    {
        let source = self.source;
        write_head(out, source, self.long, &source[X_MIN..MAC_STYLE]);
    }
}

/// `head` of a subset, where the source has it: with zeros in checksumAdjustment, and with the format of `loca`, which is
/// the short one in a font without `loca`. Under 52 bytes, where that format would be, it is `MalformedFont`.
pub fn subset<'a>(head: Option<&'a [u8]>, long: bool) -> Result<Option<NewHead<'a>>, Error>
    ensures { Gives (λ new. new) result (head_in (option_copied head.entry) long) }
{
    let Some(head) = head else {
        return Ok(None);
    };
    if head.len() < GLYPH_DATA_FORMAT {
        return Err(Error::MalformedFont);
    }
    Ok(Some(NewHead { source: head, long }))
}
