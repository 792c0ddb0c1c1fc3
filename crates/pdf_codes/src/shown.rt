//! The glyphs in use, as a caller has them.

ghost use Rattle.std.specs.Prelude.{◌≡◌, ◌≤◌, length, map, IfOk, IfErr};
ghost use Rattle.subsetter_base.specs.declared.error.Error.TheVariants.{OutOfMemory};
ghost use Rattle.pdf_codes.specs.Codes.{glyphs_of, used_of};
ghost use Rattle.pdf_codes.specs.Shown.{all_units, has_long_text, use_of, uses_of};
ghost use Rattle.pdf_codes.specs.Units.{units_of};

use crate::codes::Entry;
use crate::units::{count_of, is_long, push_text};
use std::alloc::Global;
use subsetter_base::Error;

/// A glyph in use, and its text: none, a character, or several (a ligature).
#[derive(Clone, Copy)]
pub struct Shown<'a> {
    pub glyph: u16,
    pub text: &'a [char],
}

/// Whether a text has more than 256 UTF-16 units, which no ToUnicode CMap may have (512 bytes, ISO 32000-1, 9.10.3).
/// Characters that are left out don't count.
pub fn has_long_text(shown: &[Shown<'_>]) -> bool
    ensures { result ≡ has_long_text (uses_of shown.now) }
{
    for entry in shown {
        if is_long(entry.text) {
            return true;
        }
    }
    false
}

/// The glyphs in use, in order.
///
/// # Errors
///
/// `OutOfMemory` alone.
pub fn glyphs_of(alloc: Global, shown: &[Shown<'_>]) -> Result<Vec<u16>, Error>
    ensures ok { IfOk result (λ glyphs. glyphs.items ≡ glyphs_of (uses_of shown.now)) }
    ensures err { IfErr result (λ e. e ≡ OutOfMemory) }
{
    let mut glyphs = Vec::with_capacity(alloc, shown.len())?;
    for entry in shown {
        glyphs.push(entry.glyph)?;
    }
    Ok(glyphs)
}

/// The texts in UTF-16, one after the other.
#[tactic(auto, using(crate::proofs::CmapsLaws::Written::one_more))]
pub fn units_of_all(alloc: Global, shown: &[Shown<'_>]) -> Result<Vec<u16>, Error>
    ensures ok { IfOk result (λ units. units.items ≡ all_units (uses_of shown.now)) }
    ensures err { IfErr result (λ e. e ≡ OutOfMemory) }
{
    let mut units = Vec::with_capacity(alloc, shown.len())?;
    for entry in shown {
        push_text(&mut units, entry.text)?;
    }
    Ok(units)
}

/// A glyph in use with the units of its text.
fn entry_of<'a>(shown: Shown<'_>, units: &'a [u16]) -> Entry<'a>
    requires { units.now ≡ units_of shown.text.now }
    ensures { used_of result ≡ use_of shown.entry }
{
    Entry {
        glyph: shown.glyph,
        units,
    }
}

/// Each glyph in use with the units of its text.
#[tactic(auto, using(crate::proofs::ShownSteps::fits, crate::proofs::ShownSteps::text_here, crate::proofs::ShownSteps::texts_after))]
pub fn entries_of<'a>(
    alloc: Global,
    shown: &[Shown<'_>],
    units: &'a [u16],
) -> Result<Vec<Entry<'a>>, Error>
    requires { units.now ≡ all_units (uses_of shown.now) }
    ensures ok { IfOk result (λ entries. map used_of entries.items ≡ uses_of shown.now) }
    ensures err { IfErr result (λ e. e ≡ OutOfMemory) }
{
    let mut entries = Vec::with_capacity(alloc, shown.len())?;
    let mut rest = units;
    for entry in shown {
        let (text, following) = rest.split_at(count_of(entry.text, rest));
        entries.push(entry_of(*entry, text))?;
        rest = following;
    }
    Ok(entries)
}
