//! ToUnicode of a text.

ghost use Rattle.std.specs.Prelude.{◌≡◌, ◌≤◌, ◌<◌, ◌+◌, ◌/◌, ◌%◌, ◌∷◌, [], length, map, take, drop, IfOk, IfErr};
ghost use Rattle.subsetter_base.specs.Texts.{utf16};
ghost use Rattle.subsetter_base.specs.declared.error.Error.TheVariants.{OutOfMemory};
ghost use Rattle.pdf_codes.specs.Units.{is_left_out};
ghost use Rattle.pdf_text.specs.Cmaps.Cmap.{cmap_text};
ghost use Rattle.pdf_text.specs.View.{lines_view};
ghost use Rattle.pdf_runs.specs.declared.codes.Pair.{Pair};
ghost use Rattle.pdf_text_font.specs.Texts.{lines_of, said_by, two_units, units_by};

use pdf_runs::Pair;
use pdf_text::{Mapping, write_to_unicode};
use std::alloc::Global;
use subsetter_base::Error;

/// Word joiner, which has no ink and breaks no word.
const JOINER: char = '\u{2060}';

/// Whether a character is none that the text of a code may have.
fn is_left_out(character: char) -> bool
    ensures { result ≡ is_left_out character }
{
    character == '\0' || character == '\u{FEFF}' || character == '\u{FFFE}'
}

/// The character that a code says.
fn said_by(says: Option<char>) -> char
    ensures { result ≡ said_by says }
{
    match says {
        None => JOINER,
        Some(character) => {
            if is_left_out(character) {
                JOINER
            } else {
                character
            }
        }
    }
}

/// A high surrogate and a low one.
fn surrogates(above: u32) -> [u16; 2]
    requires { above < 1048576 }
    ensures { result ≡ (55296 + above / 1024) ∷ (56320 + above % 1024) ∷ [] }
{
    [(55296 + above / 1024) as u16, (56320 + above % 1024) as u16]
}

/// A character in UTF-16, in the first units.
fn encoded(character: char) -> [u16; 2]
    ensures { result ≡ two_units character }
{
    let code = u32::from(character);
    if code < 65536 {
        return [code as u16, 0];
    }
    surrogates(code - 65536)
}

/// How many units a character has in UTF-16.
fn unit_count(character: char) -> usize
    ensures exact { result ≡ length (utf16 character) }
    ensures few { result ≤ 2 }
{
    if u32::from(character) < 65536 { 1 } else { 2 }
}

/// What each code says, in UTF-16, in the first units.
fn units_of(alloc: Global, pairs: &[Pair]) -> Result<Vec<[u16; 2]>, Error>
    ensures ok { IfOk result (λ units. units.items ≡ map units_by pairs.now) }
    ensures err { IfErr result (λ e. e ≡ OutOfMemory) }
{
    let mut units = Vec::with_capacity(alloc, pairs.len())?;
    for pair in pairs {
        units.push(encoded(said_by(pair.says)))?;
    }
    Ok(units)
}

/// A line for each code above 0.
fn lines_of<'a>(
    alloc: Global,
    pairs: &[Pair],
    units: &'a [[u16; 2]],
) -> Result<Vec<Mapping<'a>>, Error>
    requires few { length pairs.now ≤ 65536 }
    requires units { units.now ≡ map units_by pairs.now }
    ensures ok { IfOk result (λ lines. lines_view lines.items ≡ lines_of pairs.now) }
    ensures err { IfErr result (λ e. e ≡ OutOfMemory) }
{
    let mut lines = Vec::with_capacity(alloc, pairs.len())?;
    for place in 1..pairs.len() {
        let count = unit_count(said_by(pairs[place].says));
        lines.push(Mapping {
            code: place as u16,
            units: &units[place][..count],
        })?;
    }
    Ok(lines)
}

/// The ToUnicode CMap: a line for each code above 0.
///
/// # Errors
///
/// `OutOfMemory` alone.
pub fn to_unicode(alloc: Global, pairs: &[Pair]) -> Result<Vec<u8>, Error>
    requires { length pairs.now ≤ 65536 }
    ensures ok { IfOk result (λ text. text.items ≡ cmap_text (lines_of pairs.now)) }
    ensures err { IfErr result (λ e. e ≡ OutOfMemory) }
{
    let units = units_of(alloc, pairs)?;
    let lines = lines_of(alloc, pairs, &units)?;
    write_to_unicode(alloc, &lines)
}
