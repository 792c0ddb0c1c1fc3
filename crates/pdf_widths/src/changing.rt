//! A charstring with another width.

ghost use Rattle.std.specs.Prelude.{◌≡◌, ◌++◌, IfOk, IfErr};
ghost use Rattle.std.specs.Option.{option_map};
ghost use Rattle.subsetter_base.specs.declared.error.Error.TheVariants.{OutOfMemory};
ghost use Rattle.pdf_widths.specs.Change.{advance_of, change_of, change_by, difference, has_room, is_advance, short, text, wanted, width_text};
ghost use Rattle.pdf_widths.specs.View.{change_view, opening_view};

use crate::defaults::Defaults;
use crate::opening::{Opening, opening_of};
use std::alloc::Global;
use subsetter_base::Error;
use subsetter_cffdata::numerals::charstring_number::CharStringNumber;

/// A charstring with another width.
#[derive(Clone, Copy)]
pub struct Change<'a> {
    pub width: Option<CharStringNumber>,
    /// What is after the old width.
    pub body: &'a [u8],
}

/// The advance that a width says, in the font's units; none where a number isn't whole.
fn advance_of(defaults: Defaults, width: Option<CharStringNumber>) -> Option<i64>
    ensures { result ≡ advance_of defaults width }
{
    match width {
        None => Some(i64::from(defaults.default?)),
        Some(number) => {
            let whole = number.whole()?;
            Some(i64::from(defaults.nominal?) + i64::from(whole))
        }
    }
}

/// Whether an advance is this one.
fn is_advance(said: Option<i64>, advance: u16) -> bool
    ensures { result ≡ is_advance said advance }
{
    match said {
        Some(said) => said == i64::from(advance),
        None => false,
    }
}

/// A whole number of 16 bits, as a charstring has it.
fn short(value: i64) -> Option<CharStringNumber>
    ensures { result ≡ short value }
{
    if -32768 <= value && value <= 32767 {
        return Some(CharStringNumber::Integer(value as i16));
    }
    None
}

/// The difference of an advance from nominalWidthX.
fn difference(nominal: Option<i32>, advance: u16) -> Option<CharStringNumber>
    ensures { result ≡ difference nominal advance }
{
    short(i64::from(advance) - i64::from(nominal?))
}

/// The width that says an advance; none where no number does.
fn wanted(defaults: Defaults, advance: u16) -> Option<Option<CharStringNumber>>
    ensures { result ≡ wanted defaults advance }
{
    if is_advance(advance_of(defaults, None), advance) {
        return Some(None);
    }
    let number = difference(defaults.nominal, advance)?;
    Some(Some(number))
}

/// Whether the stack has room for a width besides `operands` operands.
fn has_room(width: Option<CharStringNumber>, operands: usize) -> bool
    ensures { result ≡ has_room width operands }
{
    match width {
        None => true,
        Some(_) => operands < 48,
    }
}

/// What a charstring that begins so becomes.
fn change_by<'a>(defaults: Defaults, advance: u16, opening: Opening<'a>) -> Option<Change<'a>>
    ensures { option_map change_view result ≡ change_by defaults advance (opening_view opening.entry) }
{
    if is_advance(advance_of(defaults, opening.width), advance) {
        return None;
    }
    let width = wanted(defaults, advance)?;
    if !has_room(width, opening.operands) {
        return None;
    }
    Some(Change {
        width,
        body: opening.body,
    })
}

/// What a charstring becomes whose glyph has this advance; none where it stays as it is.
#[tactic(auto, unfolding(crate::specs::Change::change_of))]
pub fn change_of(defaults: Defaults, advance: u16, charstring: &[u8]) -> Option<Change<'_>>
    ensures { option_map change_view result ≡ change_of defaults advance charstring.now }
{
    change_by(defaults, advance, opening_of(charstring)?)
}

/// Its bytes.
pub fn text(alloc: Global, change: &Change<'_>) -> Result<Vec<u8>, Error>
    ensures ok { IfOk result (λ v. v.items ≡ text (change_view change.now)) }
    ensures err { IfErr result (λ e. e ≡ OutOfMemory) }
{
    let mut bytes = Vec::new(alloc);
    if let Some(number) = change.width {
        number.append(&mut bytes)?;
    }
    bytes.extend_from_slice(change.body)?;
    Ok(bytes)
}
