//! Text in UTF-16.

ghost use Rattle.std.specs.Prelude.{◌≡◌, ◌≤◌, ◌<◌, ◌+◌, ◌/◌, ◌%◌, ◌++◌, ◌∷◌, [], length, IfOk, IfErr, OnOk};
ghost use Rattle.subsetter_base.specs.declared.error.Error.TheVariants.{OutOfMemory};
ghost use Rattle.pdf_codes.specs.Units.{is_left_out, is_long_text, units_of, units_of_character};
ghost use Rattle.subsetter_base.specs.Texts.{utf16};

use subsetter_base::Error;

/// Whether a character is none that the text of a code may have.
fn is_left_out(character: char) -> bool
    ensures { result ≡ is_left_out character }
{
    character == '\0' || character == '\u{FEFF}' || character == '\u{FFFE}'
}

/// Writes a character above U+FFFF as a high surrogate and a low one.
fn push_pair(units: &mut Vec<u16>, above: u32) -> Result<(), Error>
    requires { above < 1048576 }
    ensures ok { OnOk result (units.new.items ≡ units.old.items ++ ((55296 + above / 1024) ∷ (56320 + above % 1024) ∷ [])) }
    ensures err { IfErr result (λ e. e ≡ OutOfMemory) }
{
    let high = (55296 + above / 1024) as u16;
    let low = (56320 + above % 1024) as u16;
    units.extend_from_slice(&[high, low])?;
    Ok(())
}

/// Writes a character in UTF-16.
fn push_utf16(units: &mut Vec<u16>, character: char) -> Result<(), Error>
    ensures ok { OnOk result (units.new.items ≡ units.old.items ++ utf16 character) }
    ensures err { IfErr result (λ e. e ≡ OutOfMemory) }
{
    let code = u32::from(character);
    if code < 65536 {
        units.push(code as u16)?;
        return Ok(());
    }
    push_pair(units, code - 65536)
}

/// Writes a character, unless it is left out.
fn push_character(units: &mut Vec<u16>, character: char) -> Result<(), Error>
    ensures ok { OnOk result (units.new.items ≡ units.old.items ++ units_of_character character) }
    ensures err { IfErr result (λ e. e ≡ OutOfMemory) }
{
    if is_left_out(character) {
        return Ok(());
    }
    push_utf16(units, character)
}

/// Writes a text in UTF-16, without U+0000, U+FEFF and U+FFFE.
#[tactic(auto, using(crate::proofs::CmapsLaws::Written::one_more))]
pub fn push_text(units: &mut Vec<u16>, text: &[char]) -> Result<(), Error>
    ensures ok { OnOk result (units.new.items ≡ units.old.items ++ units_of text.now) }
    ensures err { IfErr result (λ e. e ≡ OutOfMemory) }
{
    for character in text {
        push_character(units, *character)?;
    }
    Ok(())
}

/// How many units a character has in the text of a code.
fn unit_count(character: char) -> usize
    ensures exact { result ≡ length (units_of_character character) }
    ensures few { result ≤ 2 }
{
    if is_left_out(character) {
        return 0;
    }
    if u32::from(character) < 65536 { 1 } else { 2 }
}

/// How many units a text has, with which these begin.
#[tactic(auto, using(crate::proofs::CmapsLaws::Written::count_more))]
pub fn count_of(text: &[char], units: &[u16]) -> usize
    requires { length (units_of text.now) ≤ length units.now }
    ensures { result ≡ length (units_of text.now) }
{
    let mut count = 0;
    for character in text {
        count += unit_count(*character);
    }
    count
}

/// Whether a text has more than 256 units.
#[tactic(auto, using(crate::proofs::CmapsLaws::Written::count_more))]
pub fn is_long(text: &[char]) -> bool
    ensures { result ≡ is_long_text (units_of text.now) }
{
    let mut count = 0;
    for character in text {
        count += unit_count(*character);
        if count > 256 {
            return true;
        }
    }
    false
}
