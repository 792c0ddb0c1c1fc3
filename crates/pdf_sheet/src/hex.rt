//! Hexadecimal strings, as PDF writes them (ISO 32000-1, 7.3).

ghost use Rattle.std.specs.Prelude.{◌≡◌, ◌<◌, ◌+◌, ◌/◌, ◌%◌, ◌++◌, ◌∷◌, [], IfErr, OnOk};
ghost use Rattle.subsetter_base.specs.declared.error.Error.TheVariants.{OutOfMemory};
ghost use Rattle.pdf_text.specs.Cmaps.Cmap.{word, words, hex_string};
ghost use Rattle.pdf_sheet.specs.Units.{units_of};
ghost use Rattle.subsetter_base.specs.Texts.{utf16};

use pdf_text::write_word;
use subsetter_base::Error;

/// Writes a character above U+FFFF as a high surrogate and a low one.
#[tactic(auto, using(pdf_text::proofs::Pieces::two_written))]
fn write_pair(text: &mut Vec<u8>, above: u32) -> Result<(), Error>
    requires { above < 1048576 }
    ensures ok { OnOk result (text.new.items ≡ text.old.items ++ (word (55296 + above / 1024) ++ word (56320 + above % 1024))) }
    ensures err { IfErr result (λ e. e ≡ OutOfMemory) }
{
    write_word(text, (55296 + above / 1024) as u16)?;
    write_word(text, (56320 + above % 1024) as u16)
}

/// Writes a character in UTF-16.
fn write_character(text: &mut Vec<u8>, character: char) -> Result<(), Error>
    ensures ok { OnOk result (text.new.items ≡ text.old.items ++ words (utf16 character)) }
    ensures err { IfErr result (λ e. e ≡ OutOfMemory) }
{
    let code = u32::from(character);
    if code < 65536 {
        return write_word(text, code as u16);
    }
    write_pair(text, code - 65536)
}

/// Writes a text in UTF-16.
pub fn write_characters(text: &mut Vec<u8>, characters: &[char]) -> Result<(), Error>
    ensures ok { OnOk result (text.new.items ≡ text.old.items ++ words (units_of characters.now)) }
    ensures err { IfErr result (λ e. e ≡ OutOfMemory) }
{
    for character in characters {
        write_character(text, *character)?;
    }
    Ok(())
}

/// Writes a code as a hexadecimal string.
#[tactic(auto, using(pdf_text::proofs::Written::three_written))]
pub fn write_code_string(text: &mut Vec<u8>, code: u16) -> Result<(), Error>
    ensures ok { OnOk result (text.new.items ≡ text.old.items ++ hex_string (code ∷ [])) }
    ensures err { IfErr result (λ e. e ≡ OutOfMemory) }
{
    text.extend_from_slice(b"<")?;
    write_word(text, code)?;
    text.extend_from_slice(b">")?;
    Ok(())
}
