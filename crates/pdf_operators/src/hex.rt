//! Texts as hexadecimal digits of UTF-16 (Unicode, 3.9, "Unicode Encoding Forms").

ghost use Rattle.std.specs.Prelude.{◌≡◌, ◌<◌, ◌+◌, ◌/◌, ◌%◌, ◌++◌, All, IfErr, OnOk};
ghost use Rattle.subsetter_base.specs.declared.error.Error.TheVariants.{OutOfMemory};
ghost use Rattle.subsetter_base.specs.Texts.{utf16};
ghost use Rattle.pdf_text.specs.Cmaps.Cmap.{word, words};
ghost use Rattle.pdf_operators.specs.Operators.{units_of};

use pdf_text::write_word;
use subsetter_base::Error;

/// Writes a character above U+FFFF as a high surrogate and a low one.
#[tactic(auto, using(pdf_text::proofs::Pieces::two_written))]
fn write_pair(text: &mut Vec<u8>, above: u32) -> Result<(), Error>
    requires { above < 1048576 }
    ensures ok { OnOk result (text.new.items ≡ text.old.items ++ (word (55296 + above / 1024) ++ word (56320 + above % 1024))) }
    ensures err { IfErr result (λ e. e ≡ OutOfMemory) }
{
    write_word(text, (55296 + above / 1024) as u16)?;
    write_word(text, (56320 + above % 1024) as u16)
}

/// Writes a character.
fn write_character(text: &mut Vec<u8>, character: char) -> Result<(), Error>
    ensures ok { OnOk result (text.new.items ≡ text.old.items ++ words (utf16 character)) }
    ensures character { character < 1114112 }
    ensures err { IfErr result (λ e. e ≡ OutOfMemory) }
{
    let code = u32::from(character);
    if code < 65536 {
        return write_word(text, code as u16);
    }
    write_pair(text, code - 65536)
}

/// Writes a text.
pub fn write_characters(text: &mut Vec<u8>, characters: &[char]) -> Result<(), Error>
    ensures ok { OnOk result (text.new.items ≡ text.old.items ++ words (units_of characters.now)) }
    ensures characters { OnOk result (All (λ c. c < 1114112) characters.now) }
    ensures err { IfErr result (λ e. e ≡ OutOfMemory) }
{
    for character in characters {
        write_character(text, *character)?;
    }
    Ok(())
}
