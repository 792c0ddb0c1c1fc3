//! Parts of the lines of CMaps.

ghost use Rattle.std.specs.Prelude.{◌≡◌, ◌<◌, ◌++◌, IfErr, OnOk, decimal, min};
ghost use Rattle.subsetter_base.specs.declared.error.Error.TheVariants.{OutOfMemory};
ghost use Rattle.pdf_text.specs.Cmaps.Cmap.{digit, word, words, hex_string};

use std::io::Write;
use subsetter_base::Error;

/// A digit of base 16.
fn digit(n: u16) -> u8
    requires { n < 16 }
    ensures { result ≡ digit n }
{
    if n < 10 { 48 + n as u8 } else { 55 + n as u8 }
}

/// A number as four digits of base 16.
pub fn digits(n: u16) -> [u8; 4]
    ensures { result ≡ word n }
{
    [
        digit(n / 4096 % 16),
        digit(n / 256 % 16),
        digit(n / 16 % 16),
        digit(n % 16),
    ]
}

/// Writes four digits of base 16.
pub fn write_word(text: &mut Vec<u8>, n: u16) -> Result<(), Error>
    ensures ok { OnOk result (text.new.items ≡ text.old.items ++ word n) }
    ensures err { IfErr result (λ e. e ≡ OutOfMemory) }
{
    text.extend_from_slice(&digits(n))?;
    Ok(())
}

/// Writes four digits for each unit.
#[tactic(auto, using(crate::proofs::Written::one_more_written))]
fn write_words(text: &mut Vec<u8>, units: &[u16]) -> Result<(), Error>
    ensures ok { OnOk result (text.new.items ≡ text.old.items ++ words units.now) }
    ensures err { IfErr result (λ e. e ≡ OutOfMemory) }
{
    for unit in units {
        write_word(text, *unit)?;
    }
    Ok(())
}

/// Writes units as a hexadecimal string.
#[tactic(auto, using(crate::proofs::Written::three_written))]
pub fn write_hex(text: &mut Vec<u8>, units: &[u16]) -> Result<(), Error>
    ensures ok { OnOk result (text.new.items ≡ text.old.items ++ hex_string units.now) }
    ensures err { IfErr result (λ e. e ≡ OutOfMemory) }
{
    text.extend_from_slice(b"<")?;
    write_words(text, units)?;
    text.extend_from_slice(b">")?;
    Ok(())
}

/// Writes how many lines a block has.
pub fn write_count(text: &mut Vec<u8>, count: usize) -> Result<(), Error>
    ensures ok { OnOk result (text.new.items ≡ text.old.items ++ decimal count) }
    ensures err { IfErr result (λ e. e ≡ OutOfMemory) }
{
    write!(text, "{count}").map_err(|_| Error::OutOfMemory)
}

/// How many of `count` lines the next block has.
pub fn block_size(count: usize) -> usize
    ensures { result ≡ min count 100 }
{
    count.min(100)
}
