//! Numbers as text.

ghost use Rattle.std.specs.Prelude.{◌≡◌, ◌++◌, IfErr, OnOk, map, decimal};
ghost use Rattle.std.specs.List.{join_with_byte};
ghost use Rattle.subsetter_base.specs.declared.error.Error.TheVariants.{OutOfMemory};

use crate::error::Error;
use std::io::Write;

/// Writes a number in decimal.
pub fn write_decimal(text: &mut Vec<u8>, number: u32) -> Result<(), Error>
    ensures ok { OnOk result (text.new.items ≡ text.old.items ++ decimal number) }
    ensures err { IfErr result (λ e. e ≡ OutOfMemory) }
{
    write!(text, "{number}").map_err(|_| Error::OutOfMemory)
}

/// Writes numbers in decimal with one space between each two.
pub fn write_decimals(text: &mut Vec<u8>, numbers: &[u32]) -> Result<(), Error>
    ensures ok { OnOk result (text.new.items ≡ text.old.items ++ join_with_byte 32 (map decimal numbers.now)) }
    ensures err { IfErr result (λ e. e ≡ OutOfMemory) }
{
    let [first, rest @ ..] = numbers else {
        return Ok(());
    };
    write_decimal(text, *first)?;
    for number in rest {
        text.push(b' ')?;
        write_decimal(text, *number)?;
    }
    Ok(())
}
