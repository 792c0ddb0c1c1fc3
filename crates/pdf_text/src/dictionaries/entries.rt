//! The entries of a dictionary (ISO 32000-1, 7.3.7), and references to objects (7.3.10).

ghost use Rattle.std.specs.Prelude.{◌≡◌, ◌++◌, IfErr, OnOk, codes, decimal};
ghost use Rattle.std.specs.Fmt.{signed_decimal};
ghost use Rattle.subsetter_base.specs.declared.error.Error.TheVariants.{OutOfMemory};
ghost use Rattle.pdf_text.specs.Dictionaries.Entries.{reference, array, entry};

use crate::cmaps::lines::write_count;
use crate::numbers::{write_integer, write_integers};
use subsetter_base::Error;

/// Writes an entry: a key, and the text of its value.
#[tactic(auto, using(crate::proofs::Written::five_written))]
pub(crate) fn write_entry(text: &mut Vec<u8>, key: &[u8], value: &[u8]) -> Result<(), Error>
    ensures ok { OnOk result (text.new.items ≡ text.old.items ++ entry key.now value.now) }
    ensures err { IfErr result (λ e. e ≡ OutOfMemory) }
{
    text.extend_from_slice(b"/")?;
    text.extend_from_slice(key)?;
    text.extend_from_slice(b" ")?;
    text.extend_from_slice(value)?;
    text.extend_from_slice(b" ")?;
    Ok(())
}

/// Writes an entry whose value is a size.
#[tactic(auto, using(crate::proofs::Written::five_written))]
pub fn write_size(text: &mut Vec<u8>, key: &[u8], size: usize) -> Result<(), Error>
    ensures ok { OnOk result (text.new.items ≡ text.old.items ++ entry key.now (decimal size)) }
    ensures err { IfErr result (λ e. e ≡ OutOfMemory) }
{
    text.extend_from_slice(b"/")?;
    text.extend_from_slice(key)?;
    text.extend_from_slice(b" ")?;
    write_count(text, size)?;
    text.extend_from_slice(b" ")?;
    Ok(())
}

/// Writes an entry whose value is a number.
pub(crate) fn write_number(text: &mut Vec<u8>, key: &[u8], n: u32) -> Result<(), Error>
    ensures ok { OnOk result (text.new.items ≡ text.old.items ++ entry key.now (decimal n)) }
    ensures err { IfErr result (λ e. e ≡ OutOfMemory) }
{
    write_size(text, key, n as usize)
}

/// Writes an entry whose value is an integer.
#[tactic(auto, using(crate::proofs::Written::five_written))]
pub(crate) fn write_signed(text: &mut Vec<u8>, key: &[u8], z: i32) -> Result<(), Error>
    ensures ok { OnOk result (text.new.items ≡ text.old.items ++ entry key.now (signed_decimal z)) }
    ensures err { IfErr result (λ e. e ≡ OutOfMemory) }
{
    text.extend_from_slice(b"/")?;
    text.extend_from_slice(key)?;
    text.extend_from_slice(b" ")?;
    write_integer(text, z)?;
    text.extend_from_slice(b" ")?;
    Ok(())
}

/// Writes a reference to an object.
#[tactic(auto, using(crate::proofs::Pieces::two_written))]
pub(crate) fn write_reference_to(text: &mut Vec<u8>, n: u32) -> Result<(), Error>
    ensures ok { OnOk result (text.new.items ≡ text.old.items ++ reference n) }
    ensures err { IfErr result (λ e. e ≡ OutOfMemory) }
{
    write_count(text, n as usize)?;
    text.extend_from_slice(b" 0 R")?;
    Ok(())
}

/// Writes an entry whose value is a reference.
#[tactic(auto, using(crate::proofs::Written::five_written))]
pub(crate) fn write_reference(text: &mut Vec<u8>, key: &[u8], n: u32) -> Result<(), Error>
    ensures ok { OnOk result (text.new.items ≡ text.old.items ++ entry key.now (reference n)) }
    ensures err { IfErr result (λ e. e ≡ OutOfMemory) }
{
    text.extend_from_slice(b"/")?;
    text.extend_from_slice(key)?;
    text.extend_from_slice(b" ")?;
    write_reference_to(text, n)?;
    text.extend_from_slice(b" ")?;
    Ok(())
}

/// Writes an entry whose value is a name.
#[tactic(auto, using(crate::proofs::Written::five_written))]
pub(crate) fn write_name(text: &mut Vec<u8>, key: &[u8], name: &[u8]) -> Result<(), Error>
    ensures ok { OnOk result (text.new.items ≡ text.old.items ++ entry key.now (codes "/" ++ name.now)) }
    ensures err { IfErr result (λ e. e ≡ OutOfMemory) }
{
    text.extend_from_slice(b"/")?;
    text.extend_from_slice(key)?;
    text.extend_from_slice(b" /")?;
    text.extend_from_slice(name)?;
    text.extend_from_slice(b" ")?;
    Ok(())
}

/// Writes integers in brackets.
#[tactic(auto, using(crate::proofs::Written::three_written))]
fn write_array(text: &mut Vec<u8>, numbers: &[i32]) -> Result<(), Error>
    ensures ok { OnOk result (text.new.items ≡ text.old.items ++ array numbers.now) }
    ensures err { IfErr result (λ e. e ≡ OutOfMemory) }
{
    text.extend_from_slice(b"[")?;
    write_integers(text, numbers)?;
    text.extend_from_slice(b"]")?;
    Ok(())
}

/// Writes an entry whose value is an array of integers.
#[tactic(auto, using(crate::proofs::Written::five_written))]
pub(crate) fn write_numbers(text: &mut Vec<u8>, key: &[u8], numbers: &[i32]) -> Result<(), Error>
    ensures ok { OnOk result (text.new.items ≡ text.old.items ++ entry key.now (array numbers.now)) }
    ensures err { IfErr result (λ e. e ≡ OutOfMemory) }
{
    text.extend_from_slice(b"/")?;
    text.extend_from_slice(key)?;
    text.extend_from_slice(b" ")?;
    write_array(text, numbers)?;
    text.extend_from_slice(b" ")?;
    Ok(())
}
