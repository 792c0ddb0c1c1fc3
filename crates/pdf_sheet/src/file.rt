//! A file of objects (ISO 32000-1, 7.5).

ghost use Rattle.std.specs.Prelude.{◌≡◌, ◌≤◌, ◌<◌, ◌+◌, ◌*◌, ◌/◌, ◌%◌, ◌^◌, ◌++◌, ◌∷◌, ◌⊎◌, [], All, IfErr, IfOk, OnOk, codes, decimal, length, map};
ghost use Rattle.std.specs.List.{concat};
ghost use Rattle.subsetter_base.specs.declared.error.Error.TheVariants.{OutOfMemory, OverflowError};
ghost use Rattle.pdf_text.specs.Objects.{object_text, objects_from, offsets_from};
ghost use Rattle.pdf_sheet.specs.File.{header, body_of, offsets_of, digits, row, rows, table_front, trailer, table_and_trailer};
ghost use Rattle.pdf_sheet.specs.View.{texts_view};

use pdf_text::write_count;
use std::alloc::Global;
use subsetter_base::Error;

/// Header and objects of a file.
#[derive(Drop)]
pub struct Body {
    pub text: Vec<u8>,
    /// Where each object begins.
    pub offsets: Vec<usize>,
}

// ---- objects

/// Writes an object with its number.
#[tactic(auto, using(pdf_text::proofs::Written::four_written))]
fn write_object(text: &mut Vec<u8>, number: usize, value: &[u8]) -> Result<(), Error>
    ensures ok { OnOk result (text.new.items ≡ text.old.items ++ object_text number value.now) }
    ensures err { IfErr result (λ e. e ≡ OutOfMemory) }
{
    write_count(text, number)?;
    text.extend_from_slice(b" 0 obj\n")?;
    text.extend_from_slice(value)?;
    text.extend_from_slice(b"\nendobj\n")?;
    Ok(())
}

/// Header, and objects with these values, from number 1 on.
pub fn body_of(alloc: Global, values: &[Vec<u8>]) -> Result<Body, Error>
    ensures text { IfOk result (λ body. body.text.items ≡ body_of (texts_view values.now)) }
    ensures offsets { IfOk result (λ body. body.offsets.items ≡ offsets_of (texts_view values.now)) }
    ensures err { IfErr result (λ e. e ≡ OutOfMemory) }
{
    let mut text = Vec::from_slice(alloc, b"%PDF-1.7\n%\xE2\xE3\xCF\xD3\n")?;
    let mut offsets = Vec::new(alloc);
    let mut number = 1;
    for value in values {
        offsets.push(text.len())?;
        write_object(&mut text, number, value)?;
        number += 1;
    }
    Ok(Body { text, offsets })
}

/// Puts offsets after others, each increased by `start`, the number of bytes before them.
fn push_offsets(offsets: &mut Vec<usize>, start: usize, more: &[usize]) -> Result<(), Error>
    requires { All (λ o. start + o < 2 ^ 64) more.now }
    ensures ok { OnOk result (offsets.new.items ≡ offsets.old.items ++ map (λ o. start + o) more.now) }
    ensures err { IfErr result (λ e. e ≡ OutOfMemory) }
{
    for offset in more {
        offsets.push(start + *offset)?;
    }
    Ok(())
}

/// Puts objects after others, with the offset of each in their text.
pub fn push_objects(body: &mut Body, text: &[u8], offsets: &[usize]) -> Result<(), Error>
    requires { All (λ o. o ≤ length text.now) offsets.now }
    ensures text { OnOk result (body.new.text.items ≡ body.old.text.items ++ text.now) }
    ensures offsets { OnOk result (body.new.offsets.items ≡ body.old.offsets.items ++ map (λ o. length body.old.text.items + o) offsets.now) }
    ensures err { IfErr result (λ e. e ≡ OutOfMemory) }
{
    push_offsets(&mut body.offsets, body.text.len(), offsets)?;
    body.text.extend_from_slice(text)?;
    Ok(())
}

// ---- the table

/// The last digit of a number.
fn last_digit(n: usize) -> u8
    ensures { result ≡ 48 + n % 10 }
{
    48 + (n % 10) as u8
}

/// The last five digits of a number.
fn five_digits(n: usize) -> [u8; 5]
    ensures { result ≡ digits 5 n }
{
    let tens = n / 10;
    let hundreds = tens / 10;
    let thousands = hundreds / 10;
    let ten_thousands = thousands / 10;
    [
        last_digit(ten_thousands),
        last_digit(thousands),
        last_digit(hundreds),
        last_digit(tens),
        last_digit(n),
    ]
}

/// Writes an offset in ten digits.
fn write_offset(text: &mut Vec<u8>, offset: usize) -> Result<(), Error>
    ensures ok { OnOk result (text.new.items ≡ text.old.items ++ digits 10 offset) }
    ensures err { IfErr result (λ e. e ≡ OutOfMemory) }
{
    text.extend_from_slice(&five_digits(offset / 100_000))?;
    text.extend_from_slice(&five_digits(offset))?;
    Ok(())
}

/// Writes the entry of an object.
#[tactic(auto, using(pdf_text::proofs::Pieces::two_written))]
fn write_row(text: &mut Vec<u8>, offset: usize) -> Result<(), Error>
    ensures ok { OnOk result (text.new.items ≡ text.old.items ++ row offset) }
    ensures err { IfErr result (λ e. e ≡ OutOfMemory) }
{
    write_offset(text, offset)?;
    text.extend_from_slice(b" 00000 n \n")?;
    Ok(())
}

/// Writes the entries of objects.
fn write_rows(text: &mut Vec<u8>, offsets: &[usize]) -> Result<(), Error>
    ensures ok { OnOk result (text.new.items ≡ text.old.items ++ rows offsets.now) }
    ensures err { IfErr result (λ e. e ≡ OutOfMemory) }
{
    for offset in offsets {
        write_row(text, *offset)?;
    }
    Ok(())
}

/// Writes what comes before the entries of objects in use.
#[tactic(auto, using(pdf_text::proofs::Written::three_written))]
fn write_table_front(text: &mut Vec<u8>, size: usize) -> Result<(), Error>
    ensures ok { OnOk result (text.new.items ≡ text.old.items ++ table_front size) }
    ensures err { IfErr result (λ e. e ≡ OutOfMemory) }
{
    text.extend_from_slice(b"xref\n0 ")?;
    write_count(text, size)?;
    text.extend_from_slice(b"\n0000000000 65535 f \n")?;
    Ok(())
}

/// Writes the trailer.
fn write_trailer(text: &mut Vec<u8>, size: usize, start: usize) -> Result<(), Error>
    ensures ok { OnOk result (text.new.items ≡ text.old.items ++ trailer size start) }
    ensures err { IfErr result (λ e. e ≡ OutOfMemory) }
{
    text.extend_from_slice(b"trailer\n<< /Size ")?;
    write_count(text, size)?;
    text.extend_from_slice(b" /Root 1 0 R >>\nstartxref\n")?;
    write_count(text, start)?;
    text.extend_from_slice(b"\n%%EOF\n")?;
    Ok(())
}

/// Writes the table of objects that begin at these offsets, and the trailer.
pub fn write_table(text: &mut Vec<u8>, offsets: &[usize]) -> Result<(), Error>
    ensures ok { OnOk result (text.new.items ≡ text.old.items ++ table_and_trailer offsets.now (length text.old.items)) }
    ensures err { IfErr result (λ e. e ≡ OutOfMemory) }
{
    let start = text.len();
    let size = offsets.len() + 1;
    write_table_front(text, size)?;
    write_rows(text, offsets)?;
    write_trailer(text, size, start)?;
    Ok(())
}

/// Whether ten digits are enough for the offsets in `size` bytes.
pub fn checked(size: u64) -> Result<(), Error>
    ensures ok { OnOk result (size < 10000000000) }
    ensures err { IfErr result (λ e. (e ≡ OverflowError) × (10000000000 ≤ size)) }
{
    if size >= 10_000_000_000 {
        return Err(Error::OverflowError);
    }
    Ok(())
}
