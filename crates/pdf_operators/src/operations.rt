//! The operators that show a run.

ghost use Rattle.std.specs.Prelude.{◌≡◌, ◌<◌, ◌*◌, ◌^◌, ◌++◌, ◌∷◌, All, IfErr, IfOk, OnOk, codes, unsigned_abs};
ghost use Rattle.std.specs.Fmt.{signed_decimal};
ghost use Rattle.std.specs.List.{flat_map};
ghost use Rattle.subsetter_base.specs.declared.error.Error.TheVariants.{OutOfMemory};
ghost use Rattle.pdf_text.specs.Cmaps.Cmap.{word, words};
ghost use Rattle.pdf_runs.specs.Clusters.{lists};
ghost use Rattle.pdf_operators.specs.Content.{IsWritable, marks_of, said_in};
ghost use Rattle.pdf_operators.specs.Operators.{act_of, act_text, acts_of, closing, code_of, further, is_further, is_joined, last, leading, number_text, open_after, open_after_code, opening, operators, rise_text, span_text, text_of_all, units_of, written};

use crate::hex::write_characters;
use crate::numbers::{write_integer, write_rise};
use pdf_runs::{Item, Pair, code_in, text_of};
use pdf_text::write_word;
use std::alloc::Global;
use subsetter_base::Error;
use subsetter_base::remapper::Remapper;

/// What operators say, one after the other.
#[derive(Clone, Copy)]
pub enum Operation<'a> {
    /// A span begins, whose ActualText is the text of these clusters.
    Begin(&'a [&'a [Item<'a>]]),
    /// The span ends.
    End,
    /// The text rise, in thousandths of the em.
    Rise(i32),
    /// The pen goes back by this many thousandths of the em, and the code of a pair is shown.
    Show(i32, Pair),
    /// The pen goes back by this many thousandths of the em.
    Back(i32),
}

/// The array of TJ that is open: how many strings it has, and how many codes the last of them; 0 of both where none is open.
#[derive(Clone, Copy)]
struct OpenArray {
    strings: u32,
    codes: u32,
}

/// Ends what is open.
fn write_closing(text: &mut Vec<u8>, array: OpenArray) -> Result<(), Error>
    ensures ok { OnOk result (text.new.items ≡ text.old.items ++ closing array) }
    ensures err { IfErr result (λ e. e ≡ OutOfMemory) }
{
    if array.codes != 0 {
        text.extend_from_slice(b">]TJ\n")?;
    }
    Ok(())
}

/// Writes a number of an array, if the pen has to go.
#[tactic(auto, using(pdf_text::proofs::Pieces::two_signed))]
fn write_number(text: &mut Vec<u8>, back: i32) -> Result<(), Error>
    ensures ok { OnOk result (text.new.items ≡ text.old.items ++ number_text back) }
    ensures err { IfErr result (λ e. e ≡ OutOfMemory) }
{
    if back != 0 {
        write_integer(text, back)?;
    }
    Ok(())
}

/// Begins an array and its string.
#[tactic(auto, using(pdf_text::proofs::Pieces::three_signed))]
fn write_opening(text: &mut Vec<u8>, back: i32) -> Result<(), Error>
    ensures ok { OnOk result (text.new.items ≡ text.old.items ++ opening back) }
    ensures err { IfErr result (λ e. e ≡ OutOfMemory) }
{
    text.push(b'[')?;
    write_number(text, back)?;
    text.push(b'<')?;
    Ok(())
}

/// Ends a string, and begins another one of its array.
#[tactic(auto, using(pdf_text::proofs::Pieces::three_signed))]
fn write_further(text: &mut Vec<u8>, back: i32) -> Result<(), Error>
    ensures ok { OnOk result (text.new.items ≡ text.old.items ++ further back) }
    ensures err { IfErr result (λ e. e ≡ OutOfMemory) }
{
    text.push(b'>')?;
    write_integer(text, back)?;
    text.push(b'<')?;
    Ok(())
}

/// Ends what is open, and begins another array.
#[tactic(auto, using(pdf_text::proofs::Pieces::two_signed))]
fn write_apart(text: &mut Vec<u8>, array: OpenArray, back: i32) -> Result<(), Error>
    ensures ok { OnOk result (text.new.items ≡ text.old.items ++ (closing array ++ opening back)) }
    ensures err { IfErr result (λ e. e ≡ OutOfMemory) }
{
    write_closing(text, array)?;
    write_opening(text, back)
}

/// Whether a code goes into the string that is open.
fn is_joined(array: OpenArray, back: i32) -> bool
    ensures { result ≡ is_joined array back }
{
    0 < array.codes && array.codes < 16_383 && back == 0
}

/// Whether it goes into another string of the array that is open.
fn is_further(array: OpenArray, back: i32) -> bool
    ensures { result ≡ is_further array back }
{
    0 < array.codes && array.strings < 4095 && back != 0
}

/// Writes what is before a code.
#[tactic(auto, using(pdf_text::proofs::Pieces::two_signed))]
fn write_leading(text: &mut Vec<u8>, array: OpenArray, back: i32) -> Result<(), Error>
    ensures ok { OnOk result (text.new.items ≡ text.old.items ++ leading array back) }
    ensures err { IfErr result (λ e. e ≡ OutOfMemory) }
{
    if is_joined(array, back) {
        Ok(())
    } else if is_further(array, back) {
        write_further(text, back)
    } else {
        write_apart(text, array, back)
    }
}

/// Writes a code.
#[tactic(auto, using(pdf_text::proofs::Pieces::two_signed))]
fn write_code(text: &mut Vec<u8>, array: OpenArray, back: i32, code: u16) -> Result<(), Error>
    ensures ok { OnOk result (text.new.items ≡ text.old.items ++ (leading array back ++ word code)) }
    ensures err { IfErr result (λ e. e ≡ OutOfMemory) }
{
    write_leading(text, array, back)?;
    write_word(text, code)
}

/// What is before a number at the end of an array: the end of its string, or the beginning of an array of its own.
fn last(array: OpenArray) -> u8
    ensures { result ≡ last array }
{
    if array.codes == 0 { b'[' } else { b'>' }
}

/// Writes a number at the end of an array.
#[tactic(auto, using(pdf_text::proofs::Pieces::three_signed))]
fn write_back(text: &mut Vec<u8>, array: OpenArray, back: i32) -> Result<(), Error>
    ensures ok { OnOk result (text.new.items ≡ text.old.items ++ last array ∷ (signed_decimal back ++ codes "]TJ\n")) }
    ensures err { IfErr result (λ e. e ≡ OutOfMemory) }
{
    text.push(last(array))?;
    write_integer(text, back)?;
    text.extend_from_slice(b"]TJ\n")?;
    Ok(())
}

/// The code of a pair, or 0 where it has none.
fn code_of(pairs: &Remapper<u16, Pair>, pair: Pair) -> u16
    ensures { result ≡ code_of pairs.now pair }
{
    match code_in(pairs, pair) {
        Some(code) => code,
        None => 0,
    }
}

/// Writes the text of clusters.
fn write_texts(text: &mut Vec<u8>, clusters: &[&[Item<'_>]]) -> Result<(), Error>
    ensures ok { OnOk result (text.new.items ≡ text.old.items ++ words (units_of (text_of_all (lists clusters.now)))) }
    ensures characters { OnOk result (All (λ c. c < 1114112) (text_of_all (lists clusters.now))) }
    ensures err { IfErr result (λ e. e ≡ OutOfMemory) }
{
    for cluster in clusters {
        write_characters(text, text_of(cluster))?;
    }
    Ok(())
}

/// Begins a span.
#[tactic(auto, using(pdf_text::proofs::Written::three_written))]
fn write_begin(text: &mut Vec<u8>, clusters: &[&[Item<'_>]]) -> Result<(), Error>
    ensures ok { OnOk result (text.new.items ≡ text.old.items ++ span_text (text_of_all (lists clusters.now))) }
    ensures characters { OnOk result (All (λ c. c < 1114112) (text_of_all (lists clusters.now))) }
    ensures err { IfErr result (λ e. e ≡ OutOfMemory) }
{
    text.extend_from_slice(b"/Span << /ActualText <FEFF")?;
    write_texts(text, clusters)?;
    text.extend_from_slice(b"> >> BDC\n")?;
    Ok(())
}

/// Ends what is open, and begins a span.
#[tactic(auto, using(pdf_text::proofs::Pieces::two_written))]
fn write_span(text: &mut Vec<u8>, array: OpenArray, clusters: &[&[Item<'_>]]) -> Result<(), Error>
    ensures ok { OnOk result (text.new.items ≡ text.old.items ++ (closing array ++ span_text (text_of_all (lists clusters.now)))) }
    ensures characters { OnOk result (All (λ c. c < 1114112) (text_of_all (lists clusters.now))) }
    ensures err { IfErr result (λ e. e ≡ OutOfMemory) }
{
    write_closing(text, array)?;
    write_begin(text, clusters)
}

/// Ends what is open, and a span.
#[tactic(auto, using(pdf_text::proofs::Pieces::two_written))]
fn write_end(text: &mut Vec<u8>, array: OpenArray) -> Result<(), Error>
    ensures ok { OnOk result (text.new.items ≡ text.old.items ++ (closing array ++ codes "EMC\n")) }
    ensures err { IfErr result (λ e. e ≡ OutOfMemory) }
{
    write_closing(text, array)?;
    text.extend_from_slice(b"EMC\n")?;
    Ok(())
}

/// Ends what is open, and sets the text rise.
#[tactic(auto, using(pdf_text::proofs::Pieces::three_signed))]
fn write_ts(text: &mut Vec<u8>, array: OpenArray, size: u32, z: i32) -> Result<(), Error>
    ensures ok { OnOk result (text.new.items ≡ text.old.items ++ (closing array ++ (rise_text size z ++ codes " Ts\n"))) }
    ensures bound { unsigned_abs z * size < 2 ^ 64 }
    ensures err { IfErr result (λ e. e ≡ OutOfMemory) }
{
    write_closing(text, array)?;
    write_rise(text, size, z)?;
    text.extend_from_slice(b" Ts\n")?;
    Ok(())
}

/// Writes an operation.
#[tactic(auto, using(pdf_text::proofs::Pieces::two_signed))]
fn write_operation(
    text: &mut Vec<u8>,
    size: u32,
    pairs: &Remapper<u16, Pair>,
    array: OpenArray,
    operation: Operation<'_>,
) -> Result<(), Error>
    ensures ok { OnOk result (text.new.items ≡ text.old.items ++ act_text size pairs.now array (act_of operation.entry)) }
    ensures writable { OnOk result (IsWritable size pairs.now (act_of operation.entry)) }
    ensures err { IfErr result (λ e. e ≡ OutOfMemory) }
{
    match operation {
        Operation::Begin(clusters) => write_span(text, array, clusters),
        Operation::End => write_end(text, array),
        Operation::Rise(z) => write_ts(text, array, size, z),
        Operation::Show(back, pair) => write_code(text, array, back, code_of(pairs, pair)),
        Operation::Back(back) => write_back(text, array, back),
    }
}

/// What is open after a code.
fn open_after_code(array: OpenArray, back: i32) -> OpenArray
    ensures { result ≡ open_after_code array back }
{
    if is_joined(array, back) {
        OpenArray {
            strings: array.strings,
            codes: array.codes + 1,
        }
    } else if is_further(array, back) {
        OpenArray {
            strings: array.strings + 1,
            codes: 1,
        }
    } else {
        OpenArray {
            strings: 1,
            codes: 1,
        }
    }
}

/// What is open after an operation.
#[tactic(auto, using(pdf_text::proofs::Pieces::two_signed))]
fn open_after(array: OpenArray, operation: Operation<'_>) -> OpenArray
    ensures { result ≡ open_after array (act_of operation.entry) }
{
    match operation {
        Operation::Show(back, _) => open_after_code(array, back),
        _ => OpenArray {
            strings: 0,
            codes: 0,
        },
    }
}

/// The operators for a content stream, at a size of `size` thousandths of a unit of text space. A pair without a code has
/// code 0.
///
/// # Errors
///
/// `OutOfMemory` alone.
#[tactic(auto, using(pdf_text::proofs::Written::one_more_written))]
pub fn write_operators(
    alloc: Global,
    size: u32,
    pairs: &Remapper<u16, Pair>,
    operations: &[Operation<'_>],
) -> Result<Vec<u8>, Error>
    ensures ok { IfOk result (λ text. text.items ≡ operators size pairs.now (acts_of operations.now)) }
    // What is read from them is what they say.
    ensures read { IfOk result (λ text. said_in text.items ≡ flat_map (marks_of size pairs.now) (acts_of operations.now)) }
    ensures err { IfErr result (λ e. e ≡ OutOfMemory) }
{
    let mut text = Vec::with_capacity(alloc, operations.len())?;
    let mut array = OpenArray {
        strings: 0,
        codes: 0,
    };
    for operation in operations {
        write_operation(&mut text, size, pairs, array, *operation)?;
        array = open_after(array, *operation);
    }
    write_closing(&mut text, array)?;
    Ok(text)
}
