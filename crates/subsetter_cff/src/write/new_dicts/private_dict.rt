//! Private dicts, written again (Technical Note 5176, section 15 "Private DICT Data").

ghost use Rattle.std.specs.Prelude.{◌≡◌, drop, Some, OnOk, IfOk, IfErr};
ghost use Rattle.std.specs.Option.{option_copied};
ghost use Rattle.std.specs.Str.{bytes_eq};
ghost use Rattle.subsetter_base.specs.Gives.{Fails, following};
ghost use Rattle.subsetter_cffdata.specs.Dicts.Dict.{entry_at, operand_limit};
ghost use Rattle.subsetter_cffdata.specs.Dicts.Operands.{operands_at};
ghost use Rattle.subsetter_cffdata.specs.Dicts.ParserView.{left, shown};
ghost use Rattle.subsetter_cffdata.specs.Dicts.Tokens.{operator_part};
ghost use Rattle.subsetter_cffdata.specs.Views.{operator_of};
ghost use Rattle.subsetter_cff.specs.Read.Entries.Operators.{subroutines_operator};
ghost use Rattle.subsetter_cff.specs.Write.NewDicts.Rewritten.{rewritten_private, Rewrites, IsCopied};

use crate::read::entries::operators::same_operator;
use crate::write::new_dicts::entries::write_numbers;
use subsetter_base::error::Error;
use subsetter_base::read::Reader;
use subsetter_base::write::Writer;
use subsetter_cffdata::dicts::dict::DictionaryParser;
use subsetter_cffdata::dicts::dict::operators::SUBRS;
use subsetter_cffdata::dicts::operator::Operator;
use subsetter_cffdata::dicts::plain::plain_entry;
use subsetter_cffdata::numerals::number::Number;
use subsetter_cffdata::reading;

/// Whether an operator is that of the local subroutines.
fn is_subroutines(operator: &Operator) -> bool
    ensures { result ≡ bytes_eq (operator_of operator.now) subroutines_operator }
{
    same_operator(operator, &SUBRS)
}

/// What follows the entries in front that are copied as they are written and don't lead to subroutines.
fn skip_plain(bytes: &[u8]) -> &[u8]
    ensures { IsCopied bytes.now result.now }
{
    let mut rest = bytes;
    while let Some(entry) = plain_entry(rest) {
        if is_subroutines(&entry.operator) {
            return rest;
        }
        rest = entry.rest;
    }
    rest
}

/// Writes the entry at the front, whose operands a parser shows, unless it leads to subroutines. A real that is too long is
/// `OverflowError`.
fn write_shown(
    w: &mut Writer,
    bytes: &[u8],
    operator: Operator,
    parser: &DictionaryParser<'_>,
) -> Result<(), Error>
    requires entry { operator_part (entry_at bytes.now) ≡ Some (operator_of operator, left parser.now) }
    requires shown { Some (shown parser.now) ≡ operands_at operand_limit bytes.now }
    ensures ok { OnOk result (Rewrites w.old bytes.now w.new (Some (left parser.now))) }
    ensures err { IfErr result (λ e. Fails e (following w.old (rewritten_private bytes.now))) }
{
    if is_subroutines(&operator) {
        return Ok(());
    }
    write_numbers(parser.operands(), operator, w)?;
    Ok(())
}

/// The bytes from an offset on, which are none past the end.
fn bytes_from(bytes: &[u8], at: usize) -> &[u8]
    ensures { result.now ≡ drop at bytes.now }
{
    reading::tail(&Reader::new_at(bytes, at))
}

/// Writes an entry of many operands, unless it leads to subroutines, and returns what follows it; None where no entry can be
/// read. A real that is too long is `OverflowError`.
#[inline(never)]
fn write_long_entry<'a>(w: &mut Writer, bytes: &'a [u8]) -> Result<Option<&'a [u8]>, Error>
    ensures ok { IfOk result (λ rest. Rewrites w.old bytes.now w.new (option_copied rest)) }
    ensures err { IfErr result (λ e. Fails e (following w.old (rewritten_private bytes.now))) }
{
    let mut operands = [Number::zero(); 48];
    let mut parser = DictionaryParser::new(bytes, &mut operands);
    let Some(operator) = parser.parse_entry() else {
        return Ok(None);
    };
    write_shown(w, bytes, operator, &parser)?;
    Ok(Some(bytes_from(bytes, parser.next_offset())))
}

/// Writes an entry by its numbers, unless it leads to subroutines, and returns what follows it; None where no entry can be
/// read. A real that is too long is `OverflowError`. Nearly every entry with a real has one operand.
fn write_entry<'a>(w: &mut Writer, bytes: &'a [u8]) -> Result<Option<&'a [u8]>, Error>
    ensures ok { IfOk result (λ rest. Rewrites w.old bytes.now w.new (option_copied rest)) }
    ensures err { IfErr result (λ e. Fails e (following w.old (rewritten_private bytes.now))) }
{
    let mut operands = [Number::zero(); 2];
    let mut parser = DictionaryParser::new(bytes, &mut operands);
    let Some(operator) = parser.parse_entry() else {
        return Ok(None);
    };
    if parser.operands().len() == 2 {
        return write_long_entry(w, bytes);
    }
    write_shown(w, bytes, operator, &parser)?;
    Ok(Some(bytes_from(bytes, parser.next_offset())))
}

/// Copies the entries that stay as they are written at once, writes one more by its numbers, and returns what follows; None where
/// no further entry can be read. A real that is too long is `OverflowError`.
fn write_run<'a>(w: &mut Writer, bytes: &'a [u8]) -> Result<Option<&'a [u8]>, Error>
    ensures ok { IfOk result (λ rest. Rewrites w.old bytes.now w.new (option_copied rest)) }
    ensures err { IfErr result (λ e. Fails e (following w.old (rewritten_private bytes.now))) }
{
    let rest = skip_plain(bytes);
    let end = bytes.len() - rest.len();
    w.extend(&bytes[..end])?;
    let more = write_entry(w, rest)?;
    Ok(more)
}

/// Writes the entries of a private dict without those that lead to subroutines. A real that is too long is `OverflowError`.
pub fn rewrite_private_dict(w: &mut Writer, private_dict: &[u8]) -> Result<(), Error>
    ensures ok { OnOk result (following w.old (rewritten_private private_dict.now) ≡ Ok w.new) }
    ensures err { IfErr result (λ e. Fails e (following w.old (rewritten_private private_dict.now))) }
{
    let mut left = private_dict;
    while let Some(rest) = write_run(w, left)? {
        left = rest;
    }
    Ok(())
}
