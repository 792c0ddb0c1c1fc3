//! defaultWidthX and nominalWidthX of private dicts (Technical Note 5176, section 15 "Private DICT Data").

ghost use Rattle.std.specs.Prelude.{◌≡◌, map, slice_get, IfOk, IfErr};
ghost use Rattle.std.specs.Option.{option_map};
ghost use Rattle.subsetter_base.specs.declared.error.Error.TheVariants.{OutOfMemory};
ghost use Rattle.subsetter_cff.specs.Read.Entries.Lookup.{last_of};
ghost use Rattle.subsetter_cff.specs.Read.FdArray.Private.{private_of};
ghost use Rattle.subsetter_cff.specs.Read.FdArray.PrivateView.{private_view};
ghost use Rattle.subsetter_cff.specs.Read.Source.{cff_of, IsSource};
ghost use Rattle.subsetter_cffdata.specs.Dicts.Dict.{entries};
ghost use Rattle.subsetter_cffdata.specs.Views.{number_of, operator_of};
ghost use Rattle.pdf_widths.specs.Defaults.{all_defaults, defaults_of, whole_of_one, whole_or_zero};

use std::alloc::Global;
use subsetter_base::Error;
use subsetter_cff::read::entries::demands::show_last;
use subsetter_cff::read::source::{FontDict, Table};
use subsetter_cff::write::glyphs::kept_glyphs::source_number;
use subsetter_cffdata::dicts::dict::DictionaryParser;
use subsetter_cffdata::dicts::operator::{Operator, OperatorType};
use subsetter_cffdata::numerals::number::Number;

const DEFAULT_WIDTH: Operator = Operator(OperatorType::OneByteOperator([20]));

const NOMINAL_WIDTH: Operator = Operator(OperatorType::OneByteOperator([21]));

/// What a private dict says of widths, each in the font's units; none where it isn't a whole number.
#[derive(Clone, Copy)]
pub struct Defaults {
    /// The advance of a charstring without a width.
    pub default: Option<i32>,
    /// What is added to a width.
    pub nominal: Option<i32>,
}

/// The whole number that one operand is.
fn whole_of_one(operands: &[Number]) -> Option<i32>
    ensures { result ≡ whole_of_one (map number_of operands.now) }
{
    match operands {
        [number] => number.as_i32(),
        _ => None,
    }
}

/// What the last entry of an operator says; 0 where there is none.
fn whole_or_zero(dict: &[u8], operator: &Operator) -> Option<i32>
    ensures { result ≡ whole_or_zero (last_of (operator_of operator.now) (entries dict.now)) }
{
    let mut buffer = [Number::zero(); 48];
    let mut parser = DictionaryParser::new(dict, &mut buffer);
    if !show_last(&mut parser, operator) {
        return Some(0);
    }
    whole_of_one(parser.operands())
}

/// What a private dict says.
#[tactic(auto, unfolding(crate::specs::Defaults::defaults_of))]
fn defaults_of(dict: &[u8]) -> Defaults
    ensures { result ≡ defaults_of (entries dict.now) }
{
    Defaults {
        default: whole_or_zero(dict, &DEFAULT_WIDTH),
        nominal: whole_or_zero(dict, &NOMINAL_WIDTH),
    }
}

/// What the private dicts of font dicts say.
fn dicts_defaults(alloc: Global, dicts: &[FontDict<'_>]) -> Result<Vec<Defaults>, Error>
    ensures ok { IfOk result (λ v. v.items ≡ map (λ f. defaults_of (private_view f.private).entries) dicts.now) }
    ensures err { IfErr result (λ e. e ≡ OutOfMemory) }
{
    let mut all = Vec::with_capacity(alloc, dicts.len())?;
    for dict in dicts {
        all.push(defaults_of(dict.private.dict))?;
    }
    Ok(all)
}

/// What the private dicts of a table say, by the numbers of their font dicts. A font without font dicts has just one.
pub fn all_defaults(alloc: Global, table: &Table<'_>) -> Result<Vec<Defaults>, Error>
    ensures ok { IfOk result (λ v. v.items ≡ all_defaults table.now) }
    ensures err { IfErr result (λ e. e ≡ OutOfMemory) }
{
    match &table.cid {
        Some(keyed) => dicts_defaults(alloc, &keyed.font_dicts),
        None => {
            let mut all = Vec::with_capacity(alloc, 1)?;
            all.push(defaults_of(table.private.dict))?;
            Ok(all)
        }
    }
}

/// What the private dict of a number says.
fn numbered(all: &[Defaults], number: u8) -> Option<Defaults>
    ensures { result ≡ slice_get all.now number }
{
    all.get(number as usize).copied()
}

/// What the private dict of a glyph says, of those of the table.
pub fn glyph_defaults(table: &Table<'_>, all: &[Defaults], glyph: u16) -> Option<Defaults>
    requires source { IsSource table.now }
    requires all { all.now ≡ all_defaults table.now }
    ensures { result ≡ option_map (λ p. defaults_of p.entries) (private_of (cff_of table.now) glyph) }
{
    match source_number(table, glyph) {
        Some(number) => numbered(all, number),
        None => None,
    }
}
