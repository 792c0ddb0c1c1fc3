//! The operands of the last entry of an operator (Technical Note 5176, section 4 "DICT Data").

ghost use Rattle.std.specs.Prelude.{◌≡◌, length};
ghost use Rattle.subsetter_cffdata.specs.Dicts.Dict.{entries, operand_limit};
ghost use Rattle.subsetter_cffdata.specs.Dicts.Operands.{operands_at};
ghost use Rattle.subsetter_cffdata.specs.Dicts.ParserView.{left, entry_of, shown};
ghost use Rattle.subsetter_cffdata.specs.Views.{operator_of};
ghost use Rattle.subsetter_cff.specs.Read.Entries.Demands.{found_now, shown_if};
ghost use Rattle.subsetter_cff.specs.Read.Entries.Lookup.{last_of};

use crate::read::entries::operators::same_operator;
use subsetter_cffdata::dicts::dict::DictionaryParser;
use subsetter_cffdata::dicts::operator::Operator;

/// Shows the operands of the entry that the parser is at, where it is wanted.
fn show_wanted(parser: &mut DictionaryParser<'_>, is_wanted: bool, is_shown: &mut bool)
    ensures value { shown_if is_shown.new (shown parser.new) ≡ found_now is_wanted (operands_at (length parser.old.operands.now) (entry_of parser.old)) (shown_if is_shown.old (shown parser.old)) }
    ensures left { left parser.new ≡ left parser.old }
    ensures room { length parser.new.operands.now ≡ length parser.old.operands.now }
{
    if is_wanted {
        *is_shown = parser.parse_operands().is_some();
    }
}

/// Goes on to the end, and returns whether an entry of the operator was met. The parser then shows the operands of the last one.
pub fn show_last(parser: &mut DictionaryParser<'_>, operator: &Operator) -> bool
    requires { length parser.old.operands.now ≡ operand_limit }
    ensures { shown_if result (shown parser.new) ≡ last_of (operator_of operator.now) (entries (left parser.old)) }
{
    let mut is_shown = false;
    while let Some(next) = parser.parse_next() {
        let is_wanted = same_operator(&next, operator);
        show_wanted(parser, is_wanted, &mut is_shown);
    }
    is_shown
}
