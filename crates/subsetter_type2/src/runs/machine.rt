//! What a token does to the stack, the stems and the output, and what runs next (Technical Note 5177, section 4).

ghost use Rattle.std.specs.Prelude.{◌≡◌, ◌<◌, ◌≤◌, [], IfOk, IfErr};
ghost use Rattle.std.specs.Option.{option_copied};
ghost use Rattle.subsetter_type2.specs.Runs.Machine.{subroutine, push, emit, On, stems_after, count_stems, mask, call, end, operate, act_on, act_at, push_at};
ghost use Rattle.subsetter_type2.specs.Token.{two_byte_token};
ghost use Rattle.subsetter_cffdata.specs.Numerals.CharStringNumber.{NumberFits};
ghost use Rattle.subsetter_type2.specs.Runs.MachineView.{registers_of, library_of, Performs};

use crate::argstack::MAX_OPERANDS;
use crate::operators::first_byte;
use crate::runs::sink::Sink;
use crate::subroutines::SubroutineHandler;
use crate::token::{Effect, find_effect, one_byte_effect};
use subsetter_base::error::Error;
use subsetter_cffdata::dicts::operator::{Operator, OperatorType, TWO_BYTE_OPERATOR_MARK};
use subsetter_cffdata::numerals::charstring_number::{CharStringNumber, read_number};

/// The most stems, whose number has 16 bits.
pub const MAX_STEMS: usize = 65535;

/// The subroutines that a charstring may call.
#[derive(Drop)]
pub struct Subroutines<'a> {
    pub global: SubroutineHandler<'a>,
    pub local: SubroutineHandler<'a>,
}

/// What runs after a token.
#[derive(Clone, Copy)]
pub enum Flow<'a> {
    /// On in the same charstring, with this rest.
    GoesOn(&'a [u8]),
    /// Into a subroutine, and then on with the rest.
    Calls(&'a [u8], &'a [u8]),
    /// Back to the caller.
    Returns,
    /// To the end of the glyph.
    Ends,
}

/// The output with the operands, and the stems and the mask length so far.
#[derive(Drop)]
pub struct Machine<S> {
    pub output: S,
    stems: u16,
    pub mask_len: u16,
}

/// The subroutine that the operand names.
#[tactic(auto, unfolding(crate::specs::Runs::Machine::subroutine))]
fn find<'a>(subroutines: &SubroutineHandler<'a>, number: CharStringNumber) -> Option<&'a [u8]>
    ensures { option_copied result ≡ subroutine subroutines.now number }
{
    subroutines.get_with_biased(number.whole()?)
}

impl<'a, S: Sink<'a>> Machine<S> {
    /// No stems yet, and no mask.
    pub fn new(output: S) -> Self
        ensures { result ≡ record { output = output; stems = 0; mask_len = 0 } }
    {
        Machine {
            output,
            stems: 0,
            mask_len: 0,
        }
    }

    /// A number is put onto the stack.
    #[inline(always)]
    fn push(&mut self, number: CharStringNumber, rest: &'a [u8]) -> Result<Flow<'a>, Error>
        requires { NumberFits number }
        ensures { Performs (push number rest.now (registers_of S.written self.old)) S.written self.old self.new result }
    {
        if self.output.count() >= MAX_OPERANDS {
            return Err(Error::CFFError);
        }
        self.output.push(number)?;
        Ok(Flow::GoesOn(rest))
    }

    /// An operator that takes all operands.
    #[inline(always)]
    fn emit(&mut self, operator: Operator, rest: &'a [u8]) -> Result<Flow<'a>, Error>
        ensures { Performs (emit operator [] (On rest.now) (registers_of S.written self.old)) S.written self.old self.new result }
    {
        self.output.emit(operator, &[])?;
        Ok(Flow::GoesOn(rest))
    }

    /// The last operator of the glyph.
    fn end(&mut self, operator: Operator) -> Result<Flow<'a>, Error>
        ensures { Performs (end operator (registers_of S.written self.old)) S.written self.old self.new result }
    {
        if self.output.count() >= 4 {
            return Err(Error::Unimplemented);
        }
        self.output.emit(operator, &[])?;
        Ok(Flow::Ends)
    }

    /// The stems with those of the operands.
    fn stems_after(&self) -> Result<u16, Error>
        ensures ok { IfOk result (λ stems. (stems ≡ stems_after (registers_of S.written self.now)) × (stems ≤ 65535)) }
        ensures err { IfErr result (λ e. (e ≡ Error.CFFError) × (65535 < stems_after (registers_of S.written self.now))) }
    {
        let stems = self.stems as usize + self.output.count() / 2;
        if stems > MAX_STEMS {
            return Err(Error::CFFError);
        }
        Ok(stems as u16)
    }

    /// Stems, two operands each.
    fn count_stems(&mut self, operator: Operator, rest: &'a [u8]) -> Result<Flow<'a>, Error>
        ensures { Performs (count_stems operator rest.now (registers_of S.written self.old)) S.written self.old self.new result }
    {
        self.stems = self.stems_after()?;
        self.emit(operator, rest)
    }

    /// A mask, with its bytes at the front of the rest.
    fn mask(&mut self, operator: Operator, rest: &'a [u8]) -> Result<Flow<'a>, Error>
        ensures { Performs (mask operator rest.now (registers_of S.written self.old)) S.written self.old self.new result }
    {
        if self.mask_len == 0 {
            self.stems = self.stems_after()?;
            self.mask_len = ((self.stems as usize + 7) / 8) as u16;
        }
        let len = self.mask_len as usize;
        if rest.len() < len {
            return Err(Error::CFFError);
        }
        self.output.emit(operator, &rest[..len])?;
        Ok(Flow::GoesOn(&rest[len..]))
    }

    /// A call of one of these subroutines.
    #[inline(always)]
    fn call(
        &mut self,
        subroutines: &SubroutineHandler<'a>,
        rest: &'a [u8],
    ) -> Result<Flow<'a>, Error>
        ensures { Performs (call subroutines.now rest.now (registers_of S.written self.old)) S.written self.old self.new result }
    {
        let number = self.output.pop().ok_or(Error::CFFError)?;
        let body = find(subroutines, number).ok_or(Error::CFFError)?;
        Ok(Flow::Calls(body, rest))
    }

    /// An operator of this effect, with what follows it in its charstring.
    fn operate(
        &mut self,
        subroutines: &Subroutines<'a>,
        operator: Operator,
        effect: Option<Effect>,
        rest: &'a [u8],
    ) -> Result<Flow<'a>, Error>
        ensures { Performs (operate (library_of subroutines.now) operator effect rest.now (registers_of S.written self.old)) S.written self.old self.new result }
    {
        match effect {
            None => Err(Error::CFFError),
            Some(Effect::CountsStems) => self.count_stems(operator, rest),
            Some(Effect::Draws) => self.emit(operator, rest),
            Some(Effect::CallsLocal) => self.call(&subroutines.local, rest),
            Some(Effect::CallsGlobal) => self.call(&subroutines.global, rest),
            Some(Effect::Returns) => Ok(Flow::Returns),
            Some(Effect::Ends) => self.end(operator),
            Some(Effect::Masks) => self.mask(operator, rest),
        }
    }

    /// An operator of two bytes, the second of them at the front of these.
    #[tactic(auto, unfolding(crate::specs::Token::effect_of))]
    fn operate_by_two(
        &mut self,
        subroutines: &Subroutines<'a>,
        bytes: &'a [u8],
    ) -> Result<Flow<'a>, Error>
        ensures { Performs (act_on (library_of subroutines.now) (two_byte_token bytes.now) (registers_of S.written self.old)) S.written self.old self.new result }
    {
        match bytes {
            [second, rest @ ..] => {
                let operator = Operator::from_two_byte(*second);
                self.operate(subroutines, operator, find_effect(operator), rest)
            }
            [] => Err(Error::CFFError),
        }
    }

    /// A number at the front of these bytes.
    #[tactic(auto, unfolding(crate::specs::Runs::Machine::push_at))]
    fn push_at(&mut self, bytes: &'a [u8]) -> Result<Flow<'a>, Error>
        ensures { Performs (push_at bytes.now (registers_of S.written self.old)) S.written self.old self.new result }
    {
        let read = read_number(bytes).ok_or(Error::CFFError)?;
        self.push(read.number, read.rest)
    }

    /// The token at the front of these bytes, by the first byte.
    #[tactic(auto, unfolding(crate::specs::Runs::Machine::act_at, crate::specs::Runs::Machine::push_at, crate::specs::Token::token_of, crate::specs::Token::effect_of))]
    fn act_on_any(
        &mut self,
        subroutines: &Subroutines<'a>,
        bytes: &'a [u8],
    ) -> Result<Flow<'a>, Error>
        ensures { Performs (act_at (library_of subroutines.now) bytes.now (registers_of S.written self.old)) S.written self.old self.new result }
    {
        let [first, rest @ ..] = bytes else {
            return Err(Error::CFFError);
        };
        if *first >= first_byte::LEAST_NUMBER {
            return self.push_at(bytes);
        }
        if *first == first_byte::SHORT_INT {
            return self.push_at(bytes);
        }
        if *first == TWO_BYTE_OPERATOR_MARK {
            return self.operate_by_two(subroutines, rest);
        }
        let operator = Operator(OperatorType::OneByteOperator([*first]));
        self.operate(subroutines, operator, one_byte_effect(*first), rest)
    }

    /// The token at the front of these bytes. Calls and returns, which are frequent, come first.
    #[inline(always)]
    #[tactic(auto, unfolding(crate::specs::Runs::Machine::act_at, crate::specs::Token::token_of))]
    pub fn act_at(
        &mut self,
        subroutines: &Subroutines<'a>,
        bytes: &'a [u8],
    ) -> Result<Flow<'a>, Error>
        ensures { Performs (act_at (library_of subroutines.now) bytes.now (registers_of S.written self.old)) S.written self.old self.new result }
    {
        let [first, rest @ ..] = bytes else {
            return Err(Error::CFFError);
        };
        if *first == first_byte::RETURN {
            return Ok(Flow::Returns);
        }
        if *first == first_byte::CALL_LOCAL_SUBROUTINE {
            return self.call(&subroutines.local, rest);
        }
        if *first == first_byte::CALL_GLOBAL_SUBROUTINE {
            return self.call(&subroutines.global, rest);
        }
        let flow = self.act_on_any(subroutines, bytes)?;
        Ok(flow)
    }
}
