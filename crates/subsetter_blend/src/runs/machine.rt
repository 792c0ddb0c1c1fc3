//! What a token does to the stack, the stems and the data, which event it has, and what runs next (OpenType, "CFF2
//! CharString Format"; Technical Note 5177, section 4).

ghost use Rattle.std.specs.Prelude.{◌≡◌, ◌<◌, ◌≤◌, ◌^◌, ◌-ℤ◌, pos, [], false, IfOk, IfErr, unsigned_abs};
ghost use Rattle.std.specs.Option.{option_copied};
ghost use Rattle.subsetter_cffdata.specs.Numerals.CharStringNumber.{NumberFits};
ghost use Rattle.subsetter_type2.specs.Token.{two_byte_token};
ghost use Rattle.subsetter_blend.specs.Runs.Machine.{subroutine, push, emit, stems_after, count_stems, mask, call, blend, choose, operate, act_on, act_at, push_at};
ghost use Rattle.subsetter_blend.specs.Runs.MachineView.{registers_of, setting_of, Performs, Silently};

use crate::runs::kind::{Kind, accepts, kind_of, one_byte_kind};
use crate::runs::operands::{GREATEST_SMALL, MAX_OPERANDS, Operands};
use crate::runs::parts::{in_parts, natural_in, whole_in};
use crate::runs::regions::Regions;
use crate::writing::taking::Takes;
use subsetter_base::error::Error;
use subsetter_cffdata::dicts::operator::{Operator, OperatorType, TWO_BYTE_OPERATOR_MARK};
use subsetter_cffdata::numerals::charstring_number::{CharStringNumber, read_number};
use subsetter_type2::operators::first_byte;
use subsetter_type2::subroutines::SubroutineHandler;
use subsetter_type2::token::find_effect;

/// The most stems of a charstring.
const MAX_STEMS: usize = 65535;

/// The subroutines that a charstring may call.
#[derive(Drop)]
pub struct Subroutines<'a> {
    pub global: SubroutineHandler<'a>,
    pub local: SubroutineHandler<'a>,
}

/// What runs after a token.
#[derive(Clone, Copy)]
pub enum Flow<'a> {
    /// On in the same charstring, with this rest.
    GoesOn(&'a [u8]),
    /// Into a subroutine, and then on with the rest.
    Calls(&'a [u8], &'a [u8]),
}

/// The operands, the stems and the mask length so far, and which item variation data count.
#[derive(Drop)]
pub struct Machine {
    pub operands: Operands,
    stems: u16,
    mask_len: u16,
    data_index: u16,
    settled: bool,
}

/// The subroutine that the operand names.
#[tactic(auto, unfolding(crate::specs::Runs::Machine::subroutine))]
fn find<'a>(subroutines: &SubroutineHandler<'a>, number: i64) -> Option<&'a [u8]>
    requires { unsigned_abs number ≤ 2 ^ 45 }
    ensures { option_copied result ≡ subroutine subroutines.now number }
{
    subroutines.get_with_biased(whole_in(number)?)
}

impl Machine {
    /// No stems yet, and no mask.
    pub fn new(data_index: u16) -> Self
        ensures { registers_of result ≡ record { operands = []; stems = 0; mask_len = 0; data_index = data_index; settled = false } }
    {
        Machine {
            operands: Operands::new(),
            stems: 0,
            mask_len: 0,
            data_index,
            settled: false,
        }
    }

    /// Begins anew, where these item variation data count.
    pub fn start(&mut self, data_index: u16)
        ensures { registers_of self.new ≡ record { operands = []; stems = 0; mask_len = 0; data_index = data_index; settled = false } }
    {
        self.operands.clear();
        self.stems = 0;
        self.mask_len = 0;
        self.data_index = data_index;
        self.settled = false;
    }

    /// A number is put onto the stack.
    #[inline(always)]
    fn push<'a>(&mut self, number: CharStringNumber, rest: &'a [u8]) -> Result<Flow<'a>, Error>
        requires { NumberFits number }
        ensures { Silently (push number rest.now (registers_of self.old)) self.new result }
    {
        if self.operands.len() >= MAX_OPERANDS {
            return Err(Error::CFFError);
        }
        self.operands.push(in_parts(number));
        Ok(Flow::GoesOn(rest))
    }

    /// A number of this byte alone is put onto the stack.
    #[inline(always)]
    fn push_small<'a>(&mut self, first: u8, rest: &'a [u8]) -> Result<Flow<'a>, Error>
        requires low { 32 ≤ first }
        requires high { first < 247 }
        ensures { Silently (push (CharStringNumber.Integer (pos first -ℤ pos 139)) rest.now (registers_of self.old)) self.new result }
    {
        self.push(CharStringNumber::Integer(first as i16 - 139), rest)
    }

    /// An operator that takes all operands, and its mask.
    #[inline(always)]
    fn emit<'a, S: Takes>(
        &mut self,
        sink: &mut S,
        operator: Operator,
        mask: &[u8],
        rest: &'a [u8],
    ) -> Result<Flow<'a>, Error>
        ensures { Performs (emit operator mask.now rest.now (registers_of self.old)) S.taken self.new sink.old sink.new result }
    {
        if !accepts(operator, self.operands.len()) {
            return Err(Error::CFFError);
        }
        sink.take(operator, self.operands.as_slice(), mask)?;
        self.operands.clear();
        Ok(Flow::GoesOn(rest))
    }

    /// The stems with those of the operands.
    #[inline(always)]
    fn stems_after(&self) -> Result<u16, Error>
        ensures ok { IfOk result (λ stems. (stems ≡ stems_after (registers_of self.now)) × (stems ≤ 65535)) }
        ensures err { IfErr result (λ e. (e ≡ Error.CFFError) × (65535 < stems_after (registers_of self.now))) }
    {
        let stems = self.stems as usize + self.operands.len() / 2;
        if stems > MAX_STEMS {
            return Err(Error::CFFError);
        }
        Ok(stems as u16)
    }

    /// Stems, two operands each.
    #[inline(always)]
    fn count_stems<'a, S: Takes>(
        &mut self,
        sink: &mut S,
        operator: Operator,
        rest: &'a [u8],
    ) -> Result<Flow<'a>, Error>
        ensures { Performs (count_stems operator rest.now (registers_of self.old)) S.taken self.new sink.old sink.new result }
    {
        self.stems = self.stems_after()?;
        self.emit(sink, operator, &[], rest)
    }

    /// A mask, with its bytes at the front of the rest.
    fn mask<'a, S: Takes>(
        &mut self,
        sink: &mut S,
        operator: Operator,
        rest: &'a [u8],
    ) -> Result<Flow<'a>, Error>
        ensures { Performs (mask operator rest.now (registers_of self.old)) S.taken self.new sink.old sink.new result }
    {
        if self.mask_len == 0 {
            self.stems = self.stems_after()?;
            self.mask_len = ((self.stems as usize + 7) / 8) as u16;
        } else if self.operands.len() != 0 {
            return Err(Error::CFFError);
        }
        let len = self.mask_len as usize;
        if rest.len() < len {
            return Err(Error::CFFError);
        }
        self.emit(sink, operator, &rest[..len], &rest[len..])
    }

    /// A call of one of these subroutines.
    #[inline(always)]
    fn call<'a>(
        &mut self,
        subroutines: &SubroutineHandler<'a>,
        rest: &'a [u8],
    ) -> Result<Flow<'a>, Error>
        ensures { Silently (call subroutines.now rest.now (registers_of self.old)) self.new result }
    {
        let number = self.operands.pop().ok_or(Error::CFFError)?;
        let body = find(subroutines, number).ok_or(Error::CFFError)?;
        Ok(Flow::Calls(body, rest))
    }

    /// A blend.
    fn blend<'a, R: Regions>(&mut self, regions: &R, rest: &'a [u8]) -> Result<Flow<'a>, Error>
        ensures { Silently (blend (R.scalars regions.now) rest.now (registers_of self.old)) self.new result }
    {
        let count = regions.count(self.data_index).ok_or(Error::CFFError)?;
        let last = self.operands.pop().ok_or(Error::CFFError)?;
        let n = natural_in(last).ok_or(Error::CFFError)?;
        self.operands.blend(n, regions, self.data_index, count)?;
        self.settled = true;
        Ok(Flow::GoesOn(rest))
    }

    /// A vsindex.
    fn choose<'a, R: Regions>(&mut self, regions: &R, rest: &'a [u8]) -> Result<Flow<'a>, Error>
        ensures { Silently (choose (R.scalars regions.now) rest.now (registers_of self.old)) self.new result }
    {
        if self.settled {
            return Err(Error::CFFError);
        }
        if self.operands.len() != 1 {
            return Err(Error::CFFError);
        }
        let last = self.operands.pop().ok_or(Error::CFFError)?;
        let n = natural_in(last).ok_or(Error::CFFError)?;
        regions.count(n).ok_or(Error::CFFError)?;
        self.data_index = n;
        self.settled = true;
        Ok(Flow::GoesOn(rest))
    }
}

impl Machine {
    /// An operator of this kind, with what follows it in its charstring.
    #[inline(always)]
    fn operate<'a, S: Takes, R: Regions>(
        &mut self,
        sink: &mut S,
        subroutines: &Subroutines<'a>,
        regions: &R,
        operator: Operator,
        kind: Option<Kind>,
        rest: &'a [u8],
    ) -> Result<Flow<'a>, Error>
        ensures { Performs (operate (setting_of subroutines.now (R.scalars regions.now)) operator kind rest.now (registers_of self.old)) S.taken self.new sink.old sink.new result }
    {
        match kind {
            None => Err(Error::CFFError),
            Some(Kind::ChoosesData) => self.choose(regions, rest),
            Some(Kind::Blends) => self.blend(regions, rest),
            Some(Kind::CountsStems) => self.count_stems(sink, operator, rest),
            Some(Kind::Draws) => self.emit(sink, operator, &[], rest),
            Some(Kind::CallsLocal) => self.call(&subroutines.local, rest),
            Some(Kind::CallsGlobal) => self.call(&subroutines.global, rest),
            Some(Kind::Masks) => self.mask(sink, operator, rest),
        }
    }

    /// An operator of two bytes, the second of them at the front of these.
    #[inline(always)]
    #[tactic(auto, unfolding(crate::specs::Runs::Kind::operator_kind, subsetter_type2::specs::Token::effect_of))]
    fn operate_by_two<'a, S: Takes, R: Regions>(
        &mut self,
        sink: &mut S,
        subroutines: &Subroutines<'a>,
        regions: &R,
        bytes: &'a [u8],
    ) -> Result<Flow<'a>, Error>
        ensures { Performs (act_on (setting_of subroutines.now (R.scalars regions.now)) (two_byte_token bytes.now) (registers_of self.old)) S.taken self.new sink.old sink.new result }
    {
        match bytes {
            [second, rest @ ..] => {
                let operator = Operator(OperatorType::TwoByteOperator([
                    TWO_BYTE_OPERATOR_MARK,
                    *second,
                ]));
                let kind = kind_of(find_effect(operator));
                self.operate(sink, subroutines, regions, operator, kind, rest)
            }
            [] => Err(Error::CFFError),
        }
    }

    /// A number at the front of these bytes.
    #[inline(always)]
    #[tactic(auto, unfolding(crate::specs::Runs::Machine::push_at))]
    fn push_at<'a>(&mut self, bytes: &'a [u8]) -> Result<Flow<'a>, Error>
        ensures { Silently (push_at bytes.now (registers_of self.old)) self.new result }
    {
        let read = read_number(bytes).ok_or(Error::CFFError)?;
        self.push(read.number, read.rest)
    }

    /// The token at the front of these bytes, by the first byte.
    #[inline(always)]
    #[tactic(auto, unfolding(crate::specs::Runs::Machine::act_at, crate::specs::Runs::Machine::push_at, subsetter_type2::specs::Token::token_of, subsetter_cffdata::specs::Numerals::CharStringNumber::number_at, crate::specs::Runs::Kind::operator_kind))]
    pub fn act_at<'a, S: Takes, R: Regions>(
        &mut self,
        sink: &mut S,
        subroutines: &Subroutines<'a>,
        regions: &R,
        bytes: &'a [u8],
    ) -> Result<Flow<'a>, Error>
        ensures { Performs (act_at (setting_of subroutines.now (R.scalars regions.now)) bytes.now (registers_of self.old)) S.taken self.new sink.old sink.new result }
    {
        let [first, rest @ ..] = bytes else {
            return Err(Error::CFFError);
        };
        if *first >= first_byte::LEAST_NUMBER {
            if *first <= GREATEST_SMALL {
                return self.push_small(*first, rest);
            }
            return self.push_at(bytes);
        }
        if *first == first_byte::SHORT_INT {
            return self.push_at(bytes);
        }
        if *first == TWO_BYTE_OPERATOR_MARK {
            return self.operate_by_two(sink, subroutines, regions, rest);
        }
        let operator = Operator(OperatorType::OneByteOperator([*first]));
        let kind = one_byte_kind(*first);
        self.operate(sink, subroutines, regions, operator, kind, rest)
    }
}
