//! The run of a charstring with a stack of its callers' rests, which writes bytes.

ghost use Rattle.std.specs.Prelude.{◌≡◌, ◌∷◌, ◌<◌, ◌≤◌, [], length, OnOk, IfOk, IfErr};
ghost use Rattle.subsetter_type2.specs.Runs.Machine.{unended, rests_after};
ghost use Rattle.subsetter_type2.specs.View.{rests_of};
ghost use Rattle.subsetter_type2.specs.Runs.MachineView.{library_of, continuation_of};
ghost use Rattle.subsetter_base.specs.Gives.{following};
ghost use Rattle.subsetter_type2.specs.Flat.{flat_form};
ghost use Rattle.subsetter_base.specs.Within.{GivesWithin};
ghost use Rattle.subsetter_base.specs.declared.error.Error.TheVariants.{CFFError};

use crate::limits::Limits;
use crate::rests::innermost;
use crate::runs::fixed_stack::FixedStack;
use crate::runs::machine::{Flow, Machine, Subroutines};
use crate::runs::output::Output;
use subsetter_base::error::Error;

/// What runs after a token of this flow; nothing, where a charstring is at its end.
#[inline(always)]
fn follow<'a, const N: usize>(
    rests: &mut FixedStack<&'a [u8], N>,
    flow: Flow<'a>,
    depth: u8,
) -> Result<&'a [u8], Error>
    requires room { depth ≤ N }
    requires fits { length rests.old < depth }
    ensures ok { IfOk result (λ running. unended (running.now ∷ rests_of rests.new) ≡ unended (rests_after (continuation_of flow.entry) (rests_of rests.old))) }
    ensures deep { OnOk result (length (rests_after (continuation_of flow.entry) (rests_of rests.old)) ≤ depth) }
    ensures room { OnOk result (length rests.new < depth) }
    ensures err { IfErr result (λ e. (e ≡ CFFError) × (depth < length (rests_after (continuation_of flow.entry) (rests_of rests.old)))) }
{
    match flow {
        Flow::GoesOn(rest) => Ok(rest),
        Flow::Calls(body, rest) => {
            if rests.len() + 1 >= depth as usize {
                return Err(Error::CFFError);
            }
            rests.push(rest);
            Ok(body)
        }
        Flow::Returns => Ok(&[]),
        Flow::Ends => {
            rests.clear();
            Ok(&[])
        }
    }
}

/// The flat form of a charstring after these bytes, with room for `N` rests. `OverflowError` where all of these bytes pass
/// the bound.
fn flatten_within<'a, const N: usize>(
    bytes: Vec<u8>,
    subroutines: &Subroutines<'a>,
    limits: &Limits,
    charstring: &'a [u8],
    rests: &mut FixedStack<&'a [u8], N>,
) -> Result<Vec<u8>, Error>
    requires few { N ≤ 255 }
    requires room { limits.now.depth ≤ N }
    ensures { GivesWithin (λ all. all.items) limits.now.bytes length result (following bytes.items (flat_form (library_of subroutines.now) limits.now.tokens limits.now.depth charstring.now)) }
{
    let mut machine = Machine::new(Output::following(bytes));
    rests.clear();
    let mut running = charstring;
    let mut tokens = limits.tokens;
    while let Some(current) = innermost(running, rests) {
        let stretch = machine
            .output
            .take_stretch(current, tokens, machine.mask_len)?;
        tokens -= stretch.tokens as u32;
        running = &current[stretch.len..];
        if limits.is_past(machine.output.settled_len()) {
            return Err(Error::OverflowError);
        }
        if !running.is_empty() {
            if tokens == 0 {
                return Err(Error::CFFError);
            }
            tokens -= 1;
            let flow = machine.act_at(subroutines, running)?;
            running = follow(rests, flow, limits.depth)?;
        }
    }
    Ok(machine.output.finish())
}

/// The flat form of a charstring after these bytes. `OverflowError` where all of these pass the bound. What is left of callers
/// goes into a stack, whatever it held, where it has room for them.
pub fn flatten_after<'a>(
    bytes: Vec<u8>,
    subroutines: &Subroutines<'a>,
    limits: &Limits,
    charstring: &'a [u8],
    rests: &mut FixedStack<&'a [u8], 64>,
) -> Result<Vec<u8>, Error>
    ensures { GivesWithin (λ all. all.items) limits.now.bytes length result (following bytes.items (flat_form (library_of subroutines.now) limits.now.tokens limits.now.depth charstring.now)) }
{
    if limits.depth() <= 64 {
        return flatten_within::<64>(bytes, subroutines, limits, charstring, rests);
    }
    let mut more: FixedStack<&'a [u8], 255> = FixedStack::new(charstring);
    flatten_within::<255>(bytes, subroutines, limits, charstring, &mut more)
}
