//! The run of a charstring with a stack of its callers' rests.

ghost use Rattle.std.specs.Prelude.{◌≡◌, ◌∷◌, [], ◌<◌, ◌≤◌, false, length, OnOk, IfOk, IfErr};
ghost use Rattle.subsetter_type2.specs.Runs.Machine.{rests_after};
ghost use Rattle.subsetter_type2.specs.View.{rests_of};
ghost use Rattle.subsetter_blend.specs.Runs.Machine.{run_all};
ghost use Rattle.subsetter_blend.specs.Runs.MachineView.{registers_of, setting_of, continuation_of};
ghost use Rattle.subsetter_blend.specs.Writing.Taking.{Did};

use crate::runs::machine::{Flow, Machine, Subroutines};
use crate::runs::regions::Regions;
use crate::writing::taking::Takes;
use subsetter_base::error::Error;
use subsetter_type2::limits::Limits;
use subsetter_type2::rests::innermost;
use subsetter_type2::runs::fixed_stack::FixedStack;

/// The rests of the callers, at most 255.
type Rests<'a> = FixedStack<&'a [u8], 255>;

/// What runs after a token of this flow.
#[inline(always)]
fn follow<'a>(rests: &mut Rests<'a>, flow: Flow<'a>, depth: u8) -> Result<&'a [u8], Error>
    requires fits { length rests.old < depth }
    ensures ok { IfOk result (λ running. running.now ∷ rests_of rests.new ≡ rests_after (continuation_of flow.entry) (rests_of rests.old)) }
    ensures deep { OnOk result (length (rests_after (continuation_of flow.entry) (rests_of rests.old)) ≤ depth) }
    ensures room { OnOk result (length rests.new < depth) }
    ensures err { IfErr result (λ e. (e ≡ Error.CFFError) × (depth < length (rests_after (continuation_of flow.entry) (rests_of rests.old)))) }
{
    match flow {
        Flow::GoesOn(rest) => Ok(rest),
        Flow::Calls(body, rest) => {
            if rests.len() + 1 >= depth as usize {
                return Err(Error::CFFError);
            }
            rests.push(rest);
            Ok(body)
        }
    }
}

/// The room of a run, which a further run can take again.
#[derive(Drop)]
pub struct Room<'a> {
    machine: Machine,
    rests: Rests<'a>,
}

impl<'a> Room<'a> {
    /// New room, filled with bytes that are never read.
    pub fn new(filler: &'a [u8]) -> Self
        ensures machine { registers_of result.machine ≡ record { operands = []; stems = 0; mask_len = 0; data_index = 0; settled = false } }
        ensures rests { result.rests ≡ [] }
    {
        Room {
            machine: Machine::new(0),
            rests: FixedStack::new(filler),
        }
    }
}

/// Runs a glyph's own charstring, before the first token.
fn run_with<'a, S: Takes, R: Regions>(
    sink: &mut S,
    machine: &mut Machine,
    rests: &mut Rests<'a>,
    subroutines: &Subroutines<'a>,
    regions: &R,
    limits: &Limits,
    data_index: u16,
    charstring: &'a [u8],
) -> Result<(), Error>
    requires start { registers_of machine.old ≡ record { operands = []; stems = 0; mask_len = 0; data_index = data_index; settled = false } }
    requires none { rests.old ≡ [] }
    ensures { Did (run_all S.taken (setting_of subroutines.now (R.scalars regions.now)) limits.now.tokens limits.now.depth data_index charstring.now) sink.old sink.new result }
{
    let mut running = charstring;
    let mut tokens = limits.tokens();
    while let Some(current) = innermost(running, rests) {
        if tokens == 0 {
            return Err(Error::CFFError);
        }
        tokens -= 1;
        let flow = machine.act_at(sink, subroutines, regions, current)?;
        let next = follow(rests, flow, limits.depth())?;
        let count = machine.operands.push_all_small(next, tokens as usize);
        tokens -= count as u32;
        running = &next[count..];
    }
    if machine.operands.len() != 0 {
        return Err(Error::CFFError);
    }
    Ok(())
}

/// Runs a glyph's own charstring in this room, where these item variation data count.
pub fn run_in<'a, S: Takes, R: Regions>(
    sink: &mut S,
    room: &mut Room<'a>,
    subroutines: &Subroutines<'a>,
    regions: &R,
    limits: &Limits,
    data_index: u16,
    charstring: &'a [u8],
) -> Result<(), Error>
    ensures { Did (run_all S.taken (setting_of subroutines.now (R.scalars regions.now)) limits.now.tokens limits.now.depth data_index charstring.now) sink.old sink.new result }
{
    room.machine.start(data_index);
    room.rests.clear();
    run_with(
        sink,
        &mut room.machine,
        &mut room.rests,
        subroutines,
        regions,
        limits,
        data_index,
        charstring,
    )
}

/// Runs a glyph's own charstring, where these item variation data count.
pub fn run<'a, S: Takes, R: Regions>(
    sink: &mut S,
    subroutines: &Subroutines<'a>,
    regions: &R,
    limits: &Limits,
    data_index: u16,
    charstring: &'a [u8],
) -> Result<(), Error>
    ensures { Did (run_all S.taken (setting_of subroutines.now (R.scalars regions.now)) limits.now.tokens limits.now.depth data_index charstring.now) sink.old sink.new result }
{
    let mut room = Room::new(charstring);
    run_in(
        sink,
        &mut room,
        subroutines,
        regions,
        limits,
        data_index,
        charstring,
    )
}
