//! The run of a charstring by recursion: a subroutine is run by a call.

ghost use Rattle.std.specs.Prelude.{◌≤◌};
ghost use Rattle.subsetter_type2.specs.Runs.MachineView.{library_of};
ghost use Rattle.subsetter_type2.specs.Runs.Recursion.{RunsThrough};
ghost use Rattle.subsetter_base.specs.Gives.{Gives};
ghost use Rattle.subsetter_type2.specs.Flat.{flat_form};
ghost use Rattle.subsetter_type2.specs.ProgramView.{program_bytes};

use crate::limits::Limits;
use crate::program::{Draft, Program};
use crate::runs::machine::{Flow, Machine, Subroutines};
use std::alloc::Global;
use subsetter_base::error::Error;

/// How a charstring ends.
#[derive(Clone, Copy)]
enum CharStringEnd {
    Return,
    EndChar,
}

/// The machine, and the tokens that are left.
#[derive(Drop)]
struct Recursion<'a> {
    machine: Machine<Draft<'a>>,
    tokens: u32,
}

impl<'a> Recursion<'a> {
    /// Runs a charstring to its end, `depth` deep.
    fn run(
        &mut self,
        subroutines: &Subroutines<'a>,
        limit: u8,
        depth: u8,
        charstring: &'a [u8],
    ) -> Result<CharStringEnd, Error>
        requires { depth ≤ limit }
        ensures run { RunsThrough (library_of subroutines.now) limit depth charstring.now self.old self.new result }
        ensures tokens { self.new.tokens ≤ self.old.tokens }
    {
        let mut rest = charstring;
        while !rest.is_empty() {
            if self.tokens == 0 {
                return Err(Error::CFFError);
            }
            self.tokens -= 1;
            match self.machine.act_at(subroutines, rest)? {
                Flow::GoesOn(next) => rest = next,
                Flow::Calls(body, next) => {
                    if depth >= limit {
                        return Err(Error::CFFError);
                    }
                    if let CharStringEnd::EndChar = self.run(subroutines, limit, depth + 1, body)? {
                        return Ok(CharStringEnd::EndChar);
                    }
                    rest = next;
                }
                Flow::Returns => return Ok(CharStringEnd::Return),
                Flow::Ends => return Ok(CharStringEnd::EndChar),
            }
        }
        Ok(CharStringEnd::Return)
    }
}

/// The program of a charstring without its subroutines.
pub fn decompile<'a>(
    alloc: Global,
    subroutines: &Subroutines<'a>,
    limits: &Limits,
    charstring: &'a [u8],
) -> Result<Program<'a>, Error>
    ensures { Gives program_bytes result (flat_form (library_of subroutines.now) limits.now.tokens limits.now.depth charstring.now) }
{
    let mut recursion = Recursion {
        machine: Machine::new(Draft::new(alloc)),
        tokens: limits.tokens,
    };
    recursion.run(subroutines, limits.depth, 1, charstring)?;
    Ok(recursion.machine.output.finish())
}
