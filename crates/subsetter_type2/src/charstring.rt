//! Type 2 charstrings (Technical Note 5177).

ghost use Rattle.std.specs.Prelude.{◌≡◌, None, length};
ghost use Rattle.subsetter_base.specs.Gives.{Gives, following};
ghost use Rattle.subsetter_base.specs.Within.{GivesWithin};
ghost use Rattle.subsetter_type2.specs.Flat.{flat_form};
ghost use Rattle.subsetter_type2.specs.ProgramView.{program_bytes};

use crate::limits::Limits;
pub use crate::operators;
pub use crate::program::{Instruction, Program};
use crate::runs::fixed_stack::FixedStack;
use crate::runs::machine::Subroutines;
use crate::runs::{flattening, recursion};
use crate::subroutines::SubroutineHandler;
use std::alloc::Global;
use std::marker::Model;
use subsetter_base::error::Error;

/// The bytes of a charstring.
pub type CharString<'a> = &'a [u8];

/// Takes the subroutines out of a charstring.
#[derive(Drop)]
pub struct Decompiler<'a> {
    subroutines: Subroutines<'a>,
    limits: Limits,
}

impl<'a> Model for Decompiler<'a> {
    ghost use Rattle.subsetter_type2.specs.Runs.Machine.{Library};
    ghost use Rattle.subsetter_type2.specs.Runs.Setting.{Setting};

    ghost Value = { Setting };

    ghost view = { λ d. record {
      library = record { global = d.subroutines.global; local = d.subroutines.local };
      tokens = d.limits.tokens;
      depth = d.limits.depth;
      bytes = d.limits.bytes;
    } };
}

impl<'a> Decompiler<'a> {
    /// With these global subroutines, the local ones of the glyph's font dict, and the default limits.
    pub fn new(global: SubroutineHandler<'a>, local: SubroutineHandler<'a>) -> Self
        ensures { result ≡ record { library = record { global = global.entry; local = local.entry }; tokens = 1000000; depth = 64; bytes = None } }
    {
        Self::with_limits(global, local, Limits::default())
    }

    /// With these global subroutines, the local ones of the glyph's font dict, and these limits.
    pub fn with_limits(
        global: SubroutineHandler<'a>,
        local: SubroutineHandler<'a>,
        limits: Limits,
    ) -> Self
        ensures { result ≡ record { library = record { global = global.entry; local = local.entry }; tokens = limits.tokens; depth = limits.depth; bytes = limits.bytes } }
    {
        Decompiler {
            subroutines: Subroutines { global, local },
            limits,
        }
    }

    /// The program of the charstring without its subroutines, whose bytes are the flat form of the trace. It has no bound.
    ///
    /// `CFFError` where the charstring is malformed or passes a limit, `Unimplemented` where it ends by putting two
    /// glyphs together.
    pub fn decompile(self, alloc: Global, charstring: CharString<'a>) -> Result<Program<'a>, Error>
        ensures { Gives program_bytes result (flat_form self.entry.library self.entry.tokens self.entry.depth charstring.now) }
    {
        recursion::decompile(alloc, &self.subroutines, &self.limits, charstring)
    }

    /// The charstring without its subroutines: the flat form of the trace. Nothing but these bytes takes memory.
    ///
    /// `CFFError` where the charstring is malformed or passes a limit, `Unimplemented` where it ends by putting two
    /// glyphs together, `OverflowError` where the bytes pass their bound, before more of them are written.
    #[tactic(auto, using(crate::proofs::RunsLaws::AfterRuns::after_none))]
    pub fn flatten(self, alloc: Global, charstring: CharString<'a>) -> Result<Vec<u8>, Error>
        ensures { GivesWithin (λ bytes. bytes.items) self.entry.bytes length result (flat_form self.entry.library self.entry.tokens self.entry.depth charstring.now) }
    {
        let mut rests: FixedStack<&'a [u8], 64> = FixedStack::new(charstring);
        self.flatten_after(Vec::new(alloc), charstring, &mut rests)
    }

    /// The charstring without its subroutines, written after these bytes, which count too; they are lost where it can't be.
    /// What is left of callers goes into a stack, whatever it held, which many charstrings can share.
    ///
    /// The errors are those of `flatten`.
    pub fn flatten_after(
        self,
        bytes: Vec<u8>,
        charstring: CharString<'a>,
        rests: &mut FixedStack<&'a [u8], 64>,
    ) -> Result<Vec<u8>, Error>
        ensures { GivesWithin (λ all. all.items) self.entry.bytes length result (following bytes.items (flat_form self.entry.library self.entry.tokens self.entry.depth charstring.now)) }
    {
        flattening::flatten_after(bytes, &self.subroutines, &self.limits, charstring, rests)
    }
}
