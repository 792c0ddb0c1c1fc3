//! Writes a subset of a font: `subset_font [OPTIONS] IN OUT INDEX GID[,GID..]`.
//!
//! ```text
//! subset_font --widths DejaVuSans.ttf subset.ttf 0 36,37,38
//! ```
//!
//! `run` reads the arguments and the files, and reports what failed; `carried` is a run between a reader and two writers,
//! of which it is proved what is written.
#![tactic(auto)]

mod batch;
mod faces;
mod help;
mod making;
mod output;
mod refusals;
mod run;

pub use batch::making::{answer_apart, answer_of, carry_answer, read_source};
pub use batch::running::{
    AnswerLines, batch_or_status, read_lines, refuse_memory, status_of_batch,
};
pub use faces::accepted::InfoParts;
pub use faces::info::carry_info;
pub use help::{HELP, VERSION_LINE};
pub use making::carried::carry_out;
pub use making::outcome::{Outcome, make_planned};
pub use making::subset::{Made, make_of};
pub use output::emit;
pub use refusals::hint::found::{find_axes_hint, find_hint};
pub use run::program::{Ended, run_by};

fn main(rt: HostRuntime) -> Ended {
    run::program::run(&rt)
}
