//! Runs a table of worked rows: `dev_rows FILE`. The head of the table, `data/instance.txt`, says what each kind of row holds.
//!
//! For each row a line is printed: its name, and after it what the calls answer: lists of numbers, bytes in hexadecimal digits,
//! `none`, or `error` and the text of the error. `stdout` has what is to be printed; its values come from outside. A line that is
//! no row ends the run with its number, and a status other than 0.
#![tactic(auto)]

mod answer;
mod failure;
mod fonts;
mod movement;
mod outlines;
mod running;
mod table;
mod tables;
mod words;

use std::process::ExitCode;

fn main(rt: HostRuntime) -> ExitCode {
    ExitCode::from(running::run(&rt))
}
