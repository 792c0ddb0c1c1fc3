//! A run of the program.

use crate::failure::Failure;
use crate::table::run_table;
use std::rt::{Env, Files};
use std::{env, fs};

/// Runs the table that the argument names.
fn run_file<R: Env + Files + Print + AllocGlobal>(rt: &R) -> Result<(), Failure> {
    let words = env::args(rt).map_err(|_| Failure::Usage)?;
    let words: Vec<String> = words.skip(1).collect(rt.alloc())?;
    let [name] = words.as_slice() else {
        return Err(Failure::Usage);
    };
    let table = fs::read_to_string(rt, name.as_str()).map_err(|_| Failure::Read)?;
    run_table(rt, table.as_str())
}

/// Runs the program, and returns its status: 0 where each line is a row, else 1.
pub fn run<R: Env + Files + Print + Eprint + AllocGlobal>(rt: &R) -> u8 {
    match run_file(rt) {
        Ok(()) => 0,
        Err(failure) => {
            // A failure here can't be reported anywhere else: the status alone says it.
            let _ = eprintln!(rt; "{failure}");
            1
        }
    }
}
