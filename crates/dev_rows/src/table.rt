//! A table of rows.

use crate::answer::Answer;
use crate::failure::Failure;
use crate::fonts::{Instance, instance_by_words, shrunk_by_words};
use crate::movement::{Moved, moved_by_words, tuple};
use crate::outlines::{is_fit, read, read_and_written};
use crate::tables::{
    advance, axis_count, deltas, normalized_settings, point_numbers, quotient, region_scalar,
};
use crate::words::bytes;
use std::alloc::Global;

/// Bytes of the table.
#[derive(Drop)]
struct Named<'a> {
    name: &'a str,
    bytes: Vec<u8>,
}

/// The bytes of a name.
fn bytes_named<'a>(all: &'a [Named<'_>], name: &str) -> Result<&'a [u8], Failure> {
    for one in all {
        if one.name == name {
            return Ok(&one.bytes);
        }
    }
    Err(Failure::Row)
}

/// The bytes of a name, none for `-`.
fn named_if_any<'a>(all: &'a [Named<'_>], name: &str) -> Result<Option<&'a [u8]>, Failure> {
    if name == "-" {
        return Ok(None);
    }
    Ok(Some(bytes_named(all, name)?))
}

/// What the calls answer for a row of one word after its name.
fn answer_of_one(
    alloc: Global,
    all: &[Named<'_>],
    kind: &str,
    name: &str,
) -> Result<Answer, Failure> {
    let bytes = bytes_named(all, name)?;
    match kind {
        "axes" => axis_count(alloc, bytes),
        "read" => read(alloc, bytes),
        "written" => Ok(read_and_written(alloc, bytes)),
        _ => Err(Failure::Row),
    }
}

/// What the calls answer for a row of two words after its name.
fn answer_of_two(alloc: Global, kind: &str, first: &str, second: &str) -> Result<Answer, Failure> {
    match kind {
        "nearest" => quotient(alloc, first, second),
        "scalar" => region_scalar(alloc, first, second),
        "numbers" => point_numbers(alloc, first, &bytes(alloc, second)?),
        "deltas" => deltas(alloc, first, &bytes(alloc, second)?),
        _ => Err(Failure::Row),
    }
}

/// What the calls answer for a row of three words after its name.
fn answer_of_three(
    alloc: Global,
    all: &[Named<'_>],
    kind: &str,
    first: &str,
    second: &str,
    third: &str,
) -> Result<Answer, Failure> {
    if kind == "fits" {
        return is_fit(alloc, first, second, third);
    }
    let table = bytes_named(all, first)?;
    match kind {
        "coordinates" => normalized_settings(alloc, table, named_if_any(all, second)?, third),
        "tuple" => tuple(alloc, table, second, third),
        "advance" => advance(alloc, table, second, third),
        "shrunk" => shrunk_by_words(alloc, table, second, third, false),
        "shrunk_font" => shrunk_by_words(alloc, table, second, third, true),
        _ => Err(Failure::Row),
    }
}

/// What the calls answer for a row of more words after its name.
fn answer_of_more(
    alloc: Global,
    all: &[Named<'_>],
    kind: &str,
    words: &[&str],
) -> Result<Answer, Failure> {
    match (kind, words) {
        ("moved", [gvar, glyph, xs, ys, ends, at, steps]) => {
            let words = Moved {
                glyph: *glyph,
                xs: *xs,
                ys: *ys,
                ends: *ends,
                at: *at,
                steps: *steps,
            };
            moved_by_words(alloc, bytes_named(all, gvar)?, &words)
        }
        ("instance", [font, index, glyphs, settings, steps]) => {
            let words = Instance {
                index: *index,
                glyphs: *glyphs,
                settings: *settings,
                steps: *steps,
            };
            instance_by_words(alloc, bytes_named(all, font)?, &words)
        }
        _ => Err(Failure::Row),
    }
}

/// What the calls answer for a row, by its kind and the words after its name.
fn answer(alloc: Global, all: &[Named<'_>], kind: &str, words: &[&str]) -> Result<Answer, Failure> {
    match words {
        [name] => answer_of_one(alloc, all, kind, name),
        [first, second] => answer_of_two(alloc, kind, first, second),
        [first, second, third] => answer_of_three(alloc, all, kind, first, second, third),
        words => answer_of_more(alloc, all, kind, words),
    }
}

/// Does what a line says: keeps its bytes, or prints its name and what the calls answer.
fn run_line<'a, R: Print>(
    rt: &R,
    alloc: Global,
    all: &mut Vec<Named<'a>>,
    line: &'a str,
) -> Result<(), Failure> {
    if line.is_empty() || line.starts_with('#') {
        return Ok(());
    }
    let words: Vec<&str> = line.split(' ').collect(alloc)?;
    let [kind, name, following @ ..] = words.as_slice() else {
        return Err(Failure::Row);
    };
    if let ("bytes", [digits]) = (*kind, following) {
        let bytes = bytes(alloc, digits)?;
        return Ok(all.push(Named { name: *name, bytes })?);
    }
    let answer = answer(alloc, all, kind, following)?;
    println!(rt; "{name}:{answer}").ok().ok_or(Failure::Write)
}

/// Does what each line of a table says; a line that is no row is reported with its number.
pub fn run_table<R: Print + AllocGlobal>(rt: &R, table: &str) -> Result<(), Failure> {
    let mut all = Vec::new(rt.alloc());
    for (index, line) in table.lines().enumerate() {
        let ended = run_line(rt, rt.alloc(), &mut all, line);
        if let Err(Failure::Row) = &ended {
            let number = index.saturating_add(1);
            println!(rt; "line {number}").ok().ok_or(Failure::Write)?;
        }
        ended?;
    }
    Ok(())
}
