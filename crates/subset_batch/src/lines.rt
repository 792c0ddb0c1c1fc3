//! The lines of a file of requests.

ghost use Rattle.std.specs.Prelude.{◌≡◌, ◌≤◌, ◌++◌, ◌==◌, map, length, OnOk, IfOk};
ghost use Rattle.subset_batch.specs.Lines.{is_blank_line, line_if, numbered, parts_of, request_lines};
ghost use Rattle.subset_batch.specs.View.{lines_view};

use crate::json::blanks::skip_ws;
use std::alloc::{AllocError, Global};

/// A line of a file, with its number from 1.
#[derive(Clone, Copy)]
pub struct Line<'a> {
    pub number: usize,
    pub bytes: &'a [u8],
}

/// Whether a line has white space alone.
fn is_blank_line(bytes: &[u8]) -> bool
    ensures { result ≡ is_blank_line bytes.now }
{
    match skip_ws(bytes) {
        [] => true,
        [_, ..] => false,
    }
}

/// Adds a line, if it isn't blank.
fn push_line<'a>(
    lines: &mut Vec<Line<'a>>,
    number: usize,
    bytes: &'a [u8],
) -> Result<(), AllocError>
    ensures { OnOk result (lines_view lines.new.items ≡ lines_view lines.old.items ++ line_if number bytes.now) }
{
    if is_blank_line(bytes) {
        return Ok(());
    }
    lines.push(Line { number, bytes })?;
    Ok(())
}

/// The parts of a file between its line feeds.
fn parts_of(alloc: Global, file: &[u8]) -> Result<Vec<&[u8]>, AllocError>
    ensures { IfOk result (λ v. map (λ part. part.now) v.items ≡ parts_of file.now) }
{
    file.split(|b| *b == b'\n').collect(alloc)
}

/// The parts that aren't blank, with their numbers.
#[tactic(auto, using(crate::proofs::Appends::at_first, crate::proofs::Appends::after_part, crate::proofs::Appends::at_last))]
fn numbered<'a>(alloc: Global, parts: &[&'a [u8]]) -> Result<Vec<Line<'a>>, AllocError>
    ensures { IfOk result (λ v. lines_view v.items ≡ numbered (length parts.now) (map (λ part. part.now) parts.now)) }
{
    let mut lines = Vec::new(alloc);
    let mut rest = parts;
    while let [part, following @ ..] = rest {
        push_line(
            &mut lines,
            parts.len().saturating_sub(following.len()),
            part,
        )?;
        rest = following;
    }
    Ok(lines)
}

/// The lines of a file of requests that aren't blank, each with its number from 1.
#[tactic(auto, unfolding(crate::specs::Lines::request_lines))]
pub fn lines_of(alloc: Global, file: &[u8]) -> Result<Vec<Line<'_>>, AllocError>
    ensures { IfOk result (λ v. lines_view v.items ≡ request_lines file.now) }
{
    let parts = parts_of(alloc, file)?;
    numbered(alloc, &parts)
}
