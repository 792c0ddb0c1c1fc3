//! Lines, each on a page of its own (ISO 32000-1, 7.7 and 9.4).

ghost use Rattle.std.specs.Prelude.{◌≡◌, ◌<◌, ◌+◌, ◌^◌, ◌++◌, IfErr, IfOk, OnOk, length};
ghost use Rattle.subsetter_base.specs.declared.error.Error.TheVariants.{OutOfMemory};
ghost use Rattle.pdf_text.specs.Dictionaries.Entries.{reference};
ghost use Rattle.pdf_sheet.specs.Pages.{font_number, stream_value};
ghost use Rattle.pdf_sheet.specs.Lines.{line_content, line_objects, line_page, line_pages, lines_front, lines_root, page_begin, page_end};
ghost use Rattle.pdf_sheet.specs.View.{texts_view};

use crate::frame::{Frame, line_frame, write_line_position};
use crate::pages::{stream_value, write_page_tree, write_reference};
use pdf_text::write_count;
use std::alloc::Global;
use subsetter_base::Error;

/// A line of a sheet. C has it as it is.
#[derive(Clone, Copy)]
#[repr(C)]
pub struct SheetLine<'a> {
    /// What shows it in a text object, where the font has 36 points.
    pub operators: &'a [u8],
    /// How far the pen goes on, in thousandths of the em.
    pub advance: u32,
}

/// The root of `count` pages, which each have their size.
#[tactic(auto, using(pdf_text::proofs::Pieces::two_after_nothing))]
fn lines_root(alloc: Global, count: usize) -> Result<Vec<u8>, Error>
    requires { count < 2 ^ 60 }
    ensures ok { IfOk result (λ text. text.items ≡ lines_root count) }
    ensures err { IfErr result (λ e. e ≡ OutOfMemory) }
{
    let mut text = Vec::new(alloc);
    write_page_tree(&mut text, count)?;
    text.extend_from_slice(b"] >>")?;
    Ok(text)
}

/// Writes the beginning of a page, with its size.
fn write_page_begin(text: &mut Vec<u8>, frame: Frame) -> Result<(), Error>
    ensures ok { OnOk result (text.new.items ≡ text.old.items ++ page_begin frame) }
    ensures err { IfErr result (λ e. e ≡ OutOfMemory) }
{
    text.extend_from_slice(b"<< /Type /Page /Parent 2 0 R /MediaBox [0 0 ")?;
    write_count(text, frame.width)?;
    text.extend_from_slice(b" ")?;
    write_count(text, frame.height)?;
    text.extend_from_slice(b"]")?;
    Ok(())
}

/// Writes the end of a page that has the font with the first number, and the content with the second.
#[tactic(auto, using(pdf_text::proofs::Written::five_written))]
fn write_page_end(text: &mut Vec<u8>, font: usize, n: usize) -> Result<(), Error>
    ensures ok { OnOk result (text.new.items ≡ text.old.items ++ page_end font n) }
    ensures err { IfErr result (λ e. e ≡ OutOfMemory) }
{
    text.extend_from_slice(b" /Resources << /Font << /F0 ")?;
    write_reference(text, font)?;
    text.extend_from_slice(b" >> >> /Contents ")?;
    write_reference(text, n)?;
    text.extend_from_slice(b" >>")?;
    Ok(())
}

/// The page of a line.
#[tactic(auto, using(pdf_text::proofs::Pieces::two_after_nothing))]
fn line_page(alloc: Global, frame: Frame, font: usize, n: usize) -> Result<Vec<u8>, Error>
    ensures ok { IfOk result (λ text. text.items ≡ line_page frame font n) }
    ensures err { IfErr result (λ e. e ≡ OutOfMemory) }
{
    let mut text = Vec::new(alloc);
    write_page_begin(&mut text, frame)?;
    write_page_end(&mut text, font, n)?;
    Ok(text)
}

/// The content of a line's page.
#[tactic(auto, using(pdf_text::proofs::Pieces::four_after_nothing))]
fn line_content(alloc: Global, frame: Frame, operators: &[u8]) -> Result<Vec<u8>, Error>
    ensures ok { IfOk result (λ text. text.items ≡ line_content frame operators.now) }
    ensures err { IfErr result (λ e. e ≡ OutOfMemory) }
{
    let mut text = Vec::new(alloc);
    text.extend_from_slice(b"BT\n/F0 36 Tf\n")?;
    write_line_position(&mut text, frame.vertical, frame.height)?;
    text.extend_from_slice(operators)?;
    text.extend_from_slice(b"ET")?;
    Ok(text)
}

/// The stream of a line's page.
fn content_value(alloc: Global, frame: Frame, operators: &[u8]) -> Result<Vec<u8>, Error>
    ensures ok { IfOk result (λ text. text.items ≡ stream_value (line_content frame operators.now)) }
    ensures err { IfErr result (λ e. e ≡ OutOfMemory) }
{
    let content = line_content(alloc, frame, operators)?;
    stream_value(alloc, &content)
}

/// Puts the page of a line and its content, which is the next object, after other values.
fn push_line(
    alloc: Global,
    values: &mut Vec<Vec<u8>>,
    vertical: bool,
    font: usize,
    number: usize,
    line: SheetLine<'_>,
) -> Result<(), Error>
    requires { number + 1 < 2 ^ 64 }
    ensures ok { OnOk result (texts_view values.new.items ≡ texts_view values.old.items ++ line_objects vertical font number line.entry) }
    ensures err { IfErr result (λ e. e ≡ OutOfMemory) }
{
    let frame = line_frame(vertical, line.advance);
    values.push(line_page(alloc, frame, font, number + 1)?)?;
    values.push(content_value(alloc, frame, line.operators)?)?;
    Ok(())
}

/// Puts the pages of lines and their contents after other values.
fn push_lines(
    alloc: Global,
    values: &mut Vec<Vec<u8>>,
    vertical: bool,
    font: usize,
    lines: &[SheetLine<'_>],
) -> Result<(), Error>
    requires { length lines.now < 2 ^ 60 }
    ensures ok { OnOk result (texts_view values.new.items ≡ texts_view values.old.items ++ line_pages vertical font 3 lines.now) }
    ensures err { IfErr result (λ e. e ≡ OutOfMemory) }
{
    let mut number = 3;
    for line in lines {
        push_line(alloc, values, vertical, font, number, *line)?;
        number += 2;
    }
    Ok(())
}

/// The values of the objects before the font, whose number is the next one.
pub fn lines_front(
    alloc: Global,
    vertical: bool,
    font: u32,
    lines: &[SheetLine<'_>],
) -> Result<Vec<Vec<u8>>, Error>
    requires { font ≡ font_number (length lines.now) }
    ensures ok { IfOk result (λ values. texts_view values.items ≡ lines_front vertical lines.now) }
    ensures err { IfErr result (λ e. e ≡ OutOfMemory) }
{
    let mut values = Vec::new(alloc);
    values.push(Vec::from_slice(alloc, b"<< /Type /Catalog /Pages 2 0 R >>")?)?;
    values.push(lines_root(alloc, lines.len())?)?;
    push_lines(alloc, &mut values, vertical, font as usize, lines)?;
    Ok(values)
}
