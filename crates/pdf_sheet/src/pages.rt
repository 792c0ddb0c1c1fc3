//! The objects before the font: catalog, pages and their contents (ISO 32000-1, 7.7).

ghost use Rattle.std.specs.Prelude.{◌≡◌, ◌<◌, ◌+◌, ◌^◌, ◌++◌, ◌∷◌, [], IfErr, IfOk, OnOk, codes, decimal, length, min};
ghost use Rattle.subsetter_base.specs.declared.error.Error.TheVariants.{OutOfMemory};
ghost use Rattle.pdf_text.specs.Dictionaries.Entries.{reference};
ghost use Rattle.pdf_text.specs.Objects.{stream_end};
ghost use Rattle.pdf_sheet.specs.Content.{content};
ghost use Rattle.pdf_sheet.specs.Pages.{catalog_value, kids, pages_value, page_value, stream_value, page_values, pages_by, pages_of, page_count, font_number, front_values};
ghost use Rattle.pdf_sheet.specs.View.{texts_view};

use crate::content::content_of;
use crate::frame::{Frame, Layout};
use crate::glyphs::SheetGlyph;
use pdf_text::write_count;
use std::alloc::Global;
use subsetter_base::Error;

// ---- values

/// Writes a reference to an object.
#[tactic(auto, using(pdf_text::proofs::Pieces::two_written))]
pub fn write_reference(text: &mut Vec<u8>, n: usize) -> Result<(), Error>
    ensures ok { OnOk result (text.new.items ≡ text.old.items ++ reference n) }
    ensures err { IfErr result (λ e. e ≡ OutOfMemory) }
{
    write_count(text, n)?;
    text.extend_from_slice(b" 0 R")?;
    Ok(())
}

/// Writes a reference, and a blank.
#[tactic(auto, using(pdf_text::proofs::Pieces::two_written))]
fn write_kid(text: &mut Vec<u8>, n: usize) -> Result<(), Error>
    ensures ok { OnOk result (text.new.items ≡ text.old.items ++ (reference n ++ codes " ")) }
    ensures err { IfErr result (λ e. e ≡ OutOfMemory) }
{
    write_reference(text, n)?;
    text.extend_from_slice(b" ")?;
    Ok(())
}

/// Writes references to pages, the first of which is object 3.
fn write_kids(text: &mut Vec<u8>, count: usize) -> Result<(), Error>
    requires { count < 2 ^ 60 }
    ensures ok { OnOk result (text.new.items ≡ text.old.items ++ kids 3 count) }
    ensures err { IfErr result (λ e. e ≡ OutOfMemory) }
{
    for page in 0..count {
        write_kid(text, 3 + 2 * page)?;
    }
    Ok(())
}

/// Writes how many pages there are, and which objects they are.
#[tactic(auto, using(pdf_text::proofs::Written::four_written))]
pub fn write_page_tree(text: &mut Vec<u8>, count: usize) -> Result<(), Error>
    requires { count < 2 ^ 60 }
    ensures ok { OnOk result (text.new.items ≡ text.old.items ++ (codes "<< /Type /Pages /Count " ++ (decimal count ++ (codes " /Kids [" ++ kids 3 count)))) }
    ensures err { IfErr result (λ e. e ≡ OutOfMemory) }
{
    text.extend_from_slice(b"<< /Type /Pages /Count ")?;
    write_count(text, count)?;
    text.extend_from_slice(b" /Kids [")?;
    write_kids(text, count)?;
    Ok(())
}

/// Writes the size of the pages, and the end of their root.
fn write_size(text: &mut Vec<u8>, frame: Frame) -> Result<(), Error>
    ensures ok { OnOk result (text.new.items ≡ text.old.items ++ (codes "] /MediaBox [0 0 " ++ (decimal frame.width ++ (codes " " ++ (decimal frame.height ++ codes "] >>"))))) }
    ensures err { IfErr result (λ e. e ≡ OutOfMemory) }
{
    text.extend_from_slice(b"] /MediaBox [0 0 ")?;
    write_count(text, frame.width)?;
    text.extend_from_slice(b" ")?;
    write_count(text, frame.height)?;
    text.extend_from_slice(b"] >>")?;
    Ok(())
}

/// The root of the pages.
fn pages_value(alloc: Global, frame: Frame, count: usize) -> Result<Vec<u8>, Error>
    requires { count < 2 ^ 60 }
    ensures ok { IfOk result (λ text. text.items ≡ pages_value frame count) }
    ensures err { IfErr result (λ e. e ≡ OutOfMemory) }
{
    let mut text = Vec::new(alloc);
    write_page_tree(&mut text, count)?;
    write_size(&mut text, frame)?;
    Ok(text)
}

/// A page that has the font with the first number, and the content with the second.
#[tactic(auto, using(pdf_text::proofs::Written::four_written))]
fn page_value(alloc: Global, font: usize, n: usize) -> Result<Vec<u8>, Error>
    ensures ok { IfOk result (λ text. text.items ≡ page_value font n) }
    ensures err { IfErr result (λ e. e ≡ OutOfMemory) }
{
    let mut text = Vec::from_slice(
        alloc,
        b"<< /Type /Page /Parent 2 0 R /Resources << /Font << /F0 ",
    )?;
    write_reference(&mut text, font)?;
    text.extend_from_slice(b" >> >> /Contents ")?;
    write_reference(&mut text, n)?;
    text.extend_from_slice(b" >>")?;
    Ok(text)
}

/// Writes the dictionary of a stream up to its bytes.
#[tactic(auto, using(pdf_text::proofs::Written::three_written))]
fn write_stream_front(text: &mut Vec<u8>, size: usize) -> Result<(), Error>
    ensures ok { OnOk result (text.new.items ≡ text.old.items ++ (codes "<< /Length " ++ (decimal size ++ codes " >>\nstream\n"))) }
    ensures err { IfErr result (λ e. e ≡ OutOfMemory) }
{
    text.extend_from_slice(b"<< /Length ")?;
    write_count(text, size)?;
    text.extend_from_slice(b" >>\nstream\n")?;
    Ok(())
}

/// A stream of these bytes.
#[tactic(auto, using(crate::proofs::Steps::stream_written))]
pub fn stream_value(alloc: Global, bytes: &[u8]) -> Result<Vec<u8>, Error>
    ensures ok { IfOk result (λ text. text.items ≡ stream_value bytes.now) }
    ensures err { IfErr result (λ e. e ≡ OutOfMemory) }
{
    let mut text = Vec::new(alloc);
    write_stream_front(&mut text, bytes.len())?;
    text.extend_from_slice(bytes)?;
    text.extend_from_slice(b"\nendstream")?;
    Ok(text)
}

/// The content of a page, as a stream.
fn content_value(alloc: Global, frame: Frame, glyphs: &[SheetGlyph<'_>]) -> Result<Vec<u8>, Error>
    ensures ok { IfOk result (λ text. text.items ≡ stream_value (content frame glyphs.now)) }
    ensures err { IfErr result (λ e. e ≡ OutOfMemory) }
{
    let content = content_of(alloc, frame, glyphs)?;
    stream_value(alloc, &content)
}

// ---- objects

/// Puts a page and its content, which is the next object, after other values.
fn push_page(
    alloc: Global,
    values: &mut Vec<Vec<u8>>,
    frame: Frame,
    font: usize,
    number: usize,
    glyphs: &[SheetGlyph<'_>],
) -> Result<(), Error>
    requires { number + 1 < 2 ^ 64 }
    ensures ok { OnOk result (texts_view values.new.items ≡ texts_view values.old.items ++ (page_value font (number + 1) ∷ stream_value (content frame glyphs.now) ∷ [])) }
    ensures err { IfErr result (λ e. e ≡ OutOfMemory) }
{
    values.push(page_value(alloc, font, number + 1)?)?;
    values.push(content_value(alloc, frame, glyphs)?)?;
    Ok(())
}

/// How many of `count` glyphs the next page of a grid has.
fn page_size(count: usize) -> usize
    ensures { result ≡ min count 192 }
{
    count.min(192)
}

/// Puts `count` pages and their contents after other values.
fn push_pages(
    alloc: Global,
    values: &mut Vec<Vec<u8>>,
    frame: Frame,
    font: usize,
    count: usize,
    glyphs: &[SheetGlyph<'_>],
) -> Result<(), Error>
    requires { count < 2 ^ 60 }
    ensures ok { OnOk result (texts_view values.new.items ≡ texts_view values.old.items ++ page_values frame font 3 (pages_by count glyphs.now)) }
    ensures err { IfErr result (λ e. e ≡ OutOfMemory) }
{
    let mut rest = glyphs;
    for page in 0..count {
        let size = page_size(rest.len());
        push_page(alloc, values, frame, font, 3 + 2 * page, &rest[..size])?;
        rest = &rest[size..];
    }
    Ok(())
}

/// Puts all pages and their contents after other values.
fn push_all(
    alloc: Global,
    values: &mut Vec<Vec<u8>>,
    frame: Frame,
    font: usize,
    layout: Layout,
    glyphs: &[SheetGlyph<'_>],
) -> Result<(), Error>
    ensures ok { OnOk result (texts_view values.new.items ≡ texts_view values.old.items ++ page_values frame font 3 (pages_of layout glyphs.now)) }
    ensures err { IfErr result (λ e. e ≡ OutOfMemory) }
{
    match layout {
        Layout::Line => push_page(alloc, values, frame, font, 3, glyphs),
        Layout::Grid => {
            push_pages(
                alloc,
                values,
                frame,
                font,
                page_count(layout, glyphs.len()),
                glyphs,
            )
        }
    }
}

/// How many pages `size` glyphs need.
pub fn page_count(layout: Layout, size: usize) -> usize
    ensures value { result ≡ page_count layout size }
    ensures few { result < 2 ^ 60 }
{
    match layout {
        Layout::Line => 1,
        Layout::Grid => 1 + size.saturating_sub(1) / 192,
    }
}

/// The values of the objects before the font, whose number is the next one.
#[tactic(auto)]
pub fn front_values(
    alloc: Global,
    layout: Layout,
    frame: Frame,
    font: usize,
    glyphs: &[SheetGlyph<'_>],
) -> Result<Vec<Vec<u8>>, Error>
    requires { font ≡ font_number (page_count layout (length glyphs.now)) }
    ensures ok { IfOk result (λ values. texts_view values.items ≡ front_values layout frame glyphs.now) }
    ensures err { IfErr result (λ e. e ≡ OutOfMemory) }
{
    let count = page_count(layout, glyphs.len());
    let mut values = Vec::new(alloc);
    values.push(Vec::from_slice(alloc, b"<< /Type /Catalog /Pages 2 0 R >>")?)?;
    values.push(pages_value(alloc, frame, count)?)?;
    push_all(alloc, &mut values, frame, font, layout, glyphs)?;
    Ok(values)
}
