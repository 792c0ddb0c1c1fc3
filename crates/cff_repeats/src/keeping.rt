//! The glyphs of the new table, one after the other.

ghost use Rattle.std.specs.Prelude.{◌≡◌, ◌++◌, OnOk, IfOk, IfErr};
ghost use Rattle.subsetter_base.specs.Bytes.{IsBytes};
ghost use Rattle.subsetter_base.specs.Gives.{Fails};
ghost use Rattle.subsetter_base.specs.declared.error.Error.TheVariants.{OutOfMemory};
ghost use Rattle.subsetter_cff.specs.Read.Source.{cff_of, IsSource};
ghost use Rattle.subsetter_cff.specs.Write.Glyphs.KeptView.{IsPut};
ghost use Rattle.pdf_widths.specs.Change.{width_text};
ghost use Rattle.cff_repeats.specs.Repeats.{figures_of};
ghost use Rattle.cff_repeats.specs.View.{figure_view, AreKeptFigures};

use crate::figures::{Figure, blank, find_figure};
use std::alloc::Global;
use subsetter_base::Error;
use subsetter_cff::read::source::Table;
use subsetter_cff::write::glyphs::kept_glyphs::KeptGlyphs;
use subsetter_cffdata::numerals::charstring_number::CharStringNumber;

/// Writes a width, if there is one.
fn put_width(width: Option<CharStringNumber>, bytes: &mut Vec<u8>) -> Result<(), Error>
    ensures ok { OnOk result (bytes.new.items ≡ bytes.old.items ++ width_text width) }
    ensures err { IfErr result (λ e. e ≡ OutOfMemory) }
{
    if let Some(number) = width {
        number.append(bytes)?;
    }
    Ok(())
}

/// One glyph more.
fn keep_next(figure: &Figure<'_>, kept: KeptGlyphs) -> Result<KeptGlyphs, Error>
    ensures ok { IfOk result (λ k. IsPut kept k (figure_view figure.now)) }
    ensures err { IfErr result (λ e. e ≡ OutOfMemory) }
{
    let mut numbers = kept.numbers;
    let mut char_strings = kept.char_strings;
    let mut ends = kept.ends;
    numbers.push(figure.number)?;
    put_width(figure.width, &mut char_strings)?;
    char_strings.extend_from_slice(figure.body)?;
    ends.push(char_strings.len() + 1)?;
    Ok(KeptGlyphs {
        numbers,
        char_strings,
        ends,
    })
}

/// What is known of numbers of eight bits.
fn are_bytes(numbers: &[u8])
    ensures { IsBytes numbers.now }
{}

/// The glyphs of the new table.
pub fn keep_figures(
    alloc: Global,
    table: &Table<'_>,
    figures: &[Option<u16>],
) -> Result<KeptGlyphs, Error>
    requires { IsSource table.now }
    ensures ok { IfOk result (λ k. AreKeptFigures (cff_of table.now) figures.now k) }
    ensures small { IfOk result (λ k. IsBytes k.numbers.items) }
    ensures err { IfErr result (λ e. Fails e (figures_of (cff_of table.now) figures.now)) }
{
    let blank = blank(table);
    let mut kept = KeptGlyphs {
        numbers: Vec::with_capacity(alloc, figures.len())?,
        char_strings: Vec::new(alloc),
        ends: Vec::with_capacity(alloc, figures.len())?,
    };
    for glyph in figures {
        let found = find_figure(table, &blank, *glyph)?;
        kept = keep_next(&found, kept)?;
    }
    are_bytes(&kept.numbers);
    Ok(kept)
}
