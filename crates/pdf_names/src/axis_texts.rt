//! The coordinates of a font in its name (Technical Note 5902).

ghost use Rattle.std.specs.Prelude.{◌≡◌, ◌++◌, IfErr, OnOk};
ghost use Rattle.subsetter_base.specs.declared.error.Error.TheVariants.{OutOfMemory};
ghost use Rattle.pdf_names.specs.AxisTexts.{axes_text, axis_text, setting_text};
ghost use Rattle.pdf_names.specs.Letters.{letters_and_digits};

use crate::decimal::write_value;
use crate::letters::letters_and_digits;
use std::alloc::Global;
use subsetter_base::{Error, Tag};
use subsetter_variation::locations::axes::{Axis, clamped};

/// Writes the letters and digits of a tag.
fn write_tag(alloc: Global, text: &mut Vec<u8>, tag: Tag) -> Result<(), Error>
    ensures ok { OnOk result (text.new.items ≡ text.old.items ++ letters_and_digits tag.0) }
    ensures err { IfErr result (λ e. e ≡ OutOfMemory) }
{
    let letters = letters_and_digits(alloc, tag.get())?;
    text.extend_from_slice(&letters)?;
    Ok(())
}

/// Writes a coordinate and its axis.
#[tactic(auto, unfolding(crate::specs::AxisTexts::setting_text), using(pdf_text::proofs::Written::three_written))]
fn write_setting(
    alloc: Global,
    text: &mut Vec<u8>,
    axis: Axis,
    coordinate: i32,
) -> Result<(), Error>
    ensures ok { OnOk result (text.new.items ≡ text.old.items ++ setting_text axis coordinate) }
    ensures err { IfErr result (λ e. e ≡ OutOfMemory) }
{
    text.extend_from_slice(b"_")?;
    write_value(text, coordinate)?;
    write_tag(alloc, text, axis.tag)
}

/// Writes the coordinate on an axis, if it isn't the default.
#[tactic(auto, unfolding(crate::specs::AxisTexts::axis_text))]
fn write_axis(
    alloc: Global,
    text: &mut Vec<u8>,
    axis: Axis,
    settings: &[(Tag, i32)],
) -> Result<(), Error>
    ensures ok { OnOk result (text.new.items ≡ text.old.items ++ axis_text axis settings.now) }
    ensures err { IfErr result (λ e. e ≡ OutOfMemory) }
{
    let coordinate = clamped(axis, settings);
    if coordinate == axis.default {
        return Ok(());
    }
    write_setting(alloc, text, axis, coordinate)
}

/// Writes the coordinates that aren't the default.
#[tactic(auto, using(pdf_text::proofs::Written::one_more_written))]
pub fn write_axes(
    alloc: Global,
    text: &mut Vec<u8>,
    axes: &[Axis],
    settings: &[(Tag, i32)],
) -> Result<(), Error>
    ensures ok { OnOk result (text.new.items ≡ text.old.items ++ axes_text axes.now settings.now) }
    ensures err { IfErr result (λ e. e ≡ OutOfMemory) }
{
    for axis in axes {
        write_axis(alloc, text, *axis, settings)?;
    }
    Ok(())
}
