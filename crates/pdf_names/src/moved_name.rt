//! The PostScript name of a font that is off its default (Technical Note 5902).

ghost use Rattle.std.specs.Prelude.{◌≡◌, ◌++◌, codes, IfOk, IfErr, take};
ghost use Rattle.std.specs.Option.{option_copied};
ghost use Rattle.subsetter_base.specs.declared.error.Error.TheVariants.{OutOfMemory};
ghost use Rattle.pdf_values.specs.Movement.{movement_view};
ghost use Rattle.pdf_text.specs.SubsetName.{tag_of};
ghost use Rattle.pdf_names.specs.AxisTexts.{axes_text};
ghost use Rattle.pdf_names.specs.MovedName.{name_at, shortened, whole_name, IsShortName};

use crate::axis_texts::write_axes;
use crate::instances::instance_name;
use crate::letters::prefix;
use pdf_text::tag_of;
use pdf_values::Movement;
use std::alloc::Global;
use subsetter_base::Error;

/// A prefix with each coordinate that isn't the default.
fn with_axes(alloc: Global, front: &[u8], movement: Movement<'_>) -> Result<Vec<u8>, Error>
    ensures ok { IfOk result (λ text. text.items ≡ front.now ++ axes_text (movement_view movement.entry).axes (movement_view movement.entry).settings) }
    ensures err { IfErr result (λ e. e ≡ OutOfMemory) }
{
    let mut text = Vec::new(alloc);
    text.extend_from_slice(front)?;
    write_axes(alloc, &mut text, movement.axes, movement.settings)?;
    Ok(text)
}

/// The name of the named instance at the coordinates, else the prefix with each coordinate that isn't the default.
#[tactic(auto, unfolding(crate::specs::MovedName::whole_name), using(pdf_values::proofs::Strings::or_kept, pdf_values::proofs::Strings::or_passed))]
fn whole_name(
    alloc: Global,
    front: &[u8],
    name: Option<&[u8]>,
    fvar: Option<&[u8]>,
    movement: Movement<'_>,
) -> Result<Vec<u8>, Error>
    ensures ok { IfOk result (λ text. text.items ≡ whole_name front.now (option_copied name.entry) (option_copied fvar.entry) (movement_view movement.entry)) }
    ensures err { IfErr result (λ e. e ≡ OutOfMemory) }
{
    let text = instance_name(alloc, name, front, movement.axes, movement.settings, fvar)?;
    if text.is_empty() {
        return with_axes(alloc, front, movement);
    }
    Ok(text)
}

/// The first 110 bytes, or all where there are fewer.
fn front_of(bytes: &[u8]) -> &[u8]
    ensures { result.now ≡ take 110 bytes.now }
{
    if bytes.len() <= 110 {
        return bytes;
    }
    &bytes[..110]
}

/// The front of a prefix, and six letters that a text determines.
#[tactic(auto, using(pdf_text::proofs::Pieces::four_after_nothing))]
fn cut_name(alloc: Global, front: &[u8], text: &[u8]) -> Result<Vec<u8>, Error>
    ensures ok { IfOk result (λ t. t.items ≡ take 110 front.now ++ (codes "-" ++ (tag_of text.now ++ codes "..."))) }
    ensures err { IfErr result (λ e. e ≡ OutOfMemory) }
{
    let mut cut = Vec::new(alloc);
    cut.extend_from_slice(front_of(front))?;
    cut.extend_from_slice(b"-")?;
    cut.extend_from_slice(&tag_of(text))?;
    cut.extend_from_slice(b"...")?;
    Ok(cut)
}

/// A text, cut where it has more than 120 bytes.
#[tactic(auto, unfolding(crate::specs::MovedName::shortened))]
fn shortened(alloc: Global, front: &[u8], text: Vec<u8>) -> Result<Vec<u8>, Error>
    ensures ok { IfOk result (λ t. t.items ≡ shortened front.now text.items) }
    ensures err { IfErr result (λ e. e ≡ OutOfMemory) }
{
    if text.len() <= 120 {
        return Ok(text);
    }
    cut_name(alloc, front, &text)
}

/// The name, by its definition alone.
fn name_of(
    alloc: Global,
    name: Option<&[u8]>,
    fvar: Option<&[u8]>,
    movement: Movement<'_>,
    cff: Option<&[u8]>,
) -> Result<Vec<u8>, Error>
    ensures ok { IfOk result (λ text. text.items ≡ name_at (option_copied name.entry) (option_copied fvar.entry) (movement_view movement.entry) (option_copied cff.entry)) }
    ensures err { IfErr result (λ e. e ≡ OutOfMemory) }
{
    let front = prefix(alloc, name, cff)?;
    let text = whole_name(alloc, &front, name, fvar, movement)?;
    shortened(alloc, &front, text)
}

/// The PostScript name of a font that is off its default, of at most 120 bytes: that of the named instance at its
/// coordinates, else the name of its family with each coordinate that isn't the default. `cff` is the first name of the Name
/// INDEX of `CFF `, if the caller has it.
///
/// # Errors
///
/// `OutOfMemory` alone.
pub fn name_at(
    alloc: Global,
    name: Option<&[u8]>,
    fvar: Option<&[u8]>,
    movement: Movement<'_>,
    cff: Option<&[u8]>,
) -> Result<Vec<u8>, Error>
    ensures ok { IfOk result (λ text. text.items ≡ name_at (option_copied name.entry) (option_copied fvar.entry) (movement_view movement.entry) (option_copied cff.entry)) }
    ensures short { IfOk result (λ text. IsShortName text.items) }
    ensures err { IfErr result (λ e. e ≡ OutOfMemory) }
{
    name_of(alloc, name, fvar, movement, cff)
}
