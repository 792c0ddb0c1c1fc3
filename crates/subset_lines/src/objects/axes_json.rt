//! The outlines of a font, its axes and its named instances as one JSON object (RFC 8259).

ghost use Rattle.std.specs.Prelude.{◌≡◌, ◌++◌, [], OnOk, IfOk, codes, map};
ghost use Rattle.std.specs.Io.KnownBytes.{Appends};
ghost use Rattle.std.specs.Option.{option_copied};
ghost use Rattle.subset_lines.specs.Objects.AxesJson.{axis_object, axis_objects, name_or_null, instance_object, instance_objects, axes_json};
ghost use Rattle.subset_lines.specs.Faces.Names.{text_of_units};

use crate::faces::axes::FontAxes;
use crate::faces::names::write_units;
use crate::faces::outlines::{Outlines, write_outlines_members};
use crate::faces::settings::{SettingForm, write_each};
use crate::plain::flush;
use plain_text::{Piece, Unwritten, Written, write_pieces, write_quoted, write_text};
use std::alloc::Global;
use std::io::Write;
use subsetter_base::read::after_four;
use subsetter_variation::locations::axes::Axis;

/// Writes the object of an axis.
#[tactic(auto, unfolding(crate::specs::Objects::AxesJson::axis_object))]
fn write_axis<W: Write>(axis: &Axis, out: &mut W) -> Written
    ensures { OnOk result (Appends (W.contents out.old) (W.contents out.new) (axis_object axis.now)) }
{
    write_pieces(
        &[
            Piece::Text(b"{\"tag\":"),
            Piece::Shown(axis.tag.get()),
            Piece::Text(b",\"least\":"),
            Piece::Fixed(axis.minimum),
            Piece::Text(b",\"default\":"),
            Piece::Fixed(axis.default),
            Piece::Text(b",\"greatest\":"),
            Piece::Fixed(axis.maximum),
            Piece::Text(b"}"),
        ],
        out,
    )
}

/// Writes the objects of axes.
#[tactic(auto, using(plain_text::proofs::Written::both, plain_text::proofs::Written::at_first, plain_text::proofs::Written::after_part, plain_text::proofs::Written::at_last))]
fn write_axis_objects<W: Write>(axes: &[Axis], out: &mut W) -> Written
    ensures { OnOk result (Appends (W.contents out.old) (W.contents out.new) (axis_objects [] axes.now)) }
{
    let mut before = b"".as_slice();
    for axis in axes {
        write_text(before, out)?;
        write_axis(axis, out)?;
        before = b",".as_slice();
    }
    Ok(())
}

/// The text of a name.
pub fn text_of_name(alloc: Global, bytes: &[u8]) -> Result<Vec<u8>, Unwritten>
    ensures { IfOk result (λ text. text.items ≡ text_of_units bytes.now) }
{
    let mut text = Vec::new(alloc);
    write_units(bytes, &mut text)?;
    Ok(text)
}

/// Writes a name as a string, or `null`.
fn write_name<W: Write>(alloc: Global, name: Option<&[u8]>, out: &mut W) -> Written
    ensures { OnOk result (Appends (W.contents out.old) (W.contents out.new) (name_or_null (option_copied name.entry))) }
{
    match name {
        Some(bytes) => write_quoted(&text_of_name(alloc, bytes)?, out),
        None => write_text(b"null", out),
    }
}

/// Writes the object of a named instance.
#[tactic(auto, using(plain_text::proofs::Written::both), unfolding(crate::specs::Objects::AxesJson::instance_object))]
fn write_instance<W: Write>(alloc: Global, all: &FontAxes<'_>, bytes: &[u8], out: &mut W) -> Written
    ensures { OnOk result (Appends (W.contents out.old) (W.contents out.new) (instance_object all.now.axes.items all.now.names bytes.now)) }
{
    write_text(b"{\"name\":", out)?;
    write_name(alloc, all.names.of_instance(bytes), out)?;
    write_text(b",\"coordinates\":{", out)?;
    write_each(SettingForm::Member, &all.axes, after_four(bytes), out)?;
    write_text(b"}}", out)
}

/// Writes the objects of named instances.
#[tactic(auto, using(plain_text::proofs::Written::both, plain_text::proofs::Written::at_first, plain_text::proofs::Written::after_part, plain_text::proofs::Written::at_last))]
fn write_instances<W: Write>(alloc: Global, all: &FontAxes<'_>, out: &mut W) -> Written
    ensures { OnOk result (Appends (W.contents out.old) (W.contents out.new) (instance_objects [] all.now.axes.items all.now.names (map (λ bytes. bytes.now) all.now.instances.items))) }
{
    let mut before = b"".as_slice();
    for bytes in &all.instances {
        write_text(before, out)?;
        write_instance(alloc, all, bytes, out)?;
        before = b",".as_slice();
    }
    Ok(())
}

/// Writes the outlines, the axes and the named instances as one JSON object. Then it passes on what the writer keeps back.
#[tactic(auto, using(plain_text::proofs::Written::both, plain_text::proofs::Written::flushed))]
pub fn write_axes_json<W: Write>(
    alloc: Global,
    outlines: Outlines,
    is_variable: bool,
    all: &FontAxes<'_>,
    out: &mut W,
) -> Written
    ensures { OnOk result (Appends (W.contents out.old) (W.contents out.new) (axes_json outlines is_variable all.now.axes.items all.now.names (map (λ bytes. bytes.now) all.now.instances.items))) }
{
    write_outlines_members(outlines, is_variable, out)?;
    write_text(b",\"axes\":[", out)?;
    write_axis_objects(&all.axes, out)?;
    write_text(b"],\"instances\":[", out)?;
    write_instances(alloc, all, out)?;
    write_text(b"]}\n", out)?;
    flush(out)
}
