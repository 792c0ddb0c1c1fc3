//! The axes of a variable font and its named instances (OpenType, "fvar"), as lines.

ghost use Rattle.std.specs.Prelude.{◌≡◌, ◌⊎◌, map, OnOk, IfOk, IfErr, Some, None};
ghost use Rattle.std.specs.Io.KnownBytes.{Appends};
ghost use Rattle.std.specs.Option.{ok_or};
ghost use Rattle.subsetter_base.specs.Gives.{Gives};
ghost use Rattle.subsetter_base.specs.declared.error.Error.TheVariants.{MalformedFont, OutOfMemory};
ghost use Rattle.subsetter_variation.specs.Locations.Axes.{axes};
ghost use Rattle.subset_lines.specs.Faces.Axes.{axis_line, axis_lines, records_at, instances_of, instances, instance_line, instance_lines, text_of};
ghost use Rattle.plain_text.specs.Characters.{shown};

use crate::faces::names::{NameTable, write_after};
use crate::faces::outlines::{Outlines, write_outlines};
use crate::faces::settings::{SettingForm, write_each};
use crate::plain::flush;
use plain_text::characters::shown;
use plain_text::{Piece, Written, write_pieces, write_text};
use std::alloc::Global;
use std::io::Write;
use subsetter_base::read::{Reader, after_four};
use subsetter_base::{Error, Tag};
use subsetter_variation::fvar::{
    axes_array_offset, axis_count, axis_size, instance_count, instance_size,
};
use subsetter_variation::locations::axes::{Axis, axes};

// ---- reading

/// `count` records of `size` bytes each.
#[tactic(auto, using(crate::proofs::Listed::slices_step, crate::proofs::Listed::records_cut))]
fn records_at(
    alloc: Global,
    count: u16,
    size: usize,
    fvar: &[u8],
    at: usize,
) -> Result<Vec<&[u8]>, Error>
    ensures { Gives (λ v. map (λ bytes. bytes.now) v.items) result (ok_or (records_at count size fvar.now at) MalformedFont) }
{
    let mut r = Reader::new_at(fvar, at);
    let mut records = Vec::new(alloc);
    for i in 0..count {
        let bytes = r.read_bytes(size).ok_or(Error::MalformedFont)?;
        records.push(bytes)?;
    }
    Ok(records)
}

/// The `count` records of named instances after the axes.
fn instances_of(
    alloc: Global,
    at: u16,
    axes: u16,
    axis_size: u16,
    count: u16,
    size: u16,
    fvar: &[u8],
) -> Result<Vec<&[u8]>, Error>
    ensures { Gives (λ v. map (λ bytes. bytes.now) v.items) result (ok_or (instances_of at axes axis_size count size fvar.now) MalformedFont) }
{
    if count == 0 {
        return Ok(Vec::new(alloc));
    }
    let (at, axes, axis_size, size) = (
        at as usize,
        axes as usize,
        axis_size as usize,
        size as usize,
    );
    if size < 4 + 4 * axes {
        return Err(Error::MalformedFont);
    }
    records_at(alloc, count, size, fvar, at + axes * axis_size)
}

/// The records of the named instances.
#[tactic(auto, unfolding(crate::specs::Faces::Axes::instances))]
fn instances(alloc: Global, fvar: &[u8]) -> Result<Vec<&[u8]>, Error>
    ensures { Gives (λ v. map (λ bytes. bytes.now) v.items) result (ok_or (instances fvar.now) MalformedFont) }
{
    let at = axes_array_offset(fvar).ok_or(Error::MalformedFont)?;
    let axes = axis_count(fvar).ok_or(Error::MalformedFont)?;
    let axis_size = axis_size(fvar).ok_or(Error::MalformedFont)?;
    let count = instance_count(fvar).ok_or(Error::MalformedFont)?;
    let size = instance_size(fvar).ok_or(Error::MalformedFont)?;
    instances_of(alloc, at, axes, axis_size, count, size, fvar)
}

/// The axes of a variable font, the records of its named instances, and its table `name`.
#[derive(Drop)]
pub struct FontAxes<'a> {
    pub axes: Vec<Axis>,
    pub instances: Vec<&'a [u8]>,
    pub names: NameTable<'a>,
}

/// The axes and the named instances that `fvar` lists, whose names are in another table. A cut `fvar` is `MalformedFont`.
pub fn read_axes<'a>(alloc: Global, fvar: &'a [u8], names: &'a [u8]) -> Result<FontAxes<'a>, Error>
    ensures axes { IfOk result (λ a. axes fvar.now ≡ Some a.axes.items) }
    ensures instances { IfOk result (λ a. instances fvar.now ≡ Some (map (λ bytes. bytes.now) a.instances.items)) }
    ensures names { IfOk result (λ a. a.names ≡ names.now) }
    ensures err { IfErr result (λ e. (e ≡ OutOfMemory) ⊎ ((e ≡ MalformedFont) × ((axes fvar.now ≡ None) ⊎ (instances fvar.now ≡ None)))) }
{
    let axes = axes(alloc, fvar)?;
    let instances = instances(alloc, fvar)?;
    let names = NameTable::new(alloc, names)?;
    Ok(FontAxes {
        axes,
        instances,
        names,
    })
}

// ---- writing

/// The bytes of a tag, each as it is shown.
pub fn tag_bytes(tag: Tag) -> [u8; 4]
    ensures { result ≡ map shown tag.0 }
{
    let [a, b, c, d] = *tag.get();
    [shown(a), shown(b), shown(c), shown(d)]
}

/// Writes the line of an axis.
#[tactic(auto, unfolding(crate::specs::Faces::Axes::axis_line))]
fn write_axis<W: Write>(axis: &Axis, out: &mut W) -> Written
    ensures { OnOk result (Appends (W.contents out.old) (W.contents out.new) (axis_line axis.now)) }
{
    write_pieces(
        &[
            Piece::Text(b"axis "),
            Piece::Text(&tag_bytes(axis.tag)),
            Piece::Text(b" "),
            Piece::Fixed(axis.minimum),
            Piece::Text(b" "),
            Piece::Fixed(axis.default),
            Piece::Text(b" "),
            Piece::Fixed(axis.maximum),
            Piece::Text(b"\n"),
        ],
        out,
    )
}

/// Writes a line for each axis.
#[tactic(auto, using(plain_text::proofs::Written::at_first, plain_text::proofs::Written::after_part, plain_text::proofs::Written::at_last))]
fn write_axis_lines<W: Write>(axes: &[Axis], out: &mut W) -> Written
    ensures { OnOk result (Appends (W.contents out.old) (W.contents out.new) (axis_lines axes.now)) }
{
    for axis in axes {
        write_axis(axis, out)?;
    }
    Ok(())
}

/// Writes the line of a named instance.
#[tactic(auto, using(plain_text::proofs::Written::both))]
fn write_instance<W: Write>(
    axes: &[Axis],
    names: &NameTable<'_>,
    bytes: &[u8],
    out: &mut W,
) -> Written
    ensures { OnOk result (Appends (W.contents out.old) (W.contents out.new) (instance_line axes.now names.now bytes.now)) }
{
    write_text(b"instance ", out)?;
    write_each(SettingForm::Line, axes, after_four(bytes), out)?;
    write_after(names.of_instance(bytes), out)?;
    write_text(b"\n", out)
}

/// Writes a line for each named instance.
#[tactic(auto, using(plain_text::proofs::Written::at_first, plain_text::proofs::Written::after_part, plain_text::proofs::Written::at_last))]
fn write_instance_lines<W: Write>(
    axes: &[Axis],
    names: &NameTable<'_>,
    records: &[&[u8]],
    out: &mut W,
) -> Written
    ensures { OnOk result (Appends (W.contents out.old) (W.contents out.new) (instance_lines axes.now names.now (map (λ bytes. bytes.now) records.now))) }
{
    for bytes in records {
        write_instance(axes, names, bytes, out)?;
    }
    Ok(())
}

/// Writes a line for the outlines, as `outlines TrueType, variable`; one for each axis, as `axis wght 100 400 900` (the tag, the least
/// coordinate, the default and the greatest one); and one for each named instance, as `instance wght=650,wdth=87.5 Semi Bold`. Then it
/// passes on what the writer keeps back.
#[tactic(auto, using(plain_text::proofs::Written::both, plain_text::proofs::Written::flushed))]
pub fn write_axes<W: Write>(
    outlines: Outlines,
    is_variable: bool,
    all: &FontAxes<'_>,
    out: &mut W,
) -> Written
    ensures { OnOk result (Appends (W.contents out.old) (W.contents out.new) (text_of outlines is_variable all.now.axes.items all.now.names (map (λ bytes. bytes.now) all.now.instances.items))) }
{
    write_outlines(outlines, is_variable, out)?;
    write_axis_lines(&all.axes, out)?;
    write_instance_lines(&all.axes, &all.names, &all.instances, out)?;
    flush(out)
}
