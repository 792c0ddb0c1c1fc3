//! The coordinates of a named instance, each with the tag of its axis.

ghost use Rattle.std.specs.Prelude.{◌≡◌, ◌++◌, [], OnOk};
ghost use Rattle.std.specs.Io.KnownBytes.{Appends};
ghost use Rattle.plain_text.specs.Pieces.{piece_text};
ghost use Rattle.subset_lines.specs.Faces.Settings.{coordinate_text, setting_by, settings_by};
ghost use Rattle.subsetter_base.specs.Bytes.{number};

use crate::faces::axes::tag_bytes;
use plain_text::{Piece, Written, write_pieces, write_text};
use std::io::Write;
use subsetter_base::Tag;
use subsetter_base::read::{Reader, after_four};
use subsetter_variation::locations::axes::Axis;

/// How the coordinate on an axis is written.
#[derive(Clone, Copy)]
pub enum SettingForm {
    /// In a line, as `--at` takes it.
    Line,
    /// As a member of a JSON object.
    Member,
}

/// The coordinate that four bytes say.
fn coordinate<'a>(bytes: &[u8]) -> Piece<'a>
    ensures { piece_text result ≡ coordinate_text (number bytes.now 0 4) }
{
    match Reader::new(bytes).read::<u32>() {
        Some(bits) => Piece::Fixed(bits.cast_signed()),
        None => Piece::Text(b""),
    }
}

/// Writes an axis with the coordinate that four bytes say, in a form.
fn write_setting<W: Write>(form: SettingForm, tag: Tag, bytes: &[u8], out: &mut W) -> Written
    ensures { OnOk result (Appends (W.contents out.old) (W.contents out.new) (setting_by form tag bytes.now)) }
{
    match form {
        SettingForm::Line => write_pieces(
            &[
                Piece::Text(&tag_bytes(tag)),
                Piece::Text(b"="),
                coordinate(bytes),
            ],
            out,
        ),
        SettingForm::Member => write_pieces(
            &[
                Piece::Shown(tag.get()),
                Piece::Text(b":"),
                coordinate(bytes),
            ],
            out,
        ),
    }
}

/// Writes each axis with its coordinate in a form.
#[tactic(auto, using(plain_text::proofs::Written::both, plain_text::proofs::Written::at_first, plain_text::proofs::Written::after_part, plain_text::proofs::Written::at_last))]
pub fn write_each<W: Write>(form: SettingForm, axes: &[Axis], bytes: &[u8], out: &mut W) -> Written
    ensures { OnOk result (Appends (W.contents out.old) (W.contents out.new) (settings_by form [] axes.now bytes.now)) }
{
    let mut before = b"".as_slice();
    let mut rest = bytes;
    for axis in axes {
        write_text(before, out)?;
        write_setting(form, axis.tag, rest, out)?;
        before = b",".as_slice();
        rest = after_four(rest);
    }
    Ok(())
}
