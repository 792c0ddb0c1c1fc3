//! What is wrong with the tables of a variable font.

ghost use Rattle.std.specs.Prelude.{◌≡◌};
ghost use Rattle.subsetter_base.specs.Bytes.{number};
ghost use Rattle.subsetter_sfnt.specs.Extras.{all_extras};
ghost use Rattle.font_reasons.specs.Variations.{fvar_tag, avar_tag, gvar_tag, hvar_tag, mvar_tag, other_version, other_avar, other_axes, other_metrics, other_gvar, other_deltas, axes_end, wrong_axes, wrong_fvar_of, wrong_fvar, other_count, wrong_avar_of, wrong_avar, wrong_gvar_of, wrong_gvar, wrong_location};

use crate::reason::Reason;
use crate::short::short;
use subsetter_base::Tag;
use subsetter_base::read::number_at;
use subsetter_sfnt::directory::table;
use subsetter_variation::fvar::{axes_array_offset, axis_count, axis_size};
use subsetter_variation::glyphs::tuples::gvar_table;
use subsetter_variation::locations::coordinates::is_other_version;

/// Where axisSize of `fvar` ends.
const FVAR_END: u64 = 12;
/// Where axisCount of `avar` ends.
const AVAR_END: u64 = 8;
/// axisCount of `avar`, two bytes.
const AVAR_AXIS_COUNT: usize = 6;
/// How many bytes the record of an axis has at least.
const AXIS_RECORD_SIZE: u16 = 20;

/// The tag of `fvar`.
pub fn fvar_tag() -> Tag
    ensures { result ≡ fvar_tag }
{
    Tag::new(b"fvar")
}

/// The tag of `avar`.
pub fn avar_tag() -> Tag
    ensures { result ≡ avar_tag }
{
    Tag::new(b"avar")
}

/// The tag of `gvar`.
pub fn gvar_tag() -> Tag
    ensures { result ≡ gvar_tag }
{
    Tag::new(b"gvar")
}

/// The tag of `HVAR`.
pub fn hvar_tag() -> Tag
    ensures { result ≡ hvar_tag }
{
    Tag::new(b"HVAR")
}

/// The tag of `MVAR`.
pub fn mvar_tag() -> Tag
    ensures { result ≡ mvar_tag }
{
    Tag::new(b"MVAR")
}

/// Whether a table of a face has another major version than 1.
fn other_version(font: &[u8], index: u32, tag: Tag) -> Option<Reason>
    ensures { result ≡ other_version (record { bytes = font.now; index = index; extras = all_extras }) tag }
{
    if is_other_version(table(font, index, tag)) {
        return Some(Reason::OtherVersion(tag));
    }
    None
}

/// Whether `avar` does, where there are axes.
fn other_avar(font: &[u8], index: u32) -> Option<Reason>
    ensures { result ≡ other_avar (record { bytes = font.now; index = index; extras = all_extras }) }
{
    let _fvar = table(font, index, fvar_tag())?;
    other_version(font, index, avar_tag())
}

/// Whether a table of axes does.
#[tactic(auto, unfolding(crate::specs::Variations::other_axes))]
pub fn other_axes(font: &[u8], index: u32) -> Option<Reason>
    ensures { result ≡ other_axes (record { bytes = font.now; index = index; extras = all_extras }) }
{
    other_version(font, index, fvar_tag()).or(other_avar(font, index))
}

/// Whether a table of what metrics vary by does.
#[tactic(auto, unfolding(crate::specs::Variations::other_metrics))]
fn other_metrics(font: &[u8], index: u32) -> Option<Reason>
    ensures { result ≡ other_metrics (record { bytes = font.now; index = index; extras = all_extras }) }
{
    other_version(font, index, hvar_tag()).or(other_version(font, index, mvar_tag()))
}

/// Whether `gvar` does, where there are outlines in `glyf`.
fn other_gvar(font: &[u8], index: u32) -> Option<Reason>
    ensures { result ≡ other_gvar (record { bytes = font.now; index = index; extras = all_extras }) }
{
    let _glyf = table(font, index, Tag::GLYF)?;
    other_version(font, index, gvar_tag())
}

/// Whether a table of what outlines or metrics vary by does.
#[tactic(auto, unfolding(crate::specs::Variations::other_deltas))]
pub fn other_deltas(font: &[u8], index: u32) -> Option<Reason>
    ensures { result ≡ other_deltas (record { bytes = font.now; index = index; extras = all_extras }) }
{
    other_gvar(font, index).or(other_metrics(font, index))
}

/// Where the records of axes end, by their offset, their count and their size.
fn axes_end(offset: Option<u16>, count: Option<u16>, size: u16) -> u64
    ensures { result ≡ axes_end offset count size }
{
    match (offset, count) {
        (Some(offset), Some(count)) => {
            if count == 0 {
                return FVAR_END;
            }
            u64::from(offset) + u64::from(count) * u64::from(size)
        }
        (Some(_), None) => FVAR_END,
        (None, _) => FVAR_END,
    }
}

/// What is wrong with the records of axes.
fn wrong_axes(fvar: &[u8], size: u16) -> Option<Reason>
    ensures { result ≡ wrong_axes fvar.now size }
{
    if size < AXIS_RECORD_SIZE {
        return Some(Reason::AxisSize(size));
    }
    let end = axes_end(axes_array_offset(fvar), axis_count(fvar), size);
    short(fvar_tag(), end, fvar)
}

/// What is wrong with a table `fvar`.
fn wrong_fvar_of(fvar: &[u8]) -> Option<Reason>
    ensures { result ≡ wrong_fvar_of fvar.now }
{
    match axis_size(fvar) {
        Some(size) => wrong_axes(fvar, size),
        None => short(fvar_tag(), FVAR_END, fvar),
    }
}

/// What is wrong with the `fvar` of a face.
fn wrong_fvar(font: &[u8], index: u32) -> Option<Reason>
    ensures { result ≡ wrong_fvar (record { bytes = font.now; index = index; extras = all_extras }) }
{
    let fvar = table(font, index, fvar_tag())?;
    wrong_fvar_of(fvar)
}

/// Whether a table has another count of axes than `fvar`.
fn other_count(tag: Tag, count: u16, axes: Option<u16>) -> Option<Reason>
    ensures { result ≡ other_count tag count axes }
{
    let axes = axes?;
    if count == axes {
        return None;
    }
    Some(Reason::AxisCount(tag, count, axes))
}

/// What is wrong with a table `avar`.
fn wrong_avar_of(fvar: &[u8], avar: &[u8]) -> Option<Reason>
    ensures { result ≡ wrong_avar_of fvar.now avar.now }
{
    match number_at(avar, AVAR_AXIS_COUNT) {
        Some(count) => other_count(avar_tag(), count, axis_count(fvar)),
        None => short(avar_tag(), AVAR_END, avar),
    }
}

/// What is wrong with the `avar` of a face, where there are axes.
fn wrong_avar(font: &[u8], index: u32) -> Option<Reason>
    ensures { result ≡ wrong_avar (record { bytes = font.now; index = index; extras = all_extras }) }
{
    let fvar = table(font, index, fvar_tag())?;
    let avar = table(font, index, avar_tag())?;
    wrong_avar_of(fvar, avar)
}

/// What is wrong with a table `gvar`.
fn wrong_gvar_of(fvar: &[u8], gvar: &[u8]) -> Option<Reason>
    ensures { result ≡ wrong_gvar_of fvar.now gvar.now }
{
    match gvar_table(gvar) {
        Some(read) => other_count(gvar_tag(), read.axis_count(), axis_count(fvar)),
        None => Some(Reason::Unread(gvar_tag())),
    }
}

/// What is wrong with the `gvar` of a face, where there are axes, and outlines in `glyf`.
pub fn wrong_gvar(font: &[u8], index: u32) -> Option<Reason>
    ensures { result ≡ wrong_gvar (record { bytes = font.now; index = index; extras = all_extras }) }
{
    let _glyf = table(font, index, Tag::GLYF)?;
    let fvar = table(font, index, fvar_tag())?;
    let gvar = table(font, index, gvar_tag())?;
    wrong_gvar_of(fvar, gvar)
}

/// What is wrong with the axes of a face.
#[tactic(auto, unfolding(crate::specs::Variations::wrong_location))]
pub fn wrong_location(font: &[u8], index: u32) -> Option<Reason>
    ensures { result ≡ wrong_location (record { bytes = font.now; index = index; extras = all_extras }) }
{
    wrong_fvar(font, index).or(wrong_avar(font, index))
}
