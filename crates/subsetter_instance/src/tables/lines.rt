//! The metrics of `hhea` and `post` that vary (OpenType, "MVAR", "hhea" and "post"), and the angle of `post` ("fvar").

ghost use Rattle.std.specs.Prelude.{◌≡◌, ◌≤◌, ◌+◌, ◌++◌, IfOk, IfSome, Ok, OnOk, codes, length};
ghost use Rattle.std.specs.Option.{option_copied, option_map, option_or};
ghost use Rattle.subsetter_base.specs.Gives.{Gives};
ghost use Rattle.subsetter_sfnt.specs.Read.{table_in};
ghost use Rattle.subsetter_instance.specs.Tables.Lines.{varied, three_lines, line_bytes, moved_hhea, varied_hhea, moved_post, varied_underline, varied_post_if, with_angle, slanted, slant_by, is_default, slant, lines_of};
ghost use Rattle.subsetter_variation.specs.Locations.Axes.{clamped, find_axis};

use crate::glyphs::drawn::word_or_fault;
use std::alloc::{AllocError, Global};
use std::marker::Model;
use subsetter_base::read::signed_at;
use subsetter_base::{Error, Tag};
use subsetter_sfnt::face::Face;
use subsetter_sfnt::fields::hhea::{ADVANCE_WIDTH_MAX, ASCENDER, CARET_SLOPE_RISE, RESERVED};
use subsetter_sfnt::fields::post::{
    IS_FIXED_PITCH, ITALIC_ANGLE, UNDERLINE_POSITION, UNDERLINE_THICKNESS,
};
use subsetter_variation::items::font_metrics::metric_delta;
use subsetter_variation::locations::axes::{Axis, axes, clamped, find_axis};

/// `hhea` and `post` with the metrics that vary. `post` is the font's own, with the names of all glyphs, where it has none that does.
#[derive(Drop)]
pub struct Lines<'a> {
    hhea: Vec<u8>,
    moved_post: Option<Vec<u8>>,
    post: Option<&'a [u8]>,
}

impl<'a> Model for Lines<'a> {
    ghost use Rattle.std.specs.Option.{option_copied, option_map, option_or};
    ghost use Rattle.subsetter_instance.specs.Tables.Lines.{Lines};

    ghost Value = { Lines };

    ghost view = { λ l. record { hhea = l.hhea.items; post = option_or (option_map (λ v. v.items) l.moved_post) (option_copied l.post) } };
}

/// A number with what the metric of a tag varies by.
fn varied(mvar: &[u8], at: &[i32], tag: Tag, before: i16) -> Result<i16, Error>
    ensures { result ≡ varied mvar.now at.now tag.0 before }
{
    word_or_fault(i128::from(before) + i128::from(metric_delta(mvar, at, tag)?))
}

/// Three numbers of `hhea` from an offset on.
#[tactic(auto, unfolding(crate::specs::Tables::Lines::three_lines))]
fn three_lines(
    mvar: &[u8],
    at: &[i32],
    hhea: &[u8],
    place: usize,
    first: Tag,
    second: Tag,
    third: Tag,
) -> Result<(i16, i16, i16), Error>
    requires { place + 6 ≤ length hhea.now }
    ensures { result ≡ three_lines mvar.now at.now hhea.now place first.0 second.0 third.0 }
{
    let a = varied(mvar, at, first, signed_at(hhea, place))?;
    let b = varied(mvar, at, second, signed_at(hhea, place + 2))?;
    let c = varied(mvar, at, third, signed_at(hhea, place + 4))?;
    Ok((a, b, c))
}

/// Appends three numbers.
fn write_lines(out: &mut Vec<u8>, lines: (i16, i16, i16)) -> Result<(), AllocError>
    ensures { OnOk result (out.new.items ≡ out.old.items ++ line_bytes lines) }
{
    let [a, b] = lines.0.to_be_bytes();
    let [c, d] = lines.1.to_be_bytes();
    let [e, f] = lines.2.to_be_bytes();
    out.extend_from_slice(&[a, b, c, d, e, f])
}

/// `hhea` with other numbers.
fn moved_hhea(
    alloc: Global,
    hhea: &[u8],
    lines: (i16, i16, i16),
    caret: (i16, i16, i16),
) -> Result<Vec<u8>, AllocError>
    requires { 36 ≤ length hhea.now }
    ensures { IfOk result (λ v. v.items ≡ moved_hhea hhea.now lines caret) }
{
    let mut new = Vec::with_capacity(alloc, hhea.len())?;
    new.extend_from_slice(&hhea[..ASCENDER])?;
    write_lines(&mut new, lines)?;
    new.extend_from_slice(&hhea[ADVANCE_WIDTH_MAX..CARET_SLOPE_RISE])?;
    write_lines(&mut new, caret)?;
    new.extend_from_slice(&hhea[RESERVED..])?;
    Ok(new)
}

/// A copy of bytes.
fn copied(alloc: Global, bytes: &[u8]) -> Result<Vec<u8>, AllocError>
    ensures { IfOk result (λ v. v.items ≡ bytes.now) }
{
    let mut copy = Vec::with_capacity(alloc, bytes.len())?;
    copy.extend_from_slice(bytes)?;
    Ok(copy)
}

/// `hhea` at a location.
#[tactic(auto, unfolding(crate::specs::Tables::Lines::varied_hhea))]
fn varied_hhea(
    alloc: Global,
    mvar: Option<&[u8]>,
    at: &[i32],
    hhea: &[u8],
) -> Result<Vec<u8>, Error>
    requires { 36 ≤ length hhea.now }
    ensures { Gives (λ v. v.items) result (varied_hhea (option_copied mvar.entry) at.now hhea.now) }
{
    let Some(mvar) = mvar else {
        return Ok(copied(alloc, hhea)?);
    };
    let ascender = Tag::new(b"hasc");
    let descender = Tag::new(b"hdsc");
    let line_gap = Tag::new(b"hlgp");
    let lines = three_lines(mvar, at, hhea, ASCENDER, ascender, descender, line_gap)?;
    let rise = Tag::new(b"hcrs");
    let run = Tag::new(b"hcrn");
    let offset = Tag::new(b"hcof");
    let caret = three_lines(mvar, at, hhea, CARET_SLOPE_RISE, rise, run, offset)?;
    Ok(moved_hhea(alloc, hhea, lines, caret)?)
}

/// `post` with other numbers.
fn moved_post(
    alloc: Global,
    post: &[u8],
    position: i16,
    thickness: i16,
) -> Result<Vec<u8>, AllocError>
    requires { 12 ≤ length post.now }
    ensures { IfOk result (λ v. v.items ≡ moved_post post.now position thickness) }
{
    let mut new = Vec::with_capacity(alloc, post.len())?;
    new.extend_from_slice(&post[..UNDERLINE_POSITION])?;
    new.extend_from_slice(&position.to_be_bytes())?;
    new.extend_from_slice(&thickness.to_be_bytes())?;
    new.extend_from_slice(&post[IS_FIXED_PITCH..])?;
    Ok(new)
}

/// `post` at a location, where it has the numbers of the underline.
#[tactic(auto, unfolding(crate::specs::Tables::Lines::varied_underline))]
fn varied_underline(alloc: Global, mvar: &[u8], at: &[i32], post: &[u8]) -> Result<Vec<u8>, Error>
    requires { 12 ≤ length post.now }
    ensures { Gives (λ v. v.items) result (varied_underline mvar.now at.now post.now) }
{
    let position = varied(
        mvar,
        at,
        Tag::new(b"undo"),
        signed_at(post, UNDERLINE_POSITION),
    )?;
    let thickness = varied(
        mvar,
        at,
        Tag::new(b"unds"),
        signed_at(post, UNDERLINE_THICKNESS),
    )?;
    Ok(moved_post(alloc, post, position, thickness)?)
}

/// `post` at a location, unless it stays as it is, if there is one at all.
fn varied_post_if(
    alloc: Global,
    mvar: Option<&[u8]>,
    at: &[i32],
    post: Option<&[u8]>,
) -> Result<Option<Vec<u8>>, Error>
    ensures { Gives (λ o. option_or (option_map (λ v. v.items) o) (option_copied post.entry)) result (varied_post_if (option_copied mvar.entry) at.now (option_copied post.entry)) }
{
    let Some(table) = post else {
        return Ok(None);
    };
    let Some(mvar) = mvar else {
        return Ok(None);
    };
    if table.len() < IS_FIXED_PITCH {
        return Ok(None);
    }
    Ok(Some(varied_underline(alloc, mvar, at, table)?))
}

/// `post` with another angle, where it has one.
fn with_angle(alloc: Global, post: &[u8], angle: i32) -> Result<Vec<u8>, AllocError>
    ensures { IfOk result (λ v. v.items ≡ with_angle angle post.now) }
{
    if post.len() < UNDERLINE_POSITION {
        return copied(alloc, post);
    }
    let mut new = Vec::with_capacity(alloc, post.len())?;
    new.extend_from_slice(&post[..ITALIC_ANGLE])?;
    new.extend_from_slice(&angle.to_be_bytes())?;
    new.extend_from_slice(&post[UNDERLINE_POSITION..])?;
    Ok(new)
}

/// `post`, which may have moved, with the angle, if there is one.
fn slanted(
    alloc: Global,
    angle: Option<i32>,
    moved: Option<Vec<u8>>,
    post: Option<&[u8]>,
) -> Result<Option<Vec<u8>>, AllocError>
    ensures { IfOk result (λ o. option_or (option_map (λ v. v.items) o) (option_copied post.entry) ≡ slanted angle (option_or (option_map (λ v. v.items) moved) (option_copied post.entry))) }
{
    let Some(angle) = angle else {
        return Ok(moved);
    };
    if let Some(table) = moved {
        return Ok(Some(with_angle(alloc, &table, angle)?));
    }
    match post {
        Some(table) => Ok(Some(with_angle(alloc, table, angle)?)),
        None => Ok(None),
    }
}

/// The coordinate on `slnt`, where these axes have it.
fn coordinate_on_slant(axes: &[Axis], settings: &[(Tag, i32)]) -> Option<i32>
    ensures { result ≡ option_map (λ a. clamped a settings.now) (find_axis (codes "slnt") axes.now) }
{
    let axis = find_axis(axes, Tag::new(b"slnt"))?;
    Some(clamped(axis, settings))
}

/// The coordinate on `slnt`, where the axes that `fvar` lists have it.
fn slant_by(
    alloc: Global,
    fvar: Option<&[u8]>,
    settings: &[(Tag, i32)],
) -> Result<Option<i32>, Error>
    ensures { Gives (λ o. o) result (Ok (slant_by (option_copied fvar.entry) settings.now)) }
{
    let Some(fvar) = fvar else {
        return Ok(None);
    };
    match axes(alloc, fvar) {
        Ok(axes) => Ok(coordinate_on_slant(&axes, settings)),
        Err(Error::OutOfMemory) => Err(Error::OutOfMemory),
        Err(_) => Ok(None),
    }
}

/// Whether each coordinate is 0.
fn is_default(at: &[i32]) -> bool
    ensures { result ≡ is_default at.now }
{
    at.iter().all(|v| *v == 0)
}

/// The angle of `post` at a location off the default, if it isn't that of the font.
fn slant(
    alloc: Global,
    face: &Face<'_>,
    settings: &[(Tag, i32)],
    at: &[i32],
) -> Result<Option<i32>, Error>
    ensures { Gives (λ o. o) result (Ok (slant (table_in face.now.«data».now face.now.records.now) settings.now at.now)) }
{
    if is_default(at) {
        return Ok(None);
    }
    slant_by(alloc, face.stored(Tag::new(b"fvar")), settings)
}

/// `hhea` and `post` of a font at a location. A cut table is `MalformedFont`, a number past 16 bits `OverflowError`.
#[tactic(auto, unfolding(crate::specs::Tables::Lines::lines_of))]
pub fn lines_of<'a>(
    alloc: Global,
    face: &Face<'a>,
    settings: &[(Tag, i32)],
    at: &[i32],
) -> Result<Lines<'a>, Error>
    requires { IfSome (table_in face.now.«data».now face.now.records.now (codes "hhea")) (λ hhea. 36 ≤ length hhea) }
    ensures { Gives (λ l. l) result (lines_of (table_in face.now.«data».now face.now.records.now) settings.now at.now) }
{
    let mvar = face.stored(Tag::new(b"MVAR"));
    let hhea = face.stored(Tag::HHEA).ok_or(Error::MalformedFont)?;
    let hhea = varied_hhea(alloc, mvar, at, hhea)?;
    let post = face.stored(Tag::POST);
    let varied_post = varied_post_if(alloc, mvar, at, post)?;
    let angle = slant(alloc, face, settings, at)?;
    let moved_post = slanted(alloc, angle, varied_post, post)?;
    Ok(Lines {
        hhea,
        moved_post,
        post,
    })
}

impl<'a> Lines<'a> {
    /// `hhea`.
    pub fn hhea(&self) -> &[u8]
        ensures { result.now ≡ self.now.hhea }
    {
        &self.hhea
    }

    /// `post`, if there is one.
    pub fn post(&self) -> Option<&[u8]>
        ensures { option_copied result ≡ self.now.post }
    {
        match &self.moved_post {
            Some(moved) => Some(moved),
            None => self.post,
        }
    }
}
