//! The components of a composite glyph (OpenType, "glyf": "Composite glyph description").

ghost use Rattle.std.specs.Prelude.{◌≡◌, ◌+◌, ◌≤◌, ◌<◌, ◌^◌, ◌++◌, IfOk, length, pos, [], ◌∷◌};
ghost use Rattle.std.specs.List.{range_with_len};
ghost use Rattle.std.specs.Option.{option_map};
ghost use Rattle.subsetter_base.specs.Gives.{Gives};
ghost use Rattle.subsetter_base.specs.Bytes.{has_flag};
ghost use Rattle.subsetter_instance.specs.Glyphs.Components.{arguments_at, arguments_end, byte_offset, byte_points, component_at, components_at, matrix_at, matrix_end, offset_x, offset_xs, offset_y, offset_ys, scale_at, scales_at, signed_byte, signed_word, two_by_two_at, word_offset, word_points};

use std::alloc::{AllocError, Global};
use subsetter_base::Error;
use subsetter_base::read::Reader;
use subsetter_points::component::{
    ARG_1_AND_2_ARE_WORDS, ARGS_ARE_XY_VALUES, ARGUMENTS, GLYPH_INDEX, MORE_COMPONENTS,
    WE_HAVE_A_SCALE, WE_HAVE_A_TWO_BY_TWO, WE_HAVE_AN_X_AND_Y_SCALE,
};

/// How a component is placed.
#[derive(Clone, Copy)]
pub enum Arguments {
    /// Moved by x and y, in font design units.
    Offset(i16, i16),
    /// So that its point of the second number matches the point of the first number of the components before it.
    Points(u16, u16),
}

/// The linear part of a transform, in 16384ths: x becomes xx * x + xy * y, and y becomes yx * x + yy * y.
#[derive(Clone, Copy)]
pub struct Matrix {
    pub xx: i16,
    pub yx: i16,
    pub xy: i16,
    pub yy: i16,
}

/// A component of a composite glyph.
#[derive(Clone, Copy)]
pub struct Component {
    pub flags: u16,
    pub glyph: u16,
    pub arguments: Arguments,
    pub matrix: Option<Matrix>,
}

/// Whether a flag is set.
pub fn has(flags: u16, flag: u16) -> bool
    ensures { result ≡ has_flag flags flag }
{
    flags & flag != 0
}

/// int8.
fn signed_byte(bytes: &[u8], at: usize) -> Option<i16>
    ensures { result ≡ signed_byte bytes.now at }
{
    let byte = Reader::new_at(bytes, at).read::<u8>()?;
    Some(i16::from(byte.cast_signed()))
}

/// int16.
fn signed_word(bytes: &[u8], at: usize) -> Option<i16>
    ensures { result ≡ signed_word bytes.now at }
{
    let word = Reader::new_at(bytes, at).read::<u16>()?;
    Some(word.cast_signed())
}

/// An offset of two bytes.
fn byte_offset(bytes: &[u8]) -> Option<Arguments>
    ensures { result ≡ byte_offset bytes.now }
{
    let x = signed_byte(bytes, ARGUMENTS)?;
    let y = signed_byte(bytes, ARGUMENTS + 1)?;
    Some(Arguments::Offset(x, y))
}

/// An offset of two words.
fn word_offset(bytes: &[u8]) -> Option<Arguments>
    ensures { result ≡ word_offset bytes.now }
{
    let x = signed_word(bytes, ARGUMENTS)?;
    let y = signed_word(bytes, ARGUMENTS + 2)?;
    Some(Arguments::Offset(x, y))
}

/// Two points, as bytes.
fn byte_points(bytes: &[u8]) -> Option<Arguments>
    ensures { result ≡ byte_points bytes.now }
{
    let parent = Reader::new_at(bytes, ARGUMENTS).read::<u8>()?;
    let child = Reader::new_at(bytes, ARGUMENTS + 1).read::<u8>()?;
    Some(Arguments::Points(u16::from(parent), u16::from(child)))
}

/// Two points, as words.
fn word_points(bytes: &[u8]) -> Option<Arguments>
    ensures { result ≡ word_points bytes.now }
{
    let parent = Reader::new_at(bytes, ARGUMENTS).read::<u16>()?;
    let child = Reader::new_at(bytes, ARGUMENTS + 2).read::<u16>()?;
    Some(Arguments::Points(parent, child))
}

/// The arguments of a component.
fn arguments_at(flags: u16, bytes: &[u8]) -> Option<Arguments>
    ensures { result ≡ arguments_at flags bytes.now }
{
    match (
        has(flags, ARG_1_AND_2_ARE_WORDS),
        has(flags, ARGS_ARE_XY_VALUES),
    ) {
        (true, true) => word_offset(bytes),
        (true, false) => word_points(bytes),
        (false, true) => byte_offset(bytes),
        (false, false) => byte_points(bytes),
    }
}

/// Where the arguments end.
fn arguments_end(flags: u16) -> usize
    ensures value { result ≡ arguments_end flags }
    ensures bound { result ≤ 8 }
{
    if has(flags, ARG_1_AND_2_ARE_WORDS) {
        ARGUMENTS + 4
    } else {
        ARGUMENTS + 2
    }
}

/// A matrix of one scale.
fn scale_at(bytes: &[u8], at: usize) -> Option<Option<Matrix>>
    ensures { result ≡ scale_at bytes.now at }
{
    let scale = signed_word(bytes, at)?;
    Some(Some(Matrix {
        xx: scale,
        yx: 0,
        xy: 0,
        yy: scale,
    }))
}

/// A matrix of two scales.
fn scales_at(bytes: &[u8], at: usize) -> Option<Option<Matrix>>
    requires { at ≤ 8 }
    ensures { result ≡ scales_at bytes.now at }
{
    let xx = signed_word(bytes, at)?;
    let yy = signed_word(bytes, at + 2)?;
    Some(Some(Matrix {
        xx,
        yx: 0,
        xy: 0,
        yy,
    }))
}

/// A matrix of four numbers.
fn two_by_two_at(bytes: &[u8], at: usize) -> Option<Option<Matrix>>
    requires { at ≤ 8 }
    ensures { result ≡ two_by_two_at bytes.now at }
{
    let xx = signed_word(bytes, at)?;
    let yx = signed_word(bytes, at + 2)?;
    let xy = signed_word(bytes, at + 4)?;
    let yy = signed_word(bytes, at + 6)?;
    Some(Some(Matrix { xx, yx, xy, yy }))
}

/// The matrix of a component, if it has one.
fn matrix_at(flags: u16, bytes: &[u8], at: usize) -> Option<Option<Matrix>>
    requires { at ≤ 8 }
    ensures { result ≡ matrix_at flags bytes.now at }
{
    if has(flags, WE_HAVE_A_SCALE) {
        scale_at(bytes, at)
    } else if has(flags, WE_HAVE_AN_X_AND_Y_SCALE) {
        scales_at(bytes, at)
    } else if has(flags, WE_HAVE_A_TWO_BY_TWO) {
        two_by_two_at(bytes, at)
    } else {
        Some(None)
    }
}

/// Where the matrix ends.
fn matrix_end(flags: u16, at: usize) -> usize
    requires { at ≤ 8 }
    ensures { result ≡ matrix_end flags at }
{
    let size = if has(flags, WE_HAVE_A_SCALE) {
        2
    } else if has(flags, WE_HAVE_AN_X_AND_Y_SCALE) {
        4
    } else if has(flags, WE_HAVE_A_TWO_BY_TWO) {
        8
    } else {
        0
    };
    at + size
}

/// The component at the front, if it is whole, and the bytes after it.
#[tactic(auto, unfolding(crate::specs::Glyphs::Components::component_at))]
fn component_at(bytes: &[u8]) -> Option<(Component, &[u8])>
    ensures { option_map (λ r. (r.0, r.1.now)) result ≡ component_at bytes.now }
{
    let flags = Reader::new_at(bytes, 0).read::<u16>()?;
    let glyph = Reader::new_at(bytes, GLYPH_INDEX).read::<u16>()?;
    let at = arguments_end(flags);
    let arguments = arguments_at(flags, bytes)?;
    let matrix = matrix_at(flags, bytes, at)?;
    let rest = Reader::new_at(bytes, matrix_end(flags, at)).tail()?;
    let component = Component {
        flags,
        glyph,
        arguments,
        matrix,
    };
    Some((component, rest))
}

/// The components, one after another, and the steps that are left. Each takes a step before it is read: where none is left it is
/// `OverflowError`, and where a component is cut `MalformedFont`. They use the memory of the spare list.
#[tactic(auto, using(crate::proofs::GlyphsLaws::Chains::chain_goes_on, crate::proofs::GlyphsLaws::Chains::chain_ends, crate::proofs::GlyphsLaws::Chains::chain_cut, crate::proofs::GlyphsLaws::Chains::chain_out))]
pub fn read_components(
    spare: Vec<Component>,
    bytes: &[u8],
    steps: u32,
) -> Result<(Vec<Component>, u32), Error>
    ensures value { Gives (λ r. (r.0.items, r.1)) result (components_at steps bytes.now) }
    ensures count { IfOk result (λ r. length r.0.items + r.1 ≡ steps) }
{
    let mut components = spare;
    components.clear();
    let mut rest = bytes;
    for read in 0..steps {
        let Some((component, following)) = component_at(rest) else {
            return Err(Error::MalformedFont);
        };
        components.push(component)?;
        if !has(component.flags, MORE_COMPONENTS) {
            return Ok((components, steps - read - 1));
        }
        rest = following;
    }
    Err(Error::OverflowError)
}

/// How far a component is moved from left to right, before variations.
fn offset_x(arguments: Arguments) -> i16
    ensures { result ≡ offset_x arguments }
{
    match arguments {
        Arguments::Offset(x, _) => x,
        Arguments::Points(..) => 0,
    }
}

/// How far a component is moved from below to above, before variations.
fn offset_y(arguments: Arguments) -> i16
    ensures { result ≡ offset_y arguments }
{
    match arguments {
        Arguments::Offset(_, y) => y,
        Arguments::Points(..) => 0,
    }
}

/// The offsets of components and of the four phantom points.
#[derive(Drop)]
pub struct Offsets {
    /// From left to right.
    pub xs: Vec<i16>,
    /// From below to above.
    pub ys: Vec<i16>,
}

/// The offset of each component, and the four phantom points, which are handed over at 0.
pub fn offsets_with_phantoms(alloc: Global, components: &[Component]) -> Result<Offsets, AllocError>
    ensures xs { IfOk result (λ o. o.xs.items ≡ offset_xs components.now ++ (pos 0 ∷ pos 0 ∷ pos 0 ∷ pos 0 ∷ [])) }
    ensures ys { IfOk result (λ o. o.ys.items ≡ offset_ys components.now ++ (pos 0 ∷ pos 0 ∷ pos 0 ∷ pos 0 ∷ [])) }
{
    let mut xs = Vec::with_capacity(alloc, components.len().saturating_add(4))?;
    let mut ys = Vec::with_capacity(alloc, components.len().saturating_add(4))?;
    for component in components {
        xs.push(offset_x(component.arguments))?;
        ys.push(offset_y(component.arguments))?;
    }
    xs.extend_from_slice(&[0; 4])?;
    ys.extend_from_slice(&[0; 4])?;
    Ok(Offsets { xs, ys })
}

/// The number of each component, which is a contour of its own, and of the four phantom points, in the memory of a list that is spare.
pub fn ends_with_phantoms(spare: Vec<usize>, n: usize) -> Result<Vec<usize>, AllocError>
    requires { n < 2 ^ 32 }
    ensures { IfOk result (λ v. v.items ≡ range_with_len 0 n ++ (n ∷ (n + 1) ∷ (n + 2) ∷ (n + 3) ∷ [])) }
{
    let mut ends = spare;
    ends.clear();
    ends.reserve(n.saturating_add(4))?;
    for k in 0..n {
        ends.push(k)?;
    }
    ends.extend_from_slice(&[n, n + 1, n + 2, n + 3])?;
    Ok(ends)
}
