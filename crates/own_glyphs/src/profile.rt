//! `maxp` of more glyphs (OpenType, "maxp").

ghost use Rattle.std.specs.Prelude.{◌≡◌, ◌≤◌, ◌*◌, ◌++◌, length, IfOk, IfErr};
ghost use Rattle.std.specs.Int.{w16, to_be_bytes};
ghost use Rattle.subsetter_base.specs.Gives.{Gives};
ghost use Rattle.subsetter_base.specs.declared.error.Error.TheVariants.{OutOfMemory};
ghost use Rattle.own_glyphs.specs.Profile.{counted, limit, limited, limits_of, maxp_with, most_parts};

use crate::glyph::OwnGlyph;
use std::alloc::Global;
use subsetter_base::Error;
use subsetter_base::read::u16_at;
use subsetter_sfnt::fields::maxp::NUM_GLYPHS_END;

/// numGlyphs, two bytes.
const NUM_GLYPHS: usize = 4;
/// maxPoints, and after it maxContours, two bytes each.
const MAX_POINTS: usize = 6;

const MAX_CONTOURS: usize = 8;
/// maxCompositePoints, and after it maxCompositeContours, two bytes each.
const MAX_COMPOSITE_POINTS: usize = 10;

const MAX_COMPOSITE_CONTOURS: usize = 12;
/// maxZones, which is the first of the fields on instructions.
const MAX_ZONES: usize = 14;
/// maxComponentElements, and after it maxComponentDepth, two bytes each.
const MAX_COMPONENT_ELEMENTS: usize = 28;

const MAX_COMPONENT_DEPTH: usize = 30;
/// How many bytes version 1.0 has.
const SIZE: usize = 32;

/// The limits of composites.
#[derive(Clone, Copy)]
pub struct Limits {
    /// maxCompositePoints.
    pub points: u16,
    /// maxCompositeContours.
    pub contours: u16,
    /// maxComponentElements.
    pub elements: u16,
    /// maxComponentDepth.
    pub depth: u16,
}

/// The most parts of a glyph.
pub fn most_parts(own: &[OwnGlyph<'_>]) -> usize
    ensures { result ≡ most_parts own.now }
{
    let mut most = 0;
    for glyph in own {
        most = most.max(glyph.parts.len());
    }
    most
}

/// A limit, `OverflowError` where it hasn't 16 bits.
fn limit(n: usize) -> Result<u16, Error>
    ensures { result ≡ limit n }
{
    if n < 65536 {
        Ok(n as u16)
    } else {
        Err(Error::OverflowError)
    }
}

/// A product of two numbers of 16 bits.
fn times(a: u16, b: u16) -> usize
    ensures { result ≡ a * b }
{
    usize::from(a) * usize::from(b)
}

/// The limits with glyphs of `parts` parts.
#[tactic(auto, unfolding(crate::specs::Profile::limits_of))]
fn limits_of(parts: usize, maxp: &[u8]) -> Result<Limits, Error>
    requires { 32 ≤ length maxp.now }
    ensures { result ≡ limits_of parts maxp.now }
{
    let few = limit(parts)?;
    let most_points = u16_at(maxp, MAX_POINTS).max(u16_at(maxp, MAX_COMPOSITE_POINTS));
    let most_contours = u16_at(maxp, MAX_CONTOURS).max(u16_at(maxp, MAX_COMPOSITE_CONTOURS));
    let points = limit(times(few, most_points))?;
    let contours = limit(times(few, most_contours))?;
    let depth = limit(usize::from(u16_at(maxp, MAX_COMPONENT_DEPTH)) + 1)?;
    Ok(Limits {
        points,
        contours,
        elements: few.max(u16_at(maxp, MAX_COMPONENT_ELEMENTS)),
        depth,
    })
}

/// `maxp` with another numGlyphs.
fn counted(alloc: Global, maxp: &[u8], count: u16) -> Result<Vec<u8>, Error>
    requires { 6 ≤ length maxp.now }
    ensures ok { IfOk result (λ v. v.items ≡ counted count maxp.now) }
    ensures err { IfErr result (λ e. e ≡ OutOfMemory) }
{
    let mut new = Vec::with_capacity(alloc, maxp.len())?;
    new.extend_from_slice(&maxp[..NUM_GLYPHS])?;
    new.extend_from_slice(&count.to_be_bytes())?;
    new.extend_from_slice(&maxp[NUM_GLYPHS_END..])?;
    Ok(new)
}

/// Two numbers of 16 bits.
fn two_bytes_each(a: u16, b: u16) -> [u8; 4]
    ensures { result ≡ to_be_bytes w16 a ++ to_be_bytes w16 b }
{
    let [c, d] = a.to_be_bytes();
    let [e, f] = b.to_be_bytes();
    [c, d, e, f]
}

/// `maxp` with another numGlyphs, and with these limits.
fn limited(alloc: Global, maxp: &[u8], count: u16, limits: Limits) -> Result<Vec<u8>, Error>
    requires { 32 ≤ length maxp.now }
    ensures ok { IfOk result (λ v. v.items ≡ limited count limits maxp.now) }
    ensures err { IfErr result (λ e. e ≡ OutOfMemory) }
{
    let mut new = Vec::with_capacity(alloc, maxp.len())?;
    new.extend_from_slice(&maxp[..NUM_GLYPHS])?;
    new.extend_from_slice(&count.to_be_bytes())?;
    new.extend_from_slice(&maxp[MAX_POINTS..MAX_COMPOSITE_POINTS])?;
    new.extend_from_slice(&two_bytes_each(limits.points, limits.contours))?;
    new.extend_from_slice(&maxp[MAX_ZONES..MAX_COMPONENT_ELEMENTS])?;
    new.extend_from_slice(&two_bytes_each(limits.elements, limits.depth))?;
    new.extend_from_slice(&maxp[SIZE..])?;
    Ok(new)
}

/// `maxp` for `count` glyphs, own ones of at most `parts` parts among them. `MalformedFont` where some have parts and it has fewer
/// than 32 bytes, `OverflowError` where a limit doesn't fit 16 bits.
#[tactic(auto, unfolding(crate::specs::Profile::maxp_with))]
pub fn maxp(alloc: Global, maxp: &[u8], count: u16, parts: usize) -> Result<Vec<u8>, Error>
    requires { 6 ≤ length maxp.now }
    ensures { Gives (λ v. v.items) result (maxp_with count parts maxp.now) }
{
    if parts == 0 {
        return counted(alloc, maxp, count);
    }
    if maxp.len() < SIZE {
        return Err(Error::MalformedFont);
    }
    let limits = limits_of(parts, maxp)?;
    limited(alloc, maxp, count, limits)
}
