//! What is wrong with TrueType outlines.

ghost use Rattle.std.specs.Prelude.{◌≡◌, ◌≤◌, ◌+◌, codes, drop, IfOk, IfErr, length};
ghost use Rattle.std.specs.Option.{option_and_then, option_copied, option_map};
ghost use Rattle.subsetter_base.specs.Bytes.{from_offset, number};
ghost use Rattle.subsetter_base.specs.declared.error.Error.TheVariants.{OutOfMemory};
ghost use Rattle.subsetter_sfnt.specs.Extras.{all_extras};
ghost use Rattle.subsetter_sfnt.specs.Read.{stored};
ghost use Rattle.font_reasons.specs.Outlines.{entry, wrong_range, wrong_between, wrong_outline, outline, arguments_size, transform_size, component_at, has_more, no_components, walked, components_by, components_in, by_component, by_components, cut_component, wrong_components, wrong_description, wrong_glyph, first_wrong, glyphs_in, components_of, reached, reached_all, reached_by, reached_from, reached_below, outline_tables, tree, by_format, tree_reason, without_loca, no_loca, levels_below, first_deep, deep_reason};
ghost use Rattle.font_reasons.specs.View.{component_view, reach_view, tables_view, walked_view};

use crate::parts::no_table;
use crate::reason::Reason;
use std::alloc::{AllocError, Global};
use subsetter_base::read::{between_offsets, from_offset, number_at};
use subsetter_base::{Error, GlyphRemapper, Tag};
use subsetter_points::component::{
    ARG_1_AND_2_ARE_WORDS, ARGUMENTS, GLYPH_INDEX, MORE_COMPONENTS, WE_HAVE_A_SCALE,
    WE_HAVE_A_TWO_BY_TWO, WE_HAVE_AN_X_AND_Y_SCALE,
};
use subsetter_points::header::{COMPOSITE, HEADER_SIZE};
use subsetter_sfnt::directory::table;
use subsetter_sfnt::fields::head::index_to_loc_format;
use subsetter_sfnt::fields::loca::loca_offset;

/// How many levels below a glyph a component is that is too deep for a static font.
const DEEP: u8 = 65;

/// A component of a composite glyph: its flags, its glyph, and the bytes after it.
#[derive(Clone, Copy)]
struct Component<'a> {
    flags: u16,
    glyph: u16,
    after: &'a [u8],
}

/// An entry of `loca`: an offset, or in the format 0 half of one.
fn entry(loca: &[u8], format: u16, index: usize) -> Option<u64>
    requires { index ≤ 65536 }
    ensures { result ≡ entry loca.now format index }
{
    if format == 0 {
        let offset = loca_offset(loca, false, index)?;
        return Some(offset as u64);
    }
    let offset = loca_offset(loca, true, index)?;
    Some(offset as u64)
}

/// What is wrong with the range of an outline in `glyf`.
fn wrong_range(glyph: u16, glyf: &[u8], start: u64, end: u64) -> Option<Reason>
    ensures { result ≡ wrong_range glyph glyf.now start end }
{
    if end < start {
        return Some(Reason::Descends(glyph));
    }
    if end > glyf.len() as u64 {
        return Some(Reason::Outside(glyph));
    }
    None
}

/// What is wrong with the outline of a glyph between two entries of `loca`.
fn wrong_between(glyph: u16, glyf: &[u8], start: Option<u64>, end: Option<u64>) -> Option<Reason>
    ensures { result ≡ wrong_between glyph glyf.now start end }
{
    match (start, end) {
        (Some(start), Some(end)) => wrong_range(glyph, glyf, start, end),
        (Some(_), None) => Some(Reason::NoEntries(glyph)),
        (None, _) => Some(Reason::NoEntries(glyph)),
    }
}

/// What is wrong with the range of a glyph's outline.
fn wrong_outline(glyf: &[u8], loca: &[u8], format: u16, glyph: u16) -> Option<Reason>
    ensures { result ≡ wrong_outline glyf.now loca.now format glyph }
{
    let start = entry(loca, format, usize::from(glyph));
    let end = entry(loca, format, usize::from(glyph) + 1);
    wrong_between(glyph, glyf, start, end)
}

/// The bytes of an outline.
pub fn outline<'a>(glyf: &'a [u8], loca: &[u8], format: u16, glyph: u16) -> Option<&'a [u8]>
    ensures { option_copied result ≡ outline glyf.now loca.now format glyph }
{
    let start = entry(loca, format, usize::from(glyph))?;
    let end = entry(loca, format, usize::from(glyph) + 1)?;
    between_offsets(glyf, start as usize, end as usize)
}

/// How many bytes the arguments of a component take.
fn arguments_size(flags: u16) -> usize
    ensures { result ≡ arguments_size flags }
{
    if flags & ARG_1_AND_2_ARE_WORDS != 0 {
        4
    } else {
        2
    }
}

/// How many bytes its transform takes.
fn transform_size(flags: u16) -> usize
    ensures { result ≡ transform_size flags }
{
    if flags & WE_HAVE_A_SCALE != 0 {
        2
    } else if flags & WE_HAVE_AN_X_AND_Y_SCALE != 0 {
        4
    } else if flags & WE_HAVE_A_TWO_BY_TWO != 0 {
        8
    } else {
        0
    }
}

/// The component at the front, if it is whole.
fn component_at(bytes: &[u8]) -> Option<Component<'_>>
    ensures { option_map component_view result ≡ component_at bytes.now }
{
    let flags = number_at(bytes, 0)?;
    let glyph = number_at(bytes, GLYPH_INDEX)?;
    let size = arguments_size(flags) + transform_size(flags);
    let after = from_offset(bytes, ARGUMENTS + size)?;
    Some(Component {
        flags,
        glyph,
        after,
    })
}

/// Whether another component follows.
fn has_more(flags: u16) -> bool
    ensures { result ≡ has_more flags }
{
    flags & MORE_COMPONENTS != 0
}

/// The glyphs of some components, one after the other, and whether the one after them is cut.
#[derive(Drop)]
pub struct Walked {
    /// The glyphs.
    pub glyphs: Vec<u16>,
    /// Whether the next one is cut.
    pub is_cut: bool,
}

/// The tables of outlines, and the format of `loca`.
#[derive(Clone, Copy)]
pub struct Tables<'a> {
    /// `glyf`.
    pub glyf: &'a [u8],
    /// `loca`.
    pub loca: &'a [u8],
    /// indexToLocFormat.
    pub format: u16,
}

/// The glyphs that were seen, and how many steps are left.
#[derive(Drop)]
struct Reach {
    steps: u32,
    seen: GlyphRemapper,
}

/// Reads at most `most` components.
#[tactic(auto, using(crate::proofs::Components::cut_here))]
fn walk(alloc: Global, components: &[u8], most: usize) -> Result<Walked, AllocError>
    ensures { IfOk result (λ w. walked_view w ≡ walked most components.now) }
{
    let mut glyphs = Vec::new(alloc);
    let mut rest = components;
    let mut left = most;
    while left > 0 {
        let Some(component) = component_at(rest) else {
            return Ok(Walked {
                glyphs,
                is_cut: true,
            });
        };
        glyphs.push(component.glyph)?;
        if !has_more(component.flags) {
            return Ok(Walked {
                glyphs,
                is_cut: false,
            });
        }
        rest = component.after;
        left -= 1;
    }
    Ok(Walked {
        glyphs,
        is_cut: false,
    })
}

/// No components.
fn no_components(alloc: Global) -> Walked
    ensures { walked_view result ≡ no_components }
{
    Walked {
        glyphs: Vec::new(alloc),
        is_cut: false,
    }
}

/// The components after a header, if it is whole.
fn components_after(
    alloc: Global,
    components: Option<&[u8]>,
    most: usize,
) -> Result<Option<Walked>, AllocError>
    ensures { IfOk result (λ w. option_map walked_view w ≡ option_map (walked most) (option_copied components.entry)) }
{
    match components {
        Some(components) => Ok(Some(walk(alloc, components, most)?)),
        None => Ok(None),
    }
}

/// The components of an outline, unless its header is cut.
pub fn components_in(alloc: Global, bytes: &[u8]) -> Result<Option<Walked>, AllocError>
    ensures { IfOk result (λ w. option_map walked_view w ≡ components_in bytes.now) }
{
    let Some(contours) = number_at(bytes, 0) else {
        if bytes.len() == 0 {
            return Ok(Some(no_components(alloc)));
        }
        return Ok(None);
    };
    if contours < COMPOSITE {
        return Ok(Some(no_components(alloc)));
    }
    components_after(alloc, from_offset(bytes, HEADER_SIZE), bytes.len())
}

/// What is wrong with the range of a component's outline.
fn by_component(glyph: u16, component: u16, glyf: &[u8], loca: &[u8], format: u16) -> Option<Reason>
    ensures { result ≡ by_component glyf.now loca.now format glyph component }
{
    match wrong_outline(glyf, loca, format, component) {
        Some(_) => Some(Reason::ByComponent(glyph, component)),
        None => None,
    }
}

/// What is wrong with the first component whose outline has a wrong range.
fn by_components(
    glyph: u16,
    glyf: &[u8],
    loca: &[u8],
    format: u16,
    components: &[u16],
) -> Option<Reason>
    ensures { result ≡ by_components glyf.now loca.now format glyph components.now }
{
    for component in components {
        if let Some(reason) = by_component(glyph, *component, glyf, loca, format) {
            return Some(reason);
        }
    }
    None
}

/// That a component is cut, if so.
fn cut_component(glyph: u16, is_cut: bool) -> Option<Reason>
    ensures { result ≡ cut_component glyph is_cut }
{
    if is_cut {
        return Some(Reason::CutComponent(glyph));
    }
    None
}

/// What is wrong with the components of an outline, or with its header.
fn wrong_components(
    glyph: u16,
    glyf: &[u8],
    loca: &[u8],
    format: u16,
    walked: &Option<Walked>,
) -> Option<Reason>
    ensures { result ≡ wrong_components glyf.now loca.now format glyph (option_map walked_view walked.now) }
{
    match walked {
        Some(walked) => {
            let found = by_components(glyph, glyf, loca, format, &walked.glyphs);
            found.or(cut_component(glyph, walked.is_cut))
        }
        None => Some(Reason::CutHeader(glyph)),
    }
}

/// What is wrong with the bytes of a glyph's outline, if they are there.
fn wrong_description(
    alloc: Global,
    glyf: &[u8],
    loca: &[u8],
    format: u16,
    glyph: u16,
) -> Result<Option<Reason>, AllocError>
    ensures { IfOk result (λ r. r ≡ wrong_description glyf.now loca.now format glyph) }
{
    match outline(glyf, loca, format, glyph) {
        Some(bytes) => {
            let walked = components_in(alloc, bytes)?;
            Ok(wrong_components(glyph, glyf, loca, format, &walked))
        }
        None => Ok(None),
    }
}

/// What is wrong with the range of a glyph's outline, or with its bytes.
fn wrong_glyph(
    alloc: Global,
    glyf: &[u8],
    loca: &[u8],
    format: u16,
    glyph: u16,
) -> Result<Option<Reason>, AllocError>
    ensures { IfOk result (λ r. r ≡ wrong_glyph glyf.now loca.now format glyph) }
{
    match wrong_outline(glyf, loca, format, glyph) {
        Some(reason) => Ok(Some(reason)),
        None => wrong_description(alloc, glyf, loca, format, glyph),
    }
}

/// The first of a mapper's glyphs whose outline is wrong.
fn first_wrong(
    alloc: Global,
    glyf: &[u8],
    loca: &[u8],
    format: u16,
    mapper: &GlyphRemapper,
) -> Result<Option<Reason>, AllocError>
    ensures { IfOk result (λ r. r ≡ first_wrong glyf.now loca.now format mapper.now) }
{
    for glyph in mapper.remapped_gids() {
        if let Some(reason) = wrong_glyph(alloc, glyf, loca, format, glyph)? {
            return Ok(Some(reason));
        }
    }
    Ok(None)
}

/// The glyphs of components.
fn glyphs_in(alloc: Global, walked: Option<Walked>) -> Vec<u16>
    ensures { result.items ≡ glyphs_in (option_map walked_view walked) }
{
    match walked {
        Some(walked) => walked.glyphs,
        None => Vec::new(alloc),
    }
}

/// The components of a glyph; none of one whose outline can't be read.
fn components_of(
    alloc: Global,
    glyf: &[u8],
    loca: &[u8],
    format: u16,
    glyph: u16,
) -> Result<Vec<u16>, AllocError>
    ensures { IfOk result (λ v. v.items ≡ components_of glyf.now loca.now format glyph) }
{
    match outline(glyf, loca, format, glyph) {
        Some(bytes) => {
            let walked = components_in(alloc, bytes)?;
            Ok(glyphs_in(alloc, walked))
        }
        None => Ok(Vec::new(alloc)),
    }
}

/// The glyphs that were seen, and this one.
fn reached(known: GlyphRemapper, glyph: u16) -> Result<GlyphRemapper, Error>
    ensures ok { IfOk result (λ r. r ≡ reached known glyph) }
    ensures err { IfErr result (λ e. e ≡ OutOfMemory) }
{
    let mut seen = known;
    if seen.num_gids() < u16::MAX {
        seen.remap(glyph)?;
    }
    Ok(seen)
}

/// The glyphs that were seen, and these.
fn reached_all(known: GlyphRemapper, glyphs: &[u16]) -> Result<GlyphRemapper, Error>
    ensures ok { IfOk result (λ r. r ≡ reached_all known glyphs.now) }
    ensures err { IfErr result (λ e. e ≡ OutOfMemory) }
{
    let mut seen = known;
    for glyph in glyphs {
        seen = reached(seen, *glyph)?;
    }
    Ok(seen)
}

/// With these components of a glyph, where it takes a step and each of them another one.
fn reached_by(known: Reach, components: &[u16]) -> Result<Reach, Error>
    ensures ok { IfOk result (λ r. reach_view r ≡ reached_by (reach_view known) components.now) }
    ensures err { IfErr result (λ e. e ≡ OutOfMemory) }
{
    let Reach { steps, seen } = known;
    if components.len() >= steps as usize {
        return Ok(Reach { steps: 0, seen });
    }
    let seen = reached_all(seen, components)?;
    let steps = steps - (components.len() as u32 + 1);
    Ok(Reach { steps, seen })
}

/// With those of a glyph, which isn't read where no step is left.
fn reached_at(alloc: Global, tables: Tables<'_>, known: Reach, glyph: u16) -> Result<Reach, Error>
    ensures ok { IfOk result (λ r. reach_view r ≡ reached_by (reach_view known) (components_of tables.entry.glyf.now tables.entry.loca.now tables.entry.format glyph)) }
    ensures err { IfErr result (λ e. e ≡ OutOfMemory) }
{
    if known.steps == 0 {
        return Ok(known);
    }
    let components = components_of(alloc, tables.glyf, tables.loca, tables.format, glyph)?;
    reached_by(known, &components)
}

/// With those of each of these glyphs.
fn reached_from(
    alloc: Global,
    tables: Tables<'_>,
    known: Reach,
    glyphs: &[u16],
) -> Result<Reach, Error>
    ensures ok { IfOk result (λ r. reach_view r ≡ reached_from tables.entry.glyf.now tables.entry.loca.now tables.entry.format (reach_view known) glyphs.now) }
    ensures err { IfErr result (λ e. e ≡ OutOfMemory) }
{
    let mut reached = known;
    for glyph in glyphs {
        reached = reached_at(alloc, tables, reached, *glyph)?;
    }
    Ok(reached)
}

/// The glyphs of a mapper from a place on.
pub fn seen_from(alloc: Global, seen: &GlyphRemapper, from: usize) -> Result<Vec<u16>, AllocError>
    ensures { IfOk result (λ v. v.items ≡ drop from seen.now) }
{
    seen.remapped_gids().skip(from).collect(alloc)
}

/// These glyphs, and their components down to `levels` levels below.
fn reached_below(
    alloc: Global,
    tables: Tables<'_>,
    levels: u16,
    known: Reach,
) -> Result<GlyphRemapper, Error>
    ensures ok { IfOk result (λ r. r ≡ reached_below tables.entry.glyf.now tables.entry.loca.now tables.entry.format levels 0 (reach_view known)) }
    ensures err { IfErr result (λ e. e ≡ OutOfMemory) }
{
    let mut reached = known;
    let mut from = 0;
    let mut left = levels;
    while left > 0 {
        let level = seen_from(alloc, &reached.seen, from)?;
        from = usize::from(reached.seen.num_gids());
        reached = reached_from(alloc, tables, reached, &level)?;
        left -= 1;
    }
    Ok(reached.seen)
}

/// indexToLocFormat of a face.
fn format_of(font: &[u8], index: u32) -> Option<u16>
    ensures { result ≡ option_and_then (λ head. number head 50 2) (stored (record { bytes = font.now; index = index; extras = all_extras }) (codes "head")) }
{
    let head = table(font, index, Tag::HEAD)?;
    index_to_loc_format(head)
}

/// The tables of outlines in `glyf`, where the face has them.
pub fn outline_tables(font: &[u8], index: u32) -> Option<Tables<'_>>
    ensures { option_map tables_view result ≡ outline_tables (record { bytes = font.now; index = index; extras = all_extras }) }
{
    let glyf = table(font, index, Tag::GLYF)?;
    let loca = table(font, index, Tag::LOCA)?;
    let format = format_of(font, index)?;
    Some(Tables { glyf, loca, format })
}

/// These glyphs, and their components down to a depth, within `steps` steps.
pub fn tree(
    alloc: Global,
    tables: Tables<'_>,
    steps: u32,
    depth: u8,
    mapper: &GlyphRemapper,
) -> Result<GlyphRemapper, Error>
    ensures ok { IfOk result (λ r. r ≡ tree (tables_view tables.entry) steps depth mapper.now) }
    ensures err { IfErr result (λ e. e ≡ OutOfMemory) }
{
    let seen = mapper.clone()?;
    reached_below(alloc, tables, u16::from(depth) + 1, Reach { steps, seen })
}

/// What is wrong with an outline by a format of `loca`: the format, if there is none such.
fn by_format(format: u16, found: Option<Reason>) -> Option<Reason>
    ensures { result ≡ by_format format found }
{
    let reason = found?;
    if format > 1 {
        return Some(Reason::LocFormat(format));
    }
    Some(reason)
}

/// What is wrong with the outlines of these glyphs, or of their components down to a depth, where the face has the tables of
/// outlines in `glyf`.
///
/// # Errors
///
/// `OutOfMemory` alone.
pub fn tree_reason(
    alloc: Global,
    font: &[u8],
    index: u32,
    steps: u32,
    depth: u8,
    mapper: &GlyphRemapper,
) -> Result<Option<Reason>, Error>
    ensures ok { IfOk result (λ r. r ≡ tree_reason (record { bytes = font.now; index = index; extras = all_extras }) steps depth mapper.now) }
    ensures err { IfErr result (λ e. e ≡ OutOfMemory) }
{
    match outline_tables(font, index) {
        Some(tables) => {
            let seen = tree(alloc, tables, steps, depth, mapper)?;
            let Tables { glyf, loca, format } = tables;
            let found = first_wrong(alloc, glyf, loca, format, &seen)?;
            Ok(by_format(format, found))
        }
        None => Ok(None),
    }
}

/// Whether a face with `glyf` has no `loca`, or no `head`.
pub fn no_loca(font: &[u8], index: u32) -> Option<Reason>
    ensures { result ≡ no_loca (record { bytes = font.now; index = index; extras = all_extras }) }
{
    match table(font, index, Tag::GLYF) {
        Some(_) => no_table(font, index, Tag::LOCA).or(no_table(font, index, Tag::HEAD)),
        None => None,
    }
}

/// The components that are `levels` levels below these glyphs, without glyph 0, within the steps of `known`.
fn levels_below(
    alloc: Global,
    tables: Tables<'_>,
    levels: u8,
    known: Reach,
) -> Result<Vec<u16>, Error>
    ensures ok { IfOk result (λ v. v.items ≡ levels_below tables.entry.glyf.now tables.entry.loca.now tables.entry.format levels (reach_view known)) }
    ensures err { IfErr result (λ e. e ≡ OutOfMemory) }
{
    let mut reached = known;
    let mut left = levels;
    while left > 0 {
        let level = seen_from(alloc, &reached.seen, 1)?;
        let next = Reach {
            steps: reached.steps,
            seen: GlyphRemapper::new(alloc)?,
        };
        reached = reached_from(alloc, tables, next, &level)?;
        left -= 1;
    }
    Ok(seen_from(alloc, &reached.seen, 1)?)
}

/// That the first of some components is too deep.
fn first_deep(glyphs: &[u16]) -> Option<Reason>
    ensures { result ≡ first_deep glyphs.now }
{
    match glyphs {
        [glyph, ..] => Some(Reason::Deep(*glyph)),
        [] => None,
    }
}

/// Whether a component more than 64 levels below these glyphs is found within `steps` steps. Glyph 0 isn't followed.
pub fn deep_reason(
    alloc: Global,
    tables: Tables<'_>,
    steps: u32,
    mapper: &GlyphRemapper,
) -> Result<Option<Reason>, Error>
    ensures ok { IfOk result (λ r. r ≡ deep_reason (tables_view tables.entry) steps mapper.now) }
    ensures err { IfErr result (λ e. e ≡ OutOfMemory) }
{
    let seen = mapper.clone()?;
    let deep = levels_below(alloc, tables, DEEP, Reach { steps, seen })?;
    Ok(first_deep(&deep))
}
