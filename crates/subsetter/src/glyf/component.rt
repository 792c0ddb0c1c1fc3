//! The components of a composite glyph (OpenType, "glyf": composite glyph description).
//!
//! The definition `chain_at n bytes` reads at most n components. The count of the bytes is always enough, as a
//! component has six at least. A component that is missing from the order would count as number 0 in the layout; a law
//! shows that none is.

ghost use Rattle.std.specs.Prelude.{◌≡◌, ◌⊎◌, ◌+◌, ◌-◌, ◌≤◌, true, false, [], ◌∷◌, ◌++◌, length, take, drop, if◌then◌else◌, ◌&&◌, nat_le, is_some, Some, None, Ok, OnOk, OnErr, IfOk, IfErr};
ghost use Rattle.std.specs.Int.{w16, to_be_bytes};
ghost use Rattle.std.specs.Option.{option_map};
ghost use Rattle.subsetter_base.specs.Gives.{Fails, following};
ghost use Rattle.subsetter_base.specs.Indexes.{index_of, new_index};
ghost use Rattle.subsetter_base.specs.declared.error.Error.TheVariants.{OutOfMemory, MalformedFont};
ghost use Rattle.subsetter.specs.Glyf.View.{component_seen};
ghost use Rattle.subsetter.specs.Glyf.Reaching.Closure.{first_byte_in, others_in};
ghost use Rattle.subsetter.specs.Glyf.Parts.{rest_size, has_more, has_instructions, component_at, numbers_at, component_numbers, outline_parts};
ghost use Rattle.subsetter.specs.Glyf.BareOutlines.Size.{requested_size};
ghost use Rattle.subsetter.specs.Glyf.BareOutlines.Bare.{requested_flags, requested_tail};
ghost use Rattle.subsetter.specs.Glyf.Plain.{rewritten_composite};

use subsetter_base::read::u16_at;
use subsetter_base::{Error, GlyphRemapper};
use subsetter_points::component::{
    ARG_1_AND_2_ARE_WORDS, ARGUMENTS, GLYPH_INDEX, MORE_COMPONENTS, WE_HAVE_A_SCALE,
    WE_HAVE_A_TWO_BY_TWO, WE_HAVE_AN_X_AND_Y_SCALE, WE_HAVE_INSTRUCTIONS,
};
use subsetter_points::header::HEADER_SIZE;

/// All flags but WE_HAVE_INSTRUCTIONS.
const WITHOUT_INSTRUCTIONS: u16 = 0xFEFF;

/// A component: its flags, its glyph, and the bytes of its arguments and its transform.
#[derive(Clone, Copy)]
pub struct Component<'a> {
    pub flags: u16,
    pub glyph: u16,
    pub rest: &'a [u8],
}

/// How many bytes the arguments and the transform take.
fn rest_size(flags: u16) -> usize
    ensures { result ≡ rest_size flags }
{
    let arguments = if flags & ARG_1_AND_2_ARE_WORDS != 0 {
        4
    } else {
        2
    };
    let transform = if flags & WE_HAVE_A_SCALE != 0 {
        2
    } else if flags & WE_HAVE_AN_X_AND_Y_SCALE != 0 {
        4
    } else if flags & WE_HAVE_A_TWO_BY_TWO != 0 {
        8
    } else {
        0
    };
    arguments + transform
}

/// Whether another component follows.
fn has_more(flags: u16) -> bool
    ensures { result ≡ has_more flags }
{
    flags & MORE_COMPONENTS != 0
}

/// Whether instructions follow the last component.
fn has_instructions(flags: u16) -> bool
    ensures { result ≡ has_instructions flags }
{
    flags & WE_HAVE_INSTRUCTIONS != 0
}

/// The component at the front, if it is whole.
fn read_component(bytes: &[u8]) -> Option<Component<'_>>
    ensures { option_map component_seen result ≡ component_at bytes.now }
{
    if bytes.len() < ARGUMENTS {
        return None;
    }
    let flags = u16_at(bytes, 0);
    let glyph = u16_at(bytes, GLYPH_INDEX);
    let rest = bytes.get(ARGUMENTS..ARGUMENTS + rest_size(flags))?;
    Some(Component { flags, glyph, rest })
}

/// Whether an outline is a composite, by the first byte of its number of contours, which is below 0 for one.
pub fn is_composite(first: u8) -> bool
    ensures { result ≡ nat_le 128 first }
{
    first >= 128
}

/// What comes after a component at the front.
fn rest_after<'a>(bytes: &'a [u8], component: Component<'_>) -> &'a [u8]
    requires { component_at bytes.now ≡ Some (component_seen component) }
    ensures { result.now ≡ drop (4 + rest_size component.entry.flags) bytes.now }
{
    &bytes[ARGUMENTS + component.rest.len()..]
}

/// How many of the bytes after the last component, which has these flags, are its instructions, if they are asked for.
fn kept_len(flags: u16, following: &[u8], hinting: bool) -> usize
    ensures { result ≡ length (requested_tail hinting (if has_instructions flags then following.now else [])) }
{
    if hinting && has_instructions(flags) {
        following.len()
    } else {
        0
    }
}

/// Puts a glyph that is not in the order after those that wait.
fn push_new(order: &GlyphRemapper, waiting: &mut Vec<u16>, glyph: u16) -> Result<(), Error>
    ensures ok { OnOk result (waiting.new.items ≡ (if is_some (index_of order.now glyph) then waiting.old.items else waiting.old.items ++ glyph ∷ [])) }
    ensures err { IfErr result (λ e. e ≡ OutOfMemory) }
{
    if order.get(glyph).is_none() {
        waiting.push(glyph)?;
    }
    Ok(())
}

/// Puts the component at the front, which is cut, after those that wait, if its flags and its number are there and it is
/// not in the order.
fn push_cut(bytes: &[u8], order: &GlyphRemapper, waiting: &mut Vec<u16>) -> Result<(), Error>
    requires { component_at bytes.now ≡ None }
    ensures ok { OnOk result (waiting.new.items ≡ waiting.old.items ++ others_in order.now (numbers_at (length bytes.now) bytes.now)) }
    ensures err { IfErr result (λ e. e ≡ OutOfMemory) }
{
    if bytes.len() < ARGUMENTS {
        return Ok(());
    }
    push_new(order, waiting, u16_at(bytes, GLYPH_INDEX))?;
    Ok(())
}

/// What is counted of an outline that is followed.
#[derive(Clone, Copy)]
pub struct Count {
    /// Its bytes in the new `glyf`, or all of its bytes where it is cut.
    pub bytes: usize,
    pub cut: bool,
}

/// Puts the components of a composite that are not in the order after those that wait, and counts its bytes.
/// `MalformedFont` where it has fewer than ten. Another cut composite is refused later, as it is written.
pub fn push_components(
    outline: &[u8],
    order: &GlyphRemapper,
    waiting: &mut Vec<u16>,
    hinting: bool,
) -> Result<Count, Error>
    requires { 128 ≤ first_byte_in (Some outline.now) }
    ensures ok { OnOk result (waiting.new.items ≡ waiting.old.items ++ others_in order.now (component_numbers outline.now)) }
    ensures size { IfOk result (λ n. n.cut ≡ false → n.bytes ≡ requested_size hinting (Some outline.now)) }
    ensures cut { IfOk result (λ n. n.cut ≡ true → outline_parts outline.now ≡ None) }
    ensures err { IfErr result (λ e. (e ≡ OutOfMemory) ⊎ ((e ≡ MalformedFont) × (outline_parts outline.now ≡ None))) }
{
    if outline.len() < HEADER_SIZE {
        return Err(Error::MalformedFont);
    }
    let mut rest = &outline[HEADER_SIZE..];
    loop {
        let Some(component) = read_component(rest) else {
            push_cut(rest, order, waiting)?;
            return Ok(Count {
                bytes: outline.len(),
                cut: true,
            });
        };
        push_new(order, waiting, component.glyph)?;
        rest = rest_after(rest, component);
        if !has_more(component.flags) {
            let kept = kept_len(component.flags, rest, hinting);
            return Ok(Count {
                bytes: outline.len() - rest.len() + kept,
                cut: false,
            });
        }
    }
}

/// Puts a number in the place of two bytes.
fn put_number(out: &mut Vec<u8>, at: usize, number: u16)
    requires { at + 2 ≤ length out.old.items }
    ensures { out.new.items ≡ take at out.old.items ++ to_be_bytes w16 number ++ drop (at + 2) out.old.items }
{
    out[at..at + 2].copy_from_slice(&number.to_be_bytes());
}

/// The flags of a component, without that of instructions where these are not asked for.
fn requested_flags(hinting: bool, flags: u16) -> u16
    ensures { result ≡ requested_flags hinting flags }
{
    if hinting {
        flags
    } else {
        flags & WITHOUT_INSTRUCTIONS
    }
}

/// Puts a component's flags and the new number of its glyph in the place of four bytes.
fn renumber(
    out: &mut Vec<u8>,
    at: usize,
    order: &GlyphRemapper,
    component: Component<'_>,
    hinting: bool,
)
    requires { at + 4 ≤ length out.old.items }
    ensures { out.new.items ≡ take at out.old.items ++ to_be_bytes w16 (requested_flags hinting component.entry.flags) ++ to_be_bytes w16 (new_index order.now component.entry.glyph) ++ drop (at + 4) out.old.items }
{
    let number = order.get(component.glyph).unwrap_or(0);
    put_number(out, at, requested_flags(hinting, component.flags));
    put_number(out, at + GLYPH_INDEX, number);
}

/// Removes the last `size` bytes, unless they are instructions, and requested.
fn cut_tail(out: &mut Vec<u8>, flags: u16, size: usize, hinting: bool)
    requires { size ≤ length out.old.items }
    ensures { out.new.items ≡ (if hinting && has_instructions flags then out.old.items else take (length out.old.items - size) out.old.items) }
{
    if !(hinting && has_instructions(flags)) {
        out.truncate(out.len() - size);
    }
}

/// Writes a composite with its components under their new numbers after other bytes, and its instructions if they are requested. `MalformedFont` where it is cut.
/// It is copied as it is, and then each component gets its new number in its place. Where that fails, nothing is written.
pub fn rewrite_composite(
    out: &mut Vec<u8>,
    outline: &[u8],
    order: &GlyphRemapper,
    hinting: bool,
) -> Result<(), Error>
    ensures ok { OnOk result (following out.old.items (rewritten_composite hinting order.now outline.now) ≡ Ok out.new.items) }
    ensures err { IfErr result (λ e. Fails e (following out.old.items (rewritten_composite hinting order.now outline.now))) }
    ensures unchanged { OnErr result (out.new.items ≡ out.old.items) }
{
    if outline.len() < HEADER_SIZE {
        return Err(Error::MalformedFont);
    }
    let start = out.len();
    out.extend_from_slice(outline)?;
    let mut rest = &outline[HEADER_SIZE..];
    loop {
        let Some(component) = read_component(rest) else {
            out.truncate(start);
            return Err(Error::MalformedFont);
        };
        let at = out.len() - rest.len();
        renumber(out, at, order, component, hinting);
        rest = rest_after(rest, component);
        if !has_more(component.flags) {
            cut_tail(out, component.flags, rest.len(), hinting);
            return Ok(());
        }
    }
}
