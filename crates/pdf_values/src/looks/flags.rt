//! Flags, what a font looks like (ISO 32000-1, Table 123), by `post`, `OS/2` and `head` (OpenType, "post", "OS/2", "head").

ghost use Rattle.std.specs.Prelude.{◌≡◌};
ghost use Rattle.std.specs.Option.{option_copied};
ghost use Rattle.pdf_values.specs.Looks.Flags.{is_fixed, has_serifs, is_script, is_slanted, is_italic, flag, flags_by, is_serif_class, is_serif_face, is_script_face, IsFlags};

use crate::fields::{has_bit, sets_bit};
use subsetter_sfnt::fields::head::mac_style;
use subsetter_sfnt::fields::os2::{b_family_type, b_serif_style, fs_selection, s_family_class};
use subsetter_sfnt::fields::post::is_fixed_pitch;

/// Whether all advances are equal: isFixedPitch of `post`.
fn is_fixed(post: Option<&[u8]>) -> bool
    ensures { result ≡ is_fixed (option_copied post.entry) }
{
    match is_fixed_pitch(post) {
        Some(n) => n != 0,
        None => false,
    }
}

/// Whether a class of sFamilyClass has serifs: 1 to 5 and 7.
fn is_serif_class(class: u16) -> bool
    ensures { result ≡ is_serif_class class }
{
    (1 <= class && class <= 5) || class == 7
}

/// Whether panose has a Latin text family with serifs.
fn is_serif_face(os2: Option<&[u8]>) -> bool
    ensures { result ≡ is_serif_face (option_copied os2.entry) }
{
    let Some(family) = b_family_type(os2) else {
        return false;
    };
    let Some(style) = b_serif_style(os2) else {
        return false;
    };
    family == 2 && 2 <= style && style <= 10
}

/// Whether a font has serifs.
fn has_serifs(os2: Option<&[u8]>) -> bool
    ensures { result ≡ has_serifs (option_copied os2.entry) }
{
    let Some(class) = s_family_class(os2) else {
        return false;
    };
    is_serif_class(class / 256) || (class / 256 == 0 && is_serif_face(os2))
}

/// Whether panose has a Latin hand written family.
fn is_script_face(os2: Option<&[u8]>) -> bool
    ensures { result ≡ is_script_face (option_copied os2.entry) }
{
    match b_family_type(os2) {
        Some(family) => family == 3,
        None => false,
    }
}

/// Whether a font looks written by hand.
fn is_script(os2: Option<&[u8]>) -> bool
    ensures { result ≡ is_script (option_copied os2.entry) }
{
    let Some(class) = s_family_class(os2) else {
        return false;
    };
    class / 256 == 10 || (class / 256 == 0 && is_script_face(os2))
}

/// Whether fsSelection calls a font italic or oblique (bits 0 and 9), or without it macStyle italic (bit 1).
fn is_slanted(os2: Option<&[u8]>, head: Option<&[u8]>) -> bool
    ensures { result ≡ is_slanted (option_copied os2.entry) (option_copied head.entry) }
{
    match fs_selection(os2) {
        Some(n) => has_bit(n, 0) || has_bit(n, 9),
        None => sets_bit(mac_style(head), 1),
    }
}

/// A number, if it is called for.
fn flag(is_set: bool, n: u32) -> u32
    ensures { result ≡ flag is_set n }
{
    if is_set { n } else { 0 }
}

/// Flags of a font that is italic or isn't: FixedPitch is 1, Serif 2, Script 8, Italic 64. Symbolic, 4, is always set, as the codes are a
/// font's own, and Nonsymbolic, 32, never is.
pub fn flags_by(post: Option<&[u8]>, os2: Option<&[u8]>, is_italic: bool) -> u32
    ensures value { result ≡ flags_by (option_copied post.entry) (option_copied os2.entry) is_italic }
    ensures kind { IsFlags result }
{
    4 + flag(is_fixed(post), 1)
        + flag(has_serifs(os2), 2)
        + flag(is_script(os2), 8)
        + flag(is_italic, 64)
}

/// Whether a font is called italic or oblique, or has an ItalicAngle other than 0.
pub fn is_italic(os2: Option<&[u8]>, head: Option<&[u8]>, angle: i32) -> bool
    ensures { result ≡ is_italic (option_copied os2.entry) (option_copied head.entry) angle }
{
    is_slanted(os2, head) || angle != 0
}
