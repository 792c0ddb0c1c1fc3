//! What a font's maker permits (OpenType, "OS/2", "fsType").

ghost use Rattle.std.specs.Prelude.{◌≡◌};
ghost use Rattle.std.specs.Option.{option_copied};
ghost use Rattle.pdf_values.specs.Permission.{has_later_bits, is_permitted, is_usable, permission, permission_of, usage_of};

use crate::fields::has_bit;
use subsetter_sfnt::fields::os2::{fs_type, version};

/// What a document may do with a font.
#[derive(Clone, Copy, PartialEq, Eq, Debug)]
pub enum Usage {
    /// The font doesn't say.
    Unsaid,
    /// It may be installed.
    Installable,
    /// It may be part of a document that is edited.
    Editable,
    /// It may be part of a document that is viewed and printed.
    PreviewAndPrint,
    /// It may not be part of a document without its maker's permission.
    Restricted,
}

/// What a font's maker permits.
#[derive(Clone, Copy, PartialEq, Eq, Debug)]
pub struct Permission {
    pub usage: Usage,
    /// Whether a subset of the font may be embedded.
    pub subsetting: bool,
    /// Whether outlines may be embedded, and not bitmaps alone.
    pub outlines: bool,
}

/// Whose permission counts.
#[derive(Clone, Copy, PartialEq, Eq, Debug)]
pub enum Rights {
    /// The font's.
    AsSaid,
    /// The caller's, who may embed the font.
    Held,
}

/// The usage that bits 1 to 3 of `fsType` name; of several the freest, as versions 0 to 2 have it.
fn usage_of(fs_type: u16) -> Usage
    ensures { result ≡ usage_of fs_type }
{
    if has_bit(fs_type, 3) {
        Usage::Editable
    } else if has_bit(fs_type, 2) {
        Usage::PreviewAndPrint
    } else if has_bit(fs_type, 1) {
        Usage::Restricted
    } else {
        Usage::Installable
    }
}

/// Whether bits 8 and 9 of `fsType` are assigned: from version 2 of `OS/2` on.
fn has_later_bits(os2: Option<&[u8]>) -> bool
    ensures { result ≡ has_later_bits (option_copied os2.entry) }
{
    match version(os2) {
        Some(version) => 2 <= version,
        None => false,
    }
}

/// What `fsType` permits.
fn permission_in(later: bool, fs_type: u16) -> Permission
    ensures { result ≡ permission_of later fs_type }
{
    Permission {
        usage: usage_of(fs_type),
        subsetting: !(later && has_bit(fs_type, 8)),
        outlines: !(later && has_bit(fs_type, 9)),
    }
}

/// What `OS/2` says of embedding; where it doesn't, nothing is forbidden.
pub fn permission_of(os2: Option<&[u8]>) -> Permission
    ensures { result ≡ permission (option_copied os2.entry) }
{
    match fs_type(os2) {
        Some(fs_type) => permission_in(has_later_bits(os2), fs_type),
        None => Permission {
            usage: Usage::Unsaid,
            subsetting: true,
            outlines: true,
        },
    }
}

/// Whether a usage lets a document have the font.
fn is_usable(usage: Usage) -> bool
    ensures { result ≡ is_usable usage }
{
    match usage {
        Usage::Restricted => false,
        _ => true,
    }
}

/// Whether a subset of the font may be embedded.
pub fn is_permitted(permission: Permission, rights: Rights) -> bool
    ensures { result ≡ is_permitted permission rights }
{
    match rights {
        Rights::Held => true,
        Rights::AsSaid => is_usable(permission.usage)
            && permission.subsetting
            && permission.outlines,
    }
}
