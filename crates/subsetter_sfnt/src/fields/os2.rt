//! `OS/2`, metrics for systems (OpenType, "OS/2").

ghost use Rattle.std.specs.Prelude.{◌≡◌};
ghost use Rattle.std.specs.Option.{option_copied, option_map};
ghost use Rattle.subsetter_sfnt.specs.Fields.Os2.{version, us_weight_class, fs_type, s_family_class, b_family_type, b_serif_style, fs_selection, s_typo_ascender, s_typo_descender, us_win_ascent, us_win_descent, of_version_2, sx_height, s_cap_height};

use subsetter_base::fields::{byte_in, number_in, signed_in};

/// version, two bytes.
const VERSION: usize = 0;
/// usWeightClass, two bytes.
const US_WEIGHT_CLASS: usize = 4;
/// fsType, two bytes.
const FS_TYPE: usize = 8;
/// sFamilyClass, two bytes.
const S_FAMILY_CLASS: usize = 30;
/// bFamilyType of panose, one byte.
const B_FAMILY_TYPE: usize = 32;
/// bSerifStyle of panose, one byte.
const B_SERIF_STYLE: usize = 33;
/// fsSelection, two bytes.
const FS_SELECTION: usize = 62;
/// sTypoAscender, two bytes.
const S_TYPO_ASCENDER: usize = 68;
/// sTypoDescender, two bytes.
const S_TYPO_DESCENDER: usize = 70;
/// usWinAscent, two bytes.
const US_WIN_ASCENT: usize = 74;
/// usWinDescent, two bytes.
const US_WIN_DESCENT: usize = 76;
/// sxHeight, two bytes, from version 2 on.
const SX_HEIGHT: usize = 86;
/// sCapHeight, two bytes, from version 2 on.
const S_CAP_HEIGHT: usize = 88;

/// version.
pub fn version(os2: Option<&[u8]>) -> Option<u16>
    ensures { result ≡ version (option_copied os2.entry) }
{
    number_in(os2, VERSION)
}

/// usWeightClass.
pub fn us_weight_class(os2: Option<&[u8]>) -> Option<u16>
    ensures { result ≡ us_weight_class (option_copied os2.entry) }
{
    number_in(os2, US_WEIGHT_CLASS)
}

/// fsType.
pub fn fs_type(os2: Option<&[u8]>) -> Option<u16>
    ensures { result ≡ fs_type (option_copied os2.entry) }
{
    number_in(os2, FS_TYPE)
}

/// sFamilyClass.
pub fn s_family_class(os2: Option<&[u8]>) -> Option<u16>
    ensures { result ≡ s_family_class (option_copied os2.entry) }
{
    number_in(os2, S_FAMILY_CLASS)
}

/// bFamilyType, the first byte of panose.
pub fn b_family_type(os2: Option<&[u8]>) -> Option<u8>
    ensures { result ≡ b_family_type (option_copied os2.entry) }
{
    byte_in(os2, B_FAMILY_TYPE)
}

/// bSerifStyle, the second byte of panose.
pub fn b_serif_style(os2: Option<&[u8]>) -> Option<u8>
    ensures { result ≡ b_serif_style (option_copied os2.entry) }
{
    byte_in(os2, B_SERIF_STYLE)
}

/// fsSelection.
pub fn fs_selection(os2: Option<&[u8]>) -> Option<u16>
    ensures { result ≡ fs_selection (option_copied os2.entry) }
{
    number_in(os2, FS_SELECTION)
}

/// sTypoAscender.
pub fn s_typo_ascender(os2: Option<&[u8]>) -> Option<i16>
    ensures { result ≡ s_typo_ascender (option_copied os2.entry) }
{
    signed_in(os2, S_TYPO_ASCENDER)
}

/// sTypoDescender.
pub fn s_typo_descender(os2: Option<&[u8]>) -> Option<i16>
    ensures { result ≡ s_typo_descender (option_copied os2.entry) }
{
    signed_in(os2, S_TYPO_DESCENDER)
}

/// usWinAscent.
pub fn us_win_ascent(os2: Option<&[u8]>) -> Option<u16>
    ensures { result ≡ us_win_ascent (option_copied os2.entry) }
{
    number_in(os2, US_WIN_ASCENT)
}

/// usWinDescent.
pub fn us_win_descent(os2: Option<&[u8]>) -> Option<u16>
    ensures { result ≡ us_win_descent (option_copied os2.entry) }
{
    number_in(os2, US_WIN_DESCENT)
}

/// A signed field that is there from version 2 on.
fn of_version_2(os2: Option<&[u8]>, at: usize) -> Option<i16>
    ensures { result ≡ of_version_2 (option_copied os2.entry) at }
{
    let version = number_in(os2, VERSION)?;
    if version < 2 {
        return None;
    }
    signed_in(os2, at)
}

/// sxHeight, which is there from version 2 on.
pub fn sx_height(os2: Option<&[u8]>) -> Option<i16>
    ensures { result ≡ sx_height (option_copied os2.entry) }
{
    of_version_2(os2, SX_HEIGHT)
}

/// sCapHeight, which is there from version 2 on.
pub fn s_cap_height(os2: Option<&[u8]>) -> Option<i16>
    ensures { result ≡ s_cap_height (option_copied os2.entry) }
{
    of_version_2(os2, S_CAP_HEIGHT)
}
