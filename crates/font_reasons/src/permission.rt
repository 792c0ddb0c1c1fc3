//! Why a font may not be embedded.

ghost use Rattle.std.specs.Prelude.{◌≡◌};
ghost use Rattle.std.specs.Option.{option_copied};
ghost use Rattle.subsetter_sfnt.specs.Extras.{all_extras};
ghost use Rattle.pdf_values.specs.Permission.{permission};
ghost use Rattle.subsetter_sfnt.specs.Fields.Os2.{fs_type};
ghost use Rattle.font_reasons.specs.Permission.{prohibition_by, prohibition};

use crate::reason::Reason;
use pdf_values::{Rights, is_permitted, permission_of};
use subsetter_base::Tag;
use subsetter_sfnt::directory::table;
use subsetter_sfnt::fields::os2::fs_type;

/// Why `OS/2` forbids to embed a subset, if it does.
fn prohibition_in(os2: Option<&[u8]>) -> Option<Reason>
    ensures { result ≡ prohibition_by (permission (option_copied os2.entry)) (fs_type (option_copied os2.entry)) }
{
    let permission = permission_of(os2);
    let fs_type = fs_type(os2)?;
    if is_permitted(permission, Rights::AsSaid) {
        return None;
    }
    Some(Reason::Forbidden(fs_type, permission))
}

/// Why the maker of a font forbids to embed a subset of it, if so: what fsType of `OS/2` says.
pub fn find_prohibition(font: &[u8], index: u32) -> Option<Reason>
    ensures { result ≡ prohibition (record { bytes = font.now; index = index; extras = all_extras }) }
{
    prohibition_in(table(font, index, Tag::new(b"OS/2")))
}
