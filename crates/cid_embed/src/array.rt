//! The text of widths in a PDF.

ghost use Rattle.std.specs.Prelude.{◌≡◌, IfOk, IfErr};
ghost use Rattle.subsetter_base.specs.declared.error.Error.TheVariants.{OutOfMemory};
ghost use Rattle.cid_embed.specs.Text.{width_array};

use crate::embedding::Embedded;
use std::alloc::Global;
use subsetter_base::Error;
use subsetter_base::decimals::write_decimals;

/// The widths as the value of `W` in the CIDFont dictionary of a PDF: `[0 [`, the widths in decimal with one space
/// between each two, `]]`.
///
/// # Errors
///
/// `OutOfMemory` alone.
pub fn write_widths(alloc: Global, embedded: &Embedded) -> Result<Vec<u8>, Error>
    ensures ok { IfOk result (λ text. text.items ≡ width_array embedded.now.widths.items) }
    ensures err { IfErr result (λ e. e ≡ OutOfMemory) }
{
    let mut text = Vec::new(alloc);
    text.extend_from_slice(b"[0 [")?;
    write_decimals(&mut text, &embedded.widths)?;
    text.extend_from_slice(b"]]")?;
    Ok(text)
}
