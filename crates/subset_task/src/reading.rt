//! The bytes of a font that is read.

ghost use Rattle.std.specs.Prelude.{◌≡◌, IfOk, IfErr, IfSome, OnOk};
ghost use Rattle.std.specs.Io.KnownBytes.{IsAtEnd};
ghost use Rattle.subset_task.specs.declared.refusals.failure.Failure.TheVariants.{Read as CannotRead};

use crate::refusals::failure::Failure;
use std::alloc::Global;
use std::io::Read;

/// The bytes that a reader has left; memory for `room` of them is reserved at once.
pub fn read_whole<R: Read>(alloc: Global, reader: &mut R, room: usize) -> Result<Vec<u8>, Failure>
    ensures bytes { IfOk result (λ font. IfSome (R.remaining reader.old) (λ bytes. font.items ≡ bytes)) }
    ensures end { OnOk result (IsAtEnd (R.remaining reader.new)) }
    ensures err { IfErr result (λ e. e ≡ CannotRead) }
{
    let mut font = match Vec::with_capacity(alloc, room) {
        Ok(font) => font,
        Err(_) => return Err(Failure::Read),
    };
    if reader.read_to_end(&mut font).is_err() {
        return Err(Failure::Read);
    }
    Ok(font)
}
