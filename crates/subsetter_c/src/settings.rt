//! Coordinates on the axes of a variable font, as C has them.

ghost use Rattle.std.specs.Prelude.{◌≡◌, ◌≢◌, ◌⊎◌, ◌++◌, IfOk, IfErr, Err, map, drop};
ghost use Rattle.subsetter_base.specs.declared.error.Error.{Error as SpecError};
ghost use Rattle.subsetter_base.specs.declared.error.Error.TheVariants.{OutOfMemory};
ghost use Rattle.subsetter_sfnt.specs.FontAt.{font_at};
ghost use Rattle.subsetter_variable.specs.Subset.{HasOpeningFaultAt};
ghost use Rattle.subsetter_c.specs.Settings.{setting, settings_of};

use std::alloc::Global;
use subsetter::{Error, Extras, Tag};
use subsetter_variable::check_opening_at;

/// A value on an axis.
#[derive(Clone, Copy)]
#[repr(C)]
pub struct Coordinate {
    /// The tag of the axis: its four bytes, the first in the highest bits.
    pub tag: u32,
    /// The value, in 65536ths.
    pub value: i32,
}

/// A tag with a value.
fn setting(coordinate: Coordinate) -> (Tag, i32)
    ensures { result ≡ setting coordinate }
{
    (Tag::new(&coordinate.tag.to_be_bytes()), coordinate.value)
}

/// Tags with values.
pub fn settings_of(alloc: Global, coordinates: &[Coordinate]) -> Result<Vec<(Tag, i32)>, Error>
    ensures ok { IfOk result (λ v. v.items ≡ settings_of coordinates.now) }
    ensures err { IfErr result (λ e. e ≡ OutOfMemory) }
{
    let mut settings = Vec::with_capacity(alloc, coordinates.len())?;
    for coordinate in coordinates {
        settings.push(setting(*coordinate))?;
    }
    Ok(settings)
}

/// Tags with values, for a font.
///
/// # Errors
///
/// `OutOfMemory`: a request for memory was refused. For a font that can't be opened it is what `check_opening_at` returns.
pub fn settings_for(
    alloc: Global,
    font: &[u8],
    index: u32,
    coordinates: &[Coordinate],
    extras: Extras,
) -> Result<Vec<(Tag, i32)>, Error>
    ensures ok { IfOk result (λ v. v.items ≡ settings_of coordinates.now) }
    ensures err { IfErr result (λ e. (e ≡ OutOfMemory) ⊎ HasOpeningFaultAt (font_at font.now index extras) e) }
    // Where there is a fault that is found before memory is taken, the result isn't out of memory.
    ensures before_memory { (e : SpecError) → HasOpeningFaultAt (font_at font.now index extras) e → result ≢ Err OutOfMemory }
{
    match settings_of(alloc, coordinates) {
        Ok(settings) => Ok(settings),
        Err(error) => {
            check_opening_at(font, index, extras)?;
            Err(error)
        }
    }
}
