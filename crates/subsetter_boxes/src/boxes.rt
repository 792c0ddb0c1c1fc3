//! The box of an outline, by its charstring (Technical Note 5176, section 14).

ghost use Rattle.std.specs.Prelude.{◌≡◌, ◌≢◌, [], Ok, IfErr, OnOk};
ghost use Rattle.std.specs.Option.{option_copied};
ghost use Rattle.subsetter_base.specs.Gives.{Gives};
ghost use Rattle.subsetter_base.specs.declared.error.Error.TheVariants.{OutOfMemory};
ghost use Rattle.subsetter_boxes.specs.CharstringBox.{before_endchar, after_width, charstring_box, flat_box, outline_box};

use crate::events::Following;
use subsetter_base::Error;
use subsetter_blend::runs::machine::Subroutines;
use subsetter_blend::runs::regions::Regions;
use subsetter_blend::runs::running::run;
use subsetter_cffdata::indexes::index::Index;
use subsetter_cffdata::numerals::charstring_number::read_number;
use subsetter_points::Bounds;
use subsetter_type2::limits::Limits;
use subsetter_type2::operators::first_byte;
use subsetter_type2::subroutines::SubroutineHandler;

/// The error, where memory ran out; another one is passed over.
fn unless_memory(error: Error) -> Result<(), Error>
    ensures ok { OnOk result (error ≢ OutOfMemory) }
    ensures err { IfErr result (λ e. e ≡ OutOfMemory) }
{
    match error {
        Error::OutOfMemory => Err(Error::OutOfMemory),
        _ => Ok(()),
    }
}

/// No data to vary by.
struct Unvaried {}

impl Regions for Unvaried {
    ghost use Rattle.std.specs.Prelude.{None};

    ghost scalars = { λ _ _. None };

    fn count(&self, _data_index: u16) -> Option<usize> {
        None
    }

    fn scalar(&self, _data_index: u16, _region: usize) -> i64 {
        0
    }
}

/// What is after the first number.
fn after_width(charstring: &[u8]) -> Option<&[u8]>
    ensures { option_copied result ≡ after_width charstring.now }
{
    let read = read_number(charstring)?;
    Some(read.rest)
}

/// What is before endchar, the last operator.
fn before_endchar(bytes: &[u8]) -> Option<&[u8]>
    ensures { option_copied result ≡ before_endchar bytes.now }
{
    if bytes.len() == 0 {
        return None;
    }
    let end = bytes.len() - 1;
    if bytes[end] != first_byte::ENDCHAR {
        return None;
    }
    Some(&bytes[..end])
}

/// No subroutines.
fn no_subroutines<'a>() -> SubroutineHandler<'a>
    ensures { result ≡ [] }
{
    SubroutineHandler::new(Index::default())
}

/// The box of the outline of a charstring of `CFF2` that calls no subroutines and doesn't vary.
#[tactic(auto, unfolding(crate::specs::CharstringBox::outline_box))]
fn outline_box(charstring: &[u8]) -> Result<Option<Bounds>, Error>
    ensures value { Gives (λ b. b) result (Ok (outline_box charstring.now)) }
    ensures err { IfErr result (λ e. e ≡ OutOfMemory) }
{
    let Some(limits) = Limits::new(u32::MAX, 1) else {
        return Ok(None);
    };
    let subroutines = Subroutines {
        global: no_subroutines(),
        local: no_subroutines(),
    };
    let mut following = Following::new();
    match run(
        &mut following,
        &subroutines,
        &Unvaried {},
        &limits,
        0,
        charstring,
    ) {
        Ok(()) => Ok(following.bounds()),
        Err(error) => {
            unless_memory(error)?;
            Ok(None)
        }
    }
}

/// The box of the outline of a charstring of `CFF `, in the font's units, by its control points too. The charstring has a width in front and
/// endchar at its end, and calls no subroutines: one that was made of `CFF2` is so. There is none where the outline is empty, the charstring
/// can't be run, or a point isn't of 16 bits.
///
/// # Errors
///
/// `OutOfMemory` alone.
#[tactic(auto, unfolding(crate::specs::CharstringBox::charstring_box))]
pub fn charstring_box(charstring: &[u8]) -> Result<Option<Bounds>, Error>
    ensures value { Gives (λ b. b) result (Ok (charstring_box charstring.now)) }
    ensures err { IfErr result (λ e. e ≡ OutOfMemory) }
{
    let Some(following) = after_width(charstring) else {
        return Ok(None);
    };
    let Some(body) = before_endchar(following) else {
        return Ok(None);
    };
    outline_box(body)
}

/// The box of a charstring without subroutines, which may have a width in front.
///
/// # Errors
///
/// `OutOfMemory` alone.
#[tactic(auto, unfolding(crate::specs::CharstringBox::flat_box))]
pub fn flat_box(flat: &[u8]) -> Result<Option<Bounds>, Error>
    ensures value { Gives (λ b. b) result (Ok (flat_box flat.now)) }
    ensures err { IfErr result (λ e. e ≡ OutOfMemory) }
{
    let Some(body) = before_endchar(flat) else {
        return Ok(None);
    };
    if let Some(bounds) = outline_box(body)? {
        return Ok(Some(bounds));
    }
    match after_width(body) {
        Some(following) => outline_box(following),
        None => Ok(None),
    }
}
