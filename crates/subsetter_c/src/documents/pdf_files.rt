//! Parts of a PDF file, handed to C.

ghost use Rattle.std.specs.Prelude.{◌≡◌, [], Ok, Err};
ghost use Rattle.pdf_text.specs.declared.objects.FontObjects.{FontObjects as SpecObjects};
ghost use Rattle.subsetter_c.specs.Answers.Handed.{IsAnswered};
ghost use Rattle.subsetter_c.specs.Documents.PdfObjects.{IsNothing, IsWritten};

use crate::answers::kept::{kept_bytes, kept_sizes};
use crate::answers::status::{DONE, status_of};
use pdf_text::FontObjects;
use subsetter::Error;

/// A part of a PDF file, or a whole one, which the caller reads, and gives back by `subsetter_free_pdf_objects`.
#[derive(Drop)]
#[repr(C)]
pub struct ObjectsMade {
    pub bytes: &'static [u8],
    /// Where each object begins in the bytes; of a whole file nothing.
    pub offsets: &'static [usize],
}

/// Nothing.
pub fn nothing() -> ObjectsMade
    ensures { IsNothing result }
{
    ObjectsMade {
        bytes: &[],
        offsets: &[],
    }
}

/// Hands objects over, or the error: the status.
pub fn hand_objects(answer: Result<FontObjects, Error>, made: &mut ObjectsMade) -> u32
    ensures { IsWritten (λ bytes offsets. (o : SpecObjects) × (answer ≡ Ok o) × (bytes ≡ o.text.items) × (offsets ≡ o.offsets.items)) (λ e. answer ≡ Err e) made.new result }
{
    match answer {
        Ok(objects) => {
            let FontObjects { text, offsets } = objects;
            *made = ObjectsMade {
                bytes: kept_bytes(text),
                offsets: kept_sizes(offsets),
            };
            DONE
        }
        Err(error) => {
            *made = nothing();
            status_of(error)
        }
    }
}

/// Hands a file over, or the error: the status.
pub fn hand_file(answer: Result<Vec<u8>, Error>, made: &mut ObjectsMade) -> u32
    ensures { IsWritten (λ bytes offsets. IsAnswered answer bytes × (offsets ≡ [])) (λ e. answer ≡ Err e) made.new result }
{
    match answer {
        Ok(file) => {
            *made = ObjectsMade {
                bytes: kept_bytes(file),
                offsets: &[],
            };
            DONE
        }
        Err(error) => {
            *made = nothing();
            status_of(error)
        }
    }
}
