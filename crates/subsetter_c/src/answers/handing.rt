//! Handing an answer over in buffers of the caller.

ghost use Rattle.std.specs.Prelude.{◌≡◌, ◌<◌, ◌≤◌, length, Ok, Err};
ghost use Rattle.subsetter_c.specs.Answers.Embedding.{sizes_of, AreHandedOver};
ghost use Rattle.subsetter_c.specs.Answers.Handed.{begun_with, IsHandedOver, IsAnswered};
ghost use Rattle.subsetter_c.specs.Answers.Status.{too_small};

use crate::answers::status::{DONE, TOO_SMALL, status_of};
use cid_embed::Embedded;
use subsetter::Error;

/// How many bytes the font has, how many CIDs there are, and how many widths.
#[derive(Clone, Copy)]
#[repr(C)]
pub struct Sizes {
    /// The bytes of the font.
    pub font: usize,
    /// The CIDs: as many as glyphs were requested.
    pub cids: usize,
    /// The widths: as many as there are different ones among glyph 0 and the requested glyphs.
    pub widths: usize,
}

impl Sizes {
    /// Of nothing.
    pub const NONE: Sizes = Sizes {
        font: 0,
        cids: 0,
        widths: 0,
    };
}

/// Puts items at the front of a buffer, in which they fit.
pub fn begin_with<T: Copy>(buffer: &mut [T], items: &[T])
    requires { length items.now ≤ length buffer.old }
    ensures { buffer.new ≡ begun_with items.now buffer.old }
{
    buffer[..items.len()].copy_from_slice(items);
}

/// Hands bytes over: the status. Their size is reported also where the buffer is too small.
pub fn hand_bytes(bytes: &[u8], buffer: &mut [u8], told: &mut usize) -> u32
    ensures size { told.new ≡ length bytes.now }
    ensures whole { length bytes.now ≤ length buffer.old → (buffer.new ≡ begun_with bytes.now buffer.old) × (result ≡ 0) }
    ensures short { length buffer.old < length bytes.now → (buffer.new ≡ buffer.old) × (result ≡ too_small) }
{
    *told = bytes.len();
    if bytes.len() > buffer.len() {
        return TOO_SMALL;
    }
    begin_with(buffer, bytes);
    DONE
}

/// Hands an answer over: the status.
pub fn hand_answer(answer: Result<Vec<u8>, Error>, buffer: &mut [u8], told: &mut usize) -> u32
    ensures { IsHandedOver (IsAnswered answer) (λ e. answer ≡ Err e) buffer.old buffer.new told.new result }
{
    match answer {
        Ok(bytes) => hand_bytes(&bytes, buffer, told),
        Err(error) => {
            *told = 0;
            status_of(error)
        }
    }
}

/// Hands glyphs over: the status. Their count is returned also where the buffer is too small.
fn hand_numbers(numbers: &[u16], buffer: &mut [u16], told: &mut usize) -> u32
    ensures size { told.new ≡ length numbers.now }
    ensures whole { length numbers.now ≤ length buffer.old → (buffer.new ≡ begun_with numbers.now buffer.old) × (result ≡ 0) }
    ensures short { length buffer.old < length numbers.now → (buffer.new ≡ buffer.old) × (result ≡ too_small) }
{
    *told = numbers.len();
    if numbers.len() > buffer.len() {
        return TOO_SMALL;
    }
    begin_with(buffer, numbers);
    DONE
}

/// Hands glyphs over, or the error: the status.
pub fn hand_glyphs(answer: Result<Vec<u16>, Error>, buffer: &mut [u16], told: &mut usize) -> u32
    ensures { IsHandedOver (IsAnswered answer) (λ e. answer ≡ Err e) buffer.old buffer.new told.new result }
{
    match answer {
        Ok(glyphs) => hand_numbers(&glyphs, buffer, told),
        Err(error) => {
            *told = 0;
            status_of(error)
        }
    }
}

/// The sizes of what is handed over.
fn sizes_of(embedded: &Embedded) -> Sizes
    ensures { result ≡ sizes_of embedded.now }
{
    Sizes {
        font: embedded.font.len(),
        cids: embedded.cids.len(),
        widths: embedded.widths.len(),
    }
}

/// Hands a font with its CIDs and widths over: the status. The sizes are reported also where a buffer is too small.
pub fn hand_embedded(
    answer: Result<Embedded, Error>,
    font: &mut [u8],
    cids: &mut [u16],
    widths: &mut [u32],
    told: &mut Sizes,
) -> u32
    ensures { AreHandedOver (λ e. answer ≡ Ok e) (λ e. answer ≡ Err e) (record { font = font.old; cids = cids.old; widths = widths.old }) (record { font = font.new; cids = cids.new; widths = widths.new }) told.new result }
{
    let embedded = match answer {
        Ok(embedded) => embedded,
        Err(error) => {
            *told = Sizes::NONE;
            return status_of(error);
        }
    };
    *told = sizes_of(&embedded);
    if embedded.font.len() > font.len()
        || embedded.cids.len() > cids.len()
        || embedded.widths.len() > widths.len()
    {
        return TOO_SMALL;
    }
    begin_with(font, &embedded.font);
    begin_with(cids, &embedded.cids);
    begin_with(widths, &embedded.widths);
    DONE
}
