//! The name of a font's family in the names of its instances (Technical Note 5902; OpenType, "name").

ghost use Rattle.std.specs.Prelude.{◌≡◌, ◌++◌, filter, IfOk, IfErr};
ghost use Rattle.std.specs.Char.{is_ascii_alphanumeric};
ghost use Rattle.std.specs.Option.{option_copied};
ghost use Rattle.subsetter_base.specs.declared.error.Error.TheVariants.{OutOfMemory};
ghost use Rattle.pdf_text.specs.SubsetName.{or_font};
ghost use Rattle.pdf_values.specs.Name.{postscript_name};
ghost use Rattle.subsetter_base.specs.Texts.{or_else};
ghost use Rattle.pdf_names.specs.Letters.{family, letters_and_digits, plain_name, prefix};

use pdf_values::{postscript_name, table_name};
use std::alloc::Global;
use subsetter_base::Error;

/// The letters and digits of ASCII in a text.
#[tactic(auto, using(std::proofs::lemmas::List::Elements::filter_more))]
pub fn letters_and_digits(alloc: Global, bytes: &[u8]) -> Result<Vec<u8>, Error>
    ensures ok { IfOk result (λ text. text.items ≡ letters_and_digits bytes.now) }
    ensures err { IfErr result (λ e. e ≡ OutOfMemory) }
{
    let mut text = Vec::new(alloc);
    for b in bytes {
        if b.is_ascii_alphanumeric() {
            text.push(*b)?;
        }
    }
    Ok(text)
}

/// Those of the name that `name` has under an ID.
#[tactic(auto, unfolding(crate::specs::Letters::plain_name))]
pub fn plain_name(alloc: Global, id: u16, name: Option<&[u8]>) -> Result<Vec<u8>, Error>
    ensures ok { IfOk result (λ text. text.items ≡ plain_name id (option_copied name.entry)) }
    ensures err { IfErr result (λ e. e ≡ OutOfMemory) }
{
    let text = table_name(alloc, id, name)?;
    letters_and_digits(alloc, &text)
}

/// A text, or where it has no characters that of a name under an ID.
#[tactic(auto, using(pdf_values::proofs::Strings::or_kept, pdf_values::proofs::Strings::or_passed))]
fn or_plain_name(
    alloc: Global,
    text: Vec<u8>,
    id: u16,
    name: Option<&[u8]>,
) -> Result<Vec<u8>, Error>
    ensures ok { IfOk result (λ t. t.items ≡ or_else text.items (plain_name id (option_copied name.entry))) }
    ensures err { IfErr result (λ e. e ≡ OutOfMemory) }
{
    if text.is_empty() {
        return plain_name(alloc, id, name);
    }
    Ok(text)
}

/// What `name` says that a font's family is called.
fn family(alloc: Global, name: Option<&[u8]>) -> Result<Vec<u8>, Error>
    ensures ok { IfOk result (λ text. text.items ≡ family (option_copied name.entry)) }
    ensures err { IfErr result (λ e. e ≡ OutOfMemory) }
{
    let text = plain_name(alloc, 25, name)?;
    let text = or_plain_name(alloc, text, 16, name)?;
    or_plain_name(alloc, text, 1, name)
}

/// The letters and digits of the PostScript name.
fn plain_postscript_name(
    alloc: Global,
    name: Option<&[u8]>,
    cff: Option<&[u8]>,
) -> Result<Vec<u8>, Error>
    ensures ok { IfOk result (λ text. text.items ≡ letters_and_digits (postscript_name (option_copied name.entry) (option_copied cff.entry))) }
    ensures err { IfErr result (λ e. e ≡ OutOfMemory) }
{
    let text = postscript_name(alloc, name, cff)?;
    letters_and_digits(alloc, &text)
}

/// A text, or `Font` where it has no characters.
fn or_font(text: Vec<u8>) -> Result<Vec<u8>, Error>
    ensures ok { IfOk result (λ t. t.items ≡ or_font text.items) }
    ensures err { IfErr result (λ e. e ≡ OutOfMemory) }
{
    let mut text = text;
    if text.is_empty() {
        text.extend_from_slice(b"Font")?;
    }
    Ok(text)
}

/// The name of a font's family, else its PostScript name, else `Font`.
#[tactic(auto, unfolding(crate::specs::Letters::prefix), using(pdf_values::proofs::Strings::or_kept, pdf_values::proofs::Strings::or_passed))]
pub fn prefix(alloc: Global, name: Option<&[u8]>, cff: Option<&[u8]>) -> Result<Vec<u8>, Error>
    ensures ok { IfOk result (λ text. text.items ≡ prefix (option_copied name.entry) (option_copied cff.entry)) }
    ensures err { IfErr result (λ e. e ≡ OutOfMemory) }
{
    let text = family(alloc, name)?;
    if text.is_empty() {
        return or_font(plain_postscript_name(alloc, name, cff)?);
    }
    or_font(text)
}
