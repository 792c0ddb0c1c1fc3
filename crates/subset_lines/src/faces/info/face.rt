//! What a face is: its outlines, its tables, and what its maker permits.

ghost use Rattle.std.specs.Prelude.{◌≡◌, ◌++◌, ◌<◌, IfOk, map};
ghost use Rattle.subset_lines.specs.Faces.Info.{has_bit, word_if, words_of_bits, permission_words};

use crate::faces::outlines::Outlines;
use std::alloc::{AllocError, Global};
use subsetter_base::Tag;

/// What a face is.
#[derive(Clone, Copy)]
pub struct Info<'a> {
    /// What its outlines are.
    pub outlines: Outlines,
    /// Whether it has the table `fvar`, so that they vary.
    pub is_variable: bool,
    /// How many faces the file has.
    pub faces: u32,
    /// How many glyphs the face has, if `maxp` says it.
    pub glyphs: Option<u16>,
    /// Each kind of pictures, by its bit in `kinds_of` of `glyph_kinds`, that glyphs have, with how many have it.
    pub pictures: &'a [(u8, usize)],
    /// How many bytes the file has.
    pub bytes: u64,
    /// The bits of fsType in the table `OS/2`, if it has them.
    pub permission: Option<u16>,
    /// The error for which no subset of all glyphs is made; none where one is made.
    pub refusal: Option<&'a [u8]>,
    /// What is known of the cause of that error, if anything is.
    pub reason: Option<&'a [u8]>,
    /// Each table with its size in bytes.
    pub tables: &'a [(Tag, u32)],
}

/// Whether a bit is set.
fn has_bit(bits: u16, mask: u16) -> bool
    requires { 0 < mask }
    ensures { result ≡ has_bit bits mask }
{
    bits / mask % 2 != 0
}

/// The words and further ones, if these hold.
fn with_word(
    words: Vec<&'static str>,
    holds: bool,
    word: &'static str,
) -> Result<Vec<&'static str>, AllocError>
    ensures { IfOk result (λ v. map (λ w. w.now) v.items ≡ map (λ w. w.now) words.entry.items ++ word_if holds word.now) }
{
    let mut words = words;
    if holds {
        words.push(word)?;
    }
    Ok(words)
}

/// What the bits of fsType permit (OpenType, "OS/2", "fsType"), in words.
fn words_of_bits(alloc: Global, bits: u16) -> Result<Vec<&'static str>, AllocError>
    ensures { IfOk result (λ v. map (λ w. w.now) v.items ≡ words_of_bits bits) }
{
    let words = Vec::new(alloc);
    let words = with_word(words, bits % 16 / 2 == 0, "installable embedding")?;
    let words = with_word(words, has_bit(bits, 2), "restricted license embedding")?;
    let words = with_word(words, has_bit(bits, 4), "preview and print embedding")?;
    let words = with_word(words, has_bit(bits, 8), "editable embedding")?;
    let words = with_word(words, has_bit(bits, 256), "no subsetting")?;
    with_word(words, has_bit(bits, 512), "bitmap embedding only")
}

/// What the bits of fsType permit, in words; none where a face has no bits.
pub fn permission_words(alloc: Global, bits: Option<u16>) -> Result<Vec<&'static str>, AllocError>
    ensures { IfOk result (λ v. map (λ w. w.now) v.items ≡ permission_words bits) }
{
    match bits {
        Some(bits) => words_of_bits(alloc, bits),
        None => Ok(Vec::new(alloc)),
    }
}
