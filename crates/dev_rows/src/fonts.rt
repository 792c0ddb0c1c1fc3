//! Instances of whole fonts, and subsets of subsets.

use crate::answer::{Answer, list};
use crate::failure::Failure;
use crate::words::{number, numbers, settings};
use cid_embed::{Embedded, embed, shrink, shrink_font};
use std::alloc::Global;
use subsetter_base::GlyphRemapper;
use subsetter_instance::instance;

/// The words of a row of an instance after its font.
#[derive(Clone, Copy)]
pub struct Instance<'a> {
    pub index: &'a str,
    pub glyphs: &'a str,
    pub settings: &'a str,
    pub steps: &'a str,
}

/// The new numbers of the glyphs that a word writes.
fn mapper_of(alloc: Global, word: &str) -> Result<GlyphRemapper, Failure> {
    let glyphs: Vec<u16> = numbers(alloc, word)?;
    let mapper = GlyphRemapper::new_from_glyphs(alloc, &glyphs);
    mapper.ok().ok_or(Failure::Memory)
}

/// The instance that words request.
pub fn instance_by_words(
    alloc: Global,
    font: &[u8],
    words: &Instance<'_>,
) -> Result<Answer, Failure> {
    let settings = settings(alloc, words.settings)?;
    let mapper = mapper_of(alloc, words.glyphs)?;
    let index = number(words.index)?;
    let steps = number(words.steps)?;
    match instance(alloc, font, index, &settings, &mapper, steps) {
        Ok(bytes) => Ok(Answer::Bytes(bytes)),
        Err(error) => Ok(Answer::Refused(error)),
    }
}

/// The CIDs and the widths of an embedded font for some of its CIDs.
fn shrunk(alloc: Global, embedded: &Embedded, cids: &str) -> Result<Answer, Failure> {
    let cids: Vec<u16> = numbers(alloc, cids)?;
    match shrink(alloc, embedded, &cids) {
        Ok(shrunk) => {
            let (cids, widths) = (list(alloc, &shrunk.cids)?, list(alloc, &shrunk.widths)?);
            Ok(Answer::Lists(Vec::from_array(alloc, [cids, widths])?))
        }
        Err(error) => Ok(Answer::Refused(error)),
    }
}

/// The subset of a subset with these glyphs.
fn shrunk_font(alloc: Global, font: &[u8], glyphs: &str) -> Result<Answer, Failure> {
    match shrink_font(alloc, font, &mapper_of(alloc, glyphs)?) {
        Ok(bytes) => Ok(Answer::Bytes(bytes)),
        Err(error) => Ok(Answer::Refused(error)),
    }
}

/// What is made of the font that `embed` makes of some glyphs: a font, or the numbers of an embedded one.
pub fn shrunk_by_words(
    alloc: Global,
    font: &[u8],
    glyphs: &str,
    cids: &str,
    is_font: bool,
) -> Result<Answer, Failure> {
    let glyphs: Vec<u16> = numbers(alloc, glyphs)?;
    match embed(alloc, font, 0, &glyphs) {
        Ok(embedded) if is_font => shrunk_font(alloc, &embedded.font, cids),
        Ok(embedded) => shrunk(alloc, &embedded, cids),
        Err(error) => Ok(Answer::Refused(error)),
    }
}
