//! The names of glyphs.

ghost use Rattle.std.specs.Prelude.{◌≡◌, map, IfOk};
ghost use Rattle.glyph_names.specs.Names.{glyph_name};
ghost use Rattle.subsetter_base.specs.Texts.{or_else};
ghost use Rattle.glyph_names.specs.Sources.{IsSources};

use crate::post::{own_names, post_name};
use crate::standard::{macintosh_names, standard_strings};
use crate::strings::{Charset, read_charset};
use std::alloc::{AllocError, Global};

/// What the names of a font's glyphs are found by.
#[derive(Drop)]
pub struct Sources<'a> {
    /// The names of the Macintosh.
    pub macintosh: Vec<&'a str>,
    /// The own names in `post`.
    pub own: Vec<&'a [u8]>,
    /// The standard strings of CFF.
    pub standard: Vec<&'a str>,
    /// What names the glyphs of `CFF `.
    pub charset: Charset<'a>,
}

/// A name, or another one where it is empty.
fn or_name<'a>(name: &'a [u8], other: &'a [u8]) -> &'a [u8]
    ensures { result.now ≡ or_else name.now other.now }
{
    if name.is_empty() { other } else { name }
}

/// Reads what the names are found by, from the tables `post` and `CFF `.
fn read_sources<'a>(alloc: Global, post: &'a [u8], cff: &'a [u8]) -> Result<Sources<'a>, AllocError>
    ensures { IfOk result (IsSources post.now cff.now) }
{
    Ok(Sources {
        macintosh: macintosh_names(alloc)?,
        own: own_names(alloc, post)?,
        standard: standard_strings(alloc)?,
        charset: read_charset(alloc, cff)?,
    })
}

/// The name of a glyph.
fn name_of<'a>(post: &'a [u8], cff: &[u8], sources: &Sources<'a>, glyph: u16) -> &'a [u8]
    requires { IsSources post.now cff.now sources.now }
    ensures { result.now ≡ glyph_name post.now cff.now glyph }
{
    let name = post_name(&sources.macintosh, &sources.own, post, glyph);
    or_name(name, sources.charset.name(&sources.standard, glyph))
}

/// The names of glyphs, by the tables `post` and `CFF ` of their font, each of no bytes where the font hasn't got it: the name
/// in `post`, or else the one in `CFF `. A name is empty where neither has one. None is copied.
pub fn glyph_names<'a>(
    alloc: Global,
    post: &'a [u8],
    cff: &'a [u8],
    glyphs: &[u16],
) -> Result<Vec<&'a [u8]>, AllocError>
    ensures { IfOk result (λ v. map (λ name. name.now) v.items ≡ map (glyph_name post.now cff.now) glyphs.now) }
{
    let sources = read_sources(alloc, post, cff)?;
    let mut names = Vec::new(alloc);
    for glyph in glyphs {
        names.push(name_of(post, cff, &sources, *glyph))?;
    }
    Ok(names)
}
