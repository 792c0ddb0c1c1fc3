//! What is wrong with a list that an argument writes, first.

ghost use Rattle.std.specs.Prelude.{◌≡◌, IfOk, map};
ghost use Rattle.subset_args.specs.Listing.Wrong.{wrong_glyphs, wrong_codes, wrong_setting, wrong_coordinate, wrong_part, list_option, first_wrong, list_fault};
ghost use Rattle.subset_args.specs.Mistakes.{fault_view};

use crate::coordinates::coordinate_of;
use crate::listing::characters::{codes_descend, codes_in};
use crate::listing::lists::{descends, ends_in};
use crate::mistakes::{Mistake, Wrong, mistake_in};
use crate::words::{parts_of, tag_of, u16_of};
use std::alloc::{AllocError, Global};

/// What a list has.
#[derive(Clone, Copy)]
pub enum Listing {
    /// Numbers of glyphs, as GID has.
    Numbers,
    /// Numbers and ranges of glyphs, as `--gids` has.
    Glyphs,
    /// Codes and ranges of characters, as `--unicodes` has.
    Codes,
    /// Coordinates, as `--at` has.
    Coordinates,
}

/// What is wrong with a part of a list of glyphs.
fn wrong_glyphs(part: &str) -> Option<Wrong>
    ensures { result ≡ wrong_glyphs part.now }
{
    if part.is_empty() {
        return None;
    }
    if descends(part) {
        return Some(Wrong::Descends);
    }
    match ends_in(part) {
        Some(_) => None,
        None => Some(Wrong::Part),
    }
}

/// What is wrong with a part of a list of characters.
fn wrong_codes(part: &str) -> Option<Wrong>
    ensures { result ≡ wrong_codes part.now }
{
    if part.is_empty() {
        return None;
    }
    if codes_descend(part) {
        return Some(Wrong::CodesDescend);
    }
    match codes_in(part) {
        Some(_) => None,
        None => Some(Wrong::Codes),
    }
}

/// What is wrong with a number of a glyph.
fn wrong_number(part: &str) -> Option<Wrong>
    ensures { result ≡ wrong_part Listing.Numbers part.now }
{
    match u16_of(part) {
        Some(_) => None,
        None => Some(Wrong::Glyph),
    }
}

/// What is wrong with a coordinate on the axis of this name: it is no tag, or else the value is wrong.
fn wrong_setting(name: &str) -> Wrong
    ensures { result ≡ wrong_setting name.now }
{
    match tag_of(name) {
        Some(_) => Wrong::Coordinate,
        None => Wrong::Tag,
    }
}

/// What is wrong with a coordinate.
fn wrong_coordinate(part: &str) -> Option<Wrong>
    ensures { result ≡ wrong_coordinate part.now }
{
    if coordinate_of(part).is_some() {
        return None;
    }
    match part.split_once('=') {
        Some((name, _)) => Some(wrong_setting(name)),
        None => Some(Wrong::Coordinate),
    }
}

/// What is wrong with a part of a list.
fn wrong_part(listing: Listing, part: &str) -> Option<Wrong>
    ensures { result ≡ wrong_part listing part.now }
{
    match listing {
        Listing::Numbers => wrong_number(part),
        Listing::Glyphs => wrong_glyphs(part),
        Listing::Codes => wrong_codes(part),
        Listing::Coordinates => wrong_coordinate(part),
    }
}

/// The option that has a list.
fn list_option(listing: Listing) -> &'static str
    ensures { result.now ≡ list_option listing }
{
    match listing {
        Listing::Numbers => "GID",
        Listing::Glyphs => "--gids",
        Listing::Codes => "--unicodes",
        Listing::Coordinates => "--at",
    }
}

/// The first wrong part; where none is wrong, the list is too long.
fn first_wrong<'a>(listing: Listing, parts: &[&'a str]) -> Mistake<'a>
    ensures { fault_view result ≡ first_wrong listing (map (λ part. part.now) parts.now) }
{
    let mut rest = parts;
    while let [part, following @ ..] = rest {
        if let Some(wrong) = wrong_part(listing, part) {
            return mistake_in(wrong, part);
        }
        rest = following;
    }
    mistake_in(Wrong::TooMany, list_option(listing))
}

/// What is wrong with a list that isn't right.
pub fn wrong_list<'a>(
    alloc: Global,
    listing: Listing,
    text: &'a str,
) -> Result<Mistake<'a>, AllocError>
    ensures { IfOk result (λ m. fault_view m ≡ list_fault listing text.now) }
{
    let parts = parts_of(alloc, text)?;
    Ok(first_wrong(listing, &parts))
}
