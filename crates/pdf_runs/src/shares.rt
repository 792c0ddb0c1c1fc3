//! What each glyph of a cluster says.

ghost use Rattle.std.specs.Prelude.{◌≡◌, ◌<◌, ◌≤◌, [], get_or, length, min, take, drop};
ghost use Rattle.pdf_runs.specs.Items.{in_reading, visual};
ghost use Rattle.pdf_runs.specs.Shares.{first_count, shares};

use crate::items::Direction;

/// The place in reading order of what is at a place from left to right or from top to bottom, of `count`.
pub fn in_reading(direction: Direction, count: usize, place: usize) -> usize
    requires { place < count }
    ensures value { result ≡ in_reading direction count place }
    ensures within { result < count }
{
    match direction {
        Direction::RightToLeft => count - 1 - place,
        Direction::LeftToRight | Direction::TopToBottom => place,
    }
}

/// How many of the characters the first of `count` glyphs has.
fn first_count(text: &[char], count: usize) -> usize
    requires { 0 < count }
    ensures value { result ≡ min (first_count count text.now) (length text.now) }
    ensures within { result ≤ length text.now }
{
    (1 + text.len().saturating_sub(count)).min(text.len())
}

/// The characters after the first `count`.
fn following(text: &[char], count: usize) -> &[char]
    requires { count ≤ length text.now }
    ensures { result.now ≡ drop count text.now }
{
    &text[count..]
}

/// The character at a place, or nothing after the last one.
fn one_at(text: &[char], place: usize) -> &[char]
    ensures { result.now ≡ take 1 (drop place text.now) }
{
    if place < text.len() {
        &text[place..place + 1]
    } else {
        &[]
    }
}

/// The characters of the glyph at a place in reading order, of `count` glyphs.
#[tactic(auto, using(crate::proofs::ShareLaws::share_first))]
fn share(text: &[char], count: usize, place: usize) -> &[char]
    requires { place < count }
    ensures { result.now ≡ get_or (shares count text.now) place [] }
{
    let first = first_count(text, count);
    if place == 0 {
        return &text[..first];
    }
    one_at(following(text, first), place - 1)
}

/// The characters of the glyph at a place from left to right or from top to bottom, of `count` glyphs.
pub fn share_at(direction: Direction, text: &[char], count: usize, place: usize) -> &[char]
    requires { place < count }
    ensures { result.now ≡ get_or (visual direction (shares count text.now)) place [] }
{
    share(text, count, in_reading(direction, count, place))
}
