//! The stretch at the front of a charstring.
//!
//! Numbers in their shortest form (those of 65536ths have one form), operators that take all operands, and masks whose length is known are in the flat
//! form as they are in the source. So a stretch of them is appended at once, and all else token by token. A
//! stretch has at most as many bytes as tokens are left, so its tokens needn't be counted down one by one.

ghost use Rattle.std.specs.Prelude.{◌≡◌, ◌≤◌, ◌<◌, length, IfSome, ℕ, List};
ghost use Rattle.subsetter_type2.specs.Runs.Output.{Written};
ghost use Rattle.subsetter_type2.specs.Runs.OutputView.{IsOutput};
ghost use Rattle.subsetter_type2.specs.Stretches.Stretch.{Comes, IsSound, IsLonger};

use crate::argstack::MAX_OPERANDS;
use crate::operators::first_byte;
use crate::stretches::plain::{begins_plain, is_mask, is_shortest, plain_size};
use crate::stretches::stretch::Stretch;

/// One token longer, where a whole number of three bytes follows in its shortest form.
#[inline(always)]
fn longer_by_short(
    stretch: Stretch,
    charstring: &[u8],
    most: usize,
    mask_len: u16,
) -> Option<Stretch>
    requires here { stretch.len < most }
    requires most { most ≤ length charstring.now }
    requires sound { IsSound stretch }
    ensures { IfSome result (IsLonger charstring.now most mask_len stretch) }
{
    if charstring[stretch.len] != first_byte::SHORT_INT {
        return None;
    }
    if stretch.count >= MAX_OPERANDS {
        return None;
    }
    if stretch.len + 2 >= charstring.len() {
        return None;
    }
    if !is_shortest(charstring[stretch.len + 1], charstring[stretch.len + 2]) {
        return None;
    }
    Some(stretch.with_number(stretch.len + 3))
}

/// One token longer, where a number of 65536ths follows. Its five bytes are its one form.
#[inline(always)]
fn longer_by_fixed(
    stretch: Stretch,
    charstring: &[u8],
    most: usize,
    mask_len: u16,
) -> Option<Stretch>
    requires here { stretch.len < most }
    requires most { most ≤ length charstring.now }
    requires sound { IsSound stretch }
    ensures { IfSome result (IsLonger charstring.now most mask_len stretch) }
{
    if charstring[stretch.len] != first_byte::FIXED_16_16 {
        return None;
    }
    if stretch.count >= MAX_OPERANDS {
        return None;
    }
    if stretch.len + 4 >= charstring.len() {
        return None;
    }
    Some(stretch.with_number(stretch.len + 5))
}

/// One token longer, where a mask of `mask_len` bytes follows. That is 0 before the first mask, whose length isn't known yet.
#[inline(always)]
fn longer_by_mask(
    stretch: Stretch,
    charstring: &[u8],
    most: usize,
    mask_len: u16,
) -> Option<Stretch>
    requires here { stretch.len < most }
    requires most { most ≤ length charstring.now }
    requires sound { IsSound stretch }
    ensures { IfSome result (IsLonger charstring.now most mask_len stretch) }
{
    if !is_mask(charstring[stretch.len]) {
        return None;
    }
    if mask_len == 0 {
        return None;
    }
    let size = mask_len as usize;
    if charstring.len() - stretch.len <= size {
        return None;
    }
    Some(stretch.with_operator(stretch.len + 1 + size))
}

/// One token longer, where a token follows that may be in a stretch, though few of its kind are.
#[inline(always)]
fn longer_by_rare(
    stretch: Stretch,
    charstring: &[u8],
    most: usize,
    mask_len: u16,
) -> Option<Stretch>
    requires here { stretch.len < most }
    requires most { most ≤ length charstring.now }
    requires sound { IsSound stretch }
    ensures { IfSome result (IsLonger charstring.now most mask_len stretch) }
{
    if charstring[stretch.len] == first_byte::SHORT_INT {
        return longer_by_short(stretch, charstring, most, mask_len);
    }
    if charstring[stretch.len] == first_byte::FIXED_16_16 {
        return longer_by_fixed(stretch, charstring, most, mask_len);
    }
    longer_by_mask(stretch, charstring, most, mask_len)
}

/// One token longer, where a token follows that may be in a stretch.
#[inline(always)]
fn longer(stretch: Stretch, charstring: &[u8], most: usize, mask_len: u16) -> Option<Stretch>
    requires most { most ≤ length charstring.now }
    requires sound { IsSound stretch }
    ensures { IfSome result (IsLonger charstring.now most mask_len stretch) }
{
    if stretch.len >= most {
        return None;
    }
    let first = charstring[stretch.len];
    if !begins_plain(first) {
        return longer_by_rare(stretch, charstring, most, mask_len);
    }
    if stretch.count >= MAX_OPERANDS {
        return None;
    }
    // No branch is made of a token's kind and size, which are hard to guess.
    let len = stretch.len + plain_size(first);
    if len > charstring.len() {
        return None;
    }
    Some(stretch.with_token(len, first < first_byte::LEAST_NUMBER))
}

/// The longest stretch of at most `tokens` tokens at the front of a charstring, with `count` operands on the stack.
#[inline(always)]
pub fn find_stretch(charstring: &[u8], tokens: u32, mask_len: u16, count: usize) -> Stretch
    ensures comes { (bytes : List ℕ) (settled : ℕ) (w : Written) → IsOutput bytes settled count w → Comes charstring.now mask_len bytes settled w result }
    ensures sound { IsSound result }
    ensures inside { result.len ≤ length charstring.now }
    ensures few { result.tokens ≤ tokens }
{
    let most = charstring.len().min(tokens as usize);
    let mut stretch = Stretch {
        len: 0,
        tokens: 0,
        settled: 0,
        count,
        last: 0,
    };
    while let Some(next) = longer(stretch, charstring, most, mask_len) {
        stretch = next;
    }
    stretch
}
