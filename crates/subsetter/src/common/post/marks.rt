//! The font's own names of `post` by their numbers.
//!
//! The names are one after another, so the offset of every eighth is kept in 32 bits, up to the greatest that is
//! requested, and of every one where these are at most four for each kept glyph; past what 32 bits reach a name is found from
//! the first on.

ghost use Rattle.std.specs.Prelude.{◌≡◌, ◌≤◌, ◌<◌, ◌+◌, ◌*◌, ◌^◌, ℕ, true, [], length, drop, get_or, slice_get, Some, IfOk, IfErr, IfNone, IfSome};
ghost use Rattle.subsetter_base.specs.declared.error.Error.TheVariants.{OutOfMemory};
ghost use Rattle.subsetter.specs.Common.Post.Marks.{AreMarks, ArePlaces, IsName, step_of, run_bytes};
ghost use Rattle.subsetter.specs.Common.Post.Read.{names_in, pascal_bytes};

use std::alloc::Global;
use std::marker::Model;
use subsetter_base::Error;
use subsetter_base::fields::byte_in;
use subsetter_base::read::between_offsets;

/// The place after the name at a place, if one is there.
fn name_end(bytes: &[u8], at: usize) -> Option<usize>
    ensures there { IfSome result (λ end. IsName bytes.now at end) }
    ensures within { IfSome result (λ end. end ≤ length bytes.now) }
    ensures none { IfNone result (names_in (drop at bytes.now) ≡ []) }
{
    if at >= bytes.len() {
        return None;
    }
    let len = usize::from(bytes[at]);
    let end = at + 1 + len;
    if end > bytes.len() {
        return None;
    }
    Some(end)
}

/// The place after the name at a place; the end of the bytes where no name is there.
fn past_name(bytes: &[u8], at: usize) -> usize
    ensures names { names_in (drop result bytes.now) ≡ drop 1 (names_in (drop at bytes.now)) }
    ensures within { result ≤ length bytes.now }
    ensures place { 1 ≤ length (names_in (drop at bytes.now)) → IsName bytes.now at result }
{
    match name_end(bytes, at) {
        Some(end) => end,
        None => bytes.len(),
    }
}

/// The place after `count` names from a place on.
fn pass(bytes: &[u8], start: usize, count: usize) -> usize
    requires { start ≤ length bytes.now }
    ensures names { names_in (drop result bytes.now) ≡ drop count (names_in (drop start bytes.now)) }
    ensures within { result ≤ length bytes.now }
{
    let mut at = start;
    for _ in 0..count {
        at = past_name(bytes, at);
    }
    at
}

/// How many bytes the first `count` of eight names have, where all eight have this length: one look at each length byte tells.
fn alike_len(bytes: &[u8], count: usize, len: u8) -> Option<usize>
    requires { count ≤ 8 }
    ensures names { IfSome result (λ n. names_in (drop n bytes.now) ≡ drop count (names_in bytes.now)) }
    ensures within { IfSome result (λ n. n ≤ length bytes.now) }
{
    let step = usize::from(len) + 1;
    if bytes.len() < 8 * step {
        return None;
    }
    if bytes[0] == len
        && bytes[step] == len
        && bytes[2 * step] == len
        && bytes[3 * step] == len
        && bytes[4 * step] == len
        && bytes[5 * step] == len
        && bytes[6 * step] == len
        && bytes[7 * step] == len
    {
        Some(count * step)
    } else {
        None
    }
}

/// The length byte at a place, 0 after the last one.
fn length_byte(bytes: &[u8], at: usize) -> u8 {
    match byte_in(Some(bytes), at) {
        Some(len) => len,
        None => 0,
    }
}

/// The place after `count` names from a place on, found fast where eight names have one length.
fn skip(bytes: &[u8], at: usize, count: usize) -> usize
    requires { at ≤ length bytes.now }
    ensures names { names_in (drop result bytes.now) ≡ drop count (names_in (drop at bytes.now)) }
    ensures within { result ≤ length bytes.now }
{
    if count == 0 {
        return at;
    }
    if count > 8 {
        return pass(bytes, at, count);
    }
    match alike_len(&bytes[at..], count, length_byte(bytes, at)) {
        Some(len) => at + len,
        None => pass(bytes, at, count),
    }
}

/// The place after eight names from a place on, and a guess of the length of those that follow.
///
/// Names in a row often have one length. It is taken from the names before and not read here, so that the place of the
/// next names waits for no byte.
fn skip_eight(bytes: &[u8], at: usize, len: u8) -> (usize, u8)
    requires { at ≤ length bytes.now }
    ensures names { names_in (drop result.0 bytes.now) ≡ drop 8 (names_in (drop at bytes.now)) }
    ensures within { result.0 ≤ length bytes.now }
{
    match alike_len(&bytes[at..], 8, len) {
        Some(size) => (at + size, len),
        None => {
            let end = pass(bytes, at, 8);
            (end, length_byte(bytes, end))
        }
    }
}

/// The place after one name from a place on, or after eight, and a guess of the length of those that follow.
fn skip_step(bytes: &[u8], at: usize, len: u8, is_dense: bool) -> (usize, u8)
    requires { at ≤ length bytes.now }
    ensures names { names_in (drop result.0 bytes.now) ≡ drop (step_of is_dense) (names_in (drop at bytes.now)) }
    ensures within { result.0 ≤ length bytes.now }
    ensures place { is_dense ≡ true → 1 ≤ length (names_in (drop at bytes.now)) → IsName bytes.now at result.0 }
{
    if is_dense {
        (past_name(bytes, at), len)
    } else {
        skip_eight(bytes, at, len)
    }
}

/// Which mark a name is found from, and how many names are passed over from there.
fn mark_of(is_dense: bool, number: usize) -> (usize, usize)
    ensures { step_of is_dense * result.0 + result.1 ≡ number }
{
    if is_dense {
        (number, 0)
    } else {
        (number / 8, number % 8)
    }
}

/// The first name of some bytes, after its length byte; an empty one where no name is there.
#[tactic(auto, using(crate::proofs::CommonLaws::PostLaws::Entries::entry_there, crate::proofs::CommonLaws::PostLaws::Entries::entry_cut))]
fn first_entry(bytes: &[u8]) -> &[u8]
    ensures { result.now ≡ pascal_bytes (get_or (names_in bytes.now) 0 []) }
{
    let [len, rest @ ..] = bytes else {
        return &[0];
    };
    let size = usize::from(*len);
    if size > rest.len() {
        return &[0];
    }
    &bytes[..size + 1]
}

/// The bytes from a place on.
fn from_offset(bytes: &[u8], at: usize) -> &[u8]
    requires { at ≤ length bytes.now }
    ensures { result.now ≡ drop at bytes.now }
{
    &bytes[at..]
}

/// An offset that is kept, if there is one.
fn mark_in(marks: &[u32], place: usize) -> Option<usize>
    ensures { IfSome result (λ mark. slice_get marks.now place ≡ Some mark) }
{
    let mark = marks.get(place)?;
    Some(*mark as usize)
}

/// `count` names from a number on, each after its length byte, where every offset is kept and all are there.
fn run_in<'a>(
    all: &'a [u8],
    marks: &[u32],
    is_dense: bool,
    from: usize,
    count: usize,
) -> Option<&'a [u8]>
    requires marks { AreMarks (step_of is_dense) all.now (names_in all.now) marks.now }
    requires places { is_dense ≡ true → ArePlaces (names_in all.now) marks.now }
    requires small { from + count < 2 ^ 64 }
    ensures { IfSome result (λ run. run.now ≡ run_bytes (names_in all.now) from count) }
{
    if count == 0 {
        return None;
    }
    if !is_dense {
        return None;
    }
    let start = mark_in(marks, from)?;
    let last = mark_in(marks, from + count - 1)?;
    let end = name_end(all, last)?;
    between_offsets(all, start, end)
}

/// The bytes from a name on, and how many names are to be passed over.
#[derive(Clone, Copy)]
struct Mark<'a> {
    bytes: &'a [u8],
    count: usize,
}

/// Names by their numbers. They are written one after another, so the places of some are kept.
#[derive(Drop)]
pub(crate) struct NameList<'a> {
    all: &'a [u8],
    /// Where every name begins, or else every eighth, up to some number.
    marks: Vec<u32>,
    /// Whether there is a mark for every name.
    is_dense: bool,
}

impl<'a> Model for NameList<'a> {
    ghost use Rattle.std.specs.Prelude.{◌≡◌, ℕ, List, true};
    ghost use Rattle.subsetter.specs.Common.Post.Read.{names_in};
    ghost use Rattle.subsetter.specs.Common.Post.Marks.{AreMarks, ArePlaces, step_of};

    ghost Value = { List (List ℕ) };

    ghost view = { λ l. names_in l.all.now };

    ghost invariant = { λ l. record {
      marks : AreMarks (step_of l.is_dense) l.all.now (names_in l.all.now) l.marks.items;
      places : l.is_dense ≡ true → ArePlaces (names_in l.all.now) l.marks.items;
    } };
}

impl<'a> NameList<'a> {
    /// The names of some bytes, of which those below a number are found soon.
    pub(crate) fn new(
        alloc: Global,
        all: &'a [u8],
        limit: usize,
        is_dense: bool,
    ) -> Result<Self, Error>
        ensures ok { IfOk result (λ list. list ≡ names_in all.now) }
        ensures err { IfErr result (λ e. e ≡ OutOfMemory) }
    {
        let count = if is_dense { limit } else { limit / 8 }.saturating_add(1);
        let mut marks = Vec::with_capacity(alloc, count)?;
        let mut at: usize = 0;
        let mut len = length_byte(all, 0);
        for _ in 0..count {
            if at > 0xffff_ffff {
                break;
            }
            marks.push_reserved(at as u32);
            let (next, next_len) = skip_step(all, at, len, is_dense);
            at = next;
            len = next_len;
        }
        Ok(Self {
            all,
            marks,
            is_dense,
        })
    }

    /// The mark from which the name with a number is found.
    fn from_mark(&self, number: usize) -> Mark<'a>
        ensures { drop result.count (names_in result.bytes.now) ≡ drop number self.now }
    {
        let (place, count) = mark_of(self.is_dense, number);
        match self.marks.get(place) {
            Some(mark) => Mark {
                bytes: from_offset(self.all, *mark as usize),
                count,
            },
            None => Mark {
                bytes: self.all,
                count: number,
            },
        }
    }

    /// The name with a number after its length byte, an empty one where none is there.
    pub(crate) fn entry(&self, number: usize) -> &'a [u8]
        ensures { result.now ≡ pascal_bytes (get_or self.now number []) }
    {
        let Mark { bytes, count } = self.from_mark(number);
        let at = skip(bytes, 0, count);
        first_entry(&bytes[at..])
    }

    /// `count` names from a number on, each after its length byte, where every offset is kept and all are there.
    pub(crate) fn entries(&self, from: usize, count: usize) -> Option<&'a [u8]>
        requires { from + count < 2 ^ 64 }
        ensures { IfSome result (λ run. run.now ≡ run_bytes self.now from count) }
    {
        run_in(self.all, &self.marks, self.is_dense, from, count)
    }

    /// An offset that is kept, 0 where there is none.
    fn mark(&self, place: usize) -> usize {
        match self.marks.get(place) {
            Some(mark) => *mark as usize,
            None => 0,
        }
    }

    /// How many bytes the name with a number takes with its length byte. It isn't looked at where every offset is kept.
    pub(crate) fn entry_len(&self, number: usize) -> usize {
        if !self.is_dense {
            return self.entry(number).len();
        }
        let following = self.mark(number.saturating_add(1));
        following.saturating_sub(self.mark(number))
    }
}
