//! The variations of a glyph (OpenType, "gvar" and "Tuple Variation Store"), read one tuple at a time.
//!
//! One tuple is decoded at a time, and the shared point numbers are read once and lent to each, so the largest memory
//! is that of one glyph's points. Bytes left over after a tuple's deltas are passed over, and so are the deltas of a
//! tuple whose scalar is 0: no library reads them, so a fault in them is none. The version of `gvar` isn't looked at.

ghost use Rattle.std.specs.Prelude.{◌<◌, ◌≡◌, ◌≤◌, ◌^◌, ◌≤ℤ◌, pos, Some, None, MatchOption, IfSome, IfOk, length, slice_index_or, unsigned_abs};
ghost use Rattle.std.specs.Option.{ok_or, option_copied, option_map};
ghost use Rattle.subsetter_base.specs.Gives.{Gives};
ghost use Rattle.subsetter_base.specs.declared.error.Error.TheVariants.{MalformedFont};
ghost use Rattle.subsetter_variation.specs.Region.{scalar};
ghost use Rattle.subsetter_variation.specs.Glyphs.SharedScalars.{AreSharedScalars, IsSharedScalar};
ghost use Rattle.subsetter_variation.specs.Glyphs.Tuples.{TupleHeader as SpecHeader, TupleHeaders as SpecHeaders};
ghost use Rattle.subsetter_variation.specs.Glyphs.Tuples.{split, parts, gvar_table, offset, variations_of, tuple_headers, peaks_in, ends_in, region_in, next_header, both_deltas, numbers_and_deltas, tuple_size, count_of, shared_numbers};

use crate::glyphs::tuple_region::{TupleRegion, tuple_region};
use crate::packing::packed::{deltas, point_numbers, word_in};
use std::alloc::{AllocError, Global};
use std::marker::Model;
use subsetter_base::Error;
use subsetter_base::read::{Reader, between_offsets, from_offset};

/// axisCount, two bytes.
const AXIS_COUNT: usize = 4;
/// sharedTupleCount, two bytes.
const SHARED_TUPLE_COUNT: usize = 6;
/// sharedTuplesOffset, four bytes.
const SHARED_TUPLES_OFFSET: usize = 8;
/// glyphCount, two bytes.
const GLYPH_COUNT: usize = 12;
/// flags, two bytes.
const FLAGS: usize = 14;
/// glyphVariationDataArrayOffset, four bytes.
const GLYPH_VARIATION_DATA_ARRAY_OFFSET: usize = 16;
/// glyphVariationDataOffsets.
const GLYPH_VARIATION_DATA_OFFSETS: usize = 20;
/// How many bytes an offset has in the long format, and in the short one, which has it by half.
const OFFSET32_SIZE: usize = 4;

const OFFSET16_SIZE: usize = 2;

/// dataOffset of a glyph's variations, two bytes, after tupleVariationCount.
const DATA_OFFSET: usize = 2;
/// tupleVariationHeaders.
const TUPLE_VARIATION_HEADERS: usize = 4;
/// The flag of tupleVariationCount: the tuples share point numbers.
const SHARED_POINT_NUMBERS: u16 = 0x8000;
/// How many values are below the flags: one more than COUNT_MASK.
const COUNTS: u16 = 0x1000;

/// The flags of tupleIndex: a peak of its own is in the header.
const EMBEDDED_PEAK_TUPLE: u16 = 0x8000;
/// The ends of the region are in the header.
const INTERMEDIATE_REGION: u16 = 0x4000;
/// The tuple has point numbers of its own.
const PRIVATE_POINT_NUMBERS: u16 = 0x2000;
/// How many values are below the flags: one more than TUPLE_INDEX_MASK.
const TUPLE_INDEXES: u16 = 0x1000;

/// The table `gvar`.
#[derive(Drop)]
pub struct Gvar<'a> {
    axis_count: u16,
    glyph_count: u16,
    long: bool,
    shared: &'a [u8],
    offsets: &'a [u8],
    variations: &'a [u8],
    /// The location at which scalars of shared tuples are known.
    location: &'a [i32],
    /// Those of the first shared tuples there.
    scalars: &'a [i64],
}

impl<'a> Model for Gvar<'a> {
    ghost use Rattle.subsetter_variation.specs.Glyphs.Tuples.{Gvar};
    ghost use Rattle.subsetter_variation.specs.Glyphs.SharedScalars.{AreSharedScalars};

    ghost Value = { Gvar };

    ghost view = { λ t. record { axis_count = t.axis_count; glyph_count = t.glyph_count; long = t.long; shared = t.shared.now; offsets = t.offsets.now; variations = t.variations.now } };

    // Each scalar that is known is right.
    ghost invariant = { λ t. AreSharedScalars (record { axis_count = t.axis_count; glyph_count = t.glyph_count; long = t.long; shared = t.shared.now; offsets = t.offsets.now; variations = t.variations.now }) t.location.now t.scalars.now };
}

/// The tuples that are left of a glyph.
#[derive(Drop)]
pub struct TupleHeaders<'a> {
    left: u16,
    headers: &'a [u8],
    serialized: &'a [u8],
}

impl<'a> Model for TupleHeaders<'a> {
    ghost use Rattle.subsetter_variation.specs.Glyphs.Tuples.{TupleHeaders};

    ghost Value = { TupleHeaders };

    ghost view = { λ r. record { left = r.left; headers = r.headers.now; serialized = r.serialized.now } };
}

/// The first bytes and those after them, if there are as many.
fn split(n: usize, bytes: &[u8]) -> Option<(&[u8], &[u8])>
    ensures value { MatchOption result (split n bytes.now ≡ None) (λ r. split n bytes.now ≡ Some (r.0.now, r.1.now)) }
    ensures len { IfSome result (λ r. length r.0.now ≡ n) }
{
    if n <= bytes.len() {
        Some((&bytes[..n], &bytes[n..]))
    } else {
        None
    }
}

/// The parts of the table, for these numbers of its header.
fn parts(gvar: &[u8], axis_count: u16, glyph_count: u16, long: bool) -> Option<Gvar<'_>>
    ensures { result ≡ parts gvar.now axis_count glyph_count long }
{
    let shared_count = Reader::new_at(gvar, SHARED_TUPLE_COUNT).read::<u16>()?;
    let shared_at = Reader::new_at(gvar, SHARED_TUPLES_OFFSET).read::<u32>()?;
    let from = Reader::new_at(gvar, GLYPH_VARIATION_DATA_ARRAY_OFFSET).read::<u32>()?;
    let size = (shared_count as usize).saturating_mul(axis_count as usize * 2);
    let shared = Reader::new_at(gvar, shared_at as usize).read_bytes(size)?;
    let entry = if long { OFFSET32_SIZE } else { OFFSET16_SIZE };
    let offsets = Reader::new_at(gvar, GLYPH_VARIATION_DATA_OFFSETS).read_bytes(
        (glyph_count as usize + 1) * entry,
    )?;
    let variations = from_offset(gvar, from as usize)?;
    Some(Gvar {
        axis_count,
        glyph_count,
        long,
        shared,
        offsets,
        variations,
        location: &[],
        scalars: &[],
    })
}

/// The table, unless it is cut.
#[tactic(auto, unfolding(crate::specs::Glyphs::Tuples::gvar_table))]
pub fn gvar_table(gvar: &[u8]) -> Option<Gvar<'_>>
    ensures { result ≡ gvar_table gvar.now }
{
    let axis_count = Reader::new_at(gvar, AXIS_COUNT).read::<u16>()?;
    let glyph_count = Reader::new_at(gvar, GLYPH_COUNT).read::<u16>()?;
    let flags = Reader::new_at(gvar, FLAGS).read::<u16>()?;
    parts(gvar, axis_count, glyph_count, flags % 2 == 1)
}

impl<'a> Gvar<'a> {
    /// How many axes there are.
    pub fn axis_count(&self) -> u16
        ensures { result ≡ self.now.axis_count }
    {
        self.axis_count
    }

    /// This table at a location where scalars of its first shared tuples are known.
    pub fn located<'b>(&'b self, location: &'b [i32], scalars: &'b [i64]) -> Gvar<'b>
        requires { AreSharedScalars self.now location.now scalars.now }
        ensures { result ≡ self.now }
    {
        Gvar {
            axis_count: self.axis_count,
            glyph_count: self.glyph_count,
            long: self.long,
            shared: self.shared,
            offsets: self.offsets,
            variations: self.variations,
            location,
            scalars,
        }
    }

    /// The scalars of the first shared tuples at a location, as far as they are known.
    pub fn scalars_at(&self, at: &[i32]) -> &'a [i64]
        ensures { AreSharedScalars self.now at.now result.now }
    {
        if self.location == at {
            self.scalars
        } else {
            &[]
        }
    }

    /// The scalar of a shared tuple at a location, if it can be read.
    fn shared_scalar(&self, at: &[i32], index: u16) -> Option<i64>
        requires { length at.now ≡ self.now.axis_count }
        ensures { IfSome result (IsSharedScalar self.now at.now index) }
    {
        let size = self.axis_count as usize * 2;
        let peaks = Reader::new_at(self.shared, usize::from(index) * size).read_bytes(size)?;
        let region = tuple_region(false, self.axis_count, peaks, peaks, peaks);
        Some(region.scalar(at))
    }

    /// The scalars of the first shared tuples at a location, of all that tuples can name.
    pub fn shared_scalars(&self, alloc: Global, at: &[i32]) -> Result<Vec<i64>, AllocError>
        requires { length at.now ≡ self.now.axis_count }
        ensures { IfOk result (λ v. AreSharedScalars self.now at.now v.items) }
    {
        let mut scalars = Vec::new(alloc);
        for index in 0..TUPLE_INDEXES {
            let Some(scalar) = self.shared_scalar(at, index) else {
                return Ok(scalars);
            };
            scalars.push(scalar)?;
        }
        Ok(scalars)
    }

    /// An offset.
    fn offset(&self, glyph: usize) -> Option<usize>
        requires { glyph ≤ 65536 }
        ensures { result ≡ offset self.now glyph }
    {
        if self.long {
            Some(Reader::new_at(self.offsets, glyph * OFFSET32_SIZE).read::<u32>()? as usize)
        } else {
            Some(2 * Reader::new_at(self.offsets, glyph * OFFSET16_SIZE).read::<u16>()? as usize)
        }
    }

    /// The variations of a glyph, unless they aren't there; no bytes where it has none.
    #[tactic(auto, unfolding(crate::specs::Glyphs::Tuples::variations_of))]
    pub fn variations_of(&self, glyph: u16) -> Option<&'a [u8]>
        ensures { option_copied result ≡ variations_of self.now glyph }
    {
        if glyph >= self.glyph_count {
            return None;
        }
        let from = self.offset(glyph as usize)?;
        let to = self.offset(glyph as usize + 1)?;
        between_offsets(self.variations, from, to)
    }
}

/// Whether point numbers are shared, and the tuples of a glyph, by the bytes of its variations.
#[tactic(auto, unfolding(crate::specs::Glyphs::Tuples::tuple_headers))]
pub fn tuple_headers(bytes: &[u8]) -> Option<(bool, TupleHeaders<'_>)>
    ensures value { result ≡ tuple_headers bytes.now }
    ensures few { IfSome result (λ r. r.1.left < 4096) }
{
    let count = Reader::new(bytes).read::<u16>()?;
    let at = Reader::new_at(bytes, DATA_OFFSET).read::<u16>()?;
    let serialized = from_offset(bytes, at as usize)?;
    Some((
        count >= SHARED_POINT_NUMBERS,
        TupleHeaders {
            left: count % COUNTS,
            headers: &bytes[TUPLE_VARIATION_HEADERS..],
            serialized,
        },
    ))
}

/// The peaks of a region, and the bytes of the header after them.
fn peaks_in<'a>(t: &Gvar<'a>, flags: u16, bytes: &'a [u8]) -> Option<(&'a [u8], &'a [u8])>
    ensures value { MatchOption result (peaks_in t.now flags bytes.now ≡ None) (λ r. peaks_in t.now flags bytes.now ≡ Some (r.0.now, r.1.now)) }
    ensures len { IfSome result (λ r. length r.0.now ≡ tuple_size t.now.axis_count) }
{
    let size = t.axis_count as usize * 2;
    if flags >= EMBEDDED_PEAK_TUPLE {
        split(size, bytes)
    } else {
        let at = (flags % TUPLE_INDEXES) as usize * size;
        let peaks = Reader::new_at(t.shared, at).read_bytes(size)?;
        Some((peaks, bytes))
    }
}

/// The region with these peaks, and the bytes of the header after it.
fn ends_in<'a>(
    axis_count: u16,
    flags: u16,
    peaks: &'a [u8],
    bytes: &'a [u8],
) -> Option<(TupleRegion<'a>, &'a [u8])>
    requires { length peaks.now ≡ tuple_size axis_count }
    ensures axes { IfSome result (λ r. length r.0 ≡ axis_count) }
    ensures value { MatchOption result (ends_in axis_count flags peaks.now bytes.now ≡ None) (λ r. ends_in axis_count flags peaks.now bytes.now ≡ Some (r.0, r.1.now)) }
{
    let size = axis_count as usize * 2;
    if flags % EMBEDDED_PEAK_TUPLE >= INTERMEDIATE_REGION {
        let (starts, rest) = split(size, bytes)?;
        let (ends, rest) = split(size, rest)?;
        Some((tuple_region(true, axis_count, peaks, starts, ends), rest))
    } else {
        Some((tuple_region(false, axis_count, peaks, peaks, peaks), bytes))
    }
}

/// The region of a tuple, and the bytes of the header after it.
#[tactic(auto, unfolding(crate::specs::Glyphs::Tuples::region_in))]
fn region_in<'a>(t: &Gvar<'a>, flags: u16, bytes: &'a [u8]) -> Option<(TupleRegion<'a>, &'a [u8])>
    ensures axes { IfSome result (λ r. length r.0 ≡ t.now.axis_count) }
    ensures value { MatchOption result (region_in t.now flags bytes.now ≡ None) (λ r. region_in t.now flags bytes.now ≡ Some (r.0, r.1.now)) }
{
    let (peaks, rest) = peaks_in(t, flags, bytes)?;
    ends_in(t.axis_count, flags, peaks, rest)
}

/// A tuple before its deltas are read.
#[derive(Drop)]
pub struct TupleHeader<'a> {
    region: TupleRegion<'a>,
    private_numbers: bool,
    packed: &'a [u8],
}

impl<'a> Model for TupleHeader<'a> {
    ghost use Rattle.subsetter_variation.specs.Glyphs.Tuples.{TupleHeader};

    ghost Value = { TupleHeader };

    ghost view = { λ h. record { region = h.region; private_numbers = h.private_numbers; packed = h.packed.now } };
}

impl<'a> TupleHeader<'a> {
    /// How far it counts at a location, in parts of 2^30.
    pub fn scalar(&self, at: &[i32]) -> i64
        requires { length self.now.region ≡ length at.now }
        ensures value { result ≡ scalar self.now.region at.now }
        ensures low { pos 0 ≤ℤ result }
        ensures high { result ≤ℤ pos (2 ^ 30) }
    {
        self.region.scalar(at)
    }

    /// It has point numbers of its own.
    pub fn has_private_numbers(&self) -> bool
        ensures { result ≡ self.now.private_numbers }
    {
        self.private_numbers
    }

    /// The bytes of its point numbers and deltas.
    pub fn packed(&self) -> &'a [u8]
        ensures { result.now ≡ self.now.packed }
    {
        self.packed
    }
}

impl<'a> TupleHeaders<'a> {
    /// How many tuples are left.
    pub fn left(&self) -> u16
        ensures { result ≡ self.now.left }
    {
        self.left
    }

    /// The bytes of the shared point numbers, where they are shared, and then those of the tuples.
    pub fn serialized(&self) -> &'a [u8]
        ensures { result.now ≡ self.now.serialized }
    {
        self.serialized
    }

    /// These tuples with other data.
    pub fn with_serialized(self, serialized: &'a [u8]) -> Self
        ensures { result ≡ record self.entry { serialized = serialized.now } }
    {
        TupleHeaders { serialized, ..self }
    }
}

/// The next tuple, without its deltas, and those after it, unless it is cut.
#[tactic(auto, unfolding(crate::specs::Glyphs::Tuples::next_header))]
pub fn next_header<'a>(
    t: &Gvar<'a>,
    r: TupleHeaders<'a>,
) -> Option<(TupleHeader<'a>, TupleHeaders<'a>)>
    ensures value { result ≡ next_header t.now r.entry }
    ensures axes { IfSome result (λ x. length x.0.region ≡ t.now.axis_count) }
{
    let (size, rest) = word_in(r.headers)?;
    let (flags, rest) = word_in(rest)?;
    let (region, headers) = region_in(t, flags, rest)?;
    let (packed, serialized) = split(size as usize, r.serialized)?;
    let private_numbers = flags % INTERMEDIATE_REGION >= PRIVATE_POINT_NUMBERS;
    let left = r.left.saturating_sub(1);
    Some((
        TupleHeader {
            region,
            private_numbers,
            packed,
        },
        TupleHeaders {
            left,
            headers,
            serialized,
        },
    ))
}

/// A scalar, if there are as many.
fn scalar_at(scalars: &[i64], index: usize) -> Option<i64>
    ensures { IfSome result (λ x. (index < length scalars.now) × (x ≡ slice_index_or scalars.now index (pos 0))) }
{
    if index < scalars.len() {
        Some(scalars[index])
    } else {
        None
    }
}

/// The scalar of the next tuple, where that is a shared one without ends of its own whose scalar is known.
pub(crate) fn listed_scalar(
    t: &Gvar<'_>,
    at: &[i32],
    scalars: &[i64],
    r: &TupleHeaders<'_>,
) -> Option<i64>
    requires { AreSharedScalars t.now at.now scalars.now }
    ensures value { (next : SpecHeader × SpecHeaders) → next_header t.now r.now ≡ Some next → IfSome result (λ x. x ≡ scalar next.0.region at.now) }
    ensures small { IfSome result (λ x. unsigned_abs x ≤ 2 ^ 30) }
{
    let (_size, rest) = word_in(r.headers)?;
    let (flags, _rest) = word_in(rest)?;
    if flags >= INTERMEDIATE_REGION {
        return None;
    }
    scalar_at(scalars, usize::from(flags % TUPLE_INDEXES))
}

/// The scalar of a tuple, which may be known.
pub(crate) fn scalar_by(listed: Option<i64>, header: &TupleHeader<'_>, at: &[i32]) -> i64
    requires axes { length header.now.region ≡ length at.now }
    requires listed { IfSome listed (λ x. x ≡ scalar header.now.region at.now) }
    requires small { IfSome listed (λ x. unsigned_abs x ≤ 2 ^ 30) }
    ensures value { result ≡ scalar header.now.region at.now }
    ensures small { unsigned_abs result ≤ 2 ^ 30 }
{
    match listed {
        Some(scalar) => scalar,
        None => header.scalar(at),
    }
}

/// The deltas of x and those of y, one for each of `n` points, in the memory of the spare lists.
#[tactic(auto, unfolding(crate::specs::Glyphs::Tuples::both_deltas))]
pub fn both_deltas(
    spare_x: Vec<i16>,
    spare_y: Vec<i16>,
    n: usize,
    bytes: &[u8],
) -> Result<(Vec<i16>, Vec<i16>), Error>
    ensures exact { Gives (λ r. (r.0.items, r.1.items)) result (ok_or (both_deltas n bytes.now) MalformedFont) }
    ensures x_count { IfOk result (λ r. length r.0.items ≡ n) }
    ensures y_count { IfOk result (λ r. length r.1.items ≡ n) }
{
    let (x, rest) = deltas(spare_x, n, bytes)?;
    let (y, _) = deltas(spare_y, n, rest)?;
    Ok((x, y))
}

/// How many points have deltas: all below the limit, or those that are listed.
pub(crate) fn count_of(limit: u32, numbers: &Option<Vec<u32>>) -> usize
    ensures { result ≡ count_of limit (option_map (λ v. v.items) numbers.now) }
{
    match numbers {
        None => limit as usize,
        Some(list) => list.len(),
    }
}

/// The point numbers of a tuple's own, none for all, and its deltas of x and of y.
#[tactic(auto, unfolding(crate::specs::Glyphs::Tuples::numbers_and_deltas))]
pub fn numbers_and_deltas(
    alloc: Global,
    limit: u32,
    bytes: &[u8],
) -> Result<(Option<Vec<u32>>, Vec<i16>, Vec<i16>), Error>
    ensures { Gives (λ r. (option_map (λ v. v.items) r.0, r.1.items, r.2.items)) result (ok_or (numbers_and_deltas limit bytes.now) MalformedFont) }
{
    let mut spare = Vec::new(alloc);
    let (numbers, rest) = point_numbers(alloc, &mut spare, limit, bytes)?;
    let count = count_of(limit, &numbers);
    let (x, y) = both_deltas(Vec::new(alloc), Vec::new(alloc), count, rest)?;
    Ok((numbers, x, y))
}

/// The point numbers that the tuples share, none for all, in the memory of a list that is spare, and the tuples.
#[tactic(auto, unfolding(crate::specs::Glyphs::Tuples::shared_numbers))]
pub fn shared_numbers<'a>(
    alloc: Global,
    spare: &mut Vec<u32>,
    limit: u32,
    is_shared: bool,
    r: TupleHeaders<'a>,
) -> Result<(Option<Vec<u32>>, TupleHeaders<'a>), Error>
    ensures value { Gives (λ x. (option_map (λ v. v.items) x.0, x.1)) result (ok_or (shared_numbers limit is_shared r.entry) MalformedFont) }
    ensures left { IfOk result (λ x. x.1.left ≡ r.entry.left) }
{
    if is_shared {
        let (numbers, rest) = point_numbers(alloc, spare, limit, r.serialized())?;
        Ok((numbers, r.with_serialized(rest)))
    } else {
        Ok((None, r))
    }
}
