//! Packed deltas (OpenType, "Tuple Variation Store"), added to sums as they are read: one run after another, with no list of
//! them in memory.

ghost use Rattle.std.specs.Prelude.{◌≡◌, ◌+◌, ◌*◌, ◌<◌, ◌≤◌, ◌^◌, ◌+ℤ◌, ◌*ℤ◌, pos, length, unsigned_abs, slice_index_or, EachIndex, IfSome, option_map};
ghost use Rattle.std.specs.Int.{w8, w16, cast_signed};
ghost use Rattle.std.specs.Option.{option_copied};
ghost use Rattle.subsetter_variation.specs.Packing.Packed.{deltas, deltas_from};

use crate::packing::packed::{DELTA_RUN_COUNTS, DELTAS_ARE_WORDS, DELTAS_ARE_ZERO, byte_in};
use crate::rounding::scalar_times_delta;

/// The signed number of the byte at an offset.
fn byte_at(bytes: &[u8], at: usize) -> i16
    requires { at < length bytes.now }
    ensures { result ≡ cast_signed w8 (slice_index_or bytes.now at 0) }
{
    i16::from(bytes[at].cast_signed())
}

/// Adds to each sum the signed number of its byte times the scalar.
fn add_bytes(sums: &mut [i64], bytes: &[u8], scalar: i64)
    requires same { length sums.old ≡ length bytes.now }
    requires scalar { unsigned_abs scalar ≤ 2 ^ 30 }
    requires room { EachIndex sums.old (λ k. unsigned_abs (slice_index_or sums.old k (pos 0)) ≤ 2 ^ 62) }
    ensures added { EachIndex sums.old (λ k. slice_index_or sums.new k (pos 0) ≡ slice_index_or sums.old k (pos 0) +ℤ scalar *ℤ cast_signed w8 (slice_index_or bytes.now k 0)) }
    ensures bound { EachIndex sums.old (λ k. unsigned_abs (scalar *ℤ cast_signed w8 (slice_index_or bytes.now k 0)) ≤ 2 ^ 45) }
{
    for k in 0..sums.len() {
        sums[k] += scalar_times_delta(scalar, byte_at(bytes, k));
    }
}

/// The signed number of the two bytes at an offset.
fn word_at(bytes: &[u8], at: usize) -> i16
    requires { at + 1 < length bytes.now }
    ensures { result ≡ cast_signed w16 (slice_index_or bytes.now at 0 * 256 + slice_index_or bytes.now (at + 1) 0) }
{
    (u16::from(bytes[at]) * 256 + u16::from(bytes[at + 1])).cast_signed()
}

/// Adds to each sum the signed number of its two bytes times the scalar.
fn add_words(sums: &mut [i64], bytes: &[u8], scalar: i64)
    requires same { length bytes.now ≡ length sums.old * 2 }
    requires scalar { unsigned_abs scalar ≤ 2 ^ 30 }
    requires room { EachIndex sums.old (λ k. unsigned_abs (slice_index_or sums.old k (pos 0)) ≤ 2 ^ 62) }
    ensures added { EachIndex sums.old (λ k. slice_index_or sums.new k (pos 0) ≡ slice_index_or sums.old k (pos 0) +ℤ scalar *ℤ cast_signed w16 (slice_index_or bytes.now (k * 2) 0 * 256 + slice_index_or bytes.now (k * 2 + 1) 0)) }
    ensures bound { EachIndex sums.old (λ k. unsigned_abs (scalar *ℤ cast_signed w16 (slice_index_or bytes.now (k * 2) 0 * 256 + slice_index_or bytes.now (k * 2 + 1) 0)) ≤ 2 ^ 45) }
{
    for k in 0..sums.len() {
        sums[k] += scalar_times_delta(scalar, word_at(bytes, k * 2));
    }
}

/// Adds to each sum the delta that a run, after its first byte, has for it, times the scalar. The bytes after the run,
/// unless it is cut.
#[tactic(auto, using(crate::proofs::PackingLaws::DeltaRuns::zero_run, crate::proofs::PackingLaws::DeltaRuns::byte_run, crate::proofs::PackingLaws::DeltaRuns::byte_run_cut, crate::proofs::PackingLaws::DeltaRuns::word_run, crate::proofs::PackingLaws::DeltaRuns::word_run_cut))]
fn add_run<'a>(sums: &mut [i64], control: u8, bytes: &'a [u8], scalar: i64) -> Option<&'a [u8]>
    requires few { length sums.old ≤ 64 }
    requires scalar { unsigned_abs scalar ≤ 2 ^ 30 }
    requires room { EachIndex sums.old (λ k. unsigned_abs (slice_index_or sums.old k (pos 0)) ≤ 2 ^ 62) }
    ensures rest { option_copied result ≡ option_map (λ d. d.1) (deltas_from (length sums.old) (record { left = length sums.old; control = control; bytes = bytes.now })) }
    ensures added { IfSome (deltas_from (length sums.old) (record { left = length sums.old; control = control; bytes = bytes.now })) (λ d. EachIndex sums.old (λ k. slice_index_or sums.new k (pos 0) ≡ slice_index_or sums.old k (pos 0) +ℤ scalar *ℤ slice_index_or d.0 k (pos 0))) }
    ensures bound { IfSome (deltas_from (length sums.old) (record { left = length sums.old; control = control; bytes = bytes.now })) (λ d. EachIndex sums.old (λ k. unsigned_abs (scalar *ℤ slice_index_or d.0 k (pos 0)) ≤ 2 ^ 45)) }
{
    let count = sums.len();
    if control >= DELTAS_ARE_ZERO {
        return Some(bytes);
    }
    if control >= DELTAS_ARE_WORDS {
        if bytes.len() < count * 2 {
            return None;
        }
        add_words(sums, &bytes[..count * 2], scalar);
        return Some(&bytes[count * 2..]);
    }
    if bytes.len() < count {
        return None;
    }
    add_bytes(sums, &bytes[..count], scalar);
    Some(&bytes[count..])
}

/// Adds to each sum its delta times the scalar. The bytes after the deltas, unless they are cut or a run is longer than they.
#[tactic(auto, unfolding(crate::specs::Packing::Packed::deltas))]
pub fn add_deltas<'a>(sums: &mut [i64], bytes: &'a [u8], scalar: i64) -> Option<&'a [u8]>
    requires scalar { unsigned_abs scalar ≤ 2 ^ 30 }
    requires room { EachIndex sums.old (λ k. unsigned_abs (slice_index_or sums.old k (pos 0)) ≤ 2 ^ 62) }
    ensures rest { option_copied result ≡ option_map (λ d. d.1) (deltas (length sums.old) bytes.now) }
    ensures added { IfSome (deltas (length sums.old) bytes.now) (λ d. EachIndex sums.old (λ k. slice_index_or sums.new k (pos 0) ≡ slice_index_or sums.old k (pos 0) +ℤ scalar *ℤ slice_index_or d.0 k (pos 0))) }
    ensures bound { IfSome (deltas (length sums.old) bytes.now) (λ d. EachIndex sums.old (λ k. unsigned_abs (scalar *ℤ slice_index_or d.0 k (pos 0)) ≤ 2 ^ 45)) }
{
    let mut at = 0;
    let mut rest = bytes;
    while at < sums.len() {
        let (control, following) = byte_in(rest)?;
        let past = at + usize::from(control % DELTA_RUN_COUNTS) + 1;
        if past > sums.len() {
            return None;
        }
        rest = add_run(&mut sums[at..past], control, following, scalar)?;
        at = past;
    }
    Some(rest)
}
