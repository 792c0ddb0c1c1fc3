//! The widths of all glyphs of a new font (ISO 32000-1, 9.7.4.3).

ghost use Rattle.std.specs.Prelude.{◌≡◌, ◌<◌, ◌≤◌, ◌+◌, ◌^◌, ℕ, length, Ok, Err, IfOk, IfErr, OnOk, nat_eq, nat_lt, if◌then◌else◌, slice_index};
ghost use Rattle.std.specs.HashMap.{get};
ghost use Rattle.subsetter_base.specs.Gives.{Gives};
ghost use Rattle.subsetter_base.specs.declared.error.Error.TheVariants.{OutOfMemory};
ghost use Rattle.subsetter_sfnt.specs.Read.{table_in};
ghost use Rattle.cid_embed.specs.Afresh.{measures_of, widths_of, measures_seen};
ghost use Rattle.pdf_source.specs.Counted.{counted};
ghost use Rattle.pdf_source.specs.Frequent.{IsMostFrequent, count_of};

use cid_embed::{Metrics, all_widths};
use std::alloc::Global;
use std::collections::HashMap;
use subsetter_base::{Error, Tag};
use subsetter_sfnt::face::Face;
use subsetter_sfnt::fields::head::units_per_em;
use subsetter_sfnt::fields::hhea::number_of_h_metrics;

/// The metrics of a font. What is missing or cut, and a unitsPerEm of 0, is `MalformedFont`.
#[tactic(auto, unfolding(cid_embed::specs::Afresh::measures_of))]
pub(crate) fn metrics_of<'a>(face: &Face<'a>) -> Result<Metrics<'a>, Error>
    ensures ok { IfOk result (λ m. measures_of (table_in face.now.«data».now face.now.records.now) ≡ Ok (measures_seen m)) }
    ensures err { IfErr result (λ e. measures_of (table_in face.now.«data».now face.now.records.now) ≡ Err e) }
    ensures divides { IfOk result (λ m. 0 < m.units) }
{
    let hmtx = face.stored(Tag::HMTX).ok_or(Error::MalformedFont)?;
    let head = face.stored(Tag::HEAD).ok_or(Error::MalformedFont)?;
    let units = units_per_em(head).ok_or(Error::MalformedFont)?;
    if units == 0 {
        return Err(Error::MalformedFont);
    }
    let hhea = face.stored(Tag::HHEA).ok_or(Error::MalformedFont)?;
    let pairs = number_of_h_metrics(hhea).ok_or(Error::MalformedFont)?;
    Ok(Metrics {
        hmtx,
        number_of_h_metrics: pairs,
        units,
    })
}

/// The widths of the first `count` glyphs of a font. What is missing is `MalformedFont`.
#[tactic(auto, unfolding(cid_embed::specs::Afresh::widths_of))]
pub fn widths_of(alloc: Global, face: &Face<'_>, count: u16) -> Result<Vec<u32>, Error>
    ensures { Gives (λ v. v.items) result (widths_of (table_in face.now.«data».now face.now.records.now) count) }
{
    let metrics = metrics_of(face)?;
    all_widths(alloc, &metrics, count)
}

/// Widths below this are counted at a place of their own, and the others, which few fonts have, by a map.
const INDEXED_WIDTHS: usize = 2048;

/// How often widths were counted.
#[derive(Drop)]
struct Counts {
    placed: Vec<u32>,
    mapped: HashMap<u32, u32>,
}

impl Counts {
    /// None were counted.
    fn new(alloc: Global) -> Result<Self, Error>
        ensures ok { IfOk result (λ counts. (w : ℕ) → counted counts.placed.items (get nat_eq counts.mapped) w ≡ 0) }
        ensures err { IfErr result (λ e. e ≡ OutOfMemory) }
    {
        Ok(Self {
            placed: vec![in alloc; 0; INDEXED_WIDTHS]?,
            mapped: HashMap::new(alloc),
        })
    }

    /// How often a width was counted.
    fn of(&self, width: u32) -> u32
        ensures { result ≡ counted self.now.placed.items (get nat_eq self.now.mapped) width }
    {
        let place = width as usize;
        if place < self.placed.len() {
            return self.placed[place];
        }
        match self.mapped.get(&width) {
            Some(count) => *count,
            None => 0,
        }
    }

    /// Counts a width once more.
    #[tactic(auto, using(crate::proofs::Counting::placed_once, crate::proofs::Counting::mapped_once))]
    fn add(&mut self, width: u32) -> Result<(), Error>
        requires { counted self.old.placed.items (get nat_eq self.old.mapped) width + 1 < 2 ^ 32 }
        ensures ok { OnOk result ((w : ℕ) → counted self.new.placed.items (get nat_eq self.new.mapped) w ≡ (if nat_eq width w then counted self.old.placed.items (get nat_eq self.old.mapped) width + 1 else counted self.old.placed.items (get nat_eq self.old.mapped) w)) }
        ensures err { IfErr result (λ e. e ≡ OutOfMemory) }
    {
        let more = self.of(width) + 1;
        let place = width as usize;
        if place < self.placed.len() {
            self.placed[place] = more;
            return Ok(());
        }
        self.mapped.insert(width, more)?;
        Ok(())
    }
}

/// How often each width is there.
#[tactic(auto, using(crate::proofs::Counting::counted_few))]
fn counts_of(alloc: Global, widths: &[u32]) -> Result<Counts, Error>
    requires { length widths.now < 2 ^ 32 }
    ensures ok { IfOk result (λ counts. (w : ℕ) → counted counts.placed.items (get nat_eq counts.mapped) w ≡ count_of widths.now w) }
    ensures err { IfErr result (λ e. e ≡ OutOfMemory) }
{
    let mut counts = Counts::new(alloc)?;
    for width in widths {
        counts.add(*width)?;
    }
    Ok(counts)
}

/// The index of a width, if it is more frequent than the best one so far, else the index of that.
fn more_frequent(counts: &Counts, widths: &[u32], best: usize, index: usize) -> usize
    requires best { best < length widths.now }
    requires index { index < length widths.now }
    ensures { result ≡ (if nat_lt (counted counts.now.placed.items (get nat_eq counts.now.mapped) (slice_index widths.now best)) (counted counts.now.placed.items (get nat_eq counts.now.mapped) (slice_index widths.now index)) then index else best) }
{
    if counts.of(widths[best]) < counts.of(widths[index]) {
        index
    } else {
        best
    }
}

/// The most frequent width, of several the earliest.
pub fn most_frequent(alloc: Global, widths: &[u32]) -> Result<u32, Error>
    requires some { 0 < length widths.now }
    requires few { length widths.now < 2 ^ 32 }
    ensures ok { IfOk result (λ w. IsMostFrequent widths.now w) }
    ensures err { IfErr result (λ e. e ≡ OutOfMemory) }
{
    let counts = counts_of(alloc, widths)?;
    let mut best = 0;
    for i in 0..widths.len() {
        best = more_frequent(&counts, widths, best, i);
    }
    Ok(widths[best])
}
