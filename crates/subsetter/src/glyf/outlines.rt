//! The outlines of a new `glyf`.
//!
//! A borrowed outline stays a slice of the source; a composite is written under its new numbers after those before it.
//! (A `CowSlice` has 32 bytes, and an owned one an allocation of its own: for 50,000 small glyphs as much as the whole
//! output.) The list is written to in place, and a composite that turns out to be cut is taken back, so that the list
//! is whole after an error too. The zero byte after an odd outline, in the short format, is written with the output and
//! not kept here.

ghost use Rattle.std.specs.Prelude.{◌≡◌, ◌+◌, ◌<◌, ◌≤◌, ◌^◌, ◌++◌, ◌∷◌, [], length, vec_capacity, Ok, OnOk, IfOk, IfErr};
ghost use Rattle.std.specs.Iterator.{YieldsFirstBy, item_count};
ghost use Rattle.subsetter_base.specs.Gives.{Fails};
ghost use Rattle.subsetter_base.specs.declared.error.Error.TheVariants.{OutOfMemory};
ghost use Rattle.subsetter.specs.Glyf.BareOutlines.Bare.{requested_simple};
ghost use Rattle.subsetter.specs.Glyf.Plain.{rewritten_composite, with_last};
ghost use Rattle.subsetter.specs.Glyf.Reaching.Unfold.{padded};
ghost use Rattle.subsetter.specs.Glyf.View.{outline_bytes};
ghost use Rattle.subsetter.specs.Glyf.Written.{glyf_bytes};
ghost use Rattle.subsetter_sfnt.specs.Laying.Checksum.{checksum};

use crate::glyf::component::rewrite_composite;
use crate::glyf::pieces::Outline;
use std::alloc::Global;
use std::marker::Model;
use subsetter_base::{Error, GlyphRemapper};
use subsetter_sfnt::laying::checksum::Sum;
use subsetter_sfnt::laying::room::put;

/// A list of outlines, in less room than a `CowSlice` each: borrowed ones stay in the source, and those that are made
/// anew are one after another.
///
/// A borrowed outline is whole here. Where instructions aren't requested, its pieces without them are found each time
/// that it is looked at: when it is counted, for its entry of `loca`, and where it is written.
#[derive(Drop)]
pub struct OutlineList<'a> {
    /// Whether instructions are asked for.
    hinting: bool,
    /// The borrowed outlines; an empty one is the place of the next of those that were made.
    kept: Vec<&'a [u8]>,
    /// How many bytes each outline that was made has. An empty one counts as made.
    sizes: Vec<usize>,
    /// The bytes of the outlines that were made.
    made: Vec<u8>,
    /// How many bytes all outlines have.
    size: usize,
    /// How many bytes they have with each outline rounded up to even.
    even_size: usize,
}

impl<'a> Model for OutlineList<'a> {
    ghost use Rattle.std.specs.Prelude.{ℕ, List, true, false, length};
    ghost use Rattle.subsetter.specs.Common.Name.View.{nows};
    ghost use Rattle.subsetter.specs.Glyf.Woven.{Listed, woven, AreWoven, IsCounted};
    ghost use Rattle.subsetter.specs.Glyf.Written.{glyf_bytes};

    ghost Value = { Listed };

    ghost view = { λ o. record { hinting = o.hinting; items = woven o.hinting (nows o.kept.items) o.sizes.items o.made.items } };

    ghost invariant = { λ o. record {
      parts : AreWoven (nows o.kept.items) o.sizes.items o.made.items;
      counted : IsCounted o.size (length (glyf_bytes true (woven o.hinting (nows o.kept.items) o.sizes.items o.made.items)));
      even : IsCounted o.even_size (length (glyf_bytes false (woven o.hinting (nows o.kept.items) o.sizes.items o.made.items)));
    } };
}

impl<'a> OutlineList<'a> {
    /// No outlines, and room for `count`.
    pub fn with_capacity(alloc: Global, count: usize, hinting: bool) -> Result<Self, Error>
        ensures ok { IfOk result (λ list. list ≡ record { hinting = hinting; items = [] }) }
        ensures err { IfErr result (λ e. e ≡ OutOfMemory) }
    {
        Ok(Self {
            hinting,
            kept: Vec::with_capacity(alloc, count)?,
            sizes: Vec::new(alloc),
            made: Vec::new(alloc),
            size: 0,
            even_size: 0,
        })
    }

    /// Puts a composite last, with its components under their new numbers, and its instructions if they are requested.
    /// `MalformedFont` where it is cut.
    pub fn push_composite(&mut self, outline: &[u8], order: &GlyphRemapper) -> Result<(), Error>
        ensures ok { OnOk result (with_last self.old.items (rewritten_composite self.old.hinting order.now outline.now) ≡ Ok self.new.items) }
        ensures same { OnOk result (self.new.hinting ≡ self.old.hinting) }
        ensures err { IfErr result (λ e. Fails e (with_last self.old.items (rewritten_composite self.old.hinting order.now outline.now))) }
    {
        self.kept.reserve(1)?;
        self.sizes.reserve(1)?;
        let start = self.made.len();
        rewrite_composite(&mut self.made, outline, order, self.hinting)?;
        let written = Outline::Whole(&self.made[start..]);
        let (long_len, short_len) = (written.padded_len(true), written.padded_len(false));
        self.kept.push(&[]).unwrap();
        self.sizes.push(long_len).unwrap();
        self.size = self.size.saturating_add(long_len);
        self.even_size = self.even_size.saturating_add(short_len);
        Ok(())
    }

    /// Puts a simple outline of the source last, with its instructions if they are requested.
    pub fn push_simple(&mut self, outline: &'a [u8]) -> Result<(), Error>
        ensures ok { OnOk result (self.new.items ≡ self.old.items ++ requested_simple self.old.hinting outline.now ∷ []) }
        ensures same { OnOk result (self.new.hinting ≡ self.old.hinting) }
        ensures err { IfErr result (λ e. e ≡ OutOfMemory) }
    {
        match outline {
            [] => self.push_empty(),
            [_, ..] => self.push_kept(outline),
        }
    }

    /// Puts a simple outline that isn't empty last. It is borrowed.
    fn push_kept(&mut self, outline: &'a [u8]) -> Result<(), Error>
        requires { 1 ≤ length outline.now }
        ensures ok { OnOk result (self.new.items ≡ self.old.items ++ requested_simple self.old.hinting outline.now ∷ []) }
        ensures same { OnOk result (self.new.hinting ≡ self.old.hinting) }
        ensures err { IfErr result (λ e. e ≡ OutOfMemory) }
    {
        self.kept.push(outline)?;
        let pieces = Outline::simple(outline, self.hinting);
        let (long_len, short_len) = (pieces.padded_len(true), pieces.padded_len(false));
        self.size = self.size.saturating_add(long_len);
        self.even_size = self.even_size.saturating_add(short_len);
        Ok(())
    }

    /// Puts an empty outline last. It counts as made.
    fn push_empty(&mut self) -> Result<(), Error>
        ensures ok { OnOk result (self.new.items ≡ self.old.items ++ [] ∷ []) }
        ensures same { OnOk result (self.new.hinting ≡ self.old.hinting) }
        ensures err { IfErr result (λ e. e ≡ OutOfMemory) }
    {
        self.kept.reserve(1)?;
        self.sizes.push(0)?;
        self.kept.push(&[]).unwrap();
        Ok(())
    }

    /// Gives back room that the list doesn't need.
    pub fn shrink_to_fit(&mut self)
        ensures { self.new ≡ self.old }
    {
        self.sizes.shrink_to_fit();
        self.made.shrink_to_fit();
    }

    /// The outlines, in order.
    pub fn iter(&self) -> OutlineIter<'_>
        ensures { result ≡ self.now.items }
    {
        OutlineIter {
            hinting: self.hinting,
            kept: &self.kept,
            sizes: &self.sizes,
            made: &self.made,
        }
    }

    /// How many outlines there are.
    pub fn len(&self) -> usize
        ensures { result ≡ length self.now.items }
    {
        self.kept.as_slice().len()
    }
}

/// The outlines of a list, in order.
#[derive(Drop)]
pub struct OutlineIter<'a> {
    hinting: bool,
    kept: &'a [&'a [u8]],
    sizes: &'a [usize],
    made: &'a [u8],
}

impl<'a> Model for OutlineIter<'a> {
    ghost use Rattle.std.specs.Prelude.{ℕ, List};
    ghost use Rattle.subsetter.specs.Common.Name.View.{nows};
    ghost use Rattle.subsetter.specs.Glyf.Woven.{woven, AreWoven};

    ghost Value = { List (List ℕ) };

    ghost view = { λ s. woven s.hinting (nows s.kept.now) s.sizes.now s.made.now };

    ghost invariant = { λ s. AreWoven (nows s.kept.now) s.sizes.now s.made.now };
}

impl<'a> Iterator for OutlineIter<'a> {
    type Item = Outline<'a>;

    ghost next_gives = { YieldsFirstBy outline_bytes (λ rest. rest) };

    ghost remaining = { item_count (λ rest. rest) };

    fn next(&mut self) -> Option<Outline<'a>> {
        let kept = self.kept;
        let first = *kept.first()?;
        if !first.is_empty() {
            self.kept = &kept[1..];
            return Some(Outline::simple(first, self.hinting));
        }
        let sizes = self.sizes;
        let size = *sizes.first()?;
        let (outline, made) = self.made.split_at(size);
        self.kept = &kept[1..];
        self.sizes = &sizes[1..];
        self.made = made;
        Some(Outline::Whole(outline))
    }
}

/// How many bytes the outlines take; where these are 2^32 or more, some number from 2^32 on.
pub fn outlines_len(outlines: &OutlineList<'_>, long: bool) -> usize
    ensures exact { length (glyf_bytes long outlines.now.items) < 2 ^ 32 → result ≡ length (glyf_bytes long outlines.now.items) }
    ensures past { 2 ^ 32 ≤ length (glyf_bytes long outlines.now.items) → 2 ^ 32 ≤ result }
{
    if long {
        outlines.size
    } else {
        outlines.even_size
    }
}

/// Writes the pieces of an outline.
fn write_pieces(out: &mut Vec<u8>, outline: Outline<'_>)
    requires { length out.old.items + length (outline_bytes outline) ≤ vec_capacity out.old }
    ensures items { out.new.items ≡ out.old.items ++ outline_bytes outline.entry }
    ensures capacity { vec_capacity out.old ≤ vec_capacity out.new }
{
    match outline {
        Outline::Whole(bytes) => put(out, bytes),
        Outline::InPieces(bare) => {
            put(out, bare.front);
            put(out, &[0, 0]);
            put(out, bare.following);
        }
    }
}

/// Writes an outline, in the short format of `loca` with a zero byte after an odd one.
fn write_outline(out: &mut Vec<u8>, outline: Outline<'_>, long: bool)
    requires { length out.old.items + length (padded long (outline_bytes outline)) ≤ vec_capacity out.old }
    ensures items { out.new.items ≡ out.old.items ++ padded long (outline_bytes outline.entry) }
    ensures capacity { vec_capacity out.old ≤ vec_capacity out.new }
{
    write_pieces(out, outline);
    if !long && outline.len() % 2 == 1 {
        put(out, &[0]);
    }
}

/// Writes the outlines one after another, and returns the checksum of what it wrote.
/// They are summed in pieces, while these are at hand.
pub fn write_outlines(out: &mut Vec<u8>, outlines: &OutlineList<'_>, long: bool) -> u32
    requires { length out.old.items + length (glyf_bytes long outlines.now.items) ≤ vec_capacity out.old }
    ensures items { out.new.items ≡ out.old.items ++ glyf_bytes long outlines.now.items }
    ensures capacity { vec_capacity out.old ≤ vec_capacity out.new }
    ensures sum { result ≡ checksum (glyf_bytes long outlines.now.items) }
{
    let start = out.len();
    let mut sum = Sum::new();
    for outline in outlines.iter() {
        write_outline(out, outline, long);
        sum = sum.go_on(&out[start..]);
    }
    sum.finish(&out[start..])
}
