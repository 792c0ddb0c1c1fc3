//! Simple glyphs that composites have. They are kept, so that a letter is unfolded once for all its accents.
//!
//! A glyph has a slot by its number, and leaves it to the next one that has the same. With so few slots, and only for glyphs of
//! few points, they hold less than 1 MB whatever the font.

ghost use Rattle.std.specs.Prelude.{◌≡◌, ◌<◌, ◌≤◌, List, ℕ, ℤ, Some, Ok, false, IsTrue, IfOk, IfSome, length};
ghost use Rattle.subsetter_instance.specs.Glyphs.Cache.{AreKept, IsKept};
ghost use Rattle.subsetter_instance.specs.Source.{Source};
ghost use Rattle.subsetter_instance.specs.Glyphs.Unfolded.{IsInReach, counted_description, is_composite, unfolded};

use crate::glyphs::spare::Spare;
use crate::glyphs::unfolding::{Unfolded, counted_description, is_composite};
use crate::source::Source as FontSource;
use std::alloc::{AllocError, Global};
use std::marker::Model;

/// How many slots there are.
const SLOTS: usize = 128;
/// The most points of a glyph that is kept.
const MOST_POINTS: usize = 256;

/// A glyph that is kept: its number, how many steps it takes, and what it unfolds to.
#[derive(Drop)]
pub struct KeptGlyph {
    pub glyph: u16,
    pub cost: u32,
    pub outline: Unfolded,
}

impl Model for KeptGlyph {
    ghost use Rattle.subsetter_instance.specs.Glyphs.Cache.{KeptGlyph};

    ghost Value = { KeptGlyph };

    ghost view = { λ k. record { glyph = k.glyph; cost = k.cost; outline = k.outline } };
}

/// The glyphs that are kept, each at its location.
#[derive(Drop)]
pub struct GlyphCache {
    places: Vec<Option<KeptGlyph>>,
}

impl Model for GlyphCache {
    ghost use Rattle.std.specs.Prelude.{List, Option};
    ghost use Rattle.subsetter_instance.specs.Glyphs.Cache.{KeptGlyph};

    ghost Value = { List (Option KeptGlyph) };

    ghost view = { λ k. k.places.items };
}

/// Whether a glyph is there and isn't composite.
fn is_simple(source: &FontSource<'_>, glyph: u16) -> bool
    ensures { IsTrue result → (bytes : List ℕ) → counted_description source.now glyph ≡ Some bytes → is_composite bytes ≡ false }
{
    match counted_description(source, glyph) {
        Some(bytes) => !is_composite(bytes),
        None => false,
    }
}

/// Places without glyphs.
fn no_glyphs(alloc: Global) -> Result<Vec<Option<KeptGlyph>>, AllocError>
    ensures count { IfOk result (λ v. length v.items ≡ 128) }
    ensures none { IfOk result (λ v. (s : Source) (at : List ℤ) → AreKept s at v.items) }
{
    let mut places = Vec::with_capacity(alloc, SLOTS)?;
    for place in 0..SLOTS {
        places.push(None)?;
    }
    Ok(places)
}

/// The slots that are given, or slots without glyphs if there are none yet.
fn all_slots(
    alloc: Global,
    places: Vec<Option<KeptGlyph>>,
) -> Result<Vec<Option<KeptGlyph>>, AllocError>
    ensures count { IfOk result (λ v. length v.items ≡ 128) }
    ensures kept { (s : Source) (at : List ℤ) → AreKept s at places.items → IfOk result (λ v. AreKept s at v.items) }
{
    if places.len() == SLOTS {
        Ok(places)
    } else {
        no_glyphs(alloc)
    }
}

impl GlyphCache {
    /// No glyphs yet.
    pub fn new(alloc: Global) -> Self
        ensures { (s : Source) (at : List ℤ) → AreKept s at result }
    {
        GlyphCache {
            places: Vec::new(alloc),
        }
    }

    /// A glyph that is kept, if it takes at most `steps` steps, and `depth` isn't 0.
    pub fn find(&self, depth: u8, glyph: u16, steps: u32) -> Option<&KeptGlyph>
        ensures deep { IfSome result (λ k. 0 < depth) }
        ensures number { IfSome result (λ k. k.now.glyph ≡ glyph) }
        ensures cost { IfSome result (λ k. k.now.cost ≤ steps) }
        ensures kept { (s : Source) (at : List ℤ) → AreKept s at self.now → IfSome result (λ k. IsKept s at k.now) }
    {
        let kept = self.places.get(usize::from(glyph) % SLOTS)?.as_ref()?;
        if depth > 0 && kept.glyph == glyph && kept.cost <= steps {
            Some(kept)
        } else {
            None
        }
    }

    /// These slots with a glyph that was unfolded at a depth, if it is a simple one of few points: `before` and `after` are the
    /// steps that were left. It is copied, so that no more room is held than it takes, and its lists are kept.
    pub fn with(
        self,
        alloc: Global,
        spare: &mut Spare,
        source: &FontSource<'_>,
        at: &[i32],
        depth: u8,
        before: u32,
        glyph: u16,
        outline: Unfolded,
        after: u32,
    ) -> Result<Self, AllocError>
        requires kept { AreKept source.now at.now self }
        requires unfolded { unfolded depth source.now at.now before glyph ≡ Ok (outline, after) }
        requires reach { IsInReach outline }
        ensures { IfOk result (λ k. AreKept source.now at.now k) }
    {
        if !is_simple(source, glyph) || outline.on.len() > MOST_POINTS {
            let Unfolded { on, xs, ys, .. } = outline;
            spare.keep(on, xs, ys);
            return Ok(self);
        }
        let outline = spare.exact(alloc, outline)?;
        let mut places = all_slots(alloc, self.places)?;
        places[usize::from(glyph) % SLOTS] = Some(KeptGlyph {
            glyph,
            cost: before - after,
            outline,
        });
        Ok(GlyphCache { places })
    }
}
