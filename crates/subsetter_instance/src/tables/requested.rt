//! The requested glyphs in the order of the font.
//!
//! The tables are written by them alone, and what is between two of them is filled at once.

ghost use Rattle.std.specs.Prelude.{◌≡◌, IfOk, IfErr, IsPermutation, IsSorted};
ghost use Rattle.std.specs.Ordering.{nat_cmp};
ghost use Rattle.subsetter_base.specs.declared.error.Error.TheVariants.{OutOfMemory};
ghost use Rattle.subsetter_instance.specs.Tables.Requested.{IsOrder};

use std::alloc::Global;
use subsetter_base::{Error, GlyphRemapper};

/// The glyphs of the mapper.
fn glyphs_of(alloc: Global, mapper: &GlyphRemapper) -> Result<Vec<u16>, Error>
    ensures ok { IfOk result (λ v. v.items ≡ mapper.now) }
    ensures err { IfErr result (λ e. e ≡ OutOfMemory) }
{
    let mut glyphs = Vec::with_capacity(alloc, usize::from(mapper.num_gids()))?;
    for glyph in mapper.remapped_gids() {
        glyphs.push(glyph)?;
    }
    Ok(glyphs)
}

/// The glyphs of the mapper, from the lowest to the highest.
fn sorted_glyphs(alloc: Global, mapper: &GlyphRemapper) -> Result<Vec<u16>, Error>
    ensures same { IfOk result (λ v. IsPermutation mapper.now v.items) }
    ensures sorted { IfOk result (λ v. IsSorted nat_cmp v.items) }
    ensures err { IfErr result (λ e. e ≡ OutOfMemory) }
{
    let mut glyphs = glyphs_of(alloc, mapper)?;
    glyphs.sort_unstable();
    Ok(glyphs)
}

/// The glyphs of the mapper that are below a number, each once, from the lowest to the highest.
pub fn requested_in_order(
    alloc: Global,
    mapper: &GlyphRemapper,
    count: u16,
) -> Result<Vec<u16>, Error>
    ensures ok { IfOk result (λ v. IsOrder mapper.now count 0 v.items) }
    ensures err { IfErr result (λ e. e ≡ OutOfMemory) }
{
    let sorted = sorted_glyphs(alloc, mapper)?;
    let mut order = Vec::with_capacity(alloc, sorted.len())?;
    let mut next = 0;
    for glyph in &sorted {
        if *glyph >= next && *glyph < count {
            order.push(*glyph)?;
            next = *glyph + 1;
        }
    }
    Ok(order)
}
