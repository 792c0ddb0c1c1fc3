//! `maxp`, the number of glyphs (OpenType, "maxp").
//!
//! It begins with its version and numGlyphs; version 1.0, which goes with TrueType outlines, has further fields, and
//! version 0.5, which goes with CFF outlines, has none. The new table has the new number, and the source's further fields
//! where its version has any. Where hinting isn't requested there is one zone, and the fields that bound instructions are 0.

ghost use Rattle.std.specs.Prelude.{◌≡◌, ◌≤◌, ◌+◌, ◌++◌, codes, length, vec_capacity};
ghost use Rattle.std.specs.Option.{option_copied};
ghost use Rattle.subsetter_base.specs.Gives.{Gives};
ghost use Rattle.subsetter.specs.Common.Maxp.Read.{version_of, further_fields};
ghost use Rattle.subsetter_sfnt.specs.Extras.{bare_fields, by_hinting};
ghost use Rattle.subsetter.specs.Common.Maxp.Written.{hinted_fields, maxp_in};

use std::marker::Model;
use subsetter_base::Error;
use subsetter_sfnt::fields::maxp::NUM_GLYPHS_END;
use subsetter_sfnt::flavor::FontFlavor;
use subsetter_sfnt::laying::room::put;

/// The version with further fields.
const VERSION_1_0: u32 = 0x00010000;
/// The version without them.
const VERSION_0_5: u32 = 0x00005000;
/// maxZones, two bytes, after numGlyphs; the fields up to maxSizeOfInstructions bound instructions.
const MAX_ZONES: usize = 8;
/// maxComponentElements, after numGlyphs.
const MAX_COMPONENT_ELEMENTS: usize = 22;

/// Version 1.0 for TrueType outlines, 0.5 for CFF ones.
fn version(flavor: FontFlavor) -> u32
    ensures { result ≡ version_of flavor }
{
    match flavor {
        FontFlavor::TrueType => VERSION_1_0,
        FontFlavor::Cff => VERSION_0_5,
    }
}

/// The fields of the source after numGlyphs that the new version has.
fn further_fields(maxp: &[u8], flavor: FontFlavor) -> &[u8]
    requires { 6 ≤ length maxp.now }
    ensures { result.now ≡ further_fields flavor maxp.now }
{
    match flavor {
        FontFlavor::TrueType => &maxp[NUM_GLYPHS_END..],
        FontFlavor::Cff => &[],
    }
}

/// maxZones 1, and 0 for the six fields after it, which bound instructions.
const NO_INSTRUCTIONS: [u8; 14] = [0, 1, 0, 0, 0, 0, 0, 0, 0, 0, 0, 0, 0, 0];

/// Writes the fields after numGlyphs, for outlines without instructions.
fn write_bare(out: &mut Vec<u8>, fields: &[u8])
    requires { length out.old.items + length fields.now ≤ vec_capacity out.old }
    ensures items { out.new.items ≡ out.old.items ++ bare_fields fields.now }
    ensures capacity { vec_capacity out.old ≤ vec_capacity out.new }
{
    if fields.len() < MAX_COMPONENT_ELEMENTS {
        put(out, fields);
    } else {
        put(out, &fields[..MAX_ZONES]);
        put(out, &NO_INSTRUCTIONS);
        put(out, &fields[MAX_COMPONENT_ELEMENTS..]);
    }
}

/// Writes the fields after numGlyphs, those that bound instructions only where hinting is asked for.
fn write_fields(out: &mut Vec<u8>, fields: &[u8], hinting: bool)
    requires { length out.old.items + length fields.now ≤ vec_capacity out.old }
    ensures items { out.new.items ≡ out.old.items ++ hinted_fields hinting fields.now }
    ensures capacity { vec_capacity out.old ≤ vec_capacity out.new }
{
    if hinting {
        put(out, fields);
    } else {
        write_bare(out, fields);
    }
}

/// The new table: the version of the outlines, the new number of glyphs, and the source's further fields.
#[derive(Drop)]
pub struct NewMaxp<'a> {
    source: &'a [u8],
    flavor: FontFlavor,
    count: u16,
    hinting: bool,
}

impl<'a> Model for NewMaxp<'a> {
    ghost use Rattle.std.specs.Prelude.{◌≤◌, ℕ, List, length};
    ghost use Rattle.subsetter.specs.Common.Maxp.Written.{hinted, maxp_bytes};

    ghost Value = { List ℕ };

    ghost view = { λ m. maxp_bytes m.flavor m.count (hinted m.hinting m.source.now) };

    ghost invariant = { λ m. 6 ≤ length m.source.now };
}

impl<'a> NewMaxp<'a> {
    /// How many bytes it has.
    #[tactic(auto, unfolding(crate::specs::Common::Maxp::Written::maxp_bytes), using(crate::proofs::CommonLaws::MaxpLaws::Fields::same_size))]
    pub fn len(&self) -> usize
        ensures { result ≡ length self.now }
    {
        NUM_GLYPHS_END + further_fields(self.source, self.flavor).len()
    }

    /// Writes it.
    #[tactic(auto, unfolding(crate::specs::Common::Maxp::Written::maxp_bytes))]
    pub fn write(&self, out: &mut Vec<u8>)
        requires { length out.old.items + length self.now ≤ vec_capacity out.old }
        ensures items { out.new.items ≡ out.old.items ++ self.now }
        ensures capacity { vec_capacity out.old ≤ vec_capacity out.new }
    {
        put(out, &version(self.flavor).to_be_bytes());
        put(out, &self.count.to_be_bytes());
        write_fields(out, further_fields(self.source, self.flavor), self.hinting);
    }
}

/// `maxp` of a subset of `count` glyphs, where the source has it. One under six bytes is `MalformedFont`.
#[tactic(auto, using(crate::proofs::CommonLaws::MaxpLaws::Fields::same_length))]
pub fn subset<'a>(
    maxp: Option<&'a [u8]>,
    hinting: bool,
    flavor: FontFlavor,
    count: u16,
) -> Result<Option<NewMaxp<'a>>, Error>
    ensures { Gives (λ new. new) result (maxp_in (by_hinting hinting (codes "maxp") (option_copied maxp.entry)) flavor count) }
{
    let Some(maxp) = maxp else {
        return Ok(None);
    };
    if maxp.len() < NUM_GLYPHS_END {
        return Err(Error::MalformedFont);
    }
    Ok(Some(NewMaxp {
        source: maxp,
        flavor,
        count,
        hinting,
    }))
}
