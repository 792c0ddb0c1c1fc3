//! Handing an answer over in memory of the library.

ghost use Rattle.std.specs.Prelude.{◌≡◌, [], Ok, Err};
ghost use Rattle.cid_embed.specs.declared.embedding.Embedded.{Embedded as SpecEmbedded};
ghost use Rattle.subsetter_c.specs.Answers.Embedding.{lists_of};
ghost use Rattle.subsetter_c.specs.Answers.Handed.{IsAnswered};
ghost use Rattle.subsetter_c.specs.Answers.Made.{IsMade, lists_in, only_font};

use crate::answers::kept::{kept_bytes, kept_shorts, kept_words};
use crate::answers::status::{DONE, status_of};
use cid_embed::Embedded;
use subsetter::Error;

/// Lists that the caller reads, and gives back by `subsetter_free`. An empty one takes no memory.
#[derive(Drop)]
#[repr(C)]
pub struct Made {
    /// The bytes of the font.
    pub font: &'static [u8],
    /// The CID of each given glyph.
    pub cids: &'static [u16],
    /// The width of each CID.
    pub widths: &'static [u32],
}

/// A font alone.
fn only_font(font: &'static [u8]) -> Made
    ensures { lists_in result ≡ only_font font.now }
{
    Made {
        font,
        cids: &[],
        widths: &[],
    }
}

/// Nothing.
pub fn nothing() -> Made
    ensures { lists_in result ≡ only_font [] }
{
    only_font(&[])
}

/// Hands a subset over: the status.
pub fn make_subset(answer: Result<Vec<u8>, Error>, made: &mut Made) -> u32
    ensures { IsMade (λ lists. (bytes : _) × IsAnswered answer bytes × (lists ≡ only_font bytes)) (λ e. answer ≡ Err e) (lists_in made.new) result }
{
    match answer {
        Ok(bytes) => {
            *made = only_font(kept_bytes(bytes));
            DONE
        }
        Err(error) => {
            *made = nothing();
            status_of(error)
        }
    }
}

/// Hands a font with its CIDs and widths over: the status.
pub fn make_embedded(answer: Result<Embedded, Error>, made: &mut Made) -> u32
    ensures { IsMade (λ lists. (e : SpecEmbedded) × (answer ≡ Ok e) × (lists ≡ lists_of e)) (λ e. answer ≡ Err e) (lists_in made.new) result }
{
    match answer {
        Ok(embedded) => {
            let Embedded { font, cids, widths } = embedded;
            *made = Made {
                font: kept_bytes(font),
                cids: kept_shorts(cids),
                widths: kept_words(widths),
            };
            DONE
        }
        Err(error) => {
            *made = nothing();
            status_of(error)
        }
    }
}
