//! The calls.

ghost use Rattle.std.specs.Prelude.{◌≡◌, ◌⊎◌, ◌<◌, None, IfOk, IfErr};
ghost use Rattle.subsetter_base.specs.Bytes.{be};
ghost use Rattle.subsetter_sfnt.specs.Extras.{all_extras};
ghost use Rattle.subsetter.specs.Limits.{token_limit, depth_limit};
ghost use Rattle.subsetter_c.specs.Answers.Embedding.{IsEmbeddingHanded, AreNoneHanded};
ghost use Rattle.subsetter_c.specs.Answers.Handed.{IsHandedOver, IsSoundSubset, IsRefusal, IsSubsetHanded, IsNothingHanded};
ghost use Rattle.subsetter_c.specs.Answers.Made.{lists_in, IsSubsetMade, IsEmbeddingMade, IsNothingMade};
ghost use Rattle.subsetter_c.specs.Options.{AreKnown, requested_bytes, requested_tokens, requested_depth, requested_extras};
ghost use Rattle.subsetter_c.specs.Answers.Status.{status_text, no_depth, unknown_option};
ghost use Rattle.subsetter_c.specs.Version.{version};

use crate::answers::handing::{Sizes, hand_answer, hand_bytes, hand_embedded};
use crate::answers::making::{self, Made};
use crate::answers::status;
use crate::options::options_of;
use crate::version;
use cid_embed::{embed, embed_with_options, mapper_for};
use std::alloc::Global;
use subsetter::{Error, Extras, Limits, Options, subset_with_options};

/// A subset for glyph 0 and the given glyphs.
fn subset_for(
    alloc: Global,
    font: &[u8],
    index: u32,
    glyphs: &[u16],
    options: &Options,
) -> Result<Vec<u8>, Error>
    ensures ok { IfOk result (λ v. IsSoundSubset options.now.limits.bytes options.now.limits.tokens options.now.limits.depth (record { bytes = font.now; index = index; extras = options.now.extras }) glyphs.now v.items) }
    ensures err { IfErr result (λ e. IsRefusal options.now.limits.bytes options.now.limits.tokens options.now.limits.depth (record { bytes = font.now; index = index; extras = options.now.extras }) glyphs.now e) }
{
    let mapper = mapper_for(alloc, font, index, glyphs, options.extras)?;
    subset_with_options(alloc, font, index, &mapper, options)
}

/// The subset with limits, and with all of its extras.
fn whole_subset_for(
    alloc: Global,
    font: &[u8],
    index: u32,
    glyphs: &[u16],
    limits: Limits,
) -> Result<Vec<u8>, Error>
    ensures ok { IfOk result (λ v. IsSoundSubset limits.bytes limits.tokens limits.depth (record { bytes = font.now; index = index; extras = all_extras }) glyphs.now v.items) }
    ensures err { IfErr result (λ e. IsRefusal limits.bytes limits.tokens limits.depth (record { bytes = font.now; index = index; extras = all_extras }) glyphs.now e) }
{
    let options = Options {
        limits,
        extras: Extras::ALL,
    };
    subset_for(alloc, font, index, glyphs, &options)
}

/// The subset of a font for glyph 0 and the given glyphs, in the caller's buffer. Face `index` of a collection is taken.
///
/// Status 0: the first bytes of `out` are the subset, the rest of it is unchanged, and `length` is their count. Status 8:
/// `out` is too small and unchanged, and `length` is the exact size. Status 1 to 7: an error; nothing is written, and
/// `length` is 0.
#[unsafe(no_mangle)]
pub extern "C" fn subsetter_subset(
    alloc: Global,
    font: &[u8],
    index: u32,
    glyphs: &[u16],
    out: &mut [u8],
    length: &mut usize,
) -> u32
    ensures { IsSubsetHanded None token_limit depth_limit (record { bytes = font.now; index = index; extras = all_extras }) glyphs.now out.old out.new length.new result }
{
    hand_answer(
        whole_subset_for(alloc, font, index, glyphs, Limits::default()),
        out,
        length,
    )
}

/// As `subsetter_subset`, where the charstring of a glyph may run for `tokens` tokens, and call to `depth` levels.
///
/// Status 9 besides: the depth is 0; nothing is written, and `length` is 0.
#[unsafe(no_mangle)]
pub extern "C" fn subsetter_subset_with_limits(
    alloc: Global,
    font: &[u8],
    index: u32,
    glyphs: &[u16],
    tokens: u32,
    depth: u8,
    out: &mut [u8],
    length: &mut usize,
) -> u32
    ensures { ((depth ≡ 0) × IsNothingHanded no_depth out.old out.new length.new result) ⊎ ((0 < depth) × IsSubsetHanded None tokens depth (record { bytes = font.now; index = index; extras = all_extras }) glyphs.now out.old out.new length.new result) }
{
    match Limits::new(tokens, depth) {
        Some(limits) => hand_answer(
            whole_subset_for(alloc, font, index, glyphs, limits),
            out,
            length,
        ),
        None => {
            *length = 0;
            status::NO_DEPTH
        }
    }
}

/// As `subsetter_subset`, with all choices: the words of `subsetter_options`.
///
/// Status 10 besides: an option is unknown; nothing is written, and `length` is 0.
#[unsafe(no_mangle)]
pub extern "C" fn subsetter_subset_by_words(
    alloc: Global,
    font: &[u8],
    index: u32,
    glyphs: &[u16],
    options: &[u32],
    out: &mut [u8],
    length: &mut usize,
) -> u32
    ensures { ((¬ (AreKnown options.now)) × IsNothingHanded unknown_option out.old out.new length.new result) ⊎ (AreKnown options.now × IsSubsetHanded (requested_bytes options.now) (requested_tokens options.now) (requested_depth options.now) (record { bytes = font.now; index = index; extras = requested_extras options.now }) glyphs.now out.old out.new length.new result) }
{
    match options_of(options) {
        Some(options) => hand_answer(
            subset_for(alloc, font, index, glyphs, &options),
            out,
            length,
        ),
        None => {
            *length = 0;
            status::UNKNOWN_OPTION
        }
    }
}

/// The subset of a font for glyph 0 and the given glyphs, with the CID of each given glyph and the width of each CID, in
/// three buffers of the caller.
///
/// Status 0: each buffer begins with its part, the rest of it is unchanged, and `sizes` are their counts. Status 8: one
/// of the buffers is too small, all are unchanged, and `sizes` are the exact sizes. Status 1 to 7: an error; nothing is
/// written, and `sizes` are 0.
#[unsafe(no_mangle)]
pub extern "C" fn subsetter_embed(
    alloc: Global,
    font: &[u8],
    index: u32,
    glyphs: &[u16],
    out: &mut [u8],
    cids: &mut [u16],
    widths: &mut [u32],
    sizes: &mut Sizes,
) -> u32
    ensures { IsEmbeddingHanded None token_limit depth_limit (record { bytes = font.now; index = index; extras = all_extras }) glyphs.now (record { font = out.old; cids = cids.old; widths = widths.old }) (record { font = out.new; cids = cids.new; widths = widths.new }) sizes.new result }
{
    hand_embedded(embed(alloc, font, index, glyphs), out, cids, widths, sizes)
}

/// As `subsetter_embed`, with all choices: the words of `subsetter_options`.
///
/// Status 10 besides: an option is unknown; nothing is written, and `sizes` are 0.
#[unsafe(no_mangle)]
pub extern "C" fn subsetter_embed_by_words(
    alloc: Global,
    font: &[u8],
    index: u32,
    glyphs: &[u16],
    options: &[u32],
    out: &mut [u8],
    cids: &mut [u16],
    widths: &mut [u32],
    sizes: &mut Sizes,
) -> u32
    ensures { ((¬ (AreKnown options.now)) × AreNoneHanded unknown_option (record { font = out.old; cids = cids.old; widths = widths.old }) (record { font = out.new; cids = cids.new; widths = widths.new }) sizes.new result) ⊎ (AreKnown options.now × IsEmbeddingHanded (requested_bytes options.now) (requested_tokens options.now) (requested_depth options.now) (record { bytes = font.now; index = index; extras = requested_extras options.now }) glyphs.now (record { font = out.old; cids = cids.old; widths = widths.old }) (record { font = out.new; cids = cids.new; widths = widths.new }) sizes.new result) }
{
    match options_of(options) {
        Some(options) => {
            let answer = embed_with_options(alloc, font, index, glyphs, &options);
            hand_embedded(answer, out, cids, widths, sizes)
        }
        None => {
            *sizes = Sizes::NONE;
            status::UNKNOWN_OPTION
        }
    }
}

/// As `subsetter_subset_by_words`, in memory of the library.
///
/// Status 0: `made` has the subset alone. Another status: `made` is empty.
#[unsafe(no_mangle)]
pub extern "C" fn subsetter_make_subset_by_words(
    alloc: Global,
    font: &[u8],
    index: u32,
    glyphs: &[u16],
    options: &[u32],
    made: &mut Made,
) -> u32
    ensures { ((¬ (AreKnown options.now)) × IsNothingMade unknown_option (lists_in made.new) result) ⊎ (AreKnown options.now × IsSubsetMade (requested_bytes options.now) (requested_tokens options.now) (requested_depth options.now) (record { bytes = font.now; index = index; extras = requested_extras options.now }) glyphs.now (lists_in made.new) result) }
{
    match options_of(options) {
        Some(options) => making::make_subset(
            subset_for(alloc, font, index, glyphs, &options),
            made,
        ),
        None => {
            *made = making::nothing();
            status::UNKNOWN_OPTION
        }
    }
}

/// As `subsetter_embed_by_words`, in memory of the library.
///
/// Status 0: `made` has the subset, the CIDs and the widths. Another status: `made` is empty.
#[unsafe(no_mangle)]
pub extern "C" fn subsetter_make_embedded_by_words(
    alloc: Global,
    font: &[u8],
    index: u32,
    glyphs: &[u16],
    options: &[u32],
    made: &mut Made,
) -> u32
    ensures { ((¬ (AreKnown options.now)) × IsNothingMade unknown_option (lists_in made.new) result) ⊎ (AreKnown options.now × IsEmbeddingMade (requested_bytes options.now) (requested_tokens options.now) (requested_depth options.now) (record { bytes = font.now; index = index; extras = requested_extras options.now }) glyphs.now (lists_in made.new) result) }
{
    match options_of(options) {
        Some(options) => {
            let answer = embed_with_options(alloc, font, index, glyphs, &options);
            making::make_embedded(answer, made)
        }
        None => {
            *made = making::nothing();
            status::UNKNOWN_OPTION
        }
    }
}

/// What a status says, in the caller's buffer: ASCII without a zero at its end.
///
/// Status 0: the first bytes of `out` are the text, and `length` is their count. Status 8: `out` is too small and
/// unchanged, and `length` is the exact size.
#[unsafe(no_mangle)]
pub extern "C" fn subsetter_error_text(status: u32, out: &mut [u8], length: &mut usize) -> u32
    ensures { IsHandedOver (λ text. text ≡ status_text status) (λ e. ⊥) out.old out.new length.new result }
{
    hand_bytes(status::status_text(status), out, length)
}

/// The version of the library: its four numbers, eight bits each.
#[unsafe(no_mangle)]
pub extern "C" fn subsetter_version() -> u32
    ensures { result ≡ be version }
{
    version::version()
}
