//! What the text of a file requests, by what the file has.

ghost use Rattle.std.specs.Prelude.{◌≡◌, ◌⊎◌, map, not, filter, IfOk, IfErr, IfSome, Some, None};
ghost use Rattle.std.specs.Str.{IsUtf8};
ghost use Rattle.subset_args.specs.Listing.Files.{list_in, IsNotText, IsWrongIn};
ghost use Rattle.subset_args.specs.Listing.ListView.{list_view};
ghost use Rattle.subset_args.specs.declared.jobs.command.ArgsError.TheVariants.{Usage, OutOfMemory};

use crate::jobs::command::ArgsError;
use crate::listing::characters::{characters_in_file, find_wrong_codes, text_of_file};
use crate::listing::lists::{FileKind, GlyphList, find_wrong_part, glyphs_in_file};
use std::alloc::Global;

/// What the text of a file requests. A list has numbers and ranges, as `36-38` of glyphs (or `*` for every one) or
/// `U+0041-005A` of characters, with commas, blanks or line ends between them; of a text the line ends are left out.
///
/// `Usage` where it is no such list, or no UTF-8.
pub fn read_list(alloc: Global, kind: FileKind, text: &[u8]) -> Result<GlyphList, ArgsError>
    ensures ok { IfOk result (λ list. list_in kind text.now ≡ Some (list_view list)) }
    ensures err { IfErr result (λ e. (e ≡ OutOfMemory) ⊎ ((e ≡ Usage) × (IsNotText kind text.now ⊎ (list_in kind text.now ≡ None)))) }
{
    match kind {
        FileKind::Glyphs => glyphs_in_file(alloc, text),
        FileKind::Characters => characters_in_file(alloc, text),
        FileKind::Text => Ok(GlyphList::Text(text_of_file(alloc, text)?)),
    }
}

/// The part of the text of a file for which `read_list` returns `Usage`: of a list the first wrong one, and of a text all of it.
pub fn find_wrong<'a>(kind: FileKind, text: &'a [u8]) -> Option<&'a [u8]>
    ensures { IfSome result (λ part. IsWrongIn kind text.now part.now) }
{
    match kind {
        FileKind::Glyphs => find_wrong_part(text),
        FileKind::Characters => find_wrong_codes(text),
        FileKind::Text => Some(text),
    }
}
