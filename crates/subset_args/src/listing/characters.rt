//! The characters that an argument or a file lists, by their numbers in Unicode: `U+0041-005A,20AC`.

ghost use Rattle.std.specs.Prelude.{◌≡◌, ◌⊎◌, ◌≤◌, ◌++◌, ◌+◌, ◌-◌, ◌==◌, not, ℕ, map, filter, IfOk, IfErr, IfSome, OnOk, IsTrue, Some, None, slice_index, string_bytes};
ghost use Rattle.std.specs.Option.{option_map};
ghost use Rattle.std.specs.List.{slice_split};
ghost use Rattle.std.specs.Str.{IsUtf8};
ghost use Rattle.subset_args.specs.Listing.Lists.{counting, as_comma, in_order, is_less, few, parts};
ghost use Rattle.subset_args.specs.Listing.Characters.{hex_in_32, hex_in, is_mark, marked, code_in, codes_in, codes_descend, characters_between, part_characters, parts_characters, argument_characters, file_characters, is_line_end, without_line_ends};
ghost use Rattle.subsetter_base.specs.Texts.{is_scalar};
ghost use Rattle.subset_args.specs.Listing.ListView.{codes_view, list_view};
ghost use Rattle.subset_args.specs.declared.jobs.command.ArgsError.TheVariants.{Usage, OutOfMemory};

use crate::jobs::command::ArgsError;
use crate::listing::few::are_few;
use crate::listing::lists::{FileKind, GlyphList, is_blank, is_less, with_commas};
use crate::words::parts_of;
use std::alloc::{AllocError, Global};

/// The ends of a range of codes.
#[derive(Clone, Copy)]
pub struct Codes {
    pub first: u32,
    pub last: u32,
}

/// Whether a plus is first, which `from_str_radix` accepts.
fn begins_with_plus(word: &str) -> bool
    ensures { result ≡ (slice_index word.now 0 == 43) }
{
    matches!(word.as_bytes(), [b'+', ..])
}

/// The number of one or more hexadecimal digits, if it fits 32 bits.
fn hex_in_32(word: &str) -> Option<u32>
    ensures { result ≡ hex_in_32 word.now }
{
    if begins_with_plus(word) {
        return None;
    }
    u32::from_str_radix(word, 16).ok()
}

/// The number of one or more hexadecimal digits, if it is at most 10FFFF.
fn hex_of(word: &str) -> Option<u32>
    ensures { result ≡ hex_in word.now }
{
    let code = hex_in_32(word)?;
    if code < 0x110000 { Some(code) } else { None }
}

/// Whether a text is before the plus of `U+0041`.
fn is_mark(word: &str) -> bool
    ensures { result ≡ is_mark word.now }
{
    word == "U" || word == "u"
}

/// The code whose digits are after a mark and a plus.
fn marked(mark: &str, digits: &str) -> Option<u32>
    ensures { result ≡ marked mark.now digits.now }
{
    if is_mark(mark) { hex_of(digits) } else { None }
}

/// The code of a word, as `U+0041` or `41`.
fn code_of(word: &str) -> Option<u32>
    ensures { result ≡ code_in word.now }
{
    match word.split_once('+') {
        Some((mark, digits)) => marked(mark, digits),
        None => hex_of(word),
    }
}

/// The ends, if they are in order.
fn codes_in_order(first: u32, last: u32) -> Option<Codes>
    ensures { option_map codes_view result ≡ in_order first last }
{
    if first <= last {
        return Some(Codes { first, last });
    }
    None
}

/// The ends of a range or of one code.
pub fn codes_in(part: &str) -> Option<Codes>
    ensures { option_map codes_view result ≡ codes_in part.now }
{
    match part.split_once('-') {
        Some((first, last)) => {
            let first = code_of(first)?;
            codes_in_order(first, code_of(last)?)
        }
        None => {
            let code = code_of(part)?;
            Some(Codes {
                first: code,
                last: code,
            })
        }
    }
}

/// Whether a part of a list is a range whose ends are codes, and not in order.
pub fn codes_descend(part: &str) -> bool
    ensures { result ≡ codes_descend part.now }
{
    match part.split_once('-') {
        Some((first, last)) => is_less(code_of(last), code_of(first)),
        None => false,
    }
}

/// Adds the character of a code, if it has one.
fn push_code(characters: &mut Vec<char>, code: u32) -> Result<(), AllocError>
    ensures { OnOk result (characters.new.items ≡ characters.old.items ++ filter is_scalar (counting code 1)) }
{
    if let Some(character) = char::from_u32(code) {
        characters.push(character)?;
    }
    Ok(())
}

/// Adds the characters of a range.
fn push_codes(characters: &mut Vec<char>, codes: Codes) -> Result<(), AllocError>
    ensures { OnOk result (characters.new.items ≡ characters.old.items ++ characters_between (codes_view codes)) }
{
    for code in u64::from(codes.first)..u64::from(codes.last) + 1 {
        push_code(characters, code as u32)?;
    }
    Ok(())
}

/// Adds the characters that a part lists.
fn push_part(characters: &mut Vec<char>, part: &str) -> Result<(), ArgsError>
    ensures ok { OnOk result (option_map (λ more. characters.old.items ++ more) (part_characters part.now) ≡ Some characters.new.items) }
    ensures err { IfErr result (λ e. (e ≡ OutOfMemory) ⊎ ((e ≡ Usage) × (part_characters part.now ≡ None))) }
{
    if part.is_empty() {
        return Ok(());
    }
    let codes = codes_in(part).ok_or(ArgsError::Usage)?;
    push_codes(characters, codes)?;
    Ok(())
}

/// The characters that parts list.
fn characters_in(alloc: Global, parts: &[&str]) -> Result<Vec<char>, ArgsError>
    ensures ok { IfOk result (λ v. parts_characters (map (λ part. part.now) parts.now) ≡ Some v.items) }
    ensures err { IfErr result (λ e. (e ≡ OutOfMemory) ⊎ ((e ≡ Usage) × (parts_characters (map (λ part. part.now) parts.now) ≡ None))) }
{
    let mut characters = Vec::new(alloc);
    for part in parts {
        push_part(&mut characters, part)?;
    }
    Ok(characters)
}

/// The characters that parts list, if their numbers are few enough.
fn few_characters(alloc: Global, parts: &[&str]) -> Result<Vec<char>, ArgsError>
    ensures ok { IfOk result (λ v. few codes_in parts_characters (map (λ part. part.now) parts.now) ≡ Some v.items) }
    ensures err { IfErr result (λ e. (e ≡ OutOfMemory) ⊎ ((e ≡ Usage) × (few codes_in parts_characters (map (λ part. part.now) parts.now) ≡ None))) }
{
    if !are_few(FileKind::Characters, parts) {
        return Err(ArgsError::Usage);
    }
    characters_in(alloc, parts)
}

/// The characters that an argument lists: codes of Unicode and ranges, with commas, as `U+0041-005A,20AC`. Surrogates are no
/// characters, and are passed over.
///
/// `Usage` where it lists no characters so, or more than 2,000,000 numbers.
pub fn read_characters(alloc: Global, text: &str) -> Result<GlyphList, ArgsError>
    ensures ok { IfOk result (λ list. argument_characters text.now ≡ Some (list_view list)) }
    ensures err { IfErr result (λ e. (e ≡ OutOfMemory) ⊎ ((e ≡ Usage) × (argument_characters text.now ≡ None))) }
{
    let parts = parts_of(alloc, text)?;
    Ok(GlyphList::Characters(few_characters(alloc, &parts)?))
}

/// The characters that the text of a file lists.
pub fn characters_in_file(alloc: Global, text: &[u8]) -> Result<GlyphList, ArgsError>
    ensures ok { IfOk result (λ list. file_characters text.now ≡ Some (list_view list)) }
    ensures err { IfErr result (λ e. (e ≡ OutOfMemory) ⊎ ((e ≡ Usage) × (¬ (IsUtf8 (map as_comma text.now)) ⊎ (file_characters text.now ≡ None)))) }
{
    let divided = with_commas(alloc, text)?;
    let Ok(divided) = str::from_utf8(divided.as_slice()) else {
        return Err(ArgsError::Usage);
    };
    let parts = parts_of(alloc, divided)?;
    Ok(GlyphList::Characters(few_characters(alloc, &parts)?))
}

/// Whether a part of a list is no code of Unicode and no range.
pub fn is_wrong_codes(part: &[u8]) -> bool
    ensures { IsTrue result → ¬ (IsUtf8 part.now) ⊎ (codes_in part.now ≡ None) }
{
    match str::from_utf8(part) {
        Ok(part) => !part.is_empty() && codes_in(part).is_none(),
        Err(_) => true,
    }
}

/// The first part of the text of a file that is no code of Unicode and no range.
pub fn find_wrong_codes(text: &[u8]) -> Option<&[u8]>
    ensures { IfSome result (λ part. ¬ (IsUtf8 part.now) ⊎ (codes_in part.now ≡ None)) }
{
    for part in text.split(|b| is_blank(*b) || *b == b',') {
        if is_wrong_codes(part) {
            return Some(part);
        }
    }
    None
}

/// Whether a byte is a line feed or a carriage return.
fn is_line_end(b: u8) -> bool
    ensures { result ≡ is_line_end b }
{
    b == b'\n' || b == b'\r'
}

/// The bytes of a text without its line ends.
fn bytes_of_lines(alloc: Global, text: &[u8]) -> Result<Vec<u8>, AllocError>
    ensures { IfOk result (λ v. v.items ≡ without_line_ends text.now) }
{
    text.iter()
        .copied()
        .filter(|b| !is_line_end(*b))
        .collect(alloc)
}

/// The text of a file without its line ends. `Usage` where it isn't UTF-8.
pub fn text_of_file(alloc: Global, text: &[u8]) -> Result<String, ArgsError>
    ensures ok { IfOk result (λ s. string_bytes s ≡ without_line_ends text.now) }
    ensures err { IfErr result (λ e. (e ≡ OutOfMemory) ⊎ ((e ≡ Usage) × (¬ (IsUtf8 text.now) ⊎ ¬ (IsUtf8 (without_line_ends text.now))))) }
{
    if str::from_utf8(text).is_err() {
        return Err(ArgsError::Usage);
    }
    let bytes = bytes_of_lines(alloc, text)?;
    match str::from_utf8(bytes.as_slice()) {
        Ok(text) => Ok(String::from_str(alloc, text)?),
        Err(_) => Err(ArgsError::Usage),
    }
}
