//! New numbers for the strings of a subset (Technical Note 5176, section 10 "String INDEX").

ghost use Rattle.std.specs.Prelude.{◌≡◌, ◌+◌, ◌<◌, ◌≤◌, [], length, Some, is_ok, if◌then◌else◌, IfOk, IfErr, IfSome, IsOk, IsSome};
ghost use Rattle.std.specs.List.{IsDistinct};
ghost use Rattle.std.specs.Option.{option_map};
ghost use Rattle.std.specs.Str.{bytes_eq};
ghost use Rattle.subsetter_base.specs.Remap.{index_by, with_value};
ghost use Rattle.subsetter_base.specs.declared.error.Error.TheVariants.{OutOfMemory};
ghost use Rattle.subsetter_cff.specs.Write.Strings.SidRemapping.{number_in, known_number, new_number, with_old};
ghost use Rattle.subsetter_base.specs.Texts.{views};

use std::alloc::Global;
use std::marker::Model;
use subsetter_base::error::Error;
use subsetter_cffdata::numerals::number::StringId;

/// The strings that have a new number, from 391 on, in the order in which they came; and the old numbers of some.
#[derive(Drop)]
pub struct SidRemapper<'a> {
    strings: Vec<&'a [u8]>,
    known: Vec<(u16, u16)>,
}

impl<'a> Model for SidRemapper<'a> {
    ghost use Rattle.std.specs.Prelude.{◌≤◌, length};
    ghost use Rattle.std.specs.List.{IsDistinct};
    ghost use Rattle.std.specs.Str.{bytes_eq};
    ghost use Rattle.subsetter_cff.specs.Write.Strings.SidRemapping.{Remapped};
    ghost use Rattle.subsetter_base.specs.Texts.{views};

    ghost Value = { Remapped };

    ghost view = { λ r. record { texts = views r.strings.items; known = r.known.items } };

    ghost invariant = { λ r. record {
      few : length r.strings.items ≤ 65145;
      once : IsDistinct bytes_eq (views r.strings.items);
    } };
}

/// The first place of a string.
fn index_of(strings: &[&[u8]], string: &[u8]) -> Option<usize>
    ensures value { result ≡ index_by bytes_eq (views strings.now) string.now }
    ensures within { IfSome result (λ i. i < length strings.now) }
{
    for i in 0..strings.len() {
        if strings[i] == string {
            return Some(i);
        }
    }
    None
}

/// The number of the string at a place.
fn number_at(place: usize) -> StringId
    requires { place < 65145 }
    ensures { result.0 ≡ 391 + place }
{
    StringId(StringId::STANDARD_STRING_LEN + place as u16)
}

/// The number of a string, which goes last if it is unknown.
fn put_string<'a>(strings: &mut Vec<&'a [u8]>, string: &'a [u8]) -> Result<StringId, Error>
    requires { length strings.old.items < 65145 }
    ensures texts { views strings.new.items ≡ (if is_ok result then with_value bytes_eq (views strings.old.items) string.now else views strings.old.items) }
    ensures few { length strings.new.items ≤ 65145 }
    ensures number { IfOk result (λ s. number_in (views strings.new.items) string.now ≡ Some s.0) }
    ensures known { IsSome (number_in (views strings.old.items) string.now) → IsOk result }
    ensures err { IfErr result (λ e. e ≡ OutOfMemory) }
{
    if let Some(place) = index_of(strings, string) {
        return Ok(number_at(place));
    }
    let number = number_at(strings.len());
    strings.push(string)?;
    Ok(number)
}

/// The new number of an old one.
fn find_known(known: &[(u16, u16)], old: u16) -> Option<u16>
    ensures { result ≡ known_number known.now old }
{
    for pair in known {
        if pair.0 == old {
            return Some(pair.1);
        }
    }
    None
}

impl<'a> SidRemapper<'a> {
    /// No strings.
    #[tactic(auto, using(crate::proofs::WriteLaws::StringsLaws::StringPlaces::none_twice))]
    pub fn new(alloc: Global) -> Self
        ensures { result ≡ record { texts = []; known = [] } }
    {
        SidRemapper {
            strings: Vec::new(alloc),
            known: Vec::new(alloc),
        }
    }

    /// No strings, with room for as many.
    #[tactic(auto, using(crate::proofs::WriteLaws::StringsLaws::StringPlaces::none_twice))]
    pub fn with_capacity(alloc: Global, capacity: usize) -> Result<Self, Error>
        ensures ok { IfOk result (λ r. r ≡ record { texts = []; known = [] }) }
        ensures err { IfErr result (λ e. e ≡ OutOfMemory) }
    {
        Ok(SidRemapper {
            strings: Vec::with_capacity(alloc, capacity)?,
            known: Vec::new(alloc),
        })
    }

    /// The new number of a string.
    pub fn get(&self, string: &[u8]) -> Option<StringId>
        ensures { option_map (λ s. s.0) result ≡ number_in self.now.texts string.now }
    {
        let place = index_of(&self.strings, string)?;
        Some(number_at(place))
    }

    /// The new number of an old one: a standard string keeps its number.
    pub fn get_new_sid(&self, sid: StringId) -> Option<StringId>
        ensures { option_map (λ s. s.0) result ≡ new_number self.now.known sid.0 }
    {
        if sid.is_standard_string() {
            return Some(sid);
        }
        Some(StringId(find_known(&self.known, sid.0)?))
    }

    /// The new number of a string, which goes last if it is unknown.
    #[tactic(auto, using(crate::proofs::WriteLaws::StringsLaws::StringPlaces::once_after))]
    pub fn remap(&mut self, string: &'a [u8]) -> Result<StringId, Error>
        requires { length self.old.texts < 65145 }
        ensures texts { self.new.texts ≡ (if is_ok result then with_value bytes_eq self.old.texts string.now else self.old.texts) }
        ensures known { self.new.known ≡ self.old.known }
        ensures number { IfOk result (λ s. number_in self.new.texts string.now ≡ Some s.0) }
        // A known string takes no memory.
        ensures there { IsSome (number_in self.old.texts string.now) → IsOk result }
        ensures err { IfErr result (λ e. e ≡ OutOfMemory) }
    {
        put_string(&mut self.strings, string)
    }

    /// The new number of an old one, which goes with this string if it is unknown. A standard string keeps its number.
    #[tactic(auto, using(crate::proofs::WriteLaws::StringsLaws::StringPlaces::once_after))]
    pub fn remap_with_old_sid(&mut self, sid: StringId, string: &'a [u8]) -> Result<StringId, Error>
        requires { length self.old.texts < 65145 }
        // After an Err all is as it was.
        ensures all { self.new ≡ (if is_ok result then with_old self.old sid.0 string.now else self.old) }
        ensures number { IfOk result (λ s. new_number self.new.known sid.0 ≡ Some s.0) }
        // A known number takes no memory.
        ensures there { IsSome (new_number self.old.known sid.0) → IsOk result }
        ensures err { IfErr result (λ e. e ≡ OutOfMemory) }
    {
        if let Some(known) = self.get_new_sid(sid) {
            return Ok(known);
        }
        self.known.reserve(1)?;
        let new = put_string(&mut self.strings, string)?;
        self.known.push((sid.0, new.0)).unwrap();
        Ok(new)
    }

    /// The strings by their new numbers.
    pub fn sorted_strings(&self) -> &[&'a [u8]]
        ensures value { views result.now ≡ self.now.texts }
        // None comes twice.
        ensures once { IsDistinct bytes_eq self.now.texts }
    {
        &self.strings
    }
}
