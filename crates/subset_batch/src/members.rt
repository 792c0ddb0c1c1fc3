//! The members of a request.

ghost use Rattle.std.specs.Prelude.{◌≡◌, ◌∷◌, [], length, map, string_bytes};
ghost use Rattle.std.specs.Option.{option_map};
ghost use Rattle.subset_batch.specs.Members.{has_name, repeated};
ghost use Rattle.subset_batch.specs.Reading.{many, name_at, fitting_at, member_at, member_step, members_in};
ghost use Rattle.subset_batch.specs.declared.fault.Wanted.TheVariants.{CommaOrBrace};
ghost use Rattle.subset_batch.specs.View.{Gives, value_view, member_view, members_view};

use crate::fault::{Fault, Unread, Wanted, missing};
use crate::json::blanks::{byte_at, following, separator_at, skip_ws};
use crate::json::strings::string_at;
use crate::kinds::{Kind, fits, kind_of};
use crate::values::{Value, value_at};
use std::alloc::Global;

/// A member of a request.
#[derive(Drop)]
pub struct Member {
    pub name: String,
    pub value: Value,
}

/// The name of a member, and what it requests.
#[tactic(auto, unfolding(crate::specs::Reading::name_at))]
fn name_at(alloc: Global, bytes: &[u8]) -> Result<(Kind, String, &[u8]), Unread>
    ensures { Gives (λ x. (x.0, string_bytes x.1, x.2.now)) result (name_at bytes.now) }
{
    let quoted = byte_at(b'"', Wanted::Name, bytes)?;
    let (name, rest) = string_at(alloc, quoted)?;
    match kind_of(name.as_str()) {
        Some(kind) => Ok((kind, name, rest)),
        None => Err(Unread::Fault(Fault::Unknown(name, bytes.len()))),
    }
}

/// The value of a member of a kind.
#[tactic(auto, unfolding(crate::specs::Reading::fitting_at))]
fn fitting_at(alloc: Global, kind: Kind, bytes: &[u8]) -> Result<(Value, &[u8]), Unread>
    ensures { Gives (λ x. (value_view x.0, x.1.now)) result (fitting_at kind bytes.now) }
{
    let (value, rest) = value_at(alloc, bytes)?;
    if !fits(kind, &value) {
        return Err(missing(Wanted::Fitting, bytes));
    }
    Ok((value, rest))
}

/// A member.
#[tactic(auto, unfolding(crate::specs::Reading::member_at))]
fn member_at(alloc: Global, bytes: &[u8]) -> Result<(Member, &[u8]), Unread>
    ensures { Gives (λ x. (member_view x.0, x.1.now)) result (member_at bytes.now) }
{
    let (kind, name, rest) = name_at(alloc, bytes)?;
    let rest = byte_at(b':', Wanted::Colon, skip_ws(rest))?;
    let (value, rest) = fitting_at(alloc, kind, skip_ws(rest))?;
    Ok((Member { name, value }, rest))
}

/// A member, and whether another follows.
#[tactic(auto, unfolding(crate::specs::Reading::member_step))]
fn member_step(alloc: Global, bytes: &[u8]) -> Result<(Member, bool, &[u8]), Unread>
    ensures { Gives (λ x. (member_view x.0 ∷ [], x.1, x.2.now)) result (member_step bytes.now) }
{
    let (member, rest) = member_at(alloc, bytes)?;
    let (more, rest) = separator_at(b'}', Wanted::CommaOrBrace, rest)?;
    Ok((member, more, rest))
}

/// One or more members, up to the brace, `count` at most.
#[tactic(auto, using(crate::proofs::Loop::no_front, crate::proofs::Loop::more_follow, crate::proofs::Loop::none_follow, crate::proofs::Loop::refused, crate::proofs::Loop::all_steps))]
fn many_members(alloc: Global, count: usize, bytes: &[u8]) -> Result<(Vec<Member>, &[u8]), Unread>
    ensures { Gives (λ x. (members_view x.0.items, x.1.now)) result (many member_step CommaOrBrace count bytes.now) }
{
    let mut members = Vec::new(alloc);
    let mut rest = bytes;
    for _ in 0..count {
        let (member, more, following) = member_step(alloc, rest)?;
        members.push(member)?;
        if !more {
            return Ok((members, following));
        }
        rest = following;
    }
    Err(missing(Wanted::CommaOrBrace, rest))
}

/// The members after the brace.
pub fn members_in(alloc: Global, bytes: &[u8]) -> Result<(Vec<Member>, &[u8]), Unread>
    ensures { Gives (λ x. (members_view x.0.items, x.1.now)) result (members_in bytes.now) }
{
    match following(b'}', bytes) {
        Some(rest) => Ok((Vec::new(alloc), rest)),
        None => many_members(alloc, bytes.len(), bytes),
    }
}

/// Whether one of the members has this name.
fn has_name(name: &str, members: &[Member]) -> bool
    ensures { result ≡ has_name name.now (members_view members.now) }
{
    let mut rest = members;
    while let [member, following @ ..] = rest {
        if member.name.as_str() == name {
            return true;
        }
        rest = following;
    }
    false
}

/// The first name that a later member has too.
pub fn repeated(members: &[Member]) -> Option<&str>
    ensures { option_map (λ name. name.now) result ≡ repeated (members_view members.now) }
{
    let mut rest = members;
    while let [member, following @ ..] = rest {
        if has_name(member.name.as_str(), following) {
            return Some(member.name.as_str());
        }
        rest = following;
    }
    None
}
