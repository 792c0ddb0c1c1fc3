//! The object that a line is.

ghost use Rattle.std.specs.Prelude.{◌≡◌};
ghost use Rattle.subset_batch.specs.Reading.{distinct, at_end, object_of};
ghost use Rattle.subset_batch.specs.View.{Gives, members_view};

use crate::fault::{Fault, Unread, Wanted, missing};
use crate::json::blanks::{byte_at, skip_ws};
use crate::members::{Member, members_in, repeated};
use std::alloc::Global;

/// Members with names of their own.
fn distinct(alloc: Global, members: Vec<Member>) -> Result<Vec<Member>, Unread>
    ensures { Gives (λ v. members_view v.items) result (distinct (members_view members.items)) }
{
    if let Some(name) = repeated(&members) {
        return Err(Unread::Fault(Fault::Twice(String::from_str(alloc, name)?)));
    }
    Ok(members)
}

/// Members, after which nothing is.
fn at_end(alloc: Global, members: Vec<Member>, rest: &[u8]) -> Result<Vec<Member>, Unread>
    ensures { Gives (λ v. members_view v.items) result (at_end (members_view members.items) rest.now) }
{
    match rest {
        [] => distinct(alloc, members),
        [_, ..] => Err(missing(Wanted::End, rest)),
    }
}

/// The members of the object that a line is.
#[tactic(auto, unfolding(crate::specs::Reading::object_of))]
pub fn object_of(alloc: Global, line: &[u8]) -> Result<Vec<Member>, Unread>
    ensures { Gives (λ v. members_view v.items) result (object_of line.now) }
{
    let rest = byte_at(b'{', Wanted::Object, skip_ws(line))?;
    let (members, rest) = members_in(alloc, skip_ws(rest))?;
    at_end(alloc, members, skip_ws(rest))
}
