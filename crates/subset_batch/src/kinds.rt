//! The names that a member of a request may have.

ghost use Rattle.std.specs.Prelude.{◌≡◌};
ghost use Rattle.subset_batch.specs.Members.{flag_of, list_of, single_of, kind_of, fits};
ghost use Rattle.subset_batch.specs.View.{value_view};

use crate::values::Value;

/// What a member requests.
#[derive(Clone, Copy)]
pub enum Kind {
    /// IN
    Source,
    /// An option without a value.
    Flag,
    /// An option with a value.
    Single,
    /// An option with a value that commas may divide.
    Multiple,
}

/// An option without a value.
#[tactic(auto, unfolding(crate::specs::Members::flag_of))]
fn flag_of(name: &str) -> Option<Kind>
    ensures { result ≡ flag_of name.now }
{
    match name {
        "widths" => Some(Kind::Flag),
        "no-hinting" => Some(Kind::Flag),
        "no-names" => Some(Kind::Flag),
        "no-glyph-names" => Some(Kind::Flag),
        "small" => Some(Kind::Flag),
        "json" => Some(Kind::Flag),
        "quiet" => Some(Kind::Flag),
        "verbose" => Some(Kind::Flag),
        "vertical" => Some(Kind::Flag),
        "strict" => Some(Kind::Flag),
        "allow-blank" => Some(Kind::Flag),
        _ => None,
    }
}

/// An option with a value that commas may divide.
#[tactic(auto, unfolding(crate::specs::Members::list_of))]
fn list_of(name: &str) -> Option<Kind>
    ensures { result ≡ list_of name.now }
{
    match name {
        "gids" => Some(Kind::Multiple),
        "unicodes" => Some(Kind::Multiple),
        "at" => Some(Kind::Multiple),
        "limits" => Some(Kind::Multiple),
        _ => None,
    }
}

/// IN, or an option with another value.
#[tactic(auto, unfolding(crate::specs::Members::single_of))]
fn single_of(name: &str) -> Option<Kind>
    ensures { result ≡ single_of name.now }
{
    match name {
        "in" => Some(Kind::Source),
        "out" => Some(Kind::Single),
        "output-file" => Some(Kind::Single),
        "index" => Some(Kind::Single),
        "face-index" => Some(Kind::Single),
        "text" => Some(Kind::Single),
        "text-file" => Some(Kind::Single),
        "gids-file" => Some(Kind::Single),
        "unicodes-file" => Some(Kind::Single),
        "pdf" => Some(Kind::Single),
        "codes" => Some(Kind::Single),
        "rights" => Some(Kind::Single),
        _ => None,
    }
}

/// What a member of this name requests.
#[tactic(auto, unfolding(crate::specs::Members::kind_of))]
pub fn kind_of(name: &str) -> Option<Kind>
    ensures { result ≡ kind_of name.now }
{
    if let Some(kind) = flag_of(name) {
        return Some(kind);
    }
    if let Some(kind) = list_of(name) {
        return Some(kind);
    }
    single_of(name)
}

/// Whether a value is one that a member of this kind may have.
#[tactic(auto, unfolding(crate::specs::Members::fits))]
pub fn fits(kind: Kind, value: &Value) -> bool
    ensures { result ≡ fits kind (value_view value.now) }
{
    match (kind, value) {
        (_, Value::Absent) => true,
        (Kind::Flag, Value::Present) => true,
        (Kind::Multiple, Value::Text(_)) => true,
        (Kind::Multiple, Value::Texts(_)) => true,
        (Kind::Single, Value::Text(_)) => true,
        (Kind::Source, Value::Text(_)) => true,
        _ => false,
    }
}
