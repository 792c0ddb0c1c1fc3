//! What a caller chooses of a subset.

ghost use Rattle.std.specs.Prelude.{◌≡◌};
ghost use Rattle.subsetter_sfnt.specs.Extras.{all_extras};

use subsetter_sfnt::extras::Extras;
use subsetter_type2::limits::Limits;

/// How much work and how large a font is allowed, and what is kept.
#[derive(Clone, Copy, PartialEq, Eq, Debug)]
pub struct Options {
    pub limits: Limits,
    pub extras: Extras,
}

impl Options {
    /// All extras, within these limits.
    pub fn keeping_all(limits: Limits) -> Self
        ensures limits { result.limits ≡ limits }
        ensures extras { result.extras ≡ all_extras }
    {
        Self {
            limits,
            extras: Extras::ALL,
        }
    }
}
