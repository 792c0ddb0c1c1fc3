//! What is left of the callers of a running charstring.

ghost use Rattle.std.specs.Prelude.{◌≡◌, ◌∷◌, ◌<◌, ◌≤◌, [], length, OnSome, MatchOption};
ghost use Rattle.subsetter_type2.specs.Runs.Machine.{unended};
ghost use Rattle.subsetter_type2.specs.View.{rests_of};

use crate::runs::fixed_stack::FixedStack;

/// What is left of the innermost charstring that is not at its end, taken off the stack.
#[inline(always)]
fn next_rest<'a, const N: usize>(rests: &mut FixedStack<&'a [u8], N>) -> Option<&'a [u8]>
    ensures rest { MatchOption result (unended (rests_of rests.old) ≡ []) (λ bytes. unended (rests_of rests.old) ≡ bytes.now ∷ rests_of rests.new) }
    ensures room { OnSome result (length rests.new < length rests.old) }
{
    while let Some(rest) = rests.pop() {
        if !rest.is_empty() {
            return Some(rest);
        }
    }
    None
}

/// The innermost charstring that is not at its end: the running one, or else one of its callers.
#[inline(always)]
pub fn innermost<'a, const N: usize>(
    running: &'a [u8],
    rests: &mut FixedStack<&'a [u8], N>,
) -> Option<&'a [u8]>
    ensures rest { MatchOption result (unended (running.now ∷ rests_of rests.old) ≡ []) (λ bytes. unended (running.now ∷ rests_of rests.old) ≡ bytes.now ∷ rests_of rests.new) }
    ensures room { OnSome result (length rests.new ≤ length rests.old) }
{
    if !running.is_empty() {
        return Some(running);
    }
    next_rest(rests)
}
