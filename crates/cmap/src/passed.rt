//! Places that are passed over: each leads on to one that isn't before it, and an open one to itself.

ghost use Rattle.std.specs.Prelude.{◌≡◌, ◌+◌, ◌<◌, ◌≤◌, ◌^◌, ℕ, length, slice_index, slice_set};
ghost use Rattle.cmap.specs.Passed.{IsLeading};

/// The first open place from one on. The places on the way lead further then.
pub(crate) fn first_open(next: &mut Vec<u32>, from: usize) -> usize
    requires leading { IsLeading next.old.items }
    requires inside { from < length next.old.items }
    ensures leading { IsLeading next.new.items }
    ensures bounds { from ≤ result }
    ensures inside { result < length next.new.items }
    ensures open { slice_index next.new.items result ≡ result }
    ensures passed { (q : ℕ) → from ≤ q → q < result → q < slice_index next.new.items q }
    ensures still_open { (q : ℕ) → q < length next.old.items → slice_index next.old.items q ≡ q → slice_index next.new.items q ≡ q }
    ensures len { length next.new.items ≡ length next.old.items }
    ensures still_passed { (q : ℕ) → q < length next.old.items → q < slice_index next.old.items q → q < slice_index next.new.items q }
{
    let mut at = from;
    loop {
        let to = next[at] as usize;
        if to == at {
            return at;
        }
        let further = next[to];
        next[at] = further;
        at = further as usize;
    }
}

/// Passes an open place over, which isn't the last one.
pub(crate) fn pass(next: &mut Vec<u32>, at: usize)
    requires leading { IsLeading next.old.items }
    requires few { length next.old.items < 2 ^ 32 }
    requires inside { at + 1 < length next.old.items }
    ensures value { next.new.items ≡ slice_set next.old.items at (at + 1) }
    ensures leading { IsLeading next.new.items }
{
    next[at] = at as u32 + 1;
}
