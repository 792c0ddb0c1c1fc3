//! How long a stretch of a charstring is.

ghost use Rattle.std.specs.Prelude.{◌≡◌, ◌≤◌, ◌<◌, ◌+◌, if◌then◌else◌};
ghost use Rattle.subsetter_type2.specs.Runs.OutputView.{operands_offset};

/// How long a stretch is.
#[derive(Clone, Copy)]
pub struct Stretch {
    /// How many bytes it has.
    pub len: usize,
    /// How many tokens it has.
    pub tokens: usize,
    /// Where the last of its operators ends; 0 where it has none.
    pub settled: usize,
    /// How many operands are on the stack after it.
    pub count: usize,
    /// Where the last of its tokens begins, if that is a number.
    pub last: usize,
}

/// One of two numbers, without a branch.
#[inline(always)]
fn choose(first: bool, one: usize, other: usize) -> usize
    ensures { result ≡ (if first then one else other) }
{
    if first { one } else { other }
}

impl Stretch {
    /// Where the operands begin after this stretch, which comes after `before` bytes.
    #[inline(always)]
    pub fn settled_after(&self, settled: usize, before: usize) -> usize
        requires inside { self.now.settled ≤ self.now.len }
        requires room { before + self.now.len ≤ 18446744073709551615 }
        ensures { result ≡ operands_offset self.now.settled settled before }
    {
        if self.settled == 0 {
            return settled;
        }
        before + self.settled
    }

    /// With a number more, which ends here.
    #[inline(always)]
    pub fn with_number(self, len: usize) -> Stretch
        requires tokens { self.tokens < 18446744073709551615 }
        requires few { self.count < 48 }
        ensures { result ≡ record { len = len; tokens = self.tokens + 1; settled = self.settled; count = self.count + 1; last = self.len } }
    {
        Stretch {
            len,
            tokens: self.tokens + 1,
            settled: self.settled,
            count: self.count + 1,
            last: self.len,
        }
    }

    /// With a token more, which ends here: an operator that takes all operands, or a number.
    #[inline(always)]
    pub fn with_token(self, len: usize, draws: bool) -> Stretch
        requires tokens { self.tokens < 18446744073709551615 }
        requires few { self.count < 48 }
        ensures { result ≡ record { len = len; tokens = self.tokens + 1; settled = (if draws then len else self.settled); count = (if draws then 0 else self.count + 1); last = self.len } }
    {
        Stretch {
            len,
            tokens: self.tokens + 1,
            settled: choose(draws, len, self.settled),
            count: choose(draws, 0, self.count + 1),
            last: self.len,
        }
    }

    /// With an operator more, which ends here and takes all operands.
    #[inline(always)]
    pub fn with_operator(self, len: usize) -> Stretch
        requires { self.tokens < 18446744073709551615 }
        ensures { result ≡ record { len = len; tokens = self.tokens + 1; settled = len; count = 0; last = self.last } }
    {
        Stretch {
            len,
            tokens: self.tokens + 1,
            settled: len,
            count: 0,
            last: self.last,
        }
    }
}
