//! Checksums of tables.

ghost use Rattle.std.specs.Prelude.{◌≡◌, ◌+◌, ◌-◌, ◌%◌, ◌^◌, ◌≤◌, []};
ghost use Rattle.subsetter_sfnt.specs.Laying.Checksum.{checksum};
ghost use Rattle.subsetter_sfnt.specs.Laying.Weights.{weighed, IsSummed};

/// What a byte at an offset counts in its word.
fn weight(at: usize) -> u32
    ensures exact { result ≡ 256 ^ (3 - at % 4) }
    ensures small { result ≤ 2 ^ 24 }
{
    match at % 4 {
        0 => 0x01000000,
        1 => 0x00010000,
        2 => 0x00000100,
        _ => 1,
    }
}

/// Adds the bytes from an offset on, one at a time.
fn add_bytes(start: u32, at: usize, bytes: &[u8]) -> u32
    ensures { result ≡ (start + weighed at bytes.now) % 2 ^ 32 }
{
    let mut sum = start;
    let mut phase = at % 4;
    for byte in bytes {
        sum = sum.wrapping_add((*byte as u32) * weight(phase));
        phase = (phase + 1) % 4;
    }
    sum
}

/// Adds the bytes from a multiple of four on, a word at a time.
fn add_words(start: u32, bytes: &[u8]) -> u32
    ensures { result ≡ (start + weighed 0 bytes.now) % 2 ^ 32 }
{
    let mut sum = start;
    let mut rest = bytes;
    while let [a, b, c, d, after @ ..] = rest {
        sum = sum.wrapping_add(u32::from_be_bytes([*a, *b, *c, *d]));
        rest = after;
    }
    add_bytes(sum, 0, rest)
}

/// The sum of the four-byte words, the last of them filled up with zeros.
pub fn checksum(bytes: &[u8]) -> u32
    ensures { result ≡ checksum bytes.now }
{
    add_words(0, bytes)
}

/// How many bytes are summed at a time while others are written after them.
const PIECE: usize = 0x4000;

/// The sum of the first bytes of a table that is being written, so that its bytes are summed while they are at hand.
#[derive(Clone, Copy)]
pub struct Sum {
    value: u32,
    /// How many bytes were summed, a multiple of four.
    done: usize,
}

impl Sum {
    /// No bytes yet.
    pub fn new() -> Self
        ensures { IsSummed [] result.value result.done }
    {
        Self { value: 0, done: 0 }
    }

    /// Adds a piece of the table, if that many bytes come after those that were summed.
    pub fn go_on(self, table: &[u8]) -> Self
        requires { IsSummed table.now self.value self.done }
        ensures { IsSummed table.now result.value result.done }
    {
        if table.len() - self.done < PIECE {
            return self;
        }
        let end = self.done + PIECE;
        Self {
            value: add_words(self.value, &table[self.done..end]),
            done: end,
        }
    }

    /// The checksum of the table, which is written.
    pub fn finish(self, table: &[u8]) -> u32
        requires { IsSummed table.now self.value self.done }
        ensures { result ≡ checksum table.now }
    {
        add_words(self.value, &table[self.done..])
    }
}
