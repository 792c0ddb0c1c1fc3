//! Writing into room that was reserved before.

ghost use Rattle.std.specs.Prelude.{◌≡◌, ◌+◌, ◌*◌, ◌/◌, ◌-◌, ◌%◌, ◌<◌, ◌≤◌, ◌^◌, ◌++◌, length, take, drop, vec_capacity};
ghost use Rattle.std.specs.Int.{w16, w32, to_be_bytes};
ghost use Rattle.subsetter_base.specs.Bytes.{aligned};

/// Writes bytes.
pub fn put(out: &mut Vec<u8>, bytes: &[u8])
    requires { length out.old.items + length bytes.now ≤ vec_capacity out.old }
    ensures items { out.new.items ≡ out.old.items ++ bytes.now }
    ensures capacity { vec_capacity out.old ≤ vec_capacity out.new }
{
    out.extend_from_slice(bytes).unwrap();
}

/// How many bytes a length takes with zeros up to a multiple of four.
pub fn aligned_len(len: usize) -> usize
    requires { len + 3 < 2 ^ 64 }
    ensures { result ≡ (len + 3) / 4 * 4 }
{
    len.saturating_add(3) / 4 * 4
}

/// Writes zeros up to a multiple of four.
pub fn align(out: &mut Vec<u8>)
    requires { length (aligned 4 out.old.items) ≤ vec_capacity out.old }
    ensures items { out.new.items ≡ aligned 4 out.old.items }
    ensures capacity { vec_capacity out.old ≤ vec_capacity out.new }
{
    match out.len() % 4 {
        0 => {}
        1 => put(out, &[0, 0, 0]),
        2 => put(out, &[0, 0]),
        _ => put(out, &[0]),
    }
}

/// Puts a word in place of four bytes.
pub fn patch(out: &mut Vec<u8>, at: usize, word: u32)
    requires { at + 4 ≤ length out.old.items }
    ensures { out.new.items ≡ take at out.old.items ++ to_be_bytes w32 word ++ drop (at + 4) out.old.items }
{
    out[at..at + 4].copy_from_slice(&word.to_be_bytes());
}
