//! The flags of points.

ghost use Rattle.std.specs.Prelude.{◌≡◌, IfOk, IfErr};
ghost use Rattle.std.specs.Option.{option_map};
ghost use Rattle.subsetter_base.specs.declared.error.Error.TheVariants.{OutOfMemory};
ghost use Rattle.subsetter_points.specs.Simple.{repeats_at, run_at, next, flags};

use crate::lists::deltas::has;
use crate::lists::front::read_byte;
use subsetter_base::Error;

/// The next byte is the number of additional times that the flag is to be repeated.
const REPEAT_FLAG: u8 = 0x08;

/// A flag, and how many more times it is to be repeated.
#[derive(Clone, Copy)]
pub struct Run {
    /// The flag.
    pub flag: u8,
    /// How many more times.
    pub repeats: u8,
}

/// How many more times a flag is to be repeated, and the bytes after that.
fn read_repeats(flag: u8, bytes: &[u8]) -> Option<(u8, &[u8])>
    ensures { option_map (λ p. (p.0, p.1.now)) result ≡ repeats_at flag bytes.now }
{
    if has(flag, REPEAT_FLAG) {
        read_byte(bytes)
    } else {
        Some((0, bytes))
    }
}

/// A flag, how many more times it is to be repeated, and the bytes after them.
fn read_run(bytes: &[u8]) -> Option<(Run, &[u8])>
    ensures { option_map (λ p. (p.0, p.1.now)) result ≡ run_at bytes.now }
{
    let (flag, after) = read_byte(bytes)?;
    let (repeats, rest) = read_repeats(flag, after)?;
    Some((Run { flag, repeats }, rest))
}

/// The next flag: the one before it while that is to be repeated, else one that is read.
fn read_next(run: Run, bytes: &[u8]) -> Option<(Run, &[u8])>
    ensures { option_map (λ p. (p.0, p.1.now)) result ≡ next run bytes.now }
{
    if run.repeats == 0 {
        return read_run(bytes);
    }
    let rest_of_run = Run {
        flag: run.flag,
        repeats: run.repeats - 1,
    };
    Some((rest_of_run, bytes))
}

/// The flags of `count` points, in the memory of the spare list, and the bytes after them.
pub fn read_flags(
    spare: Vec<u8>,
    count: usize,
    bytes: &[u8],
) -> Result<Option<(Vec<u8>, &[u8])>, Error>
    ensures ok { IfOk result (λ o. option_map (λ p. (p.0.items, p.1.now)) o ≡ flags count (record { flag = 0; repeats = 0 }) bytes.now) }
    ensures err { IfErr result (λ e. e ≡ OutOfMemory) }
{
    let mut flags = spare;
    flags.clear();
    flags.reserve(count)?;
    let mut run = Run {
        flag: 0,
        repeats: 0,
    };
    let mut rest = bytes;
    for _ in 0..count {
        let Some((taken, after)) = read_next(run, rest) else {
            return Ok(None);
        };
        flags.push_reserved(taken.flag);
        run = taken;
        rest = after;
    }
    if run.repeats != 0 {
        return Ok(None);
    }
    Ok(Some((flags, rest)))
}
