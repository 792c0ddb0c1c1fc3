//! Region indexes that are below a bound, one after the other, for every place of an item variation store in one pass from
//! its end: item variation data may overlap, so that each on its own would take a pass.

ghost use Rattle.std.specs.Prelude.{◌≡◌, ◌≤◌, suc, length, IfOk, IfErr};
ghost use Rattle.subsetter_base.specs.declared.error.Error.TheVariants.{OutOfMemory};
ghost use Rattle.subsetter_cff2.specs.RegionRuns.{one_more, run, AreRuns};

use std::alloc::Global;
use subsetter_base::error::Error;
use subsetter_base::read::u16_at;

/// One more, up to the most regions that item variation data have.
fn one_more(n: u16) -> u16
    ensures { result ≡ one_more n }
{
    if n < 65535 { n + 1 } else { 65535 }
}

/// How many of the indexes in the last `left` bytes come before the first that isn't below the bound, by the runs of fewer bytes.
fn next_run(bytes: &[u8], bound: usize, left: usize, runs: &[u16]) -> u16
    requires inside { left ≤ length bytes.now }
    requires runs { AreRuns bound bytes.now runs.now left }
    ensures { result ≡ run bound bytes.now left }
{
    if left < 2 {
        return 0;
    }
    if usize::from(u16_at(bytes, bytes.len() - left)) >= bound {
        return 0;
    }
    one_more(runs[left - 2])
}

/// The runs of the last 0, 1, 2 .. bytes, up to all.
pub fn region_runs(alloc: Global, bytes: &[u8], bound: usize) -> Result<Vec<u16>, Error>
    ensures ok { IfOk result (λ v. AreRuns bound bytes.now v.items (suc (length bytes.now))) }
    ensures err { IfErr result (λ e. e ≡ OutOfMemory) }
{
    let count = bytes.len() + 1;
    let mut runs = Vec::with_capacity(alloc, count)?;
    for left in 0..count {
        let run = next_run(bytes, bound, left, &runs);
        runs.push(run)?;
    }
    Ok(runs)
}
