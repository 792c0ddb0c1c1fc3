//! The clusters of a run.

ghost use Rattle.std.specs.Prelude.{◌≡◌, ◌≤◌, ◌+◌, length, take, drop, position, IfOk, IfErr};
ghost use Rattle.std.specs.List.{position_or_len};
ghost use Rattle.subsetter_base.specs.declared.error.Error.TheVariants.{OutOfMemory};
ghost use Rattle.pdf_runs.specs.Clusters.{clusters, lists};
ghost use Rattle.pdf_runs.specs.Items.{begins};

use crate::items::{Item, begins};
use std::alloc::Global;
use subsetter_base::Error;

/// The first `count` glyphs.
fn front<'a, 'b>(items: &'b [Item<'a>], count: usize) -> &'b [Item<'a>]
    requires { count ≤ length items.now }
    ensures { result.now ≡ take count items.now }
{
    &items[..count]
}

/// The glyphs after the first `count`.
fn following<'a, 'b>(items: &'b [Item<'a>], count: usize) -> &'b [Item<'a>]
    requires { count ≤ length items.now }
    ensures { result.now ≡ drop count items.now }
{
    &items[count..]
}

/// Where the first glyph is that begins a cluster.
fn next_beginning(items: &[Item<'_>]) -> Option<usize>
    ensures { result ≡ position begins items.now }
{
    items.iter().position(|item| begins(item))
}

/// How many glyphs continue a cluster, before the next one that begins a cluster.
fn continued(items: &[Item<'_>]) -> usize
    ensures value { result ≡ position_or_len begins items.now }
    ensures within { result ≤ length items.now }
{
    next_beginning(items).unwrap_or(items.len())
}

/// How many glyphs the first cluster has.
fn cluster_size(items: &[Item<'_>]) -> usize
    requires { 1 ≤ length items.now }
    ensures value { result ≡ 1 + position_or_len begins (drop 1 items.now) }
    ensures within { result ≤ length items.now }
{
    1 + continued(following(items, 1))
}

/// The clusters of a run: each has the glyphs from one with a text up to the next one with a text.
///
/// # Errors
///
/// `OutOfMemory` alone.
pub fn clusters_of_run<'a>(
    alloc: Global,
    items: &'a [Item<'a>],
) -> Result<Vec<&'a [Item<'a>]>, Error>
    ensures ok { IfOk result (λ found. lists found.items ≡ clusters items.now) }
    ensures err { IfErr result (λ e. e ≡ OutOfMemory) }
{
    let mut found = Vec::with_capacity(alloc, items.len())?;
    let mut rest = items;
    while rest.len() > 0 {
        let count = cluster_size(rest);
        let first = front(rest, count);
        found.push(first)?;
        let after = following(rest, count);
        rest = after;
    }
    Ok(found)
}
