//! The words of a run.

ghost use Rattle.std.specs.Prelude.{◌≡◌, ◌≤◌, ◌+◌, ◌∷◌, length, take, drop, IfOk, IfErr};
ghost use Rattle.std.specs.List.{position_or_len};
ghost use Rattle.subsetter_base.specs.declared.error.Error.TheVariants.{OutOfMemory};
ghost use Rattle.pdf_runs.specs.Clusters.{lists};
ghost use Rattle.pdf_runs.specs.Words.{groups, is_blank, words};

use crate::items::Item;
use crate::pieces::text_of;
use std::alloc::Global;
use subsetter_base::Error;

/// Whether the text of a cluster is white space alone.
fn is_blank(cluster: &[Item<'_>]) -> bool
    ensures { result ≡ is_blank cluster.now }
{
    for character in text_of(cluster) {
        if !character.is_whitespace() {
            return false;
        }
    }
    true
}

/// The first `count` clusters.
fn front<'a, 'b>(clusters: &'b [&'a [Item<'a>]], count: usize) -> &'b [&'a [Item<'a>]]
    requires { count ≤ length clusters.now }
    ensures { result.now ≡ take count clusters.now }
{
    &clusters[..count]
}

/// The clusters after the first `count`.
fn following<'a, 'b>(clusters: &'b [&'a [Item<'a>]], count: usize) -> &'b [&'a [Item<'a>]]
    requires { count ≤ length clusters.now }
    ensures { result.now ≡ drop count clusters.now }
{
    &clusters[count..]
}

/// How many clusters are before a blank one.
fn word_rest(clusters: &[&[Item<'_>]]) -> usize
    ensures value { result ≡ position_or_len is_blank (lists clusters.now) }
    ensures within { result ≤ length clusters.now }
{
    let mut count = 0;
    for cluster in clusters {
        if is_blank(cluster) {
            return count;
        }
        count += 1;
    }
    count
}

/// How many clusters the first word has.
fn word_count<'a>(clusters: &[&'a [Item<'a>]]) -> usize
    requires { 1 ≤ length clusters.now }
    ensures first { words (lists clusters.now) ≡ take result (lists clusters.now) ∷ words (drop result (lists clusters.now)) }
    ensures some { 1 ≤ result }
    ensures within { result ≤ length clusters.now }
{
    if is_blank(clusters[0]) {
        return 1;
    }
    1 + word_rest(following(clusters, 1))
}

/// The words of a run, given its clusters: those one after the other that aren't blank. A blank cluster is alone.
///
/// # Errors
///
/// `OutOfMemory` alone.
pub fn words_of_run<'a, 'b>(
    alloc: Global,
    clusters: &'b [&'a [Item<'a>]],
) -> Result<Vec<&'b [&'a [Item<'a>]]>, Error>
    ensures ok { IfOk result (λ found. groups found.items ≡ words (lists clusters.now)) }
    ensures err { IfErr result (λ e. e ≡ OutOfMemory) }
{
    let mut found = Vec::new(alloc);
    let mut rest = clusters;
    while rest.len() > 0 {
        let count = word_count(rest);
        let first = front(rest, count);
        found.push(first)?;
        let after = following(rest, count);
        rest = after;
    }
    Ok(found)
}
