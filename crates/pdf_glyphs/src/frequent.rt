//! The most frequent column.

ghost use Rattle.std.specs.Prelude.{◌≡◌, ◌<◌, ◌≤◌, ◌+◌, nat_lt, length, IfErr, IfOk, OnOk, if◌then◌else◌};
ghost use Rattle.std.specs.HashMap.{get};
ghost use Rattle.std.specs.Option.{unwrap_or};
ghost use Rattle.subsetter_base.specs.declared.error.Error.TheVariants.{OutOfMemory};
ghost use Rattle.pdf_glyphs.specs.declared.frequent.Key.{Key};
ghost use Rattle.pdf_glyphs.specs.Frequent.{IsMostOfAll, count, default_of, most_frequent};
ghost use Rattle.pdf_glyphs.specs.Keys.{key_of, same_key};

use pdf_text::{Column, DefaultColumn};
use std::alloc::Global;
use std::collections::HashMap;
use subsetter_base::Error;

/// A column but for its x.
#[derive(Clone, Copy, PartialEq, Eq, Hash)]
struct Key {
    y: i32,
    advance: i32,
}

/// A column but for its x.
fn key_of(column: Column) -> Key
    ensures { result ≡ key_of column }
{
    Key {
        y: column.y,
        advance: column.advance,
    }
}

/// How often a column is counted.
fn count_of(counts: &HashMap<Key, u32>, key: Key) -> u32
    ensures { result ≡ unwrap_or (get same_key counts.now key) 0 }
{
    match counts.get(&key) {
        Some(count) => *count,
        None => 0,
    }
}

/// Counts a column once more.
fn count_one(counts: &mut HashMap<Key, u32>, key: Key) -> Result<(), Error>
    requires { unwrap_or (get same_key counts.old key) 0 < 65536 }
    ensures more { OnOk result ((q : Key) → unwrap_or (get same_key counts.new q) 0 ≡ unwrap_or (get same_key counts.old q) 0 + (if same_key key q then 1 else 0)) }
    ensures err { IfErr result (λ e. e ≡ OutOfMemory) }
{
    let count = count_of(counts, key) + 1;
    counts.insert(key, count)?;
    Ok(())
}

/// How often each column is there.
fn counts_of(alloc: Global, columns: &[Column]) -> Result<HashMap<Key, u32>, Error>
    requires { length columns.now ≤ 65535 }
    ensures ok { IfOk result (λ counts. (q : Key) → unwrap_or (get same_key counts q) 0 ≡ count columns.now q.y q.advance) }
    ensures err { IfErr result (λ e. e ≡ OutOfMemory) }
{
    let mut counts = HashMap::new(alloc);
    for column in columns {
        count_one(&mut counts, key_of(*column))?;
    }
    Ok(counts)
}

/// The most frequent column so far.
#[derive(Clone, Copy)]
struct Best {
    column: DefaultColumn,
    /// How many have it.
    count: u32,
}

/// The next column, if more have it than that so far.
fn better(counts: &HashMap<Key, u32>, best: Best, column: Column) -> Best
    ensures { result ≡ (if nat_lt best.count (unwrap_or (get same_key counts.now (key_of column)) 0) then record { column = default_of column; count = unwrap_or (get same_key counts.now (key_of column)) 0 } else best) }
{
    let count = count_of(counts, key_of(column));
    if best.count < count {
        Best {
            column: DefaultColumn {
                y: column.y,
                advance: column.advance,
            },
            count,
        }
    } else {
        best
    }
}

/// The most frequent column, of several the earliest; PDF's own of none.
pub fn most_frequent(alloc: Global, columns: &[Column]) -> Result<DefaultColumn, Error>
    requires { length columns.now ≤ 65535 }
    ensures ok { IfOk result (λ d. d ≡ most_frequent columns.now) }
    ensures err { IfErr result (λ e. e ≡ OutOfMemory) }
{
    let counts = counts_of(alloc, columns)?;
    let mut best = Best {
        column: DefaultColumn {
            y: 880,
            advance: -1000,
        },
        count: 0,
    };
    for column in columns {
        best = better(&counts, best, *column);
    }
    Ok(best.column)
}

/// The most frequent column is that of one of the columns, none is more frequent, and each one before it is rarer.
pub fn is_most_of_all()
    ensures { IsMostOfAll }
{}
