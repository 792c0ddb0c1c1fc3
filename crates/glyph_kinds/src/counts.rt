//! How many glyphs have each kind of pictures.

ghost use Rattle.std.specs.Prelude.{◌≡◌, ◌≤◌, ◌<◌, length};
ghost use Rattle.glyph_kinds.specs.Counts.{count_of, has_kind, kind_counts};

/// Whether a glyph has a kind, by what `kinds_of` returns.
fn has_kind(kind: u8, kinds: u32) -> bool
    requires { kind < 32 }
    ensures { result ≡ has_kind kind kinds }
{
    (kinds >> u32::from(kind)) % 2 == 1
}

/// How many glyphs have a kind.
fn count_of(all: &[u32], kind: u8) -> usize
    requires { kind < 32 }
    ensures value { result ≡ count_of all.now kind }
    ensures bound { result ≤ length all.now }
{
    let mut count = 0;
    for kinds in all {
        if has_kind(kind, *kinds) {
            count += 1;
        }
    }
    count
}

/// Each kind by its bit, with how many glyphs have it by what `kinds_of` returns.
pub fn kind_counts(all: &[u32]) -> [(u8, usize); 17]
    ensures { result ≡ kind_counts all.now }
{
    [
        (0, count_of(all, 0)),
        (1, count_of(all, 1)),
        (2, count_of(all, 2)),
        (3, count_of(all, 3)),
        (4, count_of(all, 4)),
        (5, count_of(all, 5)),
        (6, count_of(all, 6)),
        (7, count_of(all, 7)),
        (8, count_of(all, 8)),
        (9, count_of(all, 9)),
        (10, count_of(all, 10)),
        (11, count_of(all, 11)),
        (12, count_of(all, 12)),
        (13, count_of(all, 13)),
        (14, count_of(all, 14)),
        (15, count_of(all, 15)),
        (16, count_of(all, 16)),
    ]
}
