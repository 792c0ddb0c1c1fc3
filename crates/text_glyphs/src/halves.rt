//! The search by halves of a number among keys that ascend.

ghost use Rattle.std.specs.Prelude.{◌≡◌, ◌≤◌, ◌<◌, ◌^◌, IfSome};
ghost use Rattle.subsetter_base.specs.Bytes.{number};
ghost use Rattle.text_glyphs.specs.Halves.{before, halves, is_up_to, key_at, last_up_to, records_there};

use subsetter_base::numbers::number_of;
use subsetter_base::read::Reader;

/// Records that begin with keys that ascend: where the first one is, how many bytes each has, and how many its key has.
#[derive(Clone, Copy)]
pub struct Records {
    pub at: usize,
    pub size: usize,
    pub width: usize,
}

/// The number of at most four bytes at an offset, if they are there.
pub fn number_in(table: &[u8], at: usize, width: usize) -> Option<u32>
    requires { width ≤ 4 }
    ensures { result ≡ number table.now at width }
{
    let bytes = Reader::new_at(table, at).read_bytes(width)?;
    Some(number_of(bytes))
}

/// Whether the key of a record is at most a number; one that isn't there is above all.
fn is_key_up_to(table: &[u8], records: Records, place: usize, wanted: u32) -> bool
    requires few { place < 2 ^ 32 }
    requires near { records.at < 2 ^ 16 }
    requires small { records.size < 2 ^ 16 }
    requires narrow { records.width ≤ 4 }
    ensures { result ≡ is_up_to wanted (key_at table.now records.at records.size records.width place) }
{
    match number_in(table, records.at + records.size * place, records.width) {
        Some(key) => key <= wanted,
        None => false,
    }
}

/// How many of `count` records are there.
fn records_there(table: &[u8], records: Records, count: u32) -> usize
    requires { 0 < records.size }
    ensures value { result ≡ records_there table.now records.at records.size count }
    ensures few { result ≤ count }
{
    let room = table.len().saturating_sub(records.at) / records.size;
    room.min(count as usize)
}

/// How many of the keys of `count` records are at most `wanted`.
#[tactic(auto, using(crate::proofs::HalfSteps::half_on, crate::proofs::HalfSteps::half_back, crate::proofs::HalfSteps::half_done, crate::proofs::HalfSteps::half_end))]
fn count_up_to(table: &[u8], records: Records, count: usize, wanted: u32) -> usize
    requires few { count < 2 ^ 32 }
    requires near { records.at < 2 ^ 16 }
    requires small { records.size < 2 ^ 16 }
    requires narrow { records.width ≤ 4 }
    ensures value { result ≡ halves (key_at table.now records.at records.size records.width) wanted 32 0 count }
    ensures within { result ≤ count }
{
    let mut low = 0;
    let mut high = count;
    for _step in 0..32u32 {
        if low >= high {
            return low;
        }
        let middle = low + (high - low) / 2;
        if is_key_up_to(table, records, middle, wanted) {
            low = middle + 1;
        } else {
            high = middle;
        }
    }
    low
}

/// The place of the last of `count` records whose key is at most `wanted`.
#[tactic(auto, unfolding(crate::specs::Halves::last_up_to))]
pub fn last_up_to(table: &[u8], records: Records, count: u32, wanted: u32) -> Option<usize>
    requires some { 0 < records.size }
    requires near { records.at < 2 ^ 16 }
    requires small { records.size < 2 ^ 16 }
    requires narrow { records.width ≤ 4 }
    ensures value { result ≡ last_up_to table.now records.at records.size records.width count wanted }
    ensures within { IfSome result (λ place. place < count) }
{
    let there = records_there(table, records, count);
    let places = count_up_to(table, records, there, wanted);
    if places == 0 {
        return None;
    }
    Some(places - 1)
}
