//! Tables of format 12 whose groups ascend, as OpenType asks: a character's group is found by halves.

ghost use Rattle.std.specs.Prelude.{◌≡◌, ◌+◌, ◌*◌, ◌<◌, ◌≤◌, ℕ, length, IsTrue};
ghost use Rattle.cmap.specs.Groups.{by_groups, group_at};
ghost use Rattle.cmap.specs.Halves.{AreAscending, AreThere};

use crate::groups::{GROUPS, Group, SEQUENTIAL_MAP_GROUP_SIZE, group_of};

/// How many of that many groups are there.
pub(crate) fn groups_there(table: &[u8], count: u32) -> usize
    ensures { AreThere table.now count result }
{
    let room = table.len().saturating_sub(GROUPS) / SEQUENTIAL_MAP_GROUP_SIZE;
    room.min(count as usize)
}

/// The group at a place.
#[tactic(auto, unfolding(crate::specs::Groups::group_at))]
fn group_at(table: &[u8], place: usize) -> Group
    requires { 16 + 12 * place + 12 ≤ length table.now }
    ensures { record { start = result.start; end = result.end; glyph = result.glyph } ≡ group_at table.now place }
{
    let at = GROUPS + SEQUENTIAL_MAP_GROUP_SIZE * place;
    group_of(&table[at..at + SEQUENTIAL_MAP_GROUP_SIZE])
}

/// Whether the starts and the ends of that many groups ascend.
pub(crate) fn ascend(table: &[u8], there: usize) -> bool
    requires { (k : ℕ) → k < there → 16 + 12 * k + 12 ≤ length table.now }
    ensures { IsTrue result → AreAscending table.now there }
{
    let mut start = 0;
    let mut end = 0;
    for place in 0..there {
        let group = group_at(table, place);
        if group.start < start || group.end < end {
            return false;
        }
        start = group.start;
        end = group.end;
    }
    true
}

/// The place of the first group that doesn't end below a character; the count where there is none.
fn first_group(table: &[u8], there: usize, character: u32) -> usize
    requires room { (k : ℕ) → k < there → 16 + 12 * k + 12 ≤ length table.now }
    requires ascending { AreAscending table.now there }
    ensures within { result ≤ there }
    ensures before { (j : ℕ) → j < result → (group_at table.now j).end < character }
    ensures here { result < there → character ≤ (group_at table.now result).end }
{
    let mut low = 0;
    let mut high = there;
    while low < high {
        let middle = low + (high - low) / 2;
        if group_at(table, middle).end < character {
            low = middle + 1;
        } else {
            high = middle;
        }
    }
    low
}

/// The glyph of a character, by groups that ascend.
pub(crate) fn find_by_halves(table: &[u8], count: u32, there: usize, character: u32) -> Option<u16>
    requires there { AreThere table.now count there }
    requires ascending { AreAscending table.now there }
    ensures { result ≡ by_groups table.now count 16 character }
{
    let place = first_group(table, there, character);
    if place >= there {
        return None;
    }
    let group = group_at(table, place);
    if group.start > character {
        return None;
    }
    group.glyph_of(character)
}
