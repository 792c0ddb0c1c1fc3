//! Tables of format 12.

ghost use Rattle.std.specs.Prelude.{◌≡◌, ◌+◌, ◌-◌, ◌≤◌, length};
ghost use Rattle.cmap.specs.Groups.{group_of, has, in_range, by_groups, glyph_by_groups};

use subsetter_base::read::{Reader, u32_at};

/// numGroups, four bytes.
pub(crate) const NUM_GROUPS: usize = 12;
/// groups.
pub(crate) const GROUPS: usize = 16;
/// How many bytes a group has.
pub(crate) const SEQUENTIAL_MAP_GROUP_SIZE: usize = 12;

/// A range of characters, and the glyph of its first.
#[derive(Clone, Copy)]
pub(crate) struct Group {
    pub(crate) start: u32,
    pub(crate) end: u32,
    pub(crate) glyph: u32,
}

/// The group that twelve bytes spell.
pub(crate) fn group_of(bytes: &[u8]) -> Group
    requires { length bytes.now ≡ 12 }
    ensures { record { start = result.start; end = result.end; glyph = result.glyph } ≡ group_of bytes.now }
{
    Group {
        start: u32_at(bytes, 0),
        end: u32_at(bytes, 4),
        glyph: u32_at(bytes, 8),
    }
}

impl Group {
    /// Whether a character lies in the group.
    pub(crate) fn has(&self, character: u32) -> bool
        ensures { result ≡ has (record { start = self.now.start; end = self.now.end; glyph = self.now.glyph }) character }
    {
        self.start <= character && character <= self.end
    }

    /// The glyph of a character of the group.
    pub(crate) fn glyph_of(&self, character: u32) -> Option<u16>
        requires { self.now.start ≤ character }
        ensures { result ≡ in_range (self.now.glyph + (character - self.now.start)) }
    {
        let glyph = u64::from(self.glyph) + u64::from(character - self.start);
        u16::try_from(glyph).ok()
    }
}

/// The glyph of a character, by a table of format 12.
pub fn glyph_by_groups(table: &[u8], character: u32) -> Option<u16>
    ensures { result ≡ glyph_by_groups table.now character }
{
    let count = Reader::new_at(table, NUM_GROUPS).read::<u32>()?;
    find_glyph(table, count, character)
}

/// The glyph of a character, by the first `count` groups.
#[tactic(auto, using(crate::proofs::Steps::groups_none, crate::proofs::Steps::groups_here, crate::proofs::Steps::groups_on, crate::proofs::Steps::groups_end))]
fn find_glyph(table: &[u8], count: u32, character: u32) -> Option<u16>
    ensures { result ≡ by_groups table.now count 16 character }
{
    for place in 0..count {
        let bytes = Reader::new_at(
            table,
            GROUPS + SEQUENTIAL_MAP_GROUP_SIZE * (place as usize),
        ).read_bytes(SEQUENTIAL_MAP_GROUP_SIZE)?;
        let group = group_of(bytes);
        if group.has(character) {
            return group.glyph_of(character);
        }
    }
    None
}
