//! The entries of a DICT, one after the other (Technical Note 5176, section 4 "DICT Data").

ghost use Rattle.std.specs.Prelude.{◌≡◌, ◌<◌, ◌≤◌, [], ◌∷◌, length, map};
ghost use Rattle.subsetter_cffdata.specs.Views.{operator_of};

use crate::dicts::operands::{four_of, offset_of, range_of, six_of, string_of};
use crate::dicts::operator::Operator;
use crate::dicts::tokens::{EntryRead, next_operator, read_entry};
use crate::numerals::number::{Number, StringId};
use std::ops::Range;

/// Reads the entries of a DICT. The operands of an entry go into a buffer, as many as it holds.
#[derive(Drop)]
pub struct DictionaryParser<'a> {
    pub(crate) data: &'a [u8],
    pub(crate) offset: usize,
    pub(crate) operands_offset: usize,
    pub(crate) operands: &'a mut [Number],
    pub(crate) operands_len: u16,
    ghost room: { 0 < length operands.now },
    ghost few: { length operands.now < 65536 },
    ghost filled: { operands_len ≤ length operands.now },
}

impl<'a> DictionaryParser<'a> {
    ghost use Rattle.std.specs.Prelude.{ℕ, List, [], ◌≡◌, take, drop, map, IfNone};
    ghost use Rattle.std.specs.Option.{option_map};
    ghost use Rattle.subsetter_cffdata.specs.Dicts.Dict.{entry_at};
    ghost use Rattle.subsetter_cffdata.specs.Dicts.Operands.{operands_at};
    ghost use Rattle.subsetter_cffdata.specs.Dicts.ParserView.{left, entry_of, shown, ShowsEntry, string_in, offset_in, range_in, numbers_in};
    ghost use Rattle.subsetter_cffdata.specs.Dicts.Tokens.{operator_part};
    ghost use Rattle.subsetter_cffdata.specs.Views.{number_of, operator_of};

    /// At the first entry, with a buffer for operands.
    pub fn new(bytes: &'a [u8], operands: &'a mut [Number]) -> Self
        requires room { 0 < length operands.old }
        requires few { length operands.old < 65536 }
        ensures left { left result ≡ bytes.now }
        ensures same { result.data.now ≡ bytes.now }
        ensures room { length result.operands.now ≡ length operands.old }
        ensures operands { shown result ≡ [] }
    {
        DictionaryParser {
            data: bytes,
            offset: 0,
            operands_offset: 0,
            operands,
            operands_len: 0,
        }
    }

    /// Goes to the next entry, and returns its operator; None where no entry can be read, and so again at each further call.
    pub fn parse_next(&mut self) -> Option<Operator>
        ensures value { operator_part (entry_at (left self.old)) ≡ option_map (λ x. (operator_of x, left self.new)) result }
        ensures none { IfNone result (left self.new ≡ left self.old) }
        ensures operands { shown self.new ≡ shown self.old }
        ensures entry { entry_of self.new ≡ left self.old }
        ensures same { self.new.data.now ≡ self.old.data.now }
        ensures room { length self.new.operands.now ≡ length self.old.operands.now }
    {
        self.operands_offset = self.offset;
        let read = next_operator(self.data, self.offset)?;
        self.offset = read.end;
        Some(read.operator)
    }

    /// Reads the operands of the entry at an offset, as many as the buffer holds; None where no entry can be read, and then none are shown.
    fn show_at(&mut self, offset: usize) -> Option<EntryRead>
        ensures shows { option_map (λ _. shown self.new) result ≡ operands_at (length self.old.operands.now) (drop offset self.old.data.now) }
        ensures none { IfNone result (shown self.new ≡ []) }
        ensures operator { operator_part (entry_at (drop offset self.old.data.now)) ≡ option_map (λ e. (operator_of e.operator, drop e.end self.old.data.now)) result }
        ensures entry { entry_of self.new ≡ entry_of self.old }
        ensures left { left self.new ≡ left self.old }
        ensures same { self.new.data.now ≡ self.old.data.now }
        ensures room { length self.new.operands.now ≡ length self.old.operands.now }
    {
        self.operands_len = 0;
        let entry = read_entry(self.data, offset, self.operands)?;
        self.operands_len = entry.len as u16;
        Some(entry)
    }

    /// Goes to the next entry and reads its operands, as many as the buffer holds, and returns its operator; None where no
    /// entry can be read, and then none are shown.
    pub fn parse_entry(&mut self) -> Option<Operator>
        ensures value { operator_part (entry_at (left self.old)) ≡ option_map (λ x. (operator_of x, left self.new)) result }
        ensures none { IfNone result (left self.new ≡ left self.old) }
        ensures operands { option_map (λ _. shown self.new) result ≡ operands_at (length self.old.operands.now) (left self.old) }
        ensures entry { entry_of self.new ≡ left self.old }
        ensures same { self.new.data.now ≡ self.old.data.now }
        ensures room { length self.new.operands.now ≡ length self.old.operands.now }
    {
        self.operands_offset = self.offset;
        let entry = self.show_at(self.offset)?;
        self.offset = entry.end;
        Some(entry.operator)
    }

    /// Where the next entry begins.
    pub fn next_offset(&self) -> usize
        ensures { result ≡ self.now.offset }
    {
        self.offset
    }

    /// Reads the operands of the entry, as many as the buffer holds; None where no entry can be read, and then none are shown.
    pub fn parse_operands(&mut self) -> Option<()>
        ensures value { option_map (λ _. shown self.new) result ≡ operands_at (length self.old.operands.now) (entry_of self.old) }
        ensures shows { ShowsEntry self.old self.new }
    {
        self.show_at(self.operands_offset)?;
        Some(())
    }

    /// The operands that were read last: none before the first reading, and none after one that failed.
    pub fn operands(&self) -> &[Number]
        ensures { map number_of result.now ≡ shown self.now }
    {
        &self.operands[..usize::from(self.operands_len)]
    }

    /// The entry's one string number; None where it has other operands.
    pub fn parse_sid(&mut self) -> Option<StringId>
        ensures value { option_map (λ s. s.0) result ≡ string_in self.old }
        ensures shows { ShowsEntry self.old self.new }
    {
        self.parse_operands()?;
        string_of(self.operands())
    }

    /// The entry's one offset; None where it has other operands.
    pub fn parse_offset(&mut self) -> Option<usize>
        ensures value { result ≡ offset_in self.old }
        ensures shows { ShowsEntry self.old self.new }
    {
        self.parse_operands()?;
        offset_of(self.operands())
    }

    /// The entry's four numbers; None where it has other operands.
    pub fn parse_font_bbox(&mut self) -> Option<[Number; 4]>
        ensures value { option_map (map number_of) result ≡ numbers_in 4 self.old }
        ensures shows { ShowsEntry self.old self.new }
    {
        self.parse_operands()?;
        four_of(self.operands())
    }

    /// The entry's six numbers; None where it has other operands.
    pub fn parse_font_matrix(&mut self) -> Option<[Number; 6]>
        ensures value { option_map (map number_of) result ≡ numbers_in 6 self.old }
        ensures shows { ShowsEntry self.old self.new }
    {
        self.parse_operands()?;
        six_of(self.operands())
    }

    /// The entry's length and offset, as a range; None where it has other operands.
    pub fn parse_range(&mut self) -> Option<Range<usize>>
        ensures value { option_map (λ r. (r.start, r.end)) result ≡ range_in self.old }
        ensures shows { ShowsEntry self.old self.new }
    {
        self.parse_operands()?;
        range_of(self.operands())
    }
}

/// The operators whose entries are read or written (Technical Note 5176, section 9 "Top DICT Data", tables 9 and 10, and section 15 "Private DICT Data").
pub mod operators {
    use crate::dicts::operator::OperatorType::{OneByteOperator, TwoByteOperator};
    use crate::dicts::operator::{Operator, TWO_BYTE_OPERATOR_MARK};

    /// The operators of one byte.
    pub mod first_byte {
        /// The notice.
        pub const NOTICE: u8 = 1;
        /// The bounding box of the font.
        pub const FONT_BBOX: u8 = 5;
        /// The offset of the charset.
        pub const CHARSET: u8 = 15;
        /// The offset of the encoding.
        pub const ENCODING: u8 = 16;
        /// The offset of the CharStrings INDEX.
        pub const CHAR_STRINGS: u8 = 17;
        /// The length and the offset of the Private DICT.
        pub const PRIVATE: u8 = 18;
        /// The offset of the local subroutines, from the start of the Private DICT.
        pub const SUBRS: u8 = 19;
    }

    /// The second bytes of the operators of two.
    pub mod second_byte {
        /// The copyright.
        pub const COPYRIGHT: u8 = 0;
        /// The matrix of the font.
        pub const FONT_MATRIX: u8 = 7;
        /// Registry, ordering and supplement of a CID-keyed font.
        pub const ROS: u8 = 30;
        /// The number of CIDs.
        pub const CID_COUNT: u8 = 34;
        /// The offset of the Font DICT INDEX.
        pub const FD_ARRAY: u8 = 36;
        /// The offset of the FDSelect.
        pub const FD_SELECT: u8 = 37;
        /// The name of a Font DICT.
        pub const FONT_NAME: u8 = 38;
    }

    /// The notice.
    pub const NOTICE: Operator = Operator(OneByteOperator([first_byte::NOTICE]));
    /// The bounding box of the font.
    pub const FONT_BBOX: Operator = Operator(OneByteOperator([first_byte::FONT_BBOX]));
    /// The offset of the charset.
    pub const CHARSET: Operator = Operator(OneByteOperator([first_byte::CHARSET]));
    /// The offset of the encoding.
    pub const ENCODING: Operator = Operator(OneByteOperator([first_byte::ENCODING]));
    /// The offset of the CharStrings INDEX.
    pub const CHAR_STRINGS: Operator = Operator(OneByteOperator([first_byte::CHAR_STRINGS]));
    /// The length and the offset of the Private DICT.
    pub const PRIVATE: Operator = Operator(OneByteOperator([first_byte::PRIVATE]));
    /// The offset of the local subroutines, from the start of the Private DICT.
    pub const SUBRS: Operator = Operator(OneByteOperator([first_byte::SUBRS]));
    /// The copyright.
    pub const COPYRIGHT: Operator = Operator(TwoByteOperator([
        TWO_BYTE_OPERATOR_MARK,
        second_byte::COPYRIGHT,
    ]));
    /// The matrix of the font.
    pub const FONT_MATRIX: Operator = Operator(TwoByteOperator([
        TWO_BYTE_OPERATOR_MARK,
        second_byte::FONT_MATRIX,
    ]));
    /// Registry, ordering and supplement of a CID-keyed font.
    pub const ROS: Operator = Operator(TwoByteOperator([TWO_BYTE_OPERATOR_MARK, second_byte::ROS]));
    /// The number of CIDs.
    pub const CID_COUNT: Operator = Operator(TwoByteOperator([
        TWO_BYTE_OPERATOR_MARK,
        second_byte::CID_COUNT,
    ]));
    /// The offset of the Font DICT INDEX.
    pub const FD_ARRAY: Operator = Operator(TwoByteOperator([
        TWO_BYTE_OPERATOR_MARK,
        second_byte::FD_ARRAY,
    ]));
    /// The offset of the FDSelect.
    pub const FD_SELECT: Operator = Operator(TwoByteOperator([
        TWO_BYTE_OPERATOR_MARK,
        second_byte::FD_SELECT,
    ]));
    /// The name of a Font DICT.
    pub const FONT_NAME: Operator = Operator(TwoByteOperator([
        TWO_BYTE_OPERATOR_MARK,
        second_byte::FONT_NAME,
    ]));

    /// The codes of the tables.
    pub fn codes()
        ensures one_byte { map operator_of (NOTICE ∷ FONT_BBOX ∷ CHARSET ∷ ENCODING ∷ CHAR_STRINGS ∷ PRIVATE ∷ SUBRS ∷ []) ≡ (1 ∷ []) ∷ (5 ∷ []) ∷ (15 ∷ []) ∷ (16 ∷ []) ∷ (17 ∷ []) ∷ (18 ∷ []) ∷ (19 ∷ []) ∷ [] }
        ensures two_byte { map operator_of (COPYRIGHT ∷ FONT_MATRIX ∷ ROS ∷ CID_COUNT ∷ FD_ARRAY ∷ FD_SELECT ∷ FONT_NAME ∷ []) ≡ (12 ∷ 0 ∷ []) ∷ (12 ∷ 7 ∷ []) ∷ (12 ∷ 30 ∷ []) ∷ (12 ∷ 34 ∷ []) ∷ (12 ∷ 36 ∷ []) ∷ (12 ∷ 37 ∷ []) ∷ (12 ∷ 38 ∷ []) ∷ [] }
    {}
}
