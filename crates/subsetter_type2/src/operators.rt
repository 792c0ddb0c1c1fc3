//! The operators of a charstring (Technical Note 5177, appendix A "Type 2 Charstring Command Codes").

ghost use Rattle.std.specs.Prelude.{◌≡◌, [], ◌∷◌, map};
ghost use Rattle.subsetter_type2.specs.Token.{one_byte, two_byte};

use subsetter_cffdata::dicts::operator::OperatorType::{OneByteOperator, TwoByteOperator};
use subsetter_cffdata::dicts::operator::{Operator, TWO_BYTE_OPERATOR_MARK};

/// The first bytes of the tokens: an operator's code, or the mark of a number in a longer form.
pub mod first_byte {
    /// hstem.
    pub const HORIZONTAL_STEM: u8 = 1;
    /// vstem.
    pub const VERTICAL_STEM: u8 = 3;
    /// vmoveto.
    pub const VERTICAL_MOVE_TO: u8 = 4;
    /// rlineto.
    pub const LINE_TO: u8 = 5;
    /// hlineto.
    pub const HORIZONTAL_LINE_TO: u8 = 6;
    /// vlineto.
    pub const VERTICAL_LINE_TO: u8 = 7;
    /// rrcurveto.
    pub const CURVE_TO: u8 = 8;
    /// callsubr.
    pub const CALL_LOCAL_SUBROUTINE: u8 = 10;
    /// return.
    pub const RETURN: u8 = 11;
    /// endchar.
    pub const ENDCHAR: u8 = 14;
    /// hstemhm.
    pub const HORIZONTAL_STEM_HINT_MASK: u8 = 18;
    /// hintmask.
    pub const HINT_MASK: u8 = 19;
    /// cntrmask.
    pub const COUNTER_MASK: u8 = 20;
    /// rmoveto.
    pub const MOVE_TO: u8 = 21;
    /// hmoveto.
    pub const HORIZONTAL_MOVE_TO: u8 = 22;
    /// vstemhm.
    pub const VERTICAL_STEM_HINT_MASK: u8 = 23;
    /// rcurveline.
    pub const CURVE_LINE: u8 = 24;
    /// rlinecurve.
    pub const LINE_CURVE: u8 = 25;
    /// vvcurveto.
    pub const VV_CURVE_TO: u8 = 26;
    /// hhcurveto.
    pub const HH_CURVE_TO: u8 = 27;
    /// shortint: a whole number of two bytes follows.
    pub const SHORT_INT: u8 = 28;
    /// callgsubr.
    pub const CALL_GLOBAL_SUBROUTINE: u8 = 29;
    /// vhcurveto.
    pub const VH_CURVE_TO: u8 = 30;
    /// hvcurveto.
    pub const HV_CURVE_TO: u8 = 31;
    /// A number of 65536ths of four bytes follows.
    pub const FIXED_16_16: u8 = 255;
    /// The least first byte of a number in one or two bytes.
    pub const LEAST_NUMBER: u8 = 32;
}

/// The second bytes of the operators of two bytes.
pub mod second_byte {
    /// hflex.
    pub const HFLEX: u8 = 34;
    /// flex.
    pub const FLEX: u8 = 35;
    /// hflex1.
    pub const HFLEX1: u8 = 36;
    /// flex1.
    pub const FLEX1: u8 = 37;
}

/// hstem (1): the edges of horizontal stems.
pub const HORIZONTAL_STEM: Operator = Operator(OneByteOperator([first_byte::HORIZONTAL_STEM]));

/// vstem (3): the edges of vertical stems.
pub const VERTICAL_STEM: Operator = Operator(OneByteOperator([first_byte::VERTICAL_STEM]));

/// vmoveto (4): the point moves vertically, and a subpath begins there.
pub const VERTICAL_MOVE_TO: Operator = Operator(OneByteOperator([first_byte::VERTICAL_MOVE_TO]));

/// rlineto (5): lines.
pub const LINE_TO: Operator = Operator(OneByteOperator([first_byte::LINE_TO]));

/// hlineto (6): lines, horizontal and vertical alternating, the first horizontal.
pub const HORIZONTAL_LINE_TO: Operator = Operator(OneByteOperator([
    first_byte::HORIZONTAL_LINE_TO,
]));

/// vlineto (7): lines, vertical and horizontal alternating, the first vertical.
pub const VERTICAL_LINE_TO: Operator = Operator(OneByteOperator([first_byte::VERTICAL_LINE_TO]));

/// rrcurveto (8): Bézier curves.
pub const CURVE_TO: Operator = Operator(OneByteOperator([first_byte::CURVE_TO]));

/// callsubr (10): on in a local subroutine, whose number is on the stack.
pub const CALL_LOCAL_SUBROUTINE: Operator = Operator(OneByteOperator([
    first_byte::CALL_LOCAL_SUBROUTINE,
]));

/// return (11): back to the caller.
pub const RETURN: Operator = Operator(OneByteOperator([first_byte::RETURN]));

/// endchar (14): the glyph ends.
pub const ENDCHAR: Operator = Operator(OneByteOperator([first_byte::ENDCHAR]));

/// hstemhm (18): the edges of horizontal stems, in a glyph with hint masks.
pub const HORIZONTAL_STEM_HINT_MASK: Operator = Operator(OneByteOperator([
    first_byte::HORIZONTAL_STEM_HINT_MASK,
]));

/// hintmask (19): which stems count from here on, by the bits of the bytes after it.
pub const HINT_MASK: Operator = Operator(OneByteOperator([first_byte::HINT_MASK]));

/// cntrmask (20): between which stems white space is controlled, by the bits of the bytes after it.
pub const COUNTER_MASK: Operator = Operator(OneByteOperator([first_byte::COUNTER_MASK]));

/// rmoveto (21): the point moves, and a subpath begins there.
pub const MOVE_TO: Operator = Operator(OneByteOperator([first_byte::MOVE_TO]));

/// hmoveto (22): the point moves horizontally, and a subpath begins there.
pub const HORIZONTAL_MOVE_TO: Operator = Operator(OneByteOperator([
    first_byte::HORIZONTAL_MOVE_TO,
]));

/// vstemhm (23): the edges of vertical stems, in a glyph with hint masks.
pub const VERTICAL_STEM_HINT_MASK: Operator = Operator(OneByteOperator([
    first_byte::VERTICAL_STEM_HINT_MASK,
]));

/// rcurveline (24): curves, and then a line.
pub const CURVE_LINE: Operator = Operator(OneByteOperator([first_byte::CURVE_LINE]));

/// rlinecurve (25): lines, and then a curve.
pub const LINE_CURVE: Operator = Operator(OneByteOperator([first_byte::LINE_CURVE]));

/// vvcurveto (26): curves that begin and end vertical.
pub const VV_CURVE_TO: Operator = Operator(OneByteOperator([first_byte::VV_CURVE_TO]));

/// hhcurveto (27): curves that begin and end horizontal.
pub const HH_CURVE_TO: Operator = Operator(OneByteOperator([first_byte::HH_CURVE_TO]));

/// shortint (28): no operator; a whole number of two bytes follows.
pub const SHORT_INT: Operator = Operator(OneByteOperator([first_byte::SHORT_INT]));

/// callgsubr (29): on in a global subroutine, whose number is on the stack.
pub const CALL_GLOBAL_SUBROUTINE: Operator = Operator(OneByteOperator([
    first_byte::CALL_GLOBAL_SUBROUTINE,
]));

/// vhcurveto (30): curves that begin vertical and horizontal alternating, the first vertical.
pub const VH_CURVE_TO: Operator = Operator(OneByteOperator([first_byte::VH_CURVE_TO]));

/// hvcurveto (31): curves that begin horizontal and vertical alternating, the first horizontal.
pub const HV_CURVE_TO: Operator = Operator(OneByteOperator([first_byte::HV_CURVE_TO]));

/// hflex (12 34): two curves that are drawn as one line where their depth is below half a pixel. The ends and the control points next to them have one height, the joint and its neighbours another.
pub const HFLEX: Operator = Operator(TwoByteOperator([TWO_BYTE_OPERATOR_MARK, second_byte::HFLEX]));

/// flex (12 35): such curves with any points, and the depth, in hundredths of a pixel, below which they are a line.
pub const FLEX: Operator = Operator(TwoByteOperator([TWO_BYTE_OPERATOR_MARK, second_byte::FLEX]));

/// hflex1 (12 36): such curves by half a pixel. The two ends have one height, the joint and its neighbours another.
pub const HFLEX1: Operator = Operator(TwoByteOperator([
    TWO_BYTE_OPERATOR_MARK,
    second_byte::HFLEX1,
]));

/// flex1 (12 37): such curves by half a pixel. The two ends have one height or one x.
pub const FLEX1: Operator = Operator(TwoByteOperator([TWO_BYTE_OPERATOR_MARK, second_byte::FLEX1]));

/// No operator (255): a number of 65536ths follows, of four bytes.
pub const FIXED_16_16: Operator = Operator(OneByteOperator([first_byte::FIXED_16_16]));

/// The codes of the appendix.
pub fn codes()
    ensures one_byte { HORIZONTAL_STEM ∷ VERTICAL_STEM ∷ VERTICAL_MOVE_TO ∷ LINE_TO ∷ HORIZONTAL_LINE_TO ∷ VERTICAL_LINE_TO ∷ CURVE_TO ∷ CALL_LOCAL_SUBROUTINE ∷ RETURN ∷ ENDCHAR ∷ HORIZONTAL_STEM_HINT_MASK ∷ HINT_MASK ∷ COUNTER_MASK ∷ MOVE_TO ∷ HORIZONTAL_MOVE_TO ∷ VERTICAL_STEM_HINT_MASK ∷ CURVE_LINE ∷ LINE_CURVE ∷ VV_CURVE_TO ∷ HH_CURVE_TO ∷ SHORT_INT ∷ CALL_GLOBAL_SUBROUTINE ∷ VH_CURVE_TO ∷ HV_CURVE_TO ∷ FIXED_16_16 ∷ [] ≡ map one_byte (1 ∷ 3 ∷ 4 ∷ 5 ∷ 6 ∷ 7 ∷ 8 ∷ 10 ∷ 11 ∷ 14 ∷ 18 ∷ 19 ∷ 20 ∷ 21 ∷ 22 ∷ 23 ∷ 24 ∷ 25 ∷ 26 ∷ 27 ∷ 28 ∷ 29 ∷ 30 ∷ 31 ∷ 255 ∷ []) }
    ensures two_byte { HFLEX ∷ FLEX ∷ HFLEX1 ∷ FLEX1 ∷ [] ≡ map two_byte (34 ∷ 35 ∷ 36 ∷ 37 ∷ []) }
{}
