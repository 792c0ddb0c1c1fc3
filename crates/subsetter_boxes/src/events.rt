//! The operators of a charstring that draw (Technical Note 5177, section 4).

ghost use Rattle.std.specs.Prelude.{◌≡◌, All, Some};
ghost use Rattle.std.specs.Option.{option_and_then};
ghost use Rattle.subsetter_blend.specs.Drawing.{flex_drawn, path_drawn, path_of, type_drawn};
ghost use Rattle.subsetter_blend.specs.Runs.Number.{IsWithin};
ghost use Rattle.subsetter_blend.specs.Writing.Placed.{IsPosition};
ghost use Rattle.subsetter_boxes.specs.Traced.{pen_start, traced, IsHeld};

use crate::flexes::{flex1, hflex, hflex1};
use crate::paths::{
    alternating_curves, alternating_lines, curves, curves_line, hh_curves, lines, lines_curve,
    moves, moves_along, vv_curves,
};
use crate::pen::Pen;
use std::marker::Model;
use subsetter_base::Error;
use subsetter_blend::writing::placing::Position;
use subsetter_blend::writing::taking::Takes;
use subsetter_cffdata::dicts::operator::{Operator, OperatorType};
use subsetter_points::Bounds;
use subsetter_type2::operators::{first_byte, second_byte};

/// The operator of this byte; all others draw nothing.
fn path(pen: Pen, first: u8, operands: &[i64]) -> Option<Pen>
    requires at { IsPosition pen.at }
    requires within { All IsWithin operands.now }
    ensures value { result ≡ traced (path_drawn (path_of first) pen.at operands.now) pen }
    ensures held { IsHeld result }
{
    match first {
        first_byte::MOVE_TO => moves(pen, operands),
        first_byte::HORIZONTAL_MOVE_TO => moves_along(false, pen, operands),
        first_byte::VERTICAL_MOVE_TO => moves_along(true, pen, operands),
        first_byte::LINE_TO => lines(pen, operands),
        first_byte::HORIZONTAL_LINE_TO => alternating_lines(false, pen, operands),
        first_byte::VERTICAL_LINE_TO => alternating_lines(true, pen, operands),
        first_byte::CURVE_TO => curves(pen, operands),
        first_byte::CURVE_LINE => curves_line(pen, operands),
        first_byte::LINE_CURVE => lines_curve(pen, operands),
        first_byte::VV_CURVE_TO => vv_curves(pen, operands),
        first_byte::HH_CURVE_TO => hh_curves(pen, operands),
        first_byte::VH_CURVE_TO => alternating_curves(true, pen, operands),
        first_byte::HV_CURVE_TO => alternating_curves(false, pen, operands),
        _ => Some(pen),
    }
}

/// The form of flex of this second byte.
fn flex(pen: Pen, second: u8, operands: &[i64]) -> Option<Pen>
    requires at { IsPosition pen.at }
    requires within { All IsWithin operands.now }
    ensures value { result ≡ traced (flex_drawn second pen.at operands.now) pen }
    ensures held { IsHeld result }
{
    match second {
        second_byte::HFLEX => hflex(pen, operands),
        second_byte::HFLEX1 => hflex1(pen, operands),
        second_byte::FLEX1 => flex1(pen, operands),
        _ => curves(pen, operands),
    }
}

/// What an operator draws.
fn follow(pen: Pen, operator: OperatorType, operands: &[i64]) -> Option<Pen>
    requires at { IsPosition pen.at }
    requires within { All IsWithin operands.now }
    ensures value { result ≡ traced (type_drawn operator pen.at operands.now) pen }
    ensures held { IsHeld result }
{
    match operator {
        OperatorType::OneByteOperator(code) => match code {
            [first] => path(pen, first, operands),
        },
        OperatorType::TwoByteOperator(code) => match code {
            [_, second] => flex(pen, second, operands),
        },
    }
}

/// The pen, as long as each point is of 16 bits.
#[derive(Drop)]
pub struct Following {
    pub pen: Option<Pen>,
}

impl Model for Following {
    ghost use Rattle.std.specs.Prelude.{Option};
    ghost use Rattle.subsetter_boxes.specs.declared.pen.Pen.{Pen};
    ghost use Rattle.subsetter_boxes.specs.Traced.{IsHeld};

    ghost Value = { Option Pen };

    ghost view = { λ f. f.pen };

    ghost invariant = { λ f. IsHeld f.pen };
}

impl Following {
    /// The path begins, without a point.
    pub fn new() -> Self
        ensures { result ≡ Some pen_start }
    {
        Following {
            pen: Some(Pen {
                at: Position { x: 0, y: 0 },
                bounds: None,
            }),
        }
    }

    /// The least box around all points.
    pub fn bounds(&self) -> Option<Bounds>
        ensures { result ≡ option_and_then (λ p. p.bounds) self.now }
    {
        self.pen?.bounds
    }
}

impl Takes for Following {
    ghost use Rattle.subsetter_boxes.specs.Traced.{taken};

    ghost taken = { λ e pen. taken e pen };

    fn take(&mut self, operator: Operator, operands: &[i64], _mask: &[u8]) -> Result<(), Error> {
        if let Some(pen) = self.pen {
            self.pen = follow(pen, operator.0, operands);
        }
        Ok(())
    }
}
