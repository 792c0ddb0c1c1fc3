//! What can be known of a refusal, and its text.

use font_reasons::Reason;
use std::fmt;

/// What more is known of a refusal.
#[derive(Clone, Copy, Drop)]
pub enum Hint {
    /// What the tables of the font show.
    Font(Reason),
    /// The outlines are those of `CFF2`, and no coordinates are given.
    Cff2,
    /// `fvar` can't be read.
    WrongAxes,
    /// The face has no `fvar`.
    NoAxes,
    /// The new font has more bytes than these.
    MoreBytes(u32),
    /// A glyph needs more tokens than these, or a greater depth.
    LittleLimits(u32, u8),
    /// Limits are given, of which twice as much doesn't serve.
    GivenLimits,
    /// `fsType` forbids to embed a subset.
    Forbidden(Reason),
}

/// That a glyph needs more tokens or more depth than this.
#[derive(Clone, Copy)]
struct LimitsText(u32, u8);

impl fmt::Display for LimitsText {
    ghost use Rattle.std.specs.Prelude.{Some};
    ghost use Rattle.subset_font.specs.Refusals.Texts.{limits_text};

    ghost output = { λ it. Some (limits_text it.0 it.1) };

    fn fmt<W: fmt::Write>(&self, f: &mut fmt::Formatter<W>) -> fmt::Result {
        let LimitsText(tokens, depth) = *self;
        write!(
            f,
            "a glyph needs more than the {tokens},{depth} of --limits"
        )
    }
}

impl fmt::Display for Hint {
    ghost use Rattle.std.specs.Prelude.{Some};
    ghost use Rattle.subset_font.specs.Refusals.Texts.{hint_text};

    ghost output = { λ hint. Some (hint_text hint) };

    fn fmt<W: fmt::Write>(&self, f: &mut fmt::Formatter<W>) -> fmt::Result {
        match *self {
            Hint::Font(reason) => write!(f, "{reason}"),
            Hint::Cff2 => { f.write_str("CFF2: choose coordinates by --at; \"\" is the default") }
            Hint::WrongAxes => f.write_str("fvar: the table can't be read"),
            Hint::NoAxes => f.write_str("no axes in the font"),
            Hint::MoreBytes(most) => {
                write!(f, "the new font has more than the {most} bytes of --limits")
            }
            Hint::LittleLimits(tokens, depth) => write!(f, "{}", LimitsText(tokens, depth)),
            Hint::GivenLimits => {
                f.write_str("twice the given --limits is too little, too, or the font is wrong")
            }
            Hint::Forbidden(reason) => {
                write!(f, "{reason}: if you hold the rights, --rights held")
            }
        }
    }
}
