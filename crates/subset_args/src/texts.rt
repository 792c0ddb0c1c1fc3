//! The texts of mistakes.

use crate::mistakes::{Mistake, Wrong};
use crate::nearest::{Remedy, front, remedy_of};
use crate::options::joined::name_of;
use crate::options::names::{Kind, Setting, kind_of};
use plain_text::characters::plain;
use std::fmt;

/// What a list of glyphs may have.
pub const PARTS_EXPECTED: &str =
    "expected: numbers from 0 to 65535 and ranges, as 36,40-42; or * alone";

/// What a list of characters may have.
pub const CODES_EXPECTED: &str =
    "expected: hexadecimal numbers to 10FFFF and ranges, as U+0041-005A,20AC";

/// What is expected in place of a range whose ends aren't in order.
pub const ORDER_EXPECTED: &str = "expected: the lesser number first, as 10-20";

/// How many characters of an argument a line has.
const MOST: usize = 40;

/// What is expected in place of a list of too many numbers.
pub const FEW_EXPECTED: &str = "expected: at most 2000000 numbers in a list";

/// An argument as a line has it: at most 40 characters, with U+FFFD for those that a line doesn't have.
#[derive(Clone, Copy, Drop)]
pub struct Shown<'a>(pub &'a str);

impl fmt::Display for Shown<'_> {
    fn fmt<W: fmt::Write>(&self, f: &mut fmt::Formatter<W>) -> fmt::Result {
        for character in self.0.chars().take(MOST) {
            write!(f, "{}", plain(character))?;
        }
        if self.0.chars().nth(MOST).is_some() {
            return write!(f, "..");
        }
        Ok(())
    }
}

/// A name as a line has it: whole, with U+FFFD for the characters that a line doesn't have.
#[derive(Clone, Copy, Drop)]
pub struct Plain<'a>(pub &'a str);

impl fmt::Display for Plain<'_> {
    fn fmt<W: fmt::Write>(&self, f: &mut fmt::Formatter<W>) -> fmt::Result {
        for character in self.0.chars() {
            write!(f, "{}", plain(character))?;
        }
        Ok(())
    }
}

/// What a mistake's line has before the argument, and after it; none where it doesn't have the argument.
fn around(wrong: Wrong) -> (&'static str, Option<&'static str>) {
    match wrong {
        Wrong::NoInput => ("IN is missing", None),
        Wrong::NoOutput => ("OUT is missing", None),
        Wrong::NoIndex => ("INDEX is missing", None),
        Wrong::NoGlyphs => ("GID is missing", None),
        Wrong::NoBatchFile => ("FILE is missing", None),
        Wrong::NoSource => ("no option requests glyphs", None),
        Wrong::Further | Wrong::AfterShown | Wrong::AfterBatch | Wrong::BesideInput => {
            ("\"", Some("\" is one argument too many"))
        }
        Wrong::Late => ("", Some(" is after IN")),
        Wrong::ShownLate | Wrong::BatchLate => ("", Some(" isn't the first argument")),
        Wrong::Unknown => ("", Some(" is no option")),
        Wrong::Twice => ("", Some(" is given twice")),
        Wrong::NoValue => ("", Some(": its value is missing")),
        Wrong::BesideOption => ("GID \"", Some("\": an option requests the glyphs")),
        Wrong::InputTwice => ("", Some(": standard input is requested twice")),
        Wrong::Index => ("INDEX \"", Some("\" is not a face number")),
        Wrong::FaceIndex => ("--face-index: \"", Some("\" is not a face number")),
        Wrong::MostInput => ("--most-input: \"", Some("\" is not a number of bytes")),
        Wrong::Glyph => ("GID \"", Some("\" is not a glyph number")),
        Wrong::Limits => ("--limits: \"", Some("\" is not TOKENS,DEPTH[,BYTES]")),
        Wrong::Coordinate => ("--at: \"", Some("\" is not TAG=VALUE")),
        Wrong::Tag => ("--at: \"", Some("\": a tag has four letters")),
        Wrong::Codes => ("--unicodes: \"", Some("\" is not a character number")),
        Wrong::CodesDescend => ("--unicodes: the range \"", Some("\" descends")),
        Wrong::TooMany => ("", Some(": more than 2000000 numbers")),
        Wrong::Descends => ("--gids: the range \"", Some("\" descends")),
        Wrong::Part => ("--gids: \"", Some("\" is not a glyph number")),
        Wrong::Coding => ("--codes: \"", Some("\" is no kind of codes")),
        Wrong::Rights => ("--rights: \"", Some("\" is not held")),
        Wrong::NoPdf => ("", Some(": no PDF is requested")),
        Wrong::OutputTwice => ("--pdf: \"", Some("\" is OUT, too")),
        Wrong::Taken(_) => ("", Some(" is taken as the value of ")),
    }
}

/// The option that a mistake's line ends with, as most people type it.
fn option_in(wrong: Wrong) -> &'static str {
    match wrong {
        Wrong::Taken(Setting::Output) => "-o",
        Wrong::Taken(setting) => name_of(setting),
        _ => "",
    }
}

impl fmt::Display for Mistake<'_> {
    fn fmt<W: fmt::Write>(&self, f: &mut fmt::Formatter<W>) -> fmt::Result {
        let (before, following) = around(self.wrong);
        match following {
            None => write!(f, "{before}"),
            Some(following) => {
                let word = Shown(self.word);
                write!(f, "{before}{word}{following}{}", option_in(self.wrong))
            }
        }
    }
}

/// What is expected in place of a mistake.
#[derive(Clone, Copy, Drop)]
pub struct Advice<'a>(pub &'a Mistake<'a>);

impl fmt::Display for Advice<'_> {
    fn fmt<W: fmt::Write>(&self, f: &mut fmt::Formatter<W>) -> fmt::Result {
        match self.0.wrong {
            Wrong::Unknown if front(self.0.word) == "--jobs" => {
                write!(
                    f,
                    "expected: --batch FILE --jobs N, of the program that Cargo builds"
                )
            }
            Wrong::Unknown => match remedy_of(self.0.word) {
                Remedy::Apart(option) => { write!(f, "{option} and its value are two arguments") }
                Remedy::Instead(option) => write!(f, "did you mean {option}?"),
                Remedy::Manual => write!(f, "see subset_font --help"),
            },
            Wrong::Late if matches!(kind_of(self.0.word), Kind::Help | Kind::Version) => {
                write!(f, "expected: {} alone", self.0.word)
            }
            Wrong::Taken(setting) => {
                let (option, word) = (option_in(self.0.wrong), Shown(self.0.word));
                write!(
                    f,
                    "expected: a value after {option}; if {word} is it, {}={word}",
                    name_of(setting)
                )
            }
            other => write!(f, "{}", expected(other)),
        }
    }
}

/// What is expected in place of a mistake, as a line.
fn expected(wrong: Wrong) -> &'static str {
    match wrong {
        Wrong::NoInput => "expected: the file of a font, or - for standard input",
        Wrong::NoOutput => {
            "expected: a file for the new font, by -o or after IN; - is standard output"
        }
        Wrong::NoIndex | Wrong::Index | Wrong::FaceIndex => {
            "expected: the face of a collection, from 0; of other fonts 0"
        }
        Wrong::NoGlyphs => "expected: glyph numbers as 36,37,38, or an option as --text",
        Wrong::Further => "expected: IN OUT INDEX GID, with no blanks between glyph numbers",
        Wrong::AfterShown | Wrong::ShownLate => {
            "expected: --axes or --info, and then [--json] IN [INDEX]"
        }
        Wrong::NoBatchFile | Wrong::AfterBatch | Wrong::BatchLate => {
            "expected: --batch and a FILE of requests, and no more"
        }
        Wrong::Late => "expected: options before IN; with -o or --pdf also after it",
        Wrong::Unknown | Wrong::NoValue | Wrong::Taken(_) => "see subset_font --help",
        Wrong::Twice => "expected: each option at most once",
        Wrong::BesideOption => {
            "expected: GID or one of --gids, --text and --unicodes or their -file"
        }
        Wrong::InputTwice => "expected: - for IN or for FILE, not for both",
        Wrong::MostInput => "expected: a number of bytes to 4294967295",
        Wrong::Glyph =>
            "expected: numbers from 0 to 65535, with commas, as 36,37,38; ranges by --gids",
        Wrong::Limits => "expected: numbers, as 1000000,64, with DEPTH from 1 to 255",
        Wrong::Coordinate | Wrong::Tag => {
            "expected: numbers from -32768 to 32767, as wght=650,wdth=87.5, or a name"
        }
        Wrong::Part => PARTS_EXPECTED,
        Wrong::Codes => CODES_EXPECTED,
        Wrong::Descends | Wrong::CodesDescend => ORDER_EXPECTED,
        Wrong::TooMany => FEW_EXPECTED,
        Wrong::BesideInput =>
            "expected: with -o or --face-index, IN and options alone; a text with blanks in quotes",
        Wrong::Coding =>
            "expected: consecutive, source, or text (a code for each glyph and character)",
        Wrong::Rights => "expected: held, where you may embed the font whatever it says",
        Wrong::NoPdf => "expected: --pdf FILE beside it",
        Wrong::OutputTwice => "expected: two files, for the new font and for the PDF",
        Wrong::NoSource => "expected: --gids, --text, --unicodes, or a file of one",
    }
}
