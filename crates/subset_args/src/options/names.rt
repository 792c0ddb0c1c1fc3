//! The options by their names.

ghost use Rattle.std.specs.Prelude.{◌≡◌};
ghost use Rattle.subset_args.specs.Options.{switch_of, setting_of, kind_of};

use crate::listing::lists::FileKind;

/// An option without a value.
#[derive(Clone, Copy)]
pub enum Switch {
    /// `--widths`
    Widths,
    /// `--no-hinting`
    NoHinting,
    /// `--no-names`
    NoNames,
    /// `--no-glyph-names`
    NoGlyphNames,
    /// `--small`
    Small,
    /// `--json`
    Json,
    /// `--quiet`
    Quiet,
    /// `--verbose`
    Verbose,
    /// `--vertical`
    Vertical,
    /// `--strict`
    Strict,
    /// `--allow-blank`
    AllowBlank,
}

/// An option that a value follows.
#[derive(Clone, Copy)]
pub enum Setting {
    /// `--limits TOKENS,DEPTH[,BYTES]`
    Limits,
    /// `--gids-file FILE`
    GidsFile,
    /// `--text TEXT`
    Text,
    /// `--at TAG=VALUE[,TAG=VALUE..]`
    At,
    /// `--gids LIST`
    Gids,
    /// `--face-index INDEX`
    FaceIndex,
    /// `-o OUT` or `--output-file OUT`
    Output,
    /// `--text-file FILE`
    TextFile,
    /// `--unicodes LIST`
    Unicodes,
    /// `--unicodes-file FILE`
    UnicodesFile,
    /// `--pdf FILE`
    Pdf,
    /// `--codes consecutive|source|text`
    Codes,
    /// `--rights held`
    Rights,
    /// `--most-input BYTES`
    MostInput,
}

/// How the glyphs of a PDF get codes.
#[derive(Clone, Copy)]
pub enum Coding {
    /// From 1 on, in order of use.
    Consecutive,
    /// The glyphs' numbers in the source.
    Source,
    /// From 1 on, one for each pair of a glyph and its text.
    Text,
}

/// Where the glyphs are found that no argument lists.
#[derive(Clone, Copy)]
pub enum Source<'a> {
    /// In the file of this name, by what it has.
    File(FileKind, &'a str),
    /// By the characters of this text.
    Text(&'a str),
    /// In this list.
    InList(&'a str),
    /// By the characters of this list.
    Characters(&'a str),
}

/// What an argument before IN is.
#[derive(Clone, Copy)]
pub enum Kind {
    Switch(Switch),
    Setting(Setting),
    /// `--help` or `-h`
    Help,
    /// `--version`
    Version,
    /// `--`, which ends the options
    End,
    /// No option: IN.
    Place,
}

/// The options with a name, in the order of the help; but `--at` is nearer than `--allow-blank`.
pub const OPTIONS: [&str; 30] = [
    "--gids",
    "--gids-file",
    "--text",
    "--text-file",
    "--unicodes",
    "--unicodes-file",
    "--strict",
    "--output-file",
    "--face-index",
    "--most-input",
    "--pdf",
    "--vertical",
    "--codes",
    "--rights",
    "--at",
    "--allow-blank",
    "--no-hinting",
    "--no-names",
    "--no-glyph-names",
    "--small",
    "--limits",
    "--widths",
    "--verbose",
    "--json",
    "--quiet",
    "--axes",
    "--info",
    "--batch",
    "--help",
    "--version",
];

/// The option without a value that an argument is.
#[tactic(auto, unfolding(crate::specs::Options::switch_of))]
fn switch_of(word: &str) -> Option<Switch>
    ensures { result ≡ switch_of word.now }
{
    match word {
        "--widths" => Some(Switch::Widths),
        "--no-hinting" => Some(Switch::NoHinting),
        "--no-names" => Some(Switch::NoNames),
        "--no-glyph-names" => Some(Switch::NoGlyphNames),
        "--small" => Some(Switch::Small),
        "--json" => Some(Switch::Json),
        "--quiet" => Some(Switch::Quiet),
        "--verbose" => Some(Switch::Verbose),
        "--vertical" => Some(Switch::Vertical),
        "--strict" => Some(Switch::Strict),
        "--allow-blank" => Some(Switch::AllowBlank),
        _ => None,
    }
}

/// The option that a value follows, which an argument is.
#[tactic(auto, unfolding(crate::specs::Options::setting_of))]
pub fn setting_of(word: &str) -> Option<Setting>
    ensures { result ≡ setting_of word.now }
{
    match word {
        "--limits" => Some(Setting::Limits),
        "--gids-file" => Some(Setting::GidsFile),
        "--text" => Some(Setting::Text),
        "--at" => Some(Setting::At),
        "--gids" => Some(Setting::Gids),
        "--face-index" => Some(Setting::FaceIndex),
        "--output-file" => Some(Setting::Output),
        "-o" => Some(Setting::Output),
        "--text-file" => Some(Setting::TextFile),
        "--unicodes" => Some(Setting::Unicodes),
        "--unicodes-file" => Some(Setting::UnicodesFile),
        "--pdf" => Some(Setting::Pdf),
        "--codes" => Some(Setting::Codes),
        "--rights" => Some(Setting::Rights),
        "--most-input" => Some(Setting::MostInput),
        _ => None,
    }
}

/// What an argument before IN is.
#[tactic(auto, unfolding(crate::specs::Options::kind_of))]
pub fn kind_of(word: &str) -> Kind
    ensures { result ≡ kind_of word.now }
{
    if let Some(switch) = switch_of(word) {
        return Kind::Switch(switch);
    }
    if let Some(setting) = setting_of(word) {
        return Kind::Setting(setting);
    }
    match word {
        "--help" => Kind::Help,
        "-h" => Kind::Help,
        "--version" => Kind::Version,
        "--" => Kind::End,
        _ => Kind::Place,
    }
}
