//! Words that are no option by themselves: `--name=value`, and those that begin as an option does.

ghost use Rattle.std.specs.Prelude.{◌≡◌, Some};
ghost use Rattle.std.specs.Option.{option_map};
ghost use Rattle.subset_args.specs.Forms.{topic_of, is_batch, looks_like_option, long_setting, joined, not_first, wrong_place, wrong_after, is_option, says_position, ends_options, taken};
ghost use Rattle.subset_args.specs.Mistakes.{fault_view};
ghost use Rattle.subset_args.specs.View.{given_view, words_view};

use crate::jobs::command::Topic;
use crate::mistakes::{Mistake, Wrong, mistake_in};
use crate::nearest::front;
use crate::options::names::{Kind, Setting, kind_of, setting_of};

/// What an argument shows, if it is first.
pub fn topic_of(word: &str) -> Option<Topic>
    ensures { result ≡ topic_of word.now }
{
    match word {
        "--axes" => Some(Topic::Axes),
        "--info" => Some(Topic::Info),
        _ => None,
    }
}

/// Whether an argument is `--batch`.
pub fn is_batch(word: &str) -> bool
    ensures { result ≡ is_batch word.now }
{
    word == "--batch"
}

/// Whether an argument begins with a minus, and has more.
pub fn looks_like_option(word: &str) -> bool
    ensures { result ≡ looks_like_option word.now }
{
    matches!(word.as_bytes(), [b'-', _, ..])
}

/// An option, the word that it is, and its value.
#[derive(Clone, Copy)]
pub struct Given<'a> {
    pub setting: Setting,
    pub word: &'a str,
    pub value: &'a str,
}

/// The option with a long name that a word is, and that a value follows.
fn long_setting(word: &str) -> Option<Setting>
    ensures { result ≡ long_setting word.now }
{
    if word == "-o" { None } else { setting_of(word) }
}

/// An option and its value in one word, as `--text=ABC`.
pub fn joined(word: &str) -> Option<Given<'_>>
    ensures { option_map given_view result ≡ joined word.now }
{
    let (name, value) = word.split_once('=')?;
    match long_setting(name) {
        Some(setting) => Some(Given {
            setting,
            word: name,
            value,
        }),
        None => None,
    }
}

/// What is wrong with `--axes`, `--info`, `--batch` and `--batch=FILE` where they aren't first.
fn not_first(word: &str) -> Option<Wrong>
    ensures { result ≡ not_first word.now }
{
    if topic_of(word).is_some() {
        return Some(Wrong::ShownLate);
    }
    if is_batch(front(word)) {
        return Some(Wrong::BatchLate);
    }
    None
}

/// What is wrong with an argument that is no other option, by itself.
pub fn wrong_place(word: &str) -> Option<Wrong>
    ensures { result ≡ wrong_place word.now }
{
    if let Some(wrong) = not_first(word) {
        return Some(wrong);
    }
    if looks_like_option(word) {
        return Some(Wrong::Unknown);
    }
    None
}

/// Whether it is an option.
pub fn is_option(kind: Kind) -> bool
    ensures { result ≡ is_option kind }
{
    match kind {
        Kind::Switch(_) => true,
        Kind::Setting(_) => true,
        Kind::Help => true,
        Kind::Version => true,
        Kind::End => false,
        Kind::Place => false,
    }
}

/// What is wrong with an argument after IN that is an option.
pub fn wrong_after(word: &str) -> Option<Wrong>
    ensures { result ≡ wrong_after word.now }
{
    if is_option(kind_of(word)) || joined(word).is_some() {
        return Some(Wrong::Late);
    }
    not_first(word)
}

/// Whether an argument says OUT or INDEX, as `-o`, `-oFILE` or `--face-index=0`.
pub fn says_position(word: &str) -> bool
    ensures { result ≡ says_position word.now }
{
    let name = front(word);
    name == "--output-file"
        || (name == "--face-index" || matches!(word.as_bytes(), [b'-', b'o', ..]))
}

/// The long name of an option that a value follows.
#[tactic(auto, unfolding(crate::specs::Options::setting_of))]
pub fn name_of(setting: Setting) -> &'static str
    ensures { long_setting result.now ≡ Some setting }
{
    match setting {
        Setting::Limits => "--limits",
        Setting::GidsFile => "--gids-file",
        Setting::Text => "--text",
        Setting::At => "--at",
        Setting::Gids => "--gids",
        Setting::FaceIndex => "--face-index",
        Setting::Output => "--output-file",
        Setting::TextFile => "--text-file",
        Setting::Unicodes => "--unicodes",
        Setting::UnicodesFile => "--unicodes-file",
        Setting::Pdf => "--pdf",
        Setting::Codes => "--codes",
        Setting::Rights => "--rights",
        Setting::MostInput => "--most-input",
    }
}

/// Whether no word after it is an option.
fn ends_options(word: &str) -> bool
    ensures { result ≡ ends_options word.now }
{
    word == "--" || not_first(word).is_some()
}

/// The first option whose value is one, too.
pub fn taken(words: &[String]) -> Option<Mistake<'_>>
    ensures { option_map fault_view result ≡ taken (words_view words.now) }
{
    let mut rest = words;
    while let [word, others @ ..] = rest {
        let [value, following @ ..] = others else {
            return None;
        };
        match setting_of(word) {
            Some(setting) => {
                if wrong_after(value).is_some() {
                    return Some(mistake_in(Wrong::Taken(setting), value));
                }
                rest = following;
            }
            None => {
                if ends_options(word) {
                    return None;
                }
                rest = others;
            }
        }
    }
    None
}
