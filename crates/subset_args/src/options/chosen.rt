//! What options choose.

ghost use Rattle.std.specs.Prelude.{◌≡◌};
ghost use Rattle.subset_args.specs.Mistakes.{read_view};
ghost use Rattle.subset_args.specs.Options.{is_on, switched_on, with_switch, with_source, with_setting};
ghost use Rattle.subset_args.specs.View.{source_view, chosen_view};

use crate::limits::RunLimits;
use crate::listing::lists::FileKind;
use crate::mistakes::{Mistake, Wrong, mistake_in};
use crate::options::names::{Coding, Setting, Source, Switch};
use crate::options::sources::Sources;
use crate::options::values::{coding_of, holds_rights, limits_of};
use crate::words::u32_of;

/// The options without a value that were given.
#[derive(Clone, Copy)]
pub struct Switches {
    pub widths: bool,
    pub no_hinting: bool,
    pub no_names: bool,
    pub no_glyph_names: bool,
    pub small: bool,
    pub json: bool,
    pub quiet: bool,
    pub verbose: bool,
    pub vertical: bool,
    pub strict: bool,
    pub allow_blank: bool,
}

impl Switches {
    /// None of them.
    pub const NONE: Switches = Switches {
        widths: false,
        no_hinting: false,
        no_names: false,
        no_glyph_names: false,
        small: false,
        json: false,
        quiet: false,
        verbose: false,
        vertical: false,
        strict: false,
        allow_blank: false,
    };

    /// Whether an option was given.
    fn is_on(&self, switch: Switch) -> bool
        ensures { result ≡ is_on switch self.now }
    {
        match switch {
            Switch::Widths => self.widths,
            Switch::NoHinting => self.no_hinting,
            Switch::NoNames => self.no_names,
            Switch::NoGlyphNames => self.no_glyph_names,
            Switch::Small => self.small,
            Switch::Json => self.json,
            Switch::Quiet => self.quiet,
            Switch::Verbose => self.verbose,
            Switch::Vertical => self.vertical,
            Switch::Strict => self.strict,
            Switch::AllowBlank => self.allow_blank,
        }
    }

    /// With an option that is given.
    fn switched_on(self, switch: Switch) -> Switches
        ensures { result ≡ switched_on switch self }
    {
        let mut all = self;
        match switch {
            Switch::Widths => all.widths = true,
            Switch::NoHinting => all.no_hinting = true,
            Switch::NoNames => all.no_names = true,
            Switch::NoGlyphNames => all.no_glyph_names = true,
            Switch::Small => all.small = true,
            Switch::Json => all.json = true,
            Switch::Quiet => all.quiet = true,
            Switch::Verbose => all.verbose = true,
            Switch::Vertical => all.vertical = true,
            Switch::Strict => all.strict = true,
            Switch::AllowBlank => all.allow_blank = true,
        }
        all
    }
}

/// How a PDF is made.
#[derive(Clone, Copy)]
pub struct PdfChoice {
    /// Whether its text runs from top to bottom.
    pub vertical: bool,
    /// How its glyphs get codes, if that is given.
    pub coding: Option<Coding>,
    /// Whether the user holds the rights to embed the font, whatever it says.
    pub is_held: bool,
    /// Whether it may show blanks of glyphs that have another picture than an outline.
    pub allow_blank: bool,
}

/// What the options choose.
#[derive(Clone, Copy)]
pub struct Chosen<'a> {
    /// The options without a value.
    pub switches: Switches,
    /// How far the charstring of a glyph may run, if that is given.
    pub limits: Option<RunLimits>,
    /// Where the glyphs are found.
    pub sources: Sources<'a>,
    /// Where on the axes of a variable font, if that is given.
    pub at: Option<&'a str>,
    /// OUT, if an option gives it.
    pub output: Option<&'a str>,
    /// INDEX, if an option gives it.
    pub index: Option<u32>,
    /// The most bytes of IN, if that is given.
    pub most_input: Option<u32>,
    /// The file of a PDF, if one is requested.
    pub pdf: Option<&'a str>,
    /// How its glyphs get codes, if that is given.
    pub coding: Option<Coding>,
    /// Whether the user holds the rights to embed the font.
    pub is_held: bool,
}

impl<'a> Chosen<'a> {
    /// Nothing is chosen.
    pub const NOTHING: Chosen<'static> = Chosen {
        switches: Switches::NONE,
        limits: None,
        sources: Sources::NOWHERE,
        at: None,
        output: None,
        index: None,
        most_input: None,
        pdf: None,
        coding: None,
        is_held: false,
    };

    /// With an option without a value.
    pub fn with_switch(self, switch: Switch, word: &'a str) -> Result<Chosen<'a>, Mistake<'a>>
        ensures { read_view chosen_view result ≡ with_switch switch word.now (chosen_view self.entry) }
    {
        if self.switches.is_on(switch) {
            return Err(mistake_in(Wrong::Twice, word));
        }
        Ok(Chosen {
            switches: self.switches.switched_on(switch),
            ..self
        })
    }

    /// With an option, which is this word, and its value.
    pub fn with_setting(
        self,
        setting: Setting,
        word: &'a str,
        value: &'a str,
    ) -> Result<Chosen<'a>, Mistake<'a>>
        ensures { read_view chosen_view result ≡ with_setting setting word.now value.now (chosen_view self.entry) }
    {
        match setting {
            Setting::Limits => self.with_limits(word, value),
            Setting::GidsFile => self.with_source(word, Source::File(FileKind::Glyphs, value)),
            Setting::Text => self.with_source(word, Source::Text(value)),
            Setting::At => self.with_at(word, value),
            Setting::Gids => self.with_source(word, Source::InList(value)),
            Setting::FaceIndex => self.with_index(word, value),
            Setting::Output => self.with_output(word, value),
            Setting::TextFile => self.with_source(word, Source::File(FileKind::Text, value)),
            Setting::Unicodes => self.with_source(word, Source::Characters(value)),
            Setting::UnicodesFile => {
                self.with_source(word, Source::File(FileKind::Characters, value))
            }
            Setting::Pdf => self.with_pdf(word, value),
            Setting::Codes => self.with_coding(word, value),
            Setting::Rights => self.with_rights(word, value),
            Setting::MostInput => self.with_most_input(word, value),
        }
    }

    /// With limits.
    fn with_limits(self, word: &'a str, value: &'a str) -> Result<Chosen<'a>, Mistake<'a>>
        ensures { read_view chosen_view result ≡ with_setting Setting.Limits word.now value.now (chosen_view self.entry) }
    {
        if self.limits.is_some() {
            return Err(mistake_in(Wrong::Twice, word));
        }
        match limits_of(value) {
            Some(given) => Ok(Chosen {
                limits: Some(given),
                ..self
            }),
            None => Err(mistake_in(Wrong::Limits, value)),
        }
    }

    /// With a further place where glyphs are found.
    fn with_source(self, word: &'a str, source: Source<'a>) -> Result<Chosen<'a>, Mistake<'a>>
        ensures { read_view chosen_view result ≡ with_source word.now (source_view source.entry) (chosen_view self.entry) }
    {
        match self.sources.with(source) {
            Some(sources) => Ok(Chosen { sources, ..self }),
            None => Err(mistake_in(Wrong::Twice, word)),
        }
    }

    /// With user coordinates.
    fn with_at(self, word: &'a str, value: &'a str) -> Result<Chosen<'a>, Mistake<'a>>
        ensures { read_view chosen_view result ≡ with_setting Setting.At word.now value.now (chosen_view self.entry) }
    {
        if self.at.is_some() {
            return Err(mistake_in(Wrong::Twice, word));
        }
        Ok(Chosen {
            at: Some(value),
            ..self
        })
    }

    /// With OUT.
    fn with_output(self, word: &'a str, value: &'a str) -> Result<Chosen<'a>, Mistake<'a>>
        ensures { read_view chosen_view result ≡ with_setting Setting.Output word.now value.now (chosen_view self.entry) }
    {
        if self.output.is_some() {
            return Err(mistake_in(Wrong::Twice, word));
        }
        Ok(Chosen {
            output: Some(value),
            ..self
        })
    }

    /// With INDEX.
    fn with_index(self, word: &'a str, value: &'a str) -> Result<Chosen<'a>, Mistake<'a>>
        ensures { read_view chosen_view result ≡ with_setting Setting.FaceIndex word.now value.now (chosen_view self.entry) }
    {
        if self.index.is_some() {
            return Err(mistake_in(Wrong::Twice, word));
        }
        match u32_of(value) {
            Some(given) => Ok(Chosen {
                index: Some(given),
                ..self
            }),
            None => Err(mistake_in(Wrong::FaceIndex, value)),
        }
    }

    /// With the most bytes of IN.
    fn with_most_input(self, word: &'a str, value: &'a str) -> Result<Chosen<'a>, Mistake<'a>>
        ensures { read_view chosen_view result ≡ with_setting Setting.MostInput word.now value.now (chosen_view self.entry) }
    {
        if self.most_input.is_some() {
            return Err(mistake_in(Wrong::Twice, word));
        }
        match u32_of(value) {
            Some(given) => Ok(Chosen {
                most_input: Some(given),
                ..self
            }),
            None => Err(mistake_in(Wrong::MostInput, value)),
        }
    }

    /// With the file of a PDF.
    fn with_pdf(self, word: &'a str, value: &'a str) -> Result<Chosen<'a>, Mistake<'a>>
        ensures { read_view chosen_view result ≡ with_setting Setting.Pdf word.now value.now (chosen_view self.entry) }
    {
        if self.pdf.is_some() {
            return Err(mistake_in(Wrong::Twice, word));
        }
        Ok(Chosen {
            pdf: Some(value),
            ..self
        })
    }

    /// With how the glyphs of a PDF get codes.
    fn with_coding(self, word: &'a str, value: &'a str) -> Result<Chosen<'a>, Mistake<'a>>
        ensures { read_view chosen_view result ≡ with_setting Setting.Codes word.now value.now (chosen_view self.entry) }
    {
        if self.coding.is_some() {
            return Err(mistake_in(Wrong::Twice, word));
        }
        match coding_of(value) {
            Some(given) => Ok(Chosen {
                coding: Some(given),
                ..self
            }),
            None => Err(mistake_in(Wrong::Coding, value)),
        }
    }

    /// With the rights to embed the font.
    fn with_rights(self, word: &'a str, value: &'a str) -> Result<Chosen<'a>, Mistake<'a>>
        ensures { read_view chosen_view result ≡ with_setting Setting.Rights word.now value.now (chosen_view self.entry) }
    {
        if self.is_held {
            return Err(mistake_in(Wrong::Twice, word));
        }
        if !holds_rights(value) {
            return Err(mistake_in(Wrong::Rights, value));
        }
        Ok(Chosen {
            is_held: true,
            ..self
        })
    }
}
