//! Where the glyphs are found that options request, in the order of the options.

ghost use Rattle.std.specs.Prelude.{◌≡◌, ◌≤◌, map, length, nat_lt, IfOk};
ghost use Rattle.std.specs.Option.{option_map};
ghost use Rattle.subset_args.specs.Options.{with_more, is_given, if_room, option_number};

use crate::listing::lists::FileKind;
use crate::options::names::Source;
use std::alloc::{AllocError, Global};

/// Where the glyphs are found: the first places of these, in the order of their options. There are six such options.
#[derive(Clone, Copy)]
pub struct Sources<'a> {
    places: [Source<'a>; 6],
    count: usize,
    ghost within: { count ≤ 6 },
}

impl Source<'_> {
    ghost use Rattle.subset_args.specs.View.{source_view};

    /// A number for each of the options that request glyphs.
    fn option_number(self) -> u8
        ensures { result ≡ option_number (source_view self.entry) }
    {
        match self {
            Source::InList(_) => 0,
            Source::File(FileKind::Glyphs, _) => 1,
            Source::Text(_) => 2,
            Source::File(FileKind::Text, _) => 3,
            Source::Characters(_) => 4,
            Source::File(FileKind::Characters, _) => 5,
        }
    }
}

impl<'a> Sources<'a> {
    ghost use Rattle.subset_args.specs.View.{source_view, sources_view};

    /// None of them.
    pub const NOWHERE: Sources<'static> = Sources {
        places: [Source::Text(""); 6],
        count: 0,
    };

    /// Whether one of the places is of an option.
    fn is_given(sources: &[Source<'_>], number: u8) -> bool
        ensures { result ≡ is_given (map source_view sources.now) number }
    {
        let mut rest = sources;
        while let [source, following @ ..] = rest {
            if source.option_number() == number {
                return true;
            }
            rest = following;
        }
        false
    }

    /// Whether there are any.
    pub fn are_given(self) -> bool
        ensures { result ≡ nat_lt 0 (length (sources_view self.entry)) }
    {
        self.count > 0
    }

    /// The places, in order.
    fn given(&self) -> &[Source<'a>]
        ensures { map source_view result.now ≡ sources_view self.now }
    {
        &self.places[..self.count]
    }

    /// The places, in order.
    pub fn all(self, alloc: Global) -> Result<Vec<Source<'a>>, AllocError>
        ensures { IfOk result (λ v. map source_view v.items ≡ sources_view self.entry) }
    {
        Vec::from_slice(alloc, self.given())
    }

    /// With a further place, where there is room.
    fn pushed(self, source: Source<'a>) -> Option<Sources<'a>>
        ensures { option_map sources_view result ≡ if_room (sources_view self.entry) (source_view source.entry) }
    {
        if self.count == 6 {
            return None;
        }
        let mut places = self.places;
        places[self.count] = source;
        Some(Sources {
            places,
            count: self.count + 1,
        })
    }

    /// With a further place, unless one is there of its option.
    pub fn with(self, source: Source<'a>) -> Option<Sources<'a>>
        ensures { option_map sources_view result ≡ with_more (source_view source.entry) (sources_view self.entry) }
    {
        if Sources::is_given(self.given(), source.option_number()) {
            return None;
        }
        self.pushed(source)
    }
}
