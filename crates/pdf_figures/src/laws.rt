//! Laws of runs with own glyphs, which no code runs.

ghost use Rattle.pdf_figures.specs.Laws.{FiguresDrawTheRun, ItemsDrawTheRun, ItemsSayTheRun, PenGoesOn, TextIsKept};

/// The clusters have the texts that they had.
pub fn text_is_kept()
    ensures { TextIsKept }
{}

/// The pen goes on as far as it did.
pub fn pen_goes_on()
    ensures { PenGoesOn }
{}

/// The figures draw the glyphs of the run where the shaper has them.
pub fn figures_draw_the_run()
    ensures { FiguresDrawTheRun }
{}

/// Items that are the figures of a run draw its glyphs, where those of own ones are drawn in their place.
pub fn items_draw_the_run()
    ensures { ItemsDrawTheRun }
{}

/// The clusters of items that are the figures of a run have the texts of the run's clusters.
pub fn items_say_the_run()
    ensures { ItemsSayTheRun }
{}
