//! Laws of runs, which no code runs.

ghost use Rattle.pdf_runs.specs.Laws.{ClustersAreTheRun, ClustersBeginOnce, GlyphsAreDrawn, PenGoesOn, TextIsSaid};

/// The clusters of a run, one after the other, are the run.
pub fn clusters_are_the_run()
    ensures { ClustersAreTheRun }
{}

/// Where the first glyph of a run begins a cluster, each cluster has one glyph that does.
pub fn clusters_begin_once()
    ensures { ClustersBeginOnce }
{}

/// What the pieces of a run say, in reading order, is the clusters' text in reading order.
pub fn text_is_said()
    ensures { TextIsSaid }
{}

/// The pen goes on by the sum of the run's advances.
pub fn pen_goes_on()
    ensures { PenGoesOn }
{}

/// The pieces of a run draw its glyphs where the shaper has them.
pub fn glyphs_are_drawn()
    ensures { GlyphsAreDrawn }
{}
