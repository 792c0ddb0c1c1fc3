//! Runs of shaped glyphs with glyphs of their own: what no glyph of the font draws as readers need it is drawn by glyphs of it,
//! each at a place, with an advance.
//!
//! Readers copy a text best where each code says one character, and where the pen never goes back or up. So an own glyph draws
//! a cluster whose glyphs are moved or are more than its characters; it replaces a glyph far off its advance; and of a
//! glyph with several characters, each that is no mark gets an equal part of the advance: the leftmost has the ink, the others
//! are blanks. Own glyphs have the numbers after those of the font, so that the run they are in is one of a font with more glyphs.
#![tactic(auto)]

mod asides;
mod choice;
mod cluster;
mod cutting;
mod ink;
mod laws;
mod numbers;
mod parts;
mod whole;

pub use asides::beside;
pub use choice::Choice;
pub use cluster::figures_of_run;
pub use cutting::Uncut;
pub use ink::{Figure, FigureInk, OwnInk, Placed};
pub use laws::{
    figures_draw_the_run, items_draw_the_run, items_say_the_run, pen_goes_on, text_is_kept,
};
pub use numbers::{OwnGlyphs, figured_items};
pub use parts::{advance_in, can_be_part, part_at, place_of};
pub use whole::{wants_one, whole_of};
