//! Laws of the definitions, which no code runs.

ghost use Rattle.text_glyphs.specs.Laws.{LastIsFound};

/// The search by halves finds the last key that is at most a number, where the keys ascend.
pub fn last_is_found()
    ensures { LastIsFound }
{}
