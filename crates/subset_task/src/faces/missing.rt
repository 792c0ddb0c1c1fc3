//! The characters that a face has no glyph for.

ghost use Rattle.std.specs.Prelude.{◌≡◌, OnOk, IfOk};
ghost use Rattle.subset_task.specs.Faces.Missing.{with_missing, first_missing};
ghost use Rattle.subsetter_base.specs.Indexes.{is_listed};

use std::alloc::{AllocError, Global};

/// Whether a character is listed.
fn is_listed(found: &[char], character: char) -> bool
    ensures { result ≡ is_listed found.now character }
{
    for one in found {
        if *one == character {
            return true;
        }
    }
    false
}

/// Adds a character, if it isn't listed, and fewer than four are.
fn push_missing(found: &mut Vec<char>, character: char) -> Result<(), AllocError>
    ensures { OnOk result (found.new.items ≡ with_missing found.old.items character) }
{
    if found.len() < 4 && !is_listed(found, character) {
        found.push(character)?;
    }
    Ok(())
}

/// The first four of the characters that a face lacks, each once.
pub fn first_missing(alloc: Global, characters: &[char]) -> Result<Vec<char>, AllocError>
    ensures { IfOk result (λ v. v.items ≡ first_missing characters.now) }
{
    let mut found = Vec::new(alloc);
    let mut rest = characters;
    while let [character, following @ ..] = rest {
        push_missing(&mut found, *character)?;
        rest = following;
    }
    Ok(found)
}
