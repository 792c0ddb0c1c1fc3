//! The new `post`.
//!
//! It has the source's header, an index for each new glyph, and for each name of the font's own a string. A table of
//! another version than 2.0 is copied. More than 65,278 names of the font's own mean a list of distinct reached glyphs
//! with such names that is longer than that.

ghost use Rattle.std.specs.Prelude.{◌≡◌, ◌≤◌, ◌<◌, ◌+◌, ◌*◌, ◌^◌, ◌++◌, ℕ, length, slice_index, flat_map, OnOk, IfOk, IfErr};
ghost use Rattle.std.specs.Option.{option_copied, option_map};
ghost use Rattle.std.specs.Cow.{cow_slice_items};
ghost use Rattle.subsetter_base.specs.Gives.{Gives};
ghost use Rattle.subsetter_base.specs.declared.error.Error.TheVariants.{OutOfMemory};
ghost use Rattle.subsetter.specs.Common.Post.Marks.{run_bytes};
ghost use Rattle.subsetter.specs.Common.Post.Read.{names_in};
ghost use Rattle.subsetter_sfnt.specs.Extras.{without_glyph_names};
ghost use Rattle.subsetter.specs.Common.Post.Plain.{seen_post, custom_count, new_indexes, entry_of, post_of_indexes, subset_glyph_names, new_post};

use crate::common::post::marks::NameList;
use crate::common::post::read::Version2Table;
use std::alloc::Global;
use std::borrow::CowSlice;
use subsetter_base::read::Reader;
use subsetter_base::write::Writer;
use subsetter_base::{Error, GlyphRemapper};
use subsetter_sfnt::fields::post::{HEADER_SIZE, INDEXES, ITALIC_ANGLE, VERSION_2_0, VERSION_3_0};

/// How many glyphs have standard Macintosh names, whose indexes are the numbers below.
const STANDARD_NAMES: u16 = 258;
/// The index of the first of a font's own names.
const FIRST_CUSTOM: usize = STANDARD_NAMES as usize;
/// How many own names have an index of 16 bits.
const CUSTOM_MAX: usize = 65_278;
/// From how many glyphs on the room of their names is counted before they are written, and not grown.
const MANY_GLYPHS: usize = 4096;

/// Up to how many names for each kept glyph the place of each is kept, and not of every eighth.
const DENSE: usize = 4;

/// How many of the indexes are of the font's own names.
fn count_custom(indexes: &[u16]) -> usize
    ensures { result ≡ custom_count indexes.now }
{
    let mut count: usize = 0;
    for index in indexes {
        if *index >= STANDARD_NAMES {
            count += 1;
        }
    }
    count
}

/// The least number above those of all custom names that the indexes name.
fn custom_limit(indexes: &[u16]) -> usize
    ensures above { (k : ℕ) → k < length indexes.now → slice_index indexes.now k < 258 + result }
    ensures least { (n : ℕ) → ((k : ℕ) → k < length indexes.now → slice_index indexes.now k < 258 + n) → result ≤ n }
{
    let mut limit: usize = 0;
    for index in indexes {
        if usize::from(*index) >= FIRST_CUSTOM + limit {
            limit = usize::from(*index) - FIRST_CUSTOM + 1;
        }
    }
    limit
}

/// Writes the indexes: a standard name keeps its own, and each other glyph gets the next from 258 on.
fn write_indexes(w: &mut Writer, indexes: &[u16]) -> Result<(), Error>
    requires { custom_count indexes.now ≤ 65278 }
    ensures ok { OnOk result (w.new ≡ w.old ++ new_indexes 0 indexes.now) }
    ensures err { IfErr result (λ e. e ≡ OutOfMemory) }
{
    let mut custom: usize = 0;
    for index in indexes {
        if *index < STANDARD_NAMES {
            w.write(index)?;
        } else {
            w.write(&((FIRST_CUSTOM + custom) as u16))?;
            custom += 1;
        }
    }
    Ok(())
}

/// Names that follow one another: `count` names from a number on.
#[derive(Clone, Copy)]
struct Run {
    from: usize,
    count: usize,
}

/// Writes `count` names from a number on, one after another, an empty one where none is there.
fn write_each(w: &mut Writer, names: &NameList<'_>, from: usize, count: usize) -> Result<(), Error>
    requires { from + count < 2 ^ 32 }
    ensures ok { OnOk result (w.new ≡ w.old ++ run_bytes names.now from count) }
    ensures err { IfErr result (λ e. e ≡ OutOfMemory) }
{
    for i in 0..count {
        w.extend(names.entry(from + i))?;
    }
    Ok(())
}

/// Writes the names of a run, an empty one where none is there. Where all are there, they are copied at once.
fn write_run(w: &mut Writer, names: &NameList<'_>, run: Run) -> Result<(), Error>
    requires { run.from + run.count < 2 ^ 32 }
    ensures ok { OnOk result (w.new ≡ w.old ++ run_bytes names.now run.from run.count) }
    ensures err { IfErr result (λ e. e ≡ OutOfMemory) }
{
    if run.count == 1 {
        return w.extend(names.entry(run.from));
    }
    match names.entries(run.from, run.count) {
        Some(entries) => w.extend(entries),
        None => write_each(w, names, run.from, run.count),
    }
}

/// Puts the name with an index after a run, if it is one of the font's own. Where it doesn't follow the run, this is written.
fn go_on(w: &mut Writer, names: &NameList<'_>, run: Run, index: u16) -> Result<Run, Error>
    requires { run.from + run.count < 2 ^ 17 }
    ensures ok { IfOk result (λ r. w.new ++ run_bytes names.now r.from r.count ≡ w.old ++ run_bytes names.now run.from run.count ++ entry_of names.now index) }
    ensures small { IfOk result (λ r. r.from + r.count < 2 ^ 17) }
    ensures err { IfErr result (λ e. e ≡ OutOfMemory) }
{
    if index < STANDARD_NAMES {
        return Ok(run);
    }
    let number = usize::from(index) - FIRST_CUSTOM;
    let next = run.from + run.count;
    if number == next {
        return Ok(Run {
            from: run.from,
            count: run.count + 1,
        });
    }
    write_run(w, names, run)?;
    Ok(Run {
        from: number,
        count: 1,
    })
}

/// Writes the names that the indexes name, an empty one where none is there. Those that follow one another are a run.
fn write_names(w: &mut Writer, indexes: &[u16], names: &NameList<'_>) -> Result<(), Error>
    ensures ok { OnOk result (w.new ≡ w.old ++ flat_map (entry_of names.now) indexes.now) }
    ensures err { IfErr result (λ e. e ≡ OutOfMemory) }
{
    let mut run = Run { from: 0, count: 0 };
    for index in indexes {
        run = go_on(w, names, run, *index)?;
    }
    write_run(w, names, run)?;
    Ok(())
}

/// How many bytes the names take that the indexes name, where these are many; else 0, and room grows as they are written.
fn room_for_names(indexes: &[u16], names: &NameList<'_>) -> usize {
    if indexes.len() < MANY_GLYPHS {
        return 0;
    }
    let mut room: usize = 0;
    for index in indexes {
        if *index >= STANDARD_NAMES {
            let place = usize::from(*index) - FIRST_CUSTOM;
            room = room.saturating_add(names.entry_len(place));
        }
    }
    room
}

/// Writes a table of version 2.0.
#[tactic(auto, unfolding(crate::specs::Common::Post::Plain::post_of_indexes))]
fn write_table(
    alloc: Global,
    table: &Version2Table<'_>,
    count: u16,
    indexes: &[u16],
    names: &NameList<'_>,
) -> Result<Vec<u8>, Error>
    requires count { count ≡ length indexes.now }
    requires names { names.now ≡ names_in table.now.names_data.now }
    ensures { Gives (λ v. v.items) result (post_of_indexes (seen_post table.now) indexes.now) }
{
    if count_custom(indexes) > CUSTOM_MAX {
        return Err(Error::OverflowError);
    }
    let room = room_for_names(indexes, names).saturating_add(INDEXES + 2 * indexes.len());
    let mut w = Writer::with_capacity(alloc, room)?;
    w.extend(table.header)?;
    w.write(&count)?;
    write_indexes(&mut w, indexes)?;
    write_names(&mut w, indexes, names)?;
    let mut bytes = w.finish();
    bytes.shrink_to_fit();
    Ok(bytes)
}

/// The glyph names of a subset. A table of another version than 2.0 is copied whole. `MalformedFont` where the version, the header, the count or an index is cut or the index of a glyph is missing; `OverflowError` for more than 65278 glyphs with names of the font's own.
#[tactic(auto, unfolding(crate::specs::Common::Post::Plain::new_post, crate::specs::Common::Post::Plain::post_of_table, crate::specs::Common::Post::Plain::subset_glyph_names))]
pub fn subset<'a>(
    alloc: Global,
    post: Option<&'a [u8]>,
    mapper: &GlyphRemapper,
) -> Result<Option<CowSlice<'a, u8>>, Error>
    ensures { Gives (option_map cow_slice_items) result (new_post (option_copied post.entry) mapper.now) }
{
    let Some(bytes) = post else {
        return Ok(None);
    };
    let version = Reader::new(bytes)
        .read::<u32>()
        .ok_or(Error::MalformedFont)?;
    if version != VERSION_2_0 {
        return Ok(Some(CowSlice::Borrowed(bytes)));
    }
    let table = Version2Table::parse(bytes).ok_or(Error::MalformedFont)?;
    let indexes = table.indexes(alloc, mapper)?;
    let limit = custom_limit(&indexes);
    let is_dense = limit / DENSE <= indexes.len();
    let names = NameList::new(alloc, table.names_data, limit, is_dense)?;
    let new = write_table(alloc, &table, mapper.num_gids(), &indexes, &names)?;
    Ok(Some(CowSlice::Owned(new)))
}

/// A header of 32 bytes under version 3.0.
fn header_alone(alloc: Global, bytes: &[u8]) -> Result<Vec<u8>, Error>
    requires { 32 ≤ length bytes.now }
    ensures ok { IfOk result (λ v. v.items ≡ without_glyph_names bytes.now) }
    ensures err { IfErr result (λ e. e ≡ OutOfMemory) }
{
    let mut w = Writer::with_capacity(alloc, HEADER_SIZE)?;
    w.write(&VERSION_3_0)?;
    w.extend(&bytes[ITALIC_ANGLE..HEADER_SIZE])?;
    Ok(w.finish())
}

/// `post` without the names of glyphs: a table of version 3.0. One that is shorter than its header is taken as it is.
pub fn subset_without_names<'a>(
    alloc: Global,
    post: Option<&'a [u8]>,
    mapper: &GlyphRemapper,
) -> Result<Option<CowSlice<'a, u8>>, Error>
    ensures { Gives (option_map cow_slice_items) result (new_post (option_map without_glyph_names (option_copied post.entry)) mapper.now) }
{
    let Some(bytes) = post else {
        return subset(alloc, post, mapper);
    };
    if bytes.len() < HEADER_SIZE {
        return subset(alloc, post, mapper);
    }
    Ok(Some(CowSlice::Owned(header_alone(alloc, bytes)?)))
}
