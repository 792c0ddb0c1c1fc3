//! The file of an instance.
//!
//! Its tables are `glyf`, `head`, `hhea`, `hmtx`, `loca` and `maxp`, which are made anew, `name` as it is in the font, and `post` with the
//! metrics that vary. The
//! tables that instructions are read from are left out, as no outline has instructions.

ghost use Rattle.std.specs.Prelude.{◌≡◌, ◌≤◌, IfOk, IfErr, IfSome, Some, None, length, codes};
ghost use Rattle.std.specs.Option.{option_copied};
ghost use Rattle.subsetter_base.specs.declared.error.Error.TheVariants.{OutOfMemory};
ghost use Rattle.subsetter_base.specs.Gives.{Gives};
ghost use Rattle.subsetter_sfnt.specs.Read.{table_in};
ghost use Rattle.subsetter_sfnt.specs.View.{font_seen};
ghost use Rattle.subsetter_instance.specs.Plain.{laid};
ghost use Rattle.subsetter_sfnt.specs.Fields.Loca.{loca_bytes};
ghost use Rattle.subsetter_instance.specs.Tables.Written.{by_glyph, glyf_bytes, is_long, offsets_from, hmtx_of, head_bytes, hhea_bytes, maxp_bytes, tables};

use crate::glyphs::drawn::Drawn;
use crate::source::Source;
use crate::tables::lines::Lines;
use crate::tables::offsets::loca;
use crate::tables::requested::requested_in_order;
use crate::tables::{headers, writing};
use std::alloc::Global;
use subsetter_base::{Error, GlyphRemapper, Tag};
use subsetter_sfnt::face::Face;
use subsetter_sfnt::flavor::FontFlavor;
use subsetter_sfnt::laying::construct::finish;
use subsetter_sfnt::laying::tables::{FontTables, in_order};

/// The tables that are made anew.
#[derive(Drop)]
struct NewTables {
    glyf: Vec<u8>,
    loca: Vec<u8>,
    hmtx: Vec<u8>,
    head: Vec<u8>,
    hhea: Vec<u8>,
    maxp: Vec<u8>,
}

/// Makes the tables of `count` glyphs.
fn new_tables(
    alloc: Global,
    head: &[u8],
    hhea: &[u8],
    count: u16,
    mapper: &GlyphRemapper,
    drawn: &[Drawn],
) -> Result<NewTables, Error>
    requires head { 52 ≤ length head.now }
    requires hhea { 36 ≤ length hhea.now }
    ensures glyf { IfOk result (λ t. t.glyf.items ≡ glyf_bytes (by_glyph mapper.now drawn.now count)) }
    ensures loca { IfOk result (λ t. t.loca.items ≡ loca_bytes (is_long (glyf_bytes (by_glyph mapper.now drawn.now count))) (offsets_from 0 (by_glyph mapper.now drawn.now count))) }
    ensures hmtx { IfOk result (λ t. t.hmtx.items ≡ hmtx_of (by_glyph mapper.now drawn.now count)) }
    ensures head { IfOk result (λ t. t.head.items ≡ head_bytes (is_long (glyf_bytes (by_glyph mapper.now drawn.now count))) drawn.now head.now) }
    ensures hhea { IfOk result (λ t. t.hhea.items ≡ hhea_bytes count drawn.now hhea.now) }
    ensures maxp { IfOk result (λ t. t.maxp.items ≡ maxp_bytes count drawn.now) }
    ensures err { IfErr result (λ e. e ≡ OutOfMemory) }
{
    let order = requested_in_order(alloc, mapper, count)?;
    let outlines = writing::all_outlines(alloc, mapper, drawn, &order)?;
    let hmtx = writing::hmtx(alloc, mapper, drawn, count, &order)?;
    let end = outlines.glyf.len();
    let long = writing::is_long(&outlines.glyf);
    let loca = loca(alloc, long, count, &order, &outlines.starts, end)?;
    let head = headers::head(alloc, head, long, drawn)?;
    let hhea = headers::hhea(alloc, hhea, count, drawn)?;
    let maxp = headers::maxp(alloc, count, drawn)?;
    Ok(NewTables {
        glyf: outlines.glyf,
        loca,
        hmtx,
        head,
        hhea,
        maxp,
    })
}

/// The tables of the file, with `name` and `post` of the font.
fn font_tables<'a>(
    new: &'a NewTables,
    name: Option<&'a [u8]>,
    post: Option<&'a [u8]>,
) -> FontTables<&'a [u8]>
    ensures { font_seen (λ bytes. bytes.now) result ≡ record { cff = None; cvt = None; fpgm = None; glyf = Some new.now.glyf.items; head = Some new.now.head.items; hhea = Some new.now.hhea.items; hmtx = Some new.now.hmtx.items; loca = Some new.now.loca.items; maxp = Some new.now.maxp.items; name = option_copied name.entry; post = option_copied post.entry; prep = None } }
{
    FontTables {
        cff: None,
        cvt: None,
        fpgm: None,
        glyf: Some(&new.glyf),
        head: Some(&new.head),
        hhea: Some(&new.hhea),
        hmtx: Some(&new.hmtx),
        loca: Some(&new.loca),
        maxp: Some(&new.maxp),
        name,
        post,
        prep: None,
    }
}

/// The file of glyphs that are drawn, by the mapper's order: each under its old number, and every other glyph empty. `hhea` and `post` are those of
/// the location. `MalformedFont` where `head` is missing, and `OverflowError` where a table's offset or length is 2^32 or more.
#[tactic(auto, unfolding(crate::specs::Plain::laid))]
pub fn laid(
    alloc: Global,
    face: &Face<'_>,
    source: &Source<'_>,
    mapper: &GlyphRemapper,
    drawn: &[Drawn],
    lines: &Lines<'_>,
) -> Result<Vec<u8>, Error>
    requires head { IfSome (table_in face.now.«data».now face.now.records.now (codes "head")) (λ head. 52 ≤ length head) }
    requires hhea { 36 ≤ length lines.now.hhea }
    ensures { Gives (λ v. v.items) result (laid (table_in face.now.«data».now face.now.records.now) lines.now source.now mapper.now drawn.now) }
{
    let head = face.stored(Tag::HEAD).ok_or(Error::MalformedFont)?;
    let new = new_tables(alloc, head, lines.hhea(), source.count(), mapper, drawn)?;
    let tables = font_tables(&new, face.stored(Tag::NAME), lines.post());
    let list = in_order(alloc, tables)?;
    finish(alloc, FontFlavor::TrueType, &list, None)
}
