//! The tables that both kinds of outlines share: `head`, metrics, the number of glyphs, and names.

ghost use Rattle.std.specs.Prelude.{◌≡◌};
ghost use Rattle.std.specs.Cow.{cow_slice_items};
ghost use Rattle.std.specs.Option.{option_map};
ghost use Rattle.subsetter_base.specs.Gives.{Gives};
ghost use Rattle.subsetter_sfnt.specs.FontAt.{tables_of};
ghost use Rattle.subsetter.specs.TableView.{table_bytes, font_seen};
ghost use Rattle.subsetter.specs.Common.Maxp.Written.{maxp_of};
ghost use Rattle.subsetter.specs.Common.Name.View.{name_seen};
ghost use Rattle.subsetter.specs.Common.Post.Plain.{post_of};
ghost use Rattle.subsetter.specs.Common.Shared.Plain.{shared_of, with_shared};
ghost use Rattle.subsetter.specs.Common.Shared.View.{shared_seen};

use crate::common::head::NewHead;
use crate::common::hmtx::NewMetrics;
use crate::common::maxp::NewMaxp;
use crate::common::name::NewName;
use crate::common::{head, hmtx, maxp, name, post};
use crate::tables::TableData;
use std::alloc::Global;
use std::borrow::CowSlice;
use subsetter_base::{Error, GlyphRemapper, Tag};
use subsetter_sfnt::face::Face;
use subsetter_sfnt::flavor::FontFlavor;
use subsetter_sfnt::laying::tables::FontTables;

/// The shared tables of a new font, each where the source has it.
#[derive(Drop)]
pub struct SharedTables<'a> {
    pub head: Option<NewHead<'a>>,
    pub metrics: Option<NewMetrics<'a>>,
    pub maxp: Option<NewMaxp<'a>>,
    pub name: Option<NewName<'a>>,
    pub post: Option<CowSlice<'a, u8>>,
}

/// `post`, with the names of glyphs where these are asked for.
fn glyph_names<'a>(
    alloc: Global,
    face: &Face<'a>,
    order: &GlyphRemapper,
) -> Result<Option<CowSlice<'a, u8>>, Error>
    ensures { Gives (option_map cow_slice_items) result (post_of (tables_of face.now) order.now) }
{
    let post = face.stored(Tag::POST);
    if face.extras.glyph_names {
        post::write::subset(alloc, post, order)
    } else {
        post::write::subset_without_names(alloc, post, order)
    }
}

/// `maxp`, with the fields that bound instructions where hinting is asked for.
fn max_profile<'a>(
    face: &Face<'a>,
    flavor: FontFlavor,
    count: u16,
) -> Result<Option<NewMaxp<'a>>, Error>
    ensures { Gives (λ new. new) result (maxp_of (tables_of face.now) flavor count) }
{
    maxp::subset(face.stored(Tag::MAXP), face.extras.hinting, flavor, count)
}

impl<'a> SharedTables<'a> {
    /// Makes the shared tables for an order of the glyphs. `long` says whether `loca` has the long format. The errors are
    /// those of `head`, `hmtx`, `maxp`, `name` and `post`, of the first that has one.
    #[tactic(auto, unfolding(crate::specs::Common::Shared::Plain::shared_of))]
    pub fn build(
        alloc: Global,
        face: &Face<'a>,
        flavor: FontFlavor,
        long: bool,
        order: &GlyphRemapper,
    ) -> Result<Self, Error>
        ensures { Gives shared_seen result (shared_of (tables_of face.now) flavor long order.now) }
    {
        let head = head::subset(face.table(Tag::HEAD), long)?;
        let metrics = hmtx::subset(alloc, face.table(Tag::HHEA), face.table(Tag::HMTX), order)?;
        let count = order.num_gids();
        let maxp = max_profile(face, flavor, count)?;
        let name = name::subset(alloc, face.table(Tag::NAME))?;
        let post = glyph_names(alloc, face, order)?;
        Ok(Self {
            head,
            metrics,
            maxp,
            name,
            post,
        })
    }
}

/// `head` as a table of the new font.
fn head_data<'b, 'a>(head: &'b Option<NewHead<'a>>) -> Option<TableData<'b, 'a>>
    ensures { option_map table_bytes result ≡ head.now }
{
    match head {
        Some(head) => Some(TableData::Head(head)),
        None => None,
    }
}

/// `hhea` and `hmtx` as tables of the new font.
#[derive(Clone, Copy)]
struct MetricsData<'b, 'a> {
    hhea: Option<TableData<'b, 'a>>,
    hmtx: Option<TableData<'b, 'a>>,
}

/// `hhea` and `hmtx` as tables of the new font, both or none.
fn metrics_data<'b, 'a>(metrics: &'b Option<NewMetrics<'a>>) -> MetricsData<'b, 'a>
    ensures hhea { option_map table_bytes result.hhea ≡ option_map (λ m. m.hhea) metrics.now }
    ensures hmtx { option_map table_bytes result.hmtx ≡ option_map (λ m. m.hmtx) metrics.now }
{
    match metrics {
        Some(metrics) => MetricsData {
            hhea: Some(TableData::Hhea(metrics)),
            hmtx: Some(TableData::Hmtx(metrics)),
        },
        None => MetricsData {
            hhea: None,
            hmtx: None,
        },
    }
}

/// `maxp` as a table of the new font.
fn maxp_data<'b, 'a>(maxp: &'b Option<NewMaxp<'a>>) -> Option<TableData<'b, 'a>>
    ensures { option_map table_bytes result ≡ maxp.now }
{
    match maxp {
        Some(maxp) => Some(TableData::Maxp(maxp)),
        None => None,
    }
}

/// `name` as a table of the new font.
fn name_data<'b, 'a>(name: &'b Option<NewName<'a>>) -> Option<TableData<'b, 'a>>
    ensures { option_map table_bytes result ≡ option_map name_seen name.now }
{
    match name {
        Some(NewName::Copied(bytes)) => Some(TableData::Whole(bytes)),
        Some(NewName::Kept(names)) => Some(TableData::Names(names)),
        None => None,
    }
}

/// `post` as a table of the new font.
fn post_data<'b, 'a>(post: &'b Option<CowSlice<'a, u8>>) -> Option<TableData<'b, 'a>>
    ensures { option_map table_bytes result ≡ option_map cow_slice_items post.now }
{
    match post {
        Some(post) => Some(TableData::Whole(post)),
        None => None,
    }
}

/// A font with these tables and none of outlines.
pub fn font_tables<'b, 'a>(shared: &'b SharedTables<'a>) -> FontTables<TableData<'b, 'a>>
    ensures { font_seen result ≡ with_shared (shared_seen shared.now) }
{
    let MetricsData { hhea, hmtx } = metrics_data(&shared.metrics);
    FontTables {
        cff: None,
        cvt: None,
        fpgm: None,
        glyf: None,
        head: head_data(&shared.head),
        hhea,
        hmtx,
        loca: None,
        maxp: maxp_data(&shared.maxp),
        name: name_data(&shared.name),
        post: post_data(&shared.post),
        prep: None,
    }
}
