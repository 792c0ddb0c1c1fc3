//! FDSelect: which font dict a glyph has (Technical Note 5176, section 19 "FDSelect").

ghost use Rattle.std.specs.Prelude.{◌≡◌, [], ◌∷◌, ◌++◌, length, OnOk, IfErr};
ghost use Rattle.std.specs.Option.{option_map};
ghost use Rattle.subsetter_base.specs.declared.error.Error.TheVariants.{OutOfMemory};
ghost use Rattle.subsetter_cff.specs.Read.FdArray.FontDicts.{selected, select_at, Each};
ghost use Rattle.subsetter_cff.specs.Write.Laying.Layout.{First, Numbers, select_bytes};
ghost use Rattle.subsetter_cff.specs.Read.Views.{select_view};

use crate::read::fd_array::ranges::Ranges;
use subsetter_base::error::Error;
use subsetter_base::read::Reader;
use subsetter_base::write::Writer;
use subsetter_cffdata::reading;

/// Which font dict a glyph has.
#[derive(Drop)]
pub enum FDSelect<'a> {
    /// A number for each glyph.
    Format0(&'a [u8]),
    /// Ranges of glyphs.
    Format3(Ranges<'a>),
}

/// For no glyph.
impl Default for FDSelect<'_> {
    ghost use Rattle.std.specs.Prelude.{◌≡◌, []};
    ghost use Rattle.subsetter_cff.specs.Read.FdArray.FontDicts.{Each};
    ghost use Rattle.subsetter_cff.specs.Read.Views.{select_view};

    ghost is_default = { λ x. select_view x ≡ Each [] };

    fn default() -> Self {
        FDSelect::Format0(&[])
    }
}

impl<'a> FDSelect<'a> {
    /// The number of a glyph's font dict; None where it has none.
    #[tactic(auto, unfolding(crate::specs::Read::FdArray::FontDicts::selected))]
    pub fn font_dict_index(&self, glyph: u16) -> Option<u8>
        ensures { result ≡ selected (select_view self.now) glyph }
    {
        match self {
            FDSelect::Format0(numbers) => numbers.get(glyph as usize).copied(),
            FDSelect::Format3(ranges) => ranges.font_dict(glyph),
        }
    }
}

/// The format that lists the font dict of each glyph.
const FORMAT_0: u8 = 0;
/// The format of ranges.
const FORMAT_3: u8 = 3;

/// Reads an FDSelect for `glyphs` glyphs; None where its format is missing or unknown, or a format 0 is cut.
#[tactic(auto, unfolding(crate::specs::Read::FdArray::FontDicts::select_at))]
pub fn parse_fd_select(glyphs: u32, bytes: &[u8]) -> Option<FDSelect<'_>>
    ensures { option_map select_view result ≡ select_at glyphs bytes.now }
{
    let mut r = Reader::new(bytes);
    match reading::next_byte(&mut r)? {
        FORMAT_0 => Some(FDSelect::Format0(reading::next_bytes(&mut r, glyphs as usize)?)),
        FORMAT_3 => Some(FDSelect::Format3(Ranges::new(reading::tail(&r)))),
        _ => None,
    }
}

/// Writes the FDSelect that gives all glyphs the first font dict.
#[tactic(auto, unfolding(crate::specs::Write::Laying::Layout::select_bytes))]
pub fn generate_fd_index(count: u16, w: &mut Writer) -> Result<(), Error>
    ensures ok { OnOk result (w.new ≡ w.old ++ select_bytes count First) }
    ensures err { IfErr result (λ e. e ≡ OutOfMemory) }
{
    let end = count.to_be_bytes();
    w.extend(&[FORMAT_3, 0, 1, 0, 0, 0, end[0], end[1]])
}

/// Writes the FDSelect that gives each glyph the font dict of a number.
#[tactic(auto, unfolding(crate::specs::Write::Laying::Layout::select_bytes))]
pub fn rewrite_fd_index(numbers: &[u8], w: &mut Writer) -> Result<(), Error>
    ensures ok { OnOk result (w.new ≡ w.old ++ select_bytes (length numbers.now) (Numbers numbers.now)) }
    ensures err { IfErr result (λ e. e ≡ OutOfMemory) }
{
    w.extend(&[FORMAT_0])?;
    w.extend(numbers)
}
