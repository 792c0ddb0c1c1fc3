//! What can be wrong with a font, and its text.

ghost use Rattle.std.specs.Prelude.{◌≡◌};
ghost use Rattle.font_reasons.specs.About.{reason_table, reason_glyph};
ghost use Rattle.font_reasons.specs.Texts.{forbidden_by, is_printable, is_text, table_name};

use pdf_values::{Permission, Usage};
use std::fmt;
use subsetter_base::Tag;

/// What is wrong with a font, or with what is requested of it.
#[derive(Clone, Copy, Drop)]
pub enum Reason {
    /// The file is a WOFF.
    Woff,
    /// The file is a WOFF2.
    Woff2,
    /// The file is a Type 1 font.
    Type1,
    /// The file is an Embedded OpenType file.
    Eot,
    /// The file is a PDF.
    Pdf,
    /// The file begins with these four bytes, as no font does.
    Begins(Tag),
    /// The file begins as no font does, and has fewer than four bytes.
    NotFont,
    /// The file has no bytes.
    Empty,
    /// The collection has no face of this index, but this many faces.
    NoFace(u32, u32),
    /// No font begins where the collection says that the face of this index does.
    NoHeader(u32),
    /// The directory of the face isn't inside the file.
    CutDirectory,
    /// This table ends at this byte, past the end of the file, which has this many bytes.
    Cut(Tag, u64, u64),
    /// The face has none of the tables that have outlines, and no bitmaps.
    NoOutlines,
    /// The face has none of these, and bitmaps in this table.
    BitmapsAlone(Tag),
    /// The face has no glyph of this number, but this many glyphs.
    NoGlyph(u16, u16),
    /// The face has no table of this tag.
    NoTable(Tag),
    /// `loca` has no entries for this glyph.
    NoEntries(u16),
    /// indexToLocFormat of `head` is this, neither 0 nor 1, and by it an outline can't be read.
    LocFormat(u16),
    /// The entries of `loca` descend for this glyph.
    Descends(u16),
    /// The outline of this glyph isn't inside `glyf`.
    Outside(u16),
    /// The header of this glyph's outline is cut.
    CutHeader(u16),
    /// A component of this glyph is cut.
    CutComponent(u16),
    /// A component of this glyph is that glyph, whose outline isn't inside `glyf`, or has no or wrong entries of `loca`.
    ByComponent(u16, u16),
    /// numberOfHMetrics of `hhea` is 0.
    NoMetrics,
    /// numberOfHMetrics of `hhea` is this, and `hmtx` is shorter.
    FewMetrics(u16),
    /// `hmtx` ends before the metrics of this glyph.
    NoMetric(u16),
    /// unitsPerEm of `head` is 0.
    NoUnits,
    /// This table has this many bytes, and what is read of it takes this many.
    Short(Tag, u64, u64),
    /// The string of the name of this nameID isn't inside `name`.
    LostName(u16),
    /// `cmap` has no table of an encoding and a format that are read.
    NoUnicode,
    /// The table of `cmap` that is used, of this format, has this many bytes, and needs this many.
    ShortMap(u16, u64, u64),
    /// The outlines are those of `CFF2`, which calls at coordinates take.
    OnlyCff2,
    /// fsType of `OS/2` is this, and forbids what isn't permitted here.
    Forbidden(u16, Permission),
    /// The advance of this glyph, as it varies, is more than this, which is the most that can be written.
    LargeAdvance(u16, u16),
    /// `post` has no index of a name for this glyph.
    NoIndex(u16),
    /// A string that a dict of `CFF ` names isn't in the table.
    LostString,
    /// A new table of `CFF ` needs more than the format allows.
    LargeCff,
    /// majorVersion of `CFF2` is this, and not 2.
    Cff2Version(u8),
    /// majorVersion of this table isn't 1.
    OtherVersion(Tag),
    /// axisSize of `fvar` is this, and 20 is the least.
    AxisSize(u16),
    /// axisCount of this table is this, and that of `fvar` another.
    AxisCount(Tag, u16, u16),
    /// This table can't be read.
    Unread(Tag),
    /// This table has no charstring, or no private dict, for this glyph that can be read.
    NoCharstring(Tag, u16),
    /// The charstring of this glyph in this table is wrong, or passes the limits.
    WrongCharstring(Tag, u16),
    /// The charstring of this glyph ends by putting two others together.
    Composed(u16),
    /// The outline of this glyph can't be read.
    WrongOutline(u16),
    /// This glyph is a component more than 64 levels deep.
    Deep(u16),
    /// What this glyph varies by in this table can't be read.
    Unvaried(Tag, u16),
    /// What the metric of this tag varies by in `MVAR` can't be read.
    WrongMetric(Tag),
    /// All glyphs from 1 to 65535 are requested, which leave no number for glyph 0.
    AllGlyphs,
    /// The new font may have this many bytes, and take this many tokens: either is too little, or a number is too large.
    TightLimits(u32, u32),
}

impl Reason {
    /// The table that it is about, if it is about one.
    pub fn table(self) -> Option<Tag>
        ensures { result ≡ reason_table self }
    {
        match self {
            Reason::Cut(tag, _, _) => Some(tag),
            Reason::NoTable(tag) => Some(tag),
            Reason::BitmapsAlone(tag) => Some(tag),
            Reason::NoGlyph(_, _) => Some(Tag::MAXP),
            Reason::NoEntries(_) => Some(Tag::LOCA),
            Reason::LocFormat(_) => Some(Tag::HEAD),
            Reason::Descends(_) => Some(Tag::LOCA),
            Reason::Outside(_) => Some(Tag::GLYF),
            Reason::CutHeader(_) => Some(Tag::GLYF),
            Reason::CutComponent(_) => Some(Tag::GLYF),
            Reason::ByComponent(_, _) => Some(Tag::GLYF),
            Reason::NoMetrics => Some(Tag::HHEA),
            Reason::FewMetrics(_) => Some(Tag::HHEA),
            Reason::NoMetric(_) => Some(Tag::HMTX),
            Reason::NoUnits => Some(Tag::HEAD),
            Reason::Short(tag, _, _) => Some(tag),
            Reason::LostName(_) => Some(Tag::NAME),
            Reason::NoUnicode => Some(Tag::new(b"cmap")),
            Reason::ShortMap(_, _, _) => Some(Tag::new(b"cmap")),
            Reason::OnlyCff2 => Some(Tag::CFF2),
            Reason::Forbidden(_, _) => Some(Tag::new(b"OS/2")),
            Reason::LargeAdvance(_, _) => Some(Tag::HMTX),
            Reason::NoIndex(_) => Some(Tag::POST),
            Reason::LostString => Some(Tag::CFF),
            Reason::LargeCff => Some(Tag::CFF),
            Reason::Cff2Version(_) => Some(Tag::CFF2),
            Reason::OtherVersion(tag) => Some(tag),
            Reason::AxisSize(_) => Some(Tag::new(b"fvar")),
            Reason::AxisCount(tag, _, _) => Some(tag),
            Reason::Unread(tag) => Some(tag),
            Reason::NoCharstring(tag, _) => Some(tag),
            Reason::WrongCharstring(tag, _) => Some(tag),
            Reason::Composed(_) => Some(Tag::CFF),
            Reason::WrongOutline(_) => Some(Tag::GLYF),
            Reason::Deep(_) => Some(Tag::GLYF),
            Reason::Unvaried(tag, _) => Some(tag),
            Reason::WrongMetric(_) => Some(Tag::new(b"MVAR")),
            _ => None,
        }
    }

    /// The glyph that it is about, if it is about one.
    pub fn glyph(self) -> Option<u16>
        ensures { result ≡ reason_glyph self }
    {
        match self {
            Reason::NoGlyph(glyph, _) => Some(glyph),
            Reason::NoEntries(glyph) => Some(glyph),
            Reason::Descends(glyph) => Some(glyph),
            Reason::Outside(glyph) => Some(glyph),
            Reason::CutHeader(glyph) => Some(glyph),
            Reason::CutComponent(glyph) => Some(glyph),
            Reason::ByComponent(glyph, _) => Some(glyph),
            Reason::NoMetric(glyph) => Some(glyph),
            Reason::NoIndex(glyph) => Some(glyph),
            Reason::LargeAdvance(glyph, _) => Some(glyph),
            Reason::NoCharstring(_, glyph) => Some(glyph),
            Reason::WrongCharstring(_, glyph) => Some(glyph),
            Reason::Composed(glyph) => Some(glyph),
            Reason::WrongOutline(glyph) => Some(glyph),
            Reason::Deep(glyph) => Some(glyph),
            Reason::Unvaried(_, glyph) => Some(glyph),
            _ => None,
        }
    }
}

/// A number between two texts.
#[derive(Clone, Copy)]
struct Between(&'static str, u32, &'static str);

impl fmt::Display for Between {
    ghost use Rattle.std.specs.Prelude.{Some};
    ghost use Rattle.font_reasons.specs.Texts.{between};

    ghost output = { λ b. Some (between b.0.now b.1 b.2.now) };

    fn fmt<W: fmt::Write>(&self, f: &mut fmt::Formatter<W>) -> fmt::Result {
        write!(f, "{}{}{}", self.0, self.1, self.2)
    }
}

/// That a collection has no face of an index, but this many faces.
#[derive(Clone, Copy)]
struct FaceText(u32, u32);

impl fmt::Display for FaceText {
    ghost use Rattle.std.specs.Prelude.{Some};
    ghost use Rattle.font_reasons.specs.Texts.{no_face_text};

    ghost output = { λ face. Some (no_face_text face.0 face.1) };

    fn fmt<W: fmt::Write>(&self, f: &mut fmt::Formatter<W>) -> fmt::Result {
        let FaceText(index, count) = *self;
        if count == 0 {
            return write!(f, "face {index}: the collection has no face");
        }
        let last = count - 1;
        write!(f, "face {index}: the collection's faces are 0 to {last}")
    }
}

/// That a face has no glyph of a number, but this many glyphs.
#[derive(Clone, Copy)]
struct GlyphText(u16, u16);

impl fmt::Display for GlyphText {
    ghost use Rattle.std.specs.Prelude.{Some};
    ghost use Rattle.font_reasons.specs.Texts.{no_glyph_text};

    ghost output = { λ it. Some (no_glyph_text it.0 it.1) };

    fn fmt<W: fmt::Write>(&self, f: &mut fmt::Formatter<W>) -> fmt::Result {
        let GlyphText(glyph, count) = *self;
        if count == 0 {
            return write!(f, "glyph {glyph}: the font has no glyph");
        }
        let last = count - 1;
        write!(f, "glyph {glyph}: the font's glyphs are 0 to {last}")
    }
}

/// The name of a table.
#[derive(Clone, Copy)]
struct TableName(Tag);

/// The name of a table, without a blank at its end.
#[tactic(auto, using(subsetter_base::proofs::TextLemmas::text_is, subsetter_base::proofs::TextLemmas::dots_are))]
fn table_name(tag: &Tag) -> &str
    ensures { result.now ≡ table_name tag.now }
{
    let bytes = tag.get();
    let name = if bytes[3] == b' ' {
        &bytes[..3]
    } else {
        &bytes[..]
    };
    match std::str::from_utf8(name) {
        Ok(text) => text,
        Err(_) => "...",
    }
}

impl fmt::Display for TableName {
    ghost use Rattle.std.specs.Prelude.{Some};
    ghost use Rattle.font_reasons.specs.Texts.{table_name};

    ghost output = { λ it. Some (table_name it.0) };

    fn fmt<W: fmt::Write>(&self, f: &mut fmt::Formatter<W>) -> fmt::Result {
        f.write_str(table_name(&self.0))
    }
}

/// That a table ends at a byte, past the end of a file of this many.
#[derive(Clone, Copy)]
struct CutText(Tag, u64, u64);

impl fmt::Display for CutText {
    ghost use Rattle.std.specs.Prelude.{Some};
    ghost use Rattle.font_reasons.specs.Texts.{cut_text};

    ghost output = { λ cut. Some (cut_text cut.0 cut.1 cut.2) };

    fn fmt<W: fmt::Write>(&self, f: &mut fmt::Formatter<W>) -> fmt::Result {
        let CutText(tag, end, size) = *self;
        let name = TableName(tag);
        write!(
            f,
            "the file is cut: table {name} ends at byte {end}, the file at {size}"
        )
    }
}

/// That a component is a glyph whose outline isn't there.
#[derive(Clone, Copy)]
struct ComponentText(u16, u16);

impl fmt::Display for ComponentText {
    ghost use Rattle.std.specs.Prelude.{Some};
    ghost use Rattle.font_reasons.specs.Texts.{component_text};

    ghost output = { λ it. Some (component_text it.0 it.1) };

    fn fmt<W: fmt::Write>(&self, f: &mut fmt::Formatter<W>) -> fmt::Result {
        let ComponentText(glyph, component) = *self;
        write!(
            f,
            "glyph {glyph}: its component is glyph {component}, whose outline isn't in the font"
        )
    }
}

/// That a table is too short: how many bytes it has, and how many it needs.
#[derive(Clone, Copy)]
struct ShortText(Tag, u64, u64);

impl fmt::Display for ShortText {
    ghost use Rattle.std.specs.Prelude.{Some};
    ghost use Rattle.font_reasons.specs.Texts.{short_text};

    ghost output = { λ it. Some (short_text it.0 it.1 it.2) };

    fn fmt<W: fmt::Write>(&self, f: &mut fmt::Formatter<W>) -> fmt::Result {
        let ShortText(tag, size, needed) = *self;
        let name = TableName(tag);
        write!(f, "{name}: {size} bytes, needs {needed}")
    }
}

/// That a table of `cmap` is too short, by its format.
#[derive(Clone, Copy)]
struct ShortMapText(u16, u64, u64);

impl fmt::Display for ShortMapText {
    ghost use Rattle.std.specs.Prelude.{Some};
    ghost use Rattle.font_reasons.specs.Texts.{short_map_text};

    ghost output = { λ it. Some (short_map_text it.0 it.1 it.2) };

    fn fmt<W: fmt::Write>(&self, f: &mut fmt::Formatter<W>) -> fmt::Result {
        let ShortMapText(format, size, needed) = *self;
        write!(
            f,
            "cmap: its table in format {format} has {size} bytes, needs {needed}"
        )
    }
}

/// That a table and `fvar` have different axis counts.
#[derive(Clone, Copy)]
struct AxesText(Tag, u16, u16);

impl fmt::Display for AxesText {
    ghost use Rattle.std.specs.Prelude.{Some};
    ghost use Rattle.font_reasons.specs.Texts.{axes_text};

    ghost output = { λ it. Some (axes_text it.0 it.1 it.2) };

    fn fmt<W: fmt::Write>(&self, f: &mut fmt::Formatter<W>) -> fmt::Result {
        let AxesText(tag, count, axes) = *self;
        let name = TableName(tag);
        write!(f, "{name}: axisCount is {count}, that of fvar {axes}")
    }
}

/// Four hexadecimal digits.
#[derive(Clone, Copy)]
struct Hex(u16);

impl fmt::Display for Hex {
    ghost use Rattle.std.specs.Prelude.{Some};
    ghost use Rattle.font_reasons.specs.Texts.{hex_text};

    ghost output = { λ it. Some (hex_text it.0) };

    fn fmt<W: fmt::Write>(&self, f: &mut fmt::Formatter<W>) -> fmt::Result {
        let Hex(number) = *self;
        write!(
            f,
            "{:x}{:x}{:x}{:x}",
            number / 4096,
            number / 256 % 16,
            number / 16 % 16,
            number % 16
        )
    }
}

/// What fsType forbids, by the bit of each.
fn forbidden_by(permission: Permission) -> &'static str
    ensures { result.now ≡ forbidden_by permission }
{
    let embedding = match permission.usage {
        Usage::Restricted => false,
        _ => true,
    };
    match (embedding, permission.subsetting, permission.outlines) {
        (true, true, true) => "",
        (true, true, false) => "outlines (bit 9)",
        (true, false, true) => "subsets (bit 8)",
        (true, false, false) => "subsets (bit 8), outlines (bit 9)",
        (false, true, true) => "embedding (bit 1)",
        (false, true, false) => "embedding (bit 1), outlines (bit 9)",
        (false, false, true) => "embedding (bit 1), subsets (bit 8)",
        (false, false, false) => "embedding (bit 1), subsets (bit 8), outlines (bit 9)",
    }
}

/// That fsType forbids something.
#[derive(Clone, Copy)]
struct ForbiddenText(u16, Permission);

impl fmt::Display for ForbiddenText {
    ghost use Rattle.std.specs.Prelude.{Some};
    ghost use Rattle.font_reasons.specs.Texts.{forbidden_text};

    ghost output = { λ it. Some (forbidden_text it.0 it.1) };

    fn fmt<W: fmt::Write>(&self, f: &mut fmt::Formatter<W>) -> fmt::Result {
        let ForbiddenText(fs_type, permission) = *self;
        let shown = Hex(fs_type);
        write!(
            f,
            "OS/2: fsType 0x{shown} forbids {}",
            forbidden_by(permission)
        )
    }
}

/// Whether a byte is a character of ASCII that can be seen, or a space.
fn is_printable(byte: u8) -> bool
    ensures { result ≡ is_printable byte }
{
    32 <= byte && byte < 127
}

/// Whether four bytes are such characters.
fn is_text(tag: Tag) -> bool
    ensures { result ≡ is_text tag }
{
    let bytes = tag.get();
    is_printable(bytes[0])
        && (is_printable(bytes[1]) && (is_printable(bytes[2]) && is_printable(bytes[3])))
}

/// Four bytes in hexadecimal digits.
#[derive(Clone, Copy)]
struct FrontDigits(Tag);

impl fmt::Display for FrontDigits {
    ghost use Rattle.std.specs.Prelude.{Some};
    ghost use Rattle.font_reasons.specs.Texts.{front_digits};

    ghost output = { λ it. Some (front_digits it.0) };

    fn fmt<W: fmt::Write>(&self, f: &mut fmt::Formatter<W>) -> fmt::Result {
        let FrontDigits(tag) = *self;
        let bytes = tag.get();
        let front = Hex(256 * u16::from(bytes[0]) + u16::from(bytes[1]));
        let back = Hex(256 * u16::from(bytes[2]) + u16::from(bytes[3]));
        write!(f, "{front}{back}")
    }
}

/// Four bytes as a text, where they are one.
#[derive(Clone, Copy)]
struct FrontText(Tag);

impl fmt::Display for FrontText {
    ghost use Rattle.std.specs.Prelude.{Some};
    ghost use Rattle.font_reasons.specs.Texts.{front_text};

    ghost output = { λ it. Some (front_text it.0) };

    fn fmt<W: fmt::Write>(&self, f: &mut fmt::Formatter<W>) -> fmt::Result {
        let FrontText(tag) = *self;
        if is_text(tag) {
            return write!(f, " ({tag})");
        }
        f.write_str("")
    }
}

/// That a file begins with four bytes, as no font does.
#[derive(Clone, Copy)]
struct BeginText(Tag);

impl fmt::Display for BeginText {
    ghost use Rattle.std.specs.Prelude.{Some};
    ghost use Rattle.font_reasons.specs.Texts.{begin_text};

    ghost output = { λ it. Some (begin_text it.0) };

    fn fmt<W: fmt::Write>(&self, f: &mut fmt::Formatter<W>) -> fmt::Result {
        let BeginText(tag) = *self;
        let (digits, text) = (FrontDigits(tag), FrontText(tag));
        write!(
            f,
            "not a font: its first bytes are {digits}{text}, none of TrueType, OpenType, a collection"
        )
    }
}

impl fmt::Display for Reason {
    ghost use Rattle.std.specs.Prelude.{Some};
    ghost use Rattle.font_reasons.specs.Texts.{reason_text};

    ghost output = { λ reason. Some (reason_text reason) };

    fn fmt<W: fmt::Write>(&self, f: &mut fmt::Formatter<W>) -> fmt::Result {
        match *self {
            Reason::Woff => f.write_str("a WOFF file: unpack it first"),
            Reason::Woff2 => f.write_str("a WOFF2 file: unpack it first"),
            Reason::Type1 => f.write_str("a Type 1 font: convert it to OpenType first"),
            Reason::Eot => f.write_str("an EOT file: convert it to OpenType first"),
            Reason::Pdf => f.write_str("not a font: a PDF file"),
            Reason::Begins(tag) => write!(f, "{}", BeginText(tag)),
            Reason::NotFont => {
                f.write_str(
                    "not a font: its first bytes are none of TrueType, OpenType, a collection",
                )
            }
            Reason::Empty => f.write_str("the file is empty"),
            Reason::NoFace(index, count) => write!(f, "{}", FaceText(index, count)),
            Reason::NoHeader(index) => {
                let text = Between("face ", index, ": no font begins where the collection says");
                write!(f, "{text}")
            }
            Reason::CutDirectory => f.write_str("the file is cut in its table directory"),
            Reason::Cut(tag, end, size) => write!(f, "{}", CutText(tag, end, size)),
            Reason::NoOutlines => {
                f.write_str(
                    "the face has no outlines (glyf, CFF, CFF2) and no bitmaps (sbix, CBDT with CBLC, EBDT with EBLC)",
                )
            }
            Reason::BitmapsAlone(tag) => {
                write!(
                    f,
                    "{}: the face has bitmaps and no outlines",
                    TableName(tag)
                )
            }
            Reason::NoGlyph(glyph, count) => write!(f, "{}", GlyphText(glyph, count)),
            Reason::NoTable(tag) => write!(f, "the face has no table {}", TableName(tag)),
            Reason::NoEntries(glyph) => {
                let text = Between("glyph ", u32::from(glyph), ": loca has no entries for it");
                write!(f, "{text}")
            }
            Reason::LocFormat(format) => {
                let text = Between(
                    "head: indexToLocFormat is ",
                    u32::from(format),
                    ", neither 0 nor 1",
                );
                write!(f, "{text}")
            }
            Reason::Descends(glyph) => {
                let text = Between("glyph ", u32::from(glyph), ": its loca entries descend");
                write!(f, "{text}")
            }
            Reason::Outside(glyph) => {
                let text = Between(
                    "glyph ",
                    u32::from(glyph),
                    ": its outline isn't inside glyf",
                );
                write!(f, "{text}")
            }
            Reason::CutHeader(glyph) => {
                let text = Between(
                    "glyph ",
                    u32::from(glyph),
                    ": the header of its outline is cut",
                );
                write!(f, "{text}")
            }
            Reason::CutComponent(glyph) => {
                let text = Between("glyph ", u32::from(glyph), ": a component is cut");
                write!(f, "{text}")
            }
            Reason::ByComponent(glyph, component) => {
                write!(f, "{}", ComponentText(glyph, component))
            }
            Reason::NoMetrics => f.write_str("hhea: numberOfHMetrics is 0"),
            Reason::FewMetrics(count) => {
                let text = Between(
                    "hhea: numberOfHMetrics is ",
                    u32::from(count),
                    ", and hmtx is shorter",
                );
                write!(f, "{text}")
            }
            Reason::NoMetric(glyph) => {
                let text = Between("glyph ", u32::from(glyph), ": hmtx ends before its metrics");
                write!(f, "{text}")
            }
            Reason::NoUnits => f.write_str("head: unitsPerEm is 0"),
            Reason::Short(tag, size, needed) => write!(f, "{}", ShortText(tag, size, needed)),
            Reason::LostName(id) => {
                let text = Between(
                    "name: the string of name ",
                    u32::from(id),
                    " isn't inside the table",
                );
                write!(f, "{text}")
            }
            Reason::NoUnicode => {
                f.write_str(
                    "cmap: no table for Unicode, symbols or Mac Roman in format 0, 4, 6, 12 or 13",
                )
            }
            Reason::ShortMap(format, size, needed) => {
                write!(f, "{}", ShortMapText(format, size, needed))
            }
            Reason::OnlyCff2 => f.write_str("CFF2: its outlines are taken at coordinates alone"),
            Reason::Forbidden(fs_type, permission) => {
                write!(f, "{}", ForbiddenText(fs_type, permission))
            }
            Reason::LargeAdvance(glyph, limit) => {
                write!(f, "glyph {glyph}: its advance is more than {limit}")
            }
            Reason::NoIndex(glyph) => {
                let text = Between(
                    "glyph ",
                    u32::from(glyph),
                    ": post has no index of a name for it",
                );
                write!(f, "{text}")
            }
            Reason::LostString => {
                f.write_str(
                    "CFF: Copyright, Notice or FontName is a string that isn't in the table",
                )
            }
            Reason::LargeCff => {
                f.write_str(
                    "CFF: more than 255 font dicts, a number of more than 64 characters, or offsets past 31 bits",
                )
            }
            Reason::Cff2Version(version) => {
                let text = Between("CFF2: its major version is ", u32::from(version), ", not 2");
                write!(f, "{text}")
            }
            Reason::OtherVersion(tag) => {
                write!(f, "{}: its major version isn't 1", TableName(tag))
            }
            Reason::AxisSize(size) => {
                let text = Between("fvar: axisSize is ", u32::from(size), ", needs 20");
                write!(f, "{text}")
            }
            Reason::AxisCount(tag, count, axes) => write!(f, "{}", AxesText(tag, count, axes)),
            Reason::Unread(tag) => write!(f, "{}: the table can't be read", TableName(tag)),
            Reason::NoCharstring(tag, glyph) => {
                write!(
                    f,
                    "glyph {glyph}: {} has no charstring or private dict for it",
                    TableName(tag)
                )
            }
            Reason::WrongCharstring(tag, glyph) => {
                write!(
                    f,
                    "glyph {glyph}: its charstring in {} is wrong, or passes the limits",
                    TableName(tag)
                )
            }
            Reason::Composed(glyph) => {
                let text = Between(
                    "glyph ",
                    u32::from(glyph),
                    ": its charstring puts two others together",
                );
                write!(f, "{text}")
            }
            Reason::WrongOutline(glyph) => {
                let text = Between("glyph ", u32::from(glyph), ": its outline can't be read");
                write!(f, "{text}")
            }
            Reason::Deep(glyph) => {
                let text = Between(
                    "glyph ",
                    u32::from(glyph),
                    ": a component more than 64 levels deep",
                );
                write!(f, "{text}")
            }
            Reason::Unvaried(tag, glyph) => {
                write!(
                    f,
                    "glyph {glyph}: its variation data in {} can't be read",
                    TableName(tag)
                )
            }
            Reason::WrongMetric(tag) => {
                write!(f, "MVAR: the value of {} can't be read", TableName(tag))
            }
            Reason::AllGlyphs => {
                f.write_str(
                    "glyphs 1 to 65535 are all requested: with glyph 0 that is one more than a font can have",
                )
            }
            Reason::TightLimits(bytes, tokens) => {
                write!(
                    f,
                    "more than the {bytes} bytes or {tokens} tokens of the limits, or a number that is too large"
                )
            }
        }
    }
}
