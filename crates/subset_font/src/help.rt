//! What `--help` and `--version` print.

/// What `--version` prints: the version of the program, which the file `VERSION` at the top of the repository says too
/// (that of the crate that it ports, and after the plus its own), and that of the crate.
pub const VERSION_LINE: &str = "subset_font 1.0.0, a port of the Rust crate subsetter 0.2.6\n";

/// What `--help` prints.
pub const HELP: &str = "usage: subset_font [OPTIONS] IN OUT INDEX GID[,GID..]
       subset_font [OPTIONS] IN OUT INDEX
       subset_font [OPTIONS] IN -o OUT [OPTIONS]
       subset_font [OPTIONS] IN --pdf FILE [OPTIONS]
       subset_font --axes [--json] IN [INDEX]
       subset_font --info [--json] IN [INDEX]
       subset_font --batch FILE

Writes a font with glyph 0 and the requested glyphs of IN,
under new numbers from 1, and prints a line `old -> new`
for each of them.

  IN     the font: TrueType, OpenType or a collection;
         - is standard input
  OUT    the new font; - is standard output, and then the
         lines go to standard error
  INDEX  the face of a collection, from 0
  GID    the number of a glyph in IN

Options are before IN, each at most once, in any order.
With -o or --pdf they may also be after IN. --text=ABC is
--text ABC, and so with each long option and its value.

Which glyphs, where no GID is given; of several options
those of one after another:
  --gids LIST       numbers and ranges, as 3,5,10-20, or *
                    for every glyph
  --gids-file FILE  the same from a file, also with blanks
                    and line ends; - is standard input
  --text TEXT       the glyphs of TEXT's characters by the
                    font's cmap, unshaped
  --text-file FILE  the same of a file's text, without its
                    line ends
  --unicodes LIST   the glyphs of characters, by hexadecimal
                    numbers and ranges, U+0041-005A,20AC; U+
                    may be left out
  --unicodes-file FILE
                    the same from a file, also with blanks
                    and line ends
  --strict          refuses a character without a glyph
A character without a glyph is shown by glyph 0, with a note
on standard error. D800-DFFF are no characters, and are
passed over.

Which files:
  -o OUT, --output-file OUT
                    the new font
  --face-index INDEX
                    the face, with -o or --pdf (default 0)
  --most-input BYTES
                    the most bytes of IN (default 1 GiB)

A PDF that shows the glyphs, also in place of OUT:
  --pdf FILE        the PDF, with their font: the line of
                    --text or --text-file, else a grid of
                    the glyphs; - is standard output
  --vertical        its text runs from top to bottom
  --codes KIND      the codes in its strings: consecutive
                    (new numbers, as printed), source (the
                    numbers in IN), or text (one for each
                    glyph with each text)
  --rights RIGHTS   held: you may embed the font, whatever
                    it says (fsType)
  --allow-blank     takes glyphs that have other pictures
                    and no outline, as blanks

What the new font has:
  --at TAG=VALUE[,TAG=VALUE..]
                    a variable font at coordinates, as
                    wght=650,wdth=87.5, or at a named
                    instance, as Bold or bold; empty: at the
                    default. CFF2 outlines become CFF, and
                    need this option where GID is given
  --no-hinting      leaves out the instructions of TrueType
                    outlines
  --no-names        leaves out the table name
  --no-glyph-names  leaves out the names of glyphs in post
  --small           leaves out all three
  --limits TOKENS,DEPTH[,BYTES]
                    the most numbers and operators of a
                    glyph, the greatest depth of its
                    subroutines (default 1000000,64), and
                    the most bytes of the new font
With --at an axis that isn't named is at its default. Of a
tag that is given twice the last value counts. A tag that
the font lacks is passed over, and a value outside its axis
is clamped, with a note on standard error.

What is printed:
  --widths          also the widths, for W in a PDF
  --verbose         also each table's bytes before and after
  --json            one JSON object in place of the lines
  --quiet           no lines
  --axes            must be the first argument: the outlines
                    of IN; its axes, by tag, least, default
                    and greatest coordinate; and its named
                    instances
  --info            must be the first argument: outlines,
                    glyphs, pictures of these and tables of
                    IN, what its maker permits, and whether
                    a subset is made of it
  --batch FILE      must be the first argument: does what
                    each line of FILE requests, a JSON
                    object with the members in, out, index
                    and the long options' names, and prints
                    an object for each, like --json; - is
                    standard input. Built by Cargo also with
                    --jobs N: in N threads
  -h, --help        this text
  --version         the version

  --                ends the options

Status: 0 OUT has the new font, and FILE the PDF, 1 the font
or a glyph is refused, may not be embedded, or memory ran
out, 2 an argument is wrong, 3 a file can't be read or
written. With --axes and --info: 0 it is printed, for --info
also where a subset would be refused, 1 IN is no font, or
with --axes its table fvar is cut. With --batch: 1 a request
failed, 2 FILE can't be read.

Examples:
  subset_font DejaVuSans.ttf subset.ttf 0 36,37,38
  subset_font DejaVuSans.ttf --text ABC -o subset.ttf
  subset_font DejaVuSans.ttf --text ABC --pdf abc.pdf
  subset_font --no-names --gids 36-38 in.otf - 0 > out.otf
";
