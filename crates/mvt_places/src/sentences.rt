//! Faults in plain words.
ghost use Rattle.std.specs.Prelude.{◌≡◌, [], ◌∷◌, ◌++◌};
ghost use Rattle.mvt_places.specs.Sentences.{cause_sentence, lookalike_sentence, sentence_for};

use crate::lookalike::{Lookalike, looks_like};
use mvt_tile::Cause;

/// A fault with this cause in a sentence or two: what the input looks like if that isn't a tile, or
/// else which rule is broken.
pub fn sentence(input: &[u8], cause: Cause) -> &'static str
    ensures { result.now ≡ sentence_for input.now cause }
{
    match looks_like(input) {
        Some(lookalike) => sentence_of_lookalike(lookalike),
        None => sentence_of_cause(cause),
    }
}

/// The same with a zero at the end, for C.
pub fn sentence_with_zero(input: &[u8], cause: Cause) -> &'static str
    ensures { result.now ≡ sentence_for input.now cause ++ 0 ∷ [] }
{
    match looks_like(input) {
        Some(lookalike) => lookalike_with_zero(lookalike),
        None => cause_with_zero(cause),
    }
}

/// The sentences of the causes, each with this end.
macro_rules! of_cause {
    ($cause:expr, $end:literal) => {
        match $cause {
            Cause::Truncated => concat!(
                "The bytes end too early: a field reaches past the end of what holds it, or a \
                    number has no end.",
                $end
            ),
            Cause::VarintRange => concat!(
                "A number is spelled in ten bytes and the tenth is above 1, so it has more \
                    than 64 bits.",
                $end
            ),
            Cause::FieldNumber => concat!(
                "A field begins here whose number is 0 or far too large.",
                $end
            ),
            Cause::WireType => concat!(
                "A field begins here with a wire type that isn't allowed: only 0, 1, 2 and 5 \
                    are.",
                $end
            ),
            Cause::WrongType => concat!(
                "A field has another wire type than the one it must have. Its value can't be \
                    read.",
                $end
            ),
            Cause::NumberRange => concat!(
                "A number is above 4,294,967,295 and doesn't fit into 32 bits.",
                $end
            ),
            Cause::NotUtf8 => concat!(
                "A text isn't UTF-8.",
                $end
            ),
            Cause::NoVersion => concat!(
                "The layer has no version. Each layer must say its version, in field 15.",
                $end
            ),
            Cause::NoName => concat!(
                "The layer has no name. Each layer must have one, in field 1; it may be empty.",
                $end
            ),
            Cause::ValueKind => concat!(
                "The value has none or several of the seven kinds (string, float, double, int, \
                    uint, sint, bool). It must have one.",
                $end
            ),
            Cause::GeomType => concat!(
                "The geometry type is above 3. There are 0 unknown, 1 point, 2 line and 3 \
                    polygon.",
                $end
            ),
            Cause::OddTags => concat!(
                "The feature has an odd number of tags. Tags come in pairs: the index of a \
                    key, then that of a value.",
                $end
            ),
            Cause::KeyIndex => concat!(
                "A tag says a key that the layer doesn't have. Keys are counted from 0.",
                $end
            ),
            Cause::ValueIndex => concat!(
                "A tag says a value that the layer doesn't have. Values are counted from 0.",
                $end
            ),
            Cause::RepeatedKey => concat!(
                "The feature has one key twice: it stood earlier among its tags.",
                $end
            ),
            Cause::Command => concat!(
                "The integer isn't the command that is due here. Points are one MoveTo; lines \
                    are MoveTo and LineTo in turn; rings are MoveTo, LineTo and ClosePath.",
                $end
            ),
            Cause::Count => concat!(
                "The command has a count that isn't allowed here.",
                $end
            ),
            Cause::Parameters => concat!(
                "The command wants more integers than the geometry has left.",
                $end
            ),
            Cause::ZeroSegment => concat!(
                "A line goes nowhere: this LineTo moves by (0, 0).",
                $end
            ),
            Cause::CoordinateRange => concat!(
                "The position leaves the range: coordinates are from -2,147,483,647 to \
                    2,147,483,647, and so are steps.",
                $end
            ),
            Cause::FirstRing => concat!(
                "The first ring goes the wrong way round. An exterior ring has positive area, \
                    which is clockwise on the screen.",
                $end
            ),
            Cause::EndsEarly => concat!(
                "The geometry is empty or ends where a command is still due.",
                $end
            ),
            Cause::RepeatedName => concat!(
                "The layer has the name of an earlier layer. Names are given once in a tile.",
                $end
            ),
            Cause::TooLarge => concat!(
                "The input is longer than 67,108,864 bytes (64 MiB).",
                $end
            ),
            Cause::ParameterRange => concat!(
                "A parameter is 4,294,967,295. Its step would be -2,147,483,648, which is out \
                    of range.",
                $end
            ),
        }
    };
}

/// What is said of an input that looks like something else, with this end.
macro_rules! of_lookalike {
    ($lookalike:expr, $end:literal) => {
        match $lookalike {
            Lookalike::Gzip => concat!(
                "This isn't a tile, but looks like gzip. A tile is read uncompressed: unpack \
                    it first.",
                $end
            ),
            Lookalike::Zlib => concat!(
                "This isn't a tile, but looks like zlib. A tile is read uncompressed: unpack \
                    it first.",
                $end
            ),
            Lookalike::Zstd => concat!(
                "This isn't a tile, but looks like zstd. A tile is read uncompressed: unpack \
                    it first.",
                $end
            ),
            Lookalike::Png => concat!(
                "This isn't a tile, but looks like a PNG picture.",
                $end
            ),
            Lookalike::Sqlite => concat!(
                "This isn't a tile, but looks like a SQLite database, as MBTiles are: take a \
                    tile out of it first.",
                $end
            ),
            Lookalike::Pmtiles => concat!(
                "This isn't a tile, but looks like a PMTiles archive: take a tile out of it \
                    first.",
                $end
            ),
            Lookalike::Json => concat!(
                "This isn't a tile, but looks like JSON.",
                $end
            ),
            Lookalike::Html => concat!(
                "This isn't a tile, but looks like HTML. It may be a server's page about an \
                    error.",
                $end
            ),
            Lookalike::Jpeg => concat!(
                "This isn't a tile, but looks like a JPEG picture.",
                $end
            ),
            Lookalike::Gif => concat!(
                "This isn't a tile, but looks like a GIF picture.",
                $end
            ),
            Lookalike::Webp => concat!(
                "This isn't a tile, but looks like a WebP picture.",
                $end
            ),
            Lookalike::FlatGeobuf => concat!(
                "This isn't a tile, but looks like a FlatGeobuf file.",
                $end
            ),
            Lookalike::Xz => concat!(
                "This isn't a tile, but looks like xz. A tile is read uncompressed: unpack it \
                    first.",
                $end
            ),
            Lookalike::Bzip2 => concat!(
                "This isn't a tile, but looks like bzip2. A tile is read uncompressed: unpack it \
                    first.",
                $end
            ),
            Lookalike::Zip => concat!(
                "This isn't a tile, but looks like a ZIP archive: unpack it first.",
                $end
            ),
            Lookalike::Pdf => concat!(
                "This isn't a tile, but looks like a PDF document.",
                $end
            ),
            Lookalike::OsmPbf => concat!(
                "This isn't a tile, but looks like OpenStreetMap data (PBF), which has no tiles.",
                $end
            ),
            Lookalike::Xml => concat!(
                "This isn't a tile, but looks like XML. It may be a server's message about an \
                    error.",
                $end
            ),
            Lookalike::PlainText => concat!(
                "This isn't a tile, but looks like plain text. It may be a server's message about \
                    an error.",
                $end
            ),
            Lookalike::Brotli => concat!(
                "This isn't a tile, but looks like brotli. A tile is read uncompressed: unpack it \
                    first.",
                $end
            ),
            Lookalike::Mbtiles => concat!(
                "This isn't a tile, but looks like a SQLite database, as MBTiles are: take a tile \
                    out of it first. `mvt-audit` judges each tile in it.",
                $end
            ),
        }
    };
}

#[tactic(auto, unfolding(crate::specs::Sentences::cause_sentence))]
fn sentence_of_cause(cause: Cause) -> &'static str
    ensures { result.now ≡ cause_sentence cause }
{
    of_cause!(cause, "")
}

/// Which rule is broken, with a zero at the end, for C.
#[tactic(auto, unfolding(crate::specs::Sentences::cause_sentence))]
pub fn cause_with_zero(cause: Cause) -> &'static str
    ensures { result.now ≡ cause_sentence cause ++ 0 ∷ [] }
{
    of_cause!(cause, "\0")
}

#[tactic(auto, unfolding(crate::specs::Sentences::lookalike_sentence))]
fn sentence_of_lookalike(lookalike: Lookalike) -> &'static str
    ensures { result.now ≡ lookalike_sentence lookalike }
{
    of_lookalike!(lookalike, "")
}

#[tactic(auto, unfolding(crate::specs::Sentences::lookalike_sentence))]
fn lookalike_with_zero(lookalike: Lookalike) -> &'static str
    ensures { result.now ≡ lookalike_sentence lookalike ++ 0 ∷ [] }
{
    of_lookalike!(lookalike, "\0")
}
