//! Inputs that are no tiles but look like something else.
ghost use Rattle.std.specs.Prelude.{◌≡◌, take, drop};
ghost use Rattle.mvt_places.specs.Lookalikes as spec;
ghost use Rattle.mvt_places.specs.Lookalikes.{database_of, lookalike_of, marked_of, lookalike_number, unmarked_of};

use crate::brotli::is_brotli;
use crate::plain_text::{inner_text, is_text};

/// What an input looks like that isn't a tile.
#[derive(Clone, Copy, Debug, PartialEq, Eq)]
pub enum Lookalike {
    Gzip,
    Zlib,
    Zstd,
    Png,
    /// A database that isn't seen to be an MBTiles store.
    Sqlite,
    Pmtiles,
    Json,
    Html,
    Jpeg,
    Gif,
    Webp,
    FlatGeobuf,
    Xz,
    Bzip2,
    Zip,
    Pdf,
    /// Data of OpenStreetMap, as `.osm.pbf`.
    OsmPbf,
    Xml,
    PlainText,
    Brotli,
    /// A database with the tables of MBTiles.
    Mbtiles,
}

impl Lookalike {
    /// Its number in `mvt.h`.
    pub fn number(self) -> u32
        ensures { result ≡ lookalike_number self }
    {
        match self {
            Lookalike::Gzip => 1,
            Lookalike::Zlib => 2,
            Lookalike::Zstd => 3,
            Lookalike::Png => 4,
            Lookalike::Sqlite => 5,
            Lookalike::Pmtiles => 6,
            Lookalike::Json => 7,
            Lookalike::Html => 8,
            Lookalike::Jpeg => 9,
            Lookalike::Gif => 10,
            Lookalike::Webp => 11,
            Lookalike::FlatGeobuf => 12,
            Lookalike::Xz => 13,
            Lookalike::Bzip2 => 14,
            Lookalike::Zip => 15,
            Lookalike::Pdf => 16,
            Lookalike::OsmPbf => 17,
            Lookalike::Xml => 18,
            Lookalike::PlainText => 19,
            Lookalike::Brotli => 20,
            Lookalike::Mbtiles => 21,
        }
    }
}

/// What an input looks like that was refused: by its first bytes, as a text, or as brotli, whose
/// first block is longer than the input. `None` if it may be meant as a tile.
#[tactic(auto, unfolding(crate::specs::Lookalikes::lookalike_of))]
pub fn looks_like(input: &[u8]) -> Option<Lookalike>
    ensures { result ≡ lookalike_of input.now }
{
    if input.starts_with(&[0x1f, 0x8b]) {
        return Some(Lookalike::Gzip);
    }
    if is_zlib(input) {
        return Some(Lookalike::Zlib);
    }
    if input.starts_with(&[0x28, 0xb5, 0x2f, 0xfd]) {
        return Some(Lookalike::Zstd);
    }
    if input.starts_with(&[0x89, b'P', b'N', b'G']) {
        return Some(Lookalike::Png);
    }
    if input.starts_with(b"SQLite format 3") {
        return Some(database(input));
    }
    if input.starts_with(b"PMTiles") {
        return Some(Lookalike::Pmtiles);
    }
    if input.starts_with(b"{") || input.starts_with(b"[") {
        return Some(Lookalike::Json);
    }
    if input.starts_with(b"<") {
        return Some(Lookalike::Html);
    }
    match marked(input) {
        Some(marked) => Some(marked),
        None => unmarked(input),
    }
}

/// The head of RFC 1950.
fn is_zlib(input: &[u8]) -> bool
    ensures { result ≡ spec.is_zlib input.now }
{
    match input {
        [a, b, ..] => {
            *a % 16 == 8 && *a < 128 && (256 * u32::from(*a) + u32::from(*b)) % 31 == 0
        }
        _ => false,
    }
}

/// A database of SQLite, with or without the tables of MBTiles.
#[tactic(auto, unfolding(crate::specs::Lookalikes::database_of))]
fn database(input: &[u8]) -> Lookalike
    ensures { result ≡ database_of input.now }
{
    if holds(front(input, 65_536), b"tile_column") {
        return Lookalike::Mbtiles;
    }
    Lookalike::Sqlite
}

/// Whether a text stands somewhere in the bytes.
#[tactic(auto, unfolding(crate::specs::Lookalikes::holds))]
fn holds(bytes: &[u8], text: &[u8]) -> bool
    ensures { result ≡ spec.holds text.now bytes.now }
{
    let mut rest = bytes;
    while let [_, others @ ..] = rest {
        if rest.starts_with(text) {
            return true;
        }
        rest = others;
    }
    false
}

/// Formats that begin with a mark.
#[tactic(auto, unfolding(crate::specs::Lookalikes::marked_of))]
fn marked(input: &[u8]) -> Option<Lookalike>
    ensures { result ≡ marked_of input.now }
{
    if input.starts_with(&[0xff, 0xd8, 0xff]) {
        return Some(Lookalike::Jpeg);
    }
    if input.starts_with(b"GIF8") {
        return Some(Lookalike::Gif);
    }
    if input.starts_with(b"RIFF") && behind(input, 8).starts_with(b"WEBP") {
        return Some(Lookalike::Webp);
    }
    if input.starts_with(b"fgb\x03") {
        return Some(Lookalike::FlatGeobuf);
    }
    if input.starts_with(b"\xfd7zXZ") {
        return Some(Lookalike::Xz);
    }
    if input.starts_with(b"BZh") {
        return Some(Lookalike::Bzip2);
    }
    if input.starts_with(b"PK\x03\x04") {
        return Some(Lookalike::Zip);
    }
    if input.starts_with(b"%PDF-") {
        return Some(Lookalike::Pdf);
    }
    if behind(input, 4).starts_with(b"\n\tOSMHeader") {
        return Some(Lookalike::OsmPbf);
    }
    None
}

/// What has no mark: a text, or brotli.
fn unmarked(input: &[u8]) -> Option<Lookalike>
    ensures { result ≡ unmarked_of input.now }
{
    if is_text(input) {
        return Some(kind_of_text(inner_text(input)));
    }
    if is_brotli(input) {
        return Some(Lookalike::Brotli);
    }
    None
}

/// A text's kind, by what stands behind its mark and white space.
#[tactic(auto, unfolding(crate::specs::Lookalikes::kind_of_text))]
fn kind_of_text(text: &[u8]) -> Lookalike
    ensures { result ≡ spec.kind_of_text text.now }
{
    if text.starts_with(b"<?xml") {
        return Lookalike::Xml;
    }
    if text.starts_with(b"<") {
        return Lookalike::Html;
    }
    if text.starts_with(b"{") || text.starts_with(b"[") {
        return Lookalike::Json;
    }
    Lookalike::PlainText
}

/// At most so many of the first bytes.
pub(crate) fn front(bytes: &[u8], most: usize) -> &[u8]
    ensures { result.now ≡ take most bytes.now }
{
    &bytes[..bytes.len().min(most)]
}

/// The bytes behind so many.
pub(crate) fn behind(bytes: &[u8], count: usize) -> &[u8]
    ensures { result.now ≡ drop count bytes.now }
{
    &bytes[bytes.len().min(count)..]
}
